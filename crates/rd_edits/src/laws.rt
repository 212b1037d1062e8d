//! Laws of edits, in their own words.

ghost use Rattle.std.specs.Prelude.{◌≡◌, true};
ghost use Rattle.rd_state.specs.Valid.{IsValid};
ghost use Rattle.rd_edits.specs.EditLaws.{EditsChangeOneThing, EditsWriteOneSpot};
ghost use Rattle.rd_edits.specs.Edits.{edited, is_good_edit};
ghost use Rattle.rd_moves.specs.Edits.{IsEditOf};

use rd_app::app::Program;
use rd_moves::edit::Edit;
use rd_state::state::State;

/// A law: a valid state stays valid after an edit that can be made, whichever it is.
pub fn edits_preserve_validity(app: &Program, state: &State, edit: &Edit)
    requires valid { IsValid app.now state.now }
    requires named { IsEditOf app.now edit.now }
    requires good { is_good_edit app.now state.now edit.now ≡ true }
    ensures { IsValid app.now (edited state.now edit.now) }
{
    let _ = state;
    app.limits();
    edit.sizes();
}

/// A law: an edit changes one thing: the tick, the turn, who is on the cores and who is ready stay,
/// and so do all other tasks and objects. Of the thing itself it leaves the phase, what its entries
/// wait for, who waits where and whom a place names. So whoever waited waits on, and nothing is
/// left to be scheduled if nothing was.
pub fn edits_change_one_thing()
    ensures { EditsChangeOneThing }
{}

/// A law: an edit that can be made writes what it says at its spot, and nothing elsewhere: each
/// other register, data, next instruction, value of an entry, bits, item and byte stays as it was.
pub fn edits_write_one_spot()
    ensures { EditsWriteOneSpot }
{}
