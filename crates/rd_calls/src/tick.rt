//! The move of a tick in the middle.
ghost use Rattle.std.specs.Prelude.{◌≡◌, ◌+◌, ◌*◌, ◌<◌, length, true, OnOk, OnErr};
ghost use Rattle.rd_app.specs.Application.{priorities_of};
ghost use Rattle.rd_state.specs.EditingView.{Reaches, GivesUp};
ghost use Rattle.rd_state.specs.Settled.{IsSettled};
ghost use Rattle.rd_state.specs.Valid.{IsValid};
ghost use Rattle.rd_calls.specs.Step.{ticked, tick_step, last_tick};

use rd_app::app::Program;
use rd_bytes::no_memory::NoMemory;
use rd_kernel::changes::set_turn;
use rd_kernel::waking::wake_if_due;
use rd_state::change::Change;
use rd_state::editing::Editing;

// The tick that begins, and the end of waiting for those whose time is up, by rising number.
fn begin_tick(app: &Program, editing: &mut Editing, tick: u32) -> Result<(), NoMemory>
    requires valid { IsValid app.now editing.old.now }
    requires tick { tick ≡ editing.old.now.tick + 1 }
    ensures ok { OnOk result
        (Reaches editing.old editing.new (ticked (priorities_of app.now) editing.old.now)
        (1 + 3 * length editing.old.now.tasks)) }
    ensures err { OnErr result (GivesUp editing.old editing.new
        (1 + 3 * length editing.old.now.tasks)) }
{
    editing.change(Change::SetTick { tick })?;
    for task in 0..editing.state().task_count() {
        editing.state().sizes();
        wake_if_due(editing, app.priorities(), task)?;
    }
    Ok(())
}

/// A tick passes (`xTaskIncrementTick`): tasks whose time is up are woken, the scheduler runs, and
/// then tasks of one priority take turns on core `tick % cores`.
pub fn move_tick(app: &Program, editing: &mut Editing) -> Result<(), NoMemory>
    requires valid { IsValid app.now editing.old.now }
    requires later { editing.old.now.tick < last_tick }
    requires calm { editing.old.outset.calm ≡ true
        → IsSettled (priorities_of app.now) editing.old.outset.state }
    ensures ok { OnOk result (Reaches editing.old editing.new (tick_step app.now editing.old.now)
        (5 + 3 * length editing.old.now.tasks + 3 * length editing.old.now.cores)) }
    ensures err { OnErr result (GivesUp editing.old editing.new
        (5 + 3 * length editing.old.now.tasks + 3 * length editing.old.now.cores)) }
{
    app.limits();
    let tick = editing.state().tick() + 1;
    let core = tick as usize % editing.state().cores().len();
    begin_tick(app, editing, tick)?;
    editing.settle(app.priorities())?;
    editing.rotate(app.priorities(), core)?;
    set_turn(editing, 0)
}
