//! An edit of a state, and the way back.

ghost use Rattle.rd_state.specs.Valid.{IsValid};

use crate::asserts::assert_same;
use rd_app::app::Program;
use rd_edits::edit::{is_good, make};
use rd_moves::edit::Edit;
use rd_state::editing::Editing;
use rd_state::state::State;
use std::test::Fail;

// Register 0 of the first task becomes 7, and then what it was. Answers both values.
fn edits_and_goes_back(app: &Program, editing: &mut Editing) -> Option<(u32, u32)>
    requires { IsValid app.now editing.old.now }
{
    app.limits();
    let edit = Edit::Register {
        task: 0,
        register: 0,
        value: 7,
    };
    if !is_good(&edit, app, editing.state()) {
        return None;
    }
    editing.begin();
    make(&edit, app, editing).ok()?;
    let edited = editing.state().task(0).register(0);
    editing.roll_back();
    Some((edited, editing.state().task(0).register(0)))
}

#[test]
fn register_is_edited(rt: HostRuntime) -> Result<(), Fail> {
    let alloc = rt.alloc();
    let app = Program::builtin(alloc)?;
    let boot = State::boot(alloc, &app)?;
    let mut editing = Editing::new(alloc, boot);
    let values = edits_and_goes_back(&app, &mut editing);
    editing.retire();
    assert_same(&rt, values, Some((7, 0)));
    Ok(())
}
