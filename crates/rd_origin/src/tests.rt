//! What lines leave of the built-in application, and why lines have no start.

use crate::cause::NoOrigin;
use crate::origin::origin;
use rd_names::app::App;
use rd_refusal::refusal::Refusal;
use rd_state::state::State;
use std::alloc::Global;
use std::fmt::Debug;
use std::process::Abort;
use std::rt::HostRuntime;
use std::test::Fail;

// Lines, and what they leave: where the task is in its script, its register 0, how many items its
// queue has, and the tick.
const LEFT: [(&str, (usize, u32, usize, u32)); 12] = [
    ("", (0, 0, 0, 0)),
    ("step 0\nstep 0\nstep 0\nstep 0\n", (4, 0, 2, 0)),
    ("step 0\nstep 0\nstep 0", (3, 1, 2, 0)),
    ("step 0\r\n  step   0000000000 \r\n", (2, 1, 1, 0)),
    (
        "step 0\nstep 0\nstep 0\nstep 0\nshow queue q0\nback 4",
        (0, 0, 0, 0),
    ),
    (
        "step 0\nstep 0\nstep 0\nstep 0\nback 2\nshow moves\npoke reg t0 0 7",
        (2, 7, 1, 0),
    ),
    (
        "step 0\nstep 0\nstep 0\nstep 0\nback 2\nredo 1",
        (3, 1, 2, 0),
    ),
    ("forward 3", (2, 1, 1, 1)),
    (
        "step 0\nstep 0\nstep 0\nback until count q0 = 1",
        (2, 1, 1, 0),
    ),
    ("until count q0 = 1 9", (2, 1, 1, 1)),
    (
        "wheel take\nstep 0\ntrim 0\nunwatch 3\nwatch tick > 3\nshow cores",
        (1, 0, 0, 0),
    ),
    (
        "step 0\nstep 0\nback 1\nback 1\nforward 1\ntick\nback 2",
        (0, 0, 0, 0),
    ),
];

// Lines, with the number of the first that isn't played, and why its command is refused, if it is
// one.
const STOPPED: [(&str, usize, Option<Refusal>); 11] = [
    ("back 1", 1, Some(Refusal::TooFar { kept: 0 })),
    (
        "step 0\nback 1\npoke reg t0 0 7\nredo 1\nstep 9",
        4,
        Some(Refusal::NothingUndone),
    ),
    ("step 9", 1, Some(Refusal::NoSuch)),
    ("tick\nshow task t9", 2, Some(Refusal::NoSuch)),
    ("poke pc t0 5\nstep 0", 1, Some(Refusal::BadEdit)),
    ("tick\nisr send q0 41", 2, Some(Refusal::NoIsr)),
    (
        "step 0\ntrim 0\nback 1",
        3,
        Some(Refusal::TooFar { kept: 0 }),
    ),
    ("tick\ntick\nuntil w3 1", 3, Some(Refusal::NoWatch)),
    ("step 0\n\nstep 0", 2, None),
    ("tick\n# a remark", 2, None),
    ("step 0\r", 1, None),
];

// What was found is what was wanted.
fn assert_same<T: PartialEq + Debug + Copy>(rt: &impl Abort, found: T, wanted: T) {
    assert_eq!(rt; found, wanted);
}

// What is looked at in a state.
fn seen(rt: &impl Abort, state: &State) -> (usize, u32, usize, u32) {
    assert!(rt; state.task_count() == 1 && state.queue_count() == 1);
    let task = state.task(0);
    (
        task.pc(),
        task.register(0),
        state.queue(0).count(),
        state.tick(),
    )
}

#[test]
fn lines_leave_what_their_moves_give(rt: HostRuntime) -> Result<(), Fail> {
    let alloc = rt.alloc();
    let app = App::builtin(alloc)?;
    for (text, wanted) in LEFT {
        let state = origin(alloc, &app, text)?;
        assert_same(&rt, seen(&rt, &state), wanted);
    }
    Ok(())
}

#[test]
fn the_first_line_that_is_not_played_is_named(rt: HostRuntime) -> Result<(), Fail> {
    let alloc = rt.alloc();
    let app = App::builtin(alloc)?;
    for (text, line, refusal) in STOPPED {
        let wanted = match refusal {
            Some(refusal) => NoOrigin::Refused { line, refusal },
            None => NoOrigin::BadLine { line },
        };
        match origin(alloc, &app, text) {
            Ok(_state) => assert_same(&rt, None, Some(wanted)),
            Err(cause) => assert_same(&rt, Some(cause), Some(wanted)),
        }
    }
    Ok(())
}
