//! Runs both ways: on by policy, until a condition holds, back to where one held, and again.

use crate::programs::{assert_ending, run_file};
use crate::tasks::{FileRun, assert_rows};
use std::test::Fail;

// The built-in application.
const BUILTIN: &str = concat!(
    r#"{"profile":1,"cores":1,"queues":[{"name":"q0","length":2,"item":1}],"#,
    r#""tasks":[{"name":"t0","priority":1,"code":["data 41","send q0 0","send q0 0","#,
    r#""send q0 0","end"]}]}"#,
);

// An item comes and goes, twice.
const TWICE: &str = concat!(
    r#"{"profile":1,"cores":1,"queues":[{"name":"q0","length":2,"item":1}],"#,
    r#""tasks":[{"name":"t0","priority":1,"code":["data 41","send q0 0","recv q0 0","#,
    r#""data 42","send q0 0","recv q0 0","set r1 9","end"]}]}"#,
);

// Two tasks that go round on two cores, and two on one core.
const TWO_CORES: &str = concat!(
    r#"{"profile":1,"cores":2,"#,
    r#""tasks":[{"name":"t0","priority":1,"code":["jump 0"]},"#,
    r#"{"name":"t1","priority":1,"code":["jump 0"]}]}"#,
);

const ONE_CORE: &str = concat!(
    r#"{"profile":1,"cores":1,"#,
    r#""tasks":[{"name":"t0","priority":1,"code":["jump 0"]},"#,
    r#"{"name":"t1","priority":1,"code":["jump 0"]}]}"#,
);

// One tick before the last.
const LATE: &str = concat!(
    r#"{"profile":1,"cores":1,"tick":4294967294,"#,
    r#""tasks":[{"name":"t0","priority":1,"code":["jump 0"]}]}"#,
);

const FORWARD: [FileRun; 5] = [
    FileRun {
        name: "round_robin",
        app: ONE_CORE,
        commands: "forward 3\nshow cores\nback 3\nshow cores\n",
        replies: "ok at 3\ncores t1 ready t0 tick 1 turn 1\n\
                  ok at 0\ncores t0 ready t1 tick 0 turn 0\n",
    },
    FileRun {
        name: "forward goes by rounds of busy cores",
        app: TWO_CORES,
        commands: "forward 2\nshow cores\nforward 1\nshow cores\nforward 4\nshow cores\n",
        replies: "ok at 2\ncores t0,t1 ready - tick 0 turn 2\n\
                  ok at 3\ncores t0,t1 ready - tick 1 turn 0\n\
                  ok at 7\ncores t0,t1 ready - tick 2 turn 1\n",
    },
    FileRun {
        name: "a step chooses another order",
        app: TWO_CORES,
        commands: "step 1\nforward 1\nshow cores\nstep 0\nforward 1\nshow cores\n",
        replies: "ok at 1\nok at 2\ncores t0,t1 ready - tick 1 turn 0\n\
                  ok at 3\nok at 4\ncores t0,t1 ready - tick 1 turn 2\n",
    },
    FileRun {
        name: "a run is refused at the last tick",
        app: LATE,
        commands: "forward 1\nback 1\nforward 4\nshow moves\nshow cores\nforward 3\nforward 1\n\
                   show moves\n",
        replies: "ok at 1\nok at 0\nno TickLimit\nmoves 0 undone 1 kept 0\n\
                  cores t0 ready - tick 4294967294 turn 0\nok at 3\nno TickLimit\n\
                  moves 3 undone 0 kept 3\n",
    },
    FileRun {
        name: "no runs",
        app: BUILTIN,
        commands: "forward\nforward 0\nforward 1000001\nforward 1 1\nforward x\nshow moves 1\n",
        replies: "no Syntax\nno Syntax\nno Syntax\nno Syntax\nno Syntax\nno Syntax\n",
    },
];

// A run makes the moves of the written choice, all of them or none.
#[test]
fn forward(rt: HostRuntime) -> Result<(), Fail> {
    assert_rows(&rt, &FORWARD)
}

/// An edit behind moves that were taken back, to the built-in application, and what is answered.
pub const EDIT_FORGETS_THE_UNDONE: &str = "step 0\nstep 0\nstep 0\nstep 0\nback 2\nshow moves\n\
     poke reg t0 0 7\nredo 1\nshow moves\n";

pub const EDIT_FORGETS_THE_UNDONE_REPLIES: &str = "ok at 1\nok at 2\nok at 3\nok at 4\nok at 2\n\
     moves 2 undone 2 kept 2\nok at 3\nno NothingUndone\nmoves 3 undone 0 kept 3\n";

const REDO: [FileRun; 5] = [
    FileRun {
        name: "edit_forgets_the_undone",
        app: BUILTIN,
        commands: EDIT_FORGETS_THE_UNDONE,
        replies: EDIT_FORGETS_THE_UNDONE_REPLIES,
    },
    FileRun {
        name: "without the edit",
        app: BUILTIN,
        commands: "step 0\nstep 0\nstep 0\nstep 0\nback 2\nshow moves\nredo 1\nshow moves\n\
                   show queue q0\n",
        replies: "ok at 1\nok at 2\nok at 3\nok at 4\nok at 2\nmoves 2 undone 2 kept 2\nok at 3\n\
                  moves 3 undone 1 kept 3\nqueue q0 2/2 items 41,41 recv - send - set -\n",
    },
    FileRun {
        name: "moves are made again as they were",
        app: TWO_CORES,
        commands: "tick\nstep 1\ntick\nback 3\nredo 2\nshow cores\nredo 1\nshow cores\nredo 1\n",
        replies: "ok at 1\nok at 2\nok at 3\nok at 0\nok at 2\n\
                  cores t0,t1 ready - tick 1 turn 2\nok at 3\n\
                  cores t0,t1 ready - tick 2 turn 0\nno NothingUndone\n",
    },
    FileRun {
        name: "edits are made again as they were",
        app: BUILTIN,
        commands: "poke reg t0 1 5\nstep 0\npoke data t0 42ff\nback 3\nshow task t0\nredo 3\n\
                   show task t0\nback 2\nredo 1\nshow task t0\n",
        replies: "ok at 1\nok at 2\nok at 3\nok at 0\n\
                  task t0 core 0 pc 0 phase run regs 0,0,0,0,0,0,0,0 data - notes 0:idle\n\
                  ok at 3\n\
                  task t0 core 0 pc 1 phase run regs 0,5,0,0,0,0,0,0 data 42ff notes 0:idle\n\
                  ok at 1\nok at 2\n\
                  task t0 core 0 pc 1 phase run regs 0,5,0,0,0,0,0,0 data 41 notes 0:idle\n",
    },
    FileRun {
        name: "fewer are undone",
        app: BUILTIN,
        commands: "redo 1\nforward 3\nback 2\nredo 3\nshow moves\nstep 0\nredo 1\nredo 0\nredo\n\
                   redo 1000001\n",
        replies: "no NothingUndone\nok at 3\nok at 1\nno NothingUndone\nmoves 1 undone 2 kept 1\n\
                  ok at 2\nno NothingUndone\nno Syntax\nno Syntax\nno Syntax\n",
    },
];

// Moves that were taken back are made again as they were, until the next new one.
#[test]
fn redo(rt: HostRuntime) -> Result<(), Fail> {
    assert_rows(&rt, &REDO)
}

const UNTIL: [FileRun; 4] = [
    FileRun {
        name: "runs_to_a_condition",
        app: TWICE,
        commands: "step 0\nstep 0\nstep 0\nstep 0\nstep 0\nstep 0\nstep 0\n\
                   back until count q0 = 1\nback until count q0 = 1\nback until count q0 = 1\n\
                   until count q0 = 1 9\nuntil count q0 = 2 1\n",
        replies: "ok at 1\nok at 2\nok at 3\nok at 4\nok at 5\nok at 6\nok at 7\n\
                  ok at 5 met\nok at 2 met\nok at 0 start\nok at 3 met\nok at 4 limit\n",
    },
    FileRun {
        name: "the first place isn't looked at",
        app: BUILTIN,
        commands: "until pc t0 = 0 1\nback until pc t0 = 1\nuntil pc t0 = 0 2\nuntil pc t0 = 1 1\n\
                   back until pc t0 = 1\nshow moves\n",
        replies: "ok at 1 limit\nok at 0 start\nok at 2 limit\nok at 3 limit\nok at 2 met\n\
                  moves 2 undone 1 kept 2\n",
    },
    FileRun {
        name: "a refused search changes nothing",
        app: LATE,
        commands: "forward 1\nback 1\nuntil pc t0 = 1 9\nshow moves\nshow cores\n\
                   until tick = 4294967295 9\n",
        replies: "ok at 1\nok at 0\nno TickLimit\nmoves 0 undone 1 kept 0\n\
                  cores t0 ready - tick 4294967294 turn 0\nok at 2 met\n",
    },
    FileRun {
        name: "no searches",
        app: BUILTIN,
        commands: "until count q0 = 1\nuntil count q0 = 1 0\nuntil count q0 = 1 1000001\nuntil\n\
                   back until\nback until 1\nuntil count q1 = 1 1\nback until count t0 = 1\n\
                   back until count q0 = 1 9\n",
        replies: "no Syntax\nno Syntax\nno Syntax\nno Syntax\nno Syntax\nno Syntax\nno NoSuch\n\
                  no NoSuch\nno Syntax\n",
    },
];

// A run stops at the first place where its condition holds, and a way back at the last earlier one.
#[test]
fn until(rt: HostRuntime) -> Result<(), Fail> {
    assert_rows(&rt, &UNTIL)
}

// A run that is refused leaves target, moves done and moves undone.
#[test]
fn refused_run_leaves_nothing(rt: HostRuntime) -> Result<(), Fail> {
    let commands = "forward 2\nback 1\nforward 5\nshow moves\nuntil tick = 9 5\nshow moves\n\
                    redo 1\nforward 1\npoke reg t0 0 1\nforward 1\nback 1\npoke pc t0 9\n";
    let replies = "ok at 2\nok at 1\nno MovesFull\nmoves 1 undone 1 kept 1\nno MovesFull\n\
                   moves 1 undone 1 kept 1\nok at 2\nok at 3\nno MovesFull\nno MovesFull\nok at 2\n\
                   no BadEdit\n";
    let words = ["--moves", "3"];
    let ending = run_file(&rt, "few.json", BUILTIN.as_bytes(), &words, commands)?;
    assert_ending(&rt, &ending, 0, replies, "");
    Ok(())
}
