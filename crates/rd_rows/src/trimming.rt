//! Trimming: the oldest records are given up, and all else goes on as before.

use crate::programs::{assert_ending, run_file};
use crate::tasks::{FileRun, assert_rows};
use std::test::Fail;

// The built-in application.
const BUILTIN: &str = concat!(
    r#"{"profile":1,"cores":1,"queues":[{"name":"q0","length":2,"item":1}],"#,
    r#""tasks":[{"name":"t0","priority":1,"code":["data 41","send q0 0","send q0 0","#,
    r#""send q0 0","end"]}]}"#,
);

const ROWS: [FileRun; 6] = [
    FileRun {
        name: "trim",
        app: BUILTIN,
        commands: "step 0\nstep 0\nstep 0\nstep 0\ntrim 2\nshow moves\nback 3\nback 2\n\
                   show moves\nback until tick = 9\nredo 2\ntrim 9\nback 4\n\
                   back until tick = 0\ntrim 0\nback until tick = 0\nback 1\n",
        replies: "ok at 1\nok at 2\nok at 3\nok at 4\nok at 4\nmoves 4 undone 0 kept 2\n\
                  no TooFar 2\nok at 2\nmoves 2 undone 2 kept 0\nok at 2 start\nok at 4\n\
                  ok at 4\nno TooFar 2\nok at 3 met\nok at 3\nok at 3 start\nno TooFar 0\n",
    },
    FileRun {
        name: "what is kept is undone and made again as before",
        app: BUILTIN,
        commands: "step 0\nstep 0\nstep 0\ntrim 2\nback 1\nshow queue q0\nback 1\n\
                   show task t0\nredo 2\nshow queue q0\nback 3\n",
        replies: "ok at 1\nok at 2\nok at 3\nok at 3\nok at 2\n\
                  queue q0 1/2 items 41 recv - send - set -\nok at 1\n\
                  task t0 core 0 pc 1 phase run regs 0,0,0,0,0,0,0,0 data 41 notes 0:idle\n\
                  ok at 3\nqueue q0 2/2 items 41,41 recv - send - set -\nno TooFar 2\n",
    },
    FileRun {
        name: "the moves undone stay",
        app: BUILTIN,
        commands: "step 0\nstep 0\nstep 0\nstep 0\nback 2\ntrim 1\nshow moves\nredo 2\n\
                   show moves\nback 3\nback 1\n",
        replies: "ok at 1\nok at 2\nok at 3\nok at 4\nok at 2\nok at 2\n\
                  moves 2 undone 2 kept 1\nok at 4\nmoves 4 undone 0 kept 3\nok at 1\n\
                  no TooFar 0\n",
    },
    FileRun {
        name: "an edit is trimmed as any move",
        app: BUILTIN,
        commands: "poke reg t0 0 7\nstep 0\ntrim 1\nback 1\nback 1\nshow task t0\n",
        replies: "ok at 1\nok at 2\nok at 2\nok at 1\nno TooFar 0\n\
                  task t0 core 0 pc 0 phase run regs 7,0,0,0,0,0,0,0 data - notes 0:idle\n",
    },
    FileRun {
        name: "trimming twice is trimming to the fewer",
        app: BUILTIN,
        commands: "step 0\nstep 0\nstep 0\ntrim 2\ntrim 1\nshow moves\ntrim 2\nshow moves\n\
                   trim 4294967295\nshow moves\n",
        replies: "ok at 1\nok at 2\nok at 3\nok at 3\nok at 3\nmoves 3 undone 0 kept 1\n\
                  ok at 3\nmoves 3 undone 0 kept 1\nok at 3\nmoves 3 undone 0 kept 1\n",
    },
    FileRun {
        name: "no trims",
        app: BUILTIN,
        commands: "trim\ntrim -1\ntrim 1 2\ntrim 4294967296\ntrim q0\ntrim 0\nshow moves\n",
        replies: "no Syntax\nno Syntax\nno Syntax\nno Syntax\nno Syntax\nok at 0\n\
                  moves 0 undone 0 kept 0\n",
    },
];

// The last moves' records are kept, and going back goes no further.
#[test]
fn trim(rt: HostRuntime) -> Result<(), Fail> {
    assert_rows(&rt, &ROWS)
}

// A run that is taken back after a trim takes back its own moves alone; a refusal leaves the base;
// and the limit of moves counts those that were trimmed.
#[test]
fn refused_run_after_a_trim(rt: HostRuntime) -> Result<(), Fail> {
    let commands = "forward 2\ntrim 1\nforward 5\nshow moves\nuntil tick = 9 5\nstep 9\n\
                    poke pc t0 9\nredo 1\nshow moves\nforward 1\ntrim 0\nforward 1\n\
                    back until tick = 9\nshow moves\n";
    let replies = "ok at 2\nok at 2\nno MovesFull\nmoves 2 undone 0 kept 1\nno MovesFull\n\
                   no NoSuch\nno BadEdit\nno NothingUndone\nmoves 2 undone 0 kept 1\nok at 3\n\
                   ok at 3\nno MovesFull\nok at 3 start\nmoves 3 undone 0 kept 0\n";
    let words = ["--moves", "3"];
    let ending = run_file(&rt, "few.json", BUILTIN.as_bytes(), &words, commands)?;
    assert_ending(&rt, &ending, 0, replies, "");
    Ok(())
}
