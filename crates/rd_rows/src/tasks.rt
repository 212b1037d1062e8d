//! Runs of applications with several tasks and cores: the file, what the program is asked, and what
//! it answers.

use crate::programs::{assert_ending, run_file};
use std::alloc::AllocGlobal;
use std::net::{Net, TcpListener, TcpStream};
use std::process::Abort;
use std::rt::Files;
use std::sync::Wait;
use std::test::Fail;
use std::thread::Threads;
use std::time::Clock;

/// A run of an application file.
#[derive(Drop)]
pub struct FileRun {
    pub name: &'static str,
    pub app: &'static str,
    pub commands: &'static str,
    pub replies: &'static str,
}

/// Fails unless each run answers so, ends with status 0, and writes nothing to its errors.
pub fn assert_rows<H>(rt: &H, rows: &[FileRun]) -> Result<(), Fail>
where
    H: Files + AllocGlobal + Abort + Wait + Sync + Threads + Clock,
    H: Net<Listener = TcpListener, Stream = TcpStream>,
{
    for row in rows {
        let row: &FileRun = row;
        let ending = run_file(rt, "row.json", row.app.as_bytes(), &[], row.commands)?;
        assert_ending(rt, &ending, 0, row.replies, "");
    }
    Ok(())
}

const ROWS: [FileRun; 8] = [
    FileRun {
        name: "full_history",
        app: concat!(
            r#"{"profile":1,"cores":1,"tick":4294967295,"#,
            r#""tasks":[{"name":"t0","priority":1,"code":["jump 0"]}]}"#,
        ),
        commands: "tick\nshow cores\n",
        replies: "no TickLimit\ncores t0 ready - tick 4294967295 turn 0\n",
    },
    FileRun {
        name: "two cores",
        app: concat!(
            r#"{"profile":1,"cores":2,"#,
            r#""tasks":[{"name":"t0","priority":2,"code":["end"]},"#,
            r#"{"name":"t1","priority":3,"code":["end"]},"#,
            r#"{"name":"t2","priority":1,"code":["end"]}]}"#,
        ),
        commands: "show cores\nstep 0\nshow cores\nstep 1\nshow cores\nstep 0\nshow cores\nstep 0\n\
                   step 2\nback 3\nshow cores\n",
        replies: "cores t1,t0 ready t2 tick 0 turn 0\n\
                  ok at 1\ncores t2,t0 ready - tick 0 turn 1\n\
                  ok at 2\ncores t2,- ready - tick 0 turn 2\n\
                  ok at 3\ncores -,- ready - tick 0 turn 1\n\
                  no NoTask\nno NoSuch\n\
                  ok at 0\ncores t1,t0 ready t2 tick 0 turn 0\n",
    },
    FileRun {
        name: "turns on the core of the new tick",
        app: concat!(
            r#"{"profile":1,"cores":2,"#,
            r#""tasks":[{"name":"t0","priority":1,"code":["jump 0"]},"#,
            r#"{"name":"t1","priority":1,"code":["jump 0"]},"#,
            r#"{"name":"t2","priority":1,"code":["jump 0"]}]}"#,
        ),
        commands: "tick\nshow cores\ntick\nshow cores\nback 1\nshow cores\n",
        replies: "ok at 1\ncores t0,t2 ready t1 tick 1 turn 0\n\
                  ok at 2\ncores t1,t2 ready t0 tick 2 turn 0\n\
                  ok at 1\ncores t0,t2 ready t1 tick 1 turn 0\n",
    },
    FileRun {
        name: "woken_receiver_loses_the_item",
        app: concat!(
            r#"{"profile":1,"cores":2,"queues":[{"name":"q0","length":1,"item":1}],"#,
            r#""tasks":[{"name":"t0","priority":2,"code":["recv q0 max","end"]},"#,
            r#"{"name":"t1","priority":3,"code":["recv q0 10","end"]},"#,
            r#"{"name":"t2","priority":1,"code":["send q0 0","recv q0 0","end"]}]}"#,
        ),
        commands: "show cores\nstep 0\nstep 1\nshow queue q0\nshow cores\n\
                   step 0\nshow queue q0\nshow task t1\nstep 0\nshow queue q0\n\
                   step 1\nshow task t1\nshow queue q0\nback 5\nshow cores\nshow queue q0\n",
        replies: "cores t1,t0 ready t2 tick 0 turn 0\nok at 1\nok at 2\n\
                  queue q0 0/1 items - recv t1,t0 send - set -\ncores t2,- ready - tick 0 turn 2\n\
                  ok at 3\nqueue q0 1/1 items 00 recv t0 send - set -\n\
                  task t1 core 1 pc 0 phase again:10 regs 0,0,0,0,0,0,0,0 data - notes 0:idle\n\
                  ok at 4\nqueue q0 0/1 items - recv t0 send - set -\n\
                  ok at 5\n\
                  task t1 core - pc 0 phase wait:recv:q0:10 regs 0,0,0,0,0,0,0,0 data - \
                  notes 0:idle\n\
                  queue q0 0/1 items - recv t1,t0 send - set -\n\
                  ok at 0\ncores t1,t0 ready t2 tick 0 turn 0\n\
                  queue q0 0/1 items - recv - send - set -\n",
    },
    FileRun {
        name: "timeout_keeps_the_waiting_order",
        app: concat!(
            r#"{"profile":1,"cores":3,"queues":[{"name":"q0","length":1,"item":1}],"#,
            r#""tasks":[{"name":"t0","priority":1,"code":["recv q0 max","end"]},"#,
            r#"{"name":"t1","priority":1,"code":["recv q0 1","end"]},"#,
            r#"{"name":"t2","priority":1,"code":["recv q0 max","end"]}]}"#,
        ),
        commands: "step 0\nstep 1\nstep 2\ntick\nshow queue q0\nshow cores\nshow task t1\n\
                   back 1\nshow queue q0\nshow task t1\ntick\nstep 0\nshow task t1\n",
        replies: "ok at 1\nok at 2\nok at 3\nok at 4\n\
                  queue q0 0/1 items - recv t0,t2 send - set -\n\
                  cores t1,-,- ready - tick 1 turn 0\n\
                  task t1 core 0 pc 0 phase again:1 regs 0,0,0,0,0,0,0,0 data - notes 0:idle\n\
                  ok at 3\nqueue q0 0/1 items - recv t0,t1,t2 send - set -\n\
                  task t1 core - pc 0 phase wait:recv:q0:1 regs 0,0,0,0,0,0,0,0 data - \
                  notes 0:idle\n\
                  ok at 4\nok at 5\n\
                  task t1 core 0 pc 1 phase run regs 0,0,0,0,0,0,0,0 data - notes 0:idle\n",
    },
    FileRun {
        name: "timeouts by rising number",
        app: concat!(
            r#"{"profile":1,"cores":2,"queues":[{"name":"q0","length":1,"item":1}],"#,
            r#""tasks":[{"name":"t0","priority":1,"code":["recv q0 1","end"]},"#,
            r#"{"name":"t1","priority":1,"code":["recv q0 1","end"]}]}"#,
        ),
        commands: "step 1\nstep 0\nshow queue q0\ntick\nshow cores\n",
        replies: "ok at 1\nok at 2\nqueue q0 0/1 items - recv t1,t0 send - set -\n\
                  ok at 3\ncores t0,t1 ready - tick 1 turn 0\n",
    },
    FileRun {
        name: "a full queue",
        app: concat!(
            r#"{"profile":1,"cores":2,"queues":[{"name":"q0","length":1,"item":1}],"#,
            r#""tasks":[{"name":"t0","priority":1,"code":["send q0 0","send q0 max","end"]},"#,
            r#"{"name":"t1","priority":1,"code":["recv q0 0","end"]}]}"#,
        ),
        commands: "step 0\nstep 0\nshow queue q0\nshow task t0\nstep 1\nshow task t0\nstep 0\n\
                   show queue q0\nshow task t0\n",
        replies: "ok at 1\nok at 2\nqueue q0 1/1 items 00 recv - send t0 set -\n\
                  task t0 core - pc 1 phase wait:send:q0:max regs 1,0,0,0,0,0,0,0 data - \
                  notes 0:idle\n\
                  ok at 3\n\
                  task t0 core 0 pc 1 phase again:max regs 1,0,0,0,0,0,0,0 data - notes 0:idle\n\
                  ok at 4\nqueue q0 1/1 items 00 recv - send - set -\n\
                  task t0 core 0 pc 2 phase run regs 1,0,0,0,0,0,0,0 data - notes 0:idle\n",
    },
    FileRun {
        name: "a block time in a register",
        app: concat!(
            r#"{"profile":1,"cores":1,"queues":[{"name":"q0","length":1,"item":1}],"#,
            r#""tasks":[{"name":"t0","priority":1,"code":["set r1 2","recv q0 r1","end"]}]}"#,
        ),
        commands: "step 0\nstep 0\nshow task t0\nstep 0\ntick\nshow cores\ntick\nshow cores\n\
                   step 0\nshow task t0\n",
        replies: "ok at 1\nok at 2\n\
                  task t0 core - pc 1 phase wait:recv:q0:2 regs 0,2,0,0,0,0,0,0 data - \
                  notes 0:idle\n\
                  no NoTask\nok at 3\ncores - ready - tick 1 turn 0\nok at 4\n\
                  cores t0 ready - tick 2 turn 0\n\
                  ok at 5\n\
                  task t0 core 0 pc 2 phase run regs 0,2,0,0,0,0,0,0 data - notes 0:idle\n",
    },
];

// Who runs where, and who wakes whom, is as written for any number of cores.
#[test]
fn rows(rt: HostRuntime) -> Result<(), Fail> {
    assert_rows(&rt, &ROWS)
}
