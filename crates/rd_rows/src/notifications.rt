//! Runs of applications whose tasks are notified: each action, who waits, who is woken, and the way
//! back.

use crate::tasks::{FileRun, assert_rows};
use std::test::Fail;

const ROWS: [FileRun; 15] = [
    FileRun {
        name: "set_without_overwrite",
        app: concat!(
            r#"{"profile":1,"cores":1,"tasks":[{"name":"t0","priority":1,"#,
            r#""code":["notify t0 0 5 setif","notify t0 0 6 setif","#,
            r#""notify t0 0 4294967295 set","notify t0 0 0 inc","end"]}]}"#,
        ),
        commands: "step 0\nshow task t0\nstep 0\nshow task t0\nstep 0\nshow task t0\nstep 0\n\
                   show task t0\nback 2\nshow task t0\n",
        replies: "ok at 1\n\
                  task t0 core 0 pc 1 phase run regs 1,0,0,0,0,0,0,0 data - notes 5:received\n\
                  ok at 2\n\
                  task t0 core 0 pc 2 phase run regs 0,0,0,0,0,0,0,0 data - notes 5:received\n\
                  ok at 3\n\
                  task t0 core 0 pc 3 phase run regs 1,0,0,0,0,0,0,0 data - \
                  notes 4294967295:received\n\
                  ok at 4\n\
                  task t0 core 0 pc 4 phase run regs 1,0,0,0,0,0,0,0 data - notes 0:received\n\
                  ok at 2\n\
                  task t0 core 0 pc 2 phase run regs 0,0,0,0,0,0,0,0 data - notes 5:received\n",
    },
    FileRun {
        name: "take_counts_down",
        app: concat!(
            r#"{"profile":1,"cores":1,"tasks":[{"name":"t0","priority":1,"#,
            r#""code":["notify t0 0 2 set","take 0 dec 0","take 0 clear 0","#,
            r#""take 0 clear 0","end"]}]}"#,
        ),
        commands: "step 0\nshow task t0\nstep 0\nshow task t0\nstep 0\nshow task t0\nstep 0\n\
                   show task t0\nback 3\nshow task t0\n",
        replies: "ok at 1\n\
                  task t0 core 0 pc 1 phase run regs 1,0,0,0,0,0,0,0 data - notes 2:received\n\
                  ok at 2\n\
                  task t0 core 0 pc 2 phase run regs 2,0,0,0,0,0,0,0 data - notes 1:idle\n\
                  ok at 3\n\
                  task t0 core 0 pc 3 phase run regs 1,0,0,0,0,0,0,0 data - notes 0:idle\n\
                  ok at 4\n\
                  task t0 core 0 pc 4 phase run regs 0,0,0,0,0,0,0,0 data - notes 0:idle\n\
                  ok at 1\n\
                  task t0 core 0 pc 1 phase run regs 1,0,0,0,0,0,0,0 data - notes 2:received\n",
    },
    FileRun {
        name: "wait_clears_exit_bits",
        app: concat!(
            r#"{"profile":1,"cores":1,"tasks":[{"name":"t0","priority":1,"#,
            r#""code":["notify t0 0 6 bits","nwait 0 0 4 0","end"]}]}"#,
        ),
        commands: "step 0\nshow task t0\nstep 0\nshow task t0\nback 1\nshow task t0\n",
        replies: "ok at 1\n\
                  task t0 core 0 pc 1 phase run regs 1,0,0,0,0,0,0,0 data - notes 6:received\n\
                  ok at 2\n\
                  task t0 core 0 pc 2 phase run regs 1,6,0,0,0,0,0,0 data - notes 2:idle\n\
                  ok at 1\n\
                  task t0 core 0 pc 1 phase run regs 1,0,0,0,0,0,0,0 data - notes 6:received\n",
    },
    FileRun {
        name: "each action, and the value before in r1",
        app: concat!(
            r#"{"profile":1,"cores":1,"tasks":[{"name":"t0","priority":1,"#,
            r#""code":["query t0 0 6 bits","query t0 0 1 none","query t0 0 9 inc","#,
            r#""query t0 0 3 set","query t0 0 8 setif","end"]}]}"#,
        ),
        commands: "step 0\nshow task t0\nstep 0\nshow task t0\nstep 0\nshow task t0\nstep 0\n\
                   show task t0\nstep 0\nshow task t0\nback 5\nshow task t0\n",
        replies: "ok at 1\n\
                  task t0 core 0 pc 1 phase run regs 1,0,0,0,0,0,0,0 data - notes 6:received\n\
                  ok at 2\n\
                  task t0 core 0 pc 2 phase run regs 1,6,0,0,0,0,0,0 data - notes 6:received\n\
                  ok at 3\n\
                  task t0 core 0 pc 3 phase run regs 1,6,0,0,0,0,0,0 data - notes 7:received\n\
                  ok at 4\n\
                  task t0 core 0 pc 4 phase run regs 1,7,0,0,0,0,0,0 data - notes 3:received\n\
                  ok at 5\n\
                  task t0 core 0 pc 5 phase run regs 0,3,0,0,0,0,0,0 data - notes 3:received\n\
                  ok at 0\n\
                  task t0 core 0 pc 0 phase run regs 0,0,0,0,0,0,0,0 data - notes 0:idle\n",
    },
    FileRun {
        name: "a take waits until it is notified",
        app: concat!(
            r#"{"profile":1,"cores":2,"tasks":[{"name":"t0","priority":1,"#,
            r#""code":["take 0 clear max","end"]},{"name":"t1","priority":1,"#,
            r#""code":["notify t0 0 0 inc","end"]}]}"#,
        ),
        commands: "step 0\nshow task t0\nstep 1\nshow task t0\nstep 0\nshow task t0\nback 2\n\
                   show task t0\nshow cores\nback 1\nshow task t0\n",
        replies: "ok at 1\n\
                  task t0 core - pc 0 phase wait:note:0:max regs 0,0,0,0,0,0,0,0 data - \
                  notes 0:waiting\n\
                  ok at 2\n\
                  task t0 core 0 pc 0 phase again:max regs 0,0,0,0,0,0,0,0 data - \
                  notes 1:received\n\
                  ok at 3\n\
                  task t0 core 0 pc 1 phase run regs 1,0,0,0,0,0,0,0 data - notes 0:idle\n\
                  ok at 1\n\
                  task t0 core - pc 0 phase wait:note:0:max regs 0,0,0,0,0,0,0,0 data - \
                  notes 0:waiting\n\
                  cores -,t1 ready - tick 0 turn 1\nok at 0\n\
                  task t0 core 0 pc 0 phase run regs 0,0,0,0,0,0,0,0 data - notes 0:idle\n",
    },
    FileRun {
        name: "a take times out",
        app: concat!(
            r#"{"profile":1,"cores":1,"tasks":[{"name":"t0","priority":1,"#,
            r#""code":["take 0 dec 1","end"]}]}"#,
        ),
        commands: "step 0\nshow task t0\ntick\nshow task t0\nstep 0\nshow task t0\nback 1\n\
                   show task t0\nback 1\nshow task t0\n",
        replies: "ok at 1\n\
                  task t0 core - pc 0 phase wait:note:0:1 regs 0,0,0,0,0,0,0,0 data - \
                  notes 0:waiting\n\
                  ok at 2\n\
                  task t0 core 0 pc 0 phase again:1 regs 0,0,0,0,0,0,0,0 data - \
                  notes 0:waiting\n\
                  ok at 3\n\
                  task t0 core 0 pc 1 phase run regs 0,0,0,0,0,0,0,0 data - notes 0:idle\n\
                  ok at 2\n\
                  task t0 core 0 pc 0 phase again:1 regs 0,0,0,0,0,0,0,0 data - \
                  notes 0:waiting\n\
                  ok at 1\n\
                  task t0 core - pc 0 phase wait:note:0:1 regs 0,0,0,0,0,0,0,0 data - \
                  notes 0:waiting\n",
    },
    FileRun {
        name: "a wait times out, and its exit bits stay",
        app: concat!(
            r#"{"profile":1,"cores":1,"tasks":[{"name":"t0","priority":1,"#,
            r#""code":["notify t0 0 6 set","nclear t0 0","nwait 0 2 4 1","end"]}]}"#,
        ),
        commands: "step 0\nstep 0\nshow task t0\nstep 0\nshow task t0\ntick\nshow task t0\n\
                   step 0\nshow task t0\nback 1\nshow task t0\nback 2\nshow task t0\n",
        replies: "ok at 1\nok at 2\n\
                  task t0 core 0 pc 2 phase run regs 1,0,0,0,0,0,0,0 data - notes 6:idle\n\
                  ok at 3\n\
                  task t0 core - pc 2 phase wait:note:0:1 regs 1,0,0,0,0,0,0,0 data - \
                  notes 4:waiting\n\
                  ok at 4\n\
                  task t0 core 0 pc 2 phase again:1 regs 1,0,0,0,0,0,0,0 data - \
                  notes 4:waiting\n\
                  ok at 5\n\
                  task t0 core 0 pc 3 phase run regs 0,4,0,0,0,0,0,0 data - notes 4:idle\n\
                  ok at 4\n\
                  task t0 core 0 pc 2 phase again:1 regs 1,0,0,0,0,0,0,0 data - \
                  notes 4:waiting\n\
                  ok at 2\n\
                  task t0 core 0 pc 2 phase run regs 1,0,0,0,0,0,0,0 data - notes 6:idle\n",
    },
    FileRun {
        name: "a wait is notified, and displaces who notified it",
        app: concat!(
            r#"{"profile":1,"cores":1,"tasks":[{"name":"t0","priority":2,"#,
            r#""code":["nwait 0 4294967295 1 max","end"]},{"name":"t1","priority":1,"#,
            r#""code":["notify t0 0 7 set","end"]}]}"#,
        ),
        commands: "step 0\nshow task t0\nstep 0\nshow task t0\nshow cores\nstep 0\nshow task t0\n\
                   back 3\nshow task t0\n",
        replies: "ok at 1\n\
                  task t0 core - pc 0 phase wait:note:0:max regs 0,0,0,0,0,0,0,0 data - \
                  notes 0:waiting\n\
                  ok at 2\n\
                  task t0 core 0 pc 0 phase again:max regs 0,0,0,0,0,0,0,0 data - \
                  notes 7:received\n\
                  cores t0 ready t1 tick 0 turn 1\nok at 3\n\
                  task t0 core 0 pc 1 phase run regs 1,7,0,0,0,0,0,0 data - notes 6:idle\n\
                  ok at 0\n\
                  task t0 core 0 pc 0 phase run regs 0,0,0,0,0,0,0,0 data - notes 0:idle\n",
    },
    FileRun {
        name: "a wait keeps its entry bits where something has come, and else clears them",
        app: concat!(
            r#"{"profile":1,"cores":1,"tasks":[{"name":"t0","priority":1,"#,
            r#""code":["notify t0 0 6 set","nwait 0 6 0 0","nwait 0 2 4 0","end"]}]}"#,
        ),
        commands: "step 0\nstep 0\nshow task t0\nstep 0\nshow task t0\nback 1\nshow task t0\n",
        replies: "ok at 1\nok at 2\n\
                  task t0 core 0 pc 2 phase run regs 1,6,0,0,0,0,0,0 data - notes 6:idle\n\
                  ok at 3\n\
                  task t0 core 0 pc 3 phase run regs 0,4,0,0,0,0,0,0 data - notes 4:idle\n\
                  ok at 2\n\
                  task t0 core 0 pc 2 phase run regs 1,6,0,0,0,0,0,0 data - notes 6:idle\n",
    },
    FileRun {
        name: "each index is an entry of its own",
        app: concat!(
            r#"{"profile":1,"cores":2,"notes":2,"tasks":[{"name":"t0","priority":1,"#,
            r#""code":["take 1 clear max","end"]},{"name":"t1","priority":1,"#,
            r#""code":["notify t0 0 3 set","notify t0 1 2 set","end"]}]}"#,
        ),
        commands: "step 0\nshow task t0\nstep 1\nshow task t0\nstep 1\nshow task t0\nstep 0\n\
                   show task t0\nback 2\nshow task t0\n",
        replies: "ok at 1\n\
                  task t0 core - pc 0 phase wait:note:1:max regs 0,0,0,0,0,0,0,0 data - \
                  notes 0:idle,0:waiting\n\
                  ok at 2\n\
                  task t0 core - pc 0 phase wait:note:1:max regs 0,0,0,0,0,0,0,0 data - \
                  notes 3:received,0:waiting\n\
                  ok at 3\n\
                  task t0 core 0 pc 0 phase again:max regs 0,0,0,0,0,0,0,0 data - \
                  notes 3:received,2:received\n\
                  ok at 4\n\
                  task t0 core 0 pc 1 phase run regs 2,0,0,0,0,0,0,0 data - \
                  notes 3:received,0:idle\n\
                  ok at 2\n\
                  task t0 core - pc 0 phase wait:note:1:max regs 0,0,0,0,0,0,0,0 data - \
                  notes 3:received,0:waiting\n",
    },
    FileRun {
        name: "a task is woken once",
        app: concat!(
            r#"{"profile":1,"cores":2,"tasks":[{"name":"t0","priority":1,"#,
            r#""code":["take 0 clear max","end"]},{"name":"t1","priority":1,"#,
            r#""code":["notify t0 0 0 inc","notify t0 0 0 inc","end"]}]}"#,
        ),
        commands: "step 0\nstep 1\nstep 1\nshow task t0\nshow cores\nstep 0\nshow task t0\n\
                   back 2\nshow task t0\n",
        replies: "ok at 1\nok at 2\nok at 3\n\
                  task t0 core 0 pc 0 phase again:max regs 0,0,0,0,0,0,0,0 data - \
                  notes 2:received\n\
                  cores t0,t1 ready - tick 0 turn 2\nok at 4\n\
                  task t0 core 0 pc 1 phase run regs 2,0,0,0,0,0,0,0 data - notes 0:idle\n\
                  ok at 2\n\
                  task t0 core 0 pc 0 phase again:max regs 0,0,0,0,0,0,0,0 data - \
                  notes 1:received\n",
    },
    FileRun {
        name: "state and value are cleared",
        app: concat!(
            r#"{"profile":1,"cores":1,"tasks":[{"name":"t0","priority":1,"#,
            r#""code":["notify t0 0 7 set","vclear t0 0 5","nclear t0 0","nclear t0 0","#,
            r#""vclear t0 0 4294967295","end"]}]}"#,
        ),
        commands: "step 0\nstep 0\nshow task t0\nstep 0\nshow task t0\nstep 0\nshow task t0\n\
                   step 0\nshow task t0\nback 4\nshow task t0\n",
        replies: "ok at 1\nok at 2\n\
                  task t0 core 0 pc 2 phase run regs 7,0,0,0,0,0,0,0 data - notes 2:received\n\
                  ok at 3\n\
                  task t0 core 0 pc 3 phase run regs 1,0,0,0,0,0,0,0 data - notes 2:idle\n\
                  ok at 4\n\
                  task t0 core 0 pc 4 phase run regs 0,0,0,0,0,0,0,0 data - notes 2:idle\n\
                  ok at 5\n\
                  task t0 core 0 pc 5 phase run regs 2,0,0,0,0,0,0,0 data - notes 0:idle\n\
                  ok at 1\n\
                  task t0 core 0 pc 1 phase run regs 1,0,0,0,0,0,0,0 data - notes 7:received\n",
    },
    FileRun {
        name: "a take of 0 waits though something has come",
        app: concat!(
            r#"{"profile":1,"cores":1,"tasks":[{"name":"t0","priority":1,"#,
            r#""code":["notify t0 0 0 set","take 0 clear 1","end"]}]}"#,
        ),
        commands: "step 0\nshow task t0\nstep 0\nshow task t0\nback 1\nshow task t0\n",
        replies: "ok at 1\n\
                  task t0 core 0 pc 1 phase run regs 1,0,0,0,0,0,0,0 data - notes 0:received\n\
                  ok at 2\n\
                  task t0 core - pc 1 phase wait:note:0:1 regs 1,0,0,0,0,0,0,0 data - \
                  notes 0:waiting\n\
                  ok at 1\n\
                  task t0 core 0 pc 1 phase run regs 1,0,0,0,0,0,0,0 data - notes 0:received\n",
    },
    FileRun {
        name: "operands are read of registers",
        app: concat!(
            r#"{"profile":1,"cores":1,"tasks":[{"name":"t0","priority":1,"#,
            r#""code":["set r2 5","notify t0 0 r2 set","take 0 dec r3","end"]}]}"#,
        ),
        commands: "step 0\nstep 0\nstep 0\nshow task t0\n",
        replies: "ok at 1\nok at 2\nok at 3\n\
                  task t0 core 0 pc 3 phase run regs 5,0,5,0,0,0,0,0 data - notes 4:idle\n",
    },
    FileRun {
        name: "what another task clears leaves a waiter waiting",
        app: concat!(
            r#"{"profile":1,"cores":2,"tasks":[{"name":"t0","priority":1,"#,
            r#""code":["notify t0 0 6 set","nclear t0 0","nwait 0 0 0 max","end"]},"#,
            r#"{"name":"t1","priority":1,"code":["vclear t0 0 2","nclear t0 0","end"]}]}"#,
        ),
        commands: "step 0\nstep 0\nstep 0\nshow task t0\nstep 1\nshow task t1\nshow task t0\n\
                   step 1\nshow task t1\nshow task t0\nback 2\nshow task t0\n",
        replies: "ok at 1\nok at 2\nok at 3\n\
                  task t0 core - pc 2 phase wait:note:0:max regs 1,0,0,0,0,0,0,0 data - \
                  notes 6:waiting\n\
                  ok at 4\n\
                  task t1 core 1 pc 1 phase run regs 6,0,0,0,0,0,0,0 data - notes 0:idle\n\
                  task t0 core - pc 2 phase wait:note:0:max regs 1,0,0,0,0,0,0,0 data - \
                  notes 4:waiting\n\
                  ok at 5\n\
                  task t1 core 1 pc 2 phase run regs 0,0,0,0,0,0,0,0 data - notes 0:idle\n\
                  task t0 core - pc 2 phase wait:note:0:max regs 1,0,0,0,0,0,0,0 data - \
                  notes 4:waiting\n\
                  ok at 3\n\
                  task t0 core - pc 2 phase wait:note:0:max regs 1,0,0,0,0,0,0,0 data - \
                  notes 6:waiting\n",
    },
];

// Each call that notifies a task, or looks at an entry, is as written.
#[test]
fn rows(rt: HostRuntime) -> Result<(), Fail> {
    assert_rows(&rt, &ROWS)
}
