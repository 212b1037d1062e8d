//! Runs of applications over queues: what each call leaves, whom it wakes, and the way back.

use crate::tasks::{FileRun, assert_rows};
use std::test::Fail;

const ROWS: [FileRun; 7] = [
    FileRun {
        name: "front_and_back",
        app: concat!(
            r#"{"profile":1,"cores":1,"queues":[{"name":"q0","length":3,"item":1}],"#,
            r#""tasks":[{"name":"t0","priority":1,"code":["data 01","send q0 0","data 02","#,
            r#""front q0 0","count q0","spaces q0","peek q0 0","recv q0 0","end"]}]}"#,
        ),
        commands: "step 0\nstep 0\nstep 0\nstep 0\nshow queue q0\nstep 0\nshow task t0\nstep 0\n\
                   show task t0\nstep 0\nshow task t0\nshow queue q0\nstep 0\nshow task t0\n\
                   show queue q0\nback 8\nshow queue q0\n",
        replies: "ok at 1\nok at 2\nok at 3\nok at 4\n\
                  queue q0 2/3 items 02,01 recv - send - set -\n\
                  ok at 5\ntask t0 core 0 pc 5 phase run regs 2,0,0,0,0,0,0,0 data 02 \
                  notes 0:idle\n\
                  ok at 6\ntask t0 core 0 pc 6 phase run regs 1,0,0,0,0,0,0,0 data 02 \
                  notes 0:idle\n\
                  ok at 7\ntask t0 core 0 pc 7 phase run regs 1,0,0,0,0,0,0,0 data 02 \
                  notes 0:idle\n\
                  queue q0 2/3 items 02,01 recv - send - set -\n\
                  ok at 8\ntask t0 core 0 pc 8 phase run regs 1,0,0,0,0,0,0,0 data 02 \
                  notes 0:idle\n\
                  queue q0 1/3 items 01 recv - send - set -\n\
                  ok at 0\nqueue q0 0/3 items - recv - send - set -\n",
    },
    FileRun {
        name: "reset_wakes_a_sender",
        app: concat!(
            r#"{"profile":1,"cores":2,"queues":[{"name":"q0","length":1,"item":1}],"#,
            r#""tasks":[{"name":"t0","priority":1,"code":["send q0 0","send q0 max","end"]},"#,
            r#"{"name":"t1","priority":1,"code":["qreset q0","end"]}]}"#,
        ),
        commands: "step 0\nstep 0\nshow queue q0\nstep 1\nshow queue q0\nshow task t0\n\
                   show task t1\nstep 0\nshow queue q0\nback 2\nshow queue q0\nshow cores\n",
        replies: "ok at 1\nok at 2\nqueue q0 1/1 items 00 recv - send t0 set -\n\
                  ok at 3\nqueue q0 0/1 items - recv - send - set -\n\
                  task t0 core 0 pc 1 phase again:max regs 1,0,0,0,0,0,0,0 data - notes 0:idle\n\
                  task t1 core 1 pc 1 phase run regs 1,0,0,0,0,0,0,0 data - notes 0:idle\n\
                  ok at 4\nqueue q0 1/1 items 00 recv - send - set -\n\
                  ok at 2\nqueue q0 1/1 items 00 recv - send t0 set -\n\
                  cores -,t1 ready - tick 0 turn 1\n",
    },
    FileRun {
        name: "a peek that waits wakes the next receiver",
        app: concat!(
            r#"{"profile":1,"cores":3,"queues":[{"name":"q0","length":1,"item":1}],"#,
            r#""tasks":[{"name":"t0","priority":1,"code":["peek q0 max","end"]},"#,
            r#"{"name":"t1","priority":1,"code":["recv q0 max","end"]},"#,
            r#"{"name":"t2","priority":1,"code":["data 07","send q0 0","end"]}]}"#,
        ),
        commands: "step 0\nstep 1\nshow queue q0\nshow task t0\nstep 2\nstep 2\nshow queue q0\n\
                   show cores\nstep 0\nshow task t0\nshow queue q0\nshow cores\nstep 1\n\
                   show task t1\nshow queue q0\nback 3\nshow queue q0\n",
        replies: "ok at 1\nok at 2\nqueue q0 0/1 items - recv t0,t1 send - set -\n\
                  task t0 core - pc 0 phase wait:recv:q0:max regs 0,0,0,0,0,0,0,0 data - \
                  notes 0:idle\n\
                  ok at 3\nok at 4\nqueue q0 1/1 items 07 recv t1 send - set -\n\
                  cores t0,-,t2 ready - tick 0 turn 3\n\
                  ok at 5\ntask t0 core 0 pc 1 phase run regs 1,0,0,0,0,0,0,0 data 07 \
                  notes 0:idle\n\
                  queue q0 1/1 items 07 recv - send - set -\n\
                  cores t0,t1,t2 ready - tick 0 turn 1\n\
                  ok at 6\ntask t1 core 1 pc 1 phase run regs 1,0,0,0,0,0,0,0 data 07 \
                  notes 0:idle\n\
                  queue q0 0/1 items - recv - send - set -\n\
                  ok at 3\nqueue q0 0/1 items - recv t0,t1 send - set -\n",
    },
    FileRun {
        name: "an overwrite puts an item, or replaces the one that is there",
        app: concat!(
            r#"{"profile":1,"cores":2,"queues":[{"name":"q0","length":1,"item":1}],"#,
            r#""tasks":[{"name":"t0","priority":1,"code":["data 07","over q0","data 08","#,
            r#""over q0","end"]},"#,
            r#"{"name":"t1","priority":1,"code":["recv q0 max","recv q0 0","end"]}]}"#,
        ),
        commands: "step 1\nstep 0\nstep 0\nshow queue q0\nshow cores\nstep 0\nstep 0\n\
                   show queue q0\nshow task t0\nstep 1\nshow task t1\nstep 1\nshow task t1\n\
                   back 3\nshow queue q0\n",
        replies: "ok at 1\nok at 2\nok at 3\nqueue q0 1/1 items 07 recv - send - set -\n\
                  cores t0,t1 ready - tick 0 turn 1\n\
                  ok at 4\nok at 5\nqueue q0 1/1 items 08 recv - send - set -\n\
                  task t0 core 0 pc 4 phase run regs 1,0,0,0,0,0,0,0 data 08 notes 0:idle\n\
                  ok at 6\ntask t1 core 1 pc 1 phase run regs 1,0,0,0,0,0,0,0 data 08 \
                  notes 0:idle\n\
                  ok at 7\ntask t1 core 1 pc 2 phase run regs 0,0,0,0,0,0,0,0 data 08 \
                  notes 0:idle\n\
                  ok at 4\nqueue q0 1/1 items 07 recv - send - set -\n",
    },
    FileRun {
        name: "what can't be done at once answers 0",
        app: concat!(
            r#"{"profile":1,"cores":1,"queues":[{"name":"q0","length":1,"item":1}],"#,
            r#""tasks":[{"name":"t0","priority":1,"code":["peek q0 0","data 01","front q0 0","#,
            r#""front q0 0","spaces q0","end"]}]}"#,
        ),
        commands: "step 0\nstep 0\nshow task t0\nstep 0\nstep 0\nshow task t0\nshow queue q0\n\
                   back 1\nshow task t0\nstep 0\nstep 0\nshow task t0\n",
        replies: "ok at 1\nok at 2\n\
                  task t0 core 0 pc 2 phase run regs 0,0,0,0,0,0,0,0 data 01 notes 0:idle\n\
                  ok at 3\nok at 4\n\
                  task t0 core 0 pc 4 phase run regs 0,0,0,0,0,0,0,0 data 01 notes 0:idle\n\
                  queue q0 1/1 items 01 recv - send - set -\n\
                  ok at 3\n\
                  task t0 core 0 pc 3 phase run regs 1,0,0,0,0,0,0,0 data 01 notes 0:idle\n\
                  ok at 4\nok at 5\n\
                  task t0 core 0 pc 5 phase run regs 0,0,0,0,0,0,0,0 data 01 notes 0:idle\n",
    },
    FileRun {
        name: "a reset of long items is taken back",
        app: concat!(
            r#"{"profile":1,"cores":1,"queues":[{"name":"q0","length":3,"item":12}],"#,
            r#""tasks":[{"name":"t0","priority":1,"code":["data 0102","send q0 0","data ff","#,
            r#""send q0 0","qreset q0","count q0","end"]}]}"#,
        ),
        commands: "step 0\nstep 0\nstep 0\nstep 0\nshow queue q0\nstep 0\nshow queue q0\n\
                   show task t0\nstep 0\nshow task t0\nback 2\nshow queue q0\nshow task t0\n",
        replies: "ok at 1\nok at 2\nok at 3\nok at 4\n\
                  queue q0 2/3 items 010200000000000000000000,ff0000000000000000000000 recv - \
                  send - set -\n\
                  ok at 5\nqueue q0 0/3 items - recv - send - set -\n\
                  task t0 core 0 pc 5 phase run regs 1,0,0,0,0,0,0,0 data ff notes 0:idle\n\
                  ok at 6\n\
                  task t0 core 0 pc 6 phase run regs 0,0,0,0,0,0,0,0 data ff notes 0:idle\n\
                  ok at 4\n\
                  queue q0 2/3 items 010200000000000000000000,ff0000000000000000000000 recv - \
                  send - set -\n\
                  task t0 core 0 pc 4 phase run regs 1,0,0,0,0,0,0,0 data ff notes 0:idle\n",
    },
    FileRun {
        name: "an overwrite of an item wakes the next receiver",
        app: concat!(
            r#"{"profile":1,"cores":3,"queues":[{"name":"q0","length":1,"item":1}],"#,
            r#""tasks":[{"name":"t0","priority":1,"code":["recv q0 max","end"]},"#,
            r#"{"name":"t1","priority":1,"code":["recv q0 max","end"]},"#,
            r#"{"name":"t2","priority":1,"code":["data 07","over q0","data 08","over q0","#,
            r#""end"]}]}"#,
        ),
        commands: "step 0\nstep 1\nstep 2\nstep 2\nshow queue q0\nstep 2\nstep 2\nshow queue q0\n\
                   show cores\nstep 0\nshow task t0\nstep 1\nshow queue q0\nback 3\n\
                   show queue q0\nshow cores\n",
        replies: "ok at 1\nok at 2\nok at 3\nok at 4\n\
                  queue q0 1/1 items 07 recv t1 send - set -\n\
                  ok at 5\nok at 6\nqueue q0 1/1 items 08 recv - send - set -\n\
                  cores t0,t1,t2 ready - tick 0 turn 3\n\
                  ok at 7\ntask t0 core 0 pc 1 phase run regs 1,0,0,0,0,0,0,0 data 08 \
                  notes 0:idle\n\
                  ok at 8\nqueue q0 0/1 items - recv t1 send - set -\n\
                  ok at 5\nqueue q0 1/1 items 07 recv t1 send - set -\n\
                  cores t0,-,t2 ready - tick 0 turn 3\n",
    },
];

// Each call of a queue is the list's.
#[test]
fn rows(rt: HostRuntime) -> Result<(), Fail> {
    assert_rows(&rt, &ROWS)
}
