//! Runs of applications with queue sets: what is posted, who is woken, and the way back.

use crate::tasks::{FileRun, assert_rows};
use std::test::Fail;

const ROWS: [FileRun; 11] = [
    FileRun {
        name: "overwrite_in_a_set",
        app: concat!(
            r#"{"profile":1,"cores":1,"queues":[{"name":"q0","length":1,"item":1}],"#,
            r#""sets":[{"name":"s0","length":1,"members":["q0"]}],"#,
            r#""tasks":[{"name":"t0","priority":1,"code":["data 07","over q0","data 08","#,
            r#""over q0","select s0 0","recv q0 0","select s0 0","end"]}]}"#,
        ),
        commands: "step 0\nstep 0\nstep 0\nstep 0\nshow set s0\nshow queue q0\nstep 0\n\
                   show task t0\nstep 0\nshow task t0\nstep 0\nshow task t0\nback 3\n\
                   show set s0\nback 3\nshow set s0\nshow queue q0\n",
        replies: "ok at 1\nok at 2\nok at 3\nok at 4\n\
                  set s0 1/1 handles q0 wait -\n\
                  queue q0 1/1 items 08 recv - send - set s0\n\
                  ok at 5\ntask t0 core 0 pc 5 phase run regs 1,0,0,0,0,0,0,0 data 08 \
                  notes 0:idle\n\
                  ok at 6\ntask t0 core 0 pc 6 phase run regs 1,0,0,0,0,0,0,0 data 08 \
                  notes 0:idle\n\
                  ok at 7\ntask t0 core 0 pc 7 phase run regs 0,0,0,0,0,0,0,0 data 08 \
                  notes 0:idle\n\
                  ok at 4\nset s0 1/1 handles q0 wait -\n\
                  ok at 1\nset s0 0/1 handles - wait -\n\
                  queue q0 0/1 items - recv - send - set s0\n",
    },
    FileRun {
        name: "full_set",
        app: concat!(
            r#"{"profile":1,"cores":1,"queues":[{"name":"q0","length":2,"item":1}],"#,
            r#""sets":[{"name":"s0","length":1,"members":["q0"]}],"#,
            r#""tasks":[{"name":"t0","priority":1,"code":["send q0 0","send q0 0","end"]}]}"#,
        ),
        commands: "step 0\nstep 0\nshow task t0\nshow queue q0\nstep 0\nback 1\nshow task t0\n\
                   show cores\n",
        replies: "ok at 1\nok at 2\n\
                  task t0 core - pc 1 phase failed:SetFull regs 1,0,0,0,0,0,0,0 data - \
                  notes 0:idle\n\
                  queue q0 1/2 items 00 recv - send - set s0\n\
                  no NoTask\nok at 1\n\
                  task t0 core 0 pc 1 phase run regs 1,0,0,0,0,0,0,0 data - notes 0:idle\n\
                  cores t0 ready - tick 0 turn 1\n",
    },
    FileRun {
        name: "a select that waits is answered the number of the queue and 1",
        app: concat!(
            r#"{"profile":1,"cores":2,"queues":[{"name":"q0","length":1,"item":1},"#,
            r#"{"name":"q1","length":1,"item":1}],"#,
            r#""sets":[{"name":"s0","length":2,"members":["q1","q0"]}],"#,
            r#""tasks":[{"name":"t0","priority":2,"code":["select s0 max","recv q1 0","end"]},"#,
            r#"{"name":"t1","priority":1,"code":["data 05","send q1 0","end"]}]}"#,
        ),
        commands: "step 0\nshow set s0\nshow task t0\nstep 1\nstep 1\nshow set s0\n\
                   show task t0\nstep 0\nshow task t0\nshow set s0\nstep 0\nshow task t0\n\
                   back 2\nshow set s0\nback 3\nshow set s0\nshow cores\n",
        replies: "ok at 1\nset s0 0/2 handles - wait t0\n\
                  task t0 core - pc 0 phase wait:set:s0:max regs 0,0,0,0,0,0,0,0 data - \
                  notes 0:idle\n\
                  ok at 2\nok at 3\nset s0 1/2 handles q1 wait -\n\
                  task t0 core 0 pc 0 phase again:max regs 0,0,0,0,0,0,0,0 data - notes 0:idle\n\
                  ok at 4\ntask t0 core 0 pc 1 phase run regs 2,0,0,0,0,0,0,0 data - \
                  notes 0:idle\n\
                  set s0 0/2 handles - wait -\n\
                  ok at 5\ntask t0 core 0 pc 2 phase run regs 1,0,0,0,0,0,0,0 data 05 \
                  notes 0:idle\n\
                  ok at 3\nset s0 1/2 handles q1 wait -\n\
                  ok at 0\nset s0 0/2 handles - wait -\ncores t0,t1 ready - tick 0 turn 0\n",
    },
    FileRun {
        name: "a queue joins a set and leaves it while it is empty",
        app: concat!(
            r#"{"profile":1,"cores":1,"queues":[{"name":"q0","length":2,"item":1}],"#,
            r#""sets":[{"name":"s0","length":2,"members":[]},"#,
            r#"{"name":"s1","length":1,"members":[]}],"#,
            r#""tasks":[{"name":"t0","priority":1,"code":["setadd q0 s0","setadd q0 s1","#,
            r#""send q0 0","setdel q0 s0","recv q0 0","setdel q0 s1","setdel q0 s0","#,
            r#""select s0 0","setadd q0 s1","end"]}]}"#,
        ),
        commands: "step 0\nshow queue q0\nshow task t0\nstep 0\nshow task t0\nstep 0\nstep 0\n\
                   show task t0\nstep 0\nstep 0\nshow task t0\nshow queue q0\nstep 0\n\
                   show task t0\nshow queue q0\nshow set s0\nstep 0\nshow task t0\n\
                   show set s0\nstep 0\nshow queue q0\nback 2\nshow queue q0\nshow set s0\n\
                   back 7\nshow queue q0\nshow set s0\n",
        replies: "ok at 1\nqueue q0 0/2 items - recv - send - set s0\n\
                  task t0 core 0 pc 1 phase run regs 1,0,0,0,0,0,0,0 data - notes 0:idle\n\
                  ok at 2\ntask t0 core 0 pc 2 phase run regs 0,0,0,0,0,0,0,0 data - \
                  notes 0:idle\n\
                  ok at 3\nok at 4\n\
                  task t0 core 0 pc 4 phase run regs 0,0,0,0,0,0,0,0 data - notes 0:idle\n\
                  ok at 5\nok at 6\n\
                  task t0 core 0 pc 6 phase run regs 0,0,0,0,0,0,0,0 data 00 notes 0:idle\n\
                  queue q0 0/2 items - recv - send - set s0\n\
                  ok at 7\ntask t0 core 0 pc 7 phase run regs 1,0,0,0,0,0,0,0 data 00 \
                  notes 0:idle\n\
                  queue q0 0/2 items - recv - send - set -\n\
                  set s0 1/2 handles q0 wait -\n\
                  ok at 8\ntask t0 core 0 pc 8 phase run regs 1,0,0,0,0,0,0,0 data 00 \
                  notes 0:idle\n\
                  set s0 0/2 handles - wait -\n\
                  ok at 9\nqueue q0 0/2 items - recv - send - set s1\n\
                  ok at 7\nqueue q0 0/2 items - recv - send - set -\n\
                  set s0 1/2 handles q0 wait -\n\
                  ok at 0\nqueue q0 0/2 items - recv - send - set -\n\
                  set s0 0/2 handles - wait -\n",
    },
    FileRun {
        name: "a post wakes a selector and no receiver of the member",
        app: concat!(
            r#"{"profile":1,"cores":3,"queues":[{"name":"q0","length":1,"item":1}],"#,
            r#""sets":[{"name":"s0","length":1,"members":["q0"]}],"#,
            r#""tasks":[{"name":"t0","priority":1,"code":["recv q0 max","end"]},"#,
            r#"{"name":"t1","priority":1,"code":["select s0 max","end"]},"#,
            r#"{"name":"t2","priority":1,"code":["send q0 0","over q0","end"]}]}"#,
        ),
        commands: "step 0\nstep 1\nstep 2\nshow queue q0\nshow set s0\nshow cores\nstep 2\n\
                   show queue q0\nshow set s0\nback 2\nshow queue q0\nshow set s0\nshow cores\n",
        replies: "ok at 1\nok at 2\nok at 3\n\
                  queue q0 1/1 items 00 recv t0 send - set s0\n\
                  set s0 1/1 handles q0 wait -\ncores t1,-,t2 ready - tick 0 turn 3\n\
                  ok at 4\nqueue q0 1/1 items 00 recv t0 send - set s0\n\
                  set s0 1/1 handles q0 wait -\n\
                  ok at 2\nqueue q0 0/1 items - recv t0 send - set s0\n\
                  set s0 0/1 handles - wait t1\ncores -,-,t2 ready - tick 0 turn 2\n",
    },
    FileRun {
        name: "a full queue comes before a full set, and an overwrite counts as a send",
        app: concat!(
            r#"{"profile":1,"cores":1,"queues":[{"name":"q0","length":1,"item":1},"#,
            r#"{"name":"q1","length":1,"item":1}],"#,
            r#""sets":[{"name":"s0","length":1,"members":["q0","q1"]}],"#,
            r#""tasks":[{"name":"t0","priority":1,"code":["send q0 0","front q0 0","over q1","#,
            r#""end"]}]}"#,
        ),
        commands: "step 0\nstep 0\nshow task t0\nstep 0\nshow task t0\nshow queue q1\n\
                   show set s0\nback 1\nshow task t0\n",
        replies: "ok at 1\nok at 2\n\
                  task t0 core 0 pc 2 phase run regs 0,0,0,0,0,0,0,0 data - notes 0:idle\n\
                  ok at 3\n\
                  task t0 core - pc 2 phase failed:SetFull regs 0,0,0,0,0,0,0,0 data - \
                  notes 0:idle\n\
                  queue q1 0/1 items - recv - send - set s0\n\
                  set s0 1/1 handles q0 wait -\n\
                  ok at 2\n\
                  task t0 core 0 pc 2 phase run regs 0,0,0,0,0,0,0,0 data - notes 0:idle\n",
    },
    FileRun {
        name: "a select times out",
        app: concat!(
            r#"{"profile":1,"cores":1,"queues":[{"name":"q0","length":1,"item":1}],"#,
            r#""sets":[{"name":"s0","length":1,"members":["q0"]}],"#,
            r#""tasks":[{"name":"t0","priority":1,"code":["set r0 9","select s0 2","end"]}]}"#,
        ),
        commands: "step 0\nstep 0\nshow task t0\nshow set s0\ntick\nshow set s0\ntick\n\
                   show task t0\nshow set s0\nstep 0\nshow task t0\nback 2\nshow set s0\n",
        replies: "ok at 1\nok at 2\n\
                  task t0 core - pc 1 phase wait:set:s0:2 regs 9,0,0,0,0,0,0,0 data - \
                  notes 0:idle\n\
                  set s0 0/1 handles - wait t0\nok at 3\nset s0 0/1 handles - wait t0\n\
                  ok at 4\n\
                  task t0 core 0 pc 1 phase again:2 regs 9,0,0,0,0,0,0,0 data - notes 0:idle\n\
                  set s0 0/1 handles - wait -\n\
                  ok at 5\n\
                  task t0 core 0 pc 2 phase run regs 0,0,0,0,0,0,0,0 data - notes 0:idle\n\
                  ok at 3\nset s0 0/1 handles - wait t0\n",
    },
    FileRun {
        name: "a send that tries again finds the set full",
        app: concat!(
            r#"{"profile":1,"cores":2,"queues":[{"name":"q0","length":1,"item":1},"#,
            r#"{"name":"q1","length":1,"item":1}],"#,
            r#""sets":[{"name":"s0","length":1,"members":["q0","q1"]}],"#,
            r#""tasks":[{"name":"t0","priority":1,"code":["send q0 0","send q0 max","end"]},"#,
            r#"{"name":"t1","priority":1,"code":["select s0 0","recv q0 0","send q1 0","#,
            r#""end"]}]}"#,
        ),
        commands: "step 0\nstep 0\nshow queue q0\nstep 1\nstep 1\nshow task t0\nstep 1\nstep 0\n\
                   show task t0\nshow queue q0\nshow set s0\nback 1\nshow task t0\nback 3\n\
                   show queue q0\nshow set s0\n",
        replies: "ok at 1\nok at 2\nqueue q0 1/1 items 00 recv - send t0 set s0\n\
                  ok at 3\nok at 4\n\
                  task t0 core 0 pc 1 phase again:max regs 1,0,0,0,0,0,0,0 data - notes 0:idle\n\
                  ok at 5\nok at 6\n\
                  task t0 core - pc 1 phase failed:SetFull regs 1,0,0,0,0,0,0,0 data - \
                  notes 0:idle\n\
                  queue q0 0/1 items - recv - send - set s0\n\
                  set s0 1/1 handles q1 wait -\n\
                  ok at 5\n\
                  task t0 core 0 pc 1 phase again:max regs 1,0,0,0,0,0,0,0 data - notes 0:idle\n\
                  ok at 2\nqueue q0 1/1 items 00 recv - send t0 set s0\n\
                  set s0 1/1 handles q0 wait -\n",
    },
    FileRun {
        name: "an item that goes to the front is posted too, and fails in a full set",
        app: concat!(
            r#"{"profile":1,"cores":1,"queues":[{"name":"q0","length":2,"item":1}],"#,
            r#""sets":[{"name":"s0","length":1,"members":["q0"]}],"#,
            r#""tasks":[{"name":"t0","priority":1,"code":["data 01","front q0 0","data 02","#,
            r#""front q0 0","end"]}]}"#,
        ),
        commands: "step 0\nstep 0\nshow set s0\nstep 0\nstep 0\nshow task t0\nshow queue q0\n\
                   back 1\nshow task t0\n",
        replies: "ok at 1\nok at 2\nset s0 1/1 handles q0 wait -\n\
                  ok at 3\nok at 4\n\
                  task t0 core - pc 3 phase failed:SetFull regs 1,0,0,0,0,0,0,0 data 02 \
                  notes 0:idle\n\
                  queue q0 1/2 items 01 recv - send - set s0\n\
                  ok at 3\n\
                  task t0 core 0 pc 3 phase run regs 1,0,0,0,0,0,0,0 data 02 notes 0:idle\n",
    },
    FileRun {
        name: "a peek of a member wakes a receiver, and a reset leaves the handle",
        app: concat!(
            r#"{"profile":1,"cores":2,"queues":[{"name":"q0","length":1,"item":1}],"#,
            r#""sets":[{"name":"s0","length":2,"members":["q0"]}],"#,
            r#""tasks":[{"name":"t0","priority":1,"code":["recv q0 max","end"]},"#,
            r#"{"name":"t1","priority":1,"code":["data 05","send q0 0","peek q0 0","qreset q0","#,
            r#""select s0 0","end"]}]}"#,
        ),
        commands: "step 0\nstep 1\nstep 1\nshow queue q0\nstep 1\nshow queue q0\nshow cores\n\
                   step 1\nshow queue q0\nshow set s0\nstep 0\nshow task t0\nstep 1\n\
                   show task t1\nshow set s0\nback 3\nshow queue q0\nback 1\nshow queue q0\n",
        replies: "ok at 1\nok at 2\nok at 3\nqueue q0 1/1 items 05 recv t0 send - set s0\n\
                  ok at 4\nqueue q0 1/1 items 05 recv - send - set s0\n\
                  cores t0,t1 ready - tick 0 turn 2\n\
                  ok at 5\nqueue q0 0/1 items - recv - send - set s0\n\
                  set s0 1/2 handles q0 wait -\n\
                  ok at 6\n\
                  task t0 core - pc 0 phase wait:recv:q0:max regs 0,0,0,0,0,0,0,0 data - \
                  notes 0:idle\n\
                  ok at 7\ntask t1 core 1 pc 5 phase run regs 1,0,0,0,0,0,0,0 data 05 \
                  notes 0:idle\n\
                  set s0 0/2 handles - wait -\n\
                  ok at 4\nqueue q0 1/1 items 05 recv - send - set s0\n\
                  ok at 3\nqueue q0 1/1 items 05 recv t0 send - set s0\n",
    },
    FileRun {
        name: "a queue with items joins no set, and one in none leaves none",
        app: concat!(
            r#"{"profile":1,"cores":1,"queues":[{"name":"q0","length":1,"item":1}],"#,
            r#""sets":[{"name":"s0","length":1,"members":[]}],"#,
            r#""tasks":[{"name":"t0","priority":1,"code":["send q0 0","setadd q0 s0","#,
            r#""recv q0 0","setdel q0 s0","end"]}]}"#,
        ),
        commands: "step 0\nstep 0\nshow task t0\nshow queue q0\nstep 0\nstep 0\nshow task t0\n\
                   show queue q0\nback 3\nshow task t0\n",
        replies: "ok at 1\nok at 2\n\
                  task t0 core 0 pc 2 phase run regs 0,0,0,0,0,0,0,0 data - notes 0:idle\n\
                  queue q0 1/1 items 00 recv - send - set -\n\
                  ok at 3\nok at 4\n\
                  task t0 core 0 pc 4 phase run regs 0,0,0,0,0,0,0,0 data 00 notes 0:idle\n\
                  queue q0 0/1 items - recv - send - set -\n\
                  ok at 1\n\
                  task t0 core 0 pc 1 phase run regs 1,0,0,0,0,0,0,0 data - notes 0:idle\n",
    },
];

// Handles come by sends into members and go by selects.
#[test]
fn rows(rt: HostRuntime) -> Result<(), Fail> {
    assert_rows(&rt, &ROWS)
}
