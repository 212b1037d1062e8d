//! Runs of scripts whose instructions touch their own task alone, and the way back.

use crate::tasks::{FileRun, assert_rows};
use std::test::Fail;

const ROWS: [FileRun; 3] = [
    FileRun {
        name: "sums wrap, and a register becomes another's value",
        app: concat!(
            r#"{"profile":1,"cores":1,"tasks":[{"name":"t0","priority":1,"#,
            r#""code":["set r1 4294967295","add r1 3","move r2 r1","add r0 7","move r0 r2","#,
            r#""end"]}]}"#,
        ),
        commands: "step 0\nstep 0\nshow task t0\nstep 0\nstep 0\nshow task t0\nstep 0\n\
                   show task t0\nback 4\nshow task t0\n",
        replies: "ok at 1\nok at 2\n\
                  task t0 core 0 pc 2 phase run regs 0,2,0,0,0,0,0,0 data - notes 0:idle\n\
                  ok at 3\nok at 4\n\
                  task t0 core 0 pc 4 phase run regs 7,2,2,0,0,0,0,0 data - notes 0:idle\n\
                  ok at 5\n\
                  task t0 core 0 pc 5 phase run regs 2,2,2,0,0,0,0,0 data - notes 0:idle\n\
                  ok at 1\n\
                  task t0 core 0 pc 1 phase run regs 0,4294967295,0,0,0,0,0,0 data - \
                  notes 0:idle\n",
    },
    FileRun {
        name: "a script goes on elsewhere where a register is 0",
        app: concat!(
            r#"{"profile":1,"cores":1,"tasks":[{"name":"t0","priority":1,"#,
            r#""code":["jumpz r1 2","end","set r1 1","jumpz r1 1","jump 1"]}]}"#,
        ),
        commands: "step 0\nshow task t0\nstep 0\nstep 0\nshow task t0\nstep 0\nshow task t0\n\
                   step 0\nshow task t0\nback 5\nshow task t0\n",
        replies: "ok at 1\n\
                  task t0 core 0 pc 2 phase run regs 0,0,0,0,0,0,0,0 data - notes 0:idle\n\
                  ok at 2\nok at 3\n\
                  task t0 core 0 pc 4 phase run regs 0,1,0,0,0,0,0,0 data - notes 0:idle\n\
                  ok at 4\n\
                  task t0 core 0 pc 1 phase run regs 0,1,0,0,0,0,0,0 data - notes 0:idle\n\
                  ok at 5\n\
                  task t0 core - pc 1 phase ended regs 0,1,0,0,0,0,0,0 data - notes 0:idle\n\
                  ok at 0\n\
                  task t0 core 0 pc 0 phase run regs 0,0,0,0,0,0,0,0 data - notes 0:idle\n",
    },
    FileRun {
        name: "the data's first four bytes are a number, and missing ones are 0",
        app: concat!(
            r#"{"profile":1,"cores":1,"tasks":[{"name":"t0","priority":1,"#,
            r#""code":["set r3 9","data 0102030405","unpack r1","data ff","unpack r2","#,
            r#""data -","unpack r3","pack r1","end"]}]}"#,
        ),
        commands: "step 0\nstep 0\nstep 0\nshow task t0\nstep 0\nstep 0\nshow task t0\nstep 0\n\
                   step 0\nshow task t0\nstep 0\nshow task t0\nback 4\nshow task t0\n",
        replies: "ok at 1\nok at 2\nok at 3\n\
                  task t0 core 0 pc 3 phase run regs 0,67305985,0,9,0,0,0,0 data 0102030405 \
                  notes 0:idle\n\
                  ok at 4\nok at 5\n\
                  task t0 core 0 pc 5 phase run regs 0,67305985,255,9,0,0,0,0 data ff \
                  notes 0:idle\n\
                  ok at 6\nok at 7\n\
                  task t0 core 0 pc 7 phase run regs 0,67305985,255,0,0,0,0,0 data - notes 0:idle\n\
                  ok at 8\n\
                  task t0 core 0 pc 8 phase run regs 0,67305985,255,0,0,0,0,0 data 01020304 \
                  notes 0:idle\n\
                  ok at 4\n\
                  task t0 core 0 pc 4 phase run regs 0,67305985,0,9,0,0,0,0 data ff notes 0:idle\n",
    },
];

// What a task does with its own registers and data is as written.
#[test]
fn rows(rt: HostRuntime) -> Result<(), Fail> {
    assert_rows(&rt, &ROWS)
}
