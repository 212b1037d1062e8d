//! Application files: what the program shows of one that it reads, and the texts of faults.

use crate::asserts::assert_same;
use crate::tasks::{FileRun, assert_rows};
use rd_script::error::AppError;
use std::test::Fail;

const ROWS: [FileRun; 6] = [
    FileRun {
        name: "a thing has its name among those of its kind",
        app: concat!(
            r#"{"profile":1,"cores":1,"queues":[{"name":"q0","length":2,"item":1}],"#,
            r#""tasks":[{"name":"t0","priority":1,"code":["end"]}]}"#
        ),
        commands: "show queue q0\nshow task t0\nshow task q0\nshow queue t0\n",
        replies: "queue q0 0/2 items - recv - send - set -\n\
                  task t0 core 0 pc 0 phase run regs 0,0,0,0,0,0,0,0 data - notes 0:idle\n\
                  no NoSuch\nno NoSuch\n",
    },
    FileRun {
        name: "a set may have the name of a queue",
        app: concat!(
            r#"{"profile":1,"cores":1,"queues":[{"name":"q0","length":1,"item":1},"#,
            r#"{"name":"q1","length":1,"item":1}],"#,
            r#""sets":[{"name":"s0","length":2048,"members":["q1"]},"#,
            r#"{"name":"q0","length":1,"members":[]}],"#,
            r#""tasks":[{"name":"t0","priority":1,"code":["end"]}]}"#
        ),
        commands: "show set s0\nshow set q0\nshow set q1\nshow queue q0\nshow queue q1\n",
        replies: "set s0 0/2048 handles - wait -\nset q0 0/1 handles - wait -\nno NoSuch\n\
                  queue q0 0/1 items - recv - send - set -\n\
                  queue q1 0/1 items - recv - send - set s0\n",
    },
    FileRun {
        name: "sizes of buffers, and their names",
        app: concat!(
            r#"{"profile":1,"cores":1,"streams":[{"name":"b0","size":1,"trigger":0},"#,
            r#"{"name":"b1","size":1024,"trigger":1024}],"#,
            r#""messages":[{"name":"b0","size":5},{"name":"m1","size":1024}],"#,
            r#""tasks":[{"name":"t0","priority":1,"code":["end"]}]}"#
        ),
        commands: "show stream b0\nshow stream b1\nshow message b0\nshow message m1\n\
                   show stream m1\nshow message b1\nshow queue b0\nshow stream\nshow buffer b0\n",
        replies: "stream b0 0/1 trigger 1 bytes - reader - writer -\n\
                  stream b1 0/1024 trigger 1024 bytes - reader - writer -\n\
                  message b0 0/5 messages - reader - writer -\n\
                  message m1 0/1024 messages - reader - writer -\n\
                  no NoSuch\nno NoSuch\nno NoSuch\nno Syntax\nno Syntax\n",
    },
    FileRun {
        name: "event groups, and their names",
        app: concat!(
            r#"{"profile":1,"cores":1,"groups":[{"name":"g0"},{"name":"t0"}],"#,
            r#""tasks":[{"name":"t0","priority":1,"code":["end"]}]}"#
        ),
        commands: "show group g0\nshow group t0\nshow task t0\nshow group g1\nshow task g0\n\
                   show group\nshow groups g0\n",
        replies: "group g0 bits 0 wait -\ngroup t0 bits 0 wait -\n\
                  task t0 core 0 pc 0 phase run regs 0,0,0,0,0,0,0,0 data - notes 0:idle\n\
                  no NoSuch\nno NoSuch\nno Syntax\nno Syntax\n",
    },
    FileRun {
        name: "spaces around the words of an instruction",
        app: concat!(
            r#"{"profile":1,"cores":1,"tasks":[{"name":"t0","priority":1,"#,
            r#""code":["set r1 258","pack r1"," unpack  r2 ","end"]}]}"#
        ),
        commands: "step 0\nstep 0\nstep 0\nshow task t0\nstep 0\nshow task t0\n",
        replies: "ok at 1\nok at 2\nok at 3\n\
                  task t0 core 0 pc 3 phase run regs 0,258,258,0,0,0,0,0 data 02010000 \
                  notes 0:idle\n\
                  ok at 4\n\
                  task t0 core - pc 3 phase ended regs 0,258,258,0,0,0,0,0 data 02010000 \
                  notes 0:idle\n",
    },
    FileRun {
        name: "block times",
        app: concat!(
            r#"{"profile":1,"cores":1,"queues":[{"name":"q0","length":1,"item":1}],"#,
            r#""tasks":[{"name":"t0","priority":1,"code":["set r3 3","send q0 1","send q0 r3","#,
            r#""front q0 2","recv q0 0","peek q0 4","recv q0 max","end"]}]}"#
        ),
        commands: "step 0\nstep 0\nstep 0\nshow task t0\ntick\ntick\ntick\nstep 0\n\
                   step 0\nshow task t0\ntick\ntick\nstep 0\nstep 0\n\
                   step 0\nshow task t0\ntick\ntick\ntick\ntick\nstep 0\n\
                   step 0\nshow task t0\nback 19\nshow queue q0\n",
        replies: "ok at 1\nok at 2\nok at 3\n\
                  task t0 core - pc 2 phase wait:send:q0:3 regs 1,0,0,3,0,0,0,0 data - \
                  notes 0:idle\n\
                  ok at 4\nok at 5\nok at 6\nok at 7\nok at 8\n\
                  task t0 core - pc 3 phase wait:send:q0:5 regs 0,0,0,3,0,0,0,0 data - \
                  notes 0:idle\n\
                  ok at 9\nok at 10\nok at 11\nok at 12\nok at 13\n\
                  task t0 core - pc 5 phase wait:recv:q0:9 regs 1,0,0,3,0,0,0,0 data 00 \
                  notes 0:idle\n\
                  ok at 14\nok at 15\nok at 16\nok at 17\nok at 18\nok at 19\n\
                  task t0 core - pc 6 phase wait:recv:q0:max regs 0,0,0,3,0,0,0,0 data 00 \
                  notes 0:idle\n\
                  ok at 0\nqueue q0 0/1 items - recv - send - set -\n",
    },
];

// An application is the one that its file spells: names kind by kind, sizes at their ends, spaces
// and block times.
#[test]
fn rows(rt: HostRuntime) -> Result<(), Fail> {
    assert_rows(&rt, &ROWS)
}

// What is said of each fault of an application.
#[test]
fn texts_of_faults(rt: HostRuntime) -> Result<(), Fail> {
    for (fault, want) in [
        (AppError::NotJson, "L1 NotJson"),
        (AppError::Shape, "L2 Shape"),
        (AppError::Limit, "L3 Limit"),
        (AppError::Name, "L4 Name"),
        (AppError::Instr, "L5 Instr"),
        (AppError::OverwriteLength, "L6 OverwriteLength"),
        (AppError::Memory, "L7 Memory"),
    ] {
        let text = fault.to_string(rt.alloc())?;
        assert_same(&rt, text.as_str(), want);
    }
    Ok(())
}
