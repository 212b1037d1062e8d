//! Runs of applications with stream buffers: what is written and read, who waits and who is told,
//! and the way back. Two are of message buffers too.

use crate::tasks::{FileRun, assert_rows};
use std::test::Fail;

const ROWS: [FileRun; 9] = [
    FileRun {
        name: "trigger_level",
        app: concat!(
            r#"{"profile":1,"cores":1,"streams":[{"name":"b0","size":8,"trigger":4}],"#,
            r#""tasks":[{"name":"t0","priority":2,"code":["sread b0 10 max","end"]},"#,
            r#"{"name":"t1","priority":1,"code":["data 010203","swrite b0 0","data 04","#,
            r#""swrite b0 0","end"]}]}"#,
        ),
        commands: "step 0\nshow task t0\nstep 0\nstep 0\nshow stream b0\nstep 0\nstep 0\n\
                   show stream b0\nshow cores\nshow task t0\nstep 0\nshow task t0\nshow stream b0\n\
                   back 1\nshow stream b0\nback 2\nshow stream b0\nshow task t0\n",
        replies: "ok at 1\n\
                  task t0 core - pc 0 phase wait:sread:b0:max regs 0,0,0,0,0,0,0,0 data - \
                  notes 0:waiting\n\
                  ok at 2\nok at 3\n\
                  stream b0 3/8 trigger 4 bytes 010203 reader t0 writer -\n\
                  ok at 4\nok at 5\n\
                  stream b0 4/8 trigger 4 bytes 01020304 reader - writer -\n\
                  cores t0 ready t1 tick 0 turn 1\n\
                  task t0 core 0 pc 0 phase again:max regs 0,0,0,0,0,0,0,0 data - \
                  notes 0:received\n\
                  ok at 6\n\
                  task t0 core 0 pc 1 phase run regs 4,0,0,0,0,0,0,0 data 01020304 notes 0:idle\n\
                  stream b0 0/8 trigger 4 bytes - reader - writer -\n\
                  ok at 5\n\
                  stream b0 4/8 trigger 4 bytes 01020304 reader - writer -\n\
                  ok at 3\n\
                  stream b0 3/8 trigger 4 bytes 010203 reader t0 writer -\n\
                  task t0 core - pc 0 phase wait:sread:b0:max regs 0,0,0,0,0,0,0,0 data - \
                  notes 0:waiting\n",
    },
    FileRun {
        name: "message_too_long_for_its_reader",
        app: concat!(
            r#"{"profile":1,"cores":1,"messages":[{"name":"m0","size":10}],"#,
            r#""tasks":[{"name":"t0","priority":1,"code":["data 61626364656667","#,
            r#""mwrite m0 max","data 616263646566","mwrite m0 max","mread m0 5 0","#,
            r#""mread m0 6 0","end"]}]}"#,
        ),
        commands: "step 0\nstep 0\nshow task t0\nshow message m0\nstep 0\nstep 0\nshow task t0\n\
                   step 0\nshow task t0\nshow message m0\nstep 0\nshow task t0\nshow message m0\n\
                   back 2\nshow message m0\nback 2\nshow message m0\n",
        replies: "ok at 1\nok at 2\n\
                  task t0 core 0 pc 2 phase run regs 0,0,0,0,0,0,0,0 data 61626364656667 \
                  notes 0:idle\n\
                  message m0 0/10 messages - reader - writer -\n\
                  ok at 3\nok at 4\n\
                  task t0 core 0 pc 4 phase run regs 6,0,0,0,0,0,0,0 data 616263646566 \
                  notes 0:idle\n\
                  ok at 5\n\
                  task t0 core 0 pc 5 phase run regs 0,0,0,0,0,0,0,0 data 616263646566 \
                  notes 0:idle\n\
                  message m0 10/10 messages 616263646566 reader - writer -\n\
                  ok at 6\n\
                  task t0 core 0 pc 6 phase run regs 6,0,0,0,0,0,0,0 data 616263646566 \
                  notes 0:idle\n\
                  message m0 0/10 messages - reader - writer -\n\
                  ok at 4\n\
                  message m0 10/10 messages 616263646566 reader - writer -\n\
                  ok at 2\n\
                  message m0 0/10 messages - reader - writer -\n",
    },
    FileRun {
        name: "stream_wraps",
        app: concat!(
            r#"{"profile":1,"cores":1,"streams":[{"name":"b0","size":4,"trigger":1}],"#,
            r#""tasks":[{"name":"t0","priority":1,"code":["data 010203","swrite b0 0","#,
            r#""sread b0 2 0","data 040506","swrite b0 0","end"]}]}"#,
        ),
        commands: "step 0\nstep 0\nstep 0\nstep 0\nstep 0\nshow stream b0\nshow task t0\nback 3\n\
                   show stream b0\n",
        replies: "ok at 1\nok at 2\nok at 3\nok at 4\nok at 5\n\
                  stream b0 4/4 trigger 1 bytes 03040506 reader - writer -\n\
                  task t0 core 0 pc 5 phase run regs 3,0,0,0,0,0,0,0 data 040506 notes 0:idle\n\
                  ok at 2\n\
                  stream b0 3/4 trigger 1 bytes 010203 reader - writer -\n",
    },
    FileRun {
        name: "data of no bytes is not written",
        app: concat!(
            r#"{"profile":1,"cores":2,"streams":[{"name":"b0","size":4,"trigger":1}],"#,
            r#""messages":[{"name":"m0","size":8}],"#,
            r#""tasks":[{"name":"t0","priority":1,"code":["swrite b0 max","end"]},"#,
            r#"{"name":"t1","priority":1,"code":["mwrite m0 0","end"]}]}"#,
        ),
        commands: "step 0\nshow task t0\nshow stream b0\nstep 1\nshow task t1\nshow message m0\n\
                   back 2\nshow task t0\nshow task t1\n",
        replies: "ok at 1\n\
                  task t0 core - pc 0 phase failed:EmptyData regs 0,0,0,0,0,0,0,0 data - \
                  notes 0:idle\n\
                  stream b0 0/4 trigger 1 bytes - reader - writer -\n\
                  ok at 2\n\
                  task t1 core - pc 0 phase failed:EmptyData regs 0,0,0,0,0,0,0,0 data - \
                  notes 0:idle\n\
                  message m0 0/8 messages - reader - writer -\n\
                  ok at 0\n\
                  task t0 core 0 pc 0 phase run regs 0,0,0,0,0,0,0,0 data - notes 0:idle\n\
                  task t1 core 1 pc 0 phase run regs 0,0,0,0,0,0,0,0 data - notes 0:idle\n",
    },
    FileRun {
        name: "a write without a block time writes what fits",
        app: concat!(
            r#"{"profile":1,"cores":1,"streams":[{"name":"b0","size":4,"trigger":1}],"#,
            r#""tasks":[{"name":"t0","priority":1,"code":["data 010203","swrite b0 0","#,
            r#""swrite b0 0","swrite b0 0","end"]}]}"#,
        ),
        commands: "step 0\nstep 0\nstep 0\nshow task t0\nshow stream b0\nstep 0\nshow task t0\n\
                   show stream b0\nback 2\nshow stream b0\n",
        replies: "ok at 1\nok at 2\nok at 3\n\
                  task t0 core 0 pc 3 phase run regs 1,0,0,0,0,0,0,0 data 010203 notes 0:idle\n\
                  stream b0 4/4 trigger 1 bytes 01020301 reader - writer -\n\
                  ok at 4\n\
                  task t0 core 0 pc 4 phase run regs 0,0,0,0,0,0,0,0 data 010203 notes 0:idle\n\
                  stream b0 4/4 trigger 1 bytes 01020301 reader - writer -\n\
                  ok at 2\n\
                  stream b0 3/4 trigger 1 bytes 010203 reader - writer -\n",
    },
    FileRun {
        name: "a read of nothing leaves the data",
        app: concat!(
            r#"{"profile":1,"cores":1,"streams":[{"name":"b0","size":4,"trigger":1}],"#,
            r#""tasks":[{"name":"t0","priority":1,"code":["data 07","sread b0 4 0","#,
            r#""sread b0 4 1","end"]}]}"#,
        ),
        commands: "step 0\nstep 0\nshow task t0\nstep 0\nshow task t0\ntick\nstep 0\nshow task t0\n\
                   show stream b0\nback 1\nshow task t0\nshow stream b0\n",
        replies: "ok at 1\nok at 2\n\
                  task t0 core 0 pc 2 phase run regs 0,0,0,0,0,0,0,0 data 07 notes 0:idle\n\
                  ok at 3\n\
                  task t0 core - pc 2 phase wait:sread:b0:1 regs 0,0,0,0,0,0,0,0 data 07 \
                  notes 0:waiting\n\
                  ok at 4\nok at 5\n\
                  task t0 core 0 pc 3 phase run regs 0,0,0,0,0,0,0,0 data 07 notes 0:idle\n\
                  stream b0 0/4 trigger 1 bytes - reader - writer -\n\
                  ok at 4\n\
                  task t0 core 0 pc 2 phase again:1 regs 0,0,0,0,0,0,0,0 data 07 notes 0:waiting\n\
                  stream b0 0/4 trigger 1 bytes - reader t0 writer -\n",
    },
    FileRun {
        name: "trigger levels at their ends",
        app: concat!(
            r#"{"profile":1,"cores":1,"streams":[{"name":"b0","size":4,"trigger":2}],"#,
            r#""tasks":[{"name":"t0","priority":1,"code":["strig b0 0","strig b0 4","#,
            r#""strig b0 5","set r1 3","strig b0 r1","end"]}]}"#,
        ),
        commands: "show stream b0\nstep 0\nshow task t0\nshow stream b0\nstep 0\nshow task t0\n\
                   show stream b0\nstep 0\nshow task t0\nshow stream b0\nstep 0\nstep 0\n\
                   show task t0\nshow stream b0\nback 1\nshow stream b0\nback 3\nshow stream b0\n\
                   back 1\nshow stream b0\n",
        replies: "stream b0 0/4 trigger 2 bytes - reader - writer -\n\
                  ok at 1\n\
                  task t0 core 0 pc 1 phase run regs 1,0,0,0,0,0,0,0 data - notes 0:idle\n\
                  stream b0 0/4 trigger 1 bytes - reader - writer -\n\
                  ok at 2\n\
                  task t0 core 0 pc 2 phase run regs 1,0,0,0,0,0,0,0 data - notes 0:idle\n\
                  stream b0 0/4 trigger 4 bytes - reader - writer -\n\
                  ok at 3\n\
                  task t0 core 0 pc 3 phase run regs 0,0,0,0,0,0,0,0 data - notes 0:idle\n\
                  stream b0 0/4 trigger 4 bytes - reader - writer -\n\
                  ok at 4\nok at 5\n\
                  task t0 core 0 pc 5 phase run regs 1,3,0,0,0,0,0,0 data - notes 0:idle\n\
                  stream b0 0/4 trigger 3 bytes - reader - writer -\n\
                  ok at 4\n\
                  stream b0 0/4 trigger 4 bytes - reader - writer -\n\
                  ok at 1\n\
                  stream b0 0/4 trigger 1 bytes - reader - writer -\n\
                  ok at 0\n\
                  stream b0 0/4 trigger 2 bytes - reader - writer -\n",
    },
    FileRun {
        name: "a lower trigger level counts at the next write",
        app: concat!(
            r#"{"profile":1,"cores":2,"streams":[{"name":"b0","size":8,"trigger":8}],"#,
            r#""tasks":[{"name":"t0","priority":1,"code":["sread b0 8 max","end"]},"#,
            r#"{"name":"t1","priority":1,"code":["data 01","swrite b0 0","strig b0 1","#,
            r#""swrite b0 0","end"]}]}"#,
        ),
        commands: "step 0\nstep 1\nstep 1\nstep 1\nshow stream b0\nshow cores\nstep 1\n\
                   show stream b0\nshow cores\nback 2\nshow stream b0\n",
        replies: "ok at 1\nok at 2\nok at 3\nok at 4\n\
                  stream b0 1/8 trigger 1 bytes 01 reader t0 writer -\n\
                  cores -,t1 ready - tick 0 turn 2\n\
                  ok at 5\n\
                  stream b0 2/8 trigger 1 bytes 0101 reader - writer -\n\
                  cores t0,t1 ready - tick 0 turn 2\n\
                  ok at 3\n\
                  stream b0 1/8 trigger 8 bytes 01 reader t0 writer -\n",
    },
    FileRun {
        name: "bytes and spaces of a stream buffer",
        app: concat!(
            r#"{"profile":1,"cores":1,"streams":[{"name":"b0","size":8,"trigger":1}],"#,
            r#""tasks":[{"name":"t0","priority":1,"code":["sspaces b0","data 010203","#,
            r#""swrite b0 0","sspaces b0","scount b0","end"]}]}"#,
        ),
        commands: "step 0\nshow task t0\nstep 0\nstep 0\nstep 0\nshow task t0\nstep 0\n\
                   show task t0\nback 1\nshow task t0\nshow stream b0\n",
        replies: "ok at 1\n\
                  task t0 core 0 pc 1 phase run regs 8,0,0,0,0,0,0,0 data - notes 0:idle\n\
                  ok at 2\nok at 3\nok at 4\n\
                  task t0 core 0 pc 4 phase run regs 5,0,0,0,0,0,0,0 data 010203 notes 0:idle\n\
                  ok at 5\n\
                  task t0 core 0 pc 5 phase run regs 3,0,0,0,0,0,0,0 data 010203 notes 0:idle\n\
                  ok at 4\n\
                  task t0 core 0 pc 4 phase run regs 5,0,0,0,0,0,0,0 data 010203 notes 0:idle\n\
                  stream b0 3/8 trigger 1 bytes 010203 reader - writer -\n",
    },
];

// Each call of a stream buffer is the list's: bytes come out in the order in which they went in.
#[test]
fn rows(rt: HostRuntime) -> Result<(), Fail> {
    assert_rows(&rt, &ROWS)
}
