//! Runs of applications whose tasks wait at stream and message buffers: whose the places are, what
//! ends a wait, what becomes of a call whose time is up, and the way back.

use crate::tasks::{FileRun, assert_rows};
use std::test::Fail;

const ROWS: [FileRun; 11] = [
    FileRun {
        name: "foreign_notification_ends_a_read",
        app: concat!(
            r#"{"profile":1,"cores":2,"streams":[{"name":"b0","size":8,"trigger":0}],"#,
            r#""tasks":[{"name":"t0","priority":1,"code":["sread b0 8 max","end"]},"#,
            r#"{"name":"t1","priority":1,"code":["notify t0 0 0 none","data 010203","#,
            r#""swrite b0 0","end"]}]}"#,
        ),
        commands: "step 0\nstep 1\nshow stream b0\nshow task t0\nstep 1\nstep 1\nshow stream b0\n\
                   step 0\nshow task t0\nback 3\nshow stream b0\nstep 0\nshow task t0\n\
                   show stream b0\n",
        replies: "ok at 1\nok at 2\n\
                  stream b0 0/8 trigger 1 bytes - reader t0 writer -\n\
                  task t0 core 0 pc 0 phase again:max regs 0,0,0,0,0,0,0,0 data - \
                  notes 0:received\n\
                  ok at 3\nok at 4\n\
                  stream b0 3/8 trigger 1 bytes 010203 reader - writer -\n\
                  ok at 5\n\
                  task t0 core 0 pc 1 phase run regs 3,0,0,0,0,0,0,0 data 010203 notes 0:idle\n\
                  ok at 2\n\
                  stream b0 0/8 trigger 1 bytes - reader t0 writer -\n\
                  ok at 3\n\
                  task t0 core 0 pc 1 phase run regs 0,0,0,0,0,0,0,0 data - notes 0:idle\n\
                  stream b0 0/8 trigger 1 bytes - reader - writer -\n",
    },
    FileRun {
        name: "writer_times_out",
        app: concat!(
            r#"{"profile":1,"cores":2,"streams":[{"name":"b0","size":4,"trigger":1}],"#,
            r#""tasks":[{"name":"t0","priority":1,"code":["data 0102030405","swrite b0 max","#,
            r#""swrite b0 1","end"]},"#,
            r#"{"name":"t1","priority":1,"code":["sreset b0","sreset b0","end"]}]}"#,
        ),
        commands: "step 0\nstep 0\nstep 0\nshow task t0\nshow stream b0\nstep 1\nshow task t1\n\
                   tick\nshow task t0\nshow stream b0\nstep 0\nshow task t0\nshow stream b0\n\
                   step 1\nshow task t1\nshow stream b0\nback 1\nshow stream b0\nback 1\n\
                   show stream b0\nshow task t0\n",
        replies: "ok at 1\nok at 2\nok at 3\n\
                  task t0 core - pc 2 phase wait:swrite:b0:1 regs 4,0,0,0,0,0,0,0 data 0102030405 \
                  notes 0:waiting\n\
                  stream b0 4/4 trigger 1 bytes 01020304 reader - writer t0\n\
                  ok at 4\n\
                  task t1 core 1 pc 1 phase run regs 0,0,0,0,0,0,0,0 data - notes 0:idle\n\
                  ok at 5\n\
                  task t0 core 0 pc 2 phase again:1 regs 4,0,0,0,0,0,0,0 data 0102030405 \
                  notes 0:waiting\n\
                  stream b0 4/4 trigger 1 bytes 01020304 reader - writer t0\n\
                  ok at 6\n\
                  task t0 core 0 pc 3 phase run regs 0,0,0,0,0,0,0,0 data 0102030405 notes 0:idle\n\
                  stream b0 4/4 trigger 1 bytes 01020304 reader - writer -\n\
                  ok at 7\n\
                  task t1 core 1 pc 2 phase run regs 1,0,0,0,0,0,0,0 data - notes 0:idle\n\
                  stream b0 0/4 trigger 1 bytes - reader - writer -\n\
                  ok at 6\n\
                  stream b0 4/4 trigger 1 bytes 01020304 reader - writer -\n\
                  ok at 5\n\
                  stream b0 4/4 trigger 1 bytes 01020304 reader - writer t0\n\
                  task t0 core 0 pc 2 phase again:1 regs 4,0,0,0,0,0,0,0 data 0102030405 \
                  notes 0:waiting\n",
    },
    FileRun {
        name: "two_readers",
        app: concat!(
            r#"{"profile":1,"cores":2,"streams":[{"name":"b0","size":4,"trigger":1}],"#,
            r#""tasks":[{"name":"t0","priority":1,"code":["sread b0 4 max","end"]},"#,
            r#"{"name":"t1","priority":1,"code":["sread b0 4 max","end"]}]}"#,
        ),
        commands: "step 0\nstep 1\nshow task t1\nshow stream b0\nshow cores\nback 1\nshow task t1\n\
                   show stream b0\nshow cores\n",
        replies: "ok at 1\nok at 2\n\
                  task t1 core - pc 0 phase failed:TwoReaders regs 0,0,0,0,0,0,0,0 data - \
                  notes 0:idle\n\
                  stream b0 0/4 trigger 1 bytes - reader t0 writer -\n\
                  cores -,- ready - tick 0 turn 2\n\
                  ok at 1\n\
                  task t1 core 1 pc 0 phase run regs 0,0,0,0,0,0,0,0 data - notes 0:idle\n\
                  stream b0 0/4 trigger 1 bytes - reader t0 writer -\n\
                  cores -,t1 ready - tick 0 turn 1\n",
    },
    FileRun {
        name: "two_writers",
        app: concat!(
            r#"{"profile":1,"cores":2,"streams":[{"name":"b0","size":1,"trigger":1}],"#,
            r#""tasks":[{"name":"t0","priority":1,"code":["data 01","swrite b0 max","#,
            r#""swrite b0 max","end"]},"#,
            r#"{"name":"t1","priority":1,"code":["data 02","swrite b0 max","end"]}]}"#,
        ),
        commands: "step 0\nstep 0\nstep 0\nshow stream b0\nstep 1\nstep 1\nshow task t1\n\
                   show stream b0\nback 1\nshow task t1\n",
        replies: "ok at 1\nok at 2\nok at 3\n\
                  stream b0 1/1 trigger 1 bytes 01 reader - writer t0\n\
                  ok at 4\nok at 5\n\
                  task t1 core - pc 1 phase failed:TwoWriters regs 0,0,0,0,0,0,0,0 data 02 \
                  notes 0:idle\n\
                  stream b0 1/1 trigger 1 bytes 01 reader - writer t0\n\
                  ok at 4\n\
                  task t1 core 1 pc 1 phase run regs 0,0,0,0,0,0,0,0 data 02 notes 0:idle\n",
    },
    FileRun {
        name: "a writer that tries again finds another",
        app: concat!(
            r#"{"profile":1,"cores":2,"streams":[{"name":"b0","size":1,"trigger":1}],"#,
            r#""tasks":[{"name":"t0","priority":1,"code":["data 01","swrite b0 max","#,
            r#""swrite b0 max","end"]},"#,
            r#"{"name":"t1","priority":1,"code":["sread b0 1 0","swrite b0 0","#,
            r#""swrite b0 max","end"]}]}"#,
        ),
        commands: "step 0\nstep 0\nstep 0\nstep 1\nshow stream b0\nshow task t0\nstep 1\nstep 1\n\
                   show stream b0\nstep 0\nshow task t0\nshow stream b0\nback 1\nshow task t0\n",
        replies: "ok at 1\nok at 2\nok at 3\nok at 4\n\
                  stream b0 0/1 trigger 1 bytes - reader - writer -\n\
                  task t0 core 0 pc 2 phase again:max regs 1,0,0,0,0,0,0,0 data 01 \
                  notes 0:received\n\
                  ok at 5\nok at 6\n\
                  stream b0 1/1 trigger 1 bytes 01 reader - writer t1\n\
                  ok at 7\n\
                  task t0 core - pc 2 phase failed:TwoWriters regs 1,0,0,0,0,0,0,0 data 01 \
                  notes 0:idle\n\
                  stream b0 1/1 trigger 1 bytes 01 reader - writer t1\n\
                  ok at 6\n\
                  task t0 core 0 pc 2 phase again:max regs 1,0,0,0,0,0,0,0 data 01 \
                  notes 0:received\n",
    },
    FileRun {
        name: "a writer waits again, until the old deadline",
        app: concat!(
            r#"{"profile":1,"cores":2,"streams":[{"name":"b0","size":4,"trigger":1}],"#,
            r#""tasks":[{"name":"t0","priority":1,"code":["data 010203","swrite b0 0","#,
            r#""swrite b0 5","end"]},"#,
            r#"{"name":"t1","priority":1,"code":["sread b0 1 0","sread b0 1 0","end"]}]}"#,
        ),
        commands: "step 0\nstep 0\nstep 0\nshow task t0\ntick\nstep 1\nshow stream b0\n\
                   show task t0\nstep 0\nshow task t0\nshow stream b0\nstep 1\nshow stream b0\n\
                   step 0\nshow task t0\nshow stream b0\nback 2\nshow stream b0\nback 2\n\
                   show stream b0\n",
        replies: "ok at 1\nok at 2\nok at 3\n\
                  task t0 core - pc 2 phase wait:swrite:b0:5 regs 3,0,0,0,0,0,0,0 data 010203 \
                  notes 0:waiting\n\
                  ok at 4\nok at 5\n\
                  stream b0 2/4 trigger 1 bytes 0203 reader - writer -\n\
                  task t0 core 0 pc 2 phase again:5 regs 3,0,0,0,0,0,0,0 data 010203 \
                  notes 0:received\n\
                  ok at 6\n\
                  task t0 core - pc 2 phase wait:swrite:b0:5 regs 3,0,0,0,0,0,0,0 data 010203 \
                  notes 0:waiting\n\
                  stream b0 2/4 trigger 1 bytes 0203 reader - writer t0\n\
                  ok at 7\n\
                  stream b0 1/4 trigger 1 bytes 03 reader - writer -\n\
                  ok at 8\n\
                  task t0 core 0 pc 3 phase run regs 3,0,0,0,0,0,0,0 data 010203 notes 0:idle\n\
                  stream b0 4/4 trigger 1 bytes 03010203 reader - writer -\n\
                  ok at 6\n\
                  stream b0 2/4 trigger 1 bytes 0203 reader - writer t0\n\
                  ok at 4\n\
                  stream b0 3/4 trigger 1 bytes 010203 reader - writer t0\n",
    },
    FileRun {
        name: "a writer whose time is up writes what fits",
        app: concat!(
            r#"{"profile":1,"cores":1,"streams":[{"name":"b0","size":4,"trigger":1}],"#,
            r#""tasks":[{"name":"t0","priority":1,"code":["set r1 1","data 010203","#,
            r#""swrite b0 0","swrite b0 r1","end"]}]}"#,
        ),
        commands: "step 0\nstep 0\nstep 0\nstep 0\nshow task t0\ntick\nstep 0\nshow task t0\n\
                   show stream b0\nback 1\nshow stream b0\nshow task t0\n",
        replies: "ok at 1\nok at 2\nok at 3\nok at 4\n\
                  task t0 core - pc 3 phase wait:swrite:b0:1 regs 3,1,0,0,0,0,0,0 data 010203 \
                  notes 0:waiting\n\
                  ok at 5\nok at 6\n\
                  task t0 core 0 pc 4 phase run regs 1,1,0,0,0,0,0,0 data 010203 notes 0:idle\n\
                  stream b0 4/4 trigger 1 bytes 01020301 reader - writer -\n\
                  ok at 5\n\
                  stream b0 3/4 trigger 1 bytes 010203 reader - writer t0\n\
                  task t0 core 0 pc 3 phase again:1 regs 3,1,0,0,0,0,0,0 data 010203 \
                  notes 0:waiting\n",
    },
    FileRun {
        name: "a reader whose time is up takes what is there",
        app: concat!(
            r#"{"profile":1,"cores":2,"streams":[{"name":"b0","size":4,"trigger":2}],"#,
            r#""tasks":[{"name":"t0","priority":1,"code":["sread b0 4 1","end"]},"#,
            r#"{"name":"t1","priority":1,"code":["data 0a","swrite b0 0","end"]}]}"#,
        ),
        commands: "step 0\nstep 1\nstep 1\nshow stream b0\ntick\nshow task t0\nshow stream b0\n\
                   step 0\nshow task t0\nshow stream b0\nback 1\nshow stream b0\nback 3\n\
                   show stream b0\nshow task t0\n",
        replies: "ok at 1\nok at 2\nok at 3\n\
                  stream b0 1/4 trigger 2 bytes 0a reader t0 writer -\n\
                  ok at 4\n\
                  task t0 core 0 pc 0 phase again:1 regs 0,0,0,0,0,0,0,0 data - notes 0:waiting\n\
                  stream b0 1/4 trigger 2 bytes 0a reader t0 writer -\n\
                  ok at 5\n\
                  task t0 core 0 pc 1 phase run regs 1,0,0,0,0,0,0,0 data 0a notes 0:idle\n\
                  stream b0 0/4 trigger 2 bytes - reader - writer -\n\
                  ok at 4\n\
                  stream b0 1/4 trigger 2 bytes 0a reader t0 writer -\n\
                  ok at 1\n\
                  stream b0 0/4 trigger 2 bytes - reader t0 writer -\n\
                  task t0 core - pc 0 phase wait:sread:b0:1 regs 0,0,0,0,0,0,0,0 data - \
                  notes 0:waiting\n",
    },
    FileRun {
        name: "a reader and a writer wait for one another",
        app: concat!(
            r#"{"profile":1,"cores":2,"streams":[{"name":"b0","size":4,"trigger":4}],"#,
            r#""tasks":[{"name":"t0","priority":1,"code":["sread b0 4 max","end"]},"#,
            r#"{"name":"t1","priority":1,"code":["data 010203","swrite b0 0","data 0405","#,
            r#""swrite b0 max","end"]}]}"#,
        ),
        commands: "step 0\nstep 1\nstep 1\nstep 1\nstep 1\nshow stream b0\nshow cores\nstep 1\n\
                   back 1\nshow stream b0\nshow task t1\n",
        replies: "ok at 1\nok at 2\nok at 3\nok at 4\nok at 5\n\
                  stream b0 3/4 trigger 4 bytes 010203 reader t0 writer t1\n\
                  cores -,- ready - tick 0 turn 2\n\
                  no NoTask\n\
                  ok at 4\n\
                  stream b0 3/4 trigger 4 bytes 010203 reader t0 writer -\n\
                  task t1 core 1 pc 3 phase run regs 3,0,0,0,0,0,0,0 data 0405 notes 0:idle\n",
    },
    FileRun {
        name: "the value of entry 0 stays",
        app: concat!(
            r#"{"profile":1,"cores":2,"streams":[{"name":"b0","size":4,"trigger":1}],"#,
            r#""tasks":[{"name":"t0","priority":1,"code":["notify t0 0 5 set","#,
            r#""sread b0 4 max","end"]},"#,
            r#"{"name":"t1","priority":1,"code":["data 07","swrite b0 0","end"]}]}"#,
        ),
        commands: "step 0\nshow task t0\nstep 0\nshow task t0\nstep 1\nstep 1\nshow task t0\n\
                   step 0\nshow task t0\nback 3\nshow task t0\nback 1\nshow task t0\n\
                   show stream b0\n",
        replies: "ok at 1\n\
                  task t0 core 0 pc 1 phase run regs 1,0,0,0,0,0,0,0 data - notes 5:received\n\
                  ok at 2\n\
                  task t0 core - pc 1 phase wait:sread:b0:max regs 1,0,0,0,0,0,0,0 data - \
                  notes 5:waiting\n\
                  ok at 3\nok at 4\n\
                  task t0 core 0 pc 1 phase again:max regs 1,0,0,0,0,0,0,0 data - \
                  notes 5:received\n\
                  ok at 5\n\
                  task t0 core 0 pc 2 phase run regs 1,0,0,0,0,0,0,0 data 07 notes 5:idle\n\
                  ok at 2\n\
                  task t0 core - pc 1 phase wait:sread:b0:max regs 1,0,0,0,0,0,0,0 data - \
                  notes 5:waiting\n\
                  ok at 1\n\
                  task t0 core 0 pc 1 phase run regs 1,0,0,0,0,0,0,0 data - notes 5:received\n\
                  stream b0 0/4 trigger 1 bytes - reader - writer -\n",
    },
    FileRun {
        name: "a reset of a stream buffer wants its reader's place empty too",
        app: concat!(
            r#"{"profile":1,"cores":2,"streams":[{"name":"b0","size":4,"trigger":4}],"#,
            r#""tasks":[{"name":"t0","priority":1,"code":["sread b0 4 max","end"]},"#,
            r#"{"name":"t1","priority":1,"code":["data 01","swrite b0 0","sreset b0","end"]}]}"#,
        ),
        commands: "step 0\nstep 1\nstep 1\nshow task t1\nstep 1\nshow task t1\nshow stream b0\n\
                   back 2\nshow stream b0\n",
        replies: "ok at 1\nok at 2\nok at 3\n\
                  task t1 core 1 pc 2 phase run regs 1,0,0,0,0,0,0,0 data 01 notes 0:idle\n\
                  ok at 4\n\
                  task t1 core 1 pc 3 phase run regs 0,0,0,0,0,0,0,0 data 01 notes 0:idle\n\
                  stream b0 1/4 trigger 4 bytes 01 reader t0 writer -\n\
                  ok at 2\n\
                  stream b0 0/4 trigger 4 bytes - reader t0 writer -\n",
    },
];

// Who waits at a buffer, and what wakes a reader or a writer, is as written.
#[test]
fn rows(rt: HostRuntime) -> Result<(), Fail> {
    assert_rows(&rt, &ROWS)
}
