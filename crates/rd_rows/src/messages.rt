//! Runs of applications with message buffers: which messages are written and read, who waits and
//! who is told, and the way back.

use crate::programs::{assert_ending, run_file};
use crate::tasks::{FileRun, assert_rows};
use std::alloc::{AllocError, Global};
use std::test::Fail;

// The bytes 0 to 127, as digits.
const DIGITS: &str = concat!(
    "000102030405060708090a0b0c0d0e0f101112131415161718191a1b1c1d1e1f",
    "202122232425262728292a2b2c2d2e2f303132333435363738393a3b3c3d3e3f",
    "404142434445464748494a4b4c4d4e4f505152535455565758595a5b5c5d5e5f",
    "606162636465666768696a6b6c6d6e6f707172737475767778797a7b7c7d7e7f",
);

const ROWS: [FileRun; 9] = [
    FileRun {
        name: "a writer waits until its message fits",
        app: concat!(
            r#"{"profile":1,"cores":2,"messages":[{"name":"m0","size":12}],"#,
            r#""tasks":[{"name":"t0","priority":1,"code":["data 01","mwrite m0 0","#,
            r#""mwrite m0 0","data 0203040506","mwrite m0 max","end"]},"#,
            r#"{"name":"t1","priority":1,"code":["mread m0 1 0","mread m0 1 0","end"]}]}"#,
        ),
        commands: "step 0\nstep 0\nstep 0\nstep 0\nstep 0\nshow task t0\nshow message m0\nstep 1\n\
                   show message m0\nshow task t0\nstep 0\nshow message m0\nstep 1\n\
                   show message m0\nstep 0\nshow message m0\nshow task t0\nback 2\n\
                   show message m0\nback 2\nshow message m0\n",
        replies: "ok at 1\nok at 2\nok at 3\nok at 4\nok at 5\n\
                  task t0 core - pc 4 phase wait:mwrite:m0:max regs 1,0,0,0,0,0,0,0 data \
                  0203040506 notes 0:waiting\n\
                  message m0 10/12 messages 01,01 reader - writer t0\n\
                  ok at 6\n\
                  message m0 5/12 messages 01 reader - writer -\n\
                  task t0 core 0 pc 4 phase again:max regs 1,0,0,0,0,0,0,0 data 0203040506 \
                  notes 0:received\n\
                  ok at 7\n\
                  message m0 5/12 messages 01 reader - writer t0\n\
                  ok at 8\n\
                  message m0 0/12 messages - reader - writer -\n\
                  ok at 9\n\
                  message m0 9/12 messages 0203040506 reader - writer -\n\
                  task t0 core 0 pc 5 phase run regs 5,0,0,0,0,0,0,0 data 0203040506 notes 0:idle\n\
                  ok at 7\n\
                  message m0 5/12 messages 01 reader - writer t0\n\
                  ok at 5\n\
                  message m0 10/12 messages 01,01 reader - writer t0\n",
    },
    FileRun {
        name: "a reader waits for a message",
        app: concat!(
            r#"{"profile":1,"cores":1,"messages":[{"name":"m0","size":20}],"#,
            r#""tasks":[{"name":"t0","priority":2,"code":["mread m0 4 max","end"]},"#,
            r#"{"name":"t1","priority":1,"code":["data 0a0b","mwrite m0 0","end"]}]}"#,
        ),
        commands: "step 0\nshow task t0\nshow message m0\nstep 0\nstep 0\nshow message m0\n\
                   show cores\nstep 0\nshow task t0\nshow message m0\nback 2\nshow message m0\n\
                   show task t0\n",
        replies: "ok at 1\n\
                  task t0 core - pc 0 phase wait:mread:m0:max regs 0,0,0,0,0,0,0,0 data - \
                  notes 0:waiting\n\
                  message m0 0/20 messages - reader t0 writer -\n\
                  ok at 2\nok at 3\n\
                  message m0 6/20 messages 0a0b reader - writer -\n\
                  cores t0 ready t1 tick 0 turn 1\n\
                  ok at 4\n\
                  task t0 core 0 pc 1 phase run regs 2,0,0,0,0,0,0,0 data 0a0b notes 0:idle\n\
                  message m0 0/20 messages - reader - writer -\n\
                  ok at 2\n\
                  message m0 0/20 messages - reader t0 writer -\n\
                  task t0 core - pc 0 phase wait:mread:m0:max regs 0,0,0,0,0,0,0,0 data - \
                  notes 0:waiting\n",
    },
    FileRun {
        name: "messages come out whole and in their order",
        app: concat!(
            r#"{"profile":1,"cores":1,"messages":[{"name":"m0","size":20}],"#,
            r#""tasks":[{"name":"t0","priority":1,"code":["mnext m0","data 0a0b","#,
            r#""mwrite m0 0","data 0c","mwrite m0 0","mnext m0","mread m0 9 0","mnext m0","#,
            r#""mspaces m0","end"]}]}"#,
        ),
        commands: "step 0\nshow task t0\nstep 0\nstep 0\nstep 0\nstep 0\nshow message m0\nstep 0\n\
                   show task t0\nstep 0\nshow task t0\nshow message m0\nstep 0\nshow task t0\n\
                   step 0\nshow task t0\nback 3\nshow message m0\nshow task t0\nback 2\n\
                   show message m0\n",
        replies: "ok at 1\n\
                  task t0 core 0 pc 1 phase run regs 0,0,0,0,0,0,0,0 data - notes 0:idle\n\
                  ok at 2\nok at 3\nok at 4\nok at 5\n\
                  message m0 11/20 messages 0a0b,0c reader - writer -\n\
                  ok at 6\n\
                  task t0 core 0 pc 6 phase run regs 2,0,0,0,0,0,0,0 data 0c notes 0:idle\n\
                  ok at 7\n\
                  task t0 core 0 pc 7 phase run regs 2,0,0,0,0,0,0,0 data 0a0b notes 0:idle\n\
                  message m0 5/20 messages 0c reader - writer -\n\
                  ok at 8\n\
                  task t0 core 0 pc 8 phase run regs 1,0,0,0,0,0,0,0 data 0a0b notes 0:idle\n\
                  ok at 9\n\
                  task t0 core 0 pc 9 phase run regs 15,0,0,0,0,0,0,0 data 0a0b notes 0:idle\n\
                  ok at 6\n\
                  message m0 11/20 messages 0a0b,0c reader - writer -\n\
                  task t0 core 0 pc 6 phase run regs 2,0,0,0,0,0,0,0 data 0c notes 0:idle\n\
                  ok at 4\n\
                  message m0 6/20 messages 0a0b reader - writer -\n",
    },
    FileRun {
        name: "a reset wants both places empty",
        app: concat!(
            r#"{"profile":1,"cores":2,"messages":[{"name":"m0","size":8}],"#,
            r#""tasks":[{"name":"t0","priority":1,"code":["mread m0 4 1","end"]},"#,
            r#"{"name":"t1","priority":1,"code":["set r0 9","mreset m0","mreset m0","#,
            r#""data 07","mwrite m0 0","mreset m0","end"]}]}"#,
        ),
        commands: "step 0\nshow message m0\nstep 1\nstep 1\nshow task t1\ntick\nshow task t0\n\
                   show message m0\nstep 1\nshow task t1\nstep 0\nshow task t0\nshow message m0\n\
                   step 1\nstep 1\nshow message m0\nstep 1\nshow task t1\nshow message m0\nback 1\n\
                   show message m0\nback 3\nshow message m0\n",
        replies: "ok at 1\n\
                  message m0 0/8 messages - reader t0 writer -\n\
                  ok at 2\nok at 3\n\
                  task t1 core 1 pc 2 phase run regs 0,0,0,0,0,0,0,0 data - notes 0:idle\n\
                  ok at 4\n\
                  task t0 core 0 pc 0 phase again:1 regs 0,0,0,0,0,0,0,0 data - notes 0:waiting\n\
                  message m0 0/8 messages - reader t0 writer -\n\
                  ok at 5\n\
                  task t1 core 1 pc 3 phase run regs 0,0,0,0,0,0,0,0 data - notes 0:idle\n\
                  ok at 6\n\
                  task t0 core 0 pc 1 phase run regs 0,0,0,0,0,0,0,0 data - notes 0:idle\n\
                  message m0 0/8 messages - reader - writer -\n\
                  ok at 7\nok at 8\n\
                  message m0 5/8 messages 07 reader - writer -\n\
                  ok at 9\n\
                  task t1 core 1 pc 6 phase run regs 1,0,0,0,0,0,0,0 data 07 notes 0:idle\n\
                  message m0 0/8 messages - reader - writer -\n\
                  ok at 8\n\
                  message m0 5/8 messages 07 reader - writer -\n\
                  ok at 5\n\
                  message m0 0/8 messages - reader t0 writer -\n",
    },
    FileRun {
        name: "two readers of messages",
        app: concat!(
            r#"{"profile":1,"cores":2,"messages":[{"name":"m0","size":8}],"#,
            r#""tasks":[{"name":"t0","priority":1,"code":["mread m0 4 max","end"]},"#,
            r#"{"name":"t1","priority":1,"code":["mread m0 4 max","end"]}]}"#,
        ),
        commands: "step 0\nstep 1\nshow task t1\nshow message m0\nback 1\nshow task t1\n",
        replies: "ok at 1\nok at 2\n\
                  task t1 core - pc 0 phase failed:TwoReaders regs 0,0,0,0,0,0,0,0 data - \
                  notes 0:idle\n\
                  message m0 0/8 messages - reader t0 writer -\n\
                  ok at 1\n\
                  task t1 core 1 pc 0 phase run regs 0,0,0,0,0,0,0,0 data - notes 0:idle\n",
    },
    FileRun {
        name: "two writers of messages",
        app: concat!(
            r#"{"profile":1,"cores":2,"messages":[{"name":"m0","size":5}],"#,
            r#""tasks":[{"name":"t0","priority":1,"code":["data 01","mwrite m0 0","#,
            r#""mwrite m0 max","end"]},"#,
            r#"{"name":"t1","priority":1,"code":["data 02","mwrite m0 max","end"]}]}"#,
        ),
        commands: "step 0\nstep 0\nstep 0\nshow message m0\nstep 1\nstep 1\nshow task t1\n\
                   show message m0\nback 1\nshow task t1\n",
        replies: "ok at 1\nok at 2\nok at 3\n\
                  message m0 5/5 messages 01 reader - writer t0\n\
                  ok at 4\nok at 5\n\
                  task t1 core - pc 1 phase failed:TwoWriters regs 0,0,0,0,0,0,0,0 data 02 \
                  notes 0:idle\n\
                  message m0 5/5 messages 01 reader - writer t0\n\
                  ok at 4\n\
                  task t1 core 1 pc 1 phase run regs 0,0,0,0,0,0,0,0 data 02 notes 0:idle\n",
    },
    FileRun {
        name: "a message is written whole or not at all",
        app: concat!(
            r#"{"profile":1,"cores":1,"messages":[{"name":"m0","size":8}],"#,
            r#""tasks":[{"name":"t0","priority":1,"code":["data 01","mwrite m0 0","#,
            r#""mwrite m0 0","mwrite m0 1","end"]}]}"#,
        ),
        commands: "step 0\nstep 0\nshow task t0\nstep 0\nshow task t0\nstep 0\nshow task t0\n\
                   show message m0\ntick\nshow task t0\nshow message m0\nstep 0\nshow task t0\n\
                   show message m0\nback 1\nshow message m0\nback 4\nshow message m0\n",
        replies: "ok at 1\nok at 2\n\
                  task t0 core 0 pc 2 phase run regs 1,0,0,0,0,0,0,0 data 01 notes 0:idle\n\
                  ok at 3\n\
                  task t0 core 0 pc 3 phase run regs 0,0,0,0,0,0,0,0 data 01 notes 0:idle\n\
                  ok at 4\n\
                  task t0 core - pc 3 phase wait:mwrite:m0:1 regs 0,0,0,0,0,0,0,0 data 01 \
                  notes 0:waiting\n\
                  message m0 5/8 messages 01 reader - writer t0\n\
                  ok at 5\n\
                  task t0 core 0 pc 3 phase again:1 regs 0,0,0,0,0,0,0,0 data 01 notes 0:waiting\n\
                  message m0 5/8 messages 01 reader - writer t0\n\
                  ok at 6\n\
                  task t0 core 0 pc 4 phase run regs 0,0,0,0,0,0,0,0 data 01 notes 0:idle\n\
                  message m0 5/8 messages 01 reader - writer -\n\
                  ok at 5\n\
                  message m0 5/8 messages 01 reader - writer t0\n\
                  ok at 1\n\
                  message m0 0/8 messages - reader - writer -\n",
    },
    FileRun {
        name: "a foreign notification ends a read of messages",
        app: concat!(
            r#"{"profile":1,"cores":2,"messages":[{"name":"m0","size":10}],"#,
            r#""tasks":[{"name":"t0","priority":1,"code":["mread m0 4 max","end"]},"#,
            r#"{"name":"t1","priority":1,"code":["notify t0 0 0 none","mreset m0","end"]}]}"#,
        ),
        commands: "step 0\nstep 1\nshow task t0\nshow message m0\nshow task t1\nstep 1\n\
                   show task t1\nstep 0\nshow task t0\nshow message m0\nback 3\nshow task t0\n\
                   show message m0\n",
        replies: "ok at 1\nok at 2\n\
                  task t0 core 0 pc 0 phase again:max regs 0,0,0,0,0,0,0,0 data - \
                  notes 0:received\n\
                  message m0 0/10 messages - reader t0 writer -\n\
                  task t1 core 1 pc 1 phase run regs 1,0,0,0,0,0,0,0 data - notes 0:idle\n\
                  ok at 3\n\
                  task t1 core 1 pc 2 phase run regs 0,0,0,0,0,0,0,0 data - notes 0:idle\n\
                  ok at 4\n\
                  task t0 core 0 pc 1 phase run regs 0,0,0,0,0,0,0,0 data - notes 0:idle\n\
                  message m0 0/10 messages - reader - writer -\n\
                  ok at 1\n\
                  task t0 core - pc 0 phase wait:mread:m0:max regs 0,0,0,0,0,0,0,0 data - \
                  notes 0:waiting\n\
                  message m0 0/10 messages - reader t0 writer -\n",
    },
    FileRun {
        name: "a read of no message leaves the data",
        app: concat!(
            r#"{"profile":1,"cores":1,"messages":[{"name":"m0","size":8}],"#,
            r#""tasks":[{"name":"t0","priority":1,"code":["data 07","set r0 9","mread m0 4 0","#,
            r#""mread m0 4 1","end"]}]}"#,
        ),
        commands: "step 0\nstep 0\nstep 0\nshow task t0\nstep 0\nshow task t0\ntick\nstep 0\n\
                   show task t0\nshow message m0\nback 1\nshow task t0\nshow message m0\n",
        replies: "ok at 1\nok at 2\nok at 3\n\
                  task t0 core 0 pc 3 phase run regs 0,0,0,0,0,0,0,0 data 07 notes 0:idle\n\
                  ok at 4\n\
                  task t0 core - pc 3 phase wait:mread:m0:1 regs 0,0,0,0,0,0,0,0 data 07 \
                  notes 0:waiting\n\
                  ok at 5\nok at 6\n\
                  task t0 core 0 pc 4 phase run regs 0,0,0,0,0,0,0,0 data 07 notes 0:idle\n\
                  message m0 0/8 messages - reader - writer -\n\
                  ok at 5\n\
                  task t0 core 0 pc 3 phase again:1 regs 0,0,0,0,0,0,0,0 data 07 notes 0:waiting\n\
                  message m0 0/8 messages - reader t0 writer -\n",
    },
];

// The pieces, one after the other.
fn joined(alloc: Global, pieces: &[&str]) -> Result<String, AllocError> {
    let mut text = String::new(alloc);
    for piece in pieces {
        let piece: &str = *piece;
        text.push_str(piece)?;
    }
    Ok(text)
}

// Messages come out whole and in the order in which they went in.
#[test]
fn rows(rt: HostRuntime) -> Result<(), Fail> {
    assert_rows(&rt, &ROWS)
}

// Both kinds of view show as many bytes as there are, also where they lie in two pieces.
#[test]
fn long_views(rt: HostRuntime) -> Result<(), Fail> {
    let app = joined(
        rt.alloc(),
        &[
            r#"{"profile":1,"cores":1,"streams":[{"name":"b0","size":400,"trigger":1}],"#,
            r#""messages":[{"name":"m0","size":600}],"#,
            r#""tasks":[{"name":"t0","priority":1,"code":["data "#,
            DIGITS,
            r#"","swrite b0 0","swrite b0 0","swrite b0 0","sread b0 256 0","swrite b0 0","#,
            r#""mwrite m0 0","mwrite m0 0","end"]}]}"#,
        ],
    )?;
    let commands = "step 0\nstep 0\nstep 0\nstep 0\nshow stream b0\nstep 0\nstep 0\n\
                    show stream b0\nstep 0\nstep 0\nshow message m0\n";
    let thrice = joined(rt.alloc(), &[DIGITS, DIGITS, DIGITS])?;
    let stream = joined(
        rt.alloc(),
        &[
            "stream b0 384/400 trigger 1 bytes ",
            thrice.as_str(),
            " reader - writer -\n",
        ],
    )?;
    let message = joined(rt.alloc(), &[DIGITS, DIGITS])?;
    let replies = joined(
        rt.alloc(),
        &[
            "ok at 1\nok at 2\nok at 3\nok at 4\n",
            stream.as_str(),
            "ok at 5\nok at 6\n",
            stream.as_str(),
            "ok at 7\nok at 8\nmessage m0 520/600 messages ",
            message.as_str(),
            ",",
            message.as_str(),
            " reader - writer -\n",
        ],
    )?;
    let ending = run_file(&rt, "long.json", app.as_bytes(), &[], commands)?;
    assert_ending(&rt, &ending, 0, replies.as_str(), "");
    Ok(())
}
