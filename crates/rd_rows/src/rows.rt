//! Runs of the program: what it is asked, and what it answers.

use crate::asserts::assert_same;
use crate::memory::{MemorySource, MemoryTarget};
use rd_main::run_main;
use std::alloc::{AllocError, AllocGlobal, Global};
use std::io::{Read, Write};
use std::net::{Net, TcpListener, TcpStream};
use std::process::Abort;
use std::rt::Files;
use std::sync::Wait;
use std::test::Fail;
use std::thread::Threads;
use std::time::Clock;

const EMPTY_QUEUE: &str = "queue q0 0/2 items - recv - send - set -\n";

/// Runs the program with no words, and fails unless the status is 0 and nothing went to the errors.
pub fn run<H, R: Read, W: Write>(rt: &H, reader: &mut R, writer: &mut W)
where
    H: Files + AllocGlobal + Abort + Wait + Sync + Threads + Clock,
    H: Net<Listener = TcpListener, Stream = TcpStream>,
{
    let words: Vec<String> = Vec::new(rt.alloc());
    let mut errors = Vec::new(rt.alloc());
    let status = run_main(rt, words.as_slice(), reader, writer, &mut errors);
    assert_same(rt, status, 0);
    assert!(rt; errors.is_empty());
}

/// What the program answers to what a reader gives.
pub fn answers<H, R: Read>(rt: &H, reader: &mut R) -> Vec<u8>
where
    H: Files + AllocGlobal + Abort + Wait + Sync + Threads + Clock,
    H: Net<Listener = TcpListener, Stream = TcpStream>,
{
    let mut target = MemoryTarget::new(Vec::new(rt.alloc()));
    run(rt, reader, &mut target);
    target.into_bytes()
}

// So many `x`, and then these bytes.
fn padded_line(alloc: Global, len: usize, end: &[u8]) -> Result<Vec<u8>, AllocError> {
    let mut bytes = vec![in alloc; b'x'; len]?;
    bytes.extend_from_slice(end)?;
    Ok(bytes)
}

/// Lines to the built-in application, and what is answered.
#[derive(Clone, Copy)]
pub struct ScriptedSession {
    pub name: &'static str,
    pub lines: &'static str,
    pub replies: &'static str,
}

/// Moves back to the start, and one too many.
pub const UNDO_TO_BOOT: ScriptedSession = ScriptedSession {
    name: "undo_to_boot",
    lines: "step 0\nstep 0\nstep 0\nstep 0\nshow queue q0\nback 4\nshow queue q0\nback 1\n",
    replies: "ok at 1\nok at 2\nok at 3\nok at 4\n\
         queue q0 2/2 items 41,41 recv - send - set -\n\
         ok at 0\n\
         queue q0 0/2 items - recv - send - set -\n\
         no TooFar 0\n",
};

const SESSIONS: [ScriptedSession; 12] = [
    ScriptedSession {
        name: "fresh_queue",
        lines: "show queue q0\n",
        replies: EMPTY_QUEUE,
    },
    ScriptedSession {
        name: "queue_fills",
        lines: "step 0\nstep 0\nstep 0\nshow task t0\nstep 0\nshow task t0\nshow queue q0\n",
        replies: "ok at 1\nok at 2\nok at 3\n\
             task t0 core 0 pc 3 phase run regs 1,0,0,0,0,0,0,0 data 41 notes 0:idle\n\
             ok at 4\n\
             task t0 core 0 pc 4 phase run regs 0,0,0,0,0,0,0,0 data 41 notes 0:idle\n\
             queue q0 2/2 items 41,41 recv - send - set -\n",
    },
    UNDO_TO_BOOT,
    ScriptedSession {
        name: "an idle core",
        lines: "step 0\nstep 0\nstep 0\nstep 0\nstep 0\nstep 0\nshow task t0\nback 5\nback 1\n",
        replies: "ok at 1\nok at 2\nok at 3\nok at 4\nok at 5\nno NoTask\n\
             task t0 core - pc 4 phase ended regs 0,0,0,0,0,0,0,0 data 41 notes 0:idle\n\
             ok at 0\nno TooFar 0\n",
    },
    ScriptedSession {
        name: "a refusal changes nothing",
        lines: "step 0\nback 2\nstep 1\nshow task t0\nback 1\nshow task t0\n",
        replies: "ok at 1\nno TooFar 1\nno NoSuch\n\
             task t0 core 0 pc 1 phase run regs 0,0,0,0,0,0,0,0 data 41 notes 0:idle\n\
             ok at 0\n\
             task t0 core 0 pc 0 phase run regs 0,0,0,0,0,0,0,0 data - notes 0:idle\n",
    },
    ScriptedSession {
        name: "unknown names",
        lines: "step 4294967295\nshow queue q1\nshow queue t0\nshow task q0\nshow task r0\n",
        replies: "no NoSuch\nno NoSuch\nno NoSuch\nno NoSuch\nno NoSuch\n",
    },
    ScriptedSession {
        name: "numbers at their ends",
        lines: "back 1000000\nback 1000001\nback 0\nstep 4294967296\nstep 00000000000\n\
             step 0000000000\n",
        replies: "no TooFar 0\nno Syntax\nno Syntax\nno Syntax\nno Syntax\nok at 1\n",
    },
    ScriptedSession {
        name: "no commands",
        lines: "step\nstep 0 0\nSTEP 0\nstep -1\nstep\t0\nback\nshow\nshow queue\nshow queue Q0\n\
             show queue q0 q0\nshow core q0\nshow task 0t\n",
        replies: "no Syntax\nno Syntax\nno Syntax\nno Syntax\nno Syntax\nno Syntax\nno Syntax\n\
             no Syntax\nno Syntax\nno Syntax\nno Syntax\nno Syntax\n",
    },
    ScriptedSession {
        name: "spaces",
        lines: "  step   0  \n \n show  queue  q0\n",
        replies: "ok at 1\nno Syntax\nqueue q0 0/2 items - recv - send - set -\n",
    },
    ScriptedSession {
        name: "ends of lines",
        lines: "step 0\r\nstep 0\r\r\n\n\r\nstep 0",
        replies: "ok at 1\nno Syntax\nno Syntax\nno Syntax\nok at 2\n",
    },
    ScriptedSession {
        name: "a CR at the very end",
        lines: "step 0\r",
        replies: "no Syntax\n",
    },
    ScriptedSession {
        name: "no lines",
        lines: "",
        replies: "",
    },
];

// In one piece, and byte by byte.
fn assert_session<H>(rt: &H, session: ScriptedSession)
where
    H: Files + AllocGlobal + Abort + Wait + Sync + Threads + Clock,
    H: Net<Listener = TcpListener, Stream = TcpStream>,
{
    let ScriptedSession {
        name,
        lines,
        replies,
    } = session;
    let whole = answers(rt, &mut MemorySource::new(lines.as_bytes()));
    assert_eq!(rt; whole.as_slice(), replies.as_bytes(), "in {name}");
    let mut slow = MemorySource::new(lines.as_bytes());
    slow.chunk = 1;
    let single = answers(rt, &mut slow);
    assert_eq!(rt;
        single.as_slice(),
        replies.as_bytes(),
        "in {name}, byte by byte"
    );
}

// All lines that were read are answered, in their order, in one piece and byte by byte.
#[test]
fn rows(rt: HostRuntime) {
    for session in &SESSIONS {
        assert_session(&rt, *session);
    }
}

// A line of so many `x` with this end, and what is answered to it.
#[derive(Clone, Copy)]
struct LongLine {
    len: usize,
    end: &'static str,
    replies: &'static str,
}

const LONG_LINES: [LongLine; 7] = [
    LongLine {
        len: 1024,
        end: "\nstep 0\n",
        replies: "no Syntax\nok at 1\n",
    },
    LongLine {
        len: 1024,
        end: "",
        replies: "no Syntax\n",
    },
    LongLine {
        len: 1023,
        end: "\r\nstep 0\n",
        replies: "no Syntax\nok at 1\n",
    },
    LongLine {
        len: 1025,
        end: "\nstep 0\n",
        replies: "no LineTooLong\n",
    },
    LongLine {
        len: 1025,
        end: "",
        replies: "no LineTooLong\n",
    },
    LongLine {
        len: 1024,
        end: "\r\nstep 0\n",
        replies: "no LineTooLong\n",
    },
    LongLine {
        len: 100_000,
        end: "\nstep 0\n",
        replies: "no LineTooLong\n",
    },
];

// With `chunk` bytes a read.
fn assert_long_line<H>(rt: &H, line: LongLine, chunk: usize) -> Result<(), AllocError>
where
    H: Files + AllocGlobal + Abort + Wait + Sync + Threads + Clock,
    H: Net<Listener = TcpListener, Stream = TcpStream>,
{
    let LongLine { len, end, replies } = line;
    let bytes = padded_line(rt.alloc(), len, end.as_bytes())?;
    let mut source = MemorySource::new(bytes.as_slice());
    source.chunk = chunk;
    let written = answers(rt, &mut source);
    assert_eq!(rt;
        written.as_slice(),
        replies.as_bytes(),
        "at {len}, {chunk} a read"
    );
    Ok(())
}

// A line of more than 1,024 bytes, its CR among them, is answered once, and is the last. Shows
// `session`: `heard` (`Talks`, `LongLine`).
#[test]
fn long_lines(rt: HostRuntime) -> Result<(), Fail> {
    for line in &LONG_LINES {
        for chunk in [1, 1000, usize::MAX] {
            assert_long_line(&rt, *line, chunk)?;
        }
    }
    Ok(())
}

// More lines than one buffer holds.
#[test]
fn many_lines(rt: HostRuntime) -> Result<(), Fail> {
    let alloc = rt.alloc();
    let mut lines = Vec::new(alloc);
    let mut expected = Vec::new(alloc);
    for _ in 0..10_000 {
        lines.extend_from_slice(b"step 0\r\nback 1\nshow queue q0\n")?;
        expected.extend_from_slice(b"ok at 1\nok at 0\n")?;
        expected.extend_from_slice(EMPTY_QUEUE.as_bytes())?;
    }
    for chunk in [7, 4096, usize::MAX] {
        let mut source = MemorySource::new(lines.as_slice());
        source.chunk = chunk;
        let written = answers(&rt, &mut source);
        assert!(rt; written.as_slice() == expected.as_slice(), "{chunk} a read");
    }
    Ok(())
}

// Answers are written with one write for what one read gave.
#[test]
fn one_write_for_a_read(rt: HostRuntime) -> Result<(), Fail> {
    let alloc = rt.alloc();
    let mut source = MemorySource::new(b"step 0\nstep 0\nback 1\nshow queue q0\n");
    let mut target = MemoryTarget::new(Vec::new(alloc));
    run(&rt, &mut source, &mut target);
    assert_same(&rt, target.writes, 1);
    Ok(())
}

// What was read as whole lines before a fault is answered. The beginning of a line isn't. Shows
// `session`: `heard` (`ReadFailed`, `BreaksOff`).
#[test]
fn faults(rt: HostRuntime) -> Result<(), Fail> {
    let alloc = rt.alloc();
    let mut source = MemorySource::new(b"step 0\nstep 0\nstep 0\n");
    source.chunk = 10;
    source.reads = 1;
    let written = answers(&rt, &mut source);
    assert_same(&rt, written.as_slice(), b"ok at 1\n".as_slice());

    let mut source = MemorySource::new(b"step 0\nshow queue q0\nstep 0\n");
    source.chunk = 7;
    let mut target = MemoryTarget::new(Vec::new(alloc));
    target.writes_left = 1;
    run(&rt, &mut source, &mut target);
    assert_same(&rt, target.bytes.as_slice(), b"ok at 1\n".as_slice());
    assert_same(&rt, target.writes, 1);
    Ok(())
}
