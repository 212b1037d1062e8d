//! Runs of the program whose reads or writes fail, at each of them in turn.

use crate::asserts::assert_same;
use crate::attending::whole_lines;
use crate::memory::{MemorySource, MemoryTarget};
use crate::rows::run;
use std::alloc::{AllocError, AllocGlobal, Global};
use std::io;
use std::io::Write;
use std::net::{Net, TcpListener, TcpStream};
use std::process::Abort;
use std::rt::Files;
use std::sync::Wait;
use std::test::Fail;
use std::thread::Threads;
use std::time::Clock;

// What is asked, seven bytes a read, and what is answered where nothing fails.
const LINES: &str = "step 0\nstep 0\nshow queue q0\nback 1\nstep 1\nstep 0\n";

const REPLIES: &str = "ok at 1\nok at 2\nqueue q0 1/2 items 41 recv - send - set -\nok at 1\n\
     no NoSuch\nok at 2\n";

const CHUNK: usize = 7;

// So many lines of the replies.
fn first_replies(alloc: Global, count: usize) -> Result<Vec<u8>, AllocError> {
    let mut lines = Vec::new(alloc);
    let mut left = count;
    for byte in REPLIES.as_bytes() {
        if left == 0 {
            break;
        }
        lines.push(*byte)?;
        if *byte == b'\n' {
            left -= 1;
        }
    }
    Ok(lines)
}

// The lines, of which so many reads can be made.
fn source_of(reads: usize) -> MemorySource<'static> {
    let mut source = MemorySource::new(LINES.as_bytes());
    source.chunk = CHUNK;
    source.reads = reads;
    source
}

// After so many reads the next one fails: the lines that were whole by then are answered, and no
// read is tried behind it.
fn assert_read_fault<H>(rt: &H, reads: usize) -> Result<(), Fail>
where
    H: Files + AllocGlobal + Abort + Wait + Sync + Threads + Clock,
    H: Net<Listener = TcpListener, Stream = TcpStream>,
{
    let mut target = MemoryTarget::new(Vec::new(rt.alloc()));
    let mut source = source_of(reads);
    run(rt, &mut source, &mut target);
    assert_same(rt, source.calls, reads.saturating_add(1));
    let read = LINES.len().min(reads.saturating_mul(CHUNK));
    let expected = first_replies(rt.alloc(), whole_lines(&LINES.as_bytes()[..read]))?;
    assert_eq!(rt;
        target.bytes.as_slice(),
        expected.as_slice(),
        "after {reads} reads"
    );
    Ok(())
}

// What a read that fails leaves, each of them in turn. Shows `session`: `heard` (`ReadFailed`,
// `faults`, `reads`), `reads`.
#[test]
fn each_read_fails(rt: HostRuntime) -> Result<(), Fail> {
    for reads in 0..8 {
        assert_read_fault(&rt, reads)?;
    }
    Ok(())
}

// After so many writes the next one fails: what went out is the beginning of the replies.
fn assert_write_fault<H>(rt: &H, writes: usize)
where
    H: Files + AllocGlobal + Abort + Wait + Sync + Threads + Clock,
    H: Net<Listener = TcpListener, Stream = TcpStream>,
{
    let mut target = MemoryTarget::new(Vec::new(rt.alloc()));
    target.writes_left = writes;
    run(rt, &mut source_of(usize::MAX), &mut target);
    assert!(rt;
        REPLIES.as_bytes().starts_with(target.bytes.as_slice()),
        "after {writes} writes"
    );
    assert_same(rt, whole_lines(target.bytes.as_slice()), writes.min(6));
}

// What a write that fails leaves, each of them in turn. Shows `session`: `heard` (`BreaksOff`:
// `out`).
#[test]
fn each_write_fails(rt: HostRuntime) {
    for writes in 0..8 {
        assert_write_fault(&rt, writes);
    }
}

// Takes one byte of the last write that it takes.
#[derive(Drop)]
struct Breaking {
    target: MemoryTarget,
}

impl Write for Breaking {
    fn write(&mut self, buffer: &[u8]) -> io::Result<usize> {
        if self.target.writes_left == 1 {
            let taken = buffer.len().min(1);
            return self.target.write(&buffer[..taken]);
        }
        self.target.write(buffer)
    }

    fn flush(&mut self) -> io::Result<()> {
        self.target.flush()
    }
}

// Of the last write one byte is taken, and the next one fails.
fn assert_broken_write<H>(rt: &H, writes: usize)
where
    H: Files + AllocGlobal + Abort + Wait + Sync + Threads + Clock,
    H: Net<Listener = TcpListener, Stream = TcpStream>,
{
    let mut target = MemoryTarget::new(Vec::new(rt.alloc()));
    target.writes_left = writes;
    let mut breaking = Breaking { target };
    run(rt, &mut source_of(usize::MAX), &mut breaking);
    let written = breaking.target.bytes.as_slice();
    assert!(rt;
        REPLIES.as_bytes().starts_with(written),
        "after {writes} writes"
    );
    assert_same(rt, whole_lines(written).saturating_add(1), writes);
}

// What a write that fails amid its bytes leaves, each of them in turn. Shows `session`: `heard`
// (`BreaksOff`: `out`).
#[test]
fn each_write_breaks_off(rt: HostRuntime) {
    for writes in 1..7 {
        assert_broken_write(&rt, writes);
    }
}
