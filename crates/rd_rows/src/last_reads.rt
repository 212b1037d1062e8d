//! The last read of a session: at the end of the input, and at a line that is too long.

use crate::asserts::assert_same;
use crate::memory::{MemorySource, MemoryTarget, Pieces};
use crate::rows::run;
use std::alloc::AllocGlobal;
use std::io::Write;
use std::net::{Net, TcpListener, TcpStream};
use std::process::Abort;
use std::rt::Files;
use std::sync::Wait;
use std::test::Fail;
use std::thread::Threads;
use std::time::Clock;

// What is asked.
const LINES: &[u8] = b"step 0\nstep 0\nstep 0\nstep 0\n";

// A line has seven bytes, of which the sixth makes it a command.
const LINE: usize = 7;

const COMMAND: usize = 6;

// What is answered where the input ends behind so many bytes: each whole line, and what stands
// behind the last of them, if there is something.
fn replies_before<H: AllocGlobal>(rt: &H, cut: usize) -> Result<Vec<u8>, Fail> {
    let rest = cut % LINE;
    let steps = if rest == COMMAND {
        (cut / LINE).saturating_add(1)
    } else {
        cut / LINE
    };
    let mut replies = Vec::new(rt.alloc());
    for at in 1..=steps {
        write!(replies, "ok at {at}\n")?;
    }
    if rest != 0 && rest != COMMAND {
        replies.extend_from_slice(b"no Syntax\n")?;
    }
    Ok(replies)
}

// A read that finds the end is the last, though others would bring bytes again.
fn assert_end<H>(rt: &H, cut: usize) -> Result<(), Fail>
where
    H: Files + AllocGlobal + Abort + Wait + Sync + Threads + Clock,
    H: Net<Listener = TcpListener, Stream = TcpStream>,
{
    let (front, behind) = LINES.split_at(cut.min(LINES.len()));
    let mut reader = Pieces {
        pieces: &[front, b"", behind, LINES],
        calls: 0,
    };
    let mut target = MemoryTarget::new(Vec::new(rt.alloc()));
    run(rt, &mut reader, &mut target);
    let expected = replies_before(rt, cut)?;
    assert_eq!(rt;
        target.bytes.as_slice(),
        expected.as_slice(),
        "cut at {cut}"
    );
    let reads = if cut == 0 { 1 } else { 2 };
    assert_same(rt, reader.calls, reads);
    Ok(())
}

// Behind the end of the input nothing more is read, wherever it is; what stands behind the last LF
// is a line then. Shows `session`: `heard` (`AtInputEnd`, `ends`, `reads`), `reads`.
#[test]
fn each_end_of_input(rt: HostRuntime) -> Result<(), Fail> {
    for cut in 0..LINES.len() {
        assert_end(&rt, cut)?;
    }
    Ok(())
}

// How many bytes there are up to where the second line is too long.
const LONG: usize = 1_032;

// With so many bytes a read, the read that makes the line too long is the last.
fn assert_long<H>(rt: &H, bytes: &[u8], chunk: usize)
where
    H: Files + AllocGlobal + Abort + Wait + Sync + Threads + Clock,
    H: Net<Listener = TcpListener, Stream = TcpStream>,
{
    let mut source = MemorySource::new(bytes);
    source.chunk = chunk;
    let mut target = MemoryTarget::new(Vec::new(rt.alloc()));
    run(rt, &mut source, &mut target);
    assert_same(
        rt,
        target.bytes.as_slice(),
        b"ok at 1\nno LineTooLong\n".as_slice(),
    );
    let reads = LONG.saturating_add(chunk.saturating_sub(1)) / chunk.max(1);
    assert_same(rt, source.calls, reads);
}

// Behind a line that is too long nothing more is read, however many bytes a read brings. Shows
// `session`: `heard` (`LongLine`, `are_pages`), `reads`.
#[test]
fn long_line_ends_the_reads(rt: HostRuntime) -> Result<(), Fail> {
    let mut bytes = Vec::from_slice(rt.alloc(), b"step 0\n")?;
    bytes.extend_from_slice(&[b'x'; 3_000])?;
    bytes.extend_from_slice(b"\nstep 0\n")?;
    for chunk in [
        1, 2, 7, 64, 1_023, 1_024, 1_025, 1_031, 1_032, 1_033, 2_000, 4_000,
    ] {
        assert_long(&rt, bytes.as_slice(), chunk);
    }
    Ok(())
}
