//! Runs over a reader that is interrupted, and over a writer that holds bytes back.

use crate::asserts::assert_same;
use crate::memory::MemorySource;
use rd_main::run_main;
use std::alloc::AllocGlobal;
use std::io;
use std::io::{ErrorKind, Read, Write};
use std::net::{Net, TcpListener, TcpStream};
use std::process::Abort;
use std::rt::Files;
use std::sync::Wait;
use std::test::Fail;
use std::thread::Threads;
use std::time::Clock;

// Is interrupted before each read that gives bytes.
#[derive(Drop)]
struct Interrupting<'a> {
    source: MemorySource<'a>,
    is_next: bool,
}

impl Read for Interrupting<'_> {
    fn read(&mut self, buffer: &mut [u8]) -> io::Result<usize> {
        self.is_next = !self.is_next;
        if self.is_next {
            return Err(io::Error::from(ErrorKind::Interrupted));
        }
        self.source.read(buffer)
    }
}

// Holds bytes back until it is flushed.
#[derive(Drop)]
struct Holding {
    held: Vec<u8>,
    flushed: Vec<u8>,
}

impl Write for Holding {
    fn write(&mut self, buffer: &[u8]) -> io::Result<usize> {
        self.held.extend_from_slice(buffer)?;
        Ok(buffer.len())
    }

    fn flush(&mut self) -> io::Result<()> {
        self.flushed.extend_from_slice(self.held.as_slice())?;
        self.held.clear();
        Ok(())
    }
}

// Runs the program with no words, and fails unless it has written this by its end, and flushed it.
fn writes<H, R: Read>(rt: &H, reader: &mut R, expected: &str)
where
    H: Files + AllocGlobal + Abort + Wait + Sync + Threads + Clock,
    H: Net<Listener = TcpListener, Stream = TcpStream>,
{
    let words: Vec<String> = Vec::new(rt.alloc());
    let mut writer = Holding {
        held: Vec::new(rt.alloc()),
        flushed: Vec::new(rt.alloc()),
    };
    let mut errors = Vec::new(rt.alloc());
    let status = run_main(rt, words.as_slice(), reader, &mut writer, &mut errors);
    assert_same(rt, status, 0);
    assert!(rt; errors.is_empty());
    assert_same(rt, writer.flushed.as_slice(), expected.as_bytes());
}

// An interrupted read is tried again. No contract says so: it is only tested.
#[test]
fn interrupted_reads(rt: HostRuntime) -> Result<(), Fail> {
    let mut source = MemorySource::new(b"step 0\nstep 0\nback 1");
    source.chunk = 3;
    let mut reader = Interrupting {
        source,
        is_next: false,
    };
    writes(&rt, &mut reader, "ok at 1\nok at 2\nok at 1\n");
    Ok(())
}

// No answer is held back. No contract says so: it is only tested.
#[test]
fn answers_are_flushed(rt: HostRuntime) -> Result<(), Fail> {
    let mut whole = MemorySource::new(b"step 0\nshow queue q1\n");
    writes(&rt, &mut whole, "ok at 1\nno NoSuch\n");
    let mut unfinished = MemorySource::new(b"step 0");
    writes(&rt, &mut unfinished, "ok at 1\n");
    let mut long = MemorySource::new(&[b'x'; 1025]);
    writes(&rt, &mut long, "no LineTooLong\n");
    Ok(())
}
