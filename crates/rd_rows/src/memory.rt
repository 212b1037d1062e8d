//! A reader and a writer over memory, which can fail.

use std::io;
use std::io::{ErrorKind, Read, Write};

/// Gives `chunk` bytes a read. After `reads` reads it fails. It counts the calls, failed ones too.
#[derive(Drop)]
pub struct MemorySource<'a> {
    pub rest: &'a [u8],
    pub chunk: usize,
    pub reads: usize,
    pub calls: usize,
}

impl<'a> MemorySource<'a> {
    /// A source that gives all at once, and doesn't fail.
    pub fn new(bytes: &'a [u8]) -> MemorySource<'a> {
        MemorySource {
            rest: bytes,
            chunk: usize::MAX,
            reads: usize::MAX,
            calls: 0,
        }
    }
}

impl Read for MemorySource<'_> {
    fn read(&mut self, buffer: &mut [u8]) -> io::Result<usize> {
        self.calls = self.calls.saturating_add(1);
        let Some(reads) = self.reads.checked_sub(1) else {
            return Err(io::Error::from(ErrorKind::ConnectionReset));
        };
        self.reads = reads;
        let count = buffer.len().min(self.rest.len()).min(self.chunk);
        let (now, later) = self.rest.split_at(count);
        buffer[..count].copy_from_slice(now);
        self.rest = later;
        Ok(count)
    }
}

/// How many bytes the first line of these has, its LF among them.
pub fn first_len(bytes: &[u8]) -> usize {
    match bytes.iter().position(|byte| *byte == b'\n') {
        Some(at) => at.saturating_add(1),
        None => bytes.len(),
    }
}

/// Gives a line a read, or all at once, and counts the calls.
#[derive(Drop)]
pub struct LineByLine<'a> {
    pub rest: &'a [u8],
    pub calls: usize,
    pub is_whole: bool,
}

impl Read for LineByLine<'_> {
    fn read(&mut self, buffer: &mut [u8]) -> io::Result<usize> {
        self.calls = self.calls.saturating_add(1);
        let wanted = if self.is_whole {
            self.rest.len()
        } else {
            first_len(self.rest)
        };
        let count = buffer.len().min(wanted).min(self.rest.len());
        let (now, later) = self.rest.split_at(count);
        buffer[..count].copy_from_slice(now);
        self.rest = later;
        Ok(count)
    }
}

/// Gives one of these pieces a read, none of which is longer than the room, and counts the calls.
/// An empty one is an end of the input, and so is what comes behind the last.
#[derive(Drop)]
pub struct Pieces<'a> {
    pub pieces: &'a [&'a [u8]],
    pub calls: usize,
}

impl Read for Pieces<'_> {
    fn read(&mut self, buffer: &mut [u8]) -> io::Result<usize> {
        let piece = match self.pieces.get(self.calls) {
            Some(piece) => *piece,
            None => &[],
        };
        self.calls = self.calls.saturating_add(1);
        let count = buffer.len().min(piece.len());
        buffer[..count].copy_from_slice(&piece[..count]);
        Ok(count)
    }
}

/// Keeps what is written, and counts the writes. It fails when no writes are left.
#[derive(Drop)]
pub struct MemoryTarget {
    pub bytes: Vec<u8>,
    pub writes: usize,
    pub writes_left: usize,
}

impl MemoryTarget {
    /// A target that doesn't fail.
    pub fn new(bytes: Vec<u8>) -> MemoryTarget {
        MemoryTarget {
            bytes,
            writes: 0,
            writes_left: usize::MAX,
        }
    }

    /// What was written.
    pub fn into_bytes(self) -> Vec<u8> {
        let MemoryTarget {
            bytes,
            writes: _,
            writes_left: _,
        } = self;
        bytes
    }
}

impl Write for MemoryTarget {
    fn write(&mut self, buffer: &[u8]) -> io::Result<usize> {
        let Some(writes_left) = self.writes_left.checked_sub(1) else {
            return Err(io::Error::from(ErrorKind::BrokenPipe));
        };
        self.writes_left = writes_left;
        self.writes = self.writes.saturating_add(1);
        self.bytes.extend_from_slice(buffer)?;
        Ok(buffer.len())
    }

    fn flush(&mut self) -> io::Result<()> {
        Ok(())
    }
}

/// Has room for so many bytes, and keeps what is written. It counts the writes, of which each fails
/// that finds no room.
#[derive(Drop)]
pub struct Narrow {
    pub bytes: Vec<u8>,
    pub room: usize,
    pub writes: usize,
}

impl Narrow {
    /// Nothing was written yet.
    pub fn new(bytes: Vec<u8>, room: usize) -> Narrow {
        Narrow {
            bytes,
            room,
            writes: 0,
        }
    }
}

impl Write for Narrow {
    fn write(&mut self, buffer: &[u8]) -> io::Result<usize> {
        self.writes = self.writes.saturating_add(1);
        let count = buffer.len().min(self.room);
        if count == 0 {
            return Err(io::Error::from(ErrorKind::BrokenPipe));
        }
        self.bytes.extend_from_slice(&buffer[..count])?;
        self.room -= count;
        Ok(count)
    }

    fn flush(&mut self) -> io::Result<()> {
        Ok(())
    }
}
