//! The readers and writers of std as sources and sinks.

ghost use Rattle.std.specs.Prelude.{◌≡◌, ◌<◌, ◌≤◌, length, take, None, IfOk, OnErr};
ghost use Rattle.std.specs.Io.KnownBytes.{Appends, Consumes, IsAtEnd, Keeps};
ghost use Rattle.rd_ends.specs.Ends.{Says};

use crate::ends::{ByteSink, ByteSource, ReadFault, WriteFault};
use std::io::{ErrorKind, Read, Write};

/// A reader as a source, or a writer as a sink. A call that was interrupted is made again.
#[derive(Drop)]
pub struct Over<T> {
    /// The reader, or the writer.
    pub inner: T,
    /// How often it was read.
    pub reads: u64,
    /// How many reads have found the end.
    pub ends: u64,
    /// How many calls have failed.
    pub faults: u64,
}

impl<T> Over<T> {
    /// The reader, or the writer, before its first call.
    pub fn new(inner: T) -> Over<T>
        ensures inner { result.inner ≡ inner }
        ensures reads { result.reads ≡ 0 }
        ensures ends { result.ends ≡ 0 }
        ensures faults { result.faults ≡ 0 }
    {
        Over {
            inner,
            reads: 0,
            ends: 0,
            faults: 0,
        }
    }
}

impl<R: Read> ByteSource for Over<R> {
    ghost seen = { λ over. record {
      remaining = R.remaining over.inner;
      reads = over.reads;
      ends = over.ends;
      faults = over.faults;
    } };

    fn read(&mut self, room: &mut [u8]) -> Result<usize, ReadFault> {
        self.reads += 1;
        let count = read_once(&mut self.inner, room);
        match count {
            Ok(0) => self.ends += 1,
            Ok(_) => {}
            Err(_) => self.faults += 1,
        }
        count
    }
}

impl<W: Write> ByteSink for Over<W> {
    // (a writer doesn't tell which bytes it was given and hasn't taken)
    ghost seen = { λ over. record {
      contents = W.contents over.inner;
      given = None;
      faults = over.faults;
    } };

    fn write(&mut self, bytes: &[u8]) -> Result<(), WriteFault> {
        let written = write_out(&mut self.inner, bytes);
        if written.is_err() {
            self.faults += 1;
        }
        written
    }
}

// Reads until a read isn't interrupted.
fn read_once<R: Read>(reader: &mut R, room: &mut [u8]) -> Result<usize, ReadFault>
    requires { 0 < length room.old }
    ensures within { IfOk result (λ count. count ≤ length room.new) }
    ensures bytes { IfOk result (λ count.
        Consumes (R.remaining reader.old) (R.remaining reader.new) (take count room.new)) }
    ensures end { IfOk result (λ count. count ≡ 0 → IsAtEnd (R.remaining reader.new)) }
    ensures err { OnErr result (Keeps (R.remaining reader.old) (R.remaining reader.new)) }
{
    for _try in 0..u64::MAX {
        match reader.read(room) {
            Ok(count) => return Ok(count),
            Err(error) if error.kind() == ErrorKind::Interrupted => {}
            Err(_) => return Err(ReadFault),
        }
    }
    Err(ReadFault)
}

// Writes once, and answers how many bytes were taken, none only where the write was interrupted.
// One that takes none of them otherwise has failed.
fn write_some<W: Write>(writer: &mut W, bytes: &[u8]) -> Result<usize, WriteFault>
    ensures within { IfOk result (λ count. count ≤ length bytes.now) }
    ensures bytes { IfOk result (λ count.
        Appends (W.contents writer.old) (W.contents writer.new) (take count bytes.now)) }
    ensures err { OnErr result (Keeps (W.contents writer.old) (W.contents writer.new)) }
{
    match writer.write(bytes) {
        Ok(0) => Err(WriteFault),
        Ok(count) => Ok(count),
        Err(error) if error.kind() == ErrorKind::Interrupted => Ok(0),
        Err(_) => Err(WriteFault),
    }
}

// Writes all bytes.
fn write_all<W: Write>(writer: &mut W, bytes: &[u8]) -> Result<(), WriteFault>
    ensures { Says (W.contents writer.old) (W.contents writer.new) result bytes.now }
{
    let mut sent = 0;
    for _try in 0..u64::MAX {
        if sent == bytes.len() {
            return Ok(());
        }
        match write_some(writer, &bytes[sent..]) {
            Ok(count) => sent += count,
            Err(fault) => return Err(fault),
        }
    }
    Err(WriteFault)
}

// Writes all bytes, and has the writer keep none of them back.
fn write_out<W: Write>(writer: &mut W, bytes: &[u8]) -> Result<(), WriteFault>
    ensures { Says (W.contents writer.old) (W.contents writer.new) result bytes.now }
{
    write_all(writer, bytes)?;
    match writer.flush() {
        Ok(()) => Ok(()),
        Err(_) => Err(WriteFault),
    }
}
