//! Bytes that are put in and taken out at their end, with a count of the bytes read.

ghost use Rattle.std.specs.Prelude.{◌≡◌, ◌+◌, ◌≤◌, ◌++◌, [], length, take, drop};
ghost use Rattle.std.specs.Prelude.{IsOk, OnOk, OnErr};
ghost use Rattle.std.specs.Borrow.{sem};
ghost use Rattle.rd_packed.specs.Reading.{CountsRead};

use crate::count::ReadCount;
use rd_bytes::no_memory::NoMemory;
use std::alloc::Global;
use std::marker::Model;

/// A list of bytes, and how many bytes of it were read, which contracts alone see. No byte is read
/// uncounted.
pub struct Tape {
    bytes: Vec<u8>,
    read: ReadCount,
}

impl Model for Tape {
    ghost use Rattle.std.specs.Prelude.{vec_capacity};
    ghost use Rattle.rd_packed.specs.TapeView.{TapeView};

    ghost Value = { TapeView };

    ghost view = { λ t. record {
      bytes = t.bytes.items;
      capacity = vec_capacity t.bytes;
      read = t.read.bytes;
    } };
}

impl Tape {
    /// No bytes, and none read. It takes no memory.
    pub fn new(alloc: Global) -> Tape
        ensures bytes { result.bytes ≡ [] }
        ensures read { result.read ≡ 0 }
    {
        Tape {
            bytes: Vec::new(alloc),
            read: ReadCount::new(),
        }
    }

    /// How many bytes there are. It takes no memory.
    pub fn len(&self) -> usize
        ensures { result ≡ length self.now.bytes }
    {
        self.bytes.len()
    }

    /// How many bytes of it were read, as a count of its own.
    pub fn count(&self) -> ReadCount
        ensures { result.bytes ≡ self.now.read }
    {
        ReadCount::after(&self.read, 0)
    }

    /// Makes room for so many bytes more. Where there is no memory for them, nothing has changed.
    pub fn reserve(&mut self, more: usize) -> Result<(), NoMemory>
        ensures ok { OnOk result (length self.new.bytes + more ≤ self.new.capacity) }
        ensures enough { length self.old.bytes + more ≤ self.old.capacity → IsOk result }
        ensures bytes { self.new.bytes ≡ self.old.bytes }
        ensures grows { self.old.capacity ≤ self.new.capacity }
        ensures read { self.new.read ≡ self.old.read }
    {
        self.bytes.reserve(more)?;
        Ok(())
    }

    /// Puts these bytes at the end. It takes no memory where there is room for them. Where there is
    /// no memory for them, nothing has changed.
    pub fn push(&mut self, bytes: &[u8]) -> Result<(), NoMemory>
        ensures ok { OnOk result (self.new.bytes ≡ self.old.bytes ++ bytes.now) }
        ensures enough { length self.old.bytes + length bytes.now ≤ self.old.capacity
            → IsOk result }
        ensures err { OnErr result (self.new.bytes ≡ self.old.bytes) }
        ensures grows { self.old.capacity ≤ self.new.capacity }
        ensures read { self.new.read ≡ self.old.read }
    {
        self.bytes.extend_from_slice(bytes)?;
        Ok(())
    }

    /// Keeps the first `n` bytes, and the memory of the others.
    pub fn cut(&mut self, n: usize)
        requires { n ≤ length self.old.bytes }
        ensures { self.new ≡ record self.old { bytes = take n self.old.bytes } }
    {
        self.bytes.truncate(n);
    }

    /// Keeps the bytes behind the first `n`, and the memory of the others. It takes no memory, and
    /// the bytes that it moves to the front do not count as read.
    pub fn drop_front(&mut self, n: usize)
        requires { n ≤ length self.old.bytes }
        ensures { self.new ≡ record self.old { bytes = drop n self.old.bytes } }
    {
        let rest = self.bytes.len() - n;
        self.bytes.copy_within(n.., 0);
        self.bytes.truncate(rest);
    }

    /// The `n` bytes from `from` on, which are counted as read. It takes no memory.
    pub fn read(&mut self, from: usize, n: usize) -> &[u8]
        requires { from + n ≤ length self.old.bytes }
        ensures* count { sem 𝓛 (CountsRead self.entry n) }
        ensures bytes { result.now ≡ take n (drop from self.old.bytes) }
    {
        self.read = ReadCount::after(&self.read, n);
        &self.bytes.as_slice()[from..from + n]
    }

    /// Ends it.
    pub fn retire(self) {
        let Tape { bytes: _, read: _ } = self;
    }
}
