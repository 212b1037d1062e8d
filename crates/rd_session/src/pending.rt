//! Answers that are yet to be written.

ghost use Rattle.std.specs.Prelude.{◌≡◌, ◌+◌, ◌++◌, ◌^◌, ◌<◌, ◌≤◌, ◌↔◌, [], length};
ghost use Rattle.std.specs.Prelude.{IfOk, IsTrue, OnOk};
ghost use Rattle.std.specs.Io.KnownBytes.{Appends};
ghost use Rattle.rd_ends.specs.Ends.{Says, faults_after};
ghost use Rattle.rd_reply.specs.Replies.{line_of, reply_text};

use rd_ends::ends::{ByteSink, WriteFault};
use rd_reply::reply::{MAX_REPLY, Reply as Short, append_reply};
use std::alloc::{AllocError, Global};
use std::marker::Model;

// For how many bytes there is room.
const ROOM: usize = 65_536;

/// Answers that are yet to be written, with room for 65,536 bytes at the least. It counts the lines
/// that were begun, and those whose answers are out. After an `Err` of the sink the answers are of
/// no use.
#[derive(Drop)]
pub(crate) struct Pending {
    bytes: Vec<u8>,
    begun: u64,
    out: u64,
}

impl Model for Pending {
    ghost use Rattle.std.specs.Prelude.{◌≤◌, vec_capacity};
    ghost use Rattle.rd_session.specs.BuffersView.{PendingView};

    ghost Value = { PendingView };

    ghost view = { λ p. record {
      bytes = p.bytes.items;
      capacity = vec_capacity p.bytes;
      begun = p.begun;
      out = p.out;
    } };

    ghost invariant = { λ p. 65536 ≤ vec_capacity p.bytes };
}

impl Pending {
    /// No answers, and no lines. An `Err` says that there is no memory for them.
    pub(crate) fn new(alloc: Global) -> Result<Pending, AllocError>
        ensures { IfOk result (λ pending. pending.bytes ≡ []) }
    {
        Ok(Pending {
            bytes: Vec::with_capacity(alloc, ROOM)?,
            begun: 0,
            out: 0,
        })
    }

    /// Begins anew: no answers, and no lines.
    pub(crate) fn clear(&mut self)
        ensures { self.new ≡ record self.old { bytes = []; begun = 0; out = 0 } }
    {
        self.bytes.clear();
        self.begun = 0;
        self.out = 0;
    }

    /// How many lines were begun.
    pub(crate) fn begun(&self) -> u64
        ensures { result ≡ self.now.begun }
    {
        self.begun
    }

    /// The answers of how many lines are out.
    pub(crate) fn out(&self) -> u64
        ensures { result ≡ self.now.out }
    {
        self.out
    }

    /// One line more was begun.
    pub(crate) fn begin(&mut self)
        requires { self.old.begun < 2 ^ 63 }
        ensures { self.new ≡ record self.old { begun = self.old.begun + 1 } }
    {
        self.begun += 1;
    }

    /// The answers of so many lines are out.
    pub(crate) fn set_out(&mut self, out: u64)
        ensures { self.new ≡ record self.old { out = out } }
    {
        self.out = out;
    }

    /// Whether there is room for so many bytes more. There is room for 65,536 where nothing is
    /// pending.
    pub(crate) fn fits(&self, count: usize) -> bool
        ensures fits { IsTrue result ↔ (length self.now.bytes + count ≤ self.now.capacity) }
        ensures room { 65536 ≤ self.now.capacity }
    {
        count <= self.bytes.capacity() - self.bytes.len()
    }

    /// Writes them all.
    pub(crate) fn send<W: ByteSink>(&mut self, sink: &mut W) -> Result<(), WriteFault>
        requires { (W.seen sink.old).faults < 2 ^ 63 }
        ensures says { Says (W.seen sink.old).contents (W.seen sink.new).contents
            result self.old.bytes }
        ensures given { Appends (W.seen sink.old).given (W.seen sink.new).given self.old.bytes }
        ensures faults { (W.seen sink.new).faults ≡ faults_after (W.seen sink.old).faults result }
        ensures sent { OnOk result (self.new ≡ record self.old { bytes = [] }) }
    {
        if self.bytes.is_empty() {
            return Ok(());
        }
        let written = sink.write(self.bytes.as_slice());
        if written.is_ok() {
            self.bytes.clear();
        }
        written
    }

    /// Appends a line that there is room for.
    pub(crate) fn put(&mut self, line: &[u8])
        requires { length self.old.bytes + length line.now ≤ self.old.capacity }
        ensures bytes { self.new.bytes ≡ self.old.bytes ++ line.now }
        ensures begun { self.new.begun ≡ self.old.begun }
        ensures out { self.new.out ≡ self.old.out }
    {
        self.bytes.extend_from_slice(line).unwrap();
    }

    /// Appends the line of a reply in a few words, which there is room for.
    pub(crate) fn put_short(&mut self, told: &Short)
        requires { length self.old.bytes + MAX_REPLY ≤ self.old.capacity }
        ensures bytes { self.new.bytes ≡ self.old.bytes ++ line_of (reply_text told.now) }
        ensures begun { self.new.begun ≡ self.old.begun }
        ensures out { self.new.out ≡ self.old.out }
    {
        append_reply(&mut self.bytes, told);
    }
}
