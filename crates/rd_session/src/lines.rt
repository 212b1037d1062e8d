//! Lines from a source, without memory for each.

ghost use Rattle.std.specs.Prelude.{◌≡◌, ◌+◌, ◌-◌, ◌<◌, ◌≤◌, [], length, take, drop};
ghost use Rattle.std.specs.Prelude.{IfOk, OnErr};
ghost use Rattle.rd_ends.specs.Ends.{CountsReads, ends_after, faults_after};
ghost use Rattle.std.specs.List.{position_or_len};
ghost use Rattle.std.specs.Io.KnownBytes.{IsAtEnd, Keeps};
ghost use Rattle.rd_session.specs.Lines.{AddsRead, is_feed, front_of, without_return};

use rd_ends::ends::{ByteSource, ReadFault};
use std::alloc::{AllocError, Global};
use std::marker::Model;

/// How many bytes a line has at the most. A CR counts, the LF doesn't.
pub const MAX_LINE: usize = 1024;

// How many bytes are read at a time, at the most.
const ROOM: usize = 65_536;

/// What stands at the front of the bytes that were read.
#[derive(Clone, Copy)]
pub enum Front {
    /// A whole line, with so many bytes before its LF.
    Line { len: usize },
    /// A line that is too long, whole or not.
    TooLong,
    /// The beginning of a line, or nothing.
    Part,
}

/// The bytes that were read and not answered yet.
#[derive(Drop)]
pub(crate) struct Lines {
    buffer: Vec<u8>,
    start: usize,
    end: usize,
}

impl Model for Lines {
    ghost use Rattle.std.specs.Prelude.{◌≡◌, ◌≤◌, ℕ, List, take, drop, vec_len};

    ghost Value = { List ℕ };

    ghost view = { λ l. drop l.start (take l.end l.buffer.items) };

    ghost invariant = { λ l. (l.start ≤ l.end) × (l.end ≤ 65536) × (vec_len l.buffer ≡ 65536) };
}

impl Lines {
    /// No bytes yet. All memory is taken here; an `Err` says that there is none.
    pub(crate) fn new(alloc: Global) -> Result<Lines, AllocError>
        ensures { IfOk result (λ lines. lines ≡ []) }
    {
        Ok(Lines {
            buffer: vec![in alloc; 0; ROOM]?,
            start: 0,
            end: 0,
        })
    }

    /// Drops all bytes.
    pub(crate) fn clear(&mut self)
        ensures { self.new ≡ [] }
    {
        self.start = 0;
        self.end = 0;
    }

    /// All bytes that were read and not dropped yet.
    pub(crate) fn rest(&self) -> &[u8]
        ensures { result.now ≡ self.now }
    {
        let all = self.buffer.as_slice();
        &all[self.start..self.end]
    }

    /// What stands at the front.
    pub(crate) fn front(&self) -> Front
        ensures { result ≡ front_of self.now }
    {
        let rest = self.rest();
        let len = line_len(rest);
        if len > MAX_LINE {
            Front::TooLong
        } else if len < rest.len() {
            Front::Line { len }
        } else {
            Front::Part
        }
    }

    /// The first `len` bytes, without one CR at their end. There are so many.
    pub(crate) fn line(&self, len: usize) -> &[u8]
        requires { len ≤ length self.now }
        ensures { result.now ≡ without_return (take len self.now) }
    {
        without_return(&self.rest()[..len])
    }

    /// Drops the first `count` bytes. There are so many.
    pub(crate) fn advance(&mut self, count: usize)
        requires { count ≤ length self.old }
        ensures { self.new ≡ drop count self.old }
    {
        self.start += count;
    }

    /// Reads once, after the bytes that are there, at most 1,024, and answers how many have come;
    /// none come only at the end of the input. An `Err` is the source's, and leaves the bytes as
    /// they were.
    pub(crate) fn read_from<S: ByteSource>(&mut self, source: &mut S) -> Result<usize, ReadFault>
        requires held { length self.old ≤ 1024 }
        requires counts { CountsReads (S.seen source.old) }
        ensures ok { IfOk result (AddsRead self.old self.new
            (S.seen source.old).remaining (S.seen source.new).remaining) }
        ensures within { length self.new ≤ 65536 }
        ensures end { IfOk result (λ count. count ≡ 0 → IsAtEnd (S.seen source.new).remaining) }
        ensures err { OnErr result (self.new ≡ self.old) }
        ensures err_source { OnErr result
            (Keeps (S.seen source.old).remaining (S.seen source.new).remaining) }
        ensures reads { (S.seen source.new).reads ≡ (S.seen source.old).reads + 1 }
        ensures ends { (S.seen source.new).ends ≡ ends_after (S.seen source.old).ends result }
        ensures faults { (S.seen source.new).faults
            ≡ faults_after (S.seen source.old).faults result }
    {
        move_to_front(&mut self.buffer, self.start, self.end);
        self.end -= self.start;
        self.start = 0;
        let count = read_after(source, &mut self.buffer, self.end)?;
        self.end += count;
        Ok(count)
    }
}

// How many bytes stand before the first LF, or all where there is none.
fn line_len(bytes: &[u8]) -> usize
    ensures len { result ≡ position_or_len is_feed bytes.now }
    ensures within { result ≤ length bytes.now }
{
    bytes.iter().take_while(|byte| **byte != b'\n').count()
}

// Moves the bytes from `start` to `end` to the front.
fn move_to_front(buffer: &mut [u8], start: usize, end: usize)
    requires start { start ≤ end }
    requires end { end ≤ length buffer.old }
    ensures { take (end - start) buffer.new ≡ drop start (take end buffer.old) }
{
    buffer.copy_within(start..end, 0);
}

// Reads once, after the first `end` bytes, which stay.
fn read_after<S: ByteSource>(
    source: &mut S,
    buffer: &mut [u8],
    end: usize,
) -> Result<usize, ReadFault>
    requires end { end < length buffer.old }
    requires counts { CountsReads (S.seen source.old) }
    ensures ok { IfOk result (λ count.
        AddsRead (take end buffer.old) (take (end + count) buffer.new)
        (S.seen source.old).remaining (S.seen source.new).remaining count) }
    ensures within { IfOk result (λ count. end + count ≤ length buffer.old) }
    ensures end { IfOk result (λ count. count ≡ 0 → IsAtEnd (S.seen source.new).remaining) }
    ensures err { OnErr result
        (Keeps (S.seen source.old).remaining (S.seen source.new).remaining) }
    ensures front { take end buffer.new ≡ take end buffer.old }
    ensures reads { (S.seen source.new).reads ≡ (S.seen source.old).reads + 1 }
    ensures ends { (S.seen source.new).ends ≡ ends_after (S.seen source.old).ends result }
    ensures faults { (S.seen source.new).faults ≡ faults_after (S.seen source.old).faults result }
{
    let (_, room) = buffer.split_at_mut(end);
    source.read(room)
}

fn without_return(line: &[u8]) -> &[u8]
    ensures { result.now ≡ without_return line.now }
{
    match line {
        [front @ .., b'\r'] => front,
        _ => line,
    }
}
