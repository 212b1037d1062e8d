//! A stream buffer.

ghost use Rattle.std.specs.Prelude.{◌≡◌, ◌↔◌, ◌+◌, ◌-◌, ◌<◌, ◌≤◌, [], ◌++◌, length, take, drop};
ghost use Rattle.std.specs.Prelude.{slice_index, slice_set, IsTrue, IfOk, IfSome};
ghost use Rattle.rd_stream.specs.Holders.{holder_of, with_holder_of};
ghost use Rattle.rd_stream.specs.Sizes.{IsSizedStream};
ghost use Rattle.rd_stream.specs.Streams.{empty_stream, with_stream_bytes, with_stream_holders};
ghost use Rattle.rd_stream.specs.Streams.{with_trigger};

use crate::holders::Holders;
use crate::side::Side;
use rd_ring::ring::ByteRing;
use std::alloc::{AllocError, Global};
use std::marker::Model;

/// How many bytes a stream buffer has room for at the most.
pub const MAX_STREAM_SIZE: usize = 1024;

/// A stream buffer: bytes that are read in the order in which they were written, the trigger level,
/// which is how many bytes have to be there for a write to complete a reader's wait, and whom its
/// two places name. All its memory is taken by `new`.
#[derive(Drop)]
pub struct StreamBuf {
    ring: ByteRing,
    trigger: usize,
    holders: Holders,
}

impl Model for StreamBuf {
    ghost use Rattle.std.specs.Prelude.{◌<◌, ◌≤◌};
    ghost use Rattle.rd_stream.specs.declared.stream_buf.TheConstants.{MAX_STREAM_SIZE};
    ghost use Rattle.rd_stream.specs.StreamSnapshot.{StreamSnapshot};

    ghost Value = { StreamSnapshot };

    ghost view = { λ s. record {
      bytes = s.ring.bytes;
      capacity = s.ring.capacity;
      trigger = s.trigger;
      holders = s.holders;
    } };

    // There is room for 1 to 1024 bytes, and the trigger level is from 1 to as many. (That the
    // bytes fit, and that whoever is named is a task, the ring and the places keep themselves.)
    ghost invariant = { λ s. (s.ring.capacity ≤ MAX_STREAM_SIZE)
        × (0 < s.trigger) × (s.trigger ≤ s.ring.capacity) };
}

impl StreamBuf {
    /// An empty buffer with room for `capacity` bytes, 1 to 1024, with a trigger level of 1 to as
    /// many (`xStreamBufferCreate`), at which `task_count` tasks can wait. Its places name nobody.
    pub fn new(
        alloc: Global,
        capacity: usize,
        trigger: usize,
        task_count: usize,
    ) -> Result<StreamBuf, AllocError>
        requires some_trigger { 0 < trigger }
        requires trigger { trigger ≤ capacity }
        requires few { capacity ≤ MAX_STREAM_SIZE }
        ensures { IfOk result (λ stream. stream ≡ empty_stream capacity trigger task_count) }
    {
        Ok(StreamBuf {
            ring: ByteRing::new(alloc, capacity)?,
            trigger,
            holders: Holders::new(task_count),
        })
    }

    /// An equal buffer.
    pub fn copy(&self, alloc: Global) -> Result<StreamBuf, AllocError>
        ensures { IfOk result (λ stream. stream ≡ self.now) }
    {
        Ok(StreamBuf {
            ring: self.ring.copy(alloc)?,
            trigger: self.trigger,
            holders: self.holders.copy(),
        })
    }

    /// Whether the other buffer has the same bytes, the same room and the same trigger level, and
    /// its places name the same tasks, of as many.
    pub fn same(&self, other: &StreamBuf) -> bool
        ensures { IsTrue result ↔ (self.now ≡ other.now) }
    {
        self.trigger == other.trigger
            && self.ring.same(&other.ring)
            && self.holders.same(&other.holders)
    }

    /// For contracts alone: the sizes that every stream buffer keeps.
    pub fn sizes(&self)
        ensures { IsSizedStream self.now }
    {
        self.ring.sizes();
        self.holders.sizes();
    }

    /// How many bytes there are (`xStreamBufferBytesAvailable`).
    #[inline(always)]
    pub fn len(&self) -> usize
        ensures len { result ≡ length self.now.bytes }
        ensures within { result ≤ self.now.capacity }
        ensures few { result ≤ MAX_STREAM_SIZE }
    {
        self.ring.len()
    }

    /// For how many more bytes there is space (`xStreamBufferSpacesAvailable`).
    #[inline(always)]
    pub fn space(&self) -> usize
        ensures space { result + length self.now.bytes ≡ self.now.capacity }
        ensures few { result ≤ MAX_STREAM_SIZE }
    {
        self.ring.space()
    }

    /// How many bytes there is room for.
    #[inline(always)]
    pub fn capacity(&self) -> usize
        ensures capacity { result ≡ self.now.capacity }
        ensures few { result ≤ MAX_STREAM_SIZE }
    {
        self.ring.capacity()
    }

    /// How many bytes have to be there for a write to complete a reader's wait.
    #[inline(always)]
    pub fn trigger(&self) -> usize
        ensures trigger { result ≡ self.now.trigger }
        ensures some { 0 < result }
        ensures within { result ≤ self.now.capacity }
        ensures few { result ≤ MAX_STREAM_SIZE }
    {
        self.trigger
    }

    /// The byte at `index`, 0 the front.
    #[inline(always)]
    pub fn byte(&self, index: usize) -> u8
        requires { index < length self.now.bytes }
        ensures { result ≡ slice_index self.now.bytes index }
    {
        self.ring.get(index)
    }

    /// All bytes, in two pieces that follow one another.
    #[inline(always)]
    pub fn bytes(&self) -> (&[u8], &[u8])
        ensures { result.0.now ++ result.1.now ≡ self.now.bytes }
    {
        self.ring.halves()
    }

    /// The first `count` bytes, in two pieces that follow one another.
    #[inline(always)]
    pub fn first(&self, count: usize) -> (&[u8], &[u8])
        requires { count ≤ length self.now.bytes }
        ensures { result.0.now ++ result.1.now ≡ take count self.now.bytes }
    {
        self.ring.range(0, count)
    }

    /// The last `count` bytes, in two pieces that follow one another.
    #[inline(always)]
    pub fn last(&self, count: usize) -> (&[u8], &[u8])
        requires { count ≤ length self.now.bytes }
        ensures { result.0.now ++ result.1.now
            ≡ drop (length self.now.bytes - count) self.now.bytes }
    {
        self.ring.range(self.ring.len() - count, count)
    }

    /// Puts bytes at the back (`xStreamBufferSend`, of as many as there is space for). It takes no
    /// memory.
    pub fn write(&mut self, bytes: &[u8])
        requires { length self.old.bytes + length bytes.now ≤ self.old.capacity }
        ensures { self.new ≡ with_stream_bytes self.old (self.old.bytes ++ bytes.now) }
    {
        self.ring.push_back(bytes);
    }

    /// Puts bytes at the back likewise, in two pieces that follow one another. It takes no memory.
    pub fn write_halves(&mut self, front: &[u8], back: &[u8])
        requires { length self.old.bytes + length (front.now ++ back.now) ≤ self.old.capacity }
        ensures { self.new
            ≡ with_stream_bytes self.old (self.old.bytes ++ (front.now ++ back.now)) }
    {
        self.ring.push_back(front);
        self.ring.push_back(back);
    }

    /// Takes the first bytes out, as many as `into` has, and copies them there
    /// (`xStreamBufferReceive`, of as many as are there). It takes no memory.
    pub fn read(&mut self, into: &mut [u8])
        requires { length into.old ≤ length self.old.bytes }
        ensures bytes { into.new ≡ take (length into.old) self.old.bytes }
        ensures rest { self.new
            ≡ with_stream_bytes self.old (drop (length into.old) self.old.bytes) }
    {
        self.ring.pop_front(into);
    }

    /// Takes the first `count` bytes away. It takes no memory.
    pub fn skip(&mut self, count: usize)
        requires { count ≤ length self.old.bytes }
        ensures { self.new ≡ with_stream_bytes self.old (drop count self.old.bytes) }
    {
        self.ring.drop_front(count);
    }

    /// Takes the last `count` bytes away: what undoes `write`. It takes no memory.
    pub fn unwrite(&mut self, count: usize)
        requires { count ≤ length self.old.bytes }
        ensures { self.new ≡ with_stream_bytes self.old
            (take (length self.old.bytes - count) self.old.bytes) }
    {
        self.ring.pop_back(count);
    }

    /// Puts bytes back at the front, in two pieces that follow one another: what undoes `read` and
    /// `skip`. It takes no memory.
    pub fn unread(&mut self, front: &[u8], back: &[u8])
        requires { length self.old.bytes + length (front.now ++ back.now) ≤ self.old.capacity }
        ensures { self.new
            ≡ with_stream_bytes self.old ((front.now ++ back.now) ++ self.old.bytes) }
    {
        self.ring.push_front(back);
        self.ring.push_front(front);
    }

    /// Puts a byte in the place of the one at `index`, 0 the front. It takes no memory.
    pub fn set_byte(&mut self, index: usize, value: u8)
        requires { index < length self.old.bytes }
        ensures { self.new
            ≡ with_stream_bytes self.old (slice_set self.old.bytes index value) }
    {
        self.ring.set(index, value);
    }

    /// Has the trigger level be another, of 1 to the room that there is
    /// (`xStreamBufferSetTriggerLevel`).
    pub fn set_trigger(&mut self, trigger: usize)
        requires some { 0 < trigger }
        requires within { trigger ≤ self.old.capacity }
        ensures { self.new ≡ with_trigger self.old trigger }
    {
        self.trigger = trigger;
    }

    /// Takes all bytes out (`xStreamBufferReset`, but for when that is refused). It takes no
    /// memory.
    pub fn clear(&mut self)
        ensures { self.new ≡ with_stream_bytes self.old [] }
    {
        self.ring.clear();
    }

    /// Fills an empty buffer with bytes, in two pieces that follow one another: what undoes
    /// `clear`. It takes no memory.
    pub fn fill(&mut self, front: &[u8], back: &[u8])
        requires empty { self.old.bytes ≡ [] }
        requires space { length (front.now ++ back.now) ≤ self.old.capacity }
        ensures { self.new ≡ with_stream_bytes self.old (front.now ++ back.now) }
    {
        self.write_halves(front, back);
    }

    /// Whom the place at a side names, if anybody.
    pub fn holder(&self, side: Side) -> Option<usize>
        ensures holder { result ≡ holder_of side self.now.holders }
        ensures task { IfSome result (λ task. task < self.now.holders.task_count) }
    {
        self.holders.get(side)
    }

    /// Has the place at a side name this task, or nobody.
    pub fn set_holder(&mut self, side: Side, task: Option<usize>)
        requires { IfSome task (λ t. t < self.old.holders.task_count) }
        ensures { self.new
            ≡ with_stream_holders self.old (with_holder_of side task self.old.holders) }
    {
        self.holders.set(side, task);
    }

    /// Whom the reader's place names, if anybody.
    pub fn reader(&self) -> Option<usize>
        ensures holder { result ≡ self.now.holders.reader }
        ensures task { IfSome result (λ task. task < self.now.holders.task_count) }
    {
        self.holder(Side::Reader)
    }

    /// Whom the writer's place names, if anybody.
    pub fn writer(&self) -> Option<usize>
        ensures holder { result ≡ self.now.holders.writer }
        ensures task { IfSome result (λ task. task < self.now.holders.task_count) }
    {
        self.holder(Side::Writer)
    }
}

/// For contracts alone: how many bytes a stream buffer has room for at the most, as a number.
pub fn limit_of_streams()
    ensures { MAX_STREAM_SIZE ≡ 1024 }
{}
