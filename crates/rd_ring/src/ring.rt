//! A ring of bytes.

ghost use Rattle.std.specs.Prelude.{◌≡◌, ◌↔◌, ◌+◌, ◌-◌, ◌%◌, ◌<◌, ◌≤◌, [], ◌++◌, length};
ghost use Rattle.std.specs.Prelude.{take, drop, slice_index, slice_set, IsTrue, IfOk};
ghost use Rattle.rd_ring.specs.Rings.{empty_ring, with_contents, with_piece};
ghost use Rattle.rd_ring.specs.Rings.{with_back, without_back, with_front, without_front};
ghost use Rattle.rd_ring.specs.Rings.{IsSizedRing, EachRingChangeIsUndone};
ghost use Rattle.rd_ring.specs.Rings.{HasWholePieces, WholePiecesStayWhole};

use crate::memory;
use std::alloc::{AllocError, Global};
use std::marker::Model;

/// A list of bytes, with room for a fixed number of them, that is filled and emptied at both ends.
///
/// The bytes lie in a memory of that size, from some offset on: after the last offset of the memory
/// comes its first. All of it is taken by `new` and `copy`.
#[derive(Drop)]
pub struct ByteRing {
    memory: Vec<u8>,
    start: usize,
    len: usize,
}

impl Model for ByteRing {
    ghost use Rattle.std.specs.Prelude.{◌≤◌, length, take};
    ghost use Rattle.rd_ring.specs.Memory.{IsOffset, seen_from};
    ghost use Rattle.rd_ring.specs.RingView.{RingView};

    ghost Value = { RingView };

    ghost view = { λ r. record {
      bytes = take r.len (seen_from r.start r.memory.items);
      capacity = length r.memory.items;
      start = r.start;
    } };

    // The bytes fit in the memory, and the front lies in it.
    ghost invariant = { λ r. (r.len ≤ length r.memory.items)
        × IsOffset (length r.memory.items) r.start };
}

impl ByteRing {
    /// An empty ring with room for `capacity` bytes, which may be 0. Its front lies at 0.
    pub fn new(alloc: Global, capacity: usize) -> Result<ByteRing, AllocError>
        ensures { IfOk result (λ ring. ring ≡ empty_ring capacity) }
    {
        let memory = vec![in alloc; 0; capacity]?;
        Ok(ByteRing {
            memory,
            start: 0,
            len: 0,
        })
    }

    /// An equal ring, whose bytes lie where those of this one do.
    pub fn copy(&self, alloc: Global) -> Result<ByteRing, AllocError>
        ensures { IfOk result (λ ring. ring ≡ self.now) }
    {
        let mut memory = Vec::with_capacity(alloc, self.memory.len())?;
        memory.extend_from_slice(self.memory.as_slice())?;
        Ok(ByteRing {
            memory,
            start: self.start,
            len: self.len,
        })
    }

    /// Whether the other ring has the same bytes and the same capacity, wherever the bytes lie.
    pub fn same(&self, other: &ByteRing) -> bool
        ensures { IsTrue result
            ↔ ((self.now.bytes ≡ other.now.bytes) × (self.now.capacity ≡ other.now.capacity)) }
    {
        if self.capacity() != other.capacity() {
            return false;
        }
        let (front, back) = self.halves();
        let (other_front, other_back) = other.halves();
        if front.len() <= other_front.len() {
            memory::same_in_pieces(front, back, other_front, other_back)
        } else {
            memory::same_in_pieces(other_front, other_back, front, back)
        }
    }

    /// For contracts alone: the sizes that every ring keeps.
    pub fn sizes(&self)
        ensures { IsSizedRing self.now }
    {
        let _ = &self.len;
    }

    /// How many bytes there are.
    pub fn len(&self) -> usize
        ensures len { result ≡ length self.now.bytes }
        ensures within { result ≤ self.now.capacity }
    {
        self.len
    }

    /// For how many more bytes there is space.
    pub fn space(&self) -> usize
        ensures { result + length self.now.bytes ≡ self.now.capacity }
    {
        self.memory.len() - self.len
    }

    /// How many bytes there is room for.
    pub fn capacity(&self) -> usize
        ensures { result ≡ self.now.capacity }
    {
        self.memory.len()
    }

    /// Puts bytes at the back. It takes no memory.
    pub fn push_back(&mut self, bytes: &[u8])
        requires { length self.old.bytes + length bytes.now ≤ self.old.capacity }
        ensures { self.new ≡ with_back self.old bytes.now }
    {
        let offset = memory::offset_after(self.memory.len(), self.start, self.len);
        memory::write_from(self.memory.as_mut_slice(), offset, bytes);
        self.len += bytes.len();
    }

    /// Puts bytes at the front, in their order, before the others. It takes no memory.
    pub fn push_front(&mut self, bytes: &[u8])
        requires { length self.old.bytes + length bytes.now ≤ self.old.capacity }
        ensures { self.new ≡ with_front self.old bytes.now }
    {
        let start = memory::offset_before(self.memory.len(), self.start, bytes.len());
        memory::write_from(self.memory.as_mut_slice(), start, bytes);
        self.start = start;
        self.len += bytes.len();
    }

    /// Takes the first bytes out, as many as `into` has, and copies them there. It takes no memory.
    pub fn pop_front(&mut self, into: &mut [u8])
        requires { length into.old ≤ length self.old.bytes }
        ensures bytes { into.new ≡ take (length into.old) self.old.bytes }
        ensures rest { self.new ≡ without_front self.old (length into.old) }
    {
        memory::read_from(self.memory.as_slice(), self.start, into);
        self.drop_front(into.len());
    }

    /// Takes the first `count` bytes out. It takes no memory.
    pub fn drop_front(&mut self, count: usize)
        requires { count ≤ length self.old.bytes }
        ensures { self.new ≡ without_front self.old count }
    {
        self.start = memory::offset_after(self.memory.len(), self.start, count);
        self.len -= count;
    }

    /// Takes the last `count` bytes out: what undoes `push_back`. It takes no memory.
    pub fn pop_back(&mut self, count: usize)
        requires { count ≤ length self.old.bytes }
        ensures { self.new ≡ without_back self.old count }
    {
        self.len -= count;
    }

    /// Takes all bytes out. The front stays where it is.
    pub fn clear(&mut self)
        ensures { self.new ≡ with_contents self.old [] }
    {
        self.len = 0;
    }

    /// The byte at `at`, 0 the front.
    pub fn get(&self, at: usize) -> u8
        requires { at < length self.now.bytes }
        ensures { result ≡ slice_index self.now.bytes at }
    {
        let offset = memory::offset_after(self.memory.len(), self.start, at);
        self.memory[offset]
    }

    /// Puts a byte in the place of the one at `at`, 0 the front.
    pub fn set(&mut self, at: usize, value: u8)
        requires { at < length self.old.bytes }
        ensures { self.new ≡ with_contents self.old (slice_set self.old.bytes at value) }
    {
        let offset = memory::offset_after(self.memory.len(), self.start, at);
        self.memory[offset] = value;
    }

    /// The piece of `size` bytes that begins at `at`, 0 the front, where all pieces of that size
    /// lie whole in the memory.
    pub fn piece(&self, at: usize, size: usize) -> &[u8]
        requires there { at + size ≤ length self.now.bytes }
        requires whole { HasWholePieces self.now size }
        requires begins { at % size ≡ 0 }
        ensures { result.now ≡ take size (drop at self.now.bytes) }
    {
        let offset = memory::offset_after(self.memory.len(), self.start, at);
        &self.memory[offset..offset + size]
    }

    /// Puts bytes in the place of as many, from `at` on, 0 the front. It takes no memory.
    pub fn set_piece(&mut self, at: usize, bytes: &[u8])
        requires { at + length bytes.now ≤ length self.old.bytes }
        ensures { self.new ≡ with_contents self.old (with_piece self.old.bytes at bytes.now) }
    {
        let offset = memory::offset_after(self.memory.len(), self.start, at);
        memory::write_from(self.memory.as_mut_slice(), offset, bytes);
    }

    /// `count` bytes from `at` on, 0 the front, in two pieces that follow one another.
    pub fn range(&self, at: usize, count: usize) -> (&[u8], &[u8])
        requires { at + count ≤ length self.now.bytes }
        ensures { result.0.now ++ result.1.now ≡ take count (drop at self.now.bytes) }
    {
        let offset = memory::offset_after(self.memory.len(), self.start, at);
        memory::halves_from(self.memory.as_slice(), offset, count)
    }

    /// All bytes, in two pieces that follow one another.
    pub fn halves(&self) -> (&[u8], &[u8])
        ensures { result.0.now ++ result.1.now ≡ self.now.bytes }
    {
        memory::halves_from(self.memory.as_slice(), self.start, self.len)
    }
}

/// A law: what was put in at an end can be taken out again there, and what was taken out, cleared
/// or replaced can be put in again: the ring is then what it was, and its bytes lie where they lay.
pub fn each_ring_change_is_undone()
    ensures { EachRingChangeIsUndone }
{}

/// A law: a new ring for a number of pieces of one size has them whole, and keeps them whole as
/// long as whole pieces are put in and taken out at the front.
pub fn whole_pieces_stay_whole()
    ensures { WholePiecesStayWhole }
{}
