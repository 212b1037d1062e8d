//! Bytes that are put in and taken out at their end.

ghost use Rattle.std.specs.Prelude.{◌≡◌, ◌+◌, ◌≤◌, [], ◌++◌, IsOk, OnOk, OnErr, length, take};

use crate::no_memory::NoMemory;
use smallvec::SmallVec;
use std::alloc::Global;
use std::marker::Model;

/// How many bytes lie in the value itself.
pub const INLINE_BYTES: usize = 48;

// How many bytes are made ready at once, if there is room for so many.
const READY_BYTES: usize = 1024;

/// Bytes that are put in and taken out at their end. Up to 48 of them take no memory elsewhere; the
/// memory for more grows by doubling, and is kept when bytes leave.
#[derive(Drop)]
pub struct ByteStack {
    // The bytes, and behind them those that are ready to be written over: so a few bytes are put in
    // by a few instructions, whether they lie here or elsewhere.
    slots: SmallVec<u8, INLINE_BYTES>,
    // how many slots there are, which is asked each time that something is put in
    ready: usize,
    len: usize,
}

impl Model for ByteStack {
    ghost use Rattle.std.specs.Prelude.{◌≡◌, ◌≤◌, length, take};
    ghost use Rattle.rd_bytes.specs.StackView.{StackView};

    ghost Value = { StackView };

    ghost view = { λ s. record { bytes = take s.len s.slots.items; capacity = s.slots.capacity } };

    ghost invariant = { λ s. (s.ready ≡ length s.slots.items) × (s.len ≤ s.ready) };
}

// Writes a few bytes over as many, from `at` on, one by one: where `N` is known, by as few stores.
#[inline(always)]
fn write_each<const N: usize>(slots: &mut [u8], at: usize, bytes: &[u8; N])
    requires { at + N ≤ length slots.old }
    ensures bytes { take (at + N) slots.new ≡ take at slots.old ++ bytes.now }
    ensures len { length slots.new ≡ length slots.old }
{
    for index in 0..N {
        slots[at + index] = bytes[index];
    }
}

// Writes the bytes over as many, from `at` on.
#[inline(always)]
fn write_at(slots: &mut [u8], at: usize, bytes: &[u8])
    requires { at + length bytes.now ≤ length slots.old }
    ensures bytes { take (at + length bytes.now) slots.new ≡ take at slots.old ++ bytes.now }
    ensures len { length slots.new ≡ length slots.old }
{
    slots[at..at + bytes.len()].copy_from_slice(bytes);
}

// Makes `count` slots ready behind the first `len`, and more where there is room.
#[inline(never)]
fn make_ready(
    slots: &mut SmallVec<u8, INLINE_BYTES>,
    len: usize,
    count: usize,
) -> Result<(), NoMemory>
    requires { len ≤ length slots.old.items }
    ensures same { take len slots.new.items ≡ take len slots.old.items }
    ensures ok { OnOk result (len + count ≤ length slots.new.items) }
    ensures enough { len + count ≤ slots.old.capacity → IsOk result }
    ensures grows { slots.old.capacity ≤ slots.new.capacity }
    ensures err { OnErr result (slots.new ≡ slots.old) }
{
    let missing = count.saturating_sub(slots.len() - len);
    slots.reserve(missing)?;
    let capacity = slots.capacity();
    if missing > READY_BYTES {
        slots.resize(len + count, 0)?;
        return Ok(());
    }
    let spare = capacity - slots.len();
    slots.extend_from_slice(&[0; READY_BYTES][..spare.min(READY_BYTES)])?;
    Ok(())
}

impl ByteStack {
    /// No bytes. It takes no memory.
    pub fn new(alloc: Global) -> ByteStack
        ensures { result ≡ record { bytes = []; capacity = INLINE_BYTES } }
    {
        ByteStack {
            slots: SmallVec::new(alloc),
            ready: 0,
            len: 0,
        }
    }

    /// How many bytes there are.
    #[inline(always)]
    pub fn len(&self) -> usize
        ensures len { result ≡ length self.now.bytes }
        ensures within { result ≤ self.now.capacity }
    {
        // (there are no more bytes than there is room for)
        self.slots.len();
        self.len
    }

    /// The bytes.
    #[inline(always)]
    pub fn as_slice(&self) -> &[u8]
        ensures { result.now ≡ self.now.bytes }
    {
        &self.slots.as_slice()[..self.len]
    }

    /// Puts a few bytes at the end. It takes no memory where there is room for them. Where there is
    /// no memory for them, nothing has changed. (Inlined: for a few bytes a call is dearer.)
    #[inline(always)]
    pub fn push<const N: usize>(&mut self, bytes: &[u8; N]) -> Result<(), NoMemory>
        ensures ok { OnOk result (self.new.bytes ≡ self.old.bytes ++ bytes.now) }
        ensures enough { length self.old.bytes + length bytes.now ≤ self.old.capacity
            → IsOk result }
        ensures grows { self.old.capacity ≤ self.new.capacity }
        ensures err { OnErr result (self.new ≡ self.old) }
    {
        if self.ready - self.len < N {
            make_ready(&mut self.slots, self.len, N)?;
            self.ready = self.slots.len();
        }
        write_each(self.slots.as_mut_slice(), self.len, bytes);
        self.len += N;
        Ok(())
    }

    /// Puts these bytes at the end, however many they are. It takes no memory where there is room
    /// for them. Where there is no memory for them, nothing has changed.
    #[inline(never)]
    pub fn push_slice(&mut self, bytes: &[u8]) -> Result<(), NoMemory>
        ensures ok { OnOk result (self.new.bytes ≡ self.old.bytes ++ bytes.now) }
        ensures enough { length self.old.bytes + length bytes.now ≤ self.old.capacity
            → IsOk result }
        ensures grows { self.old.capacity ≤ self.new.capacity }
        ensures err { OnErr result (self.new ≡ self.old) }
    {
        if self.ready - self.len < bytes.len() {
            make_ready(&mut self.slots, self.len, bytes.len())?;
            self.ready = self.slots.len();
        }
        write_at(self.slots.as_mut_slice(), self.len, bytes);
        self.len += bytes.len();
        Ok(())
    }

    /// Puts these bytes at the end, and a few others behind them. It takes no memory where there is
    /// room for all. Where there is no memory for them, nothing has changed.
    #[inline(always)]
    pub fn push_both<const N: usize>(
        &mut self,
        bytes: &[u8],
        others: &[u8; N],
    ) -> Result<(), NoMemory>
        ensures ok { OnOk result
            (self.new.bytes ≡ self.old.bytes ++ (bytes.now ++ others.now)) }
        ensures enough { length self.old.bytes + length (bytes.now ++ others.now)
            ≤ self.old.capacity → IsOk result }
        ensures grows { self.old.capacity ≤ self.new.capacity }
        ensures err { OnErr result (self.new ≡ self.old) }
    {
        self.reserve(bytes.len() + N)?;
        self.push_slice(bytes)?;
        self.push(others)
    }

    /// Makes room for `more` bytes. Where there is no memory for it, nothing has changed.
    #[inline(always)]
    pub fn reserve(&mut self, more: usize) -> Result<(), NoMemory>
        ensures bytes { self.new.bytes ≡ self.old.bytes }
        ensures ok { OnOk result (length self.old.bytes + more ≤ self.new.capacity) }
        ensures enough { length self.old.bytes + more ≤ self.old.capacity → IsOk result }
        ensures room { length self.old.bytes + more ≤ self.old.capacity
            → self.new.capacity ≡ self.old.capacity }
        ensures grows { self.old.capacity ≤ self.new.capacity }
        ensures err { OnErr result (self.new ≡ self.old) }
    {
        let len = self.len();
        if self.slots.capacity() - len >= more {
            return Ok(());
        }
        let missing = more.saturating_sub(self.ready - len);
        self.slots.reserve(missing)?;
        Ok(())
    }

    /// Keeps the first `len` bytes, and the memory of the others.
    #[inline(always)]
    pub fn truncate(&mut self, len: usize)
        ensures bytes { self.new.bytes ≡ take len self.old.bytes }
        ensures capacity { self.new.capacity ≡ self.old.capacity }
    {
        self.len = self.len.min(len);
    }
}
