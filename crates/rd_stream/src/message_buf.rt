//! A message buffer.

ghost use Rattle.std.specs.Prelude.{◌≡◌, ◌+◌, ◌-◌, ◌<◌, ◌≤◌, ◌↔◌, [], ◌∷◌, ◌++◌, length, take};
ghost use Rattle.std.specs.Prelude.{drop, slice_index_or, IsTrue, IfOk, IfSome};
ghost use Rattle.rd_stream.specs.Holders.{holder_of, with_holder_of};
ghost use Rattle.rd_stream.specs.MessageChanges.{HasSpaceForMessage};
ghost use Rattle.rd_stream.specs.Messages.{all_framed, bytes_held, empty_message_buffer};
ghost use Rattle.rd_stream.specs.Messages.{first_length, messages_in, AreMessages};
ghost use Rattle.rd_stream.specs.Messages.{with_message_holders, with_messages};
ghost use Rattle.rd_stream.specs.Sizes.{IsSizedMessageBuffer};

use crate::holders::Holders;
use crate::side::Side;
use rd_ring::ring::ByteRing;
use std::alloc::{AllocError, Global};
use std::marker::Model;

/// How many bytes a message buffer has room for at the least: a message of one byte.
pub const MIN_MESSAGE_BUFFER_SIZE: usize = 5;

/// How many bytes a message buffer has room for at the most.
pub const MAX_MESSAGE_BUFFER_SIZE: usize = 1024;

// How many bytes the length of a message takes.
const LENGTH_BYTES: usize = 4;

/// A message buffer with room for a number of bytes, and whom its places name. A message lies there
/// as the four bytes of its length, lowest first, and its own bytes. All its memory is taken by
/// `new`.
#[derive(Drop)]
pub struct MessageBuf {
    ring: ByteRing,
    count: usize,
    holders: Holders,
}

impl Model for MessageBuf {
    ghost use Rattle.std.specs.Prelude.{◌≤◌, length};
    ghost use Rattle.rd_stream.specs.declared.message_buf.TheConstants.{MAX_MESSAGE_BUFFER_SIZE};
    ghost use Rattle.rd_stream.specs.MessageRings.{HoldsMessages};
    ghost use Rattle.rd_stream.specs.MessageSnapshot.{MessageSnapshot};
    ghost use Rattle.rd_stream.specs.Messages.{messages_in};

    ghost Value = { MessageSnapshot };

    ghost view = { λ b. record {
      messages = messages_in b.ring.bytes;
      capacity = b.ring.capacity;
      holders = b.holders;
    } };

    // The ring is one of whole messages, as many as are counted, and there is room for them.
    ghost invariant = { λ b. HoldsMessages b.ring b.count
        × (length b.ring.bytes ≤ b.ring.capacity)
        × (b.ring.capacity ≤ MAX_MESSAGE_BUFFER_SIZE) };
}

// The length of the message that begins at `at` in a ring.
fn length_at(ring: &ByteRing, at: usize) -> usize
    requires there { at + 4 ≤ length ring.now.bytes }
    requires few { length ring.now.bytes ≤ MAX_MESSAGE_BUFFER_SIZE }
    ensures { result ≡ first_length (drop at ring.now.bytes) }
{
    let bytes = [
        ring.get(at),
        ring.get(at + 1),
        ring.get(at + 2),
        ring.get(at + 3),
    ];
    u32::from_le_bytes(bytes) as usize
}

// Where the message at `index` begins in a ring of messages: behind those before it.
fn start_of(ring: &ByteRing, index: usize) -> usize
    requires messages { AreMessages ring.now.bytes }
    requires few { length ring.now.bytes ≤ MAX_MESSAGE_BUFFER_SIZE }
    requires there { index ≤ length (messages_in ring.now.bytes) }
    ensures { result ≡ bytes_held (take index (messages_in ring.now.bytes)) }
{
    let mut at = 0;
    for _ in 0..index {
        at += LENGTH_BYTES + length_at(ring, at);
    }
    at
}

// How many messages there are in a ring of messages.
fn count_in(ring: &ByteRing) -> usize
    requires messages { AreMessages ring.now.bytes }
    requires few { length ring.now.bytes ≤ MAX_MESSAGE_BUFFER_SIZE }
    ensures { result ≡ length (messages_in ring.now.bytes) }
{
    let mut count = 0;
    let mut at = 0;
    while at < ring.len() {
        at += LENGTH_BYTES + length_at(ring, at);
        count += 1;
    }
    count
}

impl MessageBuf {
    /// An empty buffer with room for `capacity` bytes (`xMessageBufferCreate`), at which
    /// `task_count` tasks can wait. Its places name nobody.
    pub fn new(alloc: Global, capacity: usize, task_count: usize) -> Result<MessageBuf, AllocError>
        requires { capacity ≤ MAX_MESSAGE_BUFFER_SIZE }
        ensures { IfOk result (λ buffer. buffer ≡ empty_message_buffer capacity task_count) }
    {
        Ok(MessageBuf {
            ring: ByteRing::new(alloc, capacity)?,
            count: 0,
            holders: Holders::new(task_count),
        })
    }

    /// An equal buffer.
    pub fn copy(&self, alloc: Global) -> Result<MessageBuf, AllocError>
        ensures { IfOk result (λ buffer. buffer ≡ self.now) }
    {
        Ok(MessageBuf {
            ring: self.ring.copy(alloc)?,
            count: self.count,
            holders: self.holders.copy(),
        })
    }

    /// Whether the other buffer has the same messages and the same room, and its places name the
    /// same tasks, of as many.
    pub fn same(&self, other: &MessageBuf) -> bool
        ensures { IsTrue result ↔ (self.now ≡ other.now) }
    {
        self.same_messages(other) && self.holders.same(&other.holders)
    }

    // Whether the other buffer has the same messages and the same room.
    fn same_messages(&self, other: &MessageBuf) -> bool
        ensures { IsTrue result ↔ ((self.now.messages ≡ other.now.messages)
            × (self.now.capacity ≡ other.now.capacity)) }
    {
        self.ring.same(&other.ring)
    }

    /// For contracts alone: the sizes that every message buffer keeps.
    pub fn sizes(&self)
        ensures { IsSizedMessageBuffer self.now }
    {
        self.holders.sizes();
    }

    /// How many messages there are.
    pub fn count(&self) -> usize
        ensures count { result ≡ length self.now.messages }
        ensures few { result ≤ MAX_MESSAGE_BUFFER_SIZE }
    {
        self.count
    }

    /// How many bytes the messages take, with those of their lengths.
    pub fn held(&self) -> usize
        ensures held { result ≡ bytes_held self.now.messages }
        ensures within { result ≤ self.now.capacity }
        ensures few { result ≤ MAX_MESSAGE_BUFFER_SIZE }
    {
        self.ring.len()
    }

    /// How many bytes there is still space for, of which a message takes four more than it has
    /// (`xMessageBufferSpacesAvailable`).
    pub fn space(&self) -> usize
        ensures space { result + bytes_held self.now.messages ≡ self.now.capacity }
        ensures few { result ≤ MAX_MESSAGE_BUFFER_SIZE }
    {
        self.ring.space()
    }

    /// How many bytes there is room for.
    pub fn capacity(&self) -> usize
        ensures capacity { result ≡ self.now.capacity }
        ensures few { result ≤ MAX_MESSAGE_BUFFER_SIZE }
    {
        self.ring.capacity()
    }

    /// The length of the message at the front, 0 where there is none
    /// (`xMessageBufferNextLengthBytes`).
    pub fn next_len(&self) -> usize
        ensures len { result ≡ length (slice_index_or self.now.messages 0 []) }
        ensures few { result ≤ MAX_MESSAGE_BUFFER_SIZE }
    {
        if self.count == 0 {
            return 0;
        }
        length_at(&self.ring, 0)
    }

    /// All messages as they lie in the buffer, the front first, in two pieces that follow one
    /// another.
    pub fn bytes(&self) -> (&[u8], &[u8])
        ensures { result.0.now ++ result.1.now ≡ all_framed self.now.messages }
    {
        self.ring.halves()
    }

    /// The message at `index`, 0 the front, in two pieces that follow one another. It is found from
    /// the front, by as many steps as messages lie before it.
    pub fn message(&self, index: usize) -> (&[u8], &[u8])
        requires { index < length self.now.messages }
        ensures message { result.0.now ++ result.1.now
            ≡ slice_index_or self.now.messages index [] }
        ensures front { length result.0.now ≤ MAX_MESSAGE_BUFFER_SIZE }
        ensures back { length result.1.now ≤ MAX_MESSAGE_BUFFER_SIZE }
    {
        let at = start_of(&self.ring, index);
        let len = length_at(&self.ring, at);
        self.ring.range(at + LENGTH_BYTES, len)
    }

    /// The message at the front, in two pieces that follow one another.
    pub fn first(&self) -> (&[u8], &[u8])
        requires { 0 < length self.now.messages }
        ensures message { result.0.now ++ result.1.now ≡ slice_index_or self.now.messages 0 [] }
        ensures front { length result.0.now ≤ MAX_MESSAGE_BUFFER_SIZE }
        ensures back { length result.1.now ≤ MAX_MESSAGE_BUFFER_SIZE }
    {
        self.message(0)
    }

    /// The message at the back, in two pieces that follow one another.
    pub fn last(&self) -> (&[u8], &[u8])
        requires { 0 < length self.now.messages }
        ensures message { result.0.now ++ result.1.now
            ≡ slice_index_or self.now.messages (length self.now.messages - 1) [] }
        ensures front { length result.0.now ≤ MAX_MESSAGE_BUFFER_SIZE }
        ensures back { length result.1.now ≤ MAX_MESSAGE_BUFFER_SIZE }
    {
        self.message(self.count() - 1)
    }

    /// Puts a message at the back (`xMessageBufferSend`, where there is space). It takes no memory.
    pub fn write(&mut self, message: &[u8])
        requires { HasSpaceForMessage self.old message.now }
        ensures { self.new ≡ with_messages self.old (self.old.messages ++ message.now ∷ []) }
    {
        self.write_halves(message, &[]);
    }

    /// Puts a message at the back likewise, whose bytes are in two pieces that follow one another.
    /// It takes no memory.
    pub fn write_halves(&mut self, front: &[u8], back: &[u8])
        requires { HasSpaceForMessage self.old (front.now ++ back.now) }
        ensures { self.new ≡ with_messages self.old
            (self.old.messages ++ (front.now ++ back.now) ∷ []) }
    {
        self.count += 1;
        let len = (front.len() + back.len()) as u32;
        self.ring.push_back(&len.to_le_bytes());
        self.ring.push_back(front);
        self.ring.push_back(back);
    }

    /// Takes the message at the front out, and copies it to `into`, which has its length
    /// (`xMessageBufferReceive`). It takes no memory.
    pub fn read(&mut self, into: &mut [u8])
        requires some { 0 < length self.old.messages }
        requires whole { length into.old ≡ length (slice_index_or self.old.messages 0 []) }
        ensures bytes { into.new ≡ slice_index_or self.old.messages 0 [] }
        ensures rest { self.new ≡ with_messages self.old (drop 1 self.old.messages) }
    {
        self.ring.drop_front(LENGTH_BYTES);
        self.ring.pop_front(into);
        self.count -= 1;
    }

    /// Takes the message at the front away. It takes no memory.
    pub fn skip(&mut self)
        requires { 0 < length self.old.messages }
        ensures { self.new ≡ with_messages self.old (drop 1 self.old.messages) }
    {
        let len = length_at(&self.ring, 0);
        self.ring.drop_front(LENGTH_BYTES + len);
        self.count -= 1;
    }

    /// Takes the message at the back away: what undoes `write`. It is found from the front, by as
    /// many steps as messages lie before it. It takes no memory.
    pub fn unwrite(&mut self)
        requires { 0 < length self.old.messages }
        ensures { self.new ≡ with_messages self.old
            (take (length self.old.messages - 1) self.old.messages) }
    {
        let at = start_of(&self.ring, self.count - 1);
        self.ring.pop_back(self.ring.len() - at);
        self.count -= 1;
    }

    /// Puts a message back at the front, whose bytes are in two pieces that follow one another:
    /// what undoes `read` and `skip`. It takes no memory.
    pub fn unread(&mut self, front: &[u8], back: &[u8])
        requires { HasSpaceForMessage self.old (front.now ++ back.now) }
        ensures { self.new ≡ with_messages self.old
            ((front.now ++ back.now) ∷ self.old.messages) }
    {
        self.count += 1;
        let len = (front.len() + back.len()) as u32;
        self.ring.push_front(back);
        self.ring.push_front(front);
        self.ring.push_front(&len.to_le_bytes());
    }

    /// Takes all messages away; the places name whom they named (`xMessageBufferReset`, but for
    /// when that is refused). It takes no memory.
    pub fn clear(&mut self)
        ensures { self.new ≡ with_messages self.old [] }
    {
        self.ring.clear();
        self.count = 0;
    }

    /// Fills an empty buffer with the messages that lie in these bytes, in two pieces that follow
    /// one another: what undoes `clear`. It takes no memory.
    pub fn fill(&mut self, front: &[u8], back: &[u8])
        requires empty { self.old.messages ≡ [] }
        requires messages { AreMessages (front.now ++ back.now) }
        requires space { length (front.now ++ back.now) ≤ self.old.capacity }
        ensures { self.new ≡ with_messages self.old (messages_in (front.now ++ back.now)) }
    {
        self.ring.push_back(front);
        self.ring.push_back(back);
        self.count = count_in(&self.ring);
    }

    /// Whom the place at a side names, if anybody.
    pub fn holder(&self, side: Side) -> Option<usize>
        ensures holder { result ≡ holder_of side self.now.holders }
        ensures task { IfSome result (λ task. task < self.now.holders.task_count) }
    {
        self.holders.get(side)
    }

    /// Has the place at a side name this task, or nobody.
    pub fn set_holder(&mut self, side: Side, task: Option<usize>)
        requires { IfSome task (λ t. t < self.old.holders.task_count) }
        ensures { self.new ≡ with_message_holders self.old
            (with_holder_of side task self.old.holders) }
    {
        self.holders.set(side, task);
    }

    /// The task that the reader's place names, if any.
    pub fn reader(&self) -> Option<usize>
        ensures reader { result ≡ self.now.holders.reader }
        ensures task { IfSome result (λ task. task < self.now.holders.task_count) }
    {
        self.holder(Side::Reader)
    }

    /// The task that the writer's place names, if any.
    pub fn writer(&self) -> Option<usize>
        ensures writer { result ≡ self.now.holders.writer }
        ensures task { IfSome result (λ task. task < self.now.holders.task_count) }
    {
        self.holder(Side::Writer)
    }
}

/// For contracts alone: how many bytes a message buffer has room for at the least and at the most,
/// as numbers.
pub fn limits_of_messages()
    ensures least { MIN_MESSAGE_BUFFER_SIZE ≡ 5 }
    ensures most { MAX_MESSAGE_BUFFER_SIZE ≡ 1024 }
{}
