//! The changes of a message buffer as bytes: those that a change carries, its other fields, and its
//! tag.

ghost use Rattle.std.specs.Prelude.{◌≡◌, ◌+◌, ◌<◌, ◌≤◌, [], ◌∷◌, ◌++◌, length, IsOk, OnOk};
ghost use Rattle.std.specs.Prelude.{OnErr};
ghost use Rattle.std.specs.Int.{w16, to_le_bytes};
ghost use Rattle.rd_bytes.specs.Ends.{all_but, bytes_before, end_byte, end_short};
ghost use Rattle.rd_stream.specs.MessageChanges.{the_message_change};
ghost use Rattle.rd_stream.specs.PackedMessageChanges.{last_message_buffer, last_message_change};
ghost use Rattle.rd_stream.specs.PackedMessageChanges.{message_change_length, message_packed};
ghost use Rattle.rd_stream.specs.PackedMessageChanges.{EachMessageChangeIsReadBack};
ghost use Rattle.rd_stream.specs.PackedMessageChanges.{EndsInMessageChange, MessageHasBytes};
ghost use Rattle.rd_stream.specs.Sides.{tag_of_side};

use crate::message_change::MessageChange;
use crate::side::{Side, tag_of_side};
use rd_bytes::byte_stack::ByteStack;
use rd_bytes::ends::{all_but, byte_of_number, bytes_before, end_byte, end_short, number_of_byte};
use rd_bytes::no_memory::NoMemory;
use rd_bytes::tag::{
    CLEAR_MESSAGES, DROP_MESSAGE, FILL_MESSAGES, MESSAGE_HOLDER, PUSH_MESSAGE, SET_READER,
    SET_WRITER, TAKE_MESSAGE, UNTAKE_MESSAGE,
};

impl MessageChange<'_> {
    /// Puts the bytes of this change of a message buffer behind the others. It takes no memory
    /// where there is room for them. Where there is no memory for them, nothing has changed.
    /// (Called: what packs changes of all kinds would be larger than what the compiler inlines.)
    #[inline(never)]
    pub fn pack(self, buffer: usize, bytes: &mut ByteStack) -> Result<(), NoMemory>
        requires { MessageHasBytes buffer (the_message_change self) }
        ensures ok { OnOk result (bytes.new.bytes
            ≡ bytes.old.bytes ++ message_packed buffer (the_message_change self.entry)) }
        ensures enough { length bytes.old.bytes
            + length (message_packed buffer (the_message_change self.entry)) ≤ bytes.old.capacity
            → IsOk result }
        ensures grows { bytes.old.capacity ≤ bytes.new.capacity }
        ensures err { OnErr result (bytes.new ≡ bytes.old) }
    {
        let number = buffer as u8;
        match self {
            MessageChange::Push { front, back } => {
                pack_carried(number, PUSH_MESSAGE, front, back, bytes)
            }
            MessageChange::Drop => bytes.push(&[number, DROP_MESSAGE]),
            MessageChange::Take => bytes.push(&[number, TAKE_MESSAGE]),
            MessageChange::Untake { front, back } => {
                pack_carried(number, UNTAKE_MESSAGE, front, back, bytes)
            }
            MessageChange::SetHolder { side, task } => {
                let task = byte_of_number(task);
                bytes.push(&[MESSAGE_HOLDER, number, task, tag_of_side(side)])
            }
            MessageChange::Clear => bytes.push(&[number, CLEAR_MESSAGES]),
            MessageChange::Fill { front, back } => {
                pack_carried(number, FILL_MESSAGES, front, back, bytes)
            }
        }
    }
}

// Puts the bytes that a change carries, in two pieces that follow one another, behind the others,
// and behind them the buffer, their number and the tag.
fn pack_carried(
    number: u8,
    tag: u8,
    front: &[u8],
    back: &[u8],
    bytes: &mut ByteStack,
) -> Result<(), NoMemory>
    requires { length (front.now ++ back.now) < 65536 }
    ensures ok { OnOk result (bytes.new.bytes ≡ bytes.old.bytes ++ ((front.now ++ back.now)
        ++ number ∷ (to_le_bytes w16 (length (front.now ++ back.now)) ++ tag ∷ []))) }
    ensures enough { length bytes.old.bytes + (length (front.now ++ back.now) + 4)
        ≤ bytes.old.capacity → IsOk result }
    ensures grows { bytes.old.capacity ≤ bytes.new.capacity }
    ensures err { OnErr result (bytes.new ≡ bytes.old) }
{
    let count = front.len() + back.len();
    let [low, high] = (count as u16).to_le_bytes();
    bytes.reserve(count + 4)?;
    bytes.push_slice(front)?;
    bytes.push_both(back, &[number, low, high, tag])
}

/// The change of a message buffer that stands at the end of bytes, which lend it those that it
/// carries.
#[derive(Clone, Copy)]
pub struct LastMessageChange<'a> {
    /// The buffer that changes.
    pub buffer: usize,
    /// How it changes.
    pub change: MessageChange<'a>,
    /// The bytes before the change.
    pub rest: &'a [u8],
}

// The buffer whose number is that far from the end, with its change, and the rest. It is a macro,
// so that a change is made where it stays: one that is handed on is copied, at each step back.
macro_rules! last {
    ($bytes:expr, $at:expr, $change:expr, $rest:expr) => {
        LastMessageChange {
            buffer: usize::from(end_byte($bytes, $at)),
            change: $change,
            rest: $rest,
        }
    };
}

// The bytes that a change carries, before the four of its fields and its tag, and those before
// them.
#[inline(always)]
fn carried(bytes: &[u8]) -> (&[u8], &[u8])
    requires { 4 + end_short 2 bytes.now ≤ length bytes.now }
    ensures carried { result.0.now ≡ bytes_before 4 (end_short 2 bytes.now) bytes.now }
    ensures rest { result.1.now ≡ all_but (4 + end_short 2 bytes.now) bytes.now }
{
    let size = usize::from(end_short(bytes, 2));
    (bytes_before(bytes, 4, size), all_but(bytes, 4 + size))
}

// Reads the change of the place at a side, where that stands at the end.
#[inline(always)]
fn last_holder(bytes: &[u8], side: Side) -> LastMessageChange<'_>
    requires there { 4 ≤ length bytes.now }
    requires tag { end_byte 1 bytes.now ≡ tag_of_side side }
    ensures buffer { result.buffer ≡ last_message_buffer bytes.now }
    ensures change { the_message_change result.change ≡ last_message_change bytes.now }
    ensures rest { result.rest.now ≡ all_but (message_change_length bytes.now) bytes.now }
{
    let task = number_of_byte(end_byte(bytes, 2));
    last!(
        bytes,
        3,
        MessageChange::SetHolder { side, task },
        all_but(bytes, 4)
    )
}

/// Reads the change of a message buffer that stands at the end of the bytes.
#[inline(always)]
pub fn last_message_change(bytes: &[u8]) -> LastMessageChange<'_>
    requires { EndsInMessageChange bytes.now }
    ensures buffer { result.buffer ≡ last_message_buffer bytes.now }
    ensures change { the_message_change result.change ≡ last_message_change bytes.now }
    ensures rest { result.rest.now ≡ all_but (message_change_length bytes.now) bytes.now }
{
    match end_byte(bytes, 1) {
        PUSH_MESSAGE => {
            let (front, rest) = carried(bytes);
            last!(bytes, 4, MessageChange::Push { front, back: &[] }, rest)
        }
        DROP_MESSAGE => last!(bytes, 2, MessageChange::Drop, all_but(bytes, 2)),
        TAKE_MESSAGE => last!(bytes, 2, MessageChange::Take, all_but(bytes, 2)),
        UNTAKE_MESSAGE => {
            let (front, rest) = carried(bytes);
            last!(bytes, 4, MessageChange::Untake { front, back: &[] }, rest)
        }
        SET_READER => last_holder(bytes, Side::Reader),
        SET_WRITER => last_holder(bytes, Side::Writer),
        CLEAR_MESSAGES => last!(bytes, 2, MessageChange::Clear, all_but(bytes, 2)),
        _ => {
            let (front, rest) = carried(bytes);
            last!(bytes, 4, MessageChange::Fill { front, back: &[] }, rest)
        }
    }
}

/// A law: each change of a message buffer that was put behind bytes is read at their end, and
/// leaves those before.
pub fn each_message_change_is_read_back()
    ensures { EachMessageChangeIsReadBack }
{}
