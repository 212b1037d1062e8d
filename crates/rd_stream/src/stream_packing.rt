//! The changes of a stream buffer as bytes: those that a change carries, its other fields, and its
//! tag.

ghost use Rattle.std.specs.Prelude.{◌≡◌, ◌+◌, ◌<◌, ◌≤◌, ◌++◌, length, IsOk, OnOk, OnErr};
ghost use Rattle.rd_bytes.specs.Ends.{all_but, bytes_before, end_byte, end_short};
ghost use Rattle.rd_stream.specs.StreamChanges.{the_stream_change};
ghost use Rattle.rd_stream.specs.PackedStreamChanges.{bytes_packed, number_packed};
ghost use Rattle.rd_stream.specs.PackedStreamChanges.{stream_packed};
ghost use Rattle.rd_stream.specs.Sides.{tag_of_side};
ghost use Rattle.rd_stream.specs.PackedStreamChanges.{last_stream, last_stream_change};
ghost use Rattle.rd_stream.specs.PackedStreamChanges.{stream_change_length, EndsInStreamChange};
ghost use Rattle.rd_stream.specs.PackedStreamChanges.{StreamHasBytes};
ghost use Rattle.rd_stream.specs.PackedStreamChanges.{EachStreamChangeIsReadBack};

use crate::side::{Side, tag_of_side};
use crate::stream_change::StreamChange;
use rd_bytes::byte_stack::ByteStack;
use rd_bytes::ends::{all_but, byte_of_number, bytes_before, end_byte, end_short, number_of_byte};
use rd_bytes::no_memory::NoMemory;
use rd_bytes::tag::{
    CLEAR_BYTES, DROP_BYTES, FILL_BYTES, PUSH_BYTES, SET_BYTE, SET_READER, SET_TRIGGER, SET_WRITER,
    STREAM_HOLDER, TAKE_BYTES, UNTAKE_BYTES,
};

impl StreamChange<'_> {
    /// Puts the bytes of this change of a stream buffer behind the others. It takes no memory where
    /// there is room for them. Where there is no memory for them, nothing has changed. (Called:
    /// what packs changes of all kinds would be larger than what the compiler inlines.)
    #[inline(never)]
    pub fn pack(self, stream: usize, bytes: &mut ByteStack) -> Result<(), NoMemory>
        requires { StreamHasBytes stream (the_stream_change self) }
        ensures ok { OnOk result (bytes.new.bytes
            ≡ bytes.old.bytes ++ stream_packed stream (the_stream_change self.entry)) }
        ensures enough { length bytes.old.bytes
            + length (stream_packed stream (the_stream_change self.entry)) ≤ bytes.old.capacity
            → IsOk result }
        ensures grows { bytes.old.capacity ≤ bytes.new.capacity }
        ensures err { OnErr result (bytes.new ≡ bytes.old) }
    {
        let number = stream as u8;
        match self {
            StreamChange::PushBytes { front, back } => {
                pack_bytes(PUSH_BYTES, number, front, back, bytes)
            }
            StreamChange::DropBytes { count } => pack_number(DROP_BYTES, number, count, bytes),
            StreamChange::TakeBytes { count } => pack_number(TAKE_BYTES, number, count, bytes),
            StreamChange::UntakeBytes { front, back } => {
                pack_bytes(UNTAKE_BYTES, number, front, back, bytes)
            }
            StreamChange::SetByte { index, value } => {
                let [low, high] = (index as u16).to_le_bytes();
                bytes.push(&[number, low, high, value, SET_BYTE])
            }
            StreamChange::SetTrigger { trigger } => {
                pack_number(SET_TRIGGER, number, trigger, bytes)
            }
            StreamChange::SetHolder { side, task } => {
                let task = byte_of_number(task);
                bytes.push(&[STREAM_HOLDER, number, task, tag_of_side(side)])
            }
            StreamChange::Clear => bytes.push(&[number, CLEAR_BYTES]),
            StreamChange::Fill { front, back } => {
                pack_bytes(FILL_BYTES, number, front, back, bytes)
            }
        }
    }
}

// Puts a change with a number of two bytes behind the others.
#[inline(always)]
fn pack_number(tag: u8, stream: u8, number: usize, bytes: &mut ByteStack) -> Result<(), NoMemory>
    requires { number < 65536 }
    ensures ok { OnOk result (bytes.new.bytes
        ≡ bytes.old.bytes ++ number_packed tag stream number) }
    ensures enough { length bytes.old.bytes + length (number_packed tag stream number)
        ≤ bytes.old.capacity → IsOk result }
    ensures grows { bytes.old.capacity ≤ bytes.new.capacity }
    ensures err { OnErr result (bytes.new ≡ bytes.old) }
{
    let [low, high] = (number as u16).to_le_bytes();
    bytes.push(&[stream, low, high, tag])
}

// Puts a change that carries bytes behind the others, with those that it carries in two pieces that
// follow one another.
fn pack_bytes(
    tag: u8,
    stream: u8,
    front: &[u8],
    back: &[u8],
    bytes: &mut ByteStack,
) -> Result<(), NoMemory>
    requires { length (front.now ++ back.now) < 65536 }
    ensures ok { OnOk result (bytes.new.bytes
        ≡ bytes.old.bytes ++ bytes_packed tag stream (front.now ++ back.now)) }
    ensures enough { length bytes.old.bytes
        + length (bytes_packed tag stream (front.now ++ back.now)) ≤ bytes.old.capacity
        → IsOk result }
    ensures grows { bytes.old.capacity ≤ bytes.new.capacity }
    ensures err { OnErr result (bytes.new ≡ bytes.old) }
{
    let count = front.len() + back.len();
    let [low, high] = (count as u16).to_le_bytes();
    bytes.reserve(count + 4)?;
    bytes.push_slice(front)?;
    bytes.push_both(back, &[stream, low, high, tag])
}

/// The change of a stream buffer that stands at the end of bytes, which lend it those that it
/// carries.
#[derive(Clone, Copy)]
pub struct LastStreamChange<'a> {
    /// The buffer that changes.
    pub stream: usize,
    /// How it changes.
    pub change: StreamChange<'a>,
    /// The bytes before the change.
    pub rest: &'a [u8],
}

// The buffer whose number is that far from the end, with its change of so many bytes. It is a
// macro, so that a change is made where it stays: one that is handed on is copied, at each step
// back.
macro_rules! last {
    ($bytes:expr, $at:expr, $change:expr, $length:expr) => {
        LastStreamChange {
            stream: usize::from(end_byte($bytes, $at)),
            change: $change,
            rest: all_but($bytes, $length),
        }
    };
}

// Likewise with a change that carries bytes.
macro_rules! last_carrying {
    ($bytes:expr, $variant:ident) => {{
        let (front, rest) = carried($bytes);
        LastStreamChange {
            stream: usize::from(end_byte($bytes, 4)),
            change: StreamChange::$variant { front, back: &[] },
            rest,
        }
    }};
}

// The bytes that a change carries, before its four others, and those before them.
#[inline(always)]
fn carried(bytes: &[u8]) -> (&[u8], &[u8])
    requires some { 3 ≤ length bytes.now }
    requires there { 4 + end_short 2 bytes.now ≤ length bytes.now }
    ensures carried { result.0.now ≡ bytes_before 4 (end_short 2 bytes.now) bytes.now }
    ensures rest { result.1.now ≡ all_but (4 + end_short 2 bytes.now) bytes.now }
{
    let size = usize::from(end_short(bytes, 2));
    (bytes_before(bytes, 4, size), all_but(bytes, 4 + size))
}

// Reads the change of a place, of the side that its tag names.
#[inline(always)]
fn last_holder(bytes: &[u8], side: Side) -> LastStreamChange<'_>
    requires there { 4 ≤ length bytes.now }
    requires tag { end_byte 1 bytes.now ≡ tag_of_side side }
    ensures stream { result.stream ≡ last_stream bytes.now }
    ensures change { the_stream_change result.change ≡ last_stream_change bytes.now }
    ensures rest { result.rest.now ≡ all_but (stream_change_length bytes.now) bytes.now }
{
    let task = number_of_byte(end_byte(bytes, 2));
    last!(bytes, 3, StreamChange::SetHolder { side, task }, 4)
}

/// Reads the change of a stream buffer that stands at the end of the bytes. What it carries is in
/// its first piece.
#[inline(always)]
pub fn last_stream_change(bytes: &[u8]) -> LastStreamChange<'_>
    requires { EndsInStreamChange bytes.now }
    ensures stream { result.stream ≡ last_stream bytes.now }
    ensures change { the_stream_change result.change ≡ last_stream_change bytes.now }
    ensures rest { result.rest.now ≡ all_but (stream_change_length bytes.now) bytes.now }
{
    match end_byte(bytes, 1) {
        PUSH_BYTES => last_carrying!(bytes, PushBytes),
        DROP_BYTES => {
            let count = usize::from(end_short(bytes, 2));
            last!(bytes, 4, StreamChange::DropBytes { count }, 4)
        }
        TAKE_BYTES => {
            let count = usize::from(end_short(bytes, 2));
            last!(bytes, 4, StreamChange::TakeBytes { count }, 4)
        }
        UNTAKE_BYTES => last_carrying!(bytes, UntakeBytes),
        SET_BYTE => {
            let index = usize::from(end_short(bytes, 3));
            let value = end_byte(bytes, 2);
            last!(bytes, 5, StreamChange::SetByte { index, value }, 5)
        }
        SET_TRIGGER => {
            let trigger = usize::from(end_short(bytes, 2));
            last!(bytes, 4, StreamChange::SetTrigger { trigger }, 4)
        }
        SET_READER => last_holder(bytes, Side::Reader),
        SET_WRITER => last_holder(bytes, Side::Writer),
        CLEAR_BYTES => last!(bytes, 2, StreamChange::Clear, 2),
        _ => last_carrying!(bytes, Fill),
    }
}

/// A law: each change of a stream buffer that was put behind bytes is read at their end, and leaves
/// those before.
pub fn each_stream_change_is_read_back()
    ensures { EachStreamChangeIsReadBack }
{}
