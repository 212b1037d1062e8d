//! The changes of a queue as bytes: those that a change carries, its other fields, and its tag.

ghost use Rattle.std.specs.Prelude.{◌≡◌, ◌+◌, ◌<◌, ◌≤◌, ◌++◌, length, IsOk, OnOk, OnErr};
ghost use Rattle.rd_bytes.specs.Ends.{all_but, bytes_before, end_byte, end_short};
ghost use Rattle.rd_bytes.specs.Layouts.{EachRowIsReadBack, EndsInRow, FitsLayout};
ghost use Rattle.rd_bytes.specs.Layouts.{laid_out, last_length, last_row};
ghost use Rattle.rd_queue.specs.Changes.{the_queue_change, Fill};
ghost use Rattle.rd_queue.specs.PackedChanges.{byte_of_list, list_of_byte, queue_layout};

use crate::change::QueueChange;
use crate::waiting_list::WaitingList;
use rd_bytes::byte_stack::ByteStack;
use rd_bytes::ends::{all_but, byte_of_number, bytes_before, end_byte, end_short, number_of_byte};
use rd_bytes::no_memory::NoMemory;
use rd_bytes::tag::{
    CLEAR_QUEUE, DEL_WAIT, FILL_QUEUE, INS_WAIT, PUT_BACK, PUT_FRONT, RECEIVING_LIST, SENDING_LIST,
    SET_ITEM, SET_MEMBER, TAKE_BACK, TAKE_FRONT,
};

/// The byte of a list.
pub fn byte_of_list(list: WaitingList) -> u8
    ensures { result ≡ byte_of_list list }
{
    match list {
        WaitingList::Receiving => RECEIVING_LIST,
        WaitingList::Sending => SENDING_LIST,
    }
}

/// The list of such a byte.
pub fn list_of_byte(byte: u8) -> WaitingList
    ensures { result ≡ list_of_byte byte }
{
    if byte == RECEIVING_LIST {
        WaitingList::Receiving
    } else {
        WaitingList::Sending
    }
}

impl QueueChange<'_> {
    /// Puts the bytes of this change of a queue behind the others. It takes no memory where there
    /// is room for them. Where there is no memory for them, nothing has changed.
    #[inline(always)]
    pub fn pack(self, queue: usize, bytes: &mut ByteStack) -> Result<(), NoMemory>
        requires { FitsLayout queue_layout queue (the_queue_change self) }
        ensures ok { OnOk result (bytes.new.bytes
            ≡ bytes.old.bytes ++ laid_out queue_layout queue (the_queue_change self.entry)) }
        ensures enough { length bytes.old.bytes
            + length (laid_out queue_layout queue (the_queue_change self.entry))
            ≤ bytes.old.capacity → IsOk result }
        ensures grows { bytes.old.capacity ≤ bytes.new.capacity }
        ensures err { OnErr result (bytes.new ≡ bytes.old) }
    {
        let number = queue as u8;
        match self {
            QueueChange::InsWait { list, index, task } => {
                let list = byte_of_list(list);
                bytes.push(&[list, number, index as u8, task as u8, INS_WAIT])
            }
            QueueChange::DelWait { list, index } => {
                bytes.push(&[byte_of_list(list), number, index as u8, DEL_WAIT])
            }
            QueueChange::PutBack { item } => {
                let [low, high] = (item.len() as u16).to_le_bytes();
                bytes.push_both(item, &[number, low, high, PUT_BACK])
            }
            QueueChange::TakeBack => bytes.push(&[number, TAKE_BACK]),
            QueueChange::PutFront { item } => {
                let [low, high] = (item.len() as u16).to_le_bytes();
                bytes.push_both(item, &[number, low, high, PUT_FRONT])
            }
            QueueChange::TakeFront => bytes.push(&[number, TAKE_FRONT]),
            QueueChange::SetItem { index, item } => {
                let [low, high] = (item.len() as u16).to_le_bytes();
                bytes.push_both(item, &[number, index as u8, low, high, SET_ITEM])
            }
            QueueChange::Clear => bytes.push(&[number, CLEAR_QUEUE]),
            QueueChange::Fill { front, back } => pack_fill(number, front, back, bytes),
            QueueChange::SetMember { queue_set } => {
                bytes.push(&[number, byte_of_number(queue_set), SET_MEMBER])
            }
        }
    }
}

// Puts the bytes of `Fill` behind the others, with those that it carries in two pieces that follow
// one another.
fn pack_fill(number: u8, front: &[u8], back: &[u8], bytes: &mut ByteStack) -> Result<(), NoMemory>
    requires { length (front.now ++ back.now) < 65536 }
    ensures ok { OnOk result (bytes.new.bytes
        ≡ bytes.old.bytes ++ laid_out queue_layout number (Fill (front.now ++ back.now))) }
    ensures enough { length bytes.old.bytes
        + length (laid_out queue_layout number (Fill (front.now ++ back.now)))
        ≤ bytes.old.capacity → IsOk result }
    ensures grows { bytes.old.capacity ≤ bytes.new.capacity }
    ensures err { OnErr result (bytes.new ≡ bytes.old) }
{
    let count = front.len() + back.len();
    let [low, high] = (count as u16).to_le_bytes();
    bytes.reserve(count + 4)?;
    bytes.push_slice(front)?;
    bytes.push_both(back, &[number, low, high, FILL_QUEUE])
}

/// The change of a queue that stands at the end of bytes, which lend it those that it carries.
#[derive(Clone, Copy)]
pub struct LastQueueChange<'a> {
    /// The queue that changes.
    pub queue: usize,
    /// How it changes.
    pub change: QueueChange<'a>,
    /// The bytes before the change.
    pub rest: &'a [u8],
}

// The queue whose number is that far from the end, with its change, and the rest. It is a macro, so
// that a change is made where it stays: one that is handed on is copied, at each step back.
macro_rules! last {
    ($bytes:expr, $at:expr, $change:expr, $rest:expr) => {
        LastQueueChange {
            queue: usize::from(end_byte($bytes, $at)),
            change: $change,
            rest: $rest,
        }
    };
}

// The bytes that a change carries, before so many of its fields and its tag, and those before them.
#[inline(always)]
fn carried(bytes: &[u8], fields: usize) -> (&[u8], &[u8])
    requires some { 3 ≤ length bytes.now }
    requires there { fields + end_short 2 bytes.now ≤ length bytes.now }
    ensures carried { result.0.now ≡ bytes_before fields (end_short 2 bytes.now) bytes.now }
    ensures rest { result.1.now ≡ all_but (fields + end_short 2 bytes.now) bytes.now }
{
    let size = usize::from(end_short(bytes, 2));
    (
        bytes_before(bytes, fields, size),
        all_but(bytes, fields + size),
    )
}

// Reads the change that puts a task into a list, where that stands at the end.
#[inline(always)]
fn last_insertion(bytes: &[u8]) -> LastQueueChange<'_>
    requires there { 5 ≤ length bytes.now }
    requires tag { end_byte 1 bytes.now ≡ INS_WAIT }
    ensures row { last_row queue_layout bytes.now
        ≡ (result.queue, the_queue_change result.change) }
    ensures rest { result.rest.now ≡ all_but (last_length queue_layout bytes.now) bytes.now }
{
    let list = list_of_byte(end_byte(bytes, 5));
    let index = usize::from(end_byte(bytes, 3));
    let task = usize::from(end_byte(bytes, 2));
    last!(
        bytes,
        4,
        QueueChange::InsWait { list, index, task },
        all_but(bytes, 5)
    )
}

// Reads the change that takes a task out of a list, where that stands at the end.
#[inline(always)]
fn last_deletion(bytes: &[u8]) -> LastQueueChange<'_>
    requires there { 4 ≤ length bytes.now }
    requires tag { end_byte 1 bytes.now ≡ DEL_WAIT }
    ensures row { last_row queue_layout bytes.now
        ≡ (result.queue, the_queue_change result.change) }
    ensures rest { result.rest.now ≡ all_but (last_length queue_layout bytes.now) bytes.now }
{
    let list = list_of_byte(end_byte(bytes, 4));
    let index = usize::from(end_byte(bytes, 2));
    last!(
        bytes,
        3,
        QueueChange::DelWait { list, index },
        all_but(bytes, 4)
    )
}

/// Reads the change of a queue that stands at the end of the bytes.
#[inline(always)]
pub fn last_queue_change(bytes: &[u8]) -> LastQueueChange<'_>
    requires { EndsInRow queue_layout bytes.now }
    ensures row { last_row queue_layout bytes.now
        ≡ (result.queue, the_queue_change result.change) }
    ensures rest { result.rest.now ≡ all_but (last_length queue_layout bytes.now) bytes.now }
{
    match end_byte(bytes, 1) {
        INS_WAIT => last_insertion(bytes),
        DEL_WAIT => last_deletion(bytes),
        PUT_BACK => {
            let (item, rest) = carried(bytes, 4);
            last!(bytes, 4, QueueChange::PutBack { item }, rest)
        }
        PUT_FRONT => {
            let (item, rest) = carried(bytes, 4);
            last!(bytes, 4, QueueChange::PutFront { item }, rest)
        }
        TAKE_BACK => last!(bytes, 2, QueueChange::TakeBack, all_but(bytes, 2)),
        TAKE_FRONT => last!(bytes, 2, QueueChange::TakeFront, all_but(bytes, 2)),
        SET_ITEM => {
            let (item, rest) = carried(bytes, 5);
            let index = usize::from(end_byte(bytes, 4));
            last!(bytes, 5, QueueChange::SetItem { index, item }, rest)
        }
        CLEAR_QUEUE => last!(bytes, 2, QueueChange::Clear, all_but(bytes, 2)),
        FILL_QUEUE => {
            let (front, rest) = carried(bytes, 4);
            last!(bytes, 4, QueueChange::Fill { front, back: &[] }, rest)
        }
        _ => {
            let queue_set = number_of_byte(end_byte(bytes, 2));
            last!(
                bytes,
                3,
                QueueChange::SetMember { queue_set },
                all_but(bytes, 3)
            )
        }
    }
}

/// A law: each change of a queue that was put behind bytes is read at their end, and leaves those
/// before.
pub fn each_queue_change_is_read_back()
    ensures { EachRowIsReadBack queue_layout }
{}
