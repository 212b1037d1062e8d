//! The changes of a queue set as bytes: its fields, and its tag.

ghost use Rattle.std.specs.Prelude.{◌≡◌, ◌+◌, ◌≤◌, ◌++◌, length, IsOk, OnOk, OnErr};
ghost use Rattle.rd_bytes.specs.Ends.{all_but};
ghost use Rattle.rd_bytes.specs.Layouts.{EachRowIsReadBack, EndsInRow, FitsLayout};
ghost use Rattle.rd_bytes.specs.Layouts.{laid_out, last_length, last_row};
ghost use Rattle.rd_queue.specs.PackedQueueSetChanges.{queue_set_layout};

use crate::queue_set_change::QueueSetChange;
use rd_bytes::byte_stack::ByteStack;
use rd_bytes::ends::{all_but, end_byte};
use rd_bytes::no_memory::NoMemory;
use rd_bytes::tag::{
    DEL_WAIT, DROP_HANDLE, INS_WAIT, PUSH_HANDLE, SELECTING_LIST, TAKE_HANDLE, UNTAKE_HANDLE,
};

impl QueueSetChange {
    /// Puts the bytes of this change of a queue set behind the others. It takes no memory where
    /// there is room for them. Where there is no memory for them, nothing has changed. (Called:
    /// what packs changes of all kinds would be larger than what the compiler inlines.)
    #[inline(never)]
    pub fn pack(self, queue_set: usize, bytes: &mut ByteStack) -> Result<(), NoMemory>
        requires { FitsLayout queue_set_layout queue_set self }
        ensures ok { OnOk result (bytes.new.bytes
            ≡ bytes.old.bytes ++ laid_out queue_set_layout queue_set self) }
        ensures enough { length bytes.old.bytes
            + length (laid_out queue_set_layout queue_set self) ≤ bytes.old.capacity
            → IsOk result }
        ensures grows { bytes.old.capacity ≤ bytes.new.capacity }
        ensures err { OnErr result (bytes.new ≡ bytes.old) }
    {
        let number = queue_set as u8;
        match self {
            QueueSetChange::InsWait { index, task } => {
                bytes.push(&[SELECTING_LIST, number, index as u8, task as u8, INS_WAIT])
            }
            QueueSetChange::DelWait { index } => {
                bytes.push(&[SELECTING_LIST, number, index as u8, DEL_WAIT])
            }
            QueueSetChange::PushHandle { queue } => {
                bytes.push(&[number, queue as u8, PUSH_HANDLE])
            }
            QueueSetChange::DropHandle => bytes.push(&[number, DROP_HANDLE]),
            QueueSetChange::TakeHandle => bytes.push(&[number, TAKE_HANDLE]),
            QueueSetChange::UntakeHandle { queue } => {
                bytes.push(&[number, queue as u8, UNTAKE_HANDLE])
            }
        }
    }
}

/// The change of a queue set that stands at the end of bytes.
#[derive(Clone, Copy)]
pub struct LastQueueSetChange<'a> {
    /// The set that changes.
    pub queue_set: usize,
    /// How it changes.
    pub change: QueueSetChange,
    /// The bytes before the change.
    pub rest: &'a [u8],
}

// The set whose number is that far from the end, with its change of so many bytes. It is a macro,
// so that a change is made where it stays: one that is handed on is copied, at each step back.
macro_rules! last {
    ($bytes:expr, $at:expr, $change:expr, $length:expr) => {
        LastQueueSetChange {
            queue_set: usize::from(end_byte($bytes, $at)),
            change: $change,
            rest: all_but($bytes, $length),
        }
    };
}

/// Reads the change of a queue set that stands at the end of the bytes.
#[inline(always)]
pub fn last_queue_set_change(bytes: &[u8]) -> LastQueueSetChange<'_>
    requires { EndsInRow queue_set_layout bytes.now }
    ensures row { last_row queue_set_layout bytes.now ≡ (result.queue_set, result.change) }
    ensures rest { result.rest.now ≡ all_but (last_length queue_set_layout bytes.now) bytes.now }
{
    match end_byte(bytes, 1) {
        INS_WAIT => {
            let index = usize::from(end_byte(bytes, 3));
            let task = usize::from(end_byte(bytes, 2));
            last!(bytes, 4, QueueSetChange::InsWait { index, task }, 5)
        }
        DEL_WAIT => {
            let index = usize::from(end_byte(bytes, 2));
            last!(bytes, 3, QueueSetChange::DelWait { index }, 4)
        }
        PUSH_HANDLE => {
            let queue = usize::from(end_byte(bytes, 2));
            last!(bytes, 3, QueueSetChange::PushHandle { queue }, 3)
        }
        DROP_HANDLE => last!(bytes, 2, QueueSetChange::DropHandle, 2),
        TAKE_HANDLE => last!(bytes, 2, QueueSetChange::TakeHandle, 2),
        _ => {
            let queue = usize::from(end_byte(bytes, 2));
            last!(bytes, 3, QueueSetChange::UntakeHandle { queue }, 3)
        }
    }
}

/// A law: each change of a queue set that was put behind bytes is read at their end, and leaves
/// those before.
pub fn each_queue_set_change_is_read_back()
    ensures { EachRowIsReadBack queue_set_layout }
{}
