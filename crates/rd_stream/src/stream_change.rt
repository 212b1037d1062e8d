//! The primitive changes of a stream buffer, each with the change that undoes it.

ghost use Rattle.std.specs.Prelude.{◌≡◌, ◌+◌};
ghost use Rattle.rd_stream.specs.StreamChanges.{stream_applied, stream_inverse_of};
ghost use Rattle.rd_stream.specs.StreamChanges.{stream_saved_bytes, the_stream_change};
ghost use Rattle.rd_stream.specs.StreamChanges.{StreamFits, EachStreamChangeIsUndone};

use crate::side::Side;
use crate::stream_buf::StreamBuf;

/// A primitive change of a stream buffer. An index counts from the front. Its bytes are borrowed,
/// in two pieces that follow one another: from the buffer, from a task's data, or from where
/// changes are kept.
#[derive(Clone, Copy)]
pub enum StreamChange<'a> {
    /// The bytes go to the back.
    PushBytes { front: &'a [u8], back: &'a [u8] },
    /// So many bytes at the back leave.
    DropBytes { count: usize },
    /// So many bytes at the front leave.
    TakeBytes { count: usize },
    /// The bytes go to the front.
    UntakeBytes { front: &'a [u8], back: &'a [u8] },
    /// The byte at the index has the value.
    SetByte { index: usize, value: u8 },
    /// The trigger level is this one.
    SetTrigger { trigger: usize },
    /// The place at the side names the task, or nobody.
    SetHolder { side: Side, task: Option<usize> },
    /// All bytes leave.
    Clear,
    /// An empty buffer gets the bytes.
    Fill { front: &'a [u8], back: &'a [u8] },
}

impl StreamChange<'_> {
    /// How much it takes in a record: one, and the bytes that it carries.
    pub fn cost(self) -> usize
        ensures { result ≡ 1 + stream_saved_bytes (the_stream_change self.entry) }
    {
        match self {
            StreamChange::PushBytes { front, back }
            | StreamChange::UntakeBytes { front, back }
            | StreamChange::Fill { front, back } => 1 + front.len() + back.len(),
            StreamChange::DropBytes { .. }
            | StreamChange::TakeBytes { .. }
            | StreamChange::SetByte { .. }
            | StreamChange::SetTrigger { .. }
            | StreamChange::SetHolder { .. }
            | StreamChange::Clear => 1,
        }
    }
}

impl StreamBuf {
    /// Makes a change. It takes no memory.
    #[inline(always)]
    pub fn apply(&mut self, change: StreamChange<'_>)
        requires { StreamFits self.old (the_stream_change change) }
        ensures { self.new ≡ stream_applied self.old (the_stream_change change.entry) }
    {
        match change {
            StreamChange::PushBytes { front, back } => self.write_halves(front, back),
            StreamChange::DropBytes { count } => self.unwrite(count),
            StreamChange::TakeBytes { count } => self.skip(count),
            StreamChange::UntakeBytes { front, back } => self.unread(front, back),
            StreamChange::SetByte { index, value } => self.set_byte(index, value),
            StreamChange::SetTrigger { trigger } => self.set_trigger(trigger),
            StreamChange::SetHolder { side, task } => self.set_holder(side, task),
            StreamChange::Clear => self.clear(),
            StreamChange::Fill { front, back } => self.fill(front, back),
        }
    }

    /// The change that undoes `change`, made at this buffer, which lends it its bytes. It takes no
    /// memory.
    #[inline(always)]
    pub fn inverse_of(&self, change: StreamChange<'_>) -> StreamChange<'_>
        requires { StreamFits self.now (the_stream_change change) }
        ensures { the_stream_change result
            ≡ stream_inverse_of self.now (the_stream_change change.entry) }
    {
        match change {
            StreamChange::PushBytes { front, back } => StreamChange::DropBytes {
                count: front.len() + back.len(),
            },
            StreamChange::DropBytes { count } => {
                let (front, back) = self.last(count);
                StreamChange::PushBytes { front, back }
            }
            StreamChange::TakeBytes { count } => {
                let (front, back) = self.first(count);
                StreamChange::UntakeBytes { front, back }
            }
            StreamChange::UntakeBytes { front, back } => StreamChange::TakeBytes {
                count: front.len() + back.len(),
            },
            StreamChange::SetByte { index, .. } => StreamChange::SetByte {
                index,
                value: self.byte(index),
            },
            StreamChange::SetTrigger { .. } => StreamChange::SetTrigger {
                trigger: self.trigger(),
            },
            StreamChange::SetHolder { side, .. } => StreamChange::SetHolder {
                side,
                task: self.holder(side),
            },
            StreamChange::Clear => {
                let (front, back) = self.bytes();
                StreamChange::Fill { front, back }
            }
            StreamChange::Fill { .. } => StreamChange::Clear,
        }
    }
}

/// A law: each change of a stream buffer is undone by its inverse, to the last field of the buffer.
pub fn each_stream_change_is_undone()
    ensures { EachStreamChangeIsUndone }
{}
