//! The primitive changes of a message buffer, each with the change that undoes it.

ghost use Rattle.std.specs.Prelude.{◌≡◌, ◌+◌};
ghost use Rattle.rd_stream.specs.MessageChanges.{message_applied, message_inverse_of};
ghost use Rattle.rd_stream.specs.MessageChanges.{message_saved_bytes, the_message_change};
ghost use Rattle.rd_stream.specs.MessageChanges.{EachMessageChangeIsUndone, MessageFits};

use crate::message_buf::MessageBuf;
use crate::side::Side;

/// A primitive change of a message buffer. The bytes of a message, or of messages, are in two
/// pieces that follow one another. They are borrowed: from the buffer, from a task's data, or from
/// where changes are kept.
#[derive(Clone, Copy)]
pub enum MessageChange<'a> {
    /// The message goes to the back.
    Push { front: &'a [u8], back: &'a [u8] },
    /// The message at the back leaves.
    Drop,
    /// The message at the front leaves.
    Take,
    /// The message goes to the front.
    Untake { front: &'a [u8], back: &'a [u8] },
    /// The place at the side names the task, or nobody.
    SetHolder { side: Side, task: Option<usize> },
    /// All messages leave.
    Clear,
    /// An empty buffer gets the messages that lie in these bytes, one after the other, those in
    /// front first.
    Fill { front: &'a [u8], back: &'a [u8] },
}

impl MessageChange<'_> {
    /// How much it takes in a record: one, and the bytes that it carries.
    pub fn cost(self) -> usize
        ensures { result ≡ 1 + message_saved_bytes (the_message_change self.entry) }
    {
        match self {
            MessageChange::Push { front, back }
            | MessageChange::Untake { front, back }
            | MessageChange::Fill { front, back } => 1 + front.len() + back.len(),
            MessageChange::Drop
            | MessageChange::Take
            | MessageChange::SetHolder { .. }
            | MessageChange::Clear => 1,
        }
    }
}

impl MessageBuf {
    /// Makes a change. It takes no memory.
    #[inline(always)]
    pub fn apply(&mut self, change: MessageChange<'_>)
        requires { MessageFits self.old (the_message_change change) }
        ensures { self.new ≡ message_applied self.old (the_message_change change.entry) }
    {
        match change {
            MessageChange::Push { front, back } => self.write_halves(front, back),
            MessageChange::Drop => self.unwrite(),
            MessageChange::Take => self.skip(),
            MessageChange::Untake { front, back } => self.unread(front, back),
            MessageChange::SetHolder { side, task } => self.set_holder(side, task),
            MessageChange::Clear => self.clear(),
            MessageChange::Fill { front, back } => self.fill(front, back),
        }
    }

    /// The change that undoes `change`, made at this buffer, which lends it its bytes. It takes no
    /// memory.
    #[inline(always)]
    pub fn inverse_of(&self, change: MessageChange<'_>) -> MessageChange<'_>
        requires { MessageFits self.now (the_message_change change) }
        ensures { the_message_change result
            ≡ message_inverse_of self.now (the_message_change change.entry) }
    {
        match change {
            MessageChange::Push { .. } => MessageChange::Drop,
            MessageChange::Drop => {
                let (front, back) = self.last();
                MessageChange::Push { front, back }
            }
            MessageChange::Take => {
                let (front, back) = self.first();
                MessageChange::Untake { front, back }
            }
            MessageChange::Untake { .. } => MessageChange::Take,
            MessageChange::SetHolder { side, .. } => MessageChange::SetHolder {
                side,
                task: self.holder(side),
            },
            MessageChange::Clear => {
                let (front, back) = self.bytes();
                MessageChange::Fill { front, back }
            }
            MessageChange::Fill { .. } => MessageChange::Clear,
        }
    }
}

/// A law: each change of a message buffer is undone by its inverse, to the last field of the
/// buffer.
pub fn each_message_change_is_undone()
    ensures { EachMessageChangeIsUndone }
{}
