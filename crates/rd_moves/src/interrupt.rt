//! Interrupts: what one does, between two moves of tasks.

ghost use Rattle.std.specs.Prelude.{◌≡◌};

use rd_bytes::bytes::Bytes;
use rd_notify::action::Action;

/// What an interrupt does. It has no task, so it never waits and never fails; tasks and queues go
/// by number, from 0. Its bytes are its own, or stand where they were read.
#[derive(Drop)]
pub enum Interrupt<B: Drop = Bytes> {
    /// `isr send Q HEX`: an item goes to the back of the queue (`xQueueSendFromISR`): these bytes,
    /// cut or filled with zero bytes to the queue's item size.
    Send {
        queue: usize,
        bytes: B,
    },
    /// `isr notify K N N ACTION`: a notification with this value comes to an entry of the task, 0
    /// to 3 (`xTaskNotifyIndexedFromISR`).
    Notify {
        task: usize,
        index: usize,
        value: u32,
        action: Action,
    },
}

impl Interrupt {
    /// An equal interrupt.
    pub fn copy(&self) -> Interrupt
        ensures { result ≡ self.now }
    {
        match self {
            Interrupt::Send { queue, bytes } => Interrupt::Send {
                queue: *queue,
                bytes: Bytes::from_slice(bytes.as_slice()),
            },
            &Interrupt::Notify {
                task,
                index,
                value,
                action,
            } => Interrupt::Notify {
                task,
                index,
                value,
                action,
            },
        }
    }
}
