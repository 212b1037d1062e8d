//! The causes.

ghost use Rattle.std.specs.Prelude.{◌≡◌};

use rd_bytes::no_memory::NoMemory;
use thiserror::Error;

/// Why a command was refused, or a session wasn't let in. Nothing has changed.
#[derive(Clone, Copy, Debug, PartialEq, Eq, Error)]
pub enum Refusal {
    /// The core is idle.
    #[error("no task is on this core")]
    NoTask,
    /// There is no tick after this one.
    #[error("the tick is the last that there is")]
    TickLimit,
    /// Only so many of the moves done have a record to go back by.
    #[error("there are only {kept} moves to go back")]
    TooFar { kept: usize },
    /// Fewer moves are undone than would be made again.
    #[error("fewer moves are undone than would be made again")]
    NothingUndone,
    /// The moves done are at their limit.
    #[error("the moves done are at their limit")]
    MovesFull,
    /// Another session has the wheel: the one with this number.
    #[error("session {holder} has the wheel")]
    Held { holder: u32 },
    /// There is no such core, register, notification, object or task.
    #[error("there is no such core, register, notification, object or task")]
    NoSuch,
    /// The edit would leave something that can't be.
    #[error("the edit would leave something that can't be")]
    BadEdit,
    /// The application has no interrupts: its profile is 1.
    #[error("an application of profile 1 has no interrupts")]
    NoIsr,
    /// There is no free place in the history.
    #[error("the history is full")]
    HistoryFull,
    /// A growth was refused.
    #[error("there is no memory")]
    NoMemory,
    /// The line is no command.
    #[error("the line is no command")]
    Syntax,
    /// The line has more than 1,024 bytes.
    #[error("the line has more than 1,024 bytes")]
    LineTooLong,
    /// The session has as many watches as it may have.
    #[error("the session has as many watches as it may have")]
    WatchesFull,
    /// The session has no watch with this number.
    #[error("the session has no watch with this number")]
    NoWatch,
    /// The session doesn't have the wheel that it would give.
    #[error("the session doesn't have the wheel that it would give")]
    NotHolder,
    /// The session's receipts aren't those of the history.
    #[error("the session's receipts aren't those of the history")]
    Broken,
    /// As many sessions have joined as may.
    #[error("as many sessions have joined as may")]
    Full,
}

impl From<NoMemory> for Refusal {
    ghost use Rattle.rd_refusal.specs.declared.refusal.Refusal.{Refusal};

    ghost from_gives = { λ _ refusal. refusal ≡ Refusal.NoMemory };

    fn from(_error: NoMemory) -> Refusal {
        Refusal::NoMemory
    }
}
