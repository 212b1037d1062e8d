//! What isn't as it must be.

use crate::refused::Tried;
use rd_hall::look::Look;
use thiserror::Error;

/// What isn't as it must be.
#[derive(Clone, Copy, Debug, Error)]
pub enum Wrong {
    /// An application isn't one.
    #[error("the application is refused")]
    Application,
    /// It was refused, where only one allocation fails.
    #[error("{at} was refused twice")]
    RefusedTwice {
        at: Tried,
    },
    /// A call answers another error than that there is no memory.
    #[error("{at} is refused")]
    Refusal {
        at: Tried,
    },
    /// A line is no command.
    #[error("'{line}' is no command")]
    Line {
        line: &'static str,
    },
    /// A line has another reply.
    #[error("the reply to '{line}' is another one")]
    Reply {
        line: &'static str,
    },
    /// A refused call has changed the target.
    #[error("{at} was refused, and the target has changed")]
    Target {
        at: Tried,
    },
    /// A refused call has changed something else behind the lock.
    #[error("{at} was refused, and {before:?} has become {after:?}")]
    Behind {
        at: Tried,
        before: Look,
        after: Look,
    },
    /// A session has ended before all its lines were answered.
    #[error("a session has ended too early")]
    Ended,
    /// The receipts aren't those of the history.
    #[error("the history is broken")]
    Broken,
    /// A timeline has another number of moves than it must have.
    #[error("{done} moves are done, and {undone} undone, where there must be {at}")]
    Moves {
        done: usize,
        undone: usize,
        at: usize,
    },
    /// A call of a timeline ends elsewhere than it must.
    #[error("a call ends at {done}, and must end elsewhere or otherwise")]
    End {
        done: usize,
    },
    /// Going back to the start doesn't give the target at boot.
    #[error("the target at 0 isn't that at boot")]
    Boot,
    /// A search answers what isn't so, or what nobody asked for.
    #[error("the answer of a search is another one")]
    Answer,
    /// An order that was found doesn't lead to what was looked for.
    #[error("the order that was found leads elsewhere")]
    Order,
}
