//! Requests: what one asks of a timeline.

ghost use Rattle.std.specs.Prelude.{◌≡◌};
ghost use Rattle.rd_moves.specs.Requests.{request_for};

use crate::carried::Lent;
use crate::count::Count;
use crate::moves::Move;
use rd_condition::condition::Condition;

/// What one asks of a timeline, with moves that have what they carry. Each count is 1 to 1,000,000.
#[derive(Drop)]
pub enum Request<C: Drop> {
    /// Make this move.
    Go { action: Move<C> },
    /// Go back by so many moves.
    Back { count: Count },
    /// Make so many moves by policy.
    Forward { count: Count },
    /// Make so many moves again that are undone.
    Redo { count: Count },
    /// Make moves by policy until the condition holds, so many at the most.
    Until { condition: Condition, count: Count },
    /// Go back to where the condition held, or as far as records are kept.
    BackUntil { condition: Condition },
    /// Keep the records of the last moves, so many, and give up those before.
    Trim { keep: usize },
}

/// What one looks for, on or back, where the condition is known otherwise.
#[derive(Clone, Copy)]
pub enum Search {
    /// Moves by policy until it holds, so many at the most.
    Until { count: Count },
    /// Back to where it held, or as far as records are kept.
    BackUntil,
}

impl Search {
    /// The search for that condition.
    pub fn request<'a>(self, condition: Condition) -> Request<Lent<'a>>
        ensures { result ≡ request_for self condition }
    {
        match self {
            Search::Until { count } => Request::Until { condition, count },
            Search::BackUntil => Request::BackUntil { condition },
        }
    }
}
