//! Answers: what a timeline says to a request.

use rd_refusal::refusal::Refusal;

/// How a search for a condition, on by policy or back, came to its end.
#[derive(Clone, Copy, PartialEq, Eq)]
pub enum SearchEnd {
    /// The condition holds there.
    Met,
    /// It held after none of the moves, of which there may be no more.
    Limit,
    /// It holds at none of the places that records lead back to, so that the search went back to
    /// the first of them.
    Start,
}

/// What a timeline says to a request.
#[derive(Clone, Copy, PartialEq, Eq)]
pub enum Answer {
    /// So many moves are done now.
    Done { at: usize },
    /// So many moves are done now, of which the last is an interrupt that had this answer, 1 or 0.
    Answered { at: usize, answer: u32 },
    /// So many moves are done where a search ended.
    Ended { at: usize, end: SearchEnd },
    /// Nothing has changed.
    Refused { refusal: Refusal },
}
