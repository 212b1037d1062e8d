//! What the history says: who did what, and what was replied.

use crate::asked::Asked;
use crate::reply::DeskReply;

/// What a session does.
#[derive(Drop)]
pub enum Event {
    /// It enters.
    Enter,
    /// It asks for something.
    Ask { command: Asked },
    /// It leaves.
    Leave,
}

/// What a session did, and what was replied.
#[derive(Drop)]
pub struct HistoryEntry {
    /// The session's number, from 1 on.
    pub who: u32,
    /// What it did.
    pub event: Event,
    /// What was replied.
    pub reply: DeskReply,
}

/// An entry with its place in the history.
#[derive(Drop)]
pub struct Receipt {
    /// The place, counted from 0.
    pub place: usize,
    /// The entry.
    pub entry: HistoryEntry,
}

/// What a session did and what was replied, under a number: the session's in a history, and its
/// place in the history among a session's own.
#[derive(Drop)]
pub struct Noted {
    /// The session's number, or the place.
    pub number: u32,
    /// What was done.
    pub event: Event,
    /// What was replied.
    pub reply: DeskReply,
}
