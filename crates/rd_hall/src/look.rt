//! What stands behind the lock at one moment.

/// What stands behind the lock at one moment, beside the target itself.
#[derive(Clone, Copy, Debug, PartialEq, Eq)]
pub struct Look {
    /// How many moves are done.
    pub done: usize,
    /// How many moves are undone.
    pub undone: usize,
    /// How many moves have a record kept.
    pub kept: usize,
    /// The session that has the wheel, if one has.
    pub wheel: Option<u32>,
    /// How many watches the sessions that are present keep together.
    pub watches: usize,
    /// How many entries the history has.
    pub entries: usize,
}
