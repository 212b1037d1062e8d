//! How many moves and entries a desk may have.

/// How many moves and entries a desk may have.
#[derive(Clone, Copy)]
pub struct Limits {
    /// How many moves may be done at a time.
    pub moves: u32,
    /// How many entries the history may have.
    pub history: u32,
}
