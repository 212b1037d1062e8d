//! What is asked of a goal.

/// What is asked of a goal.
#[derive(Clone, Copy)]
pub enum Query {
    /// Whether some order leads to it.
    Reach,
    /// From which place of the run that the command lines make no order leads to it any more.
    Lost,
    /// Whether some order leads to a place from which none leads to it any more.
    Doomed,
}
