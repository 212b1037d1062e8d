//! Moves.

/// One move of the target. What it carries is lent, or its bytes stand where they were read: so a
/// move is small.
#[derive(Drop)]
pub enum Move<C: Drop> {
    /// The task on this core does one instruction.
    Core { core: usize },
    /// A tick passes.
    Tick,
    /// What it carries says what is done.
    Carried { carried: C },
}
