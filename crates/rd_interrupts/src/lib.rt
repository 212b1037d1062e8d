//! Interrupts: what one does between two moves of tasks, and what it answers.
//! Page: `docs/MODEL.md`. Definitions in reading order (`specs/`): `Interrupts`, `InterruptLaws`.
#![tactic(auto)]

pub mod interrupt;
pub mod laws;
