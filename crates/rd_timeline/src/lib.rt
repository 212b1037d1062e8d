//! The moves made so far, the way back through them, and the state that they give.
//! Page: `docs/ARCHITECTURE.md`. Definitions in reading order (`specs/`): `History`, `LogView`,
//! `Decoded`, `JournalView`, `CarriedView`, `LoggedView`, `Course`, `Recorded`, `Backward`, `Runs`,
//! `Running`, `Redoing`, `Starts`, `Answers`, `RunLaws`, `JournalInside`, `Inside`.
#![tactic(auto)]

pub mod answering;
mod carried;
pub mod interrupts;
pub mod journal;
pub mod laws;
pub mod logged;
pub mod running;
pub mod runs;
pub mod timeline;
