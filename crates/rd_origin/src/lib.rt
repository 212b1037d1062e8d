//! The start of a search: the state that command lines leave behind boot, and the run of their moves.
//! Page: `docs/REACHING.md`. Definitions in reading order (`specs/`): `Playing`, `RunView`,
//! `RunInside`.
#![tactic(auto)]

pub mod cause;
mod copying;
pub mod origin;
mod playing;
pub mod run;
#[cfg(test)]
mod tests;
