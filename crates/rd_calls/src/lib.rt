//! The kernel's rules: what each move does to the target.
//! Page: `docs/MODEL.md`. Definitions in reading order (`specs/`): `Local`, `Carried`, `Step`,
//! `HandleMoves`, `Received`, `Sleeping`.
#![tactic(auto)]

mod carried;
pub mod laws;
mod local;
mod perform;
pub mod play;
pub mod policy;
mod tick;
