//! What can be asked of a target, as plain data: moves, edits and requests, and what each names of
//! an application. What they do stands elsewhere.
//! Page: `docs/MODEL.md`. Definitions in reading order (`specs/`): `Counts`, `Edits`, `Interrupts`,
//! `Carried`, `Moves`, `Requests`.
#![tactic(auto)]

pub mod answer;
pub mod carried;
pub mod count;
pub mod edit;
pub mod interrupt;
pub mod moves;
pub mod request;
