//! The calls of event groups.
//! Page: `docs/MODEL.md`. Definitions in reading order (`specs/`): `GroupCalls`, `GroupLaws`.
#![tactic(auto)]

pub mod calls;
pub mod laws;
