//! Edits: what is changed by hand.
//! Page: `docs/MODEL.md`. Definitions in reading order (`specs/`): `Edits`, `EditLaws`.
#![tactic(auto)]

pub mod edit;
pub mod laws;
