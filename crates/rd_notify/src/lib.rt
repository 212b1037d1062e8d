//! Direct-to-task notifications.
//! Page: `docs/MODEL.md`. Definitions in reading order (`specs/`): `Entries`, `Words`.
#![tactic(auto)]

pub mod action;
pub mod entries;
