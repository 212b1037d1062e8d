//! The calls that notify a task, or look at an entry of one.
//! Page: `docs/MODEL.md`. Definitions in reading order (`specs/`): `NotifyCalls`, `NotifyLaws`.
#![tactic(auto)]

pub mod calls;
pub mod laws;
