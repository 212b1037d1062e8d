//! Lists of waiting tasks.
//! Page: `docs/MODEL.md`. Definitions in reading order (`specs/`): `TaskList`, `Joined`, `Sizes`,
//! `Removals`.
#![tactic(auto)]

pub mod fifo_list;
pub mod prio_list;
