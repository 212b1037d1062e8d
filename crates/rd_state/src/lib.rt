//! The state of the target, its primitive changes, and records that undo them.
//! Page: `docs/MODEL.md`. Definitions in reading order (`specs/`): `Phases`, `Objects`, `Snapshot`,
//! `Waiting`, `Settled`, `Boot`, `Sizes`, `Valid`.
#![tactic(auto)]

mod boot;
pub mod change;
pub mod change_list;
pub mod editing;
mod new_objects;
pub mod objects;
pub mod packing;
pub mod phase;
pub mod scheduling;
pub mod state;
pub mod task;
pub mod task_change;
pub mod task_packing;
pub mod transfer;
pub mod undo;
mod whole;
