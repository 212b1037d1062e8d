//! Queues of items of one size, and sets of queues, with the tasks that wait at them.
//! Page: `docs/MODEL.md`. Definitions in reading order (`specs/`): `QueueSnapshot`, `Queues`,
//! `QueueSetSnapshot`, `QueueSets`.
#![tactic(auto)]

pub mod change;
pub mod end;
pub mod item;
pub mod packing;
pub mod queue;
pub mod queue_set;
pub mod queue_set_change;
pub mod queue_set_packing;
pub mod waiting_list;
