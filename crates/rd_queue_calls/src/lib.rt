//! The calls of queues and of queue sets: what each does to its object, whom it wakes, and when it
//! waits.
//! Page: `docs/MODEL.md`. Definitions in reading order (`specs/`): `Posts`, `QueueCalls`,
//! `QueueSetCalls`.
#![tactic(auto)]

pub mod calls;
pub mod laws;
pub mod posts;
pub mod selecting;
