//! The texts of replies and views.
//! Page: `docs/FORMATS.md`. Definitions in reading order (`specs/`): `Names`, `Pages`, `Replies`.
#![tactic(auto)]

pub mod buffers;
pub mod groups;
mod page;
mod parts;
pub mod queues;
pub mod reply;
pub mod tasks;
pub mod watches;
