//! A session: it reads lines, asks a hall for what they spell, and answers each.
//! Page: `docs/FORMATS.md`. Definitions in reading order (`specs/`): `BuffersView`, `Calls`,
//! `Lines`, `Replies`, `Answers`, `Gathering`, `Spots`, `Hearing`.
#![tactic(auto)]

pub mod buffers;
pub mod gate;
pub mod lines;
mod pending;
pub mod render;
pub mod session;
mod spot;
mod telling;
