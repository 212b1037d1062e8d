//! The commands of a session, and what they name of an application.
//! Page: `docs/COMMANDS.md`. Definitions in reading order (`specs/`): `Digits`, `Keywords`,
//! `Demands`, `Forms`, `Commands`, `Bindings`, `Recents`, `Tables`.
#![tactic(auto)]

pub mod binding;
pub mod command;
pub mod demand;
pub mod digits;
mod form;
pub mod keyword;
pub mod known;
pub mod laws;
pub mod order;
mod reader;
pub mod recent;
pub mod view;
pub mod word;
