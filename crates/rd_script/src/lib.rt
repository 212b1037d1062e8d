//! Reads an application from its file, and the instructions of its tasks from their texts.
//! Page: `docs/FORMATS.md`. Definitions in reading order (`specs/`): `Keywords`, `Named`, `Scope`,
//! `Spelling`, `Values`, `Objects`, `File`, `Draft`, `Says`.
#![tactic(auto)]

pub mod error;
pub mod file;
mod keyword;
mod objects;
mod reader;
mod scope;
mod spelling;
mod values;
