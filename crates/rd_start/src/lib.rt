//! How the program begins: its command line, its application file, and why it doesn't.
//! Page: `docs/FORMATS.md`. Definitions in reading order (`specs/`): `Requests`.
#![tactic(auto)]

pub mod fault;
pub mod file;
pub mod options;
