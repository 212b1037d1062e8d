//! What files and commands are written in: words, numbers, names and hexadecimal bytes; and what
//! kinds of things have names.
//! Page: `docs/FORMATS.md`. Definitions in reading order (`specs/`): `Words`, `Names`.
#![tactic(auto)]

pub mod kind;
pub mod words;
