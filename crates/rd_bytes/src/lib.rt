//! Bytes that lie in the value itself, bytes that are read and changed at their end, and the
//! refusal of a growth. Page: `docs/decisions/KEPT_BYTES.md`. Definitions in reading order
//! (`specs/`): `Ends`, `StackView`, `Tags`, `Layouts`.
#![tactic(auto)]

pub mod byte_stack;
pub mod bytes;
pub mod ends;
pub mod no_memory;
pub mod tag;
