//! Records as bytes, in a list that is undone from its end.
//! Page: `docs/decisions/KEPT_BYTES.md`. Definitions in reading order (`specs/`): `TapeView`,
//! `Reading`, `Records`, `ReadingAll`.
#![tactic(auto)]

pub mod count;
pub mod packed;
pub mod tape;
