//! A ring of bytes.
//! Page: `docs/decisions/KEPT_BYTES.md`. Definitions in reading order (`specs/`): `Memory`,
//! `RingView`, `Rings`.
#![tactic(auto)]

mod memory;
pub mod ring;
