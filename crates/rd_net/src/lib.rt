//! Sessions over connections.
//! Page: `docs/TOGETHER.md`. Definitions in reading order (`specs/`): `Attending`, `Refused`.
#![tactic(auto)]

mod caller;
mod crew;
pub mod net;
mod table;
