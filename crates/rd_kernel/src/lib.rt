//! What every call of the kernel stands on: single changes of tasks, block times, waking, outcomes.
//! Page: `docs/MODEL.md`. Definitions in reading order (`specs/`): `Tasks`, `Waking`, `Outcomes`,
//! `Telling`, `Holding`, `Costs`.
#![tactic(auto)]

pub mod calling;
pub mod changes;
pub mod conclude;
pub mod holding;
pub mod outcome;
pub mod telling;
pub mod waking;
