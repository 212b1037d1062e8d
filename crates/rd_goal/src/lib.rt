//! Goals: what is looked for in a search through orders.
//! Page: `docs/REACHING.md`. Definitions in reading order (`specs/`): `Claims`, `Goals`, `OnTick`,
//! `OnRegisters`, `Written`, `Reading`.
#![tactic(auto)]

pub mod claim;
mod claim_words;
pub mod goal;
pub mod reading;
mod words;
