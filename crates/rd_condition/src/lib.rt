//! Conditions on the target, which runs both ways look for.
//! Page: `docs/COMMANDS.md`. Definitions in reading order (`specs/`): `Conditions`.
#![tactic(auto)]

pub mod condition;
