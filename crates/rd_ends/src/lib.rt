//! Where bytes come from, and where they go, and whether a call there has failed.
//! Page: `docs/ARCHITECTURE.md`. Definitions in reading order (`specs/`): `Ends`.
#![tactic(auto)]

pub mod ends;
pub mod over;
