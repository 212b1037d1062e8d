//! What runs of the application that is debugged: its tasks' scripts, its cores and its objects. No
//! crate from here to the timeline knows a name.
//! Page: `docs/MODEL.md`. Definitions in reading order (`specs/`): `Profiles`, `QueueSetShapeView`,
//! `Objects`, `TaskScript`, `Application`.
#![tactic(auto)]

pub mod app;
pub mod both;
pub mod instr;
pub mod objects;
pub mod profile;
