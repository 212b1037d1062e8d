//! A sequential debugger of many sessions, with its history: who did what, and what was replied.
//! Page: `docs/decisions/SESSIONS.md`. Definitions in reading order (`specs/`): `Sessions`,
//! `SessionsInside`, `TallyView`, `Asked`, `Debugger`, `Views`, `Serving`, `HistoryView`, `Kept`,
//! `MachineInside`, `Rows`, `RowsInside`, `HistoryInside`, `Legal`, `DeskView`, `DeskInside`,
//! `Refusals`, `Memory`, `Wheel`, `Laws`.
#![tactic(auto)]

pub mod asked;
pub mod desk;
pub mod entry;
pub mod history;
mod kept;
pub mod laws;
pub mod limits;
pub mod machine;
pub mod reply;
pub mod rows;
pub mod sessions;
pub mod showing;
pub mod tally;
pub mod text;
pub mod watches;
