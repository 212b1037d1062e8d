//! One debugger behind one lock, for several sessions: a session has a receipt for each entry of
//! its own, and at the end all receipts are tested against the history.
//! Page: `docs/decisions/SESSIONS.md`. Definitions in reading order (`specs/`): `Setups`,
//! `SeatView`, `Seats`, `Account`, `Looks`.
#![tactic(auto)]

pub mod account;
pub mod hall;
pub mod look;
mod receipts;
pub mod seat;
pub mod setup;
pub mod shared;
