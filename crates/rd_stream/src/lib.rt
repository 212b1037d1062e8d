//! Stream buffers and message buffers, each with a place for one reader and one for one writer.
//! Page: `docs/MODEL.md`. Definitions in reading order (`specs/`): `Holders`, `StreamSnapshot`,
//! `Streams`, `MessageSnapshot`, `Messages`.
#![tactic(auto)]

pub mod holders;
pub mod message_buf;
pub mod message_change;
pub mod message_laws;
pub mod message_packing;
pub mod side;
pub mod stream_buf;
pub mod stream_change;
pub mod stream_laws;
pub mod stream_packing;
