//! The calls of stream buffers and of message buffers.
//! Page: `docs/MODEL.md`. Definitions in reading order (`specs/`): `StreamCalls`, `MessageCalls`,
//! `BufferWaits`.
#![tactic(auto)]

pub mod laws;
pub mod messages;
pub mod streams;
