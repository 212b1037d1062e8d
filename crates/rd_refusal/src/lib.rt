//! Why a command is refused. It has a crate of its own, so that one more cause touches only those
//! who refuse. Page: `docs/COMMANDS.md`.
#![tactic(auto)]

pub mod refusal;
