//! What the things of an application are called, and the application itself: what runs, with the
//! names of it. Page: `docs/decisions/WORDS.md`. Definitions in reading order (`specs/`):
//! `NameSets`, `Names`, `Apps`.
#![tactic(auto)]

pub mod app;
pub mod name_set;
pub mod names;
