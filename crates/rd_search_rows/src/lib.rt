//! Tests of searches, which cross crates: the words of goals and questions, what is gone through, and
//! where a goal is lost. Page: `docs/REACHING.md`.
#![tactic(auto)]

#[cfg(test)]
mod asserts;
#[cfg(test)]
mod counts;
#[cfg(test)]
mod goals;
#[cfg(test)]
mod lost;
#[cfg(test)]
mod questions;
