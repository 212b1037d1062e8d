//! Tests of the parts that cross crates: rings, items of queues, states at their limits, moves,
//! records and the way back, over applications that are read from files. Page: `docs/GATE.md`.
#![tactic(auto)]

#[cfg(test)]
mod asserts;
#[cfg(test)]
mod copies;
#[cfg(test)]
mod edits;
#[cfg(test)]
mod files;
#[cfg(test)]
mod groups;
#[cfg(test)]
mod interrupts;
#[cfg(test)]
mod items;
#[cfg(test)]
mod limits;
#[cfg(test)]
mod packing;
#[cfg(test)]
mod parts;
#[cfg(test)]
mod places;
#[cfg(test)]
mod profiles;
#[cfg(test)]
mod records;
#[cfg(test)]
mod rings;
#[cfg(test)]
mod running;
#[cfg(test)]
mod runs;
