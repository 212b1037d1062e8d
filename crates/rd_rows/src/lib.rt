//! Whole runs of the program: what it is asked, what it answers, and how it ends.
//!
//! Each test of broken input (files, lines, reads, writes, words, connections) names the promise
//! that it shows, as docs/PROMISES.md does: a call, and its clauses. Page: `docs/PROMISES.md`.
#![tactic(auto)]

#[cfg(test)]
mod applications;
#[cfg(test)]
mod asserts;
#[cfg(test)]
mod attending;
#[cfg(test)]
mod broken_files;
#[cfg(test)]
mod buffer_waits;
#[cfg(test)]
mod buffers;
#[cfg(test)]
mod conditions;
#[cfg(test)]
mod connections;
#[cfg(test)]
mod counting;
#[cfg(test)]
mod cuts;
#[cfg(test)]
mod desk;
#[cfg(test)]
mod edits;
#[cfg(test)]
mod faults;
#[cfg(test)]
mod gates;
#[cfg(test)]
mod gathered_faults;
#[cfg(test)]
mod groups;
#[cfg(test)]
mod hall;
#[cfg(test)]
mod interrupts;
#[cfg(test)]
mod last_reads;
#[cfg(test)]
mod lines;
#[cfg(test)]
mod load;
#[cfg(test)]
mod locals;
#[cfg(test)]
mod looking;
#[cfg(test)]
mod memory;
#[cfg(test)]
mod messages;
#[cfg(test)]
mod notifications;
#[cfg(test)]
mod profiles;
#[cfg(test)]
mod programs;
#[cfg(test)]
mod queue_sets;
#[cfg(test)]
mod queues;
#[cfg(test)]
mod read_faults;
#[cfg(test)]
mod receipts;
#[cfg(test)]
mod recent;
#[cfg(test)]
mod refused_buffers;
#[cfg(test)]
mod refused_files;
#[cfg(test)]
mod refused_groups;
#[cfg(test)]
mod rendering;
#[cfg(test)]
mod rows;
#[cfg(test)]
mod runs;
#[cfg(test)]
mod sentences;
#[cfg(test)]
mod shared;
#[cfg(test)]
mod showing;
#[cfg(test)]
mod streams;
#[cfg(test)]
mod tasks;
#[cfg(test)]
mod together;
#[cfg(test)]
mod trimming;
#[cfg(test)]
mod turns;
#[cfg(test)]
mod watches;
#[cfg(test)]
mod write_faults;
