//! The threads that serve connections.

use crate::table::Table;
use rd_hall::setup::Setup;
use std::alloc::{AllocError, Global};
use std::sync::Wait;
use std::thread::{JoinHandle, Threads};

/// The threads that serve connections, numbered from 0. A thread that has ended is joined, so that the
/// system gets its memory back before the next one starts.
#[derive(Drop)]
pub(crate) struct Crew {
    threads: Vec<Option<JoinHandle<()>>>,
}

impl Crew {
    /// Makes an empty crew with space for `count` threads.
    pub(crate) fn new(alloc: Global, count: usize) -> Result<Crew, AllocError> {
        Ok(Crew {
            threads: Vec::with_capacity(alloc, count)?,
        })
    }

    /// The number that the next added thread gets.
    pub(crate) fn next(&self) -> usize {
        self.threads.len()
    }

    /// Adds a thread. If there is no space for it, it is never joined here; the scope still waits for it.
    pub(crate) fn add(&mut self, thread: JoinHandle<()>) {
        let _ = self.threads.push(Some(thread));
    }

    /// Joins the threads that have ended by now.
    pub(crate) fn join_ended<L: Setup, R: Threads + Wait>(&mut self, rt: &R, table: &Table<L>) {
        for _thread in 0..self.threads.len() {
            let Some(number) = table.next_ended(rt) else {
                return;
            };
            self.join(rt, number);
        }
    }

    // Joins thread `number`.
    fn join<R: Threads>(&mut self, rt: &R, number: usize) {
        if let Some(slot) = self.threads.get_mut(number) {
            if let Some(thread) = slot.take() {
                thread.join(rt);
            }
        }
    }
}
