//! The state that the threads of a server share: results so far, and which threads have ended.

use crate::net::Served;
use rd_hall::seat::Gone;
use rd_hall::setup::Setup;
use std::alloc::{AllocError, Global};
use std::sync::{Condvar, Mutex, Wait};

/// How an accepted connection ended.
#[derive(Drop)]
pub(crate) enum Visit<L: Setup> {
    /// Its session was served and has left.
    Served { gone: Gone<L> },
    /// Its session joined, but there was no memory to serve it.
    Unserved { gone: Gone<L> },
    /// Its session could not join.
    Refused,
}

// The results so far, the number of open sessions, and the numbers of the threads that have ended
// and are not joined yet.
#[derive(Drop)]
struct VisitTally<L: Setup> {
    served: Served<L>,
    running: u32,
    ended: Vec<usize>,
}

impl<L: Setup> VisitTally<L> {
    // Records that a thread has ended. `push` cannot fail: `new` reserved space for all threads.
    fn end(&mut self, number: usize, visit: Visit<L>) {
        self.running = self.running.saturating_sub(1);
        let _ = self.ended.push(number);
        match visit {
            Visit::Served { gone } => self.served.keep(gone),
            Visit::Unserved { gone } => {
                self.served.keep(gone);
                self.served.count_fault();
            }
            Visit::Refused => self.served.count_fault(),
        }
    }
}

/// The results so far, shared by the threads that serve connections.
#[derive(Drop)]
pub(crate) struct Table<L: Setup> {
    tally: Mutex<VisitTally<L>>,
    ended: Condvar,
}

impl<L: Setup> Table<L> {
    /// Makes an empty table with space for `count` connections.
    pub(crate) fn new(alloc: Global, count: usize) -> Result<Table<L>, AllocError> {
        let gone = Vec::with_capacity(alloc, count)?;
        let ended = Vec::with_capacity(alloc, count)?;
        let tally = VisitTally {
            served: Served { gone, faults: 0 },
            running: 0,
            ended,
        };
        Ok(Table {
            tally: Mutex::new(tally),
            ended: Condvar::new(),
        })
    }

    /// Counts one more open session.
    pub(crate) fn begin(&self, rt: &impl Wait) {
        let mut tally = self.tally.lock(rt);
        tally.running = tally.running.saturating_add(1);
    }

    /// Takes back `begin` for a connection that got no thread, and counts a fault.
    pub(crate) fn cancel(&self, rt: &impl Wait) {
        let mut tally = self.tally.lock(rt);
        tally.running = tally.running.saturating_sub(1);
        tally.served.count_fault();
    }

    /// Records the end of the connection served by thread `number`.
    pub(crate) fn end(&self, rt: &impl Wait, number: usize, visit: Visit<L>) {
        self.tally.lock(rt).end(number, visit);
        self.ended.notify_all();
    }

    /// Counts a fault of an attempt that accepted no connection.
    pub(crate) fn fail(&self, rt: &impl Wait) {
        self.tally.lock(rt).served.count_fault();
    }

    /// Whether no session is open.
    pub(crate) fn is_idle(&self, rt: &impl Wait) -> bool {
        self.tally.lock(rt).running == 0
    }

    /// Takes the number of a thread that has ended, each once.
    pub(crate) fn next_ended(&self, rt: &impl Wait) -> Option<usize> {
        self.tally.lock(rt).ended.pop()
    }

    /// Waits until a session has ended, if one is open.
    pub(crate) fn await_end(&self, rt: &impl Wait) {
        let tally = self.tally.lock(rt);
        drop(
            self.ended.wait_while(rt, tally, |tally| {
                tally.running > 0 && tally.ended.is_empty()
            }),
        );
    }

    /// The results, once all threads have ended.
    pub(crate) fn into_served(self) -> Served<L> {
        let Table { tally, ended: _ } = self;
        let VisitTally {
            served,
            running: _,
            ended: _,
        } = tally.into_inner();
        served
    }
}
