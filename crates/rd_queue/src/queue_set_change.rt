//! The primitive changes of a queue set, each with the change that undoes it.

ghost use Rattle.std.specs.Prelude.{◌≡◌};
ghost use Rattle.rd_queue.specs.QueueSetChanges.{queue_set_applied, queue_set_inverse_of};
ghost use Rattle.rd_queue.specs.QueueSetChanges.{QueueSetFits, EachQueueSetChangeIsUndone};

use crate::queue_set::QueueSet;

/// A primitive change of a queue set. An index counts from the front.
#[derive(Clone, Copy)]
pub enum QueueSetChange {
    /// The task is put among those that wait, at the index.
    InsWait { index: usize, task: usize },
    /// The task at the index leaves those that wait.
    DelWait { index: usize },
    /// The handle of the queue goes to the back.
    PushHandle { queue: usize },
    /// The handle at the back leaves.
    DropHandle,
    /// The handle at the front leaves.
    TakeHandle,
    /// The handle of the queue goes to the front.
    UntakeHandle { queue: usize },
}

impl QueueSet {
    /// Makes a change. It takes no memory.
    #[inline(always)]
    pub fn apply(&mut self, change: QueueSetChange)
        requires { QueueSetFits self.old change }
        ensures { self.new ≡ queue_set_applied self.old change }
    {
        match change {
            QueueSetChange::InsWait { index, task } => self.insert(index, task),
            QueueSetChange::DelWait { index } => {
                self.remove(index);
            }
            QueueSetChange::PushHandle { queue } => self.push_handle(queue),
            QueueSetChange::DropHandle => {
                self.drop_handle();
            }
            QueueSetChange::TakeHandle => {
                self.take_handle();
            }
            QueueSetChange::UntakeHandle { queue } => self.untake_handle(queue),
        }
    }

    /// The change that undoes `change`, made at this set. It takes no memory.
    #[inline(always)]
    pub fn inverse_of(&self, change: QueueSetChange) -> QueueSetChange
        requires { QueueSetFits self.now change }
        ensures { result ≡ queue_set_inverse_of self.now change }
    {
        match change {
            QueueSetChange::InsWait { index, .. } => QueueSetChange::DelWait { index },
            QueueSetChange::DelWait { index } => QueueSetChange::InsWait {
                index,
                task: self.waiting().as_slice()[index],
            },
            QueueSetChange::PushHandle { .. } => QueueSetChange::DropHandle,
            QueueSetChange::DropHandle => QueueSetChange::PushHandle {
                queue: self.last_handle(),
            },
            QueueSetChange::TakeHandle => QueueSetChange::UntakeHandle {
                queue: self.first_handle(),
            },
            QueueSetChange::UntakeHandle { .. } => QueueSetChange::TakeHandle,
        }
    }
}

/// A law: each change of a queue set is undone by its inverse, to the last field of the set.
pub fn each_queue_set_change_is_undone()
    ensures { EachQueueSetChangeIsUndone }
{}
