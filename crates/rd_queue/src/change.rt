//! The primitive changes of a queue, each with the change that undoes it.

ghost use Rattle.std.specs.Prelude.{◌≡◌, ◌+◌};
ghost use Rattle.rd_queue.specs.Changes.{queue_applied, queue_inverse_of, queue_saved_bytes};
ghost use Rattle.rd_queue.specs.Changes.{the_queue_change, QueueFits, EachQueueChangeIsUndone};

use crate::queue::Queue;
use crate::waiting_list::WaitingList;

/// A primitive change of a queue. An index counts from the front. Its bytes are borrowed: from the
/// queue, from a task's data, or from where changes are kept.
#[derive(Clone, Copy)]
pub enum QueueChange<'a> {
    /// The task is put into the list of those that wait, at the index.
    InsWait {
        list: WaitingList,
        index: usize,
        task: usize,
    },
    /// The task at the index leaves the list of those that wait.
    DelWait {
        list: WaitingList,
        index: usize,
    },
    /// The item goes to the back.
    PutBack {
        item: &'a [u8],
    },
    /// The item at the back leaves.
    TakeBack,
    /// The item goes to the front.
    PutFront {
        item: &'a [u8],
    },
    /// The item at the front leaves.
    TakeFront,
    /// The item takes the place of the one at the index.
    SetItem {
        index: usize,
        item: &'a [u8],
    },
    /// All items leave.
    Clear,
    /// An empty queue gets the items that these bytes are, one after the other, those in front
    /// first.
    Fill {
        front: &'a [u8],
        back: &'a [u8],
    },
    /// The queue becomes a member of that set, or of none.
    SetMember {
        queue_set: Option<usize>,
    },
}

impl QueueChange<'_> {
    /// How much it takes in a record: one, and the bytes that it carries.
    pub fn cost(self) -> usize
        ensures { result ≡ 1 + queue_saved_bytes (the_queue_change self.entry) }
    {
        match self {
            QueueChange::PutBack { item }
            | QueueChange::PutFront { item }
            | QueueChange::SetItem { item, .. } => 1 + item.len(),
            QueueChange::Fill { front, back } => 1 + front.len() + back.len(),
            QueueChange::InsWait { .. }
            | QueueChange::DelWait { .. }
            | QueueChange::TakeBack
            | QueueChange::TakeFront
            | QueueChange::Clear
            | QueueChange::SetMember { .. } => 1,
        }
    }
}

impl Queue {
    /// Makes a change. It takes no memory.
    #[inline(always)]
    pub fn apply(&mut self, change: QueueChange<'_>)
        requires { QueueFits self.old (the_queue_change change) }
        ensures { self.new ≡ queue_applied self.old (the_queue_change change.entry) }
    {
        match change {
            QueueChange::InsWait { list, index, task } => self.insert(list, index, task),
            QueueChange::DelWait { list, index } => {
                self.remove(list, index);
            }
            QueueChange::PutBack { item } => self.put_back(item).unwrap(),
            QueueChange::TakeBack => self.drop_last(),
            QueueChange::PutFront { item } => self.untake(item),
            QueueChange::TakeFront => self.drop_first(),
            QueueChange::SetItem { index, item } => self.set_item(index, item),
            QueueChange::Clear => self.clear(),
            QueueChange::Fill { front, back } => self.fill(front, back),
            QueueChange::SetMember {
                queue_set: Some(queue_set),
            } => self.join_set(queue_set),
            QueueChange::SetMember { queue_set: None } => self.leave_set(),
        }
    }

    /// The change that undoes `change`, made at this queue, which lends it its bytes. It takes no
    /// memory.
    #[inline(always)]
    pub fn inverse_of(&self, change: QueueChange<'_>) -> QueueChange<'_>
        requires { QueueFits self.now (the_queue_change change) }
        ensures { the_queue_change result
            ≡ queue_inverse_of self.now (the_queue_change change.entry) }
    {
        match change {
            QueueChange::InsWait { list, index, .. } => QueueChange::DelWait { list, index },
            QueueChange::DelWait { list, index } => QueueChange::InsWait {
                list,
                index,
                task: self.waiting(list).as_slice()[index],
            },
            QueueChange::PutBack { .. } => QueueChange::TakeBack,
            QueueChange::TakeBack => QueueChange::PutBack { item: self.last() },
            QueueChange::PutFront { .. } => QueueChange::TakeFront,
            QueueChange::TakeFront => QueueChange::PutFront { item: self.first() },
            QueueChange::SetItem { index, .. } => QueueChange::SetItem {
                index,
                item: self.item(index),
            },
            QueueChange::Clear => {
                let (front, back) = self.item_bytes();
                QueueChange::Fill { front, back }
            }
            QueueChange::Fill { .. } => QueueChange::Clear,
            QueueChange::SetMember { .. } => QueueChange::SetMember {
                queue_set: self.set_of(),
            },
        }
    }
}

/// A law: each change of a queue is undone by its inverse, to the last field of the queue.
pub fn each_queue_change_is_undone()
    ensures { EachQueueChangeIsUndone }
{}
