//! A queue of items, and the tasks that wait at it.

ghost use Rattle.std.specs.Prelude.{◌≡◌, ◌+◌, ◌-◌, ◌*◌, ◌<◌, ◌≤◌, ◌↔◌, [], ◌∷◌, ◌++◌, length};
ghost use Rattle.std.specs.Prelude.{take, drop, insert, remove, slice_get, slice_index_or};
ghost use Rattle.std.specs.Prelude.{slice_set, IsTrue, IsOk, IsErr, IfOk, IfSome, OnOk, OnErr};
ghost use Rattle.rd_queue.specs.Sizes.{IsSizedQueue};
ghost use Rattle.std.specs.List.{concat};
ghost use Rattle.rd_queue.specs.Queues.{count_in, empty_queue, fitted, items_in, with_items};
ghost use Rattle.rd_queue.specs.Queues.{tasks_in_list, as_member_of, with_waiting};
ghost use Rattle.rd_queue.specs.Changes.{HasSpaceForAll, put_at, queue_applied, SetItem};

use crate::end::End;
use crate::item::{Item, MAX_ITEM_SIZE};
use crate::waiting_list::WaitingList;
use rd_ring::ring::ByteRing;
use rd_wait::prio_list::PrioList;
use std::alloc::{AllocError, Global};
use std::marker::Model;
use thiserror::Error;

/// How many items a queue has room for at the most.
pub const MAX_ITEMS: usize = 64;

/// The queue has no free slot.
#[derive(Debug, Drop, Error)]
#[error("the queue has no free slot")]
pub struct Full;

/// The queue has no item.
#[derive(Debug, Drop, Error)]
#[error("the queue has no item")]
pub struct Empty;

/// A queue with room for `capacity` items of `item_size` bytes each, the tasks that wait at it, and
/// the queue set that it is a member of. All its memory is taken by `new`.
pub struct Queue {
    ring: ByteRing,
    capacity: usize,
    item_size: usize,
    receiving: PrioList,
    sending: PrioList,
    queue_set: Option<usize>,
    queue_set_count: usize,
}

// (Written out, so that a drop of one is a call: no proof elsewhere has to look into its parts.)
impl Drop for Queue {
    fn drop(self) {
        let Queue {
            ring: _ring,
            capacity: _,
            item_size: _,
            receiving: _receiving,
            sending: _sending,
            queue_set: _,
            queue_set_count: _,
        } = self;
    }
}

impl Model for Queue {
    ghost use Rattle.std.specs.Prelude.{◌≡◌, ◌<◌, ◌≤◌, All, IfSome};
    ghost use Rattle.rd_queue.specs.declared.item.TheConstants.{MAX_ITEM_SIZE};
    ghost use Rattle.rd_queue.specs.declared.queue.TheConstants.{MAX_ITEMS};
    ghost use Rattle.rd_queue.specs.ItemRings.{HoldsItems};
    ghost use Rattle.rd_queue.specs.Queues.{items_in};
    ghost use Rattle.rd_queue.specs.QueueSnapshot.{QueueSnapshot};

    ghost Value = { QueueSnapshot };

    ghost view = { λ q. record {
      items = items_in q.item_size q.ring.bytes;
      capacity = q.capacity;
      item_size = q.item_size;
      receiving = q.receiving.tasks;
      sending = q.sending.tasks;
      task_count = q.receiving.capacity;
      queue_set = q.queue_set;
      queue_set_count = q.queue_set_count;
    } };

    // The ring is one of whole items, 1 to 64 of them at the most, of 1 to 64 bytes. Both lists
    // have the same room, and those that wait are tasks. The queue is a member of a set that is
    // there, or of none.
    ghost invariant = { λ q. HoldsItems q.ring q.capacity q.item_size
        × (0 < q.capacity) × (q.capacity ≤ MAX_ITEMS) × (q.item_size ≤ MAX_ITEM_SIZE)
        × (q.sending.capacity ≡ q.receiving.capacity)
        × All (λ task. task < q.receiving.capacity) q.receiving.tasks
        × All (λ task. task < q.receiving.capacity) q.sending.tasks
        × IfSome q.queue_set (λ queue_set. queue_set < q.queue_set_count) };
}

impl Queue {
    /// An empty queue with room for `capacity` items, 1 to 64, of `item_size` bytes, 1 to 64
    /// (`xQueueCreate`), at which `task_count` tasks can wait in each list. It is in none of the
    /// `queue_set_count` queue sets.
    pub fn new(
        alloc: Global,
        capacity: usize,
        item_size: usize,
        task_count: usize,
        queue_set_count: usize,
    ) -> Result<Queue, AllocError>
        requires some_capacity { 0 < capacity }
        requires few { capacity ≤ MAX_ITEMS }
        requires some_bytes { 0 < item_size }
        requires small { item_size ≤ MAX_ITEM_SIZE }
        ensures { IfOk result (λ queue.
            queue ≡ empty_queue capacity item_size task_count queue_set_count) }
    {
        let ring = ByteRing::new(alloc, capacity * item_size)?;
        Ok(Queue {
            ring,
            capacity,
            item_size,
            receiving: PrioList::new(alloc, task_count)?,
            sending: PrioList::new(alloc, task_count)?,
            queue_set: None,
            queue_set_count,
        })
    }

    /// An equal queue.
    pub fn copy(&self, alloc: Global) -> Result<Queue, AllocError>
        ensures { IfOk result (λ queue. queue ≡ self.now) }
    {
        Ok(Queue {
            ring: self.ring.copy(alloc)?,
            capacity: self.capacity,
            item_size: self.item_size,
            receiving: self.receiving.copy(alloc)?,
            sending: self.sending.copy(alloc)?,
            queue_set: self.queue_set,
            queue_set_count: self.queue_set_count,
        })
    }

    /// Whether the other queue has the same items, the same room and the same item size, the same
    /// tasks wait at it, and it is a member of the same set, of as many.
    pub fn same(&self, other: &Queue) -> bool
        ensures { IsTrue result ↔ (self.now ≡ other.now) }
    {
        self.capacity == other.capacity
            && self.item_size == other.item_size
            && self.same_items(other)
            && self.receiving.same(&other.receiving)
            && self.sending.same(&other.sending)
            && self.queue_set == other.queue_set
            && self.queue_set_count == other.queue_set_count
    }

    // Whether the other queue, with the same room and the same item size, has the same items.
    fn same_items(&self, other: &Queue) -> bool
        requires capacity { self.now.capacity ≡ other.now.capacity }
        requires size { self.now.item_size ≡ other.now.item_size }
        ensures { IsTrue result ↔ (self.now.items ≡ other.now.items) }
    {
        self.ring.same(&other.ring)
    }

    /// For contracts alone: the sizes that every queue keeps.
    pub fn sizes(&self)
        ensures { IsSizedQueue self.now }
    {
        self.receiving.as_slice();
        self.sending.as_slice();
    }

    /// How many items there are (`uxQueueMessagesWaiting`).
    pub fn count(&self) -> usize
        ensures count { result ≡ length self.now.items }
        ensures within { result ≤ self.now.capacity }
        ensures few { result ≤ MAX_ITEMS }
    {
        self.ring.len() / self.item_size
    }

    /// How many slots are free (`uxQueueSpacesAvailable`).
    pub fn spaces(&self) -> usize
        ensures spaces { result + length self.now.items ≡ self.now.capacity }
        ensures few { result ≤ MAX_ITEMS }
    {
        self.capacity - self.count()
    }

    // Whether there is no item.
    fn is_empty(&self) -> bool
        ensures { IsTrue result ↔ (self.now.items ≡ []) }
    {
        self.ring.len() == 0
    }

    // Whether there is no free slot.
    fn is_full(&self) -> bool
        ensures full { IsTrue result ↔ (length self.now.items ≡ self.now.capacity) }
        ensures room { length self.now.items ≤ self.now.capacity }
    {
        self.ring.len() == self.ring.capacity()
    }

    /// How many items there is room for.
    pub fn capacity(&self) -> usize
        ensures { result ≡ self.now.capacity }
    {
        self.capacity
    }

    /// How many bytes each item has.
    pub fn item_size(&self) -> usize
        ensures size { result ≡ self.now.item_size }
        ensures small { result ≤ MAX_ITEM_SIZE }
    {
        self.item_size
    }

    /// The item at `index`, 0 the front.
    pub fn item(&self, index: usize) -> &[u8]
        requires { index < length self.now.items }
        ensures item { result.now ≡ slice_index_or self.now.items index [] }
        ensures short { length result.now ≤ MAX_ITEM_SIZE }
    {
        self.ring.piece(index * self.item_size, self.item_size)
    }

    /// The item at the front.
    pub fn first(&self) -> &[u8]
        requires { 0 < length self.now.items }
        ensures item { result.now ≡ slice_index_or self.now.items 0 [] }
        ensures short { length result.now ≤ MAX_ITEM_SIZE }
    {
        self.item(0)
    }

    /// The item at the back.
    pub fn last(&self) -> &[u8]
        requires { 0 < length self.now.items }
        ensures item { result.now ≡ slice_index_or self.now.items (length self.now.items - 1) [] }
        ensures short { length result.now ≤ MAX_ITEM_SIZE }
    {
        self.item(self.count() - 1)
    }

    // Puts an item at the back of a queue that isn't full.
    fn push_back(&mut self, item: &[u8])
        requires space { length self.old.items < self.old.capacity }
        requires size { length item.now ≡ self.old.item_size }
        ensures { self.new ≡ with_items self.old (self.old.items ++ item.now ∷ []) }
    {
        self.ring.push_back(item);
    }

    // Puts an item at the front of a queue that isn't full.
    fn push_front(&mut self, item: &[u8])
        requires space { length self.old.items < self.old.capacity }
        requires size { length item.now ≡ self.old.item_size }
        ensures { self.new ≡ with_items self.old (item.now ∷ self.old.items) }
    {
        self.ring.push_front(item);
    }

    /// Puts an item at the back (`xQueueSendToBack`). A full queue refuses, and stays as it was.
    pub fn put_back(&mut self, item: &[u8]) -> Result<(), Full>
        requires { length item.now ≡ self.old.item_size }
        ensures full { IsErr result ↔ (length self.old.items ≡ self.old.capacity) }
        ensures ok { OnOk result
            (self.new ≡ with_items self.old (self.old.items ++ item.now ∷ [])) }
        ensures err { OnErr result (self.new ≡ self.old) }
    {
        if self.is_full() {
            return Err(Full);
        }
        self.push_back(item);
        Ok(())
    }

    /// For tests alone: puts an item at the front (`xQueueSendToFront`). A full queue refuses, and
    /// stays as it was.
    pub fn put_front(&mut self, item: &[u8]) -> Result<(), Full>
        requires { length item.now ≡ self.old.item_size }
        ensures full { IsErr result ↔ (length self.old.items ≡ self.old.capacity) }
        ensures ok { OnOk result (self.new ≡ with_items self.old (item.now ∷ self.old.items)) }
        ensures err { OnErr result (self.new ≡ self.old) }
    {
        if self.is_full() {
            return Err(Full);
        }
        self.push_front(item);
        Ok(())
    }

    /// Makes an item the only one of a queue with room for one: it is put, or takes the place of
    /// the one that is there (`xQueueOverwrite`).
    pub fn overwrite(&mut self, item: &[u8])
        requires single { self.old.capacity ≡ 1 }
        requires size { length item.now ≡ self.old.item_size }
        ensures { self.new ≡ with_items self.old (item.now ∷ []) }
    {
        self.clear();
        self.push_back(item);
    }

    /// Puts the item that these bytes make, cut or filled up with zero bytes to the item size, at
    /// an end of a queue that isn't full.
    pub fn put_fitted(&mut self, end: End, bytes: &[u8])
        requires { length self.old.items < self.old.capacity }
        ensures { self.new
            ≡ queue_applied self.old (put_at end (fitted self.old.item_size bytes.now)) }
    {
        if bytes.len() == self.item_size {
            self.put_item(end, bytes);
        } else {
            self.put_made(end, bytes);
        }
    }

    // Puts an item at an end of a queue that isn't full.
    #[inline(always)]
    fn put_item(&mut self, end: End, item: &[u8])
        requires space { length self.old.items < self.old.capacity }
        requires size { length item.now ≡ self.old.item_size }
        ensures { self.new ≡ queue_applied self.old (put_at end item.now) }
    {
        match end {
            End::Back => self.push_back(item),
            End::Front => self.push_front(item),
        }
    }

    // Puts the item that these bytes make at an end, likewise. (Called: it needs room for an item,
    // which else would be cleared for each.)
    #[inline(never)]
    fn put_made(&mut self, end: End, bytes: &[u8])
        requires { length self.old.items < self.old.capacity }
        ensures { self.new
            ≡ queue_applied self.old (put_at end (fitted self.old.item_size bytes.now)) }
    {
        let item = Item::fitted(bytes, self.item_size);
        self.put_item(end, item.as_slice());
    }

    /// Puts the item that these bytes make, cut or filled up with zero bytes to the item size, in
    /// the place of the one at `index`.
    pub fn set_fitted(&mut self, index: usize, bytes: &[u8])
        requires { index < length self.old.items }
        ensures { self.new
            ≡ queue_applied self.old (SetItem index (fitted self.old.item_size bytes.now)) }
    {
        let item = Item::fitted(bytes, self.item_size);
        self.set_item(index, item.as_slice());
    }

    /// The item at the front (`xQueuePeek`). An empty queue refuses.
    pub fn peek(&self) -> Result<&[u8], Empty>
        ensures empty { IsErr result ↔ (self.now.items ≡ []) }
        ensures item { IfOk result (λ item. slice_get self.now.items 0 ≡ Some item.now) }
    {
        if self.is_empty() {
            return Err(Empty);
        }
        Ok(self.first())
    }

    /// Takes the item at the front (`xQueueReceive`). An empty queue refuses, and stays as it was.
    pub fn take(&mut self) -> Result<Item, Empty>
        ensures empty { IsErr result ↔ (self.old.items ≡ []) }
        ensures ok { IfOk result (λ item. self.new ≡ with_items self.old (drop 1 self.old.items)) }
        ensures item { IfOk result (λ item. slice_get self.old.items 0 ≡ Some item) }
        ensures err { OnErr result (self.new ≡ self.old) }
    {
        if self.is_empty() {
            return Err(Empty);
        }
        let item = Item::new(self.first());
        self.drop_first();
        Ok(item)
    }

    // Takes the item at the front away.
    pub(crate) fn drop_first(&mut self)
        requires { 0 < length self.old.items }
        ensures { self.new ≡ with_items self.old (drop 1 self.old.items) }
    {
        self.ring.drop_front(self.item_size);
    }

    /// Puts an item back at the front: what undoes `take`.
    pub fn untake(&mut self, item: &[u8])
        requires space { length self.old.items < self.old.capacity }
        requires size { length item.now ≡ self.old.item_size }
        ensures { self.new ≡ with_items self.old (item.now ∷ self.old.items) }
    {
        self.push_front(item);
    }

    /// For tests alone: takes the item at the back out again: what undoes `put_back`.
    pub fn unput(&mut self) -> Item
        requires { 0 < length self.old.items }
        ensures item { slice_get self.old.items (length self.old.items - 1) ≡ Some result }
        ensures rest { self.new
            ≡ with_items self.old (take (length self.old.items - 1) self.old.items) }
    {
        let item = Item::new(self.last());
        self.drop_last();
        item
    }

    // Takes the item at the back away.
    pub(crate) fn drop_last(&mut self)
        requires { 0 < length self.old.items }
        ensures { self.new
            ≡ with_items self.old (take (length self.old.items - 1) self.old.items) }
    {
        self.ring.pop_back(self.item_size);
    }

    /// Puts an item in the place of the one at `index`. It takes no memory.
    pub fn set_item(&mut self, index: usize, item: &[u8])
        requires there { index < length self.old.items }
        requires size { length item.now ≡ self.old.item_size }
        ensures { self.new ≡ with_items self.old (slice_set self.old.items index item.now) }
    {
        self.ring.set_piece(index * self.item_size, item);
    }

    /// Empties the queue; those who wait stay (`xQueueReset`, but for whom it wakes). It takes no
    /// memory.
    pub fn clear(&mut self)
        ensures { self.new ≡ with_items self.old [] }
    {
        self.ring.clear();
    }

    /// Fills an empty queue with the items that these bytes are, one after the other, in two pieces
    /// that follow one another: what undoes `clear`. It takes no memory.
    pub fn fill(&mut self, front: &[u8], back: &[u8])
        requires { HasSpaceForAll self.old (front.now ++ back.now) }
        ensures { self.new
            ≡ with_items self.old (items_in self.old.item_size (front.now ++ back.now)) }
    {
        self.ring.push_back(front);
        self.ring.push_back(back);
    }

    /// The bytes of all items, one after the other, the front first, in two pieces that follow one
    /// another.
    pub fn item_bytes(&self) -> (&[u8], &[u8])
        ensures { result.0.now ++ result.1.now ≡ concat self.now.items }
    {
        self.ring.halves()
    }

    /// The tasks that wait to receive, or to send.
    pub fn waiting(&self, list: WaitingList) -> &PrioList
        ensures tasks { result.now.tasks ≡ tasks_in_list list self.now }
        ensures room { result.now.capacity ≡ self.now.task_count }
    {
        match list {
            WaitingList::Receiving => &self.receiving,
            WaitingList::Sending => &self.sending,
        }
    }

    /// Puts a task into a waiting list at `index`.
    pub fn insert(&mut self, list: WaitingList, index: usize, task: usize)
        requires within { index ≤ length (tasks_in_list list self.old) }
        requires room { length (tasks_in_list list self.old) < self.old.task_count }
        requires task { task < self.old.task_count }
        ensures { self.new
            ≡ with_waiting list (insert (tasks_in_list list self.old) index task) self.old }
    {
        match list {
            WaitingList::Receiving => self.receiving.insert_at(index, task),
            WaitingList::Sending => self.sending.insert_at(index, task),
        }
    }

    /// Takes the task at `index` out of a waiting list.
    pub fn remove(&mut self, list: WaitingList, index: usize) -> usize
        requires { index < length (tasks_in_list list self.old) }
        ensures task { slice_get (tasks_in_list list self.old) index ≡ Some result }
        ensures rest { self.new
            ≡ with_waiting list (remove (tasks_in_list list self.old) index) self.old }
    {
        match list {
            WaitingList::Receiving => self.receiving.remove_at(index),
            WaitingList::Sending => self.sending.remove_at(index),
        }
    }

    /// The queue set that the queue is a member of, by number.
    pub fn set_of(&self) -> Option<usize>
        ensures queue_set { result ≡ self.now.queue_set }
        ensures there { IfSome result (λ queue_set. queue_set < self.now.queue_set_count) }
    {
        self.queue_set
    }

    /// Makes the queue a member of a set (`xQueueAddToSet`, but for when that is refused). It takes
    /// no memory.
    pub fn join_set(&mut self, queue_set: usize)
        requires { queue_set < self.old.queue_set_count }
        ensures { self.new ≡ as_member_of self.old (Some queue_set) }
    {
        self.queue_set = Some(queue_set);
    }

    /// Makes the queue a member of no set (`xQueueRemoveFromSet`, but for when that is refused). It
    /// takes no memory.
    pub fn leave_set(&mut self)
        ensures { self.new ≡ as_member_of self.old None }
    {
        self.queue_set = None;
    }
}

/// For contracts alone: how many items a queue has room for at the most, as a number.
pub fn limit_of_items()
    ensures { MAX_ITEMS ≡ 64 }
{}
