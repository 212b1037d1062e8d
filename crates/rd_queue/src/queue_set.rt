//! A queue set: which of its queues have items, and the tasks that wait for one.

ghost use Rattle.std.specs.Prelude.{◌≡◌, ◌+◌, ◌-◌, ◌<◌, ◌≤◌, ◌↔◌, [], ◌∷◌, ◌++◌, length};
ghost use Rattle.std.specs.Prelude.{take, drop, insert, remove, slice_get, slice_index};
ghost use Rattle.std.specs.Prelude.{IsTrue, IfOk};
ghost use Rattle.rd_queue.specs.QueueSets.{empty_queue_set, with_handles, with_waiting_tasks};
ghost use Rattle.rd_queue.specs.Sizes.{IsSizedQueueSet};

use rd_wait::prio_list::PrioList;
use std::alloc::{AllocError, Global};
use std::collections::VecDeque;
use std::marker::Model;

/// How many handles a queue set has room for at the most.
pub const MAX_HANDLES: usize = 2048;

/// A queue set with room for `capacity` handles, each the number of a queue, and the tasks that
/// wait to select from it. All its memory is taken by `new`.
#[derive(Drop)]
pub struct QueueSet {
    handles: VecDeque<usize>,
    capacity: usize,
    queue_count: usize,
    waiting: PrioList,
}

impl Model for QueueSet {
    ghost use Rattle.std.specs.Prelude.{◌<◌, ◌≤◌, length, All};
    ghost use Rattle.std.specs.VecDeque.{deque_capacity};
    ghost use Rattle.rd_queue.specs.declared.queue_set.TheConstants.{MAX_HANDLES};
    ghost use Rattle.rd_queue.specs.QueueSetSnapshot.{QueueSetSnapshot};

    ghost Value = { QueueSetSnapshot };

    ghost view = { λ s. record {
      handles = s.handles.items;
      capacity = s.capacity;
      queue_count = s.queue_count;
      waiting = s.waiting.tasks;
      task_count = s.waiting.capacity;
    } };

    // The handles fit in the room, each is a queue, and the room is reserved: for 1 to 2048 of
    // them. Those that wait are tasks.
    ghost invariant = { λ s. (length s.handles.items ≤ s.capacity)
        × All (λ queue. queue < s.queue_count) s.handles.items
        × (s.capacity ≤ deque_capacity s.handles) × (0 < s.capacity) × (s.capacity ≤ MAX_HANDLES)
        × All (λ task. task < s.waiting.capacity) s.waiting.tasks };
}

impl QueueSet {
    /// An empty set with room for `capacity` handles, 1 to 2048, of `queue_count` queues
    /// (`xQueueCreateSet`), at which `task_count` tasks can wait.
    pub fn new(
        alloc: Global,
        capacity: usize,
        queue_count: usize,
        task_count: usize,
    ) -> Result<QueueSet, AllocError>
        requires some_capacity { 0 < capacity }
        requires few { capacity ≤ MAX_HANDLES }
        ensures { IfOk result (λ queue_set.
            queue_set ≡ empty_queue_set capacity queue_count task_count) }
    {
        let handles = VecDeque::with_capacity(alloc, capacity)?;
        Ok(QueueSet {
            handles,
            capacity,
            queue_count,
            waiting: PrioList::new(alloc, task_count)?,
        })
    }

    /// An equal set.
    pub fn copy(&self, alloc: Global) -> Result<QueueSet, AllocError>
        ensures { IfOk result (λ queue_set. queue_set ≡ self.now) }
    {
        let mut handles = VecDeque::with_capacity(alloc, self.capacity)?;
        for index in 0..self.handles.len() {
            handles.push_back_reserved(self.handles[index]);
        }
        Ok(QueueSet {
            handles,
            capacity: self.capacity,
            queue_count: self.queue_count,
            waiting: self.waiting.copy(alloc)?,
        })
    }

    /// Whether the other set has the same handles, the same room, for as many queues, and the same
    /// tasks wait at it.
    pub fn same(&self, other: &QueueSet) -> bool
        ensures { IsTrue result ↔ (self.now ≡ other.now) }
    {
        let has_same_sizes = self.capacity == other.capacity
            && self.queue_count == other.queue_count;
        has_same_sizes && self.handles == other.handles && self.waiting.same(&other.waiting)
    }

    /// For contracts alone: the sizes that every set keeps.
    pub fn sizes(&self)
        ensures { IsSizedQueueSet self.now }
    {
        self.waiting.as_slice();
    }

    /// How many handles there are.
    pub fn count(&self) -> usize
        ensures count { result ≡ length self.now.handles }
        ensures within { result ≤ self.now.capacity }
        ensures few { result ≤ MAX_HANDLES }
    {
        self.handles.len()
    }

    /// For how many more handles there is space.
    pub fn spaces(&self) -> usize
        ensures spaces { result + length self.now.handles ≡ self.now.capacity }
        ensures few { result ≤ MAX_HANDLES }
    {
        self.capacity - self.handles.len()
    }

    /// How many handles there is room for.
    pub fn capacity(&self) -> usize
        ensures capacity { result ≡ self.now.capacity }
        ensures few { result ≤ MAX_HANDLES }
    {
        self.capacity
    }

    /// The queue whose handle is at `index`, 0 the oldest.
    pub fn handle(&self, index: usize) -> usize
        requires { index < length self.now.handles }
        ensures handle { result ≡ slice_index self.now.handles index }
        ensures queue { result < self.now.queue_count }
    {
        self.handles[index]
    }

    /// The queue whose handle is the oldest.
    pub fn first_handle(&self) -> usize
        requires { 0 < length self.now.handles }
        ensures handle { result ≡ slice_index self.now.handles 0 }
        ensures queue { result < self.now.queue_count }
    {
        self.handle(0)
    }

    /// The queue whose handle is the newest.
    pub fn last_handle(&self) -> usize
        requires { 0 < length self.now.handles }
        ensures handle { result ≡ slice_index self.now.handles (length self.now.handles - 1) }
        ensures queue { result < self.now.queue_count }
    {
        self.handle(self.handles.len() - 1)
    }

    /// Puts the handle of a queue at the back, as a send to a member does. It takes no memory.
    pub fn push_handle(&mut self, queue: usize)
        requires space { length self.old.handles < self.old.capacity }
        requires queue { queue < self.old.queue_count }
        ensures { self.new ≡ with_handles self.old (self.old.handles ++ queue ∷ []) }
    {
        self.handles.push_back_reserved(queue);
    }

    /// Takes the handle at the back out again: what undoes `push_handle`.
    pub fn drop_handle(&mut self) -> usize
        requires { 0 < length self.old.handles }
        ensures handle { slice_get self.old.handles (length self.old.handles - 1) ≡ Some result }
        ensures rest { self.new
            ≡ with_handles self.old (take (length self.old.handles - 1) self.old.handles) }
    {
        let last = self.last_handle();
        self.handles.truncate(self.handles.len() - 1);
        last
    }

    /// Takes the handle at the front (`xQueueSelectFromSet`).
    pub fn take_handle(&mut self) -> usize
        requires { 0 < length self.old.handles }
        ensures handle { slice_get self.old.handles 0 ≡ Some result }
        ensures rest { self.new ≡ with_handles self.old (drop 1 self.old.handles) }
    {
        self.handles.pop_front().unwrap()
    }

    /// Puts a handle back at the front: what undoes `take_handle`. It takes no memory.
    pub fn untake_handle(&mut self, queue: usize)
        requires space { length self.old.handles < self.old.capacity }
        requires queue { queue < self.old.queue_count }
        ensures { self.new ≡ with_handles self.old (queue ∷ self.old.handles) }
    {
        self.handles.push_front_reserved(queue);
    }

    /// The tasks that wait to select.
    pub fn waiting(&self) -> &PrioList
        ensures tasks { result.now.tasks ≡ self.now.waiting }
        ensures room { result.now.capacity ≡ self.now.task_count }
    {
        &self.waiting
    }

    /// Puts a task among those that wait, at `index`. It takes no memory.
    pub fn insert(&mut self, index: usize, task: usize)
        requires within { index ≤ length self.old.waiting }
        requires room { length self.old.waiting < self.old.task_count }
        requires task { task < self.old.task_count }
        ensures { self.new ≡ with_waiting_tasks self.old (insert self.old.waiting index task) }
    {
        self.waiting.insert_at(index, task);
    }

    /// Takes the task at `index` out of those that wait.
    pub fn remove(&mut self, index: usize) -> usize
        requires { index < length self.old.waiting }
        ensures task { slice_get self.old.waiting index ≡ Some result }
        ensures rest { self.new ≡ with_waiting_tasks self.old (remove self.old.waiting index) }
    {
        self.waiting.remove_at(index)
    }
}

/// For contracts alone: how many handles a queue set has room for at the most, as a number.
pub fn limit_of_handles()
    ensures { MAX_HANDLES ≡ 2048 }
{}
