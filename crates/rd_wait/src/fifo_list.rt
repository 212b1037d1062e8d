//! A list of tasks in the order of arrival.

ghost use Rattle.std.specs.Prelude.{◌≡◌, ◌↔◌, ◌+◌, ◌<◌, ◌≤◌, IsTrue, [], ◌∷◌, ◌++◌, length};
ghost use Rattle.std.specs.Prelude.{IfOk, IfSome, insert, remove, position, slice_get, nat_eq};
ghost use Rattle.rd_wait.specs.Removals.{EachRemovalIsUndone};

use std::alloc::{AllocError, Global};
use std::marker::Model;

/// A list of tasks in the order of arrival, the longest waiting first.
///
/// Tasks are named by their numbers. The list has room for as many as it was made for, and takes no
/// memory after that.
#[derive(Drop)]
pub struct FifoList {
    tasks: Vec<usize>,
    capacity: usize,
}

impl Model for FifoList {
    ghost use Rattle.std.specs.Prelude.{◌≤◌, vec_len, vec_capacity};
    ghost use Rattle.rd_wait.specs.TaskList.{TaskList};

    ghost Value = { TaskList };

    ghost view = { λ l. record { tasks = l.tasks.items; capacity = l.capacity } };

    ghost invariant = { λ l. (vec_len l.tasks ≤ l.capacity) × (l.capacity ≤ vec_capacity l.tasks) };
}

impl FifoList {
    /// An empty list with room for `capacity` tasks.
    pub fn new(alloc: Global, capacity: usize) -> Result<FifoList, AllocError>
        ensures { IfOk result (λ list. list ≡ record { tasks = []; capacity = capacity }) }
    {
        let tasks = Vec::with_capacity(alloc, capacity)?;
        Ok(FifoList { tasks, capacity })
    }

    /// An equal list.
    pub fn copy(&self, alloc: Global) -> Result<FifoList, AllocError>
        ensures { IfOk result (λ list. list ≡ self.now) }
    {
        let mut tasks = Vec::with_capacity(alloc, self.capacity)?;
        tasks.extend_from_slice(self.tasks.as_slice())?;
        Ok(FifoList {
            tasks,
            capacity: self.capacity,
        })
    }

    /// Whether the other list has the same tasks in the same order, and the same room.
    pub fn same(&self, other: &FifoList) -> bool
        ensures { IsTrue result ↔ (self.now ≡ other.now) }
    {
        self.capacity == other.capacity && self.tasks.as_slice() == other.tasks.as_slice()
    }

    /// The tasks, from the first that came to the last.
    pub fn as_slice(&self) -> &[usize]
        ensures tasks { result.now ≡ self.now.tasks }
        ensures room { length self.now.tasks ≤ self.now.capacity }
    {
        self.tasks.as_slice()
    }

    /// Puts `task` in at the back, as the last that came. It takes no memory.
    pub fn append(&mut self, task: usize)
        requires { length self.old.tasks < self.old.capacity }
        ensures { self.new ≡ record self.old { tasks = self.old.tasks ++ task ∷ [] } }
    {
        self.tasks.push(task).unwrap();
    }

    /// Puts `task` in at `index`. Those from there on move back by one. It takes no memory.
    pub fn insert_at(&mut self, index: usize, task: usize)
        requires within { index ≤ length self.old.tasks }
        requires room { length self.old.tasks < self.old.capacity }
        ensures { self.new ≡ record self.old { tasks = insert self.old.tasks index task } }
    {
        self.tasks.insert(index, task).unwrap();
    }

    /// Takes the task at `index` out. Those after it move forward by one.
    pub fn remove_at(&mut self, index: usize) -> usize
        requires { index < length self.old.tasks }
        ensures task { slice_get self.old.tasks index ≡ Some result }
        ensures rest { self.new ≡ record self.old { tasks = remove self.old.tasks index } }
    {
        self.tasks.remove(index)
    }

    /// The first index at which `task` stands.
    pub fn position(&self, task: usize) -> Option<usize>
        ensures index { result ≡ position (λ member. nat_eq member task) self.now.tasks }
        ensures within { IfSome result (λ index. index < length self.now.tasks) }
    {
        self.tasks.iter().position(|member| *member == task)
    }

    /// The task at the front.
    pub fn first(&self) -> Option<usize>
        ensures { result ≡ slice_get self.now.tasks 0 }
    {
        self.tasks.first().copied()
    }
}

/// A law: a task that was taken out of a list and is put in again at the same index gives back the
/// list as it was before.
pub fn each_removal_is_undone()
    ensures { EachRemovalIsUndone }
{}
