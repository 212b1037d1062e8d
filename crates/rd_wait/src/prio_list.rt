//! A list of tasks in priority order.

ghost use Rattle.std.specs.Prelude.{◌≡◌, ◌↔◌, ◌+◌, ◌<◌, ◌≤◌, IsTrue, [], ◌∷◌, ◌++◌, length};
ghost use Rattle.std.specs.Prelude.{All, IfOk, IfSome, take, drop, insert, remove, position};
ghost use Rattle.std.specs.Prelude.{slice_get, nat_eq, slice_index_or};
ghost use Rattle.rd_wait.specs.Joined.{index_for, HavePriorities, JoiningPreservesTheOrder};

use std::alloc::{AllocError, Global};
use std::marker::Model;

/// A list of tasks in priority order, highest first, and among equals the longest waiting first.
///
/// Tasks are named by their numbers. The list has room for as many as it was made for, and takes no
/// memory after that. It doesn't know the tasks' priorities: `index_for` is given them.
#[derive(Drop)]
pub struct PrioList {
    tasks: Vec<usize>,
    capacity: usize,
}

impl Model for PrioList {
    ghost use Rattle.std.specs.Prelude.{◌≤◌, vec_len, vec_capacity};
    ghost use Rattle.rd_wait.specs.TaskList.{TaskList};

    ghost Value = { TaskList };

    ghost view = { λ l. record { tasks = l.tasks.items; capacity = l.capacity } };

    ghost invariant = { λ l. (vec_len l.tasks ≤ l.capacity) × (l.capacity ≤ vec_capacity l.tasks) };
}

/// The index at which a task of priority `priority` joins tasks that are in priority order: after
/// every one of at least that priority that stands before a lower one. `priorities` are the tasks'
/// priorities by number.
pub fn index_for(priorities: &[u8], tasks: &[usize], priority: u8) -> usize
    requires { HavePriorities priorities.now tasks.now }
    ensures index { result ≡ index_for priorities.now tasks.now priority }
    ensures within { result ≤ length tasks.now }
{
    tasks
        .iter()
        .take_while(|task| priorities[**task] >= priority)
        .count()
}

impl PrioList {
    /// An empty list with room for `capacity` tasks.
    pub fn new(alloc: Global, capacity: usize) -> Result<PrioList, AllocError>
        ensures { IfOk result (λ list. list ≡ record { tasks = []; capacity = capacity }) }
    {
        let tasks = Vec::with_capacity(alloc, capacity)?;
        Ok(PrioList { tasks, capacity })
    }

    /// An empty list with room for no task. It takes no memory.
    pub fn without_capacity(alloc: Global) -> PrioList
        ensures { result ≡ record { tasks = []; capacity = 0 } }
    {
        PrioList {
            tasks: Vec::new(alloc),
            capacity: 0,
        }
    }

    /// An equal list.
    pub fn copy(&self, alloc: Global) -> Result<PrioList, AllocError>
        ensures { IfOk result (λ list. list ≡ self.now) }
    {
        let mut tasks = Vec::with_capacity(alloc, self.capacity)?;
        tasks.extend_from_slice(self.tasks.as_slice())?;
        Ok(PrioList {
            tasks,
            capacity: self.capacity,
        })
    }

    /// Whether the other list has the same tasks in the same order, and the same room.
    pub fn same(&self, other: &PrioList) -> bool
        ensures { IsTrue result ↔ (self.now ≡ other.now) }
    {
        self.capacity == other.capacity && self.tasks.as_slice() == other.tasks.as_slice()
    }

    /// The tasks, from the first to be served to the last.
    pub fn as_slice(&self) -> &[usize]
        ensures tasks { result.now ≡ self.now.tasks }
        ensures room { length self.now.tasks ≤ self.now.capacity }
    {
        self.tasks.as_slice()
    }

    /// The index at which a task of priority `priority` joins.
    pub fn index_for(&self, priorities: &[u8], priority: u8) -> usize
        requires { HavePriorities priorities.now self.now.tasks }
        ensures index { result ≡ index_for priorities.now self.now.tasks priority }
        ensures within { result ≤ length self.now.tasks }
    {
        index_for(priorities, self.tasks.as_slice(), priority)
    }

    /// Puts `task` in at `index`. Those from there on move back by one.
    pub fn insert_at(&mut self, index: usize, task: usize)
        requires within { index ≤ length self.old.tasks }
        requires room { length self.old.tasks < self.old.capacity }
        ensures { self.new ≡ record self.old { tasks = insert self.old.tasks index task } }
    {
        self.tasks.insert(index, task).unwrap();
    }

    /// Takes the task at `index` out. Those after it move forward by one.
    pub fn remove_at(&mut self, index: usize) -> usize
        requires { index < length self.old.tasks }
        ensures task { slice_get self.old.tasks index ≡ Some result }
        ensures rest { self.new ≡ record self.old { tasks = remove self.old.tasks index } }
    {
        self.tasks.remove(index)
    }

    /// The first index at which `task` stands.
    pub fn position(&self, task: usize) -> Option<usize>
        ensures index { result ≡ position (λ member. nat_eq member task) self.now.tasks }
        ensures within { IfSome result (λ index. index < length self.now.tasks) }
    {
        self.tasks.iter().position(|member| *member == task)
    }

    /// The task at the front.
    pub fn first(&self) -> Option<usize>
        ensures { result ≡ slice_get self.now.tasks 0 }
    {
        self.tasks.first().copied()
    }
}

/// A law: a task joins a list in order after every member of at least its priority and before every
/// other, and the list stays in order.
pub fn joining_preserves_the_order()
    ensures { JoiningPreservesTheOrder }
{}
