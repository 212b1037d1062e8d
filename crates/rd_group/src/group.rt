//! An event group: its bits, and the tasks that wait for some of them.

ghost use Rattle.std.specs.Prelude.{◌≡◌, ◌+◌, ◌<◌, ◌≤◌, ◌↔◌, length};
ghost use Rattle.std.specs.Prelude.{slice_get, IsTrue, IfOk};
ghost use Rattle.rd_group.specs.Groups.{empty_group, with_bits, with_waiter_at};
ghost use Rattle.rd_group.specs.Groups.{without_waiter_at, met_by, bits_left};
ghost use Rattle.rd_group.specs.Sizes.{IsSizedGroup};

use crate::wish::{MAX_BITS, Wish};
use arrayvec::ArrayVec;
use rd_wait::fifo_list::FifoList;
use std::alloc::{AllocError, Global};
use std::marker::Model;

/// For how many tasks an event group has room at the most.
pub const MAX_WAITERS: usize = 32;

/// An event group: its bits, and the tasks that wait, in the order of arrival, each with its wish.
/// All its memory is taken by `new`.
#[derive(Drop)]
pub struct Group {
    bits: u32,
    waiting: FifoList,
    wishes: Vec<Wish>,
}

impl Model for Group {
    ghost use Rattle.std.specs.Prelude.{◌≡◌, ◌<◌, ◌≤◌, length, All, vec_capacity};
    ghost use Rattle.rd_group.specs.declared.group.TheConstants.{MAX_WAITERS};
    ghost use Rattle.rd_group.specs.declared.wish.TheConstants.{MAX_BITS};
    ghost use Rattle.rd_group.specs.GroupSnapshot.{GroupSnapshot};

    ghost Value = { GroupSnapshot };

    ghost view = { λ g. record {
      bits = g.bits;
      waiting = g.waiting.tasks;
      wishes = g.wishes.items;
      task_count = g.waiting.capacity;
    } };

    // The bits are some that can be used, here and in each wish. Those that wait are tasks, each
    // with a wish, and the room for their wishes is reserved.
    ghost invariant = { λ g. (g.bits ≤ MAX_BITS)
        × All (λ task. task < g.waiting.capacity) g.waiting.tasks
        × (length g.wishes.items ≡ length g.waiting.tasks)
        × All (λ wish. wish.bits ≤ MAX_BITS) g.wishes.items
        × (g.waiting.capacity ≤ vec_capacity g.wishes) × (g.waiting.capacity ≤ MAX_WAITERS) };
}

// Whether these are the same wishes, one by one.
fn same_wishes(wishes: &[Wish], others: &[Wish]) -> bool
    ensures { IsTrue result ↔ (wishes.now ≡ others.now) }
{
    wishes == others
}

impl Group {
    /// A group without bits (`xEventGroupCreate`), at which `task_count` tasks can wait, 0 to 32.
    pub fn new(alloc: Global, task_count: usize) -> Result<Group, AllocError>
        requires { task_count ≤ MAX_WAITERS }
        ensures { IfOk result (λ group. group ≡ empty_group task_count) }
    {
        let wishes = Vec::with_capacity(alloc, task_count)?;
        Ok(Group {
            bits: 0,
            waiting: FifoList::new(alloc, task_count)?,
            wishes,
        })
    }

    /// An equal group.
    pub fn copy(&self, alloc: Global) -> Result<Group, AllocError>
        ensures { IfOk result (λ group. group ≡ self.now) }
    {
        let mut wishes = Vec::with_capacity(alloc, self.wishes.capacity())?;
        wishes.extend_from_slice(self.wishes.as_slice())?;
        Ok(Group {
            bits: self.bits,
            waiting: self.waiting.copy(alloc)?,
            wishes,
        })
    }

    /// Whether the other group has the same bits, the same room, and the same tasks wait at it for
    /// the same, in the same order.
    pub fn same(&self, other: &Group) -> bool
        ensures { IsTrue result ↔ (self.now ≡ other.now) }
    {
        let has_same_wishes = same_wishes(self.wishes.as_slice(), other.wishes.as_slice());
        self.bits == other.bits && has_same_wishes && self.waiting.same(&other.waiting)
    }

    /// For contracts alone: the sizes that every group keeps.
    pub fn sizes(&self)
        ensures { IsSizedGroup self.now }
    {
        self.waiting.as_slice();
    }

    /// The bits (`xEventGroupGetBits`).
    pub fn bits(&self) -> u32
        ensures bits { result ≡ self.now.bits }
        ensures within { result ≤ MAX_BITS }
    {
        self.bits
    }

    /// Puts these bits in the place of the group's own.
    pub fn set_bits(&mut self, bits: u32)
        requires { bits ≤ MAX_BITS }
        ensures { self.new ≡ with_bits self.old bits }
    {
        self.bits = bits;
    }

    /// The tasks that wait, in the order of arrival.
    pub fn waiting(&self) -> &FifoList
        ensures tasks { result.now.tasks ≡ self.now.waiting }
        ensures room { result.now.capacity ≡ self.now.task_count }
    {
        &self.waiting
    }

    /// What they wait for, in the same order.
    pub fn wishes(&self) -> &[Wish]
        ensures wishes { result.now ≡ self.now.wishes }
        ensures one_each { length result.now ≡ length self.now.waiting }
    {
        self.wishes.as_slice()
    }

    /// Puts a task with its wish among those that wait, at `index`. It takes no memory.
    pub fn insert(&mut self, index: usize, task: usize, wish: Wish)
        requires within { index ≤ length self.old.waiting }
        requires room { length self.old.waiting < self.old.task_count }
        requires task { task < self.old.task_count }
        requires wish { wish.bits ≤ MAX_BITS }
        ensures { self.new ≡ with_waiter_at self.old index task wish }
    {
        self.waiting.insert_at(index, task);
        self.wishes.insert(index, wish).unwrap();
    }

    /// Takes the task at `index` out of those that wait, and its wish.
    pub fn remove(&mut self, index: usize) -> usize
        requires { index < length self.old.waiting }
        ensures task { slice_get self.old.waiting index ≡ Some result }
        ensures rest { self.new ≡ without_waiter_at self.old index }
    {
        self.wishes.remove(index);
        self.waiting.remove_at(index)
    }

    /// The tasks whose wishes these bits meet, in the order of arrival. It takes no memory.
    pub fn met(&self, bits: u32) -> ArrayVec<usize, MAX_WAITERS>
        ensures { result.items ≡ met_by self.now bits }
    {
        let tasks = self.waiting.as_slice();
        let mut met = ArrayVec::new();
        for index in 0..tasks.len() {
            if self.wishes[index].is_met(bits) {
                met.push(tasks[index]);
            }
        }
        met
    }

    /// These bits without those of each wish that they meet and that clears them
    /// (`xEventGroupSetBits`). Whether a wish is met doesn't hang on what others have cleared.
    pub fn bits_left(&self, bits: u32) -> u32
        ensures left { result ≡ bits_left self.now bits }
        ensures no_others { result ≤ bits }
    {
        let mut left = bits;
        for wish in self.wishes.iter() {
            if wish.is_met(bits) {
                left = wish.left_of(left);
            }
        }
        left
    }
}

/// For contracts alone: for how many tasks an event group has room at the most, as a number.
pub fn limit_of_waiters()
    ensures { MAX_WAITERS ≡ 32 }
{}
