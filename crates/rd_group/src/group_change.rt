//! The primitive changes of an event group, each with the change that undoes it.

ghost use Rattle.std.specs.Prelude.{◌≡◌};
ghost use Rattle.rd_group.specs.GroupChanges.{group_applied, group_inverse_of};
ghost use Rattle.rd_group.specs.GroupChanges.{GroupFits, EachGroupChangeIsUndone};

use crate::group::Group;
use crate::wish::Wish;

/// A primitive change of an event group. An index counts from the front.
#[derive(Clone, Copy)]
pub enum GroupChange {
    /// The task is put among those that wait, at the index, with its wish.
    InsWait {
        index: usize,
        task: usize,
        wish: Wish,
    },
    /// The task at the index leaves those that wait.
    DelWait {
        index: usize,
    },
    /// The group has these bits.
    SetBits {
        bits: u32,
    },
}

impl Group {
    /// Makes a change. It takes no memory.
    #[inline(always)]
    pub fn apply(&mut self, change: GroupChange)
        requires { GroupFits self.old change }
        ensures { self.new ≡ group_applied self.old change }
    {
        match change {
            GroupChange::InsWait { index, task, wish } => self.insert(index, task, wish),
            GroupChange::DelWait { index } => {
                self.remove(index);
            }
            GroupChange::SetBits { bits } => self.set_bits(bits),
        }
    }

    /// The change that undoes `change`, made at this group. It takes no memory.
    #[inline(always)]
    pub fn inverse_of(&self, change: GroupChange) -> GroupChange
        requires { GroupFits self.now change }
        ensures { result ≡ group_inverse_of self.now change }
    {
        match change {
            GroupChange::InsWait { index, .. } => GroupChange::DelWait { index },
            GroupChange::DelWait { index } => GroupChange::InsWait {
                index,
                task: self.waiting().as_slice()[index],
                wish: self.wishes()[index],
            },
            GroupChange::SetBits { .. } => GroupChange::SetBits { bits: self.bits() },
        }
    }
}

/// A law: each change of an event group is undone by its inverse, to the last field of the group.
pub fn each_group_change_is_undone()
    ensures { EachGroupChangeIsUndone }
{}
