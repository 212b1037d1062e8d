//! Lists of things that are copied and compared whole.

ghost use Rattle.std.specs.Prelude.{◌≡◌, ◌↔◌, IfOk, IsTrue};

use crate::task::Task;
use rd_bytes::no_memory::NoMemory;
use std::alloc::{AllocError, Global};

/// What can be copied and compared to the last field.
pub(crate) trait Whole: Drop + Sized {
    /// An equal one.
    fn copied(&self, alloc: Global) -> Result<Self, AllocError>
        ensures { IfOk result (λ copy. copy ≡ self.now) };

    /// Whether the other is equal.
    fn is_same(&self, other: &Self) -> bool
        ensures { IsTrue result ↔ (self.now ≡ other.now) };
}

impl Whole for Task {
    fn copied(&self, _alloc: Global) -> Result<Task, AllocError> {
        Ok(self.copy())
    }

    fn is_same(&self, other: &Task) -> bool {
        self.same(other)
    }
}

/// Equal things.
pub(crate) fn copy_all<T: Whole>(alloc: Global, things: &[T]) -> Result<Vec<T>, NoMemory>
    ensures { IfOk result (λ copies. copies.items ≡ things.now) }
{
    let mut copies = Vec::with_capacity(alloc, things.len())?;
    for thing in things {
        copies.push(thing.copied(alloc)?)?;
    }
    Ok(copies)
}

/// Whether the things are equal, one by one.
pub(crate) fn all_same<T: Whole>(things: &[T], others: &[T]) -> bool
    ensures { IsTrue result ↔ (things.now ≡ others.now) }
{
    if things.len() != others.len() {
        return false;
    }
    for number in 0..things.len() {
        if !things[number].is_same(&others[number]) {
            return false;
        }
    }
    true
}
