//! What moves carry besides their bytes, among the moves of a journal.

ghost use Rattle.std.specs.Prelude.{◌≡◌, ◌-◌, ◌<◌, ◌≤◌, ◌++◌, ◌+◌, [], drop, length, take};
ghost use Rattle.std.specs.Prelude.{IfOk, IsOk, IsTrue, OnErr, OnOk};
ghost use Rattle.rd_timeline.specs.Decoded.{carried_of, carries, next_carried};

use rd_bytes::no_memory::NoMemory;
use rd_moves::carried::{Carried, Lent};
use rd_moves::moves::Move;
use std::alloc::Global;
use std::marker::Model;

/// What the moves done and the moves undone carry, in one list. A move that carries nothing needs
/// none of its memory.
#[derive(Drop)]
pub(crate) struct CarriedList {
    kept: Vec<Carried>,
    // So many of them are of moves done; the others are of moves undone, that of the one to be
    // redone next first.
    done: usize,
}

impl Model for CarriedList {
    ghost use Rattle.std.specs.Prelude.{◌≤◌, drop, length, take, vec_capacity};
    ghost use Rattle.rd_timeline.specs.CarriedView.{CarriedView};

    ghost Value = { CarriedView };

    ghost view = { λ c. record {
      done = take c.done c.kept.items;
      undone = drop c.done c.kept.items;
      capacity = vec_capacity c.kept;
    } };

    ghost invariant = { λ c. c.done ≤ length c.kept.items };
}

impl CarriedList {
    /// Nothing is carried yet.
    pub(crate) fn new(alloc: Global) -> CarriedList
        ensures done { result.done ≡ [] }
        ensures undone { result.undone ≡ [] }
    {
        CarriedList {
            kept: Vec::new(alloc),
            done: 0,
        }
    }

    /// How many moves done carry something.
    pub(crate) fn done(&self) -> usize
        ensures { result ≡ length self.now.done }
    {
        self.done
    }

    /// Makes room for what a move carries, if it carries something. An `Err` says that there is no
    /// memory for it. What is kept stays.
    pub(crate) fn reserve(&mut self, action: &Move<Lent<'_>>) -> Result<(), NoMemory>
        ensures done { self.new.done ≡ self.old.done }
        ensures undone { self.new.undone ≡ self.old.undone }
        ensures ok { OnOk result
            (IsTrue (carries action.now) → length self.new.done < self.new.capacity) }
        ensures enough { (IsTrue (carries action.now) → length self.old.done < self.old.capacity)
            → IsOk result }
        ensures grows { self.old.capacity ≤ self.new.capacity }
    {
        match action {
            Move::Core { .. } | Move::Tick => Ok(()),
            Move::Carried { .. } => {
                let missing = (self.done + 1).saturating_sub(self.kept.len());
                self.kept.reserve(missing)?;
                Ok(())
            }
        }
    }

    /// A move is made: what it carries is the last that is done. What the moves undone carry is
    /// forgotten. It takes no memory.
    pub(crate) fn lay(&mut self, action: &Move<Lent<'_>>)
        requires { IsTrue (carries action.now) → length self.old.done < self.old.capacity }
        ensures done { self.new.done ≡ self.old.done ++ carried_of action.now }
        ensures undone { self.new.undone ≡ [] }
        ensures capacity { self.new.capacity ≡ self.old.capacity }
    {
        self.kept.truncate(self.done);
        match action {
            Move::Core { .. } | Move::Tick => (),
            Move::Carried { carried } => {
                self.kept.push_reserved(carried.carried().copy());
                self.done += 1;
            }
        }
    }

    /// The first of the moves undone that carry something.
    pub(crate) fn next(&self) -> Move<Lent<'_>>
        requires { 0 < length self.now.undone }
        ensures { result ≡ next_carried self.now.undone }
    {
        Move::Carried {
            carried: Lent::new(&self.kept[self.done]),
        }
    }

    /// What the next `n` moves undone carry, of those that carry something, is done again.
    pub(crate) fn go_on(&mut self, n: usize)
        requires { n ≤ length self.old.undone }
        ensures done { self.new.done ≡ self.old.done ++ take n self.old.undone }
        ensures undone { self.new.undone ≡ drop n self.old.undone }
        ensures capacity { self.new.capacity ≡ self.old.capacity }
    {
        self.done += n;
    }

    /// What the last `n` moves done carry, of those that carry something, is undone.
    pub(crate) fn take_back(&mut self, n: usize)
        requires { n ≤ length self.old.done }
        ensures done { self.new.done ≡ take (length self.old.done - n) self.old.done }
        ensures undone { self.new.undone
            ≡ drop (length self.old.done - n) self.old.done ++ self.old.undone }
        ensures capacity { self.new.capacity ≡ self.old.capacity }
    {
        self.done -= n;
    }

    /// Sets aside what the moves undone carry. An `Err` says that there is something and no memory
    /// for that, and leaves all as it was.
    pub(crate) fn set_aside(&mut self) -> Result<Vec<Carried>, NoMemory>
        ensures aside { IfOk result (λ aside. aside.items ≡ self.old.undone) }
        ensures emptied { OnOk result (self.new ≡ record self.old { undone = [] }) }
        ensures short { OnErr result (0 < length self.old.undone) }
        ensures err { OnErr result (self.new ≡ self.old) }
    {
        let carried = self.kept.split_off(self.done)?;
        Ok(carried)
    }

    /// Puts what was set aside in the place of what the moves undone carry. It takes no memory.
    pub(crate) fn put_back(&mut self, aside: Vec<Carried>)
        requires { length self.old.done + length aside.items ≤ self.old.capacity }
        ensures done { self.new.done ≡ self.old.done }
        ensures undone { self.new.undone ≡ aside.items }
        ensures grows { self.old.capacity ≤ self.new.capacity }
    {
        let mut aside = aside;
        self.kept.truncate(self.done);
        self.kept.append(&mut aside).unwrap();
    }
}
