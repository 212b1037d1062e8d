//! The record of one move, and the way back by it.

ghost use Rattle.std.specs.Prelude.{◌≡◌, ◌<◌, ◌∷◌, ◌++◌, [], length, slice_index_or};
ghost use Rattle.std.specs.Prelude.{OnErr, OnOk};
ghost use Rattle.rd_state.specs.Change.{applied, inverse_of, no_change, the_change, weight_of};
ghost use Rattle.rd_state.specs.Change.{Fits};
ghost use Rattle.rd_state.specs.PackedChanges.{all_packed, changes_in, AreChanges};
ghost use Rattle.rd_state.specs.Undoing.{undone, CanUndo, EachIsUndone};

use crate::change::Change;
use crate::change_list::{ChangeList, go_back};
use crate::state::State;
use rd_bytes::no_memory::NoMemory;
use std::alloc::Global;
use std::marker::Model;

/// The record of a move: the changes that undo it, in the order of recording. Those of nearly every
/// move take no memory elsewhere. It can't be dropped: it ends in `State::back`, in a log or in
/// `retire`.
pub struct Undo {
    pub(crate) changes: ChangeList,
}

impl Model for Undo {
    ghost use Rattle.std.specs.Prelude.{List};
    ghost use Rattle.rd_state.specs.Change.{Change};

    ghost Value = { List Change };

    ghost view = { λ u. u.changes.changes };
}

impl Undo {
    /// A record of nothing.
    pub fn new(alloc: Global) -> Undo
        ensures { result ≡ [] }
    {
        Undo {
            changes: ChangeList::new(alloc),
        }
    }

    /// Ends a record that nobody will go back by.
    pub fn retire(self) {
        let Undo { changes } = self;
        changes.retire();
    }

    /// How many changes it has. It takes no memory.
    pub fn len(&self) -> usize
        ensures { result ≡ length self.now }
    {
        self.changes.len()
    }

    /// The change at `index`, in the order of recording. It takes no memory.
    pub fn get(&self, index: usize) -> Change<'_>
        requires { index < length self.now }
        ensures { the_change result ≡ slice_index_or self.now index no_change }
    {
        self.changes.get(index)
    }

    /// Its changes, as the list that they are.
    pub fn changes(&self) -> &ChangeList
        ensures { result.now.changes ≡ self.now }
    {
        &self.changes
    }

    /// The bytes of its changes, one after the other.
    pub fn bytes(&self) -> &[u8]
        ensures bytes { result.now ≡ all_packed self.now }
        ensures changes { changes_in (length self.now) result.now ≡ self.now }
        ensures are { AreChanges (length self.now) result.now }
    {
        self.changes.bytes()
    }

    /// For tests alone: how much it takes: the number of its changes and the bytes that they carry.
    pub fn weight(&self) -> usize
        ensures { result ≡ weight_of self.now }
    {
        self.changes.weight()
    }
}

impl State {
    /// Goes back by a record, its last change first. It takes no memory.
    pub fn back(&mut self, undo: Undo)
        requires { CanUndo self.old undo }
        ensures { self.new ≡ undone self.old undo }
    {
        let mut undo = undo;
        undo.changes.back_to(self, 0);
        undo.retire();
    }

    /// Goes back by so many changes, which these bytes are, the last one first. It takes no memory.
    #[inline(always)]
    pub fn back_by(&mut self, bytes: &[u8], count: usize)
        requires are { AreChanges count bytes.now }
        requires fits { CanUndo self.old (changes_in count bytes.now) }
        ensures { self.new ≡ undone self.old (changes_in count bytes.now) }
    {
        go_back(self, bytes, count, 0);
    }
}

/// Makes a change, and puts the change that undoes it at the record's end. Where there is no memory
/// for its bytes, nothing has changed.
pub fn act(state: &mut State, undo: &mut Undo, change: Change<'_>) -> Result<(), NoMemory>
    requires { Fits state.old (the_change change) }
    ensures state { OnOk result (state.new ≡ applied state.old (the_change change.entry)) }
    ensures record { OnOk result
        (undo.new ≡ undo.old ++ inverse_of state.old (the_change change.entry) ∷ []) }
    ensures err { OnErr result (state.new ≡ state.old) }
    ensures err_record { OnErr result (undo.new ≡ undo.old) }
{
    undo.changes.act(state, change)
}

/// A law: each change is undone by its inverse, to the last field of the state.
pub fn each_change_is_undone()
    ensures { EachIsUndone }
{}
