//! A list of changes, kept as bytes and undone from its end.

ghost use Rattle.std.specs.Prelude.{◌≡◌, ◌<◌, ◌≤◌, ◌∷◌, ◌++◌, [], length, take, drop};
ghost use Rattle.std.specs.Prelude.{◌+◌, slice_index_or, IsOk, OnOk, OnErr};
ghost use Rattle.rd_bytes.specs.Ends.{end_byte};
ghost use Rattle.rd_bytes.specs.declared.tag.TheConstants.{DEL_READY};
ghost use Rattle.rd_bytes.specs.declared.byte_stack.TheConstants.{INLINE_BYTES};
ghost use Rattle.rd_state.specs.Change.{applied, inverse_of, no_change, the_change, weight_of};
ghost use Rattle.rd_state.specs.Change.{Fits, Object, Task};
ghost use Rattle.rd_state.specs.Objects.{the_object_change};
ghost use Rattle.rd_state.specs.PackedChanges.{all_packed, changes_in, AreChanges, HasBytes};
ghost use Rattle.rd_state.specs.PackedChanges.{before_last, last_change, EndsInChange};
ghost use Rattle.rd_state.specs.PackedChanges.{HasNoRoomForChange};
ghost use Rattle.rd_state.specs.TaskChanges.{the_task_change};
ghost use Rattle.rd_state.specs.Transfers.{change_of, CanTransfer};
ghost use Rattle.rd_state.specs.Undoing.{undone, CanUndo};

use crate::change::Change;
use crate::objects::ObjectChange;
use crate::packing::{last_change, last_object_change, last_plain_change};
use crate::state::State;
use crate::task_change::TaskChange;
use crate::transfer::Transfer;
use rd_bytes::byte_stack::ByteStack;
use rd_bytes::no_memory::NoMemory;
use std::alloc::Global;
use std::marker::Model;

/// A list of changes, as bytes one after the other. Up to 48 bytes take no memory elsewhere. It
/// can't be dropped outside of this crate, where records alone end it.
pub struct ChangeList {
    bytes: ByteStack,
    count: usize,
}

impl Model for ChangeList {
    ghost use Rattle.rd_state.specs.PackedChanges.{changes_in, AreChanges, ChangeListView};

    ghost Value = { ChangeListView };

    ghost view = { λ l. record {
      changes = changes_in l.count l.bytes.bytes;
      capacity = l.bytes.capacity;
    } };

    ghost invariant = { λ l. AreChanges l.count l.bytes.bytes };
}

// Makes the change of an object that stands at the end of the bytes. Answers the bytes before it.
// (By a call: it needs room that else would be cleared for each change, whichever it is.)
#[inline(never)]
fn apply_of_object<'a>(state: &mut State, bytes: &'a [u8]) -> &'a [u8]
    requires ends { EndsInChange bytes.now }
    requires object { DEL_READY < end_byte 1 bytes.now }
    requires fits { Fits state.old (last_change bytes.now) }
    ensures state { state.new ≡ applied state.old (last_change bytes.now) }
    ensures rest { result.now ≡ before_last bytes.now }
{
    let (change, rest) = last_object_change(bytes);
    state.change_object(change);
    rest
}

// Makes the change that stands at the end of the bytes. Answers the bytes before it.
#[inline(always)]
fn apply_last<'a>(state: &mut State, bytes: &'a [u8]) -> &'a [u8]
    requires ends { EndsInChange bytes.now }
    requires fits { Fits state.old (last_change bytes.now) }
    ensures state { state.new ≡ applied state.old (last_change bytes.now) }
    ensures rest { result.now ≡ before_last bytes.now }
{
    let Some(last) = last_plain_change(bytes) else {
        return apply_of_object(state, bytes);
    };
    state.apply(last.change);
    last.rest
}

// Goes back by the changes that these bytes have after the first `len`, the last one first. Answers
// how many bytes those first ones take.
#[inline(always)]
pub(crate) fn go_back(state: &mut State, bytes: &[u8], count: usize, len: usize) -> usize
    requires are { AreChanges count bytes.now }
    requires within { len ≤ count }
    requires fits { CanUndo state.old (drop len (changes_in count bytes.now)) }
    ensures state { state.new ≡ undone state.old (drop len (changes_in count bytes.now)) }
    ensures left { changes_in len (take result bytes.now) ≡ take len (changes_in count bytes.now) }
    ensures are { AreChanges len (take result bytes.now) }
{
    let mut rest = bytes;
    let mut left = count;
    while left > len {
        rest = apply_last(state, rest);
        left -= 1;
    }
    rest.len()
}

impl ChangeList {
    /// No changes. It takes no memory.
    pub fn new(alloc: Global) -> ChangeList
        ensures { result ≡ record { changes = []; capacity = INLINE_BYTES } }
    {
        ChangeList {
            bytes: ByteStack::new(alloc),
            count: 0,
        }
    }

    /// How many changes there are.
    #[inline(always)]
    pub fn len(&self) -> usize
        ensures { result ≡ length self.now.changes }
    {
        self.count
    }

    /// The bytes of all changes, one after the other.
    #[inline(always)]
    pub fn bytes(&self) -> &[u8]
        ensures bytes { result.now ≡ all_packed self.now.changes }
        ensures changes { changes_in (length self.now.changes) result.now ≡ self.now.changes }
        ensures are { AreChanges (length self.now.changes) result.now }
        ensures room { length (all_packed self.now.changes) ≤ self.now.capacity }
    {
        // (there are no more bytes than there is room for)
        let _len = self.bytes.len();
        self.bytes.as_slice()
    }

    /// The change at `index`. It takes no memory.
    pub fn get(&self, index: usize) -> Change<'_>
        requires { index < length self.now.changes }
        ensures { the_change result ≡ slice_index_or self.now.changes index no_change }
    {
        let mut rest = self.bytes.as_slice();
        let mut left = self.count;
        while left > index + 1 {
            rest = last_change(rest).rest;
            left -= 1;
        }
        last_change(rest).change
    }

    /// How much the changes take: their number and the bytes that they carry, which is no more than
    /// the bytes that they are kept in.
    pub fn weight(&self) -> usize
        ensures { result ≡ weight_of self.now.changes }
    {
        // (each byte that a change carries is one of these)
        let _len = self.bytes.len();
        let mut weight = 0;
        let mut rest = self.bytes.as_slice();
        let mut left = self.count;
        while left > 0 {
            let last = last_change(rest);
            weight += last.change.cost();
            rest = last.rest;
            left -= 1;
        }
        weight
    }

    /// Puts a change at the end. It takes no memory where there is room for its bytes. Where there
    /// is no memory for them, nothing has changed.
    #[inline(always)]
    pub fn push(&mut self, change: Change<'_>) -> Result<(), NoMemory>
        requires { HasBytes (the_change change) }
        ensures ok { OnOk result
            (self.new.changes ≡ self.old.changes ++ the_change change.entry ∷ []) }
        ensures short { OnErr result (HasNoRoomForChange self.old (the_change change.entry)) }
        ensures grows { self.old.capacity ≤ self.new.capacity }
        ensures err { OnErr result (self.new ≡ self.old) }
    {
        change.pack(&mut self.bytes)?;
        // Each change takes a byte at least, so their number fits.
        let _len = self.bytes.len();
        self.count += 1;
        Ok(())
    }

    // Puts a change of a task at the end, likewise.
    #[inline(always)]
    fn push_of_task(&mut self, task: usize, change: TaskChange<'_>) -> Result<(), NoMemory>
        requires { HasBytes (Task task (the_task_change change)) }
        ensures ok { OnOk result (self.new.changes
            ≡ self.old.changes ++ Task task (the_task_change change.entry) ∷ []) }
        ensures short { OnErr result
            (HasNoRoomForChange self.old (Task task (the_task_change change.entry))) }
        ensures grows { self.old.capacity ≤ self.new.capacity }
        ensures err { OnErr result (self.new ≡ self.old) }
    {
        change.pack(task, &mut self.bytes)?;
        let _len = self.bytes.len();
        self.count += 1;
        Ok(())
    }

    // Puts a change of an object at the end, likewise.
    #[inline(always)]
    fn push_of_object(&mut self, change: ObjectChange<'_>) -> Result<(), NoMemory>
        requires { HasBytes (Object (the_object_change change)) }
        ensures ok { OnOk result (self.new.changes
            ≡ self.old.changes ++ Object (the_object_change change.entry) ∷ []) }
        ensures short { OnErr result
            (HasNoRoomForChange self.old (Object (the_object_change change.entry))) }
        ensures grows { self.old.capacity ≤ self.new.capacity }
        ensures err { OnErr result (self.new ≡ self.old) }
    {
        change.pack(&mut self.bytes)?;
        let _len = self.bytes.len();
        self.count += 1;
        Ok(())
    }

    /// Makes room for `more` bytes of changes. Where there is no memory for it, nothing has
    /// changed.
    #[inline(always)]
    pub fn reserve(&mut self, more: usize) -> Result<(), NoMemory>
        ensures changes { self.new.changes ≡ self.old.changes }
        ensures ok { OnOk result
            (length (all_packed self.new.changes) + more ≤ self.new.capacity) }
        ensures enough { length (all_packed self.old.changes) + more ≤ self.old.capacity
            → IsOk result }
        ensures grows { self.old.capacity ≤ self.new.capacity }
        ensures err { OnErr result (self.new ≡ self.old) }
    {
        self.bytes.reserve(more)
    }

    /// Makes a change, and puts the change that undoes it at the end. It takes no memory where
    /// there is room for its bytes. Where there is no memory for them, nothing has changed.
    #[inline(always)]
    pub fn act(&mut self, state: &mut State, change: Change<'_>) -> Result<(), NoMemory>
        requires { Fits state.old (the_change change) }
        ensures state { OnOk result (state.new ≡ applied state.old (the_change change.entry)) }
        ensures record { OnOk result (self.new.changes
            ≡ self.old.changes ++ inverse_of state.old (the_change change.entry) ∷ []) }
        ensures short { OnErr result (HasNoRoomForChange self.old
            (inverse_of state.old (the_change change.entry))) }
        ensures grows { self.old.capacity ≤ self.new.capacity }
        ensures err { OnErr result (state.new ≡ state.old) }
        ensures err_record { OnErr result (self.new ≡ self.old) }
    {
        state.sizes();
        self.push(state.inverse_of(change))?;
        state.apply(change);
        Ok(())
    }

    /// Makes a change of a task, as `act` does. It takes no memory where there is room for the
    /// bytes of what undoes it. Where there is no memory for them, nothing has changed.
    #[inline(always)]
    pub fn act_of_task(
        &mut self,
        state: &mut State,
        task: usize,
        change: TaskChange<'_>,
    ) -> Result<(), NoMemory>
        requires { Fits state.old (Task task (the_task_change change)) }
        ensures state { OnOk result
            (state.new ≡ applied state.old (Task task (the_task_change change.entry))) }
        ensures record { OnOk result (self.new.changes ≡ self.old.changes
            ++ inverse_of state.old (Task task (the_task_change change.entry)) ∷ []) }
        ensures short { OnErr result (HasNoRoomForChange self.old
            (inverse_of state.old (Task task (the_task_change change.entry)))) }
        ensures grows { self.old.capacity ≤ self.new.capacity }
        ensures err { OnErr result (state.new ≡ state.old) }
        ensures err_record { OnErr result (self.new ≡ self.old) }
    {
        state.sizes();
        self.push_of_task(task, state.task(task).inverse_of(change))?;
        state.change_task(task, change);
        Ok(())
    }

    /// Makes a change of an object, as `act` does. It takes no memory where there is room for the
    /// bytes of what undoes it. Where there is no memory for them, nothing has changed.
    #[inline(always)]
    pub fn act_of_object(
        &mut self,
        state: &mut State,
        change: ObjectChange<'_>,
    ) -> Result<(), NoMemory>
        requires { Fits state.old (Object (the_object_change change)) }
        ensures state { OnOk result
            (state.new ≡ applied state.old (Object (the_object_change change.entry))) }
        ensures record { OnOk result (self.new.changes ≡ self.old.changes
            ++ inverse_of state.old (Object (the_object_change change.entry)) ∷ []) }
        ensures short { OnErr result (HasNoRoomForChange self.old
            (inverse_of state.old (Object (the_object_change change.entry)))) }
        ensures grows { self.old.capacity ≤ self.new.capacity }
        ensures err { OnErr result (state.new ≡ state.old) }
        ensures err_record { OnErr result (self.new ≡ self.old) }
    {
        state.sizes();
        self.push_of_object(state.objects().inverse_of(change))?;
        state.change_object(change);
        Ok(())
    }

    /// Makes a transfer, and puts the change that undoes it at the end. It takes no memory where
    /// there is room for its bytes. Where there is no memory for them, nothing has changed.
    #[inline(always)]
    pub fn act_transfer(&mut self, state: &mut State, transfer: Transfer) -> Result<(), NoMemory>
        requires { CanTransfer state.old transfer }
        ensures state { OnOk result
            (state.new ≡ applied state.old (change_of state.old transfer)) }
        ensures record { OnOk result (self.new.changes
            ≡ self.old.changes ++ inverse_of state.old (change_of state.old transfer) ∷ []) }
        ensures short { OnErr result (HasNoRoomForChange self.old
            (inverse_of state.old (change_of state.old transfer))) }
        ensures grows { self.old.capacity ≤ self.new.capacity }
        ensures err { OnErr result (state.new ≡ state.old) }
        ensures err_record { OnErr result (self.new ≡ self.old) }
    {
        state.sizes();
        match transfer {
            Transfer::FromData { task, sink } => {
                self.push_of_object(state.inverse_of_sink(task, sink))?;
            }
            Transfer::ToData { task, .. } => {
                let bytes = state.task(task).bytes();
                self.push_of_task(task, TaskChange::SetData { bytes })?;
            }
        }
        state.transfer(transfer);
        Ok(())
    }

    /// Goes back by the changes after the first `len`, the last one first; they leave the list. It
    /// takes no memory, and keeps the memory that it has.
    #[inline(always)]
    pub fn back_to(&mut self, state: &mut State, len: usize)
        requires within { len ≤ length self.old.changes }
        requires fits { CanUndo state.old (drop len self.old.changes) }
        ensures state { state.new ≡ undone state.old (drop len self.old.changes) }
        ensures changes { self.new.changes ≡ take len self.old.changes }
        ensures capacity { self.new.capacity ≡ self.old.capacity }
    {
        let end = go_back(state, self.bytes.as_slice(), self.count, len);
        self.bytes.truncate(end);
        self.count = len;
    }

    /// Empties the list, which keeps the memory that it has.
    #[inline(always)]
    pub(crate) fn clear(&mut self)
        ensures changes { self.new.changes ≡ [] }
        ensures capacity { self.new.capacity ≡ self.old.capacity }
    {
        self.bytes.truncate(0);
        self.count = 0;
    }

    /// Ends the list.
    pub(crate) fn retire(self) {
        let ChangeList { bytes: _, count: _ } = self;
    }
}
