//! A move in the middle: the state and the record of what was changed.

ghost use Rattle.std.specs.Prelude.{◌≡◌, ◌<◌, ◌≤◌, ◌++◌, ◌∷◌, [], false, true, length, drop};
ghost use Rattle.std.specs.Prelude.{insert, remove, take};
ghost use Rattle.std.specs.Prelude.{IfSome, IsOk, IsTrue, OnOk, OnErr};
ghost use Rattle.std.specs.Borrow.{sem, Lends};
ghost use Rattle.rd_state.specs.contracts.editing.Editing.{the_row};
ghost use Rattle.rd_state.specs.contracts.state.State.{the_row as state_row};
ghost use Rattle.rd_state.specs.Change.{applied, cost_of, inverse_of, moves_lineup, the_change};
ghost use Rattle.rd_state.specs.Change.{Fits, Object, Task};
ghost use Rattle.rd_state.specs.Objects.{the_object_change};
ghost use Rattle.rd_state.specs.EditingView.{begun_at, calm_behind, capacity_of, room_for, GoesOn};
ghost use Rattle.rd_state.specs.EditingView.{IsCalmSince, Reaches};
ghost use Rattle.rd_state.specs.Sizes.{IsSized};
ghost use Rattle.rd_state.specs.TaskChanges.{the_task_change};
ghost use Rattle.rd_state.specs.Transfers.{change_of, CanTransfer};
ghost use Rattle.rd_state.specs.Undoing.{undone, CanUndo};
ghost use Rattle.rd_group.specs.declared.wish.TheConstants.{MAX_BITS};
ghost use Rattle.rd_state.specs.declared.phase.Listed.TheVariants.{Group};
ghost use Rattle.rd_state.specs.Snapshot.{group_at};
ghost use Rattle.rd_state.specs.Waiting.{is_by_priority, waiting_at, wishes_at, with_holder};
ghost use Rattle.rd_state.specs.Waiting.{with_waiting_at, HasHeld, HasList};

use crate::change::Change;
use crate::change_list::ChangeList;
use crate::objects::ObjectChange;
use crate::phase::{Held, Listed};
use crate::state::State;
use crate::task_change::TaskChange;
use crate::transfer::Transfer;
use crate::undo::Undo;
use rd_bytes::no_memory::NoMemory;
use rd_group::group_change::GroupChange;
use rd_group::wish::Wish;
use rd_queue::change::QueueChange;
use rd_queue::queue_set_change::QueueSetChange;
use rd_stream::message_change::MessageChange;
use rd_stream::stream_change::StreamChange;
use std::alloc::Global;
use std::marker::Model;

/// A state that is changed move by move, with a record, to which each change adds what undoes it.
/// It owns both. The rules of the kernel are written over it. It can't be dropped: it ends in `end`
/// or in `retire`.
pub struct Editing {
    state: State,
    changes: ChangeList,
    // So many changes the record had when the move began.
    start: usize,
    // Whether nothing has called for settling: by then, and by now.
    was_calm: bool,
    calm: bool,
}

impl Model for Editing {
    ghost use Rattle.rd_state.specs.EditingView.{EditingView};

    ghost Value = { EditingView };

    ghost use Rattle.rd_state.specs.EditingInside.{IsEditing, editing_in};

    ghost view = { editing_in };

    ghost invariant = { IsEditing };
}

// Whether nothing calls for settling, once a change was made or refused.
#[inline(always)]
fn stays_calm(calm: bool, made: &Result<(), NoMemory>, change: Change<'_>) -> bool
    ensures before { IsTrue result → IsTrue calm }
    ensures still { IsTrue result → OnOk made.now (moves_lineup (the_change change.entry) ≡ false) }
    ensures ok { OnOk made.now (result ≡ calm_behind calm (the_change change.entry)) }
    ensures err { OnErr made.now (result ≡ calm) }
{
    calm && (made.is_err() || !change.moves_lineup())
}

impl Editing {
    /// A state, with an empty record, to which the changes of moves will be added. The first move
    /// begins here. Whether the state is settled isn't known. It takes no memory.
    pub fn new(alloc: Global, state: State) -> Editing
        ensures { result ≡ begun_at state [] result.room false }
    {
        Editing {
            state,
            changes: ChangeList::new(alloc),
            start: 0,
            was_calm: false,
            calm: false,
        }
    }

    /// A move begins here.
    #[inline(always)]
    pub fn begin(&mut self)
        ensures { self.new
            ≡ begun_at self.old.now self.old.changes self.old.room self.old.calm }
    {
        self.start = self.changes.len();
        self.was_calm = self.calm;
    }

    /// The changes that the record has.
    #[inline(always)]
    pub fn recorded(&self) -> &ChangeList
        ensures { result.now.changes ≡ self.now.changes }
    {
        &self.changes
    }

    /// Empties the record, which keeps its room: what it had is kept elsewhere. The next move
    /// begins here, where nothing calls for settling: whoever makes it has seen to that. It takes
    /// no memory.
    #[inline(always)]
    pub fn empty(&mut self)
        ensures begun { self.new ≡ begun_at self.old.now [] self.new.room true }
        ensures capacity { capacity_of self.new ≡ capacity_of self.old }
    {
        // (the record has no more bytes than there is room for)
        self.changes.bytes();
        self.changes.clear();
        self.start = 0;
        self.was_calm = true;
        self.calm = true;
    }

    /// Makes room for `more` bytes of the record. Where there is no memory for it, nothing has
    /// changed.
    #[inline(always)]
    pub fn reserve(&mut self, more: usize) -> Result<(), NoMemory>
        ensures same { self.new ≡ record self.old { room = self.new.room } }
        ensures ok { OnOk result (more ≤ self.new.room) }
        ensures enough { more ≤ self.old.room → IsOk result }
        ensures grows { self.old.room ≤ self.new.room }
        ensures err { OnErr result (self.new ≡ self.old) }
    {
        // (the record has no more bytes than there is room for)
        self.changes.bytes();
        self.changes.reserve(more)
    }

    /// For contracts alone: what the record got since the move began leads back to where it did.
    pub fn goes_on(&self)
        ensures { GoesOn self.now self.now.changes }
    {
        let _ = &self.start;
    }

    /// Whether nothing calls for settling: where the move began nothing did, and each change since
    /// has left the tasks on the cores, and the first that is ready. A state that an editing begins
    /// with (`new`) calls for it.
    #[inline(always)]
    pub fn is_calm(&self) -> bool
        ensures exact { result ≡ self.now.calm }
        ensures since { IsTrue result → IsCalmSince self.now.outset self.now.now }
    {
        self.calm
    }

    /// The state as it is now.
    #[inline(always)]
    pub fn state(&self) -> &State
        ensures state { result.now ≡ self.now.now }
        ensures sized { IsSized self.now.now }
    {
        self.state.sizes();
        &self.state
    }

    /// The state, to go back by what was recorded before, while the record is empty.
    #[inline(always)]
    pub fn state_mut(&mut self) -> &mut State
        requires { self.old.changes ≡ [] }
        ensures state { result.now ≡ self.old.now }
        ensures* lends { sem 𝓛 (Lends the_row state_row self.entry result
            (λ s. begun_at s [] self.old.room self.old.calm)) }
    {
        self.was_calm = self.calm;
        &mut self.state
    }

    /// Makes a change and records what undoes it. Where there is no memory for that, nothing has
    /// changed.
    #[inline(always)]
    pub fn change(&mut self, change: Change<'_>) -> Result<(), NoMemory>
        requires { Fits self.old.now (the_change change) }
        ensures ok { OnOk result (Reaches self.old self.new
            (applied self.old.now (the_change change.entry))
            (cost_of (inverse_of self.old.now (the_change change.entry)))) }
        ensures short { OnErr result (self.old.room
            < room_for (cost_of (inverse_of self.old.now (the_change change.entry)))) }
        ensures calm { OnOk result
            (self.new.calm ≡ calm_behind self.old.calm (the_change change.entry)) }
        ensures err { OnErr result (self.new ≡ self.old) }
    {
        self.state.sizes();
        let made = self.changes.act(&mut self.state, change);
        self.calm = stays_calm(self.calm, &made, change);
        made
    }

    /// Makes a change of a task and records what undoes it: it calls for no settling. Where there
    /// is no memory for that, nothing has changed.
    #[inline(always)]
    pub fn change_task(&mut self, task: usize, change: TaskChange<'_>) -> Result<(), NoMemory>
        requires { Fits self.old.now (Task task (the_task_change change)) }
        ensures ok { OnOk result (Reaches self.old self.new
            (applied self.old.now (Task task (the_task_change change.entry)))
            (cost_of (inverse_of self.old.now (Task task (the_task_change change.entry))))) }
        ensures short { OnErr result (self.old.room < room_for
            (cost_of (inverse_of self.old.now (Task task (the_task_change change.entry))))) }
        ensures calm { self.new.calm ≡ self.old.calm }
        ensures err { OnErr result (self.new ≡ self.old) }
    {
        self.state.sizes();
        self.changes.act_of_task(&mut self.state, task, change)
    }

    /// Makes a change of an object and records what undoes it: it calls for no settling. Where
    /// there is no memory for that, nothing has changed.
    #[inline(always)]
    pub fn change_object(&mut self, change: ObjectChange<'_>) -> Result<(), NoMemory>
        requires { Fits self.old.now (Object (the_object_change change)) }
        ensures ok { OnOk result (Reaches self.old self.new
            (applied self.old.now (Object (the_object_change change.entry)))
            (cost_of (inverse_of self.old.now (Object (the_object_change change.entry))))) }
        ensures short { OnErr result (self.old.room < room_for
            (cost_of (inverse_of self.old.now (Object (the_object_change change.entry))))) }
        ensures calm { self.new.calm ≡ self.old.calm }
        ensures err { OnErr result (self.new ≡ self.old) }
    {
        self.state.sizes();
        self.changes.act_of_object(&mut self.state, change)
    }

    /// Makes a transfer and records what undoes it. Where there is no memory for that, nothing has
    /// changed.
    #[inline(always)]
    pub fn transfer(&mut self, transfer: Transfer) -> Result<(), NoMemory>
        requires { CanTransfer self.old.now transfer }
        ensures ok { OnOk result (Reaches self.old self.new
            (applied self.old.now (change_of self.old.now transfer))
            (cost_of (inverse_of self.old.now (change_of self.old.now transfer)))) }
        ensures short { OnErr result (self.old.room
            < room_for (cost_of (inverse_of self.old.now (change_of self.old.now transfer)))) }
        ensures calm { self.new.calm ≡ self.old.calm }
        ensures err { OnErr result (self.new ≡ self.old) }
    {
        self.state.sizes();
        self.changes.act_transfer(&mut self.state, transfer)
    }

    /// Puts a task into a list that is in the order of priorities, at the index.
    #[inline(always)]
    pub fn insert_waiting(
        &mut self,
        place: Listed,
        index: usize,
        task: usize,
    ) -> Result<(), NoMemory>
        requires place { HasList self.old.now place }
        requires ordered { is_by_priority place ≡ true }
        requires within { index ≤ length (waiting_at self.old.now place) }
        requires room { length (waiting_at self.old.now place) < length self.old.now.tasks }
        requires task { task < length self.old.now.tasks }
        ensures ok { OnOk result (Reaches self.old self.new
            (with_waiting_at self.old.now place
            (insert (waiting_at self.old.now place) index task) []) 1) }
        ensures short { OnErr result (self.old.room < room_for 1) }
        ensures calm { self.new.calm ≡ self.old.calm }
        ensures err { OnErr result (self.new ≡ self.old) }
    {
        self.state.sizes();
        match place {
            Listed::Queue { queue, list } => {
                let change = QueueChange::InsWait { list, index, task };
                let change = ObjectChange::Queue { queue, change };
                self.change_object(change)
            }
            Listed::QueueSet { queue_set } => {
                let change = QueueSetChange::InsWait { index, task };
                let change = ObjectChange::QueueSet { queue_set, change };
                self.change_object(change)
            }
            // (that list is in the order of arrival)
            Listed::Group { .. } => Ok(()),
        }
    }

    /// Puts a task behind those that wait at an event group, with its wish.
    pub fn append_waiting(&mut self, group: usize, task: usize, wish: Wish) -> Result<(), NoMemory>
        requires group { group < length self.old.now.objects.groups }
        requires room { length (group_at self.old.now group).waiting < length self.old.now.tasks }
        requires task { task < length self.old.now.tasks }
        requires bits { wish.bits ≤ MAX_BITS }
        ensures ok { OnOk result (Reaches self.old self.new
            (with_waiting_at self.old.now (Group group)
            ((group_at self.old.now group).waiting ++ task ∷ [])
            ((group_at self.old.now group).wishes ++ wish ∷ [])) 1) }
        ensures short { OnErr result (self.old.room < room_for 1) }
        ensures calm { self.new.calm ≡ self.old.calm }
        ensures err { OnErr result (self.new ≡ self.old) }
    {
        self.state.sizes();
        let index = self.state.group(group).waiting().as_slice().len();
        let change = GroupChange::InsWait { index, task, wish };
        let change = ObjectChange::Group { group, change };
        self.change_object(change)
    }

    /// Takes the task at the index out of a list.
    #[inline(always)]
    pub fn delete_waiting(&mut self, place: Listed, index: usize) -> Result<(), NoMemory>
        requires place { HasList self.old.now place }
        requires within { index < length (waiting_at self.old.now place) }
        ensures ok { OnOk result (Reaches self.old self.new
            (with_waiting_at self.old.now place (remove (waiting_at self.old.now place) index)
            (remove (wishes_at self.old.now place) index)) 1) }
        ensures short { OnErr result (self.old.room < room_for 1) }
        ensures calm { self.new.calm ≡ self.old.calm }
        ensures err { OnErr result (self.new ≡ self.old) }
    {
        match place {
            Listed::Queue { queue, list } => {
                let change = QueueChange::DelWait { list, index };
                let change = ObjectChange::Queue { queue, change };
                self.change_object(change)
            }
            Listed::QueueSet { queue_set } => {
                let change = QueueSetChange::DelWait { index };
                let change = ObjectChange::QueueSet { queue_set, change };
                self.change_object(change)
            }
            Listed::Group { group } => {
                let change = GroupChange::DelWait { index };
                let change = ObjectChange::Group { group, change };
                self.change_object(change)
            }
        }
    }

    /// Has the place of a buffer name this task, or nobody.
    #[inline(always)]
    pub fn set_holder(&mut self, held: Held, task: Option<usize>) -> Result<(), NoMemory>
        requires held { HasHeld self.old.now held }
        requires task { IfSome task (λ t. t < length self.old.now.tasks) }
        ensures ok { OnOk result
            (Reaches self.old self.new (with_holder self.old.now held task) 1) }
        ensures short { OnErr result (self.old.room < room_for 1) }
        ensures calm { self.new.calm ≡ self.old.calm }
        ensures err { OnErr result (self.new ≡ self.old) }
    {
        self.state.sizes();
        match held {
            Held::Stream { stream, side } => {
                let change = StreamChange::SetHolder { side, task };
                let change = ObjectChange::Stream { stream, change };
                self.change_object(change)
            }
            Held::Message { message, side } => {
                let change = MessageChange::SetHolder { side, task };
                let change = ObjectChange::Message { message, change };
                self.change_object(change)
            }
        }
    }

    /// Takes the move back, to where it began. It takes no memory.
    #[inline(always)]
    pub fn roll_back(&mut self)
        ensures begun { self.new
            ≡ begun_at self.old.outset.state self.old.outset.recorded self.new.room self.old.calm }
        ensures room { self.old.room ≤ self.new.room }
        ensures capacity { capacity_of self.new ≡ capacity_of self.old }
    {
        // (the record has no more bytes than there is room for)
        self.changes.bytes();
        self.changes.back_to(&mut self.state, self.start);
        self.was_calm = self.calm;
    }

    /// Goes back by the changes that the record has after its first `len`, the last one first; they
    /// leave the record. It takes no memory.
    pub fn back_to(&mut self, len: usize)
        requires within { len ≤ length self.old.changes }
        requires fits { CanUndo self.old.now (drop len self.old.changes) }
        ensures state { self.new.now ≡ undone self.old.now (drop len self.old.changes) }
        ensures record { self.new.changes ≡ take len self.old.changes }
        ensures begun { self.new
            ≡ begun_at self.new.now self.new.changes self.new.room self.old.calm }
        ensures room { self.old.room ≤ self.new.room }
        ensures capacity { capacity_of self.new ≡ capacity_of self.old }
    {
        // (the record has no more bytes than there is room for)
        self.changes.bytes();
        self.start = len;
        self.changes.back_to(&mut self.state, len);
        self.was_calm = self.calm;
    }

    /// Hands out the state and the record.
    pub fn end(self, state: &mut State) -> Undo
        ensures state { state.new ≡ self.now }
        ensures record { result ≡ self.changes }
    {
        let Editing {
            state: now,
            changes,
            start: _,
            was_calm: _,
            calm: _,
        } = self;
        *state = now;
        Undo { changes }
    }

    /// Ends it: nobody needs the state, nor will go back by the record.
    pub fn retire(self) {
        let Editing {
            state: _,
            changes,
            start: _,
            was_calm: _,
            calm: _,
        } = self;
        changes.retire();
    }
}
