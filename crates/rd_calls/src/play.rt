//! Moves, made whole or not at all.

ghost use Rattle.std.specs.Prelude.{◌≡◌, ◌↔◌, ◌+◌, ◌*◌, ◌<◌, ◌≤◌, ◌⊎◌, length, take, Ok, Err};
ghost use Rattle.std.specs.Prelude.{true, None, Some, IfErr, IfOk, IfSome};
ghost use Rattle.std.specs.Prelude.{IsErrOf, IsOk, OnErr, OnOk};
ghost use Rattle.rd_app.specs.Application.{priorities_of};
ghost use Rattle.rd_state.specs.EditingView.{added, capacity_of, room_for, GoesOn};
ghost use Rattle.rd_state.specs.PackedChanges.{IsPackable};
ghost use Rattle.rd_state.specs.Settled.{IsSettled};
ghost use Rattle.rd_state.specs.Sizes.{IsSized};
ghost use Rattle.rd_state.specs.Snapshot.{core_at};
ghost use Rattle.rd_state.specs.Undoing.{undone, CanUndo};
ghost use Rattle.rd_state.specs.Valid.{IsValid};
ghost use Rattle.rd_kernel.specs.Outcomes.{IsCalling};
ghost use Rattle.rd_kernel.specs.Waking.{FirstTriesWait};
ghost use Rattle.rd_moves.specs.Carried.{IsCarriedOf};
ghost use Rattle.rd_calls.specs.Carried.{why_refused};
ghost use Rattle.rd_calls.specs.Step.{last_tick, move_answer, record_limit, step, IsPlayed};
ghost use Rattle.rd_moves.specs.Moves.{IsMoveOf};
ghost use Rattle.rd_calls.specs.Step.{IsSmall, LeavesSettled, Plays};

use crate::carried::{carried_answer, carry_out, why_refused};
use crate::perform::move_core;
use crate::tick::move_tick;
use rd_app::app::{MAX_TASKS, Program};
use rd_app::profile::MAX_CORES;
use rd_bytes::bytes::MAX_BYTES;
use rd_bytes::no_memory::NoMemory;
use rd_kernel::calling::caller_on;
use rd_moves::carried::{Carried, Lent};
use rd_moves::moves::Move;
use rd_queue::item::MAX_ITEM_SIZE;
use rd_queue::queue::MAX_ITEMS;
use rd_refusal::refusal::Refusal;
use rd_state::editing::Editing;
use rd_state::state::State;
use rd_state::undo::Undo;
use std::alloc::Global;
use std::mem;

/// How many changes a move makes at the most for each task, which it may wake.
pub const CHANGES_PER_TASK: usize = 4;

/// How many for each core, whose task may be another then.
pub const CHANGES_PER_CORE: usize = 6;

/// How many besides, of the task that moves and of the object that it calls.
pub const CHANGES_BESIDES: usize = 16;

/// How many bytes its changes save at the most, but for what a reset drops: a task's data from
/// before, and as many bytes that go between the data and an object.
pub const SAVED_BYTES: usize = 2 * MAX_BYTES;

/// How many bytes a reset drops at the most: the items of a queue, of which no other object has
/// more.
pub const DROPPED_BYTES: usize = MAX_ITEMS * MAX_ITEM_SIZE;

/// How much the record of a move weighs at the most: its changes, and the bytes that they save.
pub const MAX_RECORD_WEIGHT: usize = CHANGES_PER_TASK * MAX_TASKS
    + CHANGES_PER_CORE * MAX_CORES
    + CHANGES_BESIDES
    + SAVED_BYTES
    + DROPPED_BYTES;

/// For how many bytes of a record each change counts, and each byte that is saved: a change takes
/// no more than 15 and those that it saves.
pub const BYTES_PER_WEIGHT: usize = 16;

/// How many bytes the record of a move takes at the most.
pub const MAX_RECORD_BYTES: usize = BYTES_PER_WEIGHT * MAX_RECORD_WEIGHT;

// Ends a move. Where memory ran out half-way, what was done of it is undone.
fn finish(editing: &mut Editing, made: Result<(), NoMemory>) -> Result<(), NoMemory>
    ensures made { result ≡ made }
    ensures state { OnOk made (editing.new.now ≡ editing.old.now) }
    ensures record { OnOk made (GoesOn editing.old editing.new.changes) }
    ensures room { OnOk made (editing.new.room ≡ editing.old.room) }
    ensures capacity { capacity_of editing.new ≡ capacity_of editing.old }
    ensures err { OnErr made (editing.new.now ≡ editing.old.outset.state) }
    ensures err_record { OnErr made (editing.new.changes ≡ editing.old.outset.recorded) }
    ensures sized { IsSized editing.new.now }
    ensures calm { editing.new.calm ≡ true → editing.old.outset.calm ≡ true }
{
    // (where nothing calls for settling now, nothing did where the move began)
    let _ = editing.is_calm();
    if made.is_err() {
        editing.roll_back();
    }
    editing.goes_on();
    editing.state().sizes();
    made
}

// The move of a core whose task is known.
fn play_core(editing: &mut Editing, app: &Program, core: usize, task: usize) -> Result<(), NoMemory>
    requires caller { IsCalling app.now editing.old.now task }
    requires core { core < length editing.old.now.cores }
    requires task { core_at editing.old.now core ≡ Some task }
    requires calm { editing.old.calm ≡ true
        → IsSettled (priorities_of app.now) editing.old.now }
    ensures { Plays app.now (Move.Core core) editing.old editing.new result }
{
    app.limits();
    editing.begin();
    let made = move_core(app, editing, core, task);
    finish(editing, made)
}

// A tick that isn't the last one.
fn play_tick(editing: &mut Editing, app: &Program) -> Result<(), NoMemory>
    requires valid { IsValid app.now editing.old.now }
    requires later { editing.old.now.tick < last_tick }
    requires calm { editing.old.calm ≡ true
        → IsSettled (priorities_of app.now) editing.old.now }
    ensures { Plays app.now Move.Tick editing.old editing.new result }
{
    app.limits();
    editing.begin();
    let made = move_tick(app, editing);
    finish(editing, made)
}

// What a move carries, where it isn't refused.
fn play_carried(editing: &mut Editing, app: &Program, carried: &Carried) -> Result<(), NoMemory>
    requires valid { IsValid app.now editing.old.now }
    requires named { IsCarriedOf app.now carried.now }
    requires good { why_refused app.now editing.old.now carried.now ≡ None }
    requires calm { editing.old.calm ≡ true
        → IsSettled (priorities_of app.now) editing.old.now }
    ensures { Plays app.now (Move.Carried carried.now) editing.old editing.new result }
{
    app.limits();
    editing.begin();
    let made = carry_out(carried, app, editing);
    finish(editing, made)
}

/// Why the rules refuse a move, if they do: `NoTask` where the core is idle, `TickLimit` where the
/// tick is 4,294,967,295, `BadEdit` where the edit can't be made, `NoIsr` where an interrupt comes
/// to an application of profile 1.
pub fn why_not(app: &Program, state: &State, action: &Move<Lent<'_>>) -> Option<Refusal>
    requires valid { IsValid app.now state.now }
    requires named { IsMoveOf app.now action.now }
    ensures refused { IfSome result (λ refusal. step app.now state.now action.now ≡ Err refusal) }
    ensures made { result ≡ None → IsOk (step app.now state.now action.now) }
{
    match action {
        Move::Core { core } if state.core(*core).is_none() => Some(Refusal::NoTask),
        Move::Tick if state.tick() == u32::MAX => Some(Refusal::TickLimit),
        Move::Core { .. } | Move::Tick => None,
        Move::Carried { carried } => why_refused(carried.carried(), app, state),
    }
}

/// What the move will answer, if it is made now: 1 or 0 for an interrupt (`isr_answer`), and none
/// for any other. It takes no memory.
pub fn move_answer(app: &Program, state: &State, action: &Move<Lent<'_>>) -> Option<u32>
    requires valid { IsValid app.now state.now }
    requires named { IsMoveOf app.now action.now }
    ensures { result ≡ move_answer state.now action.now }
{
    match action {
        Move::Core { .. } | Move::Tick => None,
        Move::Carried { carried } => carried_answer(carried.carried(), app, state),
    }
}

/// Makes a move where the state and the record are, and adds its record, which undoes it exactly,
/// to those of the moves before. A refusal leaves the state and the record as they were: `NoTask`
/// where the core is idle, `TickLimit` where the tick is 4,294,967,295, `BadEdit` where the edit
/// can't be made, `NoIsr` where an interrupt comes to an application of profile 1, `NoMemory` where
/// a growth was refused, as none is where the record has room for the move. There is no other. The
/// record keeps the memory that it has. Where it says that nothing calls for settling, the state is
/// settled, and so it is afterwards: the next move can be made at once, whether this one was or
/// not, and the record has room for both where it had room for as much as both may take.
pub fn play_on(editing: &mut Editing, app: &Program, action: &Move<Lent<'_>>) -> Result<(), Refusal>
    requires valid { IsValid app.now editing.old.now }
    requires named { IsMoveOf app.now action.now }
    requires calm { editing.old.calm ≡ true
        → IsSettled (priorities_of app.now) editing.old.now }
    ensures before { OnOk result
        (take (length editing.old.changes) editing.new.changes ≡ editing.old.changes) }
    ensures played { OnOk result (IsPlayed app.now editing.old.now action.now editing.new.now
        (added editing.old.changes editing.new.changes)) }
    ensures no_task { IsErrOf result Refusal.NoTask
        ↔ (step app.now editing.old.now action.now ≡ Err Refusal.NoTask) }
    ensures tick_limit { IsErrOf result Refusal.TickLimit
        ↔ (step app.now editing.old.now action.now ≡ Err Refusal.TickLimit) }
    ensures bad_edit { IsErrOf result Refusal.BadEdit
        ↔ (step app.now editing.old.now action.now ≡ Err Refusal.BadEdit) }
    ensures no_isr { IsErrOf result Refusal.NoIsr
        ↔ (step app.now editing.old.now action.now ≡ Err Refusal.NoIsr) }
    ensures refusals { IfErr result (λ refusal.
        (step app.now editing.old.now action.now ≡ Err refusal) ⊎ (refusal ≡ Refusal.NoMemory)) }
    ensures short { IsErrOf result Refusal.NoMemory
        → editing.old.room < room_for (record_limit app.now editing.old.now action.now) }
    ensures err { OnErr result (editing.new.now ≡ editing.old.now) }
    ensures err_record { OnErr result (editing.new.changes ≡ editing.old.changes) }
    ensures grows { capacity_of editing.old ≤ capacity_of editing.new }

    // What the next move needs: its conditions hold, and no more of the room is taken than so much.
    ensures valid { IsValid app.now editing.new.now }
    ensures calm { editing.new.calm ≡ true → IsSettled (priorities_of app.now) editing.new.now }
    ensures room { OnOk result (editing.old.room
        ≤ editing.new.room + room_for (record_limit app.now editing.old.now action.now)) }
    ensures err_room { OnErr result (editing.old.room ≤ editing.new.room) }
{
    match action {
        Move::Core { core } => {
            let Some(task) = caller_on(app, editing.state(), *core) else {
                return Err(Refusal::NoTask);
            };
            play_core(editing, app, *core, task).map_err(Refusal::from)
        }
        Move::Tick if editing.state().tick() == u32::MAX => Err(Refusal::TickLimit),
        Move::Tick => play_tick(editing, app).map_err(Refusal::from),
        Move::Carried { carried } => {
            let carried = carried.carried();
            match why_refused(carried, app, editing.state()) {
                Some(refusal) => Err(refusal),
                None => play_carried(editing, app, carried).map_err(Refusal::from),
            }
        }
    }
}

/// Makes a move and returns its record, which undoes it exactly. A refusal leaves the state as it
/// was: `NoTask` where the core is idle, `TickLimit` where the tick is 4,294,967,295, `BadEdit`
/// where the edit can't be made, `NoIsr` where an interrupt comes to an application of profile 1,
/// `NoMemory` where a growth was refused. There is no other.
pub fn play(
    alloc: Global,
    state: &mut State,
    app: &Program,
    action: &Move<Lent<'_>>,
) -> Result<Undo, Refusal>
    requires valid { IsValid app.now state.old }
    requires named { IsMoveOf app.now action.now }
    ensures step { OnOk result (step app.now state.old action.now ≡ Ok state.new) }
    ensures no_task { IsErrOf result Refusal.NoTask
        ↔ (step app.now state.old action.now ≡ Err Refusal.NoTask) }
    ensures tick_limit { IsErrOf result Refusal.TickLimit
        ↔ (step app.now state.old action.now ≡ Err Refusal.TickLimit) }
    ensures bad_edit { IsErrOf result Refusal.BadEdit
        ↔ (step app.now state.old action.now ≡ Err Refusal.BadEdit) }
    ensures no_isr { IsErrOf result Refusal.NoIsr
        ↔ (step app.now state.old action.now ≡ Err Refusal.NoIsr) }
    ensures refusals { IfErr result (λ refusal.
        (step app.now state.old action.now ≡ Err refusal) ⊎ (refusal ≡ Refusal.NoMemory)) }
    ensures err { OnErr result (state.new ≡ state.old) }

    // The record leads back, is small, and can be kept.
    ensures undone { IfOk result (λ undo. undone state.new undo ≡ state.old) }
    ensures can_undo { IfOk result (λ undo. CanUndo state.new undo) }
    ensures small { IfOk result (λ undo. IsSmall app.now state.old action.now undo) }
    ensures packable { IfOk result (λ undo. IsPackable undo) }

    // A valid state stays valid, and nothing is left to schedule between moves.
    ensures valid { OnOk result (IsValid app.now state.new) }
    ensures settled { OnOk result (LeavesSettled app.now state.old action.now state.new) }
{
    let before = mem::replace(state, State::hollow(alloc));
    let mut editing = Editing::new(alloc, before);
    let made = play_on(&mut editing, app, action);
    let undo = editing.end(state);
    match made {
        Ok(()) => Ok(undo),
        Err(refusal) => {
            undo.retire();
            Err(refusal)
        }
    }
}

/// For contracts alone: how many bytes the record of a move takes at the most, as a number: 64 for
/// each task that there may be, 96 for each core, and 73,984 besides.
pub fn limits_of_records()
    ensures bytes { MAX_RECORD_BYTES ≡ 77568 }
    ensures grows { MAX_RECORD_BYTES ≡ 64 * MAX_TASKS + 96 * MAX_CORES + 73984 }
{}

/// A law: a call that is tried for the first time waits exactly where its block time isn't 0, if it
/// can't be done.
pub fn first_tries_wait()
    ensures { FirstTriesWait }
{}
