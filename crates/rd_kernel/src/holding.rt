//! Tasks that wait as the reader or the writer of a buffer, and how their waiting is completed.

ghost use Rattle.std.specs.Prelude.{◌≡◌, ◌<◌, false, length, IfOk, IsOk, IsSome, None, OnErr, OnOk};
ghost use Rattle.rd_app.specs.Application.{IsOperand};
ghost use Rattle.rd_state.specs.EditingView.{GivesUp, Reaches};
ghost use Rattle.rd_state.specs.Snapshot.{task_at};
ghost use Rattle.rd_state.specs.Phases.{tries_again};
ghost use Rattle.rd_state.specs.Waiting.{held_side, holder_at, HasHeld};
ghost use Rattle.rd_kernel.specs.Costs.{beginning_cost, coming_back_cost, completing_cost};
ghost use Rattle.rd_kernel.specs.Holding.{cause_of_side, come_back, completed, name_gone};
ghost use Rattle.rd_kernel.specs.Holding.{waits_held, CanComplete};
ghost use Rattle.rd_kernel.specs.Outcomes.{DoesCall};

use crate::changes::set_entry;
use crate::outcome::Outcome;
use crate::telling::tell;
use crate::waking::deadline_of;
use rd_app::instr::Operand;
use rd_bytes::no_memory::NoMemory;
use rd_notify::entries::{Entry, EntryState};
use rd_state::editing::Editing;
use rd_state::phase::{Cause, Held, Place};
use rd_stream::side::Side;

// Why a task fails that is to wait at a side where another does.
fn cause_of_side(side: Side) -> Cause
    ensures { result ≡ cause_of_side side }
{
    match side {
        Side::Reader => Cause::TwoReaders,
        Side::Writer => Cause::TwoWriters,
    }
}

// The side of a buffer at which a place is.
fn side_of(held: Held) -> Side
    ensures { result ≡ held_side held }
{
    match held {
        Held::Stream { side, .. } => side,
        Held::Message { side, .. } => side,
    }
}

// Takes a task's name from a place, if it stands there.
fn take_name(editing: &mut Editing, held: Held, task: usize) -> Result<(), NoMemory>
    requires held { HasHeld editing.old.now held }
    ensures ok { OnOk result
        (Reaches editing.old editing.new (name_gone editing.old.now held task) 1) }
    ensures err { OnErr result (GivesUp editing.old editing.new 1) }
{
    match editing.state().holder(held) {
        Some(holder) if holder == task => editing.set_holder(held, None),
        Some(_) | None => Ok(()),
    }
}

/// Begins a call of a buffer, which waits at that place: if it is tried again, the place doesn't
/// name its task any more, whose entry 0 is idle. At the first try nothing changes, and no memory
/// is taken.
pub fn come_back(editing: &mut Editing, task: usize, held: Held) -> Result<(), NoMemory>
    requires task { task < length editing.old.now.tasks }
    requires can { CanComplete editing.old.now }
    requires held { HasHeld editing.old.now held }
    ensures ok { OnOk result (Reaches editing.old editing.new
        (come_back editing.old.now task held) coming_back_cost) }
    ensures can { OnOk result (CanComplete editing.new.now) }
    ensures first { tries_again (task_at editing.old.now task).phase ≡ false → IsOk result }
    ensures err { OnErr result (GivesUp editing.old editing.new coming_back_cost) }
{
    if !editing.state().phase(task).tries_again() {
        return Ok(());
    }
    let entry = editing.state().task(task).entries().entry(0);
    take_name(editing, held, task)?;
    set_entry(editing, task, 0, entry.idle())
}

/// A task is to wait as a buffer's reader or writer. Where the place names another, the call fails,
/// and no memory is taken.
pub fn wait_held(
    editing: &mut Editing,
    task: usize,
    held: Held,
    wait: Operand,
) -> Result<Outcome, NoMemory>
    requires task { task < length editing.old.now.tasks }
    requires can { CanComplete editing.old.now }
    requires held { HasHeld editing.old.now held }
    requires register { IsOperand wait }
    ensures ok { IfOk result (DoesCall editing.old editing.new
        (waits_held editing.old.now task held wait) beginning_cost) }
    ensures taken { IsSome (holder_at editing.old.now held) → IsOk result }
    ensures err { OnErr result (GivesUp editing.old editing.new beginning_cost) }
{
    if editing.state().holder(held).is_some() {
        return Ok(Outcome::Fails(cause_of_side(side_of(held))));
    }
    let deadline = deadline_of(editing, task, wait);
    let entry = editing.state().task(task).entries().entry(0);
    editing.set_holder(held, Some(task))?;
    set_entry(editing, task, 0, entry.waiting())?;
    let place = Place::Held { held };
    Ok(Outcome::Waits { place, deadline })
}

/// Completes the waiting of whoever is named by a place: that task is notified through its entry 0,
/// and the place names nobody. Where it names nobody, nothing changes, and no memory is taken.
pub fn complete(editing: &mut Editing, priorities: &[u8], held: Held) -> Result<(), NoMemory>
    requires held { HasHeld editing.old.now held }
    requires can { CanComplete editing.old.now }
    requires priorities { length priorities.now ≡ length editing.old.now.tasks }
    ensures ok { OnOk result (Reaches editing.old editing.new
        (completed priorities.now editing.old.now held) completing_cost) }
    ensures nobody { holder_at editing.old.now held ≡ None → IsOk result }
    ensures err { OnErr result (GivesUp editing.old editing.new completing_cost) }
{
    let Some(task) = editing.state().holder(held) else {
        return Ok(());
    };
    let entry = editing.state().task(task).entries().entry(0);
    let entry = Entry {
        state: EntryState::Received,
        ..entry
    };
    tell(editing, priorities, task, 0, entry)?;
    editing.set_holder(held, None)
}
