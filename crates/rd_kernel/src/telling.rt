//! Tasks that wait for a notification entry of their own, and how they are told through it.

ghost use Rattle.std.specs.Prelude.{◌≡◌, ◌<◌, ◌≤◌, ◌^◌, false, length};
ghost use Rattle.std.specs.Prelude.{IfOk, IsOk, IsSome, OnErr, OnOk};
ghost use Rattle.std.specs.Option.{option_and_then};
ghost use Rattle.rd_app.specs.Application.{IsOperand};
ghost use Rattle.rd_notify.specs.declared.entries.TheConstants.{MAX_ENTRIES};
ghost use Rattle.rd_state.specs.EditingView.{GivesUp, Reaches};
ghost use Rattle.rd_state.specs.Phases.{waits_at};
ghost use Rattle.rd_state.specs.Snapshot.{task_at};
ghost use Rattle.rd_state.specs.Waiting.{entry_of};
ghost use Rattle.rd_kernel.specs.Costs.{telling_cost};
ghost use Rattle.rd_kernel.specs.Outcomes.{DoesCall};
ghost use Rattle.rd_kernel.specs.Tasks.{entry_at, with_entry, HasEntry};
ghost use Rattle.rd_kernel.specs.Telling.{if_waiting_for, is_that_entry, told, waits_for_entry};
ghost use Rattle.rd_kernel.specs.Telling.{waits_once};
ghost use Rattle.rd_kernel.specs.Waking.{ReadyHasRoom};

use crate::changes::set_entry;
use crate::outcome::Outcome;
use crate::waking::{Waking, deadline_of, may_wait, wake};
use rd_app::instr::Operand;
use rd_bytes::no_memory::NoMemory;
use rd_notify::entries::Entry;
use rd_state::editing::Editing;
use rd_state::phase::{Phase, Place};

/// Whether a call waits that waits once alone, which it does at its first try, where its block time
/// isn't 0.
pub fn waits_once(editing: &Editing, task: usize, wait: Operand) -> bool
    requires task { task < length editing.now.now.tasks }
    requires register { IsOperand wait }
    ensures { result ≡ waits_once editing.now.now task wait }
{
    editing.state().phase(task).is_first() && may_wait(editing, task, wait)
}

/// A task waits for its entry at `index`, which is `entry` then, and waiting.
pub fn wait_for_entry(
    editing: &mut Editing,
    task: usize,
    index: usize,
    entry: Entry,
    wait: Operand,
) -> Result<Outcome, NoMemory>
    requires there { HasEntry editing.old.now task index }
    requires few { index < MAX_ENTRIES }
    requires value { entry.value < 2 ^ 32 }
    requires register { IsOperand wait }
    ensures ok { IfOk result (DoesCall editing.old editing.new
        (waits_for_entry editing.old.now task index entry wait) 1) }
    ensures err { OnErr result (GivesUp editing.old editing.new 1) }
{
    let deadline = deadline_of(editing, task, wait);
    set_entry(editing, task, index, entry.waiting())?;
    let place = Place::Entry { index };
    Ok(Outcome::Waits { place, deadline })
}

// Does a task of this phase wait to be told through its entry at `index`?
fn is_waiting_for(phase: Phase, index: usize) -> bool
    ensures { result ≡ is_that_entry index (option_and_then entry_of (waits_at phase)) }
{
    match phase.waits_at() {
        Some(Place::Held { .. }) => index == 0,
        Some(Place::Entry { index: other }) => other == index,
        Some(Place::Listed { .. }) | None => false,
    }
}

/// Tells a task through its entry at `index`, which is `entry` then: if the task waits for that, it
/// is woken.
pub fn tell(
    editing: &mut Editing,
    priorities: &[u8],
    task: usize,
    index: usize,
    entry: Entry,
) -> Result<(), NoMemory>
    requires there { HasEntry editing.old.now task index }
    requires value { entry.value < 2 ^ 32 }
    requires room { IsSome (waits_at (task_at editing.old.now task).phase)
        → ReadyHasRoom editing.old.now }
    requires priorities { length priorities.now ≡ length editing.old.now.tasks }
    ensures ok { OnOk result (Reaches editing.old editing.new
        (told priorities.now editing.old.now task index entry) telling_cost) }
    ensures err { OnErr result (GivesUp editing.old editing.new telling_cost) }
{
    if is_waiting_for(editing.state().phase(task), index) {
        wake(editing, priorities, task, Waking::TriesAgain)?;
    }
    set_entry(editing, task, index, entry)
}
