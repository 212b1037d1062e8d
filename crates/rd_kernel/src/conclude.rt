//! What becomes of a caller, once its call was done.

ghost use Rattle.std.specs.Prelude.{◌≡◌, ◌<◌, length, OnOk, OnErr};
ghost use Rattle.rd_app.specs.declared.app.TheConstants.{MAX_CODE};
ghost use Rattle.rd_state.specs.EditingView.{Reaches, GivesUp};
ghost use Rattle.rd_state.specs.Sizes.{IsSizedPhase};
ghost use Rattle.rd_state.specs.Snapshot.{numbers_of, task_at};
ghost use Rattle.rd_kernel.specs.Costs.{ending_cost};
ghost use Rattle.rd_kernel.specs.Outcomes.{IsSizedOutcome, concluded, stopped};

use crate::changes::{return_from, set_phase, set_register};
use crate::outcome::Outcome;
use rd_bytes::no_memory::NoMemory;
use rd_state::change::Change;
use rd_state::editing::Editing;
use rd_state::phase::Phase;

// Takes a task off its core, into a phase in which it can't run. (Called: `conclude` would else be
// larger than what the compiler inlines.)
#[inline(never)]
fn stop(editing: &mut Editing, core: usize, task: usize, phase: Phase) -> Result<(), NoMemory>
    requires task { task < length editing.old.now.tasks }
    requires core { core < length editing.old.now.cores }
    requires sized { IsSizedPhase (numbers_of editing.old.now) phase }
    ensures ok { OnOk result
        (Reaches editing.old editing.new (stopped editing.old.now core task phase) 2) }
    ensures err { OnErr result (GivesUp editing.old editing.new 2) }
{
    set_phase(editing, task, phase)?;
    editing.change(Change::SetCore { core, task: None })
}

/// What becomes of a caller: its call returns, or it waits, or has failed, and leaves its core.
#[inline(always)]
pub fn conclude(
    editing: &mut Editing,
    core: usize,
    task: usize,
    outcome: Outcome,
) -> Result<(), NoMemory>
    requires task { task < length editing.old.now.tasks }
    requires core { core < length editing.old.now.cores }
    requires pc { (task_at editing.old.now task).pc < MAX_CODE }
    requires sized { IsSizedOutcome (numbers_of editing.old.now) outcome }
    ensures ok { OnOk result (Reaches editing.old editing.new
        (concluded (record { state = editing.old.now; outcome = outcome }) core task)
        ending_cost) }
    ensures err { OnErr result (GivesUp editing.old editing.new ending_cost) }
{
    match outcome {
        Outcome::Returns(value) => return_from(editing, task, value),
        Outcome::ReturnsBoth { value, second } => {
            set_register(editing, task, 1, second)?;
            return_from(editing, task, value)
        }
        Outcome::Waits { place, deadline } => {
            stop(editing, core, task, Phase::Wait { place, deadline })
        }
        Outcome::Fails(cause) => stop(editing, core, task, Phase::Failed { cause }),
    }
}
