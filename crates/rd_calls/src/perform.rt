//! The move of a core in the middle: the instruction, the turn, the scheduler.

ghost use Rattle.std.specs.Prelude.{◌≡◌, ◌+◌, ◌*◌, ◌<◌, length, true, Some, OnOk, OnErr};
ghost use Rattle.rd_app.specs.declared.app.TheConstants.{MAX_CODE};
ghost use Rattle.rd_app.specs.Application.{priorities_of};
ghost use Rattle.rd_state.specs.EditingView.{Reaches, GivesUp};
ghost use Rattle.rd_state.specs.Settled.{IsSettled};
ghost use Rattle.rd_state.specs.Snapshot.{core_at, task_at};
ghost use Rattle.rd_state.specs.Valid.{IsValid};
ghost use Rattle.rd_kernel.specs.Outcomes.{IsCalling};
ghost use Rattle.rd_calls.specs.Step.{performed, core_step, instr_cost};
ghost use Rattle.rd_calls.specs.Step.{next_instr, NamesParts};

use crate::local::do_local;
use rd_app::app::Program;
use rd_app::instr::Instr;
use rd_bytes::no_memory::NoMemory;
use rd_group_calls::calls::call_group;
use rd_kernel::changes::set_turn;
use rd_kernel::conclude::conclude;
use rd_notify_calls::calls::call_notify;
use rd_queue_calls::calls::call_queue;
use rd_queue_calls::selecting::call_queue_set;
use rd_state::editing::Editing;
use rd_stream_calls::messages::call_message;
use rd_stream_calls::streams::call_stream;

// Does one instruction of the task on a core.
fn perform(
    app: &Program,
    editing: &mut Editing,
    core: usize,
    task: usize,
    instr: &Instr,
) -> Result<(), NoMemory>
    requires caller { IsCalling app.now editing.old.now task }
    requires core { core < length editing.old.now.cores }
    requires pc { (task_at editing.old.now task).pc < MAX_CODE }
    requires names { NamesParts app.now.entries editing.old.now instr.now }
    ensures ok { OnOk result (Reaches editing.old editing.new
        (performed (priorities_of app.now) editing.old.now core task instr.now)
        (instr_cost editing.old.now instr.now)) }
    ensures err { OnErr result (GivesUp editing.old editing.new
        (instr_cost editing.old.now instr.now)) }
{
    match instr {
        Instr::Local { instr } => do_local(editing, core, task, instr),
        Instr::Queue { queue, call } => {
            let outcome = call_queue(app, editing, task, *queue, *call)?;
            conclude(editing, core, task, outcome)
        }
        Instr::QueueSet { queue_set, call } => {
            let outcome = call_queue_set(app, editing, task, *queue_set, *call)?;
            conclude(editing, core, task, outcome)
        }
        Instr::Stream { stream, call } => {
            let outcome = call_stream(app, editing, task, *stream, *call)?;
            conclude(editing, core, task, outcome)
        }
        Instr::Message { message, call } => {
            let outcome = call_message(app, editing, task, *message, *call)?;
            conclude(editing, core, task, outcome)
        }
        Instr::Group { group, call } => {
            let outcome = call_group(app, editing, task, *group, *call)?;
            conclude(editing, core, task, outcome)
        }
        Instr::Notify { call } => {
            let outcome = call_notify(app, editing, task, *call)?;
            conclude(editing, core, task, outcome)
        }
    }
}

/// The move of a core whose task is known: its instruction, the turn, the scheduler.
pub fn move_core(
    app: &Program,
    editing: &mut Editing,
    core: usize,
    task: usize,
) -> Result<(), NoMemory>
    requires caller { IsCalling app.now editing.old.now task }
    requires core { core < length editing.old.now.cores }
    requires calm { editing.old.outset.calm ≡ true
        → IsSettled (priorities_of app.now) editing.old.outset.state }
    ensures ok { OnOk result
        (Reaches editing.old editing.new (core_step app.now editing.old.now core task)
        (instr_cost editing.old.now (next_instr app.now editing.old.now task)
        + 1 + 3 * length editing.old.now.cores)) }
    ensures err { OnErr result (GivesUp editing.old editing.new
        (instr_cost editing.old.now (next_instr app.now editing.old.now task)
        + 1 + 3 * length editing.old.now.cores)) }
{
    app.limits();
    let pc = editing.state().task(task).pc();
    let instr = &app.code(task)[pc];
    perform(app, editing, core, task, instr)?;
    set_turn(editing, core + 1)?;
    editing.settle(app.priorities())
}
