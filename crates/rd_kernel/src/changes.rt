//! Single changes in the middle of a move.
ghost use Rattle.std.specs.Prelude.{◌≡◌, ◌+◌, ◌<◌, ◌≤◌, ◌^◌, length, IsOk, OnOk, OnErr};
ghost use Rattle.rd_bytes.specs.declared.bytes.TheConstants.{MAX_BYTES};
ghost use Rattle.rd_app.specs.declared.app.TheConstants.{MAX_CODE};
ghost use Rattle.rd_app.specs.declared.instr.TheConstants.{REGISTERS};
ghost use Rattle.rd_state.specs.declared.phase.Phase.TheVariants.{Run};
ghost use Rattle.rd_state.specs.EditingView.{Reaches, GivesUp};
ghost use Rattle.rd_state.specs.Sizes.{IsSizedPhase};
ghost use Rattle.rd_state.specs.Snapshot.{numbers_of, task_at};
ghost use Rattle.rd_kernel.specs.Costs.{data_cost, returning_cost};
ghost use Rattle.rd_kernel.specs.Tasks.{register_at, with_register, with_pc, with_bytes};
ghost use Rattle.rd_kernel.specs.Tasks.{entry_at, with_entry, with_phase, advanced, HasEntry};
ghost use Rattle.rd_kernel.specs.Outcomes.{returned};

use rd_bytes::no_memory::NoMemory;
use rd_notify::entries::Entry;
use rd_state::change::Change;
use rd_state::editing::Editing;
use rd_state::phase::Phase;
use rd_state::task_change::TaskChange;

/// Sets a register of a task. If it has the value already, nothing changes, and no memory is taken.
#[inline(always)]
pub fn set_register(
    editing: &mut Editing,
    task: usize,
    register: usize,
    value: u32,
) -> Result<(), NoMemory>
    requires task { task < length editing.old.now.tasks }
    requires register { register < REGISTERS }
    ensures ok { OnOk result
        (Reaches editing.old editing.new (with_register editing.old.now task register value) 1) }
    ensures has_it { register_at editing.old.now task register ≡ value → IsOk result }
    ensures err { OnErr result (GivesUp editing.old editing.new 1) }
{
    if editing.state().task(task).register(register) == value {
        return Ok(());
    }
    let change = TaskChange::SetReg { register, value };
    editing.change_task(task, change)
}

/// Puts an entry in the place of a task's notification entry at `index`. If they are equal, nothing
/// changes, and no memory is taken.
#[inline(always)]
pub fn set_entry(
    editing: &mut Editing,
    task: usize,
    index: usize,
    entry: Entry,
) -> Result<(), NoMemory>
    requires there { HasEntry editing.old.now task index }
    requires value { entry.value < 2 ^ 32 }
    ensures ok { OnOk result
        (Reaches editing.old editing.new (with_entry editing.old.now task index entry) 1) }
    ensures has_it { entry_at editing.old.now task index ≡ entry → IsOk result }
    ensures err { OnErr result (GivesUp editing.old editing.new 1) }
{
    if editing
        .state()
        .task(task)
        .entries()
        .entry(index)
        .same(entry)
    {
        return Ok(());
    }
    let change = TaskChange::SetEntry { index, entry };
    editing.change_task(task, change)
}

/// Makes these bytes a task's data.
#[inline(always)]
pub fn set_bytes(editing: &mut Editing, task: usize, bytes: &[u8]) -> Result<(), NoMemory>
    requires task { task < length editing.old.now.tasks }
    requires few { length bytes.now ≤ MAX_BYTES }
    ensures ok { OnOk result
        (Reaches editing.old editing.new (with_bytes editing.old.now task bytes.now) data_cost) }
    ensures err { OnErr result (GivesUp editing.old editing.new data_cost) }
{
    editing.state().sizes();
    let change = TaskChange::SetData { bytes };
    editing.change_task(task, change)
}

/// Moves a task to another instruction of its script.
#[inline(always)]
pub fn set_pc(editing: &mut Editing, task: usize, pc: usize) -> Result<(), NoMemory>
    requires task { task < length editing.old.now.tasks }
    requires pc { pc ≤ MAX_CODE }
    ensures ok { OnOk result (Reaches editing.old editing.new (with_pc editing.old.now task pc) 1) }
    ensures err { OnErr result (GivesUp editing.old editing.new 1) }
{
    let change = TaskChange::SetPc { pc };
    editing.change_task(task, change)
}

/// Moves a task to its next instruction.
#[inline(always)]
pub fn advance(editing: &mut Editing, task: usize) -> Result<(), NoMemory>
    requires task { task < length editing.old.now.tasks }
    requires pc { (task_at editing.old.now task).pc < MAX_CODE }
    ensures ok { OnOk result (Reaches editing.old editing.new (advanced editing.old.now task) 1) }
    ensures err { OnErr result (GivesUp editing.old editing.new 1) }
{
    let pc = editing.state().task(task).pc();
    set_pc(editing, task, pc + 1)
}

/// Puts a task into another phase. If it is in that phase already, nothing changes, and no memory
/// is taken.
#[inline(always)]
pub fn set_phase(editing: &mut Editing, task: usize, phase: Phase) -> Result<(), NoMemory>
    requires task { task < length editing.old.now.tasks }
    requires sized { IsSizedPhase (numbers_of editing.old.now) phase }
    ensures ok { OnOk result
        (Reaches editing.old editing.new (with_phase editing.old.now task phase) 1) }
    ensures in_it { (task_at editing.old.now task).phase ≡ phase → IsOk result }
    ensures err { OnErr result (GivesUp editing.old editing.new 1) }
{
    if editing.state().phase(task) == phase {
        return Ok(());
    }
    let change = TaskChange::SetPhase { phase };
    editing.change_task(task, change)
}

// Has a task run. If it does already, nothing changes.
#[inline(always)]
fn set_running(editing: &mut Editing, task: usize) -> Result<(), NoMemory>
    requires task { task < length editing.old.now.tasks }
    ensures ok { OnOk result
        (Reaches editing.old editing.new (with_phase editing.old.now task Run) 1) }
    ensures err { OnErr result (GivesUp editing.old editing.new 1) }
{
    if let Phase::Run = editing.state().phase(task) {
        return Ok(());
    }
    let change = TaskChange::SetPhase { phase: Phase::Run };
    editing.change_task(task, change)
}

/// Ends a task's call: the value that it returns stands in r0, and its script goes on.
/// (Called: what concludes a call would else be larger than what the compiler inlines.)
#[inline(never)]
pub fn return_from(editing: &mut Editing, task: usize, value: u32) -> Result<(), NoMemory>
    requires task { task < length editing.old.now.tasks }
    requires pc { (task_at editing.old.now task).pc < MAX_CODE }
    ensures ok { OnOk result
        (Reaches editing.old editing.new (returned editing.old.now task value) returning_cost) }
    ensures err { OnErr result (GivesUp editing.old editing.new returning_cost) }
{
    let pc = editing.state().task(task).pc();
    set_register(editing, task, 0, value)?;
    set_running(editing, task)?;
    set_pc(editing, task, pc + 1)
}

/// Gives the turn to this core. If it has the turn already,
/// nothing changes, and no memory is taken.
#[inline(always)]
pub fn set_turn(editing: &mut Editing, turn: usize) -> Result<(), NoMemory>
    requires { turn ≤ length editing.old.now.cores }
    ensures ok { OnOk result
        (Reaches editing.old editing.new (record editing.old.now { turn = turn }) 1) }
    ensures has_it { editing.old.now.turn ≡ turn → IsOk result }
    ensures err { OnErr result (GivesUp editing.old editing.new 1) }
{
    if editing.state().turn() == turn {
        return Ok(());
    }
    editing.change(Change::SetTurn { turn })
}
