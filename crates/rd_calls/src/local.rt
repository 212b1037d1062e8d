//! The instructions that touch nothing but their own task.
ghost use Rattle.std.specs.Prelude.{◌≡◌, ◌+◌, ◌%◌, ◌^◌, ◌<◌, ◌≤◌, if◌then◌else◌, length, nat_eq};
ghost use Rattle.std.specs.Prelude.{slice_index, OnOk, OnErr};
ghost use Rattle.std.specs.Int.{w32, from_le_bytes};
ghost use Rattle.rd_bytes.specs.declared.bytes.TheConstants.{MAX_BYTES};
ghost use Rattle.rd_app.specs.declared.app.TheConstants.{MAX_CODE};
ghost use Rattle.rd_app.specs.declared.instr.TheConstants.{REGISTERS};
ghost use Rattle.rd_state.specs.EditingView.{Reaches, GivesUp};
ghost use Rattle.rd_state.specs.Snapshot.{task_at};
ghost use Rattle.rd_kernel.specs.Costs.{data_cost};
ghost use Rattle.rd_kernel.specs.Tasks.{register_at, with_register, with_bytes, advanced};
ghost use Rattle.rd_kernel.specs.Tasks.{with_idle_core, with_pc, with_phase};
ghost use Rattle.rd_calls.specs.Local.{local_cost, local_step, NamesLocalParts};

use rd_app::instr::LocalInstr;
use rd_bytes::no_memory::NoMemory;
use rd_kernel::changes::{advance, set_bytes, set_pc, set_phase, set_register};
use rd_state::change::Change;
use rd_state::editing::Editing;
use rd_state::phase::Phase;

// The number whose four bytes, lowest first, begin the bytes; missing ones are 0.
fn unpacked(bytes: &[u8]) -> u32
    ensures { result ≡ from_le_bytes w32 bytes.now }
{
    let byte = |index: usize| bytes.get(index).copied().unwrap_or(0);
    u32::from_le_bytes([byte(0), byte(1), byte(2), byte(3)])
}

fn register_at(editing: &Editing, task: usize, register: usize) -> u32
    requires task { task < length editing.now.now.tasks }
    requires register { register < REGISTERS }
    ensures { result ≡ register_at editing.now.now task register }
{
    editing.state().task(task).register(register)
}

// A register gets a value, and the script goes on.
fn assign_register(
    editing: &mut Editing,
    task: usize,
    register: usize,
    value: u32,
) -> Result<(), NoMemory>
    requires task { task < length editing.old.now.tasks }
    requires register { register < REGISTERS }
    requires pc { (task_at editing.old.now task).pc < MAX_CODE }
    ensures ok { OnOk result (Reaches editing.old editing.new
        (advanced (with_register editing.old.now task register value) task) 2) }
    ensures err { OnErr result (GivesUp editing.old editing.new 2) }
{
    set_register(editing, task, register, value)?;
    advance(editing, task)
}

// A register grows by a value, modulo 2^32, and the script goes on.
fn add_to_register(
    editing: &mut Editing,
    task: usize,
    register: usize,
    value: u32,
) -> Result<(), NoMemory>
    requires task { task < length editing.old.now.tasks }
    requires register { register < REGISTERS }
    requires pc { (task_at editing.old.now task).pc < MAX_CODE }
    ensures ok { OnOk result (Reaches editing.old editing.new
        (advanced (with_register editing.old.now task register
        ((register_at editing.old.now task register + value) % 2 ^ 32)) task) 2) }
    ensures err { OnErr result (GivesUp editing.old editing.new 2) }
{
    let sum = register_at(editing, task, register).wrapping_add(value);
    assign_register(editing, task, register, sum)
}

// The script goes on at the target if the register is 0, and else at the next instruction.
fn jump_if_zero(
    editing: &mut Editing,
    task: usize,
    register: usize,
    target: usize,
) -> Result<(), NoMemory>
    requires task { task < length editing.old.now.tasks }
    requires register { register < REGISTERS }
    requires target { target ≤ MAX_CODE }
    requires pc { (task_at editing.old.now task).pc < MAX_CODE }
    ensures ok { OnOk result (Reaches editing.old editing.new
        (with_pc editing.old.now task
        (if nat_eq (register_at editing.old.now task register) 0 then target
        else (task_at editing.old.now task).pc + 1)) 1) }
    ensures err { OnErr result (GivesUp editing.old editing.new 1) }
{
    let next = editing.state().task(task).pc() + 1;
    let is_zero = register_at(editing, task, register) == 0;
    set_pc(editing, task, if is_zero { target } else { next })
}

// The data becomes these bytes, and the script goes on.
fn assign_bytes(editing: &mut Editing, task: usize, bytes: &[u8]) -> Result<(), NoMemory>
    requires task { task < length editing.old.now.tasks }
    requires few { length bytes.now ≤ MAX_BYTES }
    requires pc { (task_at editing.old.now task).pc < MAX_CODE }
    ensures ok { OnOk result (Reaches editing.old editing.new
        (advanced (with_bytes editing.old.now task bytes.now) task) (data_cost + 1)) }
    ensures err { OnErr result (GivesUp editing.old editing.new (data_cost + 1)) }
{
    set_bytes(editing, task, bytes)?;
    advance(editing, task)
}

// Ends a task: it leaves its core for good.
fn end_task(editing: &mut Editing, core: usize, task: usize) -> Result<(), NoMemory>
    requires task { task < length editing.old.now.tasks }
    requires core { core < length editing.old.now.cores }
    ensures ok { OnOk result (Reaches editing.old editing.new
        (with_idle_core (with_phase editing.old.now task Phase.Ended) core) 2) }
    ensures err { OnErr result (GivesUp editing.old editing.new 2) }
{
    set_phase(editing, task, Phase::Ended)?;
    editing.change(Change::SetCore { core, task: None })
}

/// Does an instruction that touches nothing but its own task.
pub fn do_local(
    editing: &mut Editing,
    core: usize,
    task: usize,
    instr: &LocalInstr,
) -> Result<(), NoMemory>
    requires task { task < length editing.old.now.tasks }
    requires core { core < length editing.old.now.cores }
    requires pc { (task_at editing.old.now task).pc < MAX_CODE }
    requires names { NamesLocalParts instr.now }
    ensures ok { OnOk result
        (Reaches editing.old editing.new (local_step editing.old.now core task instr.now)
        local_cost) }
    ensures err { OnErr result (GivesUp editing.old editing.new local_cost) }
{
    match instr {
        LocalInstr::Set { register, value } => assign_register(editing, task, *register, *value),
        LocalInstr::Add { register, value } => add_to_register(editing, task, *register, *value),
        LocalInstr::Move { into, from } => {
            let value = register_at(editing, task, *from);
            assign_register(editing, task, *into, value)
        }
        LocalInstr::Data { bytes } => assign_bytes(editing, task, bytes.as_slice()),
        LocalInstr::Pack { register } => {
            let bytes = register_at(editing, task, *register).to_le_bytes();
            assign_bytes(editing, task, &bytes)
        }
        LocalInstr::Unpack { register } => {
            let value = unpacked(editing.state().task(task).bytes());
            assign_register(editing, task, *register, value)
        }
        LocalInstr::Jump { target } => set_pc(editing, task, *target),
        LocalInstr::JumpZero { register, target } => {
            jump_if_zero(editing, task, *register, *target)
        }
        LocalInstr::End => end_task(editing, core, task),
    }
}
