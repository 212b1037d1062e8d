//! The calls that notify a task, or look at an entry of one.

ghost use Rattle.std.specs.Prelude.{ℕ, ◌≡◌, ◌<◌, ◌&&◌, ◌^◌, false, length, nat_eq, true, IfOk};
ghost use Rattle.std.specs.Prelude.{IsOk, IsSome, OnErr, OnOk};
ghost use Rattle.rd_app.specs.Application.{IsNotifyCall, IsOperand, priorities_of};
ghost use Rattle.rd_notify.specs.Entries.{entry_cleared, entry_taken, has_received, is_left_alone};
ghost use Rattle.rd_notify.specs.declared.entries.TheConstants.{MAX_ENTRIES};
ghost use Rattle.rd_state.specs.EditingView.{GivesUp, Reaches};
ghost use Rattle.rd_state.specs.Phases.{waits_at};
ghost use Rattle.rd_state.specs.Snapshot.{task_at};
ghost use Rattle.rd_kernel.specs.Costs.{telling_cost};
ghost use Rattle.rd_kernel.specs.Outcomes.{DoesCall, IsCalling};
ghost use Rattle.rd_kernel.specs.Tasks.{entry_at, HasEntry, PcStays};
ghost use Rattle.rd_kernel.specs.Telling.{notified, waits_once};
ghost use Rattle.rd_kernel.specs.Waking.{ReadyHasRoom};
ghost use Rattle.rd_notify_calls.specs.NotifyCalls.{answer_to, clear_state_outcome};
ghost use Rattle.rd_notify_calls.specs.NotifyCalls.{clear_value_outcome, entry_closed};
ghost use Rattle.rd_notify_calls.specs.NotifyCalls.{entry_opened, notify_call_cost};
ghost use Rattle.rd_notify_calls.specs.NotifyCalls.{notify_call_outcome, notify_wait_outcome};
ghost use Rattle.rd_notify_calls.specs.NotifyCalls.{take_outcome, NotifyCallChangesNothing};

use rd_app::app::Program;
use rd_app::instr::{NotifyCall, Operand};
use rd_bytes::no_memory::NoMemory;
use rd_kernel::changes::set_entry;
use rd_kernel::outcome::Outcome;
use rd_kernel::telling::{tell, wait_for_entry, waits_once};
use rd_kernel::waking::operand_value;
use rd_notify::action::{Action, OnExit};
use rd_notify::entries::{Entry, EntryState};
use rd_state::editing::Editing;

// An entry of a task.
fn entry_of(editing: &Editing, task: usize, index: usize) -> Entry
    requires { HasEntry editing.now.now task index }
    ensures { result ≡ entry_at editing.now.now task index }
{
    editing.state().task(task).entries().entry(index)
}

/// A notification comes to an entry of a task: the entry takes it, and whoever waits for it is
/// woken, or it is left alone. Answers 1, or 0. It needs no caller, only room in the ready list
/// where the task waits. `NoMemory` where a growth was refused; then the move goes no further.
pub fn notify(
    app: &Program,
    editing: &mut Editing,
    target: usize,
    index: usize,
    action: Action,
    value: u32,
) -> Result<u32, NoMemory>
    requires there { HasEntry editing.old.now target index }
    requires room { IsSome (waits_at (task_at editing.old.now target).phase)
        → ReadyHasRoom editing.old.now }
    requires priorities { length (priorities_of app.now) ≡ length editing.old.now.tasks }
    ensures ok { OnOk result (Reaches editing.old editing.new
        (notified (priorities_of app.now) editing.old.now target index action value)
        telling_cost) }
    ensures answer { IfOk result (λ answer.
        answer ≡ answer_to action (entry_at editing.old.now target index).state) }
    ensures left_alone { is_left_alone action (entry_at editing.old.now target index).state ≡ true
        → IsOk result }
    ensures stays { OnOk result ((task : ℕ) → PcStays editing.old.now editing.new.now task) }
    ensures err { OnErr result (GivesUp editing.old editing.new telling_cost) }
{
    let entry = entry_of(editing, target, index);
    let Some(entry) = entry.notified(action, value) else {
        return Ok(0);
    };
    tell(editing, app.priorities(), target, index, entry)?;
    Ok(1)
}

// Takes the value of an entry of its own, or waits for one that isn't 0
// (`ulTaskNotifyTakeIndexed`).
fn take(
    editing: &mut Editing,
    task: usize,
    index: usize,
    exit: OnExit,
    wait: Operand,
) -> Result<Outcome, NoMemory>
    requires there { HasEntry editing.old.now task index }
    requires few { index < MAX_ENTRIES }
    requires register { IsOperand wait }
    ensures ok { IfOk result (DoesCall editing.old editing.new
        (take_outcome editing.old.now task index exit wait) 1) }
    ensures nothing { (nat_eq (entry_at editing.old.now task index).value 0
        && waits_once editing.old.now task wait) ≡ false
        → entry_taken exit (entry_at editing.old.now task index)
        ≡ entry_at editing.old.now task index → IsOk result }
    ensures stays { OnOk result (PcStays editing.old.now editing.new.now task) }
    ensures err { OnErr result (GivesUp editing.old editing.new 1) }
{
    let entry = entry_of(editing, task, index);
    if entry.value == 0 && waits_once(editing, task, wait) {
        return wait_for_entry(editing, task, index, entry, wait);
    }
    set_entry(editing, task, index, entry.taken(exit))?;
    Ok(Outcome::Returns(entry.value))
}

// The entry as a call of `xTaskNotifyWaitIndexed` looks at it: at the first try, one that has
// received nothing loses the bits to clear on entry.
fn open_entry(editing: &Editing, task: usize, index: usize, bits: u32) -> Entry
    requires { HasEntry editing.now.now task index }
    ensures { result ≡ entry_opened editing.now.now task index bits }
{
    let entry = entry_of(editing, task, index);
    if editing.state().phase(task).is_first() && entry.state != EntryState::Received {
        entry.cleared(bits)
    } else {
        entry
    }
}

// Ends a call of `xTaskNotifyWaitIndexed` that doesn't wait: r1 is the entry's value, and one that
// has received loses the bits to clear on exit.
fn close_entry(
    editing: &mut Editing,
    task: usize,
    index: usize,
    entry: Entry,
    bits: u32,
) -> Result<Outcome, NoMemory>
    requires there { HasEntry editing.old.now task index }
    requires value { entry.value < 2 ^ 32 }
    ensures ok { IfOk result (DoesCall editing.old editing.new
        (entry_closed editing.old.now task index entry bits) 1) }
    ensures stays { OnOk result (PcStays editing.old.now editing.new.now task) }
    ensures err { OnErr result (GivesUp editing.old editing.new 1) }
{
    let second = entry.value;
    if entry.state != EntryState::Received {
        set_entry(editing, task, index, entry.idle())?;
        return Ok(Outcome::ReturnsBoth { value: 0, second });
    }
    set_entry(editing, task, index, entry.cleared(bits).idle())?;
    Ok(Outcome::ReturnsBoth { value: 1, second })
}

// Waits for a notification of an entry of its own (`xTaskNotifyWaitIndexed`).
fn wait_notified(
    editing: &mut Editing,
    task: usize,
    index: usize,
    entry_bits: Operand,
    exit_bits: Operand,
    wait: Operand,
) -> Result<Outcome, NoMemory>
    requires there { HasEntry editing.old.now task index }
    requires few { index < MAX_ENTRIES }
    requires entry_register { IsOperand entry_bits }
    requires exit_register { IsOperand exit_bits }
    requires register { IsOperand wait }
    ensures ok { IfOk result (DoesCall editing.old editing.new
        (notify_wait_outcome editing.old.now task index entry_bits exit_bits wait) 1) }
    ensures stays { OnOk result (PcStays editing.old.now editing.new.now task) }
    ensures err { OnErr result (GivesUp editing.old editing.new 1) }
{
    let has_received = entry_of(editing, task, index).state == EntryState::Received;
    let bits = operand_value(editing, task, entry_bits);
    let entry = open_entry(editing, task, index, bits);
    if !has_received && waits_once(editing, task, wait) {
        return wait_for_entry(editing, task, index, entry, wait);
    }
    let bits = operand_value(editing, task, exit_bits);
    close_entry(editing, task, index, entry, bits)
}

// Makes an entry of a task idle that has received (`xTaskNotifyStateClearIndexed`).
fn clear_state(
    editing: &mut Editing,
    task: usize,
    target: usize,
    index: usize,
) -> Result<Outcome, NoMemory>
    requires there { HasEntry editing.old.now target index }
    ensures ok { IfOk result (DoesCall editing.old editing.new
        (clear_state_outcome editing.old.now target index) 1) }
    ensures nothing { has_received (entry_at editing.old.now target index).state ≡ false
        → IsOk result }
    ensures stays { OnOk result (PcStays editing.old.now editing.new.now task) }
    ensures err { OnErr result (GivesUp editing.old editing.new 1) }
{
    let _ = task;
    let entry = entry_of(editing, target, index);
    if entry.state != EntryState::Received {
        return Ok(Outcome::Returns(0));
    }
    set_entry(editing, target, index, entry.idle())?;
    Ok(Outcome::Returns(1))
}

// Clears bits of the value of a task's entry (`ulTaskNotifyValueClearIndexed`).
fn clear_value(
    editing: &mut Editing,
    task: usize,
    target: usize,
    index: usize,
    bits: u32,
) -> Result<Outcome, NoMemory>
    requires there { HasEntry editing.old.now target index }
    ensures ok { IfOk result (DoesCall editing.old editing.new
        (clear_value_outcome editing.old.now target index bits) 1) }
    ensures nothing { entry_cleared bits (entry_at editing.old.now target index)
        ≡ entry_at editing.old.now target index → IsOk result }
    ensures stays { OnOk result (PcStays editing.old.now editing.new.now task) }
    ensures err { OnErr result (GivesUp editing.old editing.new 1) }
{
    let _ = task;
    let entry = entry_of(editing, target, index);
    set_entry(editing, target, index, entry.cleared(bits))?;
    Ok(Outcome::Returns(entry.value))
}

/// Does a call that notifies a task, or looks at an entry of one. One that leaves all as it is
/// takes no memory.
pub fn call_notify(
    app: &Program,
    editing: &mut Editing,
    task: usize,
    call: NotifyCall,
) -> Result<Outcome, NoMemory>
    requires caller { IsCalling app.now editing.old.now task }
    requires names { IsNotifyCall (length editing.old.now.tasks) app.now.entries call }
    ensures ok { IfOk result (DoesCall editing.old editing.new
        (notify_call_outcome (priorities_of app.now) editing.old.now task call)
        (notify_call_cost call)) }
    ensures nothing { NotifyCallChangesNothing editing.old.now task call → IsOk result }
    ensures stays { OnOk result (PcStays editing.old.now editing.new.now task) }
    ensures err { OnErr result (GivesUp editing.old editing.new (notify_call_cost call)) }
{
    app.limits();
    match call {
        NotifyCall::Notify {
            task: target,
            index,
            value,
            action,
        } => {
            let value = operand_value(editing, task, value);
            let answer = notify(app, editing, target, index, action, value)?;
            Ok(Outcome::Returns(answer))
        }
        NotifyCall::Query {
            task: target,
            index,
            value,
            action,
        } => {
            let value = operand_value(editing, task, value);
            let second = entry_of(editing, target, index).value;
            let value = notify(app, editing, target, index, action, value)?;
            Ok(Outcome::ReturnsBoth { value, second })
        }
        NotifyCall::Take { index, exit, wait } => take(editing, task, index, exit, wait),
        NotifyCall::Wait {
            index,
            entry_bits,
            exit_bits,
            wait,
        } => wait_notified(editing, task, index, entry_bits, exit_bits, wait),
        NotifyCall::ClearState {
            task: target,
            index,
        } => clear_state(editing, task, target, index),
        NotifyCall::ClearValue {
            task: target,
            index,
            bits,
        } => {
            let bits = operand_value(editing, task, bits);
            clear_value(editing, task, target, index, bits)
        }
    }
}
