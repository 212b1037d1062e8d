//! Block times: tasks that begin to wait, and tasks that are woken.
ghost use Rattle.std.specs.Prelude.{◌≡◌, ◌+◌, ◌*◌, ◌<◌, ◌≤◌, [], true, false, length, nat_eq};
ghost use Rattle.std.specs.Prelude.{All, IfSome, position};
ghost use Rattle.std.specs.Prelude.{IfOk, IsOk, OnOk, OnErr, IsTrue};
ghost use Rattle.rd_app.specs.Application.{IsOperand, priorities_of};
ghost use Rattle.rd_state.specs.EditingView.{Reaches, GivesUp};
ghost use Rattle.rd_state.specs.Sizes.{IsDeadline};
ghost use Rattle.rd_state.specs.Snapshot.{numbers_of, task_at};
ghost use Rattle.rd_state.specs.Valid.{is_ahead, times_to_run};
ghost use Rattle.rd_state.specs.Waiting.{HasList, IsPlace, is_by_priority, waiting_at};
ghost use Rattle.rd_kernel.specs.Costs.{waking_cost};
ghost use Rattle.rd_kernel.specs.Outcomes.{DoesCall, IsCalling, blocked, passed};
ghost use Rattle.rd_kernel.specs.Waking.{operand_value, deadline_after, deadline_of};
ghost use Rattle.rd_kernel.specs.Waking.{if_due, is_due, may_wait, phase_woken, ReadyHasRoom};
ghost use Rattle.rd_kernel.specs.Waking.{left, woken, woken_all, woken_first, IsSizedWaking};
ghost use Rattle.rd_kernel.specs.Waking.{WhoWaitsLeavesRoom};

use crate::changes::set_phase;
use crate::outcome::Outcome;
use rd_app::app::Program;
use rd_app::instr::{MAX_DELAY, Operand};
use rd_bytes::no_memory::NoMemory;
use rd_state::editing::Editing;
use rd_state::phase::{Listed, Phase, Place};
use rd_wait::prio_list::index_for;

/// What a waking leads to.
#[derive(Clone, Copy)]
pub enum Waking {
    /// Whoever is woken isn't handed anything: it tries its call again, with its deadline.
    TriesAgain,
    /// Whoever is woken is given bits of its event group, which its call returns.
    IsGiven { bits: u32 },
}

impl Waking {
    // The phase of a task that was woken in this one.
    fn phase(self, phase: Phase) -> Phase
        ensures { result ≡ phase_woken self phase }
    {
        match self {
            Waking::TriesAgain => Phase::Again {
                deadline: phase.kept_deadline(),
            },
            Waking::IsGiven { bits } => Phase::Given { bits },
        }
    }
}

/// The number that an operand stands for.
pub fn operand_value(editing: &Editing, task: usize, operand: Operand) -> u32
    requires task { task < length editing.now.now.tasks }
    requires register { IsOperand operand }
    ensures { result ≡ operand_value editing.now.now task operand }
{
    match operand {
        Operand::Number { value } => value,
        Operand::Register { register } => editing.state().task(task).register(register),
    }
}

// The deadline of a block time that begins at a tick (`portMAX_DELAY` has none).
fn deadline_after(tick: u32, time: u32) -> Option<u64>
    ensures deadline { result ≡ deadline_after tick time }
    ensures sized { IsDeadline result }
{
    if time == MAX_DELAY {
        None
    } else {
        Some(u64::from(tick) + u64::from(time))
    }
}

/// The deadline of a call: a new one at its first try, and then the one that it was given there.
pub fn deadline_of(editing: &Editing, task: usize, wait: Operand) -> Option<u64>
    requires task { task < length editing.now.now.tasks }
    requires register { IsOperand wait }
    ensures deadline { result ≡ deadline_of editing.now.now task wait }
    ensures sized { IsDeadline result }
{
    let phase = editing.state().phase(task);
    if phase.is_first() {
        deadline_after(editing.state().tick(), operand_value(editing, task, wait))
    } else {
        phase.kept_deadline()
    }
}

// Is a deadline none, or a tick to come?
fn is_ahead(tick: u32, deadline: Option<u64>) -> bool
    ensures { result ≡ is_ahead tick deadline }
{
    match deadline {
        None => true,
        Some(deadline) => u64::from(tick) < deadline,
    }
}

/// Whether a call may wait, which it may for as long as its deadline is ahead.
pub fn may_wait(editing: &Editing, task: usize, wait: Operand) -> bool
    requires task { task < length editing.now.now.tasks }
    requires register { IsOperand wait }
    ensures { result ≡ may_wait editing.now.now task wait }
{
    is_ahead(editing.state().tick(), deadline_of(editing, task, wait))
}

/// Ends a call that can't be done: its task waits in the list, which is in the order of priorities,
/// where its block time lasts, and else the call fails. The task is the last of those of its
/// priority there. A call that fails takes no memory.
pub fn block(
    app: &Program,
    editing: &mut Editing,
    task: usize,
    list: Listed,
    wait: Operand,
) -> Result<Outcome, NoMemory>
    requires caller { IsCalling app.now editing.old.now task }
    requires list { HasList editing.old.now list }
    requires ordered { is_by_priority list ≡ true }
    requires register { IsOperand wait }
    ensures ok { IfOk result (DoesCall editing.old editing.new
        (blocked (priorities_of app.now) editing.old.now task list wait) 1) }
    ensures at_once { may_wait editing.old.now task wait ≡ false → IsOk result }
    ensures err { OnErr result (GivesUp editing.old editing.new 1) }
{
    let deadline = deadline_of(editing, task, wait);
    if !is_ahead(editing.state().tick(), deadline) {
        return Ok(Outcome::Returns(0));
    }
    let priorities = app.priorities();
    let waiting = editing.state().waiting(list);
    let index = index_for(priorities, waiting, priorities[task]);
    editing.insert_waiting(list, index, task)?;
    let place = Place::Listed { list };
    Ok(Outcome::Waits { place, deadline })
}

// Where a task stands in a list.
fn position(tasks: &[usize], task: usize) -> Option<usize>
    ensures index { result ≡ position (λ member. nat_eq member task) tasks.now }
    ensures within { IfSome result (λ index. index < length tasks.now) }
{
    tasks.iter().position(|member| *member == task)
}

// A task leaves a place: it leaves the list that has it, if it stands there.
fn leave(editing: &mut Editing, place: Place, task: usize) -> Result<(), NoMemory>
    requires { IsPlace (numbers_of editing.old.now) place }
    ensures ok { OnOk result
        (Reaches editing.old editing.new (left editing.old.now place task) 1) }
    ensures err { OnErr result (GivesUp editing.old editing.new 1) }
{
    let Place::Listed { list } = place else {
        return Ok(());
    };
    match position(editing.state().waiting(list), task) {
        None => Ok(()),
        Some(index) => editing.delete_waiting(list, index),
    }
}

/// Wakes a task that waits: it leaves its place, is in the phase that its waking leads to, and
/// joins the ready list. A task that doesn't wait stays as it is; where it can run, that takes no
/// memory.
pub fn wake(
    editing: &mut Editing,
    priorities: &[u8],
    task: usize,
    waking: Waking,
) -> Result<(), NoMemory>
    requires task { task < length editing.old.now.tasks }
    requires bits { IsSizedWaking waking }
    requires room { ReadyHasRoom editing.old.now }
    requires priorities { length priorities.now ≡ length editing.old.now.tasks }
    ensures ok { OnOk result (Reaches editing.old editing.new
        (woken priorities.now waking editing.old.now task) waking_cost) }
    ensures awake { 1 ≤ times_to_run (task_at editing.old.now task).phase → IsOk result }
    ensures err { OnErr result (GivesUp editing.old editing.new waking_cost) }
{
    let phase = editing.state().phase(task);
    let Some(place) = phase.waits_at() else {
        return Ok(());
    };
    leave(editing, place, task)?;
    set_phase(editing, task, waking.phase(phase))?;
    editing.join_ready(priorities, task)
}

/// Wakes these tasks, one after the other. Those that don't wait stay as they are. Waking nobody
/// takes no memory.
pub fn wake_all(
    editing: &mut Editing,
    priorities: &[u8],
    tasks: &[usize],
    waking: Waking,
) -> Result<(), NoMemory>
    requires tasks { All (λ task. task < length editing.old.now.tasks) tasks.now }
    requires bits { IsSizedWaking waking }
    requires room { length editing.old.now.ready + length tasks.now
        ≤ length editing.old.now.tasks }
    requires priorities { length priorities.now ≡ length editing.old.now.tasks }
    ensures ok { OnOk result (Reaches editing.old editing.new
        (woken_all priorities.now waking editing.old.now tasks.now)
        (waking_cost * length tasks.now)) }
    ensures nobody { tasks.now ≡ [] → IsOk result }
    ensures err { OnErr result
        (GivesUp editing.old editing.new (waking_cost * length tasks.now)) }
{
    for task in tasks {
        wake(editing, priorities, *task, waking)?;
    }
    Ok(())
}

/// Wakes the first to be served of a list, if anyone waits there. Waking nobody takes no memory.
pub fn wake_first(editing: &mut Editing, priorities: &[u8], list: Listed) -> Result<(), NoMemory>
    requires list { HasList editing.old.now list }
    requires room { 0 < length (waiting_at editing.old.now list) → ReadyHasRoom editing.old.now }
    requires priorities { length priorities.now ≡ length editing.old.now.tasks }
    ensures ok { OnOk result
        (Reaches editing.old editing.new (woken_first priorities.now editing.old.now list)
        waking_cost) }
    ensures nobody { waiting_at editing.old.now list ≡ [] → IsOk result }
    ensures err { OnErr result (GivesUp editing.old editing.new waking_cost) }
{
    match editing.state().waiting(list).first().copied() {
        None => Ok(()),
        Some(task) => wake(editing, priorities, task, Waking::TriesAgain),
    }
}

/// Ends a call that was done: it passes, and the first who waits for what it leaves is woken.
pub fn pass(editing: &mut Editing, priorities: &[u8], list: Listed) -> Result<Outcome, NoMemory>
    requires list { HasList editing.old.now list }
    requires room { 0 < length (waiting_at editing.old.now list) → ReadyHasRoom editing.old.now }
    requires priorities { length priorities.now ≡ length editing.old.now.tasks }
    ensures ok { IfOk result (DoesCall editing.old editing.new
        (passed priorities.now editing.old.now list) waking_cost) }
    ensures nobody { waiting_at editing.old.now list ≡ [] → IsOk result }
    ensures err { OnErr result (GivesUp editing.old editing.new waking_cost) }
{
    wake_first(editing, priorities, list)?;
    Ok(Outcome::Returns(1))
}

// Is it the end of a task's waiting?
fn is_due(editing: &Editing, task: usize) -> bool
    requires { task < length editing.now.now.tasks }
    ensures { result ≡ is_due editing.now.now.tick (task_at editing.now.now task).phase }
{
    let phase = editing.state().phase(task);
    phase.waits_at().is_some() && !is_ahead(editing.state().tick(), phase.kept_deadline())
}

/// Wakes a task whose time is up; any other stays as it is, which takes no memory.
pub fn wake_if_due(editing: &mut Editing, priorities: &[u8], task: usize) -> Result<(), NoMemory>
    requires task { task < length editing.old.now.tasks }
    requires room { IsTrue (is_due editing.old.now.tick (task_at editing.old.now task).phase)
        → ReadyHasRoom editing.old.now }
    requires priorities { length priorities.now ≡ length editing.old.now.tasks }
    ensures ok { OnOk result
        (Reaches editing.old editing.new (woken_all priorities.now Waking.TriesAgain editing.old.now
        (if_due editing.old.now task)) waking_cost) }
    ensures early { is_due editing.old.now.tick (task_at editing.old.now task).phase ≡ false
        → IsOk result }
    ensures err { OnErr result (GivesUp editing.old editing.new waking_cost) }
{
    if is_due(editing, task) {
        wake(editing, priorities, task, Waking::TriesAgain)
    } else {
        Ok(())
    }
}

/// A law: whoever waits isn't ready, so that in a valid state where somebody waits the ready list
/// has room to wake them: nobody has to call.
pub fn who_waits_leaves_room()
    ensures { WhoWaitsLeavesRoom }
{}
