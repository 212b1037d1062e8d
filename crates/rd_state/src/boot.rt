//! The state at boot.

ghost use Rattle.std.specs.Prelude.{◌≡◌, ◌≤◌, length, replicate, IfOk};
ghost use Rattle.rd_notify.specs.declared.entries.TheConstants.{MAX_ENTRIES};
ghost use Rattle.rd_notify.specs.Entries.{idle_entry};
ghost use Rattle.rd_app.specs.Application.{priorities_of};
ghost use Rattle.rd_state.specs.Boot.{all_joined, boot_of, fresh_task};
ghost use Rattle.rd_state.specs.Settled.{IsSettled};
ghost use Rattle.rd_state.specs.Valid.{IsValid};

use crate::editing::Editing;
use crate::state::State;
use crate::task::Task;
use rd_app::app::Program;
use rd_bytes::no_memory::NoMemory;
use rd_wait::prio_list::PrioList;
use std::alloc::Global;

// `count` tasks at their first instruction, each with so many notification entries.
pub(crate) fn new_tasks(alloc: Global, count: usize, entries: usize) -> Result<Vec<Task>, NoMemory>
    requires { entries ≤ MAX_ENTRIES }
    ensures { IfOk result (λ tasks. tasks.items ≡ replicate count (fresh_task entries)) }
{
    let mut tasks = Vec::with_capacity(alloc, count)?;
    for _ in 0..count {
        tasks.push(Task::new(entries))?;
    }
    Ok(tasks)
}

// The ready list of all tasks, joined by rising number.
pub(crate) fn all_ready(alloc: Global, priorities: &[u8]) -> Result<PrioList, NoMemory>
    ensures { IfOk result (λ list. list ≡ record {
      tasks = all_joined priorities.now (length priorities.now);
      capacity = length priorities.now;
    }) }
{
    let mut ready = PrioList::new(alloc, priorities.len())?;
    for task in 0..priorities.len() {
        let index = ready.index_for(priorities, priorities[task]);
        ready.insert_at(index, task);
    }
    Ok(ready)
}

impl State {
    /// The state at boot: every task ready at its first instruction, every object empty, and then
    /// scheduled (`vTaskStartScheduler`). All memory that the state needs is taken here.
    pub fn boot(alloc: Global, app: &Program) -> Result<State, NoMemory>
        ensures state { IfOk result (λ state. state ≡ boot_of app.now) }
        ensures valid { IfOk result (λ state. IsValid app.now state) }
        ensures settled { IfOk result (IsSettled (priorities_of app.now)) }
    {
        let before = State::before_scheduling(alloc, app)?;
        app.limits();
        let mut editing = Editing::new(alloc, before);
        let settled = editing.settle(app.priorities());
        let mut state = State::hollow(alloc);
        editing.end(&mut state).retire();
        settled?;
        state.sizes();
        Ok(state)
    }
}
