//! The primitive changes of a task, each with the change that undoes it.

ghost use Rattle.std.specs.Prelude.{◌≡◌, ◌+◌};
ghost use Rattle.rd_state.specs.TaskChanges.{task_applied, task_inverse_of, task_saved_bytes};
ghost use Rattle.rd_state.specs.TaskChanges.{the_task_change, TaskFits, EachTaskChangeIsUndone};

use crate::phase::Phase;
use crate::task::Task;
use rd_notify::entries::Entry;

/// A primitive change of a task. Its bytes are borrowed: from the task, from an object, or from
/// where changes are kept.
#[derive(Clone, Copy)]
pub enum TaskChange<'a> {
    /// The task stands at this instruction.
    SetPc { pc: usize },
    /// The register becomes the value.
    SetReg { register: usize, value: u32 },
    /// The task is in this phase.
    SetPhase { phase: Phase },
    /// The notification entry becomes this one.
    SetEntry { index: usize, entry: Entry },
    /// The data becomes these bytes.
    SetData { bytes: &'a [u8] },
}

impl TaskChange<'_> {
    /// How much it takes in a record: one, and the bytes that it carries.
    pub fn cost(self) -> usize
        ensures { result ≡ 1 + task_saved_bytes (the_task_change self.entry) }
    {
        match self {
            TaskChange::SetPc { .. }
            | TaskChange::SetReg { .. }
            | TaskChange::SetPhase { .. }
            | TaskChange::SetEntry { .. } => 1,
            TaskChange::SetData { bytes } => 1 + bytes.len(),
        }
    }
}

impl Task {
    /// Makes a change. It takes no memory.
    #[inline(always)]
    pub fn apply(&mut self, change: TaskChange<'_>)
        requires { TaskFits self.old (the_task_change change) }
        ensures { self.new ≡ task_applied self.old (the_task_change change.entry) }
    {
        match change {
            TaskChange::SetPc { pc } => self.set_pc(pc),
            TaskChange::SetReg { register, value } => self.set_register(register, value),
            TaskChange::SetPhase { phase } => self.set_phase(phase),
            TaskChange::SetEntry { index, entry } => self.set_entry(index, entry),
            TaskChange::SetData { bytes } => self.set_bytes(bytes),
        }
    }

    /// The change that undoes `change`, made at this task, which lends it its bytes. It takes no
    /// memory.
    #[inline(always)]
    pub fn inverse_of(&self, change: TaskChange<'_>) -> TaskChange<'_>
        requires { TaskFits self.now (the_task_change change) }
        ensures { the_task_change result
            ≡ task_inverse_of self.now (the_task_change change.entry) }
    {
        match change {
            TaskChange::SetPc { .. } => TaskChange::SetPc { pc: self.pc() },
            TaskChange::SetReg { register, .. } => TaskChange::SetReg {
                register,
                value: self.register(register),
            },
            TaskChange::SetPhase { .. } => TaskChange::SetPhase {
                phase: self.phase(),
            },
            TaskChange::SetEntry { index, .. } => TaskChange::SetEntry {
                index,
                entry: self.entries().entry(index),
            },
            TaskChange::SetData { .. } => TaskChange::SetData {
                bytes: self.bytes(),
            },
        }
    }
}

/// A law: each change of a task is undone by its inverse, to the last field of the task.
pub fn each_task_change_is_undone()
    ensures { EachTaskChangeIsUndone }
{}
