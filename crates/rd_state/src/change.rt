//! The primitive changes of the state.

ghost use Rattle.std.specs.Prelude.{◌≡◌};
ghost use Rattle.rd_state.specs.Change.{cost_of, moves_lineup, the_change};

use crate::objects::ObjectChange;
use crate::task_change::TaskChange;

/// A primitive change of the state: all that a move does is made of these, and each has an inverse
/// among them. Tasks and cores go by number, an index counts from the front. Its bytes are
/// borrowed: from the state, or from where changes are kept.
#[derive(Clone, Copy)]
pub enum Change<'a> {
    /// It is this tick.
    SetTick { tick: u32 },
    /// The turn becomes this core's.
    SetTurn { turn: usize },
    /// The core has this task, or none.
    SetCore { core: usize, task: Option<usize> },
    /// The task is put into the ready list at the index.
    InsReady { index: usize, task: usize },
    /// The task at the index leaves the ready list.
    DelReady { index: usize },
    /// The task changes so.
    Task { task: usize, change: TaskChange<'a> },
    /// An object changes so.
    Object { change: ObjectChange<'a> },
}

impl Change<'_> {
    /// How much it takes in a record: one, and the bytes that it carries.
    pub fn cost(self) -> usize
        ensures { result ≡ cost_of (the_change self.entry) }
    {
        match self {
            Change::SetTick { .. }
            | Change::SetTurn { .. }
            | Change::SetCore { .. }
            | Change::InsReady { .. }
            | Change::DelReady { .. } => 1,
            Change::Task { change, .. } => change.cost(),
            Change::Object { change } => change.cost(),
        }
    }

    /// Whether it changes who is on a core, or who is the first that is ready: then settling may be
    /// called for. (A task that leaves the ready list counts, wherever it stands there, as only the
    /// scheduler takes tasks out.)
    #[inline(always)]
    pub(crate) fn moves_lineup(self) -> bool
        ensures { result ≡ moves_lineup (the_change self.entry) }
    {
        match self {
            Change::SetCore { .. } | Change::DelReady { .. } => true,
            Change::InsReady { index, .. } => index == 0,
            Change::SetTick { .. }
            | Change::SetTurn { .. }
            | Change::Task { .. }
            | Change::Object { .. } => false,
        }
    }
}
