//! The calls of queue sets.

ghost use Rattle.std.specs.Prelude.{◌≡◌, ◌+◌, ◌<◌, length, true, false, IfOk, IsOk, OnOk, OnErr};
ghost use Rattle.rd_app.specs.Application.{IsOperand, IsQueueSetCall, priorities_of};
ghost use Rattle.rd_state.specs.Snapshot.{queue_set_at};
ghost use Rattle.rd_kernel.specs.Outcomes.{DoesCall, IsCalling};
ghost use Rattle.rd_kernel.specs.Waking.{may_wait};
ghost use Rattle.rd_queue_calls.specs.QueueSetCalls.{select_outcome, queue_set_outcome};
ghost use Rattle.rd_queue_calls.specs.QueueSetCalls.{queue_set_call_cost};
ghost use Rattle.rd_queue_calls.specs.QueueSetCalls.{has_no_handle, QueueSetCallChangesNothing};
ghost use Rattle.rd_state.specs.EditingView.{GivesUp};
ghost use Rattle.rd_kernel.specs.Tasks.{PcStays};

use rd_app::app::Program;
use rd_app::instr::{Operand, QueueSetCall};
use rd_bytes::no_memory::NoMemory;
use rd_kernel::outcome::Outcome;
use rd_kernel::waking::block;
use rd_queue::queue_set_change::QueueSetChange;
use rd_state::editing::Editing;
use rd_state::objects::ObjectChange;
use rd_state::phase::Listed;

// Takes the set's oldest handle (`xQueueSelectFromSet`), or waits for one.
fn select(
    app: &Program,
    editing: &mut Editing,
    task: usize,
    queue_set: usize,
    wait: Operand,
) -> Result<Outcome, NoMemory>
    requires caller { IsCalling app.now editing.old.now task }
    requires queue_set { queue_set < length editing.old.now.objects.queue_sets }
    requires register { IsOperand wait }
    ensures ok { IfOk result (DoesCall editing.old editing.new
        (select_outcome (priorities_of app.now) editing.old.now task queue_set wait)
        queue_set_call_cost) }
    ensures no_handle { has_no_handle (queue_set_at editing.old.now queue_set) ≡ true
        → may_wait editing.old.now task wait ≡ false → IsOk result }
    ensures stays { OnOk result (PcStays editing.old.now editing.new.now task) }
    ensures err { OnErr result (GivesUp editing.old editing.new queue_set_call_cost) }
{
    if editing.state().queue_set(queue_set).count() == 0 {
        return block(app, editing, task, Listed::QueueSet { queue_set }, wait);
    }
    app.limits();
    let queue = editing.state().queue_set(queue_set).first_handle();
    let change = QueueSetChange::TakeHandle;
    let change = ObjectChange::QueueSet { queue_set, change };
    editing.change_object(change)?;
    Ok(Outcome::Returns(queue as u32 + 1))
}

/// Does a call of a queue set. One that can't be done and may not wait takes no memory.
pub fn call_queue_set(
    app: &Program,
    editing: &mut Editing,
    task: usize,
    queue_set: usize,
    call: QueueSetCall,
) -> Result<Outcome, NoMemory>
    requires caller { IsCalling app.now editing.old.now task }
    requires queue_set { queue_set < length editing.old.now.objects.queue_sets }
    requires registers { IsQueueSetCall call }
    ensures ok { IfOk result (DoesCall editing.old editing.new
        (queue_set_outcome (priorities_of app.now) editing.old.now task queue_set call)
        queue_set_call_cost) }
    ensures nothing { QueueSetCallChangesNothing editing.old.now task queue_set call → IsOk result }
    ensures stays { OnOk result (PcStays editing.old.now editing.new.now task) }
    ensures err { OnErr result (GivesUp editing.old editing.new queue_set_call_cost) }
{
    match call {
        QueueSetCall::Select { wait } => select(app, editing, task, queue_set, wait),
    }
}
