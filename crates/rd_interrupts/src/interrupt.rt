//! What an interrupt does, and what it answers.

ghost use Rattle.std.specs.Prelude.{◌≡◌, ◌+◌, ◌*◌, ◌<◌, length, false, true, OnErr, OnOk};
ghost use Rattle.rd_app.specs.Application.{priorities_of};
ghost use Rattle.rd_kernel.specs.Costs.{waking_cost};
ghost use Rattle.rd_moves.specs.Interrupts.{IsInterruptOf};
ghost use Rattle.rd_queue_calls.specs.Posts.{membership_of, posted};
ghost use Rattle.rd_state.specs.EditingView.{GivesUp, Reaches};
ghost use Rattle.rd_state.specs.Settled.{IsSettled};
ghost use Rattle.rd_state.specs.Valid.{IsValid};
ghost use Rattle.rd_interrupts.specs.Interrupts.{after_interrupt, has_no_space, interrupt_cost};
ghost use Rattle.rd_interrupts.specs.Interrupts.{interrupted, isr_answer, with_item_put};
ghost use Rattle.rd_interrupts.specs.Interrupts.{IsInterruptAt};

use rd_app::app::Program;
use rd_bytes::no_memory::NoMemory;
use rd_moves::interrupt::Interrupt;
use rd_notify_calls::calls::notify;
use rd_queue::change::QueueChange;
use rd_queue::item::Item;
use rd_queue_calls::posts::{is_in_full_queue_set, post};
use rd_state::editing::Editing;
use rd_state::objects::ObjectChange;
use rd_state::state::State;

// Whether an item that an interrupt sends finds no space: the queue is full, or its set is.
fn has_no_space(state: &State, queue: usize) -> bool
    requires { queue < length state.now.objects.queues }
    ensures { result ≡ has_no_space state.now queue }
{
    let queue = state.queue(queue);
    queue.spaces() == 0 || is_in_full_queue_set(state, queue.set_of())
}

/// What the interrupt will answer, if it is made now: 1 (`pdPASS`), or 0 where its item finds no
/// space (`errQUEUE_FULL`) or its notification leaves the entry alone (`pdFAIL`). It takes no
/// memory.
pub fn isr_answer(state: &State, interrupt: &Interrupt) -> u32
    requires { IsInterruptAt state.now interrupt.now }
    ensures { result ≡ isr_answer state.now interrupt.now }
{
    match interrupt {
        Interrupt::Send { queue, .. } if has_no_space(state, *queue) => 0,
        Interrupt::Send { .. } => 1,
        Interrupt::Notify {
            task,
            index,
            value,
            action,
        } => {
            let entry = state.task(*task).entries().entry(*index);
            if entry.notified(*action, *value).is_some() {
                1
            } else {
                0
            }
        }
    }
}

// Puts an item at the back of a queue where there is space for it, and makes it known.
fn put(app: &Program, editing: &mut Editing, queue: usize, bytes: &[u8]) -> Result<(), NoMemory>
    requires valid { IsValid app.now editing.old.now }
    requires queue { queue < length editing.old.now.objects.queues }
    requires space { has_no_space editing.old.now queue ≡ false }
    ensures ok { OnOk result (Reaches editing.old editing.new
        (posted (priorities_of app.now) (with_item_put editing.old.now queue bytes.now) queue
        (membership_of editing.old.now queue)).state (2 + waking_cost)) }
    ensures err { OnErr result (GivesUp editing.old editing.new (2 + waking_cost)) }
{
    let into = editing.state().queue(queue);
    let queue_set = into.set_of();
    let item = Item::fitted(bytes, into.item_size());
    let change = QueueChange::PutBack {
        item: item.as_slice(),
    };
    let change = ObjectChange::Queue { queue, change };
    editing.change_object(change)?;
    post(app, editing, queue, queue_set)?;
    Ok(())
}

// What it does, but for the scheduler.
fn deliver(app: &Program, editing: &mut Editing, interrupt: &Interrupt) -> Result<(), NoMemory>
    requires valid { IsValid app.now editing.old.now }
    requires there { IsInterruptAt editing.old.now interrupt.now }
    ensures ok { OnOk result (Reaches editing.old editing.new
        (interrupted (priorities_of app.now) editing.old.now interrupt.now) interrupt_cost) }
    ensures err { OnErr result (GivesUp editing.old editing.new interrupt_cost) }
{
    match interrupt {
        Interrupt::Send { queue, .. } if has_no_space(editing.state(), *queue) => Ok(()),
        Interrupt::Send { queue, bytes } => put(app, editing, *queue, bytes.as_slice()),
        &Interrupt::Notify {
            task,
            index,
            value,
            action,
        } => {
            notify(app, editing, task, index, action, value)?;
            Ok(())
        }
    }
}

/// Does what the interrupt does, and lets the scheduler run; the turn stays. It never waits. What
/// undoes it is recorded; where its answer is 0 it changes nothing. `NoMemory` where there is none
/// for the record; then the move goes no further.
pub fn interrupt(
    app: &Program,
    editing: &mut Editing,
    interrupt: &Interrupt,
) -> Result<(), NoMemory>
    requires valid { IsValid app.now editing.old.now }
    requires named { IsInterruptOf app.now interrupt.now }
    requires calm { editing.old.outset.calm ≡ true
        → IsSettled (priorities_of app.now) editing.old.outset.state }
    ensures ok { OnOk result (Reaches editing.old editing.new
        (after_interrupt (priorities_of app.now) editing.old.now interrupt.now)
        (interrupt_cost + 3 * length editing.old.now.cores)) }
    ensures err { OnErr result (GivesUp editing.old editing.new
        (interrupt_cost + 3 * length editing.old.now.cores)) }
{
    app.limits();
    deliver(app, editing, interrupt)?;
    editing.settle(app.priorities())
}
