//! The calls of queues.

ghost use Rattle.std.specs.Prelude.{◌≡◌, ◌+◌, ◌<◌, ◌&&◌, length, true, false};
ghost use Rattle.std.specs.Prelude.{IfOk, IsOk, OnOk, OnErr};
ghost use Rattle.std.specs.List.{concat};
ghost use Rattle.rd_app.specs.Application.{IsOperand, IsQueueCall, priorities_of};
ghost use Rattle.rd_state.specs.EditingView.{Reaches, GivesUp};
ghost use Rattle.rd_state.specs.Sizes.{IsSized};
ghost use Rattle.rd_state.specs.Snapshot.{queue_at, task_at};
ghost use Rattle.rd_kernel.specs.Costs.{data_cost, item_cost};
ghost use Rattle.rd_kernel.specs.Outcomes.{DoesCall, IsCalling};
ghost use Rattle.rd_kernel.specs.Waking.{may_wait};
ghost use Rattle.rd_queue_calls.specs.Posts.{is_in_full_queue_set, is_in_no_queue_set};
ghost use Rattle.rd_queue_calls.specs.Posts.{is_in_queue_set};
ghost use Rattle.rd_queue_calls.specs.Posts.{membership_of};
ghost use Rattle.rd_queue_calls.specs.QueueCalls.{is_empty, is_full, ChangesNothing};
ghost use Rattle.rd_queue_calls.specs.QueueCalls.{IsIntoFullQueueSet};
ghost use Rattle.rd_queue_calls.specs.QueueCalls.{with_item_taken, outcome_with_space};
ghost use Rattle.rd_queue_calls.specs.QueueCalls.{send_outcome, receive_outcome, peek_outcome};
ghost use Rattle.rd_queue_calls.specs.QueueCalls.{overwrite_outcome, reset_outcome};
ghost use Rattle.rd_queue_calls.specs.QueueCalls.{add_outcome, remove_outcome};
ghost use Rattle.rd_queue_calls.specs.QueueCalls.{queue_outcome, dropped_by};
ghost use Rattle.rd_queue_calls.specs.QueueCalls.{send_cost, receive_cost, peek_cost};
ghost use Rattle.rd_queue_calls.specs.QueueCalls.{overwrite_cost, reset_cost, member_cost};
ghost use Rattle.rd_queue_calls.specs.QueueCalls.{queue_call_cost};
ghost use Rattle.rd_kernel.specs.Tasks.{PcStays};

use crate::posts::{is_in_full_queue_set, post};
use rd_app::app::Program;
use rd_app::instr::{Operand, QueueCall};
use rd_bytes::no_memory::NoMemory;
use rd_kernel::outcome::Outcome;
use rd_kernel::waking::{block, pass};
use rd_queue::change::QueueChange;
use rd_queue::end::End;
use rd_queue::waiting_list::WaitingList;
use rd_state::editing::Editing;
use rd_state::objects::ObjectChange;
use rd_state::phase::{Cause, Listed};
use rd_state::transfer::{Sink, Source, Transfer};

// The queue's first item becomes the task's data.
fn dequeue(editing: &mut Editing, task: usize, queue: usize) -> Result<(), NoMemory>
    requires task { task < length editing.old.now.tasks }
    requires queue { queue < length editing.old.now.objects.queues }
    requires some { 0 < length (queue_at editing.old.now queue).items }
    requires sized { IsSized editing.old.now }
    ensures ok { OnOk result
        (Reaches editing.old editing.new (with_item_taken editing.old.now task queue)
        (data_cost + item_cost)) }
    ensures err { OnErr result (GivesUp editing.old editing.new (data_cost + item_cost)) }
{
    let source = Source::QueueFront { queue };
    editing.transfer(Transfer::ToData { source, task })?;
    let change = QueueChange::TakeFront;
    let change = ObjectChange::Queue { queue, change };
    editing.change_object(change)
}

// Where tasks wait for an item of the queue, and for a free slot.
fn receiving(queue: usize) -> Listed
    ensures { result ≡ Listed.Queue queue WaitingList.Receiving }
{
    let list = WaitingList::Receiving;
    Listed::Queue { queue, list }
}

fn sending(queue: usize) -> Listed
    ensures { result ≡ Listed.Queue queue WaitingList.Sending }
{
    let list = WaitingList::Sending;
    Listed::Queue { queue, list }
}

// Puts the task's data at an end of a queue with space for it, unless its set is full.
#[inline(always)]
fn deliver(
    app: &Program,
    editing: &mut Editing,
    task: usize,
    queue: usize,
    end: End,
) -> Result<Outcome, NoMemory>
    requires caller { IsCalling app.now editing.old.now task }
    requires queue { queue < length editing.old.now.objects.queues }
    requires space { length (queue_at editing.old.now queue).items
        < (queue_at editing.old.now queue).capacity }
    ensures ok { IfOk result (DoesCall editing.old editing.new
        (outcome_with_space (priorities_of app.now) editing.old.now task queue end) send_cost) }
    ensures full_queue_set { is_in_full_queue_set editing.old.now
        (membership_of editing.old.now queue) ≡ true → IsOk result }
    ensures stays { OnOk result (PcStays editing.old.now editing.new.now task) }
    ensures err { OnErr result (GivesUp editing.old editing.new send_cost) }
{
    let queue_set = editing.state().queue(queue).set_of();
    if is_in_full_queue_set(editing.state(), queue_set) {
        return Ok(Outcome::Fails(Cause::SetFull));
    }
    let sink = Sink::QueueEnd { queue, end };
    editing.transfer(Transfer::FromData { task, sink })?;
    post(app, editing, queue, queue_set)
}

// Puts the task's data at an end of the queue (`xQueueSend`, `xQueueSendToFront`), or waits for
// space.
fn send(
    app: &Program,
    editing: &mut Editing,
    task: usize,
    queue: usize,
    end: End,
    wait: Operand,
) -> Result<Outcome, NoMemory>
    requires caller { IsCalling app.now editing.old.now task }
    requires queue { queue < length editing.old.now.objects.queues }
    requires register { IsOperand wait }
    ensures ok { IfOk result (DoesCall editing.old editing.new
        (send_outcome (priorities_of app.now) editing.old.now task queue end wait) send_cost) }
    ensures full { is_full (queue_at editing.old.now queue) ≡ true
        → may_wait editing.old.now task wait ≡ false → IsOk result }
    ensures full_queue_set { IsIntoFullQueueSet editing.old.now queue → IsOk result }
    ensures stays { OnOk result (PcStays editing.old.now editing.new.now task) }
    ensures err { OnErr result (GivesUp editing.old editing.new send_cost) }
{
    if editing.state().queue(queue).spaces() == 0 {
        return block(app, editing, task, sending(queue), wait);
    }
    deliver(app, editing, task, queue, end)
}

// Takes the queue's first item as the task's data (`xQueueReceive`), or waits for one.
fn receive(
    app: &Program,
    editing: &mut Editing,
    task: usize,
    queue: usize,
    wait: Operand,
) -> Result<Outcome, NoMemory>
    requires caller { IsCalling app.now editing.old.now task }
    requires queue { queue < length editing.old.now.objects.queues }
    requires register { IsOperand wait }
    ensures ok { IfOk result (DoesCall editing.old editing.new
        (receive_outcome (priorities_of app.now) editing.old.now task queue wait) receive_cost) }
    ensures empty { is_empty (queue_at editing.old.now queue) ≡ true
        → may_wait editing.old.now task wait ≡ false → IsOk result }
    ensures stays { OnOk result (PcStays editing.old.now editing.new.now task) }
    ensures err { OnErr result (GivesUp editing.old editing.new receive_cost) }
{
    if editing.state().queue(queue).count() == 0 {
        return block(app, editing, task, receiving(queue), wait);
    }
    dequeue(editing, task, queue)?;
    pass(editing, app.priorities(), sending(queue))
}

// Copies the queue's first item as the task's data (`xQueuePeek`), or waits for one.
fn peek(
    app: &Program,
    editing: &mut Editing,
    task: usize,
    queue: usize,
    wait: Operand,
) -> Result<Outcome, NoMemory>
    requires caller { IsCalling app.now editing.old.now task }
    requires queue { queue < length editing.old.now.objects.queues }
    requires register { IsOperand wait }
    ensures ok { IfOk result (DoesCall editing.old editing.new
        (peek_outcome (priorities_of app.now) editing.old.now task queue wait) peek_cost) }
    ensures empty { is_empty (queue_at editing.old.now queue) ≡ true
        → may_wait editing.old.now task wait ≡ false → IsOk result }
    ensures stays { OnOk result (PcStays editing.old.now editing.new.now task) }
    ensures err { OnErr result (GivesUp editing.old editing.new peek_cost) }
{
    if editing.state().queue(queue).count() == 0 {
        return block(app, editing, task, receiving(queue), wait);
    }
    let source = Source::QueueFront { queue };
    editing.transfer(Transfer::ToData { source, task })?;
    pass(editing, app.priorities(), receiving(queue))
}

// Makes the task's data the queue's only item (`xQueueOverwrite`).
fn overwrite(
    app: &Program,
    editing: &mut Editing,
    task: usize,
    queue: usize,
) -> Result<Outcome, NoMemory>
    requires caller { IsCalling app.now editing.old.now task }
    requires queue { queue < length editing.old.now.objects.queues }
    ensures ok { IfOk result (DoesCall editing.old editing.new
        (overwrite_outcome (priorities_of app.now) editing.old.now task queue) overwrite_cost) }
    ensures full_queue_set { is_empty (queue_at editing.old.now queue) ≡ true
        → is_in_full_queue_set editing.old.now (membership_of editing.old.now queue) ≡ true
        → IsOk result }
    ensures stays { OnOk result (PcStays editing.old.now editing.new.now task) }
    ensures err { OnErr result (GivesUp editing.old editing.new overwrite_cost) }
{
    if editing.state().queue(queue).count() == 0 {
        return deliver(app, editing, task, queue, End::Back);
    }
    let queue_set = editing.state().queue(queue).set_of();
    let sink = Sink::OverFront { queue };
    editing.transfer(Transfer::FromData { task, sink })?;
    match queue_set {
        Some(_) => Ok(Outcome::Returns(1)),
        None => pass(editing, app.priorities(), receiving(queue)),
    }
}

// Empties the queue (`xQueueReset`).
fn reset(
    app: &Program,
    editing: &mut Editing,
    task: usize,
    queue: usize,
) -> Result<Outcome, NoMemory>
    requires caller { IsCalling app.now editing.old.now task }
    requires queue { queue < length editing.old.now.objects.queues }
    ensures ok { IfOk result (DoesCall editing.old editing.new
        (reset_outcome (priorities_of app.now) editing.old.now queue)
        (reset_cost + length (concat (queue_at editing.old.now queue).items))) }
    ensures stays { OnOk result (PcStays editing.old.now editing.new.now task) }
    ensures err { OnErr result (GivesUp editing.old editing.new
        (reset_cost + length (concat (queue_at editing.old.now queue).items))) }
{
    let _ = task;
    let change = QueueChange::Clear;
    let change = ObjectChange::Queue { queue, change };
    editing.change_object(change)?;
    pass(editing, app.priorities(), sending(queue))
}

// Makes an empty queue a member of the set, if it is one of none (`xQueueAddToSet`).
fn add_to_set(editing: &mut Editing, queue: usize, queue_set: usize) -> Result<Outcome, NoMemory>
    requires sized { IsSized editing.old.now }
    requires queue { queue < length editing.old.now.objects.queues }
    requires queue_set { queue_set < length editing.old.now.objects.queue_sets }
    ensures ok { IfOk result (DoesCall editing.old editing.new
        (add_outcome editing.old.now queue queue_set) member_cost) }
    ensures refused { (is_empty (queue_at editing.old.now queue)
        && is_in_no_queue_set (membership_of editing.old.now queue)) ≡ false → IsOk result }
    ensures tasks { OnOk result (editing.new.now.tasks ≡ editing.old.now.tasks) }
    ensures err { OnErr result (GivesUp editing.old editing.new member_cost) }
{
    let target = editing.state().queue(queue);
    if target.count() > 0 || target.set_of().is_some() {
        return Ok(Outcome::Returns(0));
    }
    let change = QueueChange::SetMember {
        queue_set: Some(queue_set),
    };
    let change = ObjectChange::Queue { queue, change };
    editing.change_object(change)?;
    Ok(Outcome::Returns(1))
}

// Takes an empty queue out of the set, if it is a member of that (`xQueueRemoveFromSet`).
fn remove_from_set(
    editing: &mut Editing,
    queue: usize,
    queue_set: usize,
) -> Result<Outcome, NoMemory>
    requires sized { IsSized editing.old.now }
    requires queue { queue < length editing.old.now.objects.queues }
    requires queue_set { queue_set < length editing.old.now.objects.queue_sets }
    ensures ok { IfOk result (DoesCall editing.old editing.new
        (remove_outcome editing.old.now queue queue_set) member_cost) }
    ensures refused { (is_empty (queue_at editing.old.now queue)
        && is_in_queue_set queue_set (membership_of editing.old.now queue)) ≡ false → IsOk result }
    ensures tasks { OnOk result (editing.new.now.tasks ≡ editing.old.now.tasks) }
    ensures err { OnErr result (GivesUp editing.old editing.new member_cost) }
{
    let target = editing.state().queue(queue);
    if target.count() > 0 || target.set_of() != Some(queue_set) {
        return Ok(Outcome::Returns(0));
    }
    let change = QueueChange::SetMember { queue_set: None };
    let change = ObjectChange::Queue { queue, change };
    editing.change_object(change)?;
    Ok(Outcome::Returns(1))
}

/// Does a call of a queue. One that changes nothing takes no memory: it can't be done and may not
/// wait, is refused, or only counts.
pub fn call_queue(
    app: &Program,
    editing: &mut Editing,
    task: usize,
    queue: usize,
    call: QueueCall,
) -> Result<Outcome, NoMemory>
    requires caller { IsCalling app.now editing.old.now task }
    requires queue { queue < length editing.old.now.objects.queues }
    requires registers { IsQueueCall (length editing.old.now.objects.queue_sets) call }
    ensures ok { IfOk result (DoesCall editing.old editing.new
        (queue_outcome (priorities_of app.now) editing.old.now task queue call)
        (queue_call_cost editing.old.now queue call)) }
    ensures nothing { ChangesNothing editing.old.now task queue call → IsOk result }
    ensures stays { OnOk result (PcStays editing.old.now editing.new.now task) }
    ensures err { OnErr result (GivesUp editing.old editing.new
        (queue_call_cost editing.old.now queue call)) }
{
    match call {
        QueueCall::Send { end, wait } => send(app, editing, task, queue, end, wait),
        QueueCall::Receive { wait } => receive(app, editing, task, queue, wait),
        QueueCall::Peek { wait } => peek(app, editing, task, queue, wait),
        QueueCall::Overwrite => overwrite(app, editing, task, queue),
        QueueCall::Reset => reset(app, editing, task, queue),
        QueueCall::Count => {
            let count = editing.state().queue(queue).count();
            Ok(Outcome::Returns(count as u32))
        }
        QueueCall::Spaces => {
            let spaces = editing.state().queue(queue).spaces();
            Ok(Outcome::Returns(spaces as u32))
        }
        QueueCall::AddToSet { queue_set } => add_to_set(editing, queue, queue_set),
        QueueCall::RemoveFromSet { queue_set } => remove_from_set(editing, queue, queue_set),
    }
}
