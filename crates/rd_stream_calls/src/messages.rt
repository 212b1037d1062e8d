//! The calls of message buffers.

ghost use Rattle.std.specs.Prelude.{◌≡◌, ◌+◌, ◌<◌, ◌≤◌, length, true, false, nat_lt};
ghost use Rattle.std.specs.Prelude.{IfOk, IsOk, OnErr, OnOk};
ghost use Rattle.rd_bytes.specs.declared.bytes.TheConstants.{MAX_BYTES};
ghost use Rattle.rd_stream.specs.MessageChanges.{HasSpaceForMessage};
ghost use Rattle.rd_app.specs.Application.{IsMessageCall, IsOperand, priorities_of};
ghost use Rattle.rd_state.specs.EditingView.{GivesUp, Reaches};
ghost use Rattle.rd_state.specs.Snapshot.{message_at, task_at};
ghost use Rattle.rd_kernel.specs.Costs.{data_cost};
ghost use Rattle.rd_kernel.specs.Holding.{completed, CanComplete};
ghost use Rattle.rd_kernel.specs.Outcomes.{DoesCall, IsCalling};
ghost use Rattle.rd_kernel.specs.Tasks.{PcStays};
ghost use Rattle.rd_kernel.specs.Telling.{waits_once};
ghost use Rattle.rd_stream_calls.specs.MessageCalls.{message_call_cost, message_outcome};
ghost use Rattle.rd_stream_calls.specs.MessageCalls.{message_read, message_read_cost};
ghost use Rattle.rd_stream_calls.specs.MessageCalls.{message_read_outcome, message_reset_outcome};
ghost use Rattle.rd_stream_calls.specs.MessageCalls.{message_size, message_space, message_write};
ghost use Rattle.rd_stream_calls.specs.MessageCalls.{message_write_cost, message_write_outcome};
ghost use Rattle.rd_stream_calls.specs.MessageCalls.{message_written, message_taken, next_length};
ghost use Rattle.rd_stream_calls.specs.MessageCalls.{with_message_read, with_message_written};
ghost use Rattle.rd_stream_calls.specs.MessageCalls.{MessageCallChangesNothing};
ghost use Rattle.rd_stream_calls.specs.StreamCalls.{is_held, piece_cost};

use rd_app::app::Program;
use rd_app::instr::{MessageCall, Operand};
use rd_bytes::no_memory::NoMemory;
use rd_kernel::holding::{come_back, complete, wait_held};
use rd_kernel::outcome::Outcome;
use rd_kernel::telling::waits_once;
use rd_kernel::waking::may_wait;
use rd_state::editing::Editing;
use rd_state::objects::ObjectChange;
use rd_state::phase::{Cause, Held};
use rd_state::transfer::{Sink, Source, Transfer};
use rd_stream::message_buf::MessageBuf;
use rd_stream::message_change::MessageChange;
use rd_stream::side::Side;

// How many bytes a message takes more than it has: those of its length.
const LENGTH_BYTES: usize = 4;

// Where a message buffer's reader waits, and its writer.
fn reading(message: usize) -> Held
    ensures { result ≡ Held.Message message Side.Reader }
{
    let side = Side::Reader;
    Held::Message { message, side }
}

fn writing(message: usize) -> Held
    ensures { result ≡ Held.Message message Side.Writer }
{
    let side = Side::Writer;
    Held::Message { message, side }
}

// Does a place of the buffer name anybody?
fn is_held(buffer: &MessageBuf) -> bool
    ensures { result ≡ is_held buffer.now.holders }
{
    buffer.reader().is_some() || buffer.writer().is_some()
}

// The first message of a buffer becomes the task's data.
fn take_message(editing: &mut Editing, task: usize, message: usize) -> Result<(), NoMemory>
    requires task { task < length editing.old.now.tasks }
    requires message { message < length editing.old.now.objects.messages }
    requires some { 0 < length (message_at editing.old.now message).messages }
    requires few { next_length (message_at editing.old.now message) ≤ MAX_BYTES }
    ensures ok { OnOk result (Reaches editing.old editing.new
        (with_message_read editing.old.now task message) (data_cost + piece_cost)) }
    ensures err { OnErr result (GivesUp editing.old editing.new (data_cost + piece_cost)) }
{
    editing.state().sizes();
    let source = Source::MessageFront { message };
    editing.transfer(Transfer::ToData { source, task })?;
    let change = MessageChange::Take;
    let change = ObjectChange::Message { message, change };
    editing.change_object(change)
}

// Takes the first message, if it is no longer than the task's room, and completes the writer's
// wait.
fn take_fitting(
    app: &Program,
    editing: &mut Editing,
    task: usize,
    message: usize,
    room: usize,
) -> Result<Outcome, NoMemory>
    requires priorities { length (priorities_of app.now) ≡ length editing.old.now.tasks }
    requires task { task < length editing.old.now.tasks }
    requires can { CanComplete editing.old.now }
    requires message { message < length editing.old.now.objects.messages }
    requires few { room ≤ MAX_BYTES }
    ensures ok { IfOk result (DoesCall editing.old editing.new
        (message_taken (priorities_of app.now) editing.old.now task message room)
        message_read_cost) }
    ensures nothing { length (message_at editing.old.now message).messages ≡ 0 → IsOk result }
    ensures err { OnErr result (GivesUp editing.old editing.new message_read_cost) }
{
    let buffer = editing.state().message(message);
    let len = buffer.next_len();
    if buffer.count() == 0 || room < len {
        return Ok(Outcome::Returns(0));
    }
    take_message(editing, task, message)?;
    complete(editing, app.priorities(), writing(message))?;
    Ok(Outcome::Returns(len as u32))
}

// Reads from a buffer, once the call has begun.
fn read_on(
    app: &Program,
    editing: &mut Editing,
    task: usize,
    message: usize,
    room: usize,
    wait: Operand,
) -> Result<Outcome, NoMemory>
    requires priorities { length (priorities_of app.now) ≡ length editing.old.now.tasks }
    requires task { task < length editing.old.now.tasks }
    requires can { CanComplete editing.old.now }
    requires message { message < length editing.old.now.objects.messages }
    requires few { room ≤ MAX_BYTES }
    requires register { IsOperand wait }
    ensures ok { IfOk result (DoesCall editing.old editing.new
        (message_read (priorities_of app.now) editing.old.now task message room wait)
        message_read_cost) }
    ensures nothing { length (message_at editing.old.now message).messages ≡ 0
        → waits_once editing.old.now task wait ≡ false → IsOk result }
    ensures err { OnErr result (GivesUp editing.old editing.new message_read_cost) }
{
    let count = editing.state().message(message).count();
    if count == 0 && waits_once(editing, task, wait) {
        return wait_held(editing, task, reading(message), wait);
    }
    take_fitting(app, editing, task, message, room)
}

// Reads a message as the task's data, or waits for one (`xMessageBufferReceive`).
fn read(
    app: &Program,
    editing: &mut Editing,
    task: usize,
    message: usize,
    room: usize,
    wait: Operand,
) -> Result<Outcome, NoMemory>
    requires priorities { length (priorities_of app.now) ≡ length editing.old.now.tasks }
    requires task { task < length editing.old.now.tasks }
    requires can { CanComplete editing.old.now }
    requires message { message < length editing.old.now.objects.messages }
    requires few { room ≤ MAX_BYTES }
    requires register { IsOperand wait }
    ensures ok { IfOk result (DoesCall editing.old editing.new
        (message_read_outcome (priorities_of app.now) editing.old.now task message room wait)
        (message_call_cost editing.old.now message (MessageCall.Read room wait))) }
    ensures nothing { MessageCallChangesNothing editing.old.now task message
        (MessageCall.Read room wait) → IsOk result }
    ensures err { OnErr result (GivesUp editing.old editing.new
        (message_call_cost editing.old.now message (MessageCall.Read room wait))) }
{
    come_back(editing, task, reading(message))?;
    read_on(app, editing, task, message, room, wait)
}

// Puts the task's data at the back of a buffer, as one message, and completes the reader's wait.
fn put_message(
    app: &Program,
    editing: &mut Editing,
    task: usize,
    message: usize,
) -> Result<(), NoMemory>
    requires priorities { length (priorities_of app.now) ≡ length editing.old.now.tasks }
    requires task { task < length editing.old.now.tasks }
    requires can { CanComplete editing.old.now }
    requires message { message < length editing.old.now.objects.messages }
    requires space { HasSpaceForMessage (message_at editing.old.now message)
        (task_at editing.old.now task).bytes }
    ensures ok { OnOk result (Reaches editing.old editing.new
        (completed (priorities_of app.now) (with_message_written editing.old.now task message)
        (Held.Message message Side.Reader)) message_write_cost) }
    ensures err { OnErr result (GivesUp editing.old editing.new message_write_cost) }
{
    let sink = Sink::MessageBack { message };
    editing.transfer(Transfer::FromData { task, sink })?;
    complete(editing, app.priorities(), reading(message))
}

// Writes a message that the buffer can hold, or waits for space.
fn write_fitting(
    app: &Program,
    editing: &mut Editing,
    task: usize,
    message: usize,
    wait: Operand,
) -> Result<Outcome, NoMemory>
    requires priorities { length (priorities_of app.now) ≡ length editing.old.now.tasks }
    requires task { task < length editing.old.now.tasks }
    requires can { CanComplete editing.old.now }
    requires message { message < length editing.old.now.objects.messages }
    requires some { 0 < length (task_at editing.old.now task).bytes }
    requires register { IsOperand wait }
    ensures ok { IfOk result (DoesCall editing.old editing.new
        (message_written (priorities_of app.now) editing.old.now task message wait)
        message_write_cost) }
    ensures err { OnErr result (GivesUp editing.old editing.new message_write_cost) }
{
    let len = editing.state().task(task).bytes().len();
    if editing.state().message(message).space() >= len + LENGTH_BYTES {
        put_message(app, editing, task, message)?;
        return Ok(Outcome::Returns(len as u32));
    }
    if may_wait(editing, task, wait) {
        return wait_held(editing, task, writing(message), wait);
    }
    Ok(Outcome::Returns(0))
}

// Writes to a buffer, once the call has begun.
fn write_on(
    app: &Program,
    editing: &mut Editing,
    task: usize,
    message: usize,
    wait: Operand,
) -> Result<Outcome, NoMemory>
    requires priorities { length (priorities_of app.now) ≡ length editing.old.now.tasks }
    requires task { task < length editing.old.now.tasks }
    requires can { CanComplete editing.old.now }
    requires message { message < length editing.old.now.objects.messages }
    requires register { IsOperand wait }
    ensures ok { IfOk result (DoesCall editing.old editing.new
        (message_write (priorities_of app.now) editing.old.now task message wait)
        message_write_cost) }
    ensures nothing { length (task_at editing.old.now task).bytes ≡ 0 → IsOk result }
    ensures err { OnErr result (GivesUp editing.old editing.new message_write_cost) }
{
    let len = editing.state().task(task).bytes().len();
    if len == 0 {
        return Ok(Outcome::Fails(Cause::EmptyData));
    }
    if editing.state().message(message).capacity() < len + LENGTH_BYTES {
        return Ok(Outcome::Returns(0));
    }
    write_fitting(app, editing, task, message, wait)
}

// Writes the task's data to a buffer as one message, or waits for space (`xMessageBufferSend`).
fn write(
    app: &Program,
    editing: &mut Editing,
    task: usize,
    message: usize,
    wait: Operand,
) -> Result<Outcome, NoMemory>
    requires priorities { length (priorities_of app.now) ≡ length editing.old.now.tasks }
    requires task { task < length editing.old.now.tasks }
    requires can { CanComplete editing.old.now }
    requires message { message < length editing.old.now.objects.messages }
    requires register { IsOperand wait }
    ensures ok { IfOk result (DoesCall editing.old editing.new
        (message_write_outcome (priorities_of app.now) editing.old.now task message wait)
        (message_call_cost editing.old.now message (MessageCall.Write wait))) }
    ensures nothing { MessageCallChangesNothing editing.old.now task message
        (MessageCall.Write wait) → IsOk result }
    ensures err { OnErr result (GivesUp editing.old editing.new
        (message_call_cost editing.old.now message (MessageCall.Write wait))) }
{
    come_back(editing, task, writing(message))?;
    write_on(app, editing, task, message, wait)
}

// Empties a buffer, if no place of it names a task (`xMessageBufferReset`).
fn reset(editing: &mut Editing, message: usize) -> Result<Outcome, NoMemory>
    requires { message < length editing.old.now.objects.messages }
    ensures ok { IfOk result (DoesCall editing.old editing.new
        (message_reset_outcome editing.old.now message)
        (message_call_cost editing.old.now message MessageCall.Reset)) }
    ensures nothing { is_held (message_at editing.old.now message).holders ≡ true → IsOk result }
    ensures err { OnErr result (GivesUp editing.old editing.new
        (message_call_cost editing.old.now message MessageCall.Reset)) }
{
    if is_held(editing.state().message(message)) {
        return Ok(Outcome::Returns(0));
    }
    let change = MessageChange::Clear;
    let change = ObjectChange::Message { message, change };
    editing.change_object(change)?;
    Ok(Outcome::Returns(1))
}

/// Does a call of a message buffer. One that changes nothing takes no memory.
pub fn call_message(
    app: &Program,
    editing: &mut Editing,
    task: usize,
    message: usize,
    call: MessageCall,
) -> Result<Outcome, NoMemory>
    requires caller { IsCalling app.now editing.old.now task }
    requires message { message < length editing.old.now.objects.messages }
    requires names { IsMessageCall call }
    ensures ok { IfOk result (DoesCall editing.old editing.new
        (message_outcome (priorities_of app.now) editing.old.now task message call)
        (message_call_cost editing.old.now message call)) }
    ensures nothing { MessageCallChangesNothing editing.old.now task message call → IsOk result }
    ensures stays { OnOk result (PcStays editing.old.now editing.new.now task) }
    ensures err { OnErr result (GivesUp editing.old editing.new
        (message_call_cost editing.old.now message call)) }
{
    app.limits();
    match call {
        MessageCall::Write { wait } => write(app, editing, task, message, wait),
        MessageCall::Read { room, wait } => read(app, editing, task, message, room, wait),
        MessageCall::Reset => reset(editing, message),
        MessageCall::Spaces => {
            let space = editing.state().message(message).space();
            Ok(Outcome::Returns(space as u32))
        }
        MessageCall::NextLength => {
            let len = editing.state().message(message).next_len();
            Ok(Outcome::Returns(len as u32))
        }
    }
}
