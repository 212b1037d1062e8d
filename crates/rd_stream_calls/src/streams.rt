//! The calls of stream buffers.

ghost use Rattle.std.specs.Prelude.{◌≡◌, ◌+◌, ◌<◌, ◌≤◌, length, true, false};
ghost use Rattle.std.specs.Prelude.{IfOk, IsOk, OnErr, OnOk, nat_lt};
ghost use Rattle.rd_bytes.specs.declared.bytes.TheConstants.{MAX_BYTES};
ghost use Rattle.rd_app.specs.Application.{IsOperand, IsStreamCall, priorities_of};
ghost use Rattle.rd_state.specs.EditingView.{GivesUp, Reaches};
ghost use Rattle.rd_state.specs.Snapshot.{stream_at, task_at};
ghost use Rattle.rd_state.specs.Objects.{trigger_taken};
ghost use Rattle.rd_kernel.specs.Costs.{data_cost};
ghost use Rattle.rd_kernel.specs.Holding.{CanComplete};
ghost use Rattle.rd_kernel.specs.Outcomes.{DoesCall, IsCalling};
ghost use Rattle.rd_kernel.specs.Tasks.{PcStays};
ghost use Rattle.rd_kernel.specs.Telling.{waits_once};
ghost use Rattle.rd_stream_calls.specs.StreamCalls.{bytes_read, bytes_written, is_held, piece_cost};
ghost use Rattle.rd_stream_calls.specs.StreamCalls.{lacks_space, set_trigger_outcome};
ghost use Rattle.rd_stream_calls.specs.StreamCalls.{stream_call_cost, stream_outcome, stream_read};
ghost use Rattle.rd_stream_calls.specs.StreamCalls.{stream_read_cost, stream_read_outcome};
ghost use Rattle.rd_stream_calls.specs.StreamCalls.{stream_reset_outcome, stream_write};
ghost use Rattle.rd_stream_calls.specs.StreamCalls.{stream_write_cost, stream_write_outcome};
ghost use Rattle.rd_stream_calls.specs.StreamCalls.{with_bytes_read, with_bytes_written};
ghost use Rattle.rd_stream_calls.specs.StreamCalls.{StreamCallChangesNothing};

use rd_app::app::Program;
use rd_app::instr::{Operand, StreamCall};
use rd_bytes::no_memory::NoMemory;
use rd_kernel::holding::{come_back, complete, wait_held};
use rd_kernel::outcome::Outcome;
use rd_kernel::telling::waits_once;
use rd_kernel::waking::{may_wait, operand_value};
use rd_state::editing::Editing;
use rd_state::objects::ObjectChange;
use rd_state::phase::{Cause, Held};
use rd_state::transfer::{Sink, Source, Transfer};
use rd_stream::side::Side;
use rd_stream::stream_buf::StreamBuf;
use rd_stream::stream_change::StreamChange;

// Where a stream buffer's reader waits, and its writer.
fn reading(stream: usize) -> Held
    ensures { result ≡ Held.Stream stream Side.Reader }
{
    let side = Side::Reader;
    Held::Stream { stream, side }
}

fn writing(stream: usize) -> Held
    ensures { result ≡ Held.Stream stream Side.Writer }
{
    let side = Side::Writer;
    Held::Stream { stream, side }
}

// Does a place of the buffer name anybody?
fn is_held(stream: &StreamBuf) -> bool
    ensures { result ≡ is_held stream.now.holders }
{
    stream.reader().is_some() || stream.writer().is_some()
}

// The first so many bytes of a buffer become the task's data.
fn take_bytes(
    editing: &mut Editing,
    task: usize,
    stream: usize,
    count: usize,
) -> Result<(), NoMemory>
    requires task { task < length editing.old.now.tasks }
    requires stream { stream < length editing.old.now.objects.streams }
    requires there { count ≤ length (stream_at editing.old.now stream).bytes }
    requires few { count ≤ MAX_BYTES }
    ensures ok { OnOk result (Reaches editing.old editing.new
        (with_bytes_read editing.old.now task stream count) (data_cost + piece_cost)) }
    ensures err { OnErr result (GivesUp editing.old editing.new (data_cost + piece_cost)) }
{
    editing.state().sizes();
    let source = Source::StreamFront { stream, count };
    editing.transfer(Transfer::ToData { source, task })?;
    let change = StreamChange::TakeBytes { count };
    let change = ObjectChange::Stream { stream, change };
    editing.change_object(change)
}

// Reads so many bytes of a buffer, and completes the writer's wait if it reads any.
fn read_bytes(
    app: &Program,
    editing: &mut Editing,
    task: usize,
    stream: usize,
    count: usize,
) -> Result<Outcome, NoMemory>
    requires priorities { length (priorities_of app.now) ≡ length editing.old.now.tasks }
    requires task { task < length editing.old.now.tasks }
    requires can { CanComplete editing.old.now }
    requires stream { stream < length editing.old.now.objects.streams }
    requires there { count ≤ length (stream_at editing.old.now stream).bytes }
    requires few { count ≤ MAX_BYTES }
    ensures ok { IfOk result (DoesCall editing.old editing.new
        (bytes_read (priorities_of app.now) editing.old.now task stream count)
        stream_read_cost) }
    ensures nothing { count ≡ 0 → IsOk result }
    ensures err { OnErr result (GivesUp editing.old editing.new stream_read_cost) }
{
    if count == 0 {
        return Ok(Outcome::Returns(0));
    }
    take_bytes(editing, task, stream, count)?;
    complete(editing, app.priorities(), writing(stream))?;
    Ok(Outcome::Returns(count as u32))
}

// Reads from a buffer, once the call has begun.
fn read_on(
    app: &Program,
    editing: &mut Editing,
    task: usize,
    stream: usize,
    room: usize,
    wait: Operand,
) -> Result<Outcome, NoMemory>
    requires priorities { length (priorities_of app.now) ≡ length editing.old.now.tasks }
    requires task { task < length editing.old.now.tasks }
    requires can { CanComplete editing.old.now }
    requires stream { stream < length editing.old.now.objects.streams }
    requires few { room ≤ MAX_BYTES }
    requires register { IsOperand wait }
    ensures ok { IfOk result (DoesCall editing.old editing.new
        (stream_read (priorities_of app.now) editing.old.now task stream room wait)
        stream_read_cost) }
    ensures nothing { length (stream_at editing.old.now stream).bytes ≡ 0
        → waits_once editing.old.now task wait ≡ false → IsOk result }
    ensures err { OnErr result (GivesUp editing.old editing.new stream_read_cost) }
{
    let len = editing.state().stream(stream).len();
    if len == 0 && waits_once(editing, task, wait) {
        return wait_held(editing, task, reading(stream), wait);
    }
    read_bytes(app, editing, task, stream, room.min(len))
}

// Reads from a buffer as the task's data, or waits for bytes (`xStreamBufferReceive`).
fn read(
    app: &Program,
    editing: &mut Editing,
    task: usize,
    stream: usize,
    room: usize,
    wait: Operand,
) -> Result<Outcome, NoMemory>
    requires priorities { length (priorities_of app.now) ≡ length editing.old.now.tasks }
    requires task { task < length editing.old.now.tasks }
    requires can { CanComplete editing.old.now }
    requires stream { stream < length editing.old.now.objects.streams }
    requires few { room ≤ MAX_BYTES }
    requires register { IsOperand wait }
    ensures ok { IfOk result (DoesCall editing.old editing.new
        (stream_read_outcome (priorities_of app.now) editing.old.now task stream room wait)
        (stream_call_cost editing.old.now stream (StreamCall.Read room wait))) }
    ensures nothing { StreamCallChangesNothing editing.old.now task stream
        (StreamCall.Read room wait) → IsOk result }
    ensures err { OnErr result (GivesUp editing.old editing.new
        (stream_call_cost editing.old.now stream (StreamCall.Read room wait))) }
{
    come_back(editing, task, reading(stream))?;
    read_on(app, editing, task, stream, room, wait)
}

// Puts the first so many bytes of the task's data at the back of a buffer.
fn put_bytes(
    editing: &mut Editing,
    task: usize,
    stream: usize,
    count: usize,
) -> Result<(), NoMemory>
    requires task { task < length editing.old.now.tasks }
    requires stream { stream < length editing.old.now.objects.streams }
    requires space { length (stream_at editing.old.now stream).bytes + count
        ≤ (stream_at editing.old.now stream).capacity }
    requires there { count ≤ length (task_at editing.old.now task).bytes }
    ensures ok { OnOk result (Reaches editing.old editing.new
        (with_bytes_written editing.old.now task stream count) 1) }
    ensures err { OnErr result (GivesUp editing.old editing.new 1) }
{
    let sink = Sink::StreamBack { stream, count };
    editing.transfer(Transfer::FromData { task, sink })
}

// Writes so many bytes of the task's data, and completes the reader's wait if it writes any and the
// trigger level is reached.
fn write_bytes(
    app: &Program,
    editing: &mut Editing,
    task: usize,
    stream: usize,
    count: usize,
) -> Result<(), NoMemory>
    requires priorities { length (priorities_of app.now) ≡ length editing.old.now.tasks }
    requires task { task < length editing.old.now.tasks }
    requires can { CanComplete editing.old.now }
    requires stream { stream < length editing.old.now.objects.streams }
    requires space { length (stream_at editing.old.now stream).bytes + count
        ≤ (stream_at editing.old.now stream).capacity }
    requires there { count ≤ length (task_at editing.old.now task).bytes }
    ensures ok { OnOk result (Reaches editing.old editing.new
        (bytes_written (priorities_of app.now) editing.old.now task stream count)
        stream_write_cost) }
    ensures err { OnErr result (GivesUp editing.old editing.new stream_write_cost) }
{
    if count == 0 {
        return Ok(());
    }
    let buffer = editing.state().stream(stream);
    let is_below = buffer.len() + count < buffer.trigger();
    put_bytes(editing, task, stream, count)?;
    if is_below {
        return Ok(());
    }
    complete(editing, app.priorities(), reading(stream))
}

// Is there less space than the data needs, which is never more than the buffer's size?
fn lacks_space(editing: &Editing, task: usize, stream: usize) -> bool
    requires task { task < length editing.now.now.tasks }
    requires stream { stream < length editing.now.now.objects.streams }
    ensures { result ≡ lacks_space editing.now.now task stream }
{
    let len = editing.state().task(task).bytes().len();
    let buffer = editing.state().stream(stream);
    buffer.space() < len.min(buffer.capacity())
}

// Writes to a buffer, once the call has begun.
fn write_on(
    app: &Program,
    editing: &mut Editing,
    task: usize,
    stream: usize,
    wait: Operand,
) -> Result<Outcome, NoMemory>
    requires priorities { length (priorities_of app.now) ≡ length editing.old.now.tasks }
    requires task { task < length editing.old.now.tasks }
    requires can { CanComplete editing.old.now }
    requires stream { stream < length editing.old.now.objects.streams }
    requires register { IsOperand wait }
    ensures ok { IfOk result (DoesCall editing.old editing.new
        (stream_write (priorities_of app.now) editing.old.now task stream wait)
        stream_write_cost) }
    ensures nothing { length (task_at editing.old.now task).bytes ≡ 0 → IsOk result }
    ensures err { OnErr result (GivesUp editing.old editing.new stream_write_cost) }
{
    let len = editing.state().task(task).bytes().len();
    if len == 0 {
        return Ok(Outcome::Fails(Cause::EmptyData));
    }
    if lacks_space(editing, task, stream) && may_wait(editing, task, wait) {
        return wait_held(editing, task, writing(stream), wait);
    }
    let count = len.min(editing.state().stream(stream).space());
    write_bytes(app, editing, task, stream, count)?;
    Ok(Outcome::Returns(count as u32))
}

// Writes the task's data to a buffer, or waits for space (`xStreamBufferSend`).
fn write(
    app: &Program,
    editing: &mut Editing,
    task: usize,
    stream: usize,
    wait: Operand,
) -> Result<Outcome, NoMemory>
    requires priorities { length (priorities_of app.now) ≡ length editing.old.now.tasks }
    requires task { task < length editing.old.now.tasks }
    requires can { CanComplete editing.old.now }
    requires stream { stream < length editing.old.now.objects.streams }
    requires register { IsOperand wait }
    ensures ok { IfOk result (DoesCall editing.old editing.new
        (stream_write_outcome (priorities_of app.now) editing.old.now task stream wait)
        (stream_call_cost editing.old.now stream (StreamCall.Write wait))) }
    ensures nothing { StreamCallChangesNothing editing.old.now task stream
        (StreamCall.Write wait) → IsOk result }
    ensures err { OnErr result (GivesUp editing.old editing.new
        (stream_call_cost editing.old.now stream (StreamCall.Write wait))) }
{
    come_back(editing, task, writing(stream))?;
    write_on(app, editing, task, stream, wait)
}

// Empties a buffer, if no place of it names a task (`xStreamBufferReset`).
fn reset(editing: &mut Editing, stream: usize) -> Result<Outcome, NoMemory>
    requires { stream < length editing.old.now.objects.streams }
    ensures ok { IfOk result (DoesCall editing.old editing.new
        (stream_reset_outcome editing.old.now stream)
        (stream_call_cost editing.old.now stream StreamCall.Reset)) }
    ensures nothing { is_held (stream_at editing.old.now stream).holders ≡ true → IsOk result }
    ensures err { OnErr result (GivesUp editing.old editing.new
        (stream_call_cost editing.old.now stream StreamCall.Reset)) }
{
    if is_held(editing.state().stream(stream)) {
        return Ok(Outcome::Returns(0));
    }
    let change = StreamChange::Clear;
    let change = ObjectChange::Stream { stream, change };
    editing.change_object(change)?;
    Ok(Outcome::Returns(1))
}

// Sets the trigger level of a buffer, 0 taken as 1, if it is not above the size
// (`xStreamBufferSetTriggerLevel`).
fn set_trigger(editing: &mut Editing, stream: usize, trigger: u32) -> Result<Outcome, NoMemory>
    requires { stream < length editing.old.now.objects.streams }
    ensures ok { IfOk result (DoesCall editing.old editing.new
        (set_trigger_outcome editing.old.now stream trigger) 1) }
    ensures nothing { nat_lt (stream_at editing.old.now stream).capacity (trigger_taken trigger)
        ≡ true → IsOk result }
    ensures err { OnErr result (GivesUp editing.old editing.new 1) }
{
    let trigger = trigger.max(1) as usize;
    if editing.state().stream(stream).capacity() < trigger {
        return Ok(Outcome::Returns(0));
    }
    let change = StreamChange::SetTrigger { trigger };
    let change = ObjectChange::Stream { stream, change };
    editing.change_object(change)?;
    Ok(Outcome::Returns(1))
}

/// Does a call of a stream buffer. One that changes nothing takes no memory.
pub fn call_stream(
    app: &Program,
    editing: &mut Editing,
    task: usize,
    stream: usize,
    call: StreamCall,
) -> Result<Outcome, NoMemory>
    requires caller { IsCalling app.now editing.old.now task }
    requires stream { stream < length editing.old.now.objects.streams }
    requires names { IsStreamCall call }
    ensures ok { IfOk result (DoesCall editing.old editing.new
        (stream_outcome (priorities_of app.now) editing.old.now task stream call)
        (stream_call_cost editing.old.now stream call)) }
    ensures nothing { StreamCallChangesNothing editing.old.now task stream call → IsOk result }
    ensures stays { OnOk result (PcStays editing.old.now editing.new.now task) }
    ensures err { OnErr result (GivesUp editing.old editing.new
        (stream_call_cost editing.old.now stream call)) }
{
    app.limits();
    match call {
        StreamCall::Write { wait } => write(app, editing, task, stream, wait),
        StreamCall::Read { room, wait } => read(app, editing, task, stream, room, wait),
        StreamCall::Reset => reset(editing, stream),
        StreamCall::SetTrigger { trigger } => {
            let trigger = operand_value(editing, task, trigger);
            set_trigger(editing, stream, trigger)
        }
        StreamCall::Count => {
            let count = editing.state().stream(stream).len();
            Ok(Outcome::Returns(count as u32))
        }
        StreamCall::Spaces => {
            let space = editing.state().stream(stream).space();
            Ok(Outcome::Returns(space as u32))
        }
    }
}
