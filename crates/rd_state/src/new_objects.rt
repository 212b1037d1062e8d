//! The objects of an application at boot, all empty: a function for each kind.

ghost use Rattle.std.specs.Prelude.{◌≡◌, ◌<◌, ◌≤◌, length, map, replicate, All, IfOk};
ghost use Rattle.rd_group.specs.Groups.{empty_group};
ghost use Rattle.rd_state.specs.Objects.{first_queues, new_message_buffer, new_queue};
ghost use Rattle.rd_state.specs.Objects.{new_queue_set, new_stream, trigger_taken};
ghost use Rattle.rd_state.specs.Objects.{IsHandleCapacity, IsMessageBufferSize, IsStreamSize};

use rd_app::app::Program;
use rd_app::objects::{MessageShape, QueueSetShape, StreamShape};
use rd_bytes::no_memory::NoMemory;
use rd_group::group::{Group, MAX_WAITERS};
use rd_queue::queue::Queue;
use rd_queue::queue_set::QueueSet;
use rd_stream::message_buf::MessageBuf;
use rd_stream::stream_buf::StreamBuf;
use std::alloc::Global;

// An empty queue of an application, in its set.
pub(crate) fn new_queue(alloc: Global, app: &Program, queue: usize) -> Result<Queue, NoMemory>
    requires { queue < length app.now.objects.queues }
    ensures { IfOk result (λ made. made ≡ new_queue app.now queue) }
{
    app.limits();
    let shape = &app.objects().queues()[queue];
    let task_count = app.priorities().len();
    let queue_set_count = app.objects().queue_sets().len();
    let mut made = Queue::new(
        alloc,
        shape.capacity,
        shape.item_size,
        task_count,
        queue_set_count,
    )?;
    if let Some(queue_set) = app.objects().set_of(queue) {
        made.join_set(queue_set);
    }
    Ok(made)
}

// The empty queues of an application.
pub(crate) fn new_queues(alloc: Global, app: &Program) -> Result<Vec<Queue>, NoMemory>
    ensures { IfOk result (λ queues.
        queues.items ≡ first_queues app.now (length app.now.objects.queues)) }
{
    let mut queues = Vec::with_capacity(alloc, app.objects().queues().len())?;
    for number in 0..app.objects().queues().len() {
        queues.push(new_queue(alloc, app, number)?)?;
    }
    Ok(queues)
}

// Sets of these shapes without handles, for so many queues and tasks.
pub(crate) fn new_queue_sets(
    alloc: Global,
    shapes: &[QueueSetShape],
    queue_count: usize,
    task_count: usize,
) -> Result<Vec<QueueSet>, NoMemory>
    requires { All IsHandleCapacity shapes.now }
    ensures { IfOk result (λ queue_sets.
        queue_sets.items ≡ map (new_queue_set task_count queue_count) shapes.now) }
{
    let mut queue_sets = Vec::with_capacity(alloc, shapes.len())?;
    for shape in shapes {
        let shape: &QueueSetShape = shape;
        queue_sets.push(QueueSet::new(alloc, shape.capacity(), queue_count, task_count)?)?;
    }
    Ok(queue_sets)
}

// The trigger level of a new stream buffer: 0 is taken as 1.
fn trigger_taken(trigger: usize) -> usize
    ensures { result ≡ trigger_taken trigger }
{
    if trigger == 0 { 1 } else { trigger }
}

// Stream buffers of these shapes with nothing in them, for so many tasks.
pub(crate) fn new_streams(
    alloc: Global,
    shapes: &[StreamShape],
    task_count: usize,
) -> Result<Vec<StreamBuf>, NoMemory>
    requires { All IsStreamSize shapes.now }
    ensures { IfOk result (λ streams. streams.items ≡ map (new_stream task_count) shapes.now) }
{
    let mut streams = Vec::with_capacity(alloc, shapes.len())?;
    for shape in shapes {
        let shape: &StreamShape = shape;
        let trigger = trigger_taken(shape.trigger);
        streams.push(StreamBuf::new(alloc, shape.capacity, trigger, task_count)?)?;
    }
    Ok(streams)
}

// Message buffers of these shapes with nothing in them, for so many tasks.
pub(crate) fn new_message_buffers(
    alloc: Global,
    shapes: &[MessageShape],
    task_count: usize,
) -> Result<Vec<MessageBuf>, NoMemory>
    requires { All IsMessageBufferSize shapes.now }
    ensures { IfOk result (λ messages.
        messages.items ≡ map (new_message_buffer task_count) shapes.now) }
{
    let mut messages = Vec::with_capacity(alloc, shapes.len())?;
    for shape in shapes {
        let shape: &MessageShape = shape;
        messages.push(MessageBuf::new(alloc, shape.capacity, task_count)?)?;
    }
    Ok(messages)
}

// So many event groups without bits, for so many tasks.
pub(crate) fn new_groups(
    alloc: Global,
    count: usize,
    task_count: usize,
) -> Result<Vec<Group>, NoMemory>
    requires { task_count ≤ MAX_WAITERS }
    ensures { IfOk result (λ groups. groups.items ≡ replicate count (empty_group task_count)) }
{
    let mut groups = Vec::with_capacity(alloc, count)?;
    for _ in 0..count {
        groups.push(Group::new(alloc, task_count)?)?;
    }
    Ok(groups)
}
