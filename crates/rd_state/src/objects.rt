//! The objects of the target, and their changes. A kind has a row or a field in each of these.

ghost use Rattle.std.specs.Prelude.{◌≡◌, ◌↔◌, ◌+◌, ◌++◌, ◌<◌, ◌≤◌, length, take, IfOk};
ghost use Rattle.std.specs.Prelude.{IsTrue};
ghost use Rattle.rd_bytes.specs.declared.bytes.TheConstants.{MAX_BYTES};
ghost use Rattle.rd_group.specs.GroupChanges.{group_applied, GroupFits};
ghost use Rattle.rd_queue.specs.Changes.{put_at, queue_applied, the_queue_change};
ghost use Rattle.rd_queue.specs.Changes.{QueueFits, SetItem};
ghost use Rattle.rd_queue.specs.Queues.{fitted};
ghost use Rattle.rd_queue.specs.QueueSetChanges.{queue_set_applied, QueueSetFits};
ghost use Rattle.rd_stream.specs.MessageChanges.{message_applied, the_message_change, Push};
ghost use Rattle.rd_stream.specs.MessageChanges.{HasSpaceForMessage, MessageFits};
ghost use Rattle.rd_stream.specs.StreamChanges.{stream_applied, the_stream_change, PushBytes};
ghost use Rattle.rd_stream.specs.StreamChanges.{StreamFits};
ghost use Rattle.rd_state.specs.Objects.{group_in, new_objects, no_objects, objects_with_group};
ghost use Rattle.rd_state.specs.Objects.{object_applied, object_inverse_of, object_saved_bytes};
ghost use Rattle.rd_state.specs.Objects.{message_in, objects_with_message, objects_with_queue};
ghost use Rattle.rd_state.specs.Objects.{objects_with_queue_set, objects_with_stream, queue_in};
ghost use Rattle.rd_state.specs.Objects.{queue_set_in, stream_in, the_object_change};
ghost use Rattle.rd_state.specs.Objects.{ObjectFits};
ghost use Rattle.rd_state.specs.Transfers.{bytes_at, sunk, HasSink, HasSource};

use crate::new_objects::{
    new_groups, new_message_buffers, new_queue_sets, new_queues, new_streams,
};
use crate::transfer::{Sink, Source};
use crate::whole::{Whole, all_same, copy_all};
use rd_app::app::Program;
use rd_app::both::both;
use rd_bytes::no_memory::NoMemory;
use rd_group::group::Group;
use rd_group::group_change::GroupChange;
use rd_queue::change::QueueChange;
use rd_queue::end::End;
use rd_queue::queue::Queue;
use rd_queue::queue_set::QueueSet;
use rd_queue::queue_set_change::QueueSetChange;
use rd_stream::message_buf::MessageBuf;
use rd_stream::message_change::MessageChange;
use rd_stream::stream_buf::StreamBuf;
use rd_stream::stream_change::StreamChange;
use std::alloc::{AllocError, Global};
use std::marker::Model;

/// A primitive change of an object, whichever kind it is of. Objects go by number.
#[derive(Clone, Copy)]
pub enum ObjectChange<'a> {
    /// The queue changes so.
    Queue {
        queue: usize,
        change: QueueChange<'a>,
    },
    /// The queue set changes so.
    QueueSet {
        queue_set: usize,
        change: QueueSetChange,
    },
    /// The stream buffer changes so.
    Stream {
        stream: usize,
        change: StreamChange<'a>,
    },
    /// The message buffer changes so.
    Message {
        message: usize,
        change: MessageChange<'a>,
    },
    /// The event group changes so.
    Group {
        group: usize,
        change: GroupChange,
    },
}

impl ObjectChange<'_> {
    /// How much it takes in a record: one, and the bytes that it carries.
    pub fn cost(self) -> usize
        ensures { result ≡ 1 + object_saved_bytes (the_object_change self.entry) }
    {
        match self {
            ObjectChange::Queue { change, .. } => change.cost(),
            ObjectChange::QueueSet { .. } => 1,
            ObjectChange::Stream { change, .. } => change.cost(),
            ObjectChange::Message { change, .. } => change.cost(),
            ObjectChange::Group { .. } => 1,
        }
    }
}

/// The objects of the target, each kind by number.
pub struct Objects {
    queues: Vec<Queue>,
    queue_sets: Vec<QueueSet>,
    streams: Vec<StreamBuf>,
    messages: Vec<MessageBuf>,
    groups: Vec<Group>,
}

// (Written out, so that a drop of one is a call: no proof elsewhere has to look into its parts.)
impl Drop for Objects {
    fn drop(self) {
        let Objects {
            queues: _queues,
            queue_sets: _queue_sets,
            streams: _streams,
            messages: _messages,
            groups: _groups,
        } = self;
    }
}

impl Model for Objects {
    ghost use Rattle.rd_state.specs.Objects.{ObjectsSnapshot};

    ghost Value = { ObjectsSnapshot };

    ghost view = { λ o. record {
      queues = o.queues.items;
      queue_sets = o.queue_sets.items;
      streams = o.streams.items;
      messages = o.messages.items;
      groups = o.groups.items;
    } };
}

impl Whole for Queue {
    fn copied(&self, alloc: Global) -> Result<Queue, AllocError> {
        self.copy(alloc)
    }

    fn is_same(&self, other: &Queue) -> bool {
        self.same(other)
    }
}

impl Whole for QueueSet {
    fn copied(&self, alloc: Global) -> Result<QueueSet, AllocError> {
        self.copy(alloc)
    }

    fn is_same(&self, other: &QueueSet) -> bool {
        self.same(other)
    }
}

impl Whole for StreamBuf {
    fn copied(&self, alloc: Global) -> Result<StreamBuf, AllocError> {
        self.copy(alloc)
    }

    fn is_same(&self, other: &StreamBuf) -> bool {
        self.same(other)
    }
}

impl Whole for MessageBuf {
    fn copied(&self, alloc: Global) -> Result<MessageBuf, AllocError> {
        self.copy(alloc)
    }

    fn is_same(&self, other: &MessageBuf) -> bool {
        self.same(other)
    }
}

impl Whole for Group {
    fn copied(&self, alloc: Global) -> Result<Group, AllocError> {
        self.copy(alloc)
    }

    fn is_same(&self, other: &Group) -> bool {
        self.same(other)
    }
}

impl Objects {
    /// No objects, which takes no memory.
    pub(crate) fn none(alloc: Global) -> Objects
        ensures { result ≡ no_objects }
    {
        Objects {
            queues: Vec::new(alloc),
            queue_sets: Vec::new(alloc),
            streams: Vec::new(alloc),
            messages: Vec::new(alloc),
            groups: Vec::new(alloc),
        }
    }

    /// The objects of an application at boot, all empty.
    pub(crate) fn new(alloc: Global, app: &Program) -> Result<Objects, NoMemory>
        ensures { IfOk result (λ objects. objects ≡ new_objects app.now) }
    {
        app.limits();
        let task_count = app.priorities().len();
        let shapes = app.objects();
        let queue_count = shapes.queues().len();
        let ((queues, queue_sets), (streams, (messages, groups))) = both(
            both(
                new_queues(alloc, app),
                new_queue_sets(alloc, shapes.queue_sets(), queue_count, task_count),
            ),
            both(
                new_streams(alloc, shapes.streams(), task_count),
                both(
                    new_message_buffers(alloc, shapes.messages(), task_count),
                    new_groups(alloc, shapes.groups().len(), task_count),
                ),
            ),
        )?;
        Ok(Objects {
            queues,
            queue_sets,
            streams,
            messages,
            groups,
        })
    }

    /// Equal objects.
    pub(crate) fn copy(&self, alloc: Global) -> Result<Objects, NoMemory>
        ensures { IfOk result (λ objects. objects ≡ self.now) }
    {
        let ((queues, queue_sets), (streams, (messages, groups))) = both(
            both(
                copy_all(alloc, self.queues.as_slice()),
                copy_all(alloc, self.queue_sets.as_slice()),
            ),
            both(
                copy_all(alloc, self.streams.as_slice()),
                both(
                    copy_all(alloc, self.messages.as_slice()),
                    copy_all(alloc, self.groups.as_slice()),
                ),
            ),
        )?;
        Ok(Objects {
            queues,
            queue_sets,
            streams,
            messages,
            groups,
        })
    }

    /// Whether the other objects are the same, to the last field.
    pub(crate) fn same(&self, other: &Objects) -> bool
        ensures { IsTrue result ↔ (self.now ≡ other.now) }
    {
        all_same(self.queues.as_slice(), other.queues.as_slice())
            && all_same(self.queue_sets.as_slice(), other.queue_sets.as_slice())
            && all_same(self.streams.as_slice(), other.streams.as_slice())
            && all_same(self.messages.as_slice(), other.messages.as_slice())
            && all_same(self.groups.as_slice(), other.groups.as_slice())
    }

    /// How many queues there are.
    pub fn queue_count(&self) -> usize
        ensures { result ≡ length self.now.queues }
    {
        self.queues.len()
    }

    /// A queue.
    pub fn queue(&self, queue: usize) -> &Queue
        requires { queue < length self.now.queues }
        ensures { result.now ≡ queue_in self.now queue }
    {
        &self.queues[queue]
    }

    /// A queue set.
    pub fn queue_set(&self, queue_set: usize) -> &QueueSet
        requires { queue_set < length self.now.queue_sets }
        ensures { result.now ≡ queue_set_in self.now queue_set }
    {
        &self.queue_sets[queue_set]
    }

    /// A stream buffer.
    pub fn stream(&self, stream: usize) -> &StreamBuf
        requires { stream < length self.now.streams }
        ensures { result.now ≡ stream_in self.now stream }
    {
        &self.streams[stream]
    }

    /// A message buffer.
    pub fn message(&self, message: usize) -> &MessageBuf
        requires { message < length self.now.messages }
        ensures { result.now ≡ message_in self.now message }
    {
        &self.messages[message]
    }

    /// An event group.
    pub fn group(&self, group: usize) -> &Group
        requires { group < length self.now.groups }
        ensures { result.now ≡ group_in self.now group }
    {
        &self.groups[group]
    }

    // Changes a queue.
    #[inline(always)]
    fn change_queue(&mut self, queue: usize, change: QueueChange<'_>)
        requires there { queue < length self.old.queues }
        requires fits { QueueFits (queue_in self.old queue) (the_queue_change change) }
        ensures { self.new ≡ objects_with_queue self.old queue
            (queue_applied (queue_in self.old queue) (the_queue_change change.entry)) }
    {
        let target = &mut self.queues[queue];
        target.apply(change);
    }

    // Changes a queue set.
    #[inline(always)]
    fn change_queue_set(&mut self, queue_set: usize, change: QueueSetChange)
        requires there { queue_set < length self.old.queue_sets }
        requires fits { QueueSetFits (queue_set_in self.old queue_set) change }
        ensures { self.new ≡ objects_with_queue_set self.old queue_set
            (queue_set_applied (queue_set_in self.old queue_set) change) }
    {
        let target = &mut self.queue_sets[queue_set];
        target.apply(change);
    }

    // Changes a stream buffer.
    #[inline(always)]
    fn change_stream(&mut self, stream: usize, change: StreamChange<'_>)
        requires there { stream < length self.old.streams }
        requires fits { StreamFits (stream_in self.old stream) (the_stream_change change) }
        ensures { self.new ≡ objects_with_stream self.old stream
            (stream_applied (stream_in self.old stream) (the_stream_change change.entry)) }
    {
        let target = &mut self.streams[stream];
        target.apply(change);
    }

    // Changes a message buffer.
    #[inline(always)]
    fn change_message(&mut self, message: usize, change: MessageChange<'_>)
        requires there { message < length self.old.messages }
        requires fits { MessageFits (message_in self.old message) (the_message_change change) }
        ensures { self.new ≡ objects_with_message self.old message
            (message_applied (message_in self.old message) (the_message_change change.entry)) }
    {
        let target = &mut self.messages[message];
        target.apply(change);
    }

    // Changes an event group.
    #[inline(always)]
    fn change_group(&mut self, group: usize, change: GroupChange)
        requires there { group < length self.old.groups }
        requires fits { GroupFits (group_in self.old group) change }
        ensures { self.new ≡ objects_with_group self.old group
            (group_applied (group_in self.old group) change) }
    {
        let target = &mut self.groups[group];
        target.apply(change);
    }

    /// Makes a change of an object. It takes no memory.
    #[inline(always)]
    pub(crate) fn apply(&mut self, change: ObjectChange<'_>)
        requires { ObjectFits self.old (the_object_change change) }
        ensures { self.new ≡ object_applied self.old (the_object_change change.entry) }
    {
        match change {
            ObjectChange::Queue { queue, change } => self.change_queue(queue, change),
            ObjectChange::QueueSet { queue_set, change } => {
                self.change_queue_set(queue_set, change);
            }
            ObjectChange::Stream { stream, change } => self.change_stream(stream, change),
            ObjectChange::Message { message, change } => self.change_message(message, change),
            ObjectChange::Group { group, change } => self.change_group(group, change),
        }
    }

    /// The change that undoes `change`, made at these objects, which lend it its bytes. It takes no
    /// memory.
    #[inline(always)]
    pub(crate) fn inverse_of(&self, change: ObjectChange<'_>) -> ObjectChange<'_>
        requires { ObjectFits self.now (the_object_change change) }
        ensures { the_object_change result
            ≡ object_inverse_of self.now (the_object_change change.entry) }
    {
        match change {
            ObjectChange::Queue { queue, change } => ObjectChange::Queue {
                queue,
                change: self.queue(queue).inverse_of(change),
            },
            ObjectChange::QueueSet { queue_set, change } => ObjectChange::QueueSet {
                queue_set,
                change: self.queue_set(queue_set).inverse_of(change),
            },
            ObjectChange::Stream { stream, change } => ObjectChange::Stream {
                stream,
                change: self.stream(stream).inverse_of(change),
            },
            ObjectChange::Message { message, change } => ObjectChange::Message {
                message,
                change: self.message(message).inverse_of(change),
            },
            ObjectChange::Group { group, change } => ObjectChange::Group {
                group,
                change: self.group(group).inverse_of(change),
            },
        }
    }

    /// The bytes at a source, in two pieces that follow one another.
    #[inline(always)]
    pub(crate) fn bytes_at(&self, source: Source) -> (&[u8], &[u8])
        requires { HasSource self.now source }
        ensures bytes { result.0.now ++ result.1.now ≡ bytes_at self.now source }
        ensures few { length (result.0.now ++ result.1.now) ≤ MAX_BYTES }
    {
        match source {
            Source::QueueFront { queue } => (self.queue(queue).first(), &[]),
            Source::StreamFront { stream, count } => self.stream(stream).first(count),
            Source::MessageFront { message } => self.message(message).first(),
        }
    }

    /// Brings bytes to a sink. It takes no memory.
    #[inline(always)]
    pub(crate) fn sink(&mut self, sink: Sink, bytes: &[u8])
        requires { HasSink self.old sink bytes.now }
        ensures { self.new ≡ object_applied self.old (sunk self.old sink bytes.now) }
    {
        match sink {
            Sink::QueueEnd { queue, end } => self.put_fitted(queue, end, bytes),
            Sink::OverFront { queue } => self.set_first_fitted(queue, bytes),
            Sink::StreamBack { stream, count } => self.write_stream(stream, &bytes[..count]),
            Sink::MessageBack { message } => self.write_message(message, bytes),
        }
    }

    /// The change that undoes what comes of these bytes to a sink of these objects, which lend it
    /// its own.
    #[inline(always)]
    pub(crate) fn inverse_of_sink(&self, sink: Sink, bytes: &[u8]) -> ObjectChange<'_>
        requires { HasSink self.now sink bytes.now }
        ensures { the_object_change result
            ≡ object_inverse_of self.now (sunk self.now sink bytes.now) }
    {
        let _ = bytes;
        match sink {
            Sink::QueueEnd { queue, end } => {
                let change = match end {
                    End::Back => QueueChange::TakeBack,
                    End::Front => QueueChange::TakeFront,
                };
                ObjectChange::Queue { queue, change }
            }
            Sink::OverFront { queue } => {
                let item = self.queue(queue).first();
                let change = QueueChange::SetItem { index: 0, item };
                ObjectChange::Queue { queue, change }
            }
            Sink::StreamBack { stream, count } => {
                let change = StreamChange::DropBytes { count };
                ObjectChange::Stream { stream, change }
            }
            Sink::MessageBack { message } => {
                let change = MessageChange::Drop;
                ObjectChange::Message { message, change }
            }
        }
    }

    // Puts bytes at the back of a stream buffer that has space.
    #[inline(always)]
    fn write_stream(&mut self, stream: usize, bytes: &[u8])
        requires there { stream < length self.old.streams }
        requires space { length (stream_in self.old stream).bytes + length bytes.now
            ≤ (stream_in self.old stream).capacity }
        ensures { self.new ≡ objects_with_stream self.old stream
            (stream_applied (stream_in self.old stream) (PushBytes bytes.now)) }
    {
        let target = &mut self.streams[stream];
        target.write(bytes);
    }

    // Puts a message at the back of a message buffer that has space.
    #[inline(always)]
    fn write_message(&mut self, message: usize, bytes: &[u8])
        requires there { message < length self.old.messages }
        requires space { HasSpaceForMessage (message_in self.old message) bytes.now }
        ensures { self.new ≡ objects_with_message self.old message
            (message_applied (message_in self.old message) (Push bytes.now)) }
    {
        let target = &mut self.messages[message];
        target.write(bytes);
    }

    // Puts the item that these bytes make at an end of a queue that has space.
    #[inline(always)]
    fn put_fitted(&mut self, queue: usize, end: End, bytes: &[u8])
        requires there { queue < length self.old.queues }
        requires space { length (queue_in self.old queue).items
            < (queue_in self.old queue).capacity }
        ensures { self.new ≡ objects_with_queue self.old queue
            (queue_applied (queue_in self.old queue)
            (put_at end (fitted (queue_in self.old queue).item_size bytes.now))) }
    {
        let target = &mut self.queues[queue];
        target.put_fitted(end, bytes);
    }

    // Puts the item that these bytes make in the place of a queue's first.
    #[inline(always)]
    fn set_first_fitted(&mut self, queue: usize, bytes: &[u8])
        requires there { queue < length self.old.queues }
        requires some { 0 < length (queue_in self.old queue).items }
        ensures { self.new ≡ objects_with_queue self.old queue
            (queue_applied (queue_in self.old queue)
            (SetItem 0 (fitted (queue_in self.old queue).item_size bytes.now))) }
    {
        let target = &mut self.queues[queue];
        target.set_fitted(0, bytes);
    }
}
