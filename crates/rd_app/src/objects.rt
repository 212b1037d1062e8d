//! The objects of an application, as they are to be made. A kind has a field or a row in each of
//! these.

ghost use Rattle.std.specs.Prelude.{◌≡◌, ◌<◌, length, IfSome};
ghost use Rattle.rd_app.specs.Objects.{no_shapes, objects_view, queue_set_at_boot};

use std::alloc::Global;
use std::marker::Model;

/// How many queues an application has at the most.
pub const MAX_QUEUES: usize = 32;

/// How many queue sets an application has at the most.
pub const MAX_QUEUE_SETS: usize = 32;

/// How many stream buffers an application has at the most.
pub const MAX_STREAMS: usize = 32;

/// How many message buffers an application has at the most.
pub const MAX_MESSAGE_BUFFERS: usize = 32;

/// How many event groups an application has at the most.
pub const MAX_GROUPS: usize = 32;

/// A queue to be made: room for 1 to 64 items of 1 to 64 bytes each.
#[derive(Clone, Copy, Default)]
pub struct QueueShape {
    pub capacity: usize,
    pub item_size: usize,
}

/// A queue set to be made: room for 1 to 2,048 handles (`xQueueCreateSet`), and the queues that are
/// its members at boot, by number.
#[derive(Drop)]
pub struct QueueSetShape {
    capacity: usize,
    members: Vec<usize>,
}

impl Model for QueueSetShape {
    ghost use Rattle.rd_app.specs.QueueSetShapeView.{QueueSetShapeView};

    ghost Value = { QueueSetShapeView };

    ghost view = { λ s. record { capacity = s.capacity; members = s.members.items } };
}

impl QueueSetShape {
    /// A set with room for `capacity` handles, 1 to 2,048, whose members at boot are these queues.
    pub fn new(capacity: usize, members: Vec<usize>) -> QueueSetShape
        ensures { result ≡ record { capacity = capacity; members = members.items } }
    {
        QueueSetShape { capacity, members }
    }

    /// How many handles there is room for.
    pub fn capacity(&self) -> usize
        ensures { result ≡ self.now.capacity }
    {
        self.capacity
    }

    /// The queues that are members at boot, by number.
    pub fn members(&self) -> &[usize]
        ensures { result.now ≡ self.now.members }
    {
        self.members.as_slice()
    }
}

/// A stream buffer to be made (`xStreamBufferCreate`): room for 1 to 1,024 bytes, and how many of
/// them there have to be for a write to complete a reader's wait, 0 to all, where 0 is taken as 1.
#[derive(Clone, Copy, Default)]
pub struct StreamShape {
    pub capacity: usize,
    pub trigger: usize,
}

/// A message buffer to be made (`xMessageBufferCreate`): room for 5 to 1,024 bytes, of which each
/// message takes four more than it has.
#[derive(Clone, Copy, Default)]
pub struct MessageShape {
    pub capacity: usize,
}

/// An event group to be made (`xEventGroupCreate`): there is nothing to choose.
#[derive(Clone, Copy, Default)]
pub struct GroupShape {}

/// What objects there are, each kind by number.
#[derive(Drop)]
pub struct ObjectShapes {
    /// The queues, at most 32.
    pub queues: Vec<QueueShape>,
    /// The queue sets, at most 32.
    pub queue_sets: Vec<QueueSetShape>,
    /// The stream buffers, at most 32.
    pub streams: Vec<StreamShape>,
    /// The message buffers, at most 32.
    pub messages: Vec<MessageShape>,
    /// The event groups, at most 32.
    pub groups: Vec<GroupShape>,
}

impl ObjectShapes {
    /// These queues, and no objects of any other kind.
    pub fn of_queues(alloc: Global, queues: Vec<QueueShape>) -> ObjectShapes
        ensures { objects_view result ≡ record no_shapes { queues = queues.items } }
    {
        ObjectShapes {
            queues,
            queue_sets: Vec::new(alloc),
            streams: Vec::new(alloc),
            messages: Vec::new(alloc),
            groups: Vec::new(alloc),
        }
    }

    /// The queues, by number.
    pub fn queues(&self) -> &[QueueShape]
        ensures { result.now ≡ (objects_view self.now).queues }
    {
        self.queues.as_slice()
    }

    /// The queue sets, by number.
    pub fn queue_sets(&self) -> &[QueueSetShape]
        ensures { result.now ≡ (objects_view self.now).queue_sets }
    {
        self.queue_sets.as_slice()
    }

    /// The stream buffers, by number.
    pub fn streams(&self) -> &[StreamShape]
        ensures { result.now ≡ (objects_view self.now).streams }
    {
        self.streams.as_slice()
    }

    /// The message buffers, by number.
    pub fn messages(&self) -> &[MessageShape]
        ensures { result.now ≡ (objects_view self.now).messages }
    {
        self.messages.as_slice()
    }

    /// The event groups, by number.
    pub fn groups(&self) -> &[GroupShape]
        ensures { result.now ≡ (objects_view self.now).groups }
    {
        self.groups.as_slice()
    }

    /// The set that the queue is a member of at boot, if it is one of any.
    pub fn set_of(&self, queue: usize) -> Option<usize>
        ensures queue_set { result ≡ queue_set_at_boot (objects_view self.now) queue }
        ensures within { IfSome result
            (λ queue_set. queue_set < length (objects_view self.now).queue_sets) }
    {
        self.queue_sets
            .iter()
            .position(|queue_set| queue_set.members.contains(&queue))
    }
}

/// For contracts alone: the limits of objects, as numbers.
pub fn limits_of_objects()
    ensures queues { MAX_QUEUES ≡ 32 }
    ensures queue_sets { MAX_QUEUE_SETS ≡ 32 }
    ensures streams { MAX_STREAMS ≡ 32 }
    ensures messages { MAX_MESSAGE_BUFFERS ≡ 32 }
    ensures groups { MAX_GROUPS ≡ 32 }
{}
