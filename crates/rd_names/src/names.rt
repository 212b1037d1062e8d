//! What the things of an application are called, kind by kind.

ghost use Rattle.std.specs.Prelude.{◌≡◌, ◌<◌, length, position, slice_get, Some, IfOk};
ghost use Rattle.std.specs.Str.{bytes_eq};
ghost use Rattle.rd_names.specs.Names.{AreNames, counts_of, lists_view, named_by, names_of};

use crate::name_set::NameSet;
use rd_app::both::both;
use rd_text::kind::Kind;
use std::alloc::{AllocError, Global};
use std::marker::Model;

/// What the things of an application are called: the names of each kind, by number.
pub struct Names {
    queues: NameSet,
    queue_sets: NameSet,
    streams: NameSet,
    messages: NameSet,
    groups: NameSet,
    tasks: NameSet,
}

// (Written out, so that a drop of one is a call: no proof elsewhere has to look into its parts.)
impl Drop for Names {
    fn drop(self) {
        let Names {
            queues: _queues,
            queue_sets: _queue_sets,
            streams: _streams,
            messages: _messages,
            groups: _groups,
            tasks: _tasks,
        } = self;
    }
}

impl Model for Names {
    ghost use Rattle.rd_names.specs.Names.{NamesView};

    ghost Value = { NamesView };

    ghost view = { λ n. record {
      queues = n.queues;
      queue_sets = n.queue_sets;
      streams = n.streams;
      messages = n.messages;
      groups = n.groups;
      tasks = n.tasks;
    } };
}

/// How many things there are of each kind.
#[derive(Clone, Copy, PartialEq, Eq)]
pub struct Counts {
    pub queues: usize,
    pub queue_sets: usize,
    pub streams: usize,
    pub messages: usize,
    pub groups: usize,
    pub tasks: usize,
}

/// Texts for the things of each kind, by number.
#[derive(Clone, Copy)]
pub struct NameLists<'a> {
    pub queues: &'a [&'a str],
    pub queue_sets: &'a [&'a str],
    pub streams: &'a [&'a str],
    pub messages: &'a [&'a str],
    pub groups: &'a [&'a str],
    pub tasks: &'a [&'a str],
}

impl Names {
    /// These texts, in their order, but for those that are no names or stand before in their kind.
    pub fn new(alloc: Global, lists: NameLists<'_>) -> Result<Names, AllocError>
        ensures { IfOk result (λ names. names ≡ named_by (lists_view lists.entry)) }
    {
        let queues = both(
            NameSet::new(alloc, lists.queues),
            NameSet::new(alloc, lists.queue_sets),
        );
        let buffers = both(
            NameSet::new(alloc, lists.streams),
            NameSet::new(alloc, lists.messages),
        );
        let others = both(
            NameSet::new(alloc, lists.groups),
            NameSet::new(alloc, lists.tasks),
        );
        let (queues, (buffers, others)) = both(queues, both(buffers, others))?;
        Ok(Names {
            queues: queues.0,
            queue_sets: queues.1,
            streams: buffers.0,
            messages: buffers.1,
            groups: others.0,
            tasks: others.1,
        })
    }

    // The names of a kind.
    fn set(&self, kind: Kind) -> &NameSet
        ensures { result.now ≡ names_of kind self.now }
    {
        match kind {
            Kind::Queue => &self.queues,
            Kind::QueueSet => &self.queue_sets,
            Kind::Stream => &self.streams,
            Kind::Message => &self.messages,
            Kind::Group => &self.groups,
            Kind::Task => &self.tasks,
        }
    }

    /// What holds of all names: in each kind they are names, no two of which are equal.
    pub fn by_invariant(&self)
        ensures { AreNames self.now }
    {
        self.queues.by_invariant();
        self.queue_sets.by_invariant();
        self.streams.by_invariant();
        self.messages.by_invariant();
        self.groups.by_invariant();
        self.tasks.by_invariant();
    }

    /// How many things of each kind have names.
    pub fn counts(&self) -> Counts
        ensures { result ≡ counts_of self.now }
    {
        Counts {
            queues: self.queues.count(),
            queue_sets: self.queue_sets.count(),
            streams: self.streams.count(),
            messages: self.messages.count(),
            groups: self.groups.count(),
            tasks: self.tasks.count(),
        }
    }

    /// The number of the thing of that kind with that name, if there is one.
    pub fn find(&self, kind: Kind, name: &str) -> Option<usize>
        ensures { result ≡ position (bytes_eq name.now) (names_of kind self.now) }
    {
        self.set(kind).find(name)
    }

    /// The name of the thing of that kind with that number.
    pub fn name(&self, kind: Kind, number: usize) -> &str
        requires { number < length (names_of kind self.now) }
        ensures { slice_get (names_of kind self.now) number ≡ Some result.now }
    {
        self.set(kind).name(number)
    }

    /// The same names. An `Err` says that there is no memory for them.
    pub fn copy(&self, alloc: Global) -> Result<Names, AllocError>
        ensures { IfOk result (λ copy. copy ≡ self.now) }
    {
        let queues = both(self.queues.copy(alloc), self.queue_sets.copy(alloc));
        let buffers = both(self.streams.copy(alloc), self.messages.copy(alloc));
        let others = both(self.groups.copy(alloc), self.tasks.copy(alloc));
        let (queues, (buffers, others)) = both(queues, both(buffers, others))?;
        Ok(Names {
            queues: queues.0,
            queue_sets: queues.1,
            streams: buffers.0,
            messages: buffers.1,
            groups: others.0,
            tasks: others.1,
        })
    }
}
