//! The kinds of things that have names.

/// A kind of things that have names. Two things of different kinds may have the same name.
#[derive(Clone, Copy)]
pub enum Kind {
    /// `queue`
    Queue,
    /// `set`: a queue set
    QueueSet,
    /// `stream`: a stream buffer
    Stream,
    /// `message`: a message buffer
    Message,
    /// `group`: an event group
    Group,
    /// `task`
    Task,
}
