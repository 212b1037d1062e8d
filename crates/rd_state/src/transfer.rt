//! Bytes on their way from one part of the state to another.

use rd_queue::end::End;

/// From where a task's data can get bytes.
#[derive(Clone, Copy)]
pub enum Source {
    /// The item at a queue's front. The queue keeps it.
    QueueFront { queue: usize },
    /// So many bytes at a stream buffer's front. The buffer keeps them.
    StreamFront { stream: usize, count: usize },
    /// The message at a message buffer's front. The buffer keeps it.
    MessageFront { message: usize },
}

/// Where the bytes of a task's data can go.
#[derive(Clone, Copy)]
pub enum Sink {
    /// An end of a queue, cut or filled up with zero bytes to the item size.
    QueueEnd { queue: usize, end: End },
    /// The place of the item at a queue's front, made to fit likewise.
    OverFront { queue: usize },
    /// The back of a stream buffer, for the first so many of the bytes.
    StreamBack { stream: usize, count: usize },
    /// The back of a message buffer, as one message.
    MessageBack { message: usize },
}

/// Bytes that go between a task's data and another part of the state, straight to where they stay.
#[derive(Clone, Copy)]
pub enum Transfer {
    /// A task's data goes to a sink. The task keeps it.
    FromData { task: usize, sink: Sink },
    /// The bytes at a source become a task's data.
    ToData { source: Source, task: usize },
}
