//! The ends of a queue.

/// Where an item is put into a queue.
#[derive(Clone, Copy)]
pub enum End {
    /// After the other items (`xQueueSendToBack`).
    Back,
    /// Before the other items (`xQueueSendToFront`).
    Front,
}
