//! Which tasks wait at a queue.

/// The two lists of tasks that wait at a queue.
#[derive(Clone, Copy, PartialEq, Eq)]
pub enum WaitingList {
    /// The tasks that wait to receive (`xTasksWaitingToReceive`).
    Receiving,
    /// The tasks that wait to send (`xTasksWaitingToSend`).
    Sending,
}
