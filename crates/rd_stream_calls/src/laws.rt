//! Laws of stream buffers and message buffers, in their own words.

ghost use Rattle.rd_stream_calls.specs.BufferWaits.{LongMessagesStay, ReadersWaitForTheTrigger};
ghost use Rattle.rd_stream_calls.specs.BufferWaits.{WaitsEnd};

/// A law: the wait of a reader or a writer ends with its entry 0 idle and its name gone from the
/// buffer, whatever came while it waited: once it tries its call again, and doesn't wait again.
pub fn waits_end()
    ensures { WaitsEnd }
{}

/// A law: a write after which a stream buffer has fewer bytes than the trigger level wakes nobody,
/// and one that reaches the level completes the reader's wait.
pub fn readers_wait_for_the_trigger()
    ensures { ReadersWaitForTheTrigger }
{}

/// A law: a message that is longer than the reader's room stays in the buffer, and the read returns
/// 0 (`xMessageBufferReceive`).
pub fn long_messages_stay()
    ensures { LongMessagesStay }
{}
