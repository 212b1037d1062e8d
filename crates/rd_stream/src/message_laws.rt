//! Laws of message buffers, in their own words.

ghost use Rattle.rd_stream.specs.MessageLaws.{MessagesComeOutWholeAndInOrder};

/// A law: over any writes and reads that fit in turn, the messages that were there before, followed
/// by those that were written, are those that were read, followed by those that are there then.
pub fn messages_come_out_whole_and_in_order()
    ensures { MessagesComeOutWholeAndInOrder }
{}
