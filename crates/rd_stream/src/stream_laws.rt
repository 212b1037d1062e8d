//! A law of stream buffers, in its own words.

ghost use Rattle.rd_stream.specs.StreamLaws.{BytesComeOutInOrder};

/// A law: what is written to a stream buffer is read in the order in which it was written: none of
/// it is lost, and none is read twice.
pub fn bytes_come_out_in_order()
    ensures { BytesComeOutInOrder }
{}
