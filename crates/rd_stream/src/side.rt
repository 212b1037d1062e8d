//! The two sides of a buffer.

ghost use Rattle.std.specs.Prelude.{◌≡◌};
ghost use Rattle.rd_stream.specs.Sides.{tag_of_side};

use rd_bytes::tag::{SET_READER, SET_WRITER};

/// A side of a buffer, at which one task can wait.
#[derive(Clone, Copy, PartialEq, Eq)]
pub enum Side {
    /// Where what is in the buffer is read.
    Reader,
    /// Where it is written.
    Writer,
}

/// The tag of the change by which the place at a side names somebody else.
pub fn tag_of_side(side: Side) -> u8
    ensures { result ≡ tag_of_side side }
{
    match side {
        Side::Reader => SET_READER,
        Side::Writer => SET_WRITER,
    }
}
