//! A session of a hall over any source, sink and gate, and lines one behind the other.

ghost use Rattle.std.specs.Prelude.{◌≡◌};
ghost use Rattle.rd_ends.specs.Ends.{IsUnread};

use crate::hall::next_pass;
use rd_ends::ends::{ByteSink, ByteSource};
use rd_hall::hall::Hall;
use rd_hall::seat::{Gone, Pass};
use rd_hall::setup::Setup;
use rd_session::buffers::Buffers;
use rd_session::gate::Gate;
use rd_session::session::session;
use std::alloc::{AllocError, AllocGlobal, Global};
use std::process::Abort;
use std::sync::Wait;

/// The next session joins, answers its lines, and leaves.
pub fn attend<L: Setup, H, S: ByteSource, W: ByteSink, G: Gate>(
    rt: &H,
    hall: &Hall<L>,
    passes: &mut Vec<Pass<L>>,
    source: &mut S,
    sink: &mut W,
    gate: &mut G,
) -> Gone<L>
where
    H: Wait + Abort + AllocGlobal,
    requires unread { IsUnread (S.seen source.old) }
    requires unwritten { (W.seen sink.old).faults ≡ 0 }
{
    let Ok(mut buffers) = Buffers::new(rt.alloc()) else {
        panic!(rt; "no memory");
    };
    let Ok(seat) = hall.join(rt, next_pass(rt, passes)) else {
        panic!(rt; "a session isn't let in");
    };
    session(rt, source, sink, hall, seat, gate, &mut buffers)
}

/// So many of these lines, or all where there are fewer, one behind the other.
pub fn first_of(alloc: Global, lines: &[&str], count: usize) -> Result<Vec<u8>, AllocError> {
    let mut bytes = Vec::new(alloc);
    for line in &lines[..count.min(lines.len())] {
        let line: &str = *line;
        bytes.extend_from_slice(line.as_bytes())?;
    }
    Ok(bytes)
}

/// How many whole lines these bytes have.
pub fn whole_lines(bytes: &[u8]) -> usize {
    bytes.iter().filter(|byte| **byte == b'\n').count()
}
