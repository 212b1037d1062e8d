//! Where a session is: whom it stands between, and its answers that weren't written yet.

ghost use Rattle.std.specs.Prelude.{◌≡◌};
ghost use Rattle.rd_session.specs.Spots.{IsLent};

use crate::gate::Gate;
use crate::pending::Pending;
use rd_ends::ends::ByteSink;
use rd_hall::seat::Seat;
use rd_hall::setup::Setup;

/// Where a session is: whom it calls, its seat, its answers that weren't written yet, and where
/// they go.
#[derive(Drop)]
pub(crate) struct Spot<'a, L: Setup, G: Gate, W: ByteSink> {
    pub(crate) gate: &'a mut G,
    pub(crate) seat: &'a mut Seat<L>,
    pub(crate) pending: &'a mut Pending,
    pub(crate) sink: &'a mut W,
}

impl<'a, L: Setup, G: Gate, W: ByteSink> Spot<'a, L, G, W> {
    /// The spot of these.
    pub(crate) fn new(
        gate: &'a mut G,
        seat: &'a mut Seat<L>,
        pending: &'a mut Pending,
        sink: &'a mut W,
    ) -> Spot<'a, L, G, W>
        ensures gate { IsLent result.gate gate.entry }
        ensures seat { IsLent result.seat seat.entry }
        ensures pending { IsLent result.pending pending.entry }
        ensures sink { IsLent result.sink sink.entry }
    {
        Spot {
            gate,
            seat,
            pending,
            sink,
        }
    }
}
