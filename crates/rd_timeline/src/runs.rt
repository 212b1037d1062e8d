//! Lists of requests: what they leave of the moves done and undone, and of the base.

ghost use Rattle.std.specs.Prelude.{◌≡◌, All, Ok, OnErr, OnOk};
ghost use Rattle.rd_timeline.specs.History.{state_after};
ghost use Rattle.rd_timeline.specs.Runs.{moves_of, all_answered, StopsBefore};
ghost use Rattle.rd_moves.specs.Requests.{IsRequestOf};

use crate::timeline::Timeline;
use rd_bytes::no_memory::NoMemory;
use rd_moves::carried::Lent;
use rd_moves::request::Request;

impl Timeline {
    /// Does all that is asked, in order. After any list of requests the target is the state that
    /// the moves not undone give from boot, and these moves, and how many of them have a record,
    /// are what the requests leave of them, one by one. Where memory runs out, at a request that
    /// makes a move, that holds of the requests before it.
    pub fn run(&mut self, requests: &[Request<Lent<'_>>]) -> Result<(), NoMemory>
        requires { All (IsRequestOf self.old.app) requests.now }
        ensures ok { OnOk result (moves_of self.new
            ≡ all_answered self.old.app self.old.limit (moves_of self.old) requests.now) }
        ensures no_memory { OnErr result
            (StopsBefore self.old.app self.old.limit (moves_of self.old) (moves_of self.new)
            requests.now) }
        ensures app { self.new.app ≡ self.old.app }
        ensures limit { self.new.limit ≡ self.old.limit }
        ensures leads { state_after self.new.app self.new.done ≡ Ok self.new.target }
    {
        self.by_invariant();
        for request in requests {
            self.answer(request)?;
        }
        Ok(())
    }
}
