//! What is called before and after each answer.

ghost use Rattle.std.specs.Prelude.{[], ◌∷◌, Option, List};
ghost use Rattle.rd_session.specs.Calls.{Adds, After, Before, GateCall};

/// What a session calls at each of its lines. Nothing is locked then. Lines are counted from 1 on;
/// each of both is called once for a line, with its number, and in the order of lines. Once `after`
/// was called, `before` is called again only when all lines that were begun have had theirs.
pub trait Gate {
    /// What was called of it, in order, where that is known.
    ghost calls: { Self → Option (List GateCall) };

    /// A line was read, and is about to be answered.
    fn before(&mut self, who: u32, line: u64)
        ensures { Adds (calls self.old) (calls self.new) (Before who line ∷ []) };

    /// The answer to the line is out: a write has taken all of it.
    fn after(&mut self, who: u32, line: u64)
        ensures { Adds (calls self.old) (calls self.new) (After who line ∷ []) };
}

/// A gate that does nothing.
#[derive(Clone, Copy)]
pub struct NoGate;

impl Gate for NoGate {
    ghost use Rattle.std.specs.Prelude.{None};

    ghost calls = { λ gate. None };

    fn before(&mut self, _who: u32, _line: u64) {}

    fn after(&mut self, _who: u32, _line: u64) {}
}
