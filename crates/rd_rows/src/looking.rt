//! A gate that looks at the history at each of its calls.

use crate::asserts::assert_same;
use crate::counting::CountingGate;
use rd_hall::hall::Hall;
use rd_hall::setup::Setup;
use rd_session::gate::Gate;
use std::process::Abort;
use std::sync::Wait;

/// The gate of the one session of a hall. It fails where a counting gate does, and unless each line
/// is asked behind its `before` and ahead of its `after`: before a line the history has an entry
/// for the session that has come, and one for each command among the lines before it, and no other.
#[derive(Drop)]
pub struct LookingGate<'a, H, L: Setup> {
    pub counting: CountingGate<'a, H>,
    pub hall: &'a Hall<L>,
    /// The numbers of the lines that are no commands, which have no entry.
    pub no_commands: &'a [u64],
}

impl<H: Wait + Abort, L: Setup> LookingGate<'_, H, L> {
    // How many entries the history has.
    fn entries(&self) -> u64 {
        self.hall.look(self.counting.rt).entries as u64
    }

    // How many it has once so many lines were asked.
    fn entries_behind(&self, lines: u64) -> u64 {
        let others = self.no_commands.iter().filter(|line| **line <= lines);
        lines
            .saturating_add(1)
            .saturating_sub(others.count() as u64)
    }
}

impl<H: Wait + Abort, L: Setup> Gate for LookingGate<'_, H, L> {
    ghost use Rattle.std.specs.Prelude.{None};

    ghost calls = { λ gate. None };

    fn before(&mut self, who: u32, line: u64) {
        self.counting.before(who, line);
        let entries = self.entries_behind(line.saturating_sub(1));
        assert_same(self.counting.rt, self.entries(), entries);
    }

    fn after(&mut self, who: u32, line: u64) {
        self.counting.after(who, line);
        assert!(self.counting.rt;
            self.entries_behind(line) <= self.entries(),
            "line {line} wasn't asked"
        );
    }
}
