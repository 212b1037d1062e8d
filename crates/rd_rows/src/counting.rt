//! A gate and a sink that share how many lines were written.

use crate::asserts::assert_same;
use crate::attending::whole_lines;
use crate::memory::Narrow;
use rd_session::gate::Gate;
use std::io;
use std::io::Write;
use std::process::Abort;
use std::sync::atomic::{AtomicU64, Ordering};

/// A writer that has room for so many bytes, and tells how many LFs it has taken.
#[derive(Drop)]
pub struct TellingWriter<'a> {
    pub narrow: Narrow,
    pub lines_out: &'a AtomicU64,
}

impl Write for TellingWriter<'_> {
    fn write(&mut self, buffer: &[u8]) -> io::Result<usize> {
        let count = self.narrow.write(buffer)?;
        let lines = whole_lines(&buffer[..count.min(buffer.len())]);
        self.lines_out.fetch_add(lines as u64, Ordering::SeqCst);
        Ok(count)
    }

    fn flush(&mut self) -> io::Result<()> {
        self.narrow.flush()
    }
}

/// The gate of one session. It fails unless it is called once before and once after each line, in
/// their order, with their numbers, and only after a line whose answer was written.
#[derive(Drop)]
pub struct CountingGate<'a, H> {
    pub rt: &'a H,
    pub who: u32,
    pub lines_out: &'a AtomicU64,
    pub begun: u64,
    pub told: u64,
}

impl<'a, H> CountingGate<'a, H> {
    /// Nothing was called yet.
    pub fn new(rt: &'a H, who: u32, lines_out: &'a AtomicU64) -> CountingGate<'a, H> {
        CountingGate {
            rt,
            who,
            lines_out,
            begun: 0,
            told: 0,
        }
    }
}

impl<H: Abort> Gate for CountingGate<'_, H> {
    ghost use Rattle.std.specs.Prelude.{None};

    ghost calls = { λ gate. None };

    fn before(&mut self, who: u32, line: u64) {
        assert_same(self.rt, who, self.who);
        assert_same(self.rt, line, self.begun.saturating_add(1));
        self.begun = line;
    }

    fn after(&mut self, who: u32, line: u64) {
        assert_same(self.rt, who, self.who);
        assert_same(self.rt, line, self.told.saturating_add(1));
        assert!(self.rt; line <= self.begun, "line {line} wasn't begun");
        let lines_out = self.lines_out.load(Ordering::SeqCst);
        assert!(self.rt; line <= lines_out, "the answer to line {line} isn't out");
        self.told = line;
    }
}
