//! Writes that fail where the answers to one read have no room together.

ghost use Rattle.std.specs.Prelude.{◌≡◌, ◌+◌};
ghost use Rattle.rd_desk.specs.declared.sessions.TheConstants.{MAX_JOINS};

use crate::asserts::assert_same;
use crate::attending::{attend, whole_lines};
use crate::counting::CountingGate;
use crate::memory::MemorySource;
use crate::receipts::all_sessions;
use rd_desk::limits::Limits;
use rd_desk::sessions::MAX_JOINS;
use rd_ends::ends::{ByteSink, WriteFault};
use rd_ends::over::Over;
use rd_hall::hall::Hall;
use rd_hall::seat::{Gone, Pass};
use rd_hall::setup::Setup;
use rd_names::app::App;
use std::alloc::{AllocError, AllocGlobal, Global};
use std::marker::Brand;
use std::process::Abort;
use std::sync::Wait;
use std::sync::atomic::{AtomicU64, Ordering};
use std::sync::ledger::Blank;
use std::test::Fail;

// Keeps what its writes were given. So many of them are done, and each further one fails.
#[derive(Drop)]
struct Losing<'a> {
    given: Vec<u8>,
    writes_left: usize,
    faults: u64,
    lines_out: &'a AtomicU64,
}

impl ByteSink for Losing<'_> {
    ghost use Rattle.std.specs.Prelude.{None};

    ghost seen = { λ l. record { contents = None; given = None; faults = l.faults } };

    fn write(&mut self, bytes: &[u8]) -> Result<(), WriteFault> {
        let is_kept = self.given.extend_from_slice(bytes).is_ok();
        match self.writes_left.checked_sub(1) {
            Some(left) if is_kept => {
                self.writes_left = left;
                let lines = whole_lines(bytes) as u64;
                self.lines_out.fetch_add(lines, Ordering::SeqCst);
                Ok(())
            }
            _ => {
                self.faults += 1;
                Err(WriteFault)
            }
        }
    }
}

// A line that is asked over and over, how often, and how many answers the writes may lack of those
// to the lines that were asked: a view that had no room beside the others.
#[derive(Clone, Copy)]
struct RepeatedLine {
    line: &'static str,
    count: usize,
    unsaid: usize,
}

fn lines_of(alloc: Global, script: RepeatedLine) -> Result<Vec<u8>, AllocError> {
    let mut lines = Vec::new(alloc);
    for _line in 0..script.count {
        lines.extend_from_slice(script.line.as_bytes())?;
    }
    Ok(lines)
}

// What a session gave to its writes, how many of them failed, and of how many lines the gate was
// told.
#[derive(Drop)]
struct WritesOutcome {
    given: Vec<u8>,
    faults: u64,
    begun: u64,
}

// A session whose lines come by one read, and of whose writes so many are done.
fn lose<L: Setup, H: Wait + Abort + AllocGlobal>(
    rt: &H,
    hall: &Hall<L>,
    passes: &mut Vec<Pass<L>>,
    lines: &[u8],
    writes: usize,
) -> (Gone<L>, WritesOutcome) {
    let lines_out = AtomicU64::new(0);
    let mut gate = CountingGate::new(rt, 1, &lines_out);
    let mut source = Over::new(MemorySource::new(lines));
    let mut sink = Losing {
        given: Vec::new(rt.alloc()),
        writes_left: writes,
        faults: 0,
        lines_out: &lines_out,
    };
    let gone = attend(rt, hall, passes, &mut source, &mut sink, &mut gate);
    assert_same(rt, gate.told, lines_out.load(Ordering::SeqCst));
    let outcome = WritesOutcome {
        given: sink.given,
        faults: sink.faults,
        begun: gate.begun,
    };
    (gone, outcome)
}

// The lines that were asked are those whose answers the writes were given, and at the most one
// whose view had no room. Answers whether a write has failed.
fn lose_a_write<L: Setup, H: Wait + Abort + AllocGlobal>(
    rt: &H,
    blank: Blank,
    app: App,
    script: RepeatedLine,
    writes: usize,
) -> Result<bool, Fail>
    requires name { blank.name ≡ L.name }
    requires parts { (blank.parts ≡ L.parts) × (blank.parts ≡ MAX_JOINS + 1) }
    requires app { app ≡ L.app }
    requires moves { L.most_moves ≡ 10 }
    requires entries { L.most_entries ≡ 10000 }
{
    let lines = lines_of(rt.alloc(), script)?;
    let mut gones = Vec::with_capacity(rt.alloc(), 1)?;
    let limits = Limits {
        moves: 10,
        history: 10_000,
    };
    let (hall, mut passes) = Hall::<L>::open(rt.alloc(), blank, app, limits)?;
    let (gone, outcome) = lose(rt, &hall, &mut passes, lines.as_slice(), writes);
    gones.push_reserved(gone);
    let Ok(closed) = hall.finish(gones) else {
        panic!(rt; "the history isn't the session's");
    };
    let sessions = all_sessions(rt, &closed)?;
    let [session] = sessions.as_slice() else {
        panic!(rt; "there isn't one session");
    };
    let asked = whole_lines(session.replies.as_slice());
    assert_same(rt, outcome.begun, asked as u64);
    assert!(rt;
        session
            .replies
            .as_slice()
            .starts_with(outcome.given.as_slice())
    );
    let given = whole_lines(outcome.given.as_slice());
    assert!(rt;
        asked <= given.saturating_add(script.unsaid),
        "{asked} were asked, {given} given"
    );
    assert!(rt; outcome.faults <= 1, "a write was tried behind a fault");
    Ok(outcome.faults != 0)
}

// Each write fails in turn, until none does. There are so many of them at the least.
fn lose_each_write<H: Wait + Abort + AllocGlobal>(
    rt: &H,
    script: RepeatedLine,
    least: usize,
) -> Result<(), Fail> {
    for writes in 0..100 {
        let app = App::builtin(rt.alloc())?;
        let blank = Blank::new(MAX_JOINS as u64 + 1);
        if !lose_a_write::<Brand, H>(rt, blank, app, script, writes)? {
            assert!(rt; least <= writes, "there are only {writes} writes");
            return Ok(());
        }
    }
    panic!(rt; "there are more writes than that");
}

// Behind a write that has failed no line is asked, also amid the lines of one read: answers in few
// words, which are all given to the write before the next line is asked. Shows `session`: `heard`
// (`BreaksOff`: `given`, `unsaid`, `faults`).
#[test]
fn few_words(rt: HostRuntime) -> Result<(), Fail> {
    let script = RepeatedLine {
        line: "step 4\n",
        count: 8_000,
        unsaid: 0,
    };
    lose_each_write(&rt, script, 2)
}

// And views, of which one may be made that is never written. Shows `session`: `heard` (`BreaksOff`:
// `given`, `no_room`, `faults`).
#[test]
fn views(rt: HostRuntime) -> Result<(), Fail> {
    let script = RepeatedLine {
        line: "show task t0\n",
        count: 4_000,
        unsaid: 1,
    };
    lose_each_write(&rt, script, 4)
}
