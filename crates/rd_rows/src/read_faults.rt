//! Sessions of a hall whose reads fail, at each of them in turn.

ghost use Rattle.std.specs.Prelude.{◌≡◌, ◌+◌};
ghost use Rattle.rd_desk.specs.declared.sessions.TheConstants.{MAX_JOINS};

use crate::asserts::assert_same;
use crate::attending::{attend, first_of, whole_lines};
use crate::memory::MemorySource;
use crate::receipts::{SessionTranscript, all_sessions};
use rd_desk::limits::Limits;
use rd_desk::sessions::MAX_JOINS;
use rd_ends::over::Over;
use rd_hall::hall::Hall;
use rd_hall::seat::{Gone, Pass};
use rd_hall::setup::Setup;
use rd_names::app::App;
use rd_session::gate::NoGate;
use std::alloc::{AllocError, AllocGlobal, Global};
use std::marker::Brand;
use std::process::Abort;
use std::sync::Wait;
use std::sync::ledger::Blank;
use std::test::Fail;

// What session 1 asks, seven bytes a read, and what it is answered where nothing fails.
const LINES: [&str; 6] = [
    "wheel take\n",
    "step 0\n",
    "show queue q0\n",
    "step 0\n",
    "back 1\n",
    "step 1\n",
];

const REPLIES: [&str; 6] = [
    "ok wheel\n",
    "ok at 1\n",
    "queue q0 0/2 items - recv - send - set -\n",
    "ok at 2\n",
    "ok at 1\n",
    "no NoSuch\n",
];

const CHUNK: usize = 7;

// What session 2 asks then, and what it is answered where so many of those lines were.
const LATER_LINES: &str = "show wheel\nstep 0\n";

const LATER_REPLIES: [&str; 7] = [
    "wheel -\nok at 1\n",
    "wheel -\nok at 1\n",
    "wheel -\nok at 2\n",
    "wheel -\nok at 2\n",
    "wheel -\nok at 3\n",
    "wheel -\nok at 2\n",
    "wheel -\nok at 2\n",
];

// What is asked and answered where a read fails behind so many others.
#[derive(Drop)]
struct ReadFaultCase {
    reads: usize,
    script: Vec<u8>,
    answered: usize,
    asked: Vec<u8>,
    replies: Vec<u8>,
}

impl ReadFaultCase {
    fn new(alloc: Global, reads: usize) -> Result<ReadFaultCase, AllocError> {
        let script = first_of(alloc, &LINES, 6)?;
        let read = script.len().min(reads.saturating_mul(CHUNK));
        let answered = whole_lines(&script.as_slice()[..read]);
        Ok(ReadFaultCase {
            reads,
            answered,
            asked: first_of(alloc, &LINES, answered)?,
            replies: first_of(alloc, &REPLIES, answered)?,
            script,
        })
    }

    // What session 2 is answered.
    fn later_replies(&self) -> &'static [u8] {
        LATER_REPLIES[self.answered.min(6)].as_bytes()
    }
}

// Session 1 is answered the lines that were whole when its read failed, and reads no more.
fn read_until_a_fault<L: Setup, H: Wait + Abort + AllocGlobal>(
    rt: &H,
    hall: &Hall<L>,
    passes: &mut Vec<Pass<L>>,
    case: &ReadFaultCase,
) -> Gone<L> {
    let mut reader = MemorySource::new(case.script.as_slice());
    reader.chunk = CHUNK;
    reader.reads = case.reads;
    let mut source = Over::new(reader);
    let mut sink = Over::new(Vec::new(rt.alloc()));
    let gone = attend(rt, hall, passes, &mut source, &mut sink, &mut NoGate);
    assert_same(rt, source.inner.calls, case.reads.saturating_add(1));
    assert_same(rt, source.faults, 1);
    assert_same(rt, sink.inner.as_slice(), case.replies.as_slice());
    gone
}

// Session 2 finds the wheel free, and steps.
fn step_later<L: Setup, H: Wait + Abort + AllocGlobal>(
    rt: &H,
    hall: &Hall<L>,
    passes: &mut Vec<Pass<L>>,
    case: &ReadFaultCase,
) -> Gone<L> {
    let mut source = Over::new(MemorySource::new(LATER_LINES.as_bytes()));
    let mut sink = Over::new(Vec::new(rt.alloc()));
    let gone = attend(rt, hall, passes, &mut source, &mut sink, &mut NoGate);
    assert_same(rt, sink.inner.as_slice(), case.later_replies());
    gone
}

fn assert_session(rt: &impl Abort, session: &SessionTranscript, asked: &[u8], replies: &[u8]) {
    assert_same(rt, session.asked.as_slice(), asked);
    assert_same(rt, session.replies.as_slice(), replies);
}

// Both sessions, and their history: who came, the lines that were answered, and who left.
fn fail_a_read<L: Setup, H: Wait + Abort + AllocGlobal>(
    rt: &H,
    blank: Blank,
    app: App,
    reads: usize,
) -> Result<(), Fail>
    requires name { blank.name ≡ L.name }
    requires parts { (blank.parts ≡ L.parts) × (blank.parts ≡ MAX_JOINS + 1) }
    requires app { app ≡ L.app }
    requires moves { L.most_moves ≡ 10 }
    requires entries { L.most_entries ≡ 20 }
{
    let case = ReadFaultCase::new(rt.alloc(), reads)?;
    let mut gones = Vec::with_capacity(rt.alloc(), 2)?;
    let limits = Limits {
        moves: 10,
        history: 20,
    };
    let (hall, mut passes) = Hall::<L>::open(rt.alloc(), blank, app, limits)?;
    gones.push_reserved(read_until_a_fault(rt, &hall, &mut passes, &case));
    gones.push_reserved(step_later(rt, &hall, &mut passes, &case));
    let Ok(closed) = hall.finish(gones) else {
        panic!(rt; "the history isn't theirs");
    };
    assert_same(rt, closed.entries(), case.answered.saturating_add(6));
    let sessions = all_sessions(rt, &closed)?;
    let [first, later] = sessions.as_slice() else {
        panic!(rt; "there aren't two sessions");
    };
    assert_session(rt, first, case.asked.as_slice(), case.replies.as_slice());
    assert_session(rt, later, LATER_LINES.as_bytes(), case.later_replies());
    Ok(())
}

// What a read that fails leaves, each of them in turn: the lines that were whole are answered, no
// read is tried again, nobody has the wheel whose read has failed, and the history has just the
// entries of the lines that were answered. Shows `session`: `heard` (`ReadFailed`, `faults`,
// `reads`), and `Hall::finish`: `accounted`; that who has failed has left is only tested.
#[test]
fn each_read_fails_in_a_hall(rt: HostRuntime) -> Result<(), Fail> {
    for reads in 0..9 {
        let app = App::builtin(rt.alloc())?;
        let blank = Blank::new(MAX_JOINS as u64 + 1);
        fail_a_read::<Brand, HostRuntime>(&rt, blank, app, reads)?;
    }
    Ok(())
}
