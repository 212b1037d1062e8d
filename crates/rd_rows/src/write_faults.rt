//! Sessions of a hall whose writes fail, at each byte in turn.

ghost use Rattle.std.specs.Prelude.{◌≡◌, ◌+◌};
ghost use Rattle.rd_desk.specs.declared.sessions.TheConstants.{MAX_JOINS};

use crate::asserts::assert_same;
use crate::attending::{attend, first_of, whole_lines};
use crate::counting::{CountingGate, TellingWriter};
use crate::memory::{LineByLine, Narrow};
use crate::receipts::all_sessions;
use rd_desk::limits::Limits;
use rd_desk::sessions::MAX_JOINS;
use rd_ends::over::Over;
use rd_hall::hall::Hall;
use rd_hall::seat::{Gone, Pass};
use rd_hall::setup::Setup;
use rd_names::app::App;
use std::alloc::{AllocError, AllocGlobal, Global};
use std::marker::Brand;
use std::process::Abort;
use std::sync::Wait;
use std::sync::atomic::AtomicU64;
use std::sync::ledger::Blank;
use std::test::Fail;

// What is asked, and what is answered where nothing fails.
const LINES: [&str; 6] = [
    "step 0\n",
    "wheel take\n",
    "show queue q0\n",
    "back 1\n",
    "step 1\n",
    "show moves\n",
];

const REPLIES: [&str; 6] = [
    "ok at 1\n",
    "ok wheel\n",
    "queue q0 0/2 items - recv - send - set -\n",
    "ok at 0\n",
    "no NoSuch\n",
    "moves 0 undone 1 kept 0\n",
];

// How the lines are read: one by one, and each answer is a write of its own; or all by one read,
// and one write has all answers.
#[derive(Clone, Copy, PartialEq, Eq)]
enum By {
    Lines,
    OneRead,
}

// What comes of a session that has room for so many bytes of its answers, and not for all.
#[derive(Drop)]
struct WriteFaultCase {
    by: By,
    room: usize,
    script: Vec<u8>,
    texts: Vec<u8>,
    // the lines whose answers were written by writes that didn't fail
    told: usize,
    asked: usize,
    reads: usize,
    writes: usize,
}

impl WriteFaultCase {
    fn new(alloc: Global, by: By, room: usize) -> Result<WriteFaultCase, AllocError> {
        let texts = first_of(alloc, &REPLIES, 6)?;
        let out = &texts.as_slice()[..room.min(texts.len())];
        let whole = whole_lines(out);
        let is_amid = !out.is_empty() && !out.ends_with(b"\n");
        let told = match by {
            By::Lines => whole,
            By::OneRead => 0,
        };
        // (a write that finds some room takes it, and the next one fails)
        let writes = match by {
            By::Lines => whole.saturating_add(usize::from(is_amid)),
            By::OneRead => usize::from(!out.is_empty()),
        };
        Ok(WriteFaultCase {
            by,
            room,
            script: first_of(alloc, &LINES, 6)?,
            told,
            asked: match by {
                By::Lines => whole.saturating_add(1),
                By::OneRead => 6,
            },
            reads: match by {
                By::Lines => whole.saturating_add(1),
                By::OneRead => 1,
            },
            writes: writes.saturating_add(1),
            texts,
        })
    }
}

// The session is written as much as there is room for, reads no more then, and asks no line more.
fn write_until_a_fault<L: Setup, H: Wait + Abort + AllocGlobal>(
    rt: &H,
    hall: &Hall<L>,
    passes: &mut Vec<Pass<L>>,
    case: &WriteFaultCase,
) -> Gone<L> {
    let lines_out = AtomicU64::new(0);
    let mut gate = CountingGate::new(rt, 1, &lines_out);
    let mut source = Over::new(LineByLine {
        rest: case.script.as_slice(),
        calls: 0,
        is_whole: case.by == By::OneRead,
    });
    let mut sink = Over::new(TellingWriter {
        narrow: Narrow::new(Vec::new(rt.alloc()), case.room),
        lines_out: &lines_out,
    });
    let gone = attend(rt, hall, passes, &mut source, &mut sink, &mut gate);
    let out = &case.texts.as_slice()[..case.room.min(case.texts.len())];
    assert_same(rt, sink.inner.narrow.bytes.as_slice(), out);
    assert_same(rt, sink.inner.narrow.writes, case.writes);
    assert_same(rt, sink.faults, 1);
    assert_same(rt, source.inner.calls, case.reads);
    assert_same(rt, gate.begun, case.asked as u64);
    assert_same(rt, gate.told, case.told as u64);
    gone
}

// The history has each line that was asked, with its reply.
fn fail_a_write<L: Setup, H: Wait + Abort + AllocGlobal>(
    rt: &H,
    blank: Blank,
    app: App,
    by: By,
    room: usize,
) -> Result<(), Fail>
    requires name { blank.name ≡ L.name }
    requires parts { (blank.parts ≡ L.parts) × (blank.parts ≡ MAX_JOINS + 1) }
    requires app { app ≡ L.app }
    requires moves { L.most_moves ≡ 10 }
    requires entries { L.most_entries ≡ 10 }
{
    let case = WriteFaultCase::new(rt.alloc(), by, room)?;
    let asked = first_of(rt.alloc(), &LINES, case.asked)?;
    let replies = first_of(rt.alloc(), &REPLIES, case.asked)?;
    let mut gones = Vec::with_capacity(rt.alloc(), 1)?;
    let limits = Limits {
        moves: 10,
        history: 10,
    };
    let (hall, mut passes) = Hall::<L>::open(rt.alloc(), blank, app, limits)?;
    gones.push_reserved(write_until_a_fault(rt, &hall, &mut passes, &case));
    let Ok(closed) = hall.finish(gones) else {
        panic!(rt; "the history isn't the session's");
    };
    assert_same(rt, closed.entries(), case.asked.saturating_add(2));
    let sessions = all_sessions(rt, &closed)?;
    let [session] = sessions.as_slice() else {
        panic!(rt; "there isn't one session");
    };
    assert_same(rt, session.asked.as_slice(), asked.as_slice());
    assert_same(rt, session.replies.as_slice(), replies.as_slice());
    Ok(())
}

// Wherever there is no room for more.
fn fail_each_write<H: Wait + Abort + AllocGlobal>(rt: &H, by: By) -> Result<(), Fail> {
    let len = first_of(rt.alloc(), &REPLIES, 6)?.len();
    for room in 0..len {
        let app = App::builtin(rt.alloc())?;
        let blank = Blank::new(MAX_JOINS as u64 + 1);
        fail_a_write::<Brand, H>(rt, blank, app, by, room)?;
    }
    Ok(())
}

// What a write that fails leaves, each of them in turn, at once or amid its bytes: the beginning of
// the texts is out, each command that was served is in the history with its receipt, no line is
// asked behind the first whose answer isn't wholly out, and the gate isn't told of that line. Shows
// `session`: `heard` (`BreaksOff`: `out`, `unsaid`, `called`), and `Hall::finish`: `accounted`.
#[test]
fn each_write_fails_in_a_hall(rt: HostRuntime) -> Result<(), Fail> {
    fail_each_write(&rt, By::Lines)
}

// The same where one write has all answers: all lines were asked before it, and the gate is told of
// none. Shows `session`: `heard` (`BreaksOff`: `lost`, `called`), and `Hall::finish`: `accounted`.
#[test]
fn the_one_write_fails_in_a_hall(rt: HostRuntime) -> Result<(), Fail> {
    fail_each_write(&rt, By::OneRead)
}
