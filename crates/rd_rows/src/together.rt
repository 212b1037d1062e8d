//! Two sessions at once: on threads over memory, in an order that only holds where neither waits
//! for the other's reads.

ghost use Rattle.std.specs.Prelude.{◌≡◌, ◌+◌};
ghost use Rattle.rd_desk.specs.declared.sessions.TheConstants.{MAX_JOINS};

use crate::asserts::assert_same;
use crate::counting::{CountingGate, TellingWriter};
use crate::memory::{Narrow, first_len};
use rd_desk::limits::Limits;
use rd_desk::sessions::MAX_JOINS;
use rd_ends::ends::{ByteSource, ReadFault};
use rd_ends::over::Over;
use rd_hall::hall::Hall;
use rd_hall::seat::{Gone, Pass, Seat};
use rd_hall::setup::Setup;
use rd_names::app::App;
use rd_session::buffers::Buffers;
use rd_session::gate::Gate;
use rd_session::session::session;
use std::alloc::{AllocGlobal, Global};
use std::marker::Brand;
use std::process::Abort;
use std::sync::Wait;
use std::sync::atomic::{AtomicU64, Ordering};
use std::sync::ledger::Blank;
use std::test::Fail;
use std::thread;
use std::thread::Threads;
use std::time::{Clock, Duration};

// What has happened so far.
#[derive(Drop)]
struct SessionMarks {
    first_joined: AtomicU64,
    first_reads: AtomicU64,
    second_answered: AtomicU64,
}

impl SessionMarks {
    fn new() -> SessionMarks {
        SessionMarks {
            first_joined: AtomicU64::new(0),
            first_reads: AtomicU64::new(0),
            second_answered: AtomicU64::new(0),
        }
    }
}

fn set(mark: &AtomicU64) {
    mark.store(1, Ordering::SeqCst);
}

// Waits for something to happen, at most 10,000 turns of a millisecond.
fn wait_for<H: Abort + Clock>(rt: &H, mark: &AtomicU64) {
    for _ in 0..10_000u32 {
        if mark.load(Ordering::SeqCst) != 0 {
            return;
        }
        thread::sleep(rt, Duration::from_millis(1));
    }
    panic!(rt; "it never happened");
}

// Where session 1 waits for session 2: at its gate, or at its reads.
#[derive(Clone, Copy, PartialEq, Eq)]
enum WaitingPoint {
    Gate,
    Reads,
}

// Session 1 isn't let past its first line until session 2 has answered its own. Each session has a
// gate of its own, which fails unless it is called in order, and after an answer that is out.
#[derive(Drop)]
struct Turns<'a, H> {
    rt: &'a H,
    marks: &'a SessionMarks,
    at: WaitingPoint,
    counting: CountingGate<'a, H>,
}

impl<H: Abort + Clock> Gate for Turns<'_, H> {
    ghost use Rattle.std.specs.Prelude.{None};

    ghost calls = { λ gate. None };

    fn before(&mut self, who: u32, line: u64) {
        self.counting.before(who, line);
        if self.at == WaitingPoint::Gate && who == 1 && line == 1 {
            wait_for(self.rt, &self.marks.second_answered);
        }
    }

    fn after(&mut self, who: u32, line: u64) {
        self.counting.after(who, line);
        if who == 2 && line == 1 {
            set(&self.marks.second_answered);
        }
    }
}

// Gives a line a read. Its reads wait as `at` says.
#[derive(Drop)]
struct WaitingLines<'a, H> {
    rt: &'a H,
    marks: &'a SessionMarks,
    at: WaitingPoint,
    is_first: bool,
    reads: u64,
    ends: u64,
    rest: &'a [u8],
}

impl<H: Abort + Clock> WaitingLines<'_, H> {
    // Waits before a read, where it is one that waits.
    fn wait(&self) {
        if self.at == WaitingPoint::Gate {
            return;
        }
        if self.is_first && self.reads == 1 {
            set(&self.marks.first_reads);
            wait_for(self.rt, &self.marks.second_answered);
        }
        if !self.is_first && self.reads == 1 {
            wait_for(self.rt, &self.marks.first_reads);
        }
        if !self.is_first && self.reads == 2 {
            wait_for(self.rt, &self.marks.second_answered);
        }
    }
}

impl<H: Abort + Clock> ByteSource for WaitingLines<'_, H> {
    ghost use Rattle.std.specs.Prelude.{None};

    ghost seen = { λ l. record {
      remaining = None;
      reads = l.reads;
      ends = l.ends;
      faults = 0;
    } };

    fn read(&mut self, room: &mut [u8]) -> Result<usize, ReadFault> {
        self.reads += 1;
        self.wait();
        let count = first_len(self.rest).min(room.len()).min(self.rest.len());
        if count == 0 {
            self.ends += 1;
        }
        let (now, later) = self.rest.split_at(count);
        room[..count].copy_from_slice(now);
        self.rest = later;
        Ok(count)
    }
}

// Which session it is, and what it asks.
#[derive(Clone, Copy)]
struct Client<'a> {
    is_first: bool,
    text: &'a [u8],
}

// Joins once it may, and says so.
fn enter<L: Setup, H: Wait + Abort + Clock>(
    rt: &H,
    hall: &Hall<L>,
    pass: Pass<L>,
    marks: &SessionMarks,
    is_first: bool,
) -> Option<Seat<L>> {
    if !is_first {
        wait_for(rt, &marks.first_joined);
    }
    let Ok(seat) = hall.join(rt, pass) else {
        return None;
    };
    if is_first {
        set(&marks.first_joined);
    }
    Some(seat)
}

// Joins, answers lines, and leaves. All answers have passed the gate by then.
fn attend<'a, L: Setup, H: Wait + Abort + Clock>(
    rt: &'a H,
    alloc: Global,
    hall: &Hall<L>,
    pass: Pass<L>,
    marks: &'a SessionMarks,
    at: WaitingPoint,
    client: Client<'_>,
) -> Option<(Gone<L>, Vec<u8>)> {
    let mut buffers = Buffers::new(alloc).ok()?;
    let seat = enter(rt, hall, pass, marks, client.is_first)?;
    let lines_out = AtomicU64::new(0);
    let mut turns = Turns {
        rt,
        marks,
        at,
        counting: CountingGate::new(rt, seat.who(), &lines_out),
    };
    let mut lines = WaitingLines {
        rt,
        marks,
        at,
        is_first: client.is_first,
        reads: 0,
        ends: 0,
        rest: client.text,
    };
    let mut sink = Over::new(TellingWriter {
        narrow: Narrow::new(Vec::new(alloc), usize::MAX),
        lines_out: &lines_out,
    });
    let gone = session(
        rt,
        &mut lines,
        &mut sink,
        hall,
        seat,
        &mut turns,
        &mut buffers,
    );
    assert_same(rt, turns.counting.told, 2);
    Some((gone, sink.inner.narrow.bytes))
}

// What two sessions were answered, and how many entries the audit has.
#[derive(Drop)]
struct BothTold {
    first: Vec<u8>,
    second: Vec<u8>,
    entries: usize,
}

// Two sessions of a hall, each on a thread, and what each was answered.
fn attend_both<L: Setup + Send + Sync, H: Threads + Wait + Sync + Abort + Clock>(
    rt: &H,
    alloc: Global,
    hall: &Hall<L>,
    one: Pass<L>,
    two: Pass<L>,
    at: WaitingPoint,
) -> (Option<(Gone<L>, Vec<u8>)>, Option<(Gone<L>, Vec<u8>)>) {
    let marks = SessionMarks::new();
    let shared = &marks;
    let first = Client {
        is_first: true,
        text: b"show moves\nshow wheel\n",
    };
    let second = Client {
        is_first: false,
        text: b"show wheel\nshow moves\n",
    };
    thread::join(
        rt,
        move || attend(rt, alloc, hall, one, shared, at, first),
        move || attend(rt, alloc, hall, two, shared, at, second),
    )
}

// Two sessions beside each other. No pass is left behind.
fn beside<L: Setup + Send + Sync, H: Threads + Wait + Sync + Abort + Clock>(
    rt: &H,
    alloc: Global,
    blank: Blank,
    app: App,
    at: WaitingPoint,
) -> Option<BothTold>
    requires name { blank.name ≡ L.name }
    requires parts { (blank.parts ≡ L.parts) × (blank.parts ≡ MAX_JOINS + 1) }
    requires app { app ≡ L.app }
    requires moves { L.most_moves ≡ 100 }
    requires entries { L.most_entries ≡ 100 }
{
    let Ok(mut gones) = Vec::with_capacity(alloc, 2) else {
        return None;
    };
    let limits = Limits {
        moves: 100,
        history: 100,
    };
    let Ok((hall, mut passes)) = Hall::<L>::open(alloc, blank, app, limits) else {
        return None;
    };
    let one = passes.pop().unwrap();
    let two = passes.pop().unwrap();
    let (first, second) = attend_both(rt, alloc, &hall, one, two, at);
    let told = match (first, second) {
        (Some((one, first)), Some((two, second))) => {
            gones.push_reserved(one);
            gones.push_reserved(two);
            Some((first, second))
        }
        _ => None,
    };
    let closed = hall.finish(gones).ok()?;
    let (first, second) = told?;
    Some(BothTold {
        first,
        second,
        entries: closed.entries(),
    })
}

// Both were answered, and the audit has all: two joins, four views, two leaves.
fn assert_beside<H: Abort>(rt: &H, told: Option<BothTold>) {
    let Some(told) = told else {
        panic!(rt; "a session wasn't let in, or the history isn't theirs");
    };
    assert_same(
        rt,
        told.first.as_slice(),
        b"moves 0 undone 0 kept 0\nwheel -\n".as_slice(),
    );
    assert_same(
        rt,
        told.second.as_slice(),
        b"wheel -\nmoves 0 undone 0 kept 0\n".as_slice(),
    );
    assert_same(rt, told.entries, 8);
}

// Sessions run beside each other: while one is held at its gate, another is answered.
#[test]
fn held_at_the_gate(rt: HostRuntime) -> Result<(), Fail> {
    let app = App::builtin(rt.alloc())?;
    let blank = Blank::new(MAX_JOINS as u64 + 1);
    let told = beside::<Brand, HostRuntime>(&rt, rt.alloc(), blank, app, WaitingPoint::Gate);
    assert_beside(&rt, told);
    Ok(())
}

// No line waits for another session's reads.
#[test]
fn held_at_the_reads(rt: HostRuntime) -> Result<(), Fail> {
    let app = App::builtin(rt.alloc())?;
    let blank = Blank::new(MAX_JOINS as u64 + 1);
    let told = beside::<Brand, HostRuntime>(&rt, rt.alloc(), blank, app, WaitingPoint::Reads);
    assert_beside(&rt, told);
    Ok(())
}
