//! Sessions over connections, whose turns are made by their gate; and connections that bring none.

ghost use Rattle.std.specs.Prelude.{◌≡◌, ◌+◌};
ghost use Rattle.rd_desk.specs.declared.sessions.TheConstants.{MAX_JOINS};

use crate::asserts::assert_same;
use crate::connections::{ask, connect, here};
use rd_desk::limits::Limits;
use rd_desk::sessions::MAX_JOINS;
use rd_hall::hall::Hall;
use rd_hall::seat::Pass;
use rd_hall::setup::Setup;
use rd_names::app::App;
use rd_net::net::{Served, serve_net};
use rd_session::gate::{Gate, NoGate};
use std::alloc::{AllocGlobal, Global};
use std::io::{Read, Write};
use std::marker::Brand;
use std::net::{Net, Shutdown, TcpListener, TcpStream};
use std::process::Abort;
use std::sync::Wait;
use std::sync::atomic::{AtomicU64, Ordering};
use std::sync::ledger::Blank;
use std::test::Fail;
use std::thread;
use std::thread::Threads;
use std::time::{Clock, Duration};

// Whose line has which turn: the session, and the number of its line.
const TURNS: [(u32, u64); 5] = [(1, 1), (2, 1), (2, 2), (1, 2), (1, 3)];

// The turn of a line, counted from 1. A line that has none comes last.
fn turn_of(who: u32, line: u64) -> u64 {
    let mut turn = 1;
    for (session, number) in &TURNS {
        if *session == who && *number == line {
            return turn;
        }
        turn = turn.saturating_add(1);
    }
    turn
}

// How many turns are over, and whether session 1 has come.
#[derive(Drop)]
struct TurnMarks {
    turns: AtomicU64,
    first_came: AtomicU64,
}

// Holds each line until it is its turn.
#[derive_where(Clone, Copy)]
struct InTurn<'a, H> {
    rt: &'a H,
    marks: &'a TurnMarks,
}

impl<H: Abort + Clock> InTurn<'_, H> {
    // The line is answered: its turn is over, if that isn't known yet.
    fn end(&self, who: u32, line: u64) {
        let turn = turn_of(who, line);
        let _ = self.marks.turns.compare_exchange(
            turn.saturating_sub(1),
            turn,
            Ordering::SeqCst,
            Ordering::SeqCst,
        );
    }
}

// Waits until so much has happened, at most 10,000 turns of a millisecond.
fn wait_for<H: Abort + Clock>(rt: &H, mark: &AtomicU64, count: u64) {
    for _ in 0..10_000u32 {
        if mark.load(Ordering::SeqCst) >= count {
            return;
        }
        thread::sleep(rt, Duration::from_millis(1));
    }
    panic!(rt; "it never happened");
}

impl<H: Abort + Clock> Gate for InTurn<'_, H> {
    ghost use Rattle.std.specs.Prelude.{None};

    ghost calls = { λ gate. None };

    // (answers are gathered, so that a line which waits here says that the one before it is
    // answered)
    fn before(&mut self, who: u32, line: u64) {
        if who == 1 {
            self.marks.first_came.store(1, Ordering::SeqCst);
        }
        if line > 1 {
            self.end(who, line.saturating_sub(1));
        }
        wait_for(
            self.rt,
            &self.marks.turns,
            turn_of(who, line).saturating_sub(1),
        );
    }

    fn after(&mut self, who: u32, line: u64) {
        self.end(who, line);
    }
}

// Sends all lines at once, and reads just this until the connection ends.
fn talk(rt: &impl Abort, alloc: Global, stream: &TcpStream, lines: &str, answers: &str) {
    let mut sink = stream;
    assert!(rt;
        sink.write_all(lines.as_bytes()).is_ok(),
        "the connection takes nothing"
    );
    assert!(rt;
        stream.shutdown(Shutdown::Write).is_ok(),
        "the connection has no end"
    );
    let mut received = Vec::new(alloc);
    let mut source = stream;
    assert!(rt;
        source.read_to_end(&mut received).is_ok(),
        "the connection breaks"
    );
    assert_same(rt, received.as_slice(), answers.as_bytes());
}

// One takes the wheel, and looks at what it did.
fn hold<H: Net<Stream = TcpStream> + Clock + Abort>(rt: &H, alloc: Global, port: u16) {
    let lines = "wheel take\npoke reg t0 0 7\nshow task t0\n";
    let answers = "ok wheel\nok at 1\n\
         task t0 core 0 pc 0 phase run regs 7,0,0,0,0,0,0,0 data - notes 0:idle\n";
    talk(rt, alloc, &connect(rt, port), lines, answers);
}

// Another, which comes later, is held, and sees who has it.
fn be_held<H>(rt: &H, alloc: Global, port: u16, marks: &TurnMarks)
where
    H: Net<Stream = TcpStream> + Clock + Abort,
{
    wait_for(rt, &marks.first_came, 1);
    let stream = connect(rt, port);
    talk(
        rt,
        alloc,
        &stream,
        "step 0\nshow wheel\n",
        "no Held 1\nwheel 1\n",
    );
}

// How many faults there were, how many sessions have joined, and what the audit says.
type Account = (u32, usize, usize);

// Serves both, each in its turns.
fn serve_in_turn<L: Setup + Send + Sync, H>(
    rt: &H,
    alloc: Global,
    hall: &Hall<L>,
    passes: Vec<Pass<L>>,
    listener: TcpListener,
    port: u16,
) -> Served<L>
where
    H: Abort + Wait + Sync + Threads + Clock,
    H: Net<Listener = TcpListener, Stream = TcpStream>,
{
    let marks = TurnMarks {
        turns: AtomicU64::new(0),
        first_came: AtomicU64::new(0),
    };
    let shared = &marks;
    thread::scope(thread::scope_env(), rt, |scope| {
        let one = scope.spawn(move || hold(rt, alloc, port));
        let two = scope.spawn(move || be_held(rt, alloc, port, shared));
        assert!(rt; one.is_ok() && two.is_ok(), "there is no thread");
        let gate = InTurn { rt, marks: shared };
        serve_net(rt, alloc, listener, hall, passes, gate)
    })
}

// Clients that come while the first session is there, which steps before them and behind them.
#[derive(Clone, Copy, PartialEq, Eq)]
enum Guest {
    // It ends its connection at once.
    EndsAtOnce,
    // The history has no place for it.
    FindsNoPlace,
}

fn come_by<H: Net<Stream = TcpStream> + Clock + Abort>(
    rt: &H,
    alloc: Global,
    port: u16,
    guest: Guest,
) {
    let first = connect(rt, port);
    ask(rt, &first, "step 0\n", "ok at 1\n");
    match guest {
        Guest::EndsAtOnce => {
            drop(connect(rt, port));
            ask(rt, &first, "step 0\n", "ok at 2\n");
        }
        Guest::FindsNoPlace => {
            talk(
                rt,
                alloc,
                &connect(rt, port),
                "step 0\n",
                "no HistoryFull\n",
            );
            ask(rt, &first, "step 0\n", "no HistoryFull\n");
        }
    }
}

// Serves the first, and the guest.
fn serve_guest<L: Setup + Send + Sync, H>(
    rt: &H,
    alloc: Global,
    hall: &Hall<L>,
    passes: Vec<Pass<L>>,
    listener: TcpListener,
    port: u16,
    guest: Guest,
) -> Served<L>
where
    H: Abort + Wait + Sync + Threads + Clock,
    H: Net<Listener = TcpListener, Stream = TcpStream>,
{
    let (served, ()) = thread::join(
        rt,
        move || serve_net(rt, alloc, listener, hall, passes, NoGate),
        move || come_by(rt, alloc, port, guest),
    );
    served
}

// Two connections: with a guest, or in turns.
fn serve_two<L: Setup + Send + Sync, H>(
    rt: &H,
    alloc: Global,
    blank: Blank,
    app: App,
    listener: TcpListener,
    history: u32,
    guest: Option<Guest>,
) -> Option<Account>
where
    H: Abort + Wait + Sync + Threads + Clock,
    H: Net<Listener = TcpListener, Stream = TcpStream>,
    requires name { blank.name ≡ L.name }
    requires parts { (blank.parts ≡ L.parts) × (blank.parts ≡ MAX_JOINS + 1) }
    requires app { app ≡ L.app }
    requires moves { L.most_moves ≡ 100 }
    requires entries { L.most_entries ≡ history }
{
    let limits = Limits {
        moves: 100,
        history,
    };
    let port = listener.local_addr().ok()?.port();
    let (hall, mut passes) = Hall::<L>::open(alloc, blank, app, limits).ok()?;
    passes.truncate(2);
    let Served { gone, faults } = match guest {
        Some(guest) => serve_guest(rt, alloc, &hall, passes, listener, port, guest),
        None => serve_in_turn(rt, alloc, &hall, passes, listener, port),
    };
    let sessions = gone.len();
    let closed = hall.finish(gone).ok()?;
    Some((faults, sessions, closed.entries()))
}

fn serve<H>(rt: &H, history: u32, guest: Option<Guest>) -> Result<Option<Account>, Fail>
where
    H: AllocGlobal + Abort + Wait + Sync + Threads + Clock,
    H: Net<Listener = TcpListener, Stream = TcpStream>,
{
    let app = App::builtin(rt.alloc())?;
    let listener = TcpListener::bind(rt, here(0))?;
    let blank = Blank::new(MAX_JOINS as u64 + 1);
    Ok(serve_two::<Brand, H>(rt, rt.alloc(), blank, app, listener, history, guest))
}

// `serve_net` over two connections, whose lines are answered in the order that the gate makes: two
// joins, five lines, two leaves.
#[test]
fn the_wheel(rt: HostRuntime) -> Result<(), Fail> {
    let account = serve(&rt, 100, None)?;
    assert_same(&rt, account, Some((0, 2, 9)));
    Ok(())
}

// Who ends a connection at once was a session all the same. No contract says what a connection
// carried: it is only tested.
#[test]
fn ends_at_once(rt: HostRuntime) -> Result<(), Fail> {
    let account = serve(&rt, 100, Some(Guest::EndsAtOnce))?;
    assert_same(&rt, account, Some((0, 2, 6)));
    Ok(())
}

// Who finds the history full is told so, also when its lines are on their way, and counts as one
// fault. Shows `Hall::join`: `refused`; what the connection is told is only tested.
#[test]
fn finds_no_place(rt: HostRuntime) -> Result<(), Fail> {
    let account = serve(&rt, 3, Some(Guest::FindsNoPlace))?;
    assert_same(&rt, account, Some((1, 1, 3)));
    Ok(())
}
