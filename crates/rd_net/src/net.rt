//! Sessions over connections, each on a thread of its own.

ghost use Rattle.std.specs.Prelude.{◌≡◌, ◌+◌, ◌-◌, ◌^◌, ◌⊎◌, ◌∷◌, ◌++◌, [], min};
ghost use Rattle.rd_hall.specs.Seats.{Joined};
ghost use Rattle.rd_net.specs.Attending.{AttendedOver};

use crate::caller::{Caller, LAST_MILLIS, hang_up, turn_away};
use crate::crew::Crew;
use crate::table::{Table, Visit};
use rd_desk::desk::EnterError;
use rd_ends::over::Over;
use rd_hall::hall::Hall;
use rd_hall::seat::{Gone, Pass, Seat};
use rd_hall::setup::Setup;
use rd_session::buffers::Buffers;
use rd_session::gate::Gate;
use rd_session::session::session;
use std::alloc::{AllocError, Global};
use std::io::ErrorKind;
use std::net::{TcpListener, TcpStream};
use std::sync::Wait;
use std::thread::{JoinHandle, SpawnError, Threads};
use std::time::{Clock, Duration};
use std::{io, thread};

// Milliseconds between two tries to accept a connection.
const PAUSE_MILLIS: u64 = 10;

// Tries to accept a connection without a descriptor, while no session is open, before the attempt is
// given up.
const MAX_IDLE_TRIES: u32 = 10;

/// The result of serving connections.
#[derive(Drop)]
pub struct Served<L: Setup> {
    /// The sessions that joined, as they left.
    pub gone: Vec<Gone<L>>,
    /// Attempts to accept a connection that ended without a session.
    pub faults: u32,
}

impl<L: Setup> Served<L> {
    // Counts one fault. The count stays at its largest value.
    pub(crate) fn count_fault(&mut self)
        ensures gone { self.new.gone ≡ self.old.gone }
        ensures faults { self.new.faults ≡ min (self.old.faults + 1) (2 ^ 32 - 1) }
    {
        self.faults = self.faults.saturating_add(1);
    }

    // Adds a session that has left, or counts a fault if there is no memory for it.
    pub(crate) fn keep(&mut self, gone: Gone<L>)
        ensures { ((self.new.gone.items ≡ self.old.gone.items ++ gone ∷ [])
            × (self.new.faults ≡ self.old.faults))
            ⊎ ((self.new.gone.items ≡ self.old.gone.items)
            × (self.new.faults ≡ min (self.old.faults + 1) (2 ^ 32 - 1))) }
    {
        if self.gone.push(gone).is_err() {
            self.count_fault();
        }
    }
}

/// Makes one attempt per pass to accept a connection, and serves a session over each accepted
/// connection, on a thread of its own and with its own copy of the gate. Returns when all sessions
/// have ended.
///
/// Each attempt that ends without a session counts as one fault:
/// - the connection was gone before it could be accepted;
/// - the session may not join, or there is no memory or no thread for it. The client is sent
///   `no Full`, `no HistoryFull` or `no NoMemory`. After a thread was refused, the next attempt
///   starts once a session has ended and its thread was joined, if a session is open;
/// - no descriptor was free for it at ten tries made while no session was open.
///
/// An attempt that finds no free descriptor while a session is open waits until a session has ended
/// and is tried again. If it then succeeds, it counts nothing.
///
/// After the last attempt the listener is closed, so the system refuses further connections. The
/// memory for all sessions is allocated first. If it is refused, nothing is accepted and each pass
/// counts as a fault.
pub fn serve_net<L: Setup + Send + Sync, R, G: Gate + Copy + Send + Sync>(
    rt: &R,
    alloc: Global,
    listener: TcpListener,
    hall: &Hall<L>,
    passes: Vec<Pass<L>>,
    gate: G,
) -> Served<L>
where
    R: Threads + Wait + Sync + Clock,
{
    let count = passes.len();
    let Ok((table, crew)) = prepare(alloc, count) else {
        return Served {
            gone: Vec::new(alloc),
            faults: u32::try_from(count).unwrap_or(u32::MAX),
        };
    };
    let shared = &table;
    thread::scope(thread::scope_env(), rt, |scope| {
        let mut crew = crew;
        for pass in passes {
            let Some(stream) = accept(rt, &listener, shared, &mut crew) else {
                continue;
            };
            shared.begin(rt);
            let number = crew.next();
            let caller = Caller::new(rt, stream);
            let spawned = scope.spawn(move || serve_caller(
                rt, alloc, caller, hall, pass, gate, shared, number,
            ));
            settle(rt, shared, &mut crew, spawned);
        }
        drop(listener);
    });
    table.into_served()
}

// Allocates the tables for `count` sessions and their threads.
fn prepare<L: Setup>(alloc: Global, count: usize) -> Result<(Table<L>, Crew), AllocError> {
    let table = Table::new(alloc, count)?;
    let crew = Crew::new(alloc, count)?;
    Ok((table, crew))
}

// Accepts the next connection. Returns `None`, counted as one fault, if the connection was gone
// before it could be accepted, or if no descriptor was free at `MAX_IDLE_TRIES` tries made while no
// session was open. While a session is open, a try without a descriptor (or memory) counts nothing:
// the next one is made once a session has ended.
fn accept<L: Setup, R: Threads + Wait + Clock>(
    rt: &R,
    listener: &TcpListener,
    table: &Table<L>,
    crew: &mut Crew,
) -> Option<TcpStream> {
    let mut idle_tries = 0_u32;
    for _try in rt.forever() {
        let is_idle = table.is_idle(rt);
        let accepted = listener.accept();
        crew.join_ended(rt, table);
        let error = match accepted {
            Ok((stream, _)) => return Some(stream),
            Err(error) => error,
        };
        idle_tries = idle_tries.saturating_add(u32::from(is_idle));
        if error.kind() == ErrorKind::ConnectionAborted || idle_tries >= MAX_IDLE_TRIES {
            break;
        }
        table.await_end(rt);
        crew.join_ended(rt, table);
        thread::sleep(rt, Duration::from_millis(PAUSE_MILLIS));
    }
    table.fail(rt);
    None
}

// Records the thread that serves a connection. If there is none, dropping the closure turns the
// connection away, and the next attempt waits for a session to end.
fn settle<L: Setup, R: Threads + Wait, F: Drop>(
    rt: &R,
    table: &Table<L>,
    crew: &mut Crew,
    spawned: Result<JoinHandle<()>, SpawnError<F>>,
) {
    match spawned {
        Ok(thread) => crew.add(thread),
        Err(refused) => {
            drop(refused);
            table.cancel(rt);
            table.await_end(rt);
            crew.join_ended(rt, table);
        }
    }
}

// The body of a connection's thread: serves it, closes it, and reports its end to the table.
fn serve_caller<L: Setup, R: Wait + Clock, G: Gate + Copy>(
    rt: &R,
    alloc: Global,
    caller: Caller<'_, R>,
    hall: &Hall<L>,
    pass: Pass<L>,
    gate: G,
    table: &Table<L>,
    number: usize,
) {
    let stream = caller.into_stream();
    let visit = visit(rt, alloc, &stream, hall, pass, gate);
    drop(stream);
    table.end(rt, number, visit);
}

// Joins the hall, serves the session, and ends the connection.
fn visit<L: Setup, R: Wait + Clock, G: Gate + Copy>(
    rt: &R,
    alloc: Global,
    stream: &TcpStream,
    hall: &Hall<L>,
    pass: Pass<L>,
    gate: G,
) -> Visit<L> {
    let seat = match hall.join(rt, pass) {
        Ok(seat) => seat,
        Err((_pass, error)) => {
            turn_away(rt, stream, &error, LAST_MILLIS);
            return Visit::Refused;
        }
    };
    let Ok(mut buffers) = Buffers::new(alloc) else {
        let gone = hall.leave(rt, seat);
        turn_away(rt, stream, &EnterError::NoMemory, LAST_MILLIS);
        return Visit::Unserved { gone };
    };
    let gone = attend(rt, stream, hall, seat, gate, &mut buffers);
    hang_up(rt, stream, LAST_MILLIS);
    Visit::Served { gone }
}

// Answers the lines of a connection, and leaves the hall.
fn attend<L: Setup, R: Wait, G: Gate + Copy>(
    rt: &R,
    stream: &TcpStream,
    hall: &Hall<L>,
    seat: Seat<L>,
    gate: G,
    buffers: &mut Buffers,
) -> Gone<L>
    requires { Joined seat.session }
    ensures { AttendedOver result }
{
    // Replies are short and the client waits for each, so Nagle's algorithm would only delay them.
    let _ = stream.set_nodelay(true);
    let mut gate = gate;
    let mut source = Over::new(stream);
    let mut sink = Over::new(stream);
    session(rt, &mut source, &mut sink, hall, seat, &mut gate, buffers)
}
