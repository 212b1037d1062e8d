//! A load: 64 sessions at once over connections of this machine, and what each client received
//! against the history.

ghost use Rattle.std.specs.Prelude.{◌≡◌, ◌+◌};
ghost use Rattle.rd_desk.specs.declared.sessions.TheConstants.{MAX_JOINS};

use crate::asserts::assert_same;
use crate::connections::{ask, connect, here};
use crate::receipts::{SessionTranscript, all_sessions};
use rd_desk::limits::Limits;
use rd_desk::sessions::MAX_JOINS;
use rd_hall::account::Closed;
use rd_hall::hall::Hall;
use rd_hall::seat::Pass;
use rd_hall::setup::Setup;
use rd_names::app::App;
use rd_net::net::{Served, serve_net};
use rd_session::gate::NoGate;
use std::alloc::{AllocError, AllocGlobal, Global};
use std::io::{Read, Write};
use std::marker::Brand;
use std::net::{Net, Shutdown, TcpListener, TcpStream};
use std::process::Abort;
use std::sync::ledger::Blank;
use std::sync::{Barrier, Mutex, Wait};
use std::test::Fail;
use std::thread;
use std::thread::Threads;
use std::time::Clock;

// How many lines a client sends behind its first.
const MORE_LINES: usize = 60;

// Those lines, over and over; each client begins a line further on than the one before it.
const LINES: [&str; 16] = [
    "wheel take\n",
    "step 0\n",
    "poke reg t0 0 7\n",
    "watch tick < 3\n",
    "show watches\n",
    "wheel give\n",
    "step 0\n",
    "show task t0\n",
    "back 1\n",
    "redo 1\n",
    "tick\n",
    "show wheel\n",
    "unwatch 0\n",
    "forward 1\n",
    "show moves\n",
    "back until pc t0 = 0\n",
];

// A client's first line. It names the client, as a task that there isn't.
fn first_line(alloc: Global, client: usize) -> Result<String, AllocError> {
    format!(in alloc; "show task c{client}\n")
}

// What a client sends behind its first line.
fn more_lines(alloc: Global, client: usize) -> Result<Vec<u8>, AllocError> {
    let mut lines = Vec::new(alloc);
    for place in 0..MORE_LINES {
        let line = LINES[client.saturating_add(place) % 16];
        lines.extend_from_slice(line.as_bytes())?;
    }
    Ok(lines)
}

// What a client sent, and what it received.
#[derive(Drop)]
struct ClientExchange {
    sent: Vec<u8>,
    received: Vec<u8>,
}

// Sends all this, and receives until the connection ends.
fn exchange(rt: &impl Abort, stream: &TcpStream, lines: &[u8], received: &mut Vec<u8>) {
    let mut sink = stream;
    assert!(rt;
        sink.write_all(lines).is_ok(),
        "the connection takes nothing"
    );
    assert!(rt;
        stream.shutdown(Shutdown::Write).is_ok(),
        "the connection has no end"
    );
    let mut source = stream;
    assert!(rt;
        source.read_to_end(received).is_ok(),
        "the connection breaks"
    );
}

// A client: it asks its first line, and the others once all have asked their first.
fn converse<H: Net<Stream = TcpStream> + Wait + Clock + Abort>(
    rt: &H,
    alloc: Global,
    port: u16,
    client: usize,
    all_joined: &Barrier,
) -> Result<ClientExchange, AllocError> {
    let first = first_line(alloc, client)?;
    let more = more_lines(alloc, client)?;
    let mut sent = Vec::from_slice(alloc, first.as_bytes())?;
    sent.extend_from_slice(more.as_slice())?;
    let mut received = Vec::from_slice(alloc, b"no NoSuch\n")?;
    let stream = connect(rt, port);
    ask(rt, &stream, first.as_str(), "no NoSuch\n");
    all_joined.wait(rt);
    exchange(rt, &stream, more.as_slice(), &mut received);
    Ok(ClientExchange { sent, received })
}

// A client on its thread.
fn run_client<H: Net<Stream = TcpStream> + Wait + Clock + Abort>(
    rt: &H,
    alloc: Global,
    port: u16,
    client: usize,
    all_joined: &Barrier,
    heard: &Mutex<Vec<ClientExchange>>,
) {
    let Ok(one) = converse(rt, alloc, port, client, all_joined) else {
        panic!(rt; "no memory");
    };
    let kept = heard.lock(rt).push(one);
    assert!(rt; kept.is_ok(), "no memory");
}

// Serves 64 clients at once, and keeps what each has heard.
fn serve_clients<L: Setup + Send + Sync, H>(
    rt: &H,
    alloc: Global,
    listener: TcpListener,
    port: u16,
    hall: &Hall<L>,
    passes: Vec<Pass<L>>,
    heard: &Mutex<Vec<ClientExchange>>,
) -> Served<L>
where
    H: Abort + Wait + Sync + Threads + Clock,
    H: Net<Listener = TcpListener, Stream = TcpStream>,
{
    let barrier = Barrier::new(MAX_JOINS);
    let all_joined = &barrier;
    thread::scope(thread::scope_env(), rt, |scope| {
        for client in 0..MAX_JOINS {
            let spawned = scope.spawn(move || run_client(
                rt, alloc, port, client, all_joined, heard,
            ));
            assert!(rt; spawned.is_ok(), "there is no thread");
        }
        serve_net(rt, alloc, listener, hall, passes, NoGate)
    })
}

// One session asked what the client sent, and the client received just the replies to it.
fn assert_heard(rt: &impl Abort, all: &[SessionTranscript], heard: &ClientExchange) {
    let mut sessions = 0u32;
    for session in all {
        if session.asked.as_slice() == heard.sent.as_slice() {
            sessions = sessions.saturating_add(1);
            assert_same(rt, heard.received.as_slice(), session.replies.as_slice());
        }
    }
    assert_same(rt, sessions, 1);
}

// There are 64 clients and as many sessions; each client is one of them.
fn assert_all_heard<L: Setup, H: AllocGlobal + Abort>(
    rt: &H,
    closed: &Closed<L>,
    heard: &[ClientExchange],
) -> Result<(), AllocError> {
    let all = all_sessions(rt, closed)?;
    assert_same(rt, all.len(), MAX_JOINS);
    assert_same(rt, heard.len(), MAX_JOINS);
    for one in heard {
        assert_heard(rt, all.as_slice(), one);
    }
    Ok(())
}

// Answers how many faults there were, and how many entries, where all clients heard the history.
fn serve_all<L: Setup + Send + Sync, H>(
    rt: &H,
    alloc: Global,
    blank: Blank,
    app: App,
    listener: TcpListener,
    port: u16,
) -> Option<(u32, usize)>
where
    H: AllocGlobal + Abort + Wait + Sync + Threads + Clock,
    H: Net<Listener = TcpListener, Stream = TcpStream>,
    requires name { blank.name ≡ L.name }
    requires parts { (blank.parts ≡ L.parts) × (blank.parts ≡ MAX_JOINS + 1) }
    requires app { app ≡ L.app }
    requires moves { L.most_moves ≡ 100 }
    requires entries { L.most_entries ≡ 10000 }
{
    let limits = Limits {
        moves: 100,
        history: 10_000,
    };
    let (hall, passes) = Hall::<L>::open(alloc, blank, app, limits).ok()?;
    let heard = Mutex::new(Vec::new(alloc));
    let served = serve_clients(rt, alloc, listener, port, &hall, passes, &heard);
    let Served { gone, faults } = served;
    let closed = hall.finish(gone).ok()?;
    let heard = heard.into_inner();
    assert_all_heard(rt, &closed, heard.as_slice()).ok()?;
    Some((faults, closed.entries()))
}

// Each session joins, asks 61 lines, and leaves.
#[test]
fn sixty_four_clients(rt: HostRuntime) -> Result<(), Fail> {
    let app = App::builtin(rt.alloc())?;
    let listener = TcpListener::bind(&rt, here(0))?;
    let port = listener.local_addr()?.port();
    let blank = Blank::new(MAX_JOINS as u64 + 1);
    let told = serve_all::<Brand, HostRuntime>(&rt, rt.alloc(), blank, app, listener, port);
    assert_same(&rt, told, Some((0, 4_032)));
    Ok(())
}
