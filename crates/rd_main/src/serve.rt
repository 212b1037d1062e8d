//! `rdbg serve`: many sessions, each over a connection.

ghost use Rattle.std.specs.Prelude.{◌≡◌, ◌+◌, IfErr};
ghost use Rattle.rd_desk.specs.declared.sessions.TheConstants.{MAX_JOINS};
ghost use Rattle.rd_main.specs.Running.{FailsTogether};
ghost use Rattle.rd_main.specs.declared.failure.Failure.TheVariants.{Broken, CannotListen};

use crate::failure::Failure;
use rd_desk::limits::Limits;
use rd_desk::sessions::MAX_JOINS;
use rd_hall::hall::Hall;
use rd_hall::seat::{Gone, Pass};
use rd_hall::setup::Setup;
use rd_names::app::App;
use rd_net::net::{Served, serve_net};
use rd_session::gate::NoGate;
use std::alloc::Global;
use std::io::Write;
use std::marker::Brand;
use std::net::{IpAddr, Ipv4Addr, Net, SocketAddr, TcpListener, TcpStream};
use std::sync::Wait;
use std::sync::ledger::Blank;
use std::thread::Threads;
use std::time::Clock;

/// Serves `sessions` sessions over an application, each over a connection to `port` of 127.0.0.1.
/// Writes `listening P` once it listens. At the end it writes `closed E` with the number of entries
/// in the history and, on `errors`, the number of attempts to accept that ended without a session, if
/// there were any.
///
/// Errors: `CannotListen` if the port is not available; `NoMemory` if there is no memory to start;
/// `Broken` if the final audit fails.
pub fn listen<H, W: Write, E: Write>(
    rt: &H,
    alloc: Global,
    app: App,
    limits: Limits,
    port: u16,
    sessions: usize,
    writer: &mut W,
    errors: &mut E,
) -> Result<(), Failure>
where
    H: Wait + Sync + Threads + Clock + Net<Listener = TcpListener, Stream = TcpStream>,
    ensures { IfErr result FailsTogether }
{
    let blank = Blank::new(MAX_JOINS as u64 + 1);
    host::<Brand, H, W, E>(
        rt, alloc, blank, app, limits, port, sessions, writer, errors,
    )
}

// Opens a hall, serves its sessions, and finishes it.
fn host<L: Setup + Send + Sync, H, W: Write, E: Write>(
    rt: &H,
    alloc: Global,
    blank: Blank,
    app: App,
    limits: Limits,
    port: u16,
    sessions: usize,
    writer: &mut W,
    errors: &mut E,
) -> Result<(), Failure>
where
    H: Wait + Sync + Threads + Clock + Net<Listener = TcpListener, Stream = TcpStream>,
    requires name { blank.name ≡ L.name }
    requires parts { (blank.parts ≡ L.parts) × (blank.parts ≡ MAX_JOINS + 1) }
    requires app { app ≡ L.app }
    requires moves { limits.moves ≡ L.most_moves }
    requires entries { limits.history ≡ L.most_entries }
    ensures { IfErr result FailsTogether }
{
    let (hall, mut passes) = Hall::<L>::open(alloc, blank, app, limits)?;
    passes.truncate(sessions);
    match serve(rt, alloc, &hall, passes, port, writer) {
        Ok(Served { gone, faults }) => {
            report_faults(faults, errors);
            close(hall, gone, writer)
        }
        Err(failure) => {
            let _ = hall.finish(Vec::new(alloc));
            Err(failure)
        }
    }
}

// Writes the line with the number of failed connections, if there were any.
fn report_faults<E: Write>(faults: u32, errors: &mut E) {
    let _ = match faults {
        0 => Ok(()),
        1 => writeln!(errors, "rdbg: 1 connection failed"),
        _ => writeln!(errors, "rdbg: {faults} connections failed"),
    };
}

// Finishes the hall, and writes the line with the number of entries in its history.
fn close<L: Setup, W: Write>(
    hall: Hall<L>,
    gones: Vec<Gone<L>>,
    writer: &mut W,
) -> Result<(), Failure>
    ensures { IfErr result (λ failure. failure ≡ Broken) }
{
    match hall.finish(gones) {
        Ok(closed) => {
            let _ = writeln!(writer, "closed {}", closed.entries());
            Ok(())
        }
        Err(_) => Err(Failure::Broken),
    }
}

// Listens, and makes one attempt per pass to serve a session.
fn serve<L: Setup + Send + Sync, H, W: Write>(
    rt: &H,
    alloc: Global,
    hall: &Hall<L>,
    passes: Vec<Pass<L>>,
    port: u16,
    writer: &mut W,
) -> Result<Served<L>, Failure>
where
    H: Wait + Sync + Threads + Clock + Net<Listener = TcpListener, Stream = TcpStream>,
    ensures { IfErr result (λ failure. failure ≡ CannotListen) }
{
    let here = SocketAddr::new(IpAddr::V4(Ipv4Addr::LOCALHOST), port);
    let Ok(listener) = TcpListener::bind(rt, here) else {
        return Err(Failure::CannotListen);
    };
    let _ = writeln!(writer, "listening {port}");
    let _ = writer.flush();
    Ok(serve_net(rt, alloc, listener, hall, passes, NoGate))
}
