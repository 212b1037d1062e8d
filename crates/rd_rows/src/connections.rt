//! Connections of this machine, and a run of the program that serves one.

use crate::asserts::assert_same;
use rd_main::run_main;
use std::alloc::{AllocGlobal, Global};
use std::io::{Read, Write};
use std::net::{IpAddr, Ipv4Addr, Net, SocketAddr, TcpListener, TcpStream};
use std::process::Abort;
use std::rt::Files;
use std::sync::Wait;
use std::test::Fail;
use std::thread::Threads;
use std::time::{Clock, Duration};
use std::{fs, thread};

/// A port of this machine.
pub fn here(port: u16) -> SocketAddr {
    SocketAddr::new(IpAddr::V4(Ipv4Addr::LOCALHOST), port)
}

/// A connection to that port, in at most 10,000 tries of a millisecond.
pub fn connect<H: Net<Stream = TcpStream> + Clock + Abort>(rt: &H, port: u16) -> TcpStream {
    for _ in 0..10_000u32 {
        if let Ok(stream) = TcpStream::connect(rt, here(port)) {
            return stream;
        }
        thread::sleep(rt, Duration::from_millis(1));
    }
    panic!(rt; "nobody listens");
}

/// Sends a line, and reads this answer.
pub fn ask(rt: &impl Abort, stream: &TcpStream, line: &str, answer: &str) {
    let mut sink = stream;
    assert!(rt;
        sink.write_all(line.as_bytes()).is_ok(),
        "the connection takes nothing"
    );
    let mut told = [0; 256];
    let (told, _) = told.split_at_mut(answer.len().min(256));
    let mut source = stream;
    assert!(rt; source.read_exact(told).is_ok(), "the connection ends");
    assert_same(rt, &*told, answer.as_bytes());
}

const APP: &[u8] =
    br#"{"profile":1,"cores":1,"tasks":[{"name":"t0","priority":1,"code":["end"]}]}"#;

// Makes one move over a connection.
fn step<H: Net<Stream = TcpStream> + Clock + Abort>(rt: &H, port: u16) {
    let stream = connect(rt, port);
    ask(rt, &stream, "step 0\n", "ok at 1\n");
}

// Runs the program on these words beside a client, and answers its status and what it writes
// to its output and to its errors.
fn run_beside_a_client<H>(
    rt: &H,
    alloc: Global,
    words: &[String],
    port: u16,
) -> (u8, Vec<u8>, Vec<u8>)
where
    H: Files + AllocGlobal + Abort + Wait + Sync + Threads + Clock,
    H: Net<Listener = TcpListener, Stream = TcpStream>,
{
    let mut output = Vec::new(alloc);
    let mut errors = Vec::new(alloc);
    let status = thread::scope(thread::scope_env(), rt, |scope| {
        let spawned = scope.spawn(move || step(rt, port));
        assert!(rt; spawned.is_ok(), "there is no thread");
        run_main(rt, words, &mut b"".as_slice(), &mut output, &mut errors)
    });
    (status, output, errors)
}

// `rdbg serve`: it says where it listens, serves its session, and says how many entries there are.
#[test]
fn the_program_serves(rt: HostRuntime) -> Result<(), Fail> {
    fs::write(&rt, "served.json", APP)?;
    let port = TcpListener::bind(&rt, here(0))?.local_addr()?.port();
    let mut digits = String::new(rt.alloc());
    write!(digits, "{port}")?;
    let mut words = Vec::new(rt.alloc());
    for word in [
        "serve",
        "--app",
        "served.json",
        "--sessions",
        "1",
        "--port",
        digits.as_str(),
    ] {
        words.push(String::from_str(rt.alloc(), word)?)?;
    }
    let (status, output, errors) = run_beside_a_client(&rt, rt.alloc(), words.as_slice(), port);
    let mut wanted = Vec::new(rt.alloc());
    write!(wanted, "listening {port}\nclosed 3\n")?;
    assert_same(&rt, status, 0);
    assert_same(&rt, output.as_slice(), wanted.as_slice());
    assert!(&rt; errors.is_empty());
    Ok(())
}
