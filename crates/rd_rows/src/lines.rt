//! Lines to the built-in application, one by one: which are commands.

use crate::asserts::assert_same;
use crate::memory::MemorySource;
use crate::rows::answers;
use rd_command::binding::bind;
use rd_command::command::parse_line;
use rd_command::known::Known;
use rd_command::order::Order;
use rd_command::word::Behind;
use rd_names::app::App;
use std::alloc::AllocGlobal;
use std::net::{Net, TcpListener, TcpStream};
use std::process::Abort;
use std::rt::Files;
use std::sync::Wait;
use std::test::Fail;
use std::thread::Threads;
use std::time::Clock;

// Bytes that are no command, and bytes that are `step 0`. (A byte of 80 is no text by itself.)
const NO_COMMANDS: [&[u8]; 9] = [
    b"step 0\x80\n",
    b"\x80\n",
    b"step\xff0\n",
    b"back 0\n",
    b"step 4294967296\n",
    b"step 00000000000\n",
    b"\n",
    b" \n",
    b"\r\n",
];

const STEPS: [&[u8]; 7] = [
    b"step 0\n",
    b"step  0\n",
    b" step 0 \n",
    b"step 0000000000\n",
    b"step 0\r\n",
    b"  step   0  \r\n",
    b"step 0",
];

// Between two lines that are answered, each of these is answered so.
fn assert_lines<H>(rt: &H, lines: &[&[u8]], replies: &str) -> Result<(), Fail>
where
    H: Files + AllocGlobal + Abort + Wait + Sync + Threads + Clock,
    H: Net<Listener = TcpListener, Stream = TcpStream>,
{
    for line in lines {
        let line: &[u8] = *line;
        let mut script = Vec::from_slice(rt.alloc(), b"step 0\n")?;
        script.extend_from_slice(line)?;
        let found = answers(rt, &mut MemorySource::new(script.as_slice()));
        assert_eq!(rt; found.as_slice(), replies.as_bytes(), "to {line:?}");
    }
    Ok(())
}

// A line is a command exactly where its words spell one; each other is answered `no Syntax`. Shows
// `parse_line`: `exact`, `spelled`.
#[test]
fn no_commands(rt: HostRuntime) -> Result<(), Fail> {
    assert_lines(&rt, &NO_COMMANDS, "ok at 1\nno Syntax\n")
}

// Spaces don't matter, nor do zeros in front of a number, nor one CR at the end. Shows
// `parse_line`: `only`; of the CR `session`: `heard` (`lines_of`).
#[test]
fn commands(rt: HostRuntime) -> Result<(), Fail> {
    assert_lines(&rt, &STEPS, "ok at 1\nok at 2\n")
}

// The lines of one command each.
const COMMANDS: [&str; 4] = [
    "step 0",
    "show moves",
    "until count q0 = 2 100",
    " poke  reg t0 0 7",
];

// A copy of a command is the command, and is bound to the same.
fn assert_copied(rt: &impl Abort, known: &Known, line: &str) {
    let mut behind = Behind::new();
    let Ok(command) = parse_line(line.as_bytes(), &mut behind) else {
        panic!(rt; "{line} is no command");
    };
    let copy = command.copy();
    assert_same(rt, copy.line(), line.as_bytes());
    assert_same(rt, copy.needs_wheel(), command.needs_wheel());
    let bound = bind(&copy, known);
    assert_same(rt, bound.is_ok(), bind(&command, known).is_ok());
    let order = Order::new(&copy, known, &bound);
    assert_same(rt, order.needs_wheel(), command.needs_wheel());
}

#[test]
fn copied(rt: HostRuntime) -> Result<(), Fail> {
    let app = App::builtin(rt.alloc())?;
    let known = Known::of(rt.alloc(), &app)?;
    for line in &COMMANDS {
        assert_copied(&rt, &known, *line);
    }
    Ok(())
}
