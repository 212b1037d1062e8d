//! Runs of the program with words: its exit status, and what it writes to its reader and to its
//! errors.

use crate::asserts::assert_same;
use crate::memory::MemoryTarget;
use rd_main::run_main;
use std::alloc::{AllocError, AllocGlobal};
use std::net::{Net, TcpListener, TcpStream};
use std::process::Abort;
use std::rt::Files;
use std::sync::Wait;
use std::test::Fail;
use std::thread::Threads;
use std::time::Clock;
use std::{fs, io};

/// What a run left.
#[derive(Drop)]
pub struct RunOutcome {
    status: u8,
    output: Vec<u8>,
    errors: Vec<u8>,
}

// Runs the program on these words and commands.
fn run<H>(rt: &H, words: &[&str], commands: &str) -> Result<RunOutcome, AllocError>
where
    H: Files + AllocGlobal + Abort + Wait + Sync + Threads + Clock,
    H: Net<Listener = TcpListener, Stream = TcpStream>,
{
    let mut texts = Vec::new(rt.alloc());
    for word in words {
        let word: &str = *word;
        texts.push(String::from_str(rt.alloc(), word)?)?;
    }
    let mut target = MemoryTarget::new(Vec::new(rt.alloc()));
    let mut errors = Vec::new(rt.alloc());
    let status = run_main(
        rt,
        texts.as_slice(),
        &mut commands.as_bytes(),
        &mut target,
        &mut errors,
    );
    Ok(RunOutcome {
        status,
        output: target.into_bytes(),
        errors,
    })
}

/// Runs the program on an application file of this text, with more words and commands.
pub fn run_file<H>(
    rt: &H,
    path: &str,
    app: &[u8],
    words: &[&str],
    commands: &str,
) -> io::Result<RunOutcome>
where
    H: Files + AllocGlobal + Abort + Wait + Sync + Threads + Clock,
    H: Net<Listener = TcpListener, Stream = TcpStream>,
{
    fs::write(rt, path, app)?;
    let mut all = Vec::new(rt.alloc());
    all.extend_from_slice(&["run", "--app", path])?;
    all.extend_from_slice(words)?;
    let ending = run(rt, all.as_slice(), commands);
    fs::remove_file(rt, path)?;
    Ok(ending?)
}

/// Fails unless the run ended so, and wrote nothing else.
pub fn assert_ending(rt: &impl Abort, ending: &RunOutcome, status: u8, output: &str, errors: &str) {
    assert_same(rt, ending.status, status);
    assert_same(rt, ending.output.as_slice(), output.as_bytes());
    assert_same(rt, ending.errors.as_slice(), errors.as_bytes());
}

/// Fails unless each run on some words and these commands ends with this status, and writes this.
pub fn assert_runs<H>(
    rt: &H,
    runs: &[&[&str]],
    commands: &str,
    status: u8,
    output: &str,
    errors: &str,
) -> Result<(), Fail>
where
    H: Files + AllocGlobal + Abort + Wait + Sync + Threads + Clock,
    H: Net<Listener = TcpListener, Stream = TcpStream>,
{
    for words in runs {
        let words: &[&str] = *words;
        let ending = run(rt, words, commands)?;
        assert_ending(rt, &ending, status, output, errors);
    }
    Ok(())
}

const BAD_COMMAND_LINES: [&[&str]; 17] = [
    &["", "", ""],
    &["fly"],
    &["--moves", "3"],
    &["--"],
    &["run", "--moves", "0"],
    &["run", "--moves", "1000001"],
    &["run", "--moves", "many"],
    &["run", "--moves"],
    &["run", "--moves", "3", "--moves", "3"],
    &["run", "--history", "1"],
    &["run", "--history", "1000001"],
    &["run", "--history", "all"],
    &["run", "--history"],
    &["--history", "4"],
    &["run", "--app"],
    &["run", "--fast"],
    &["run", "file.json"],
];

const DEFAULTS: [&[&str]; 5] = [
    &[],
    &["run"],
    &["run", "--moves", "1000000"],
    &["run", "--history", "1000000"],
    &["run", "--history", "4", "--moves", "1"],
];

const ONE_MOVE: [&[&str]; 3] = [
    &["run", "--moves=1"],
    &["run", "--moves=+1"],
    &["run", "--moves=01"],
];

const MISSING_FILES: [&[&str]; 3] = [
    &["run", "--app", "nowhere.json"],
    &["run", "--app", ""],
    &["run", "--app", "."],
];

// Words that spell no command line have status 2, and nothing is run. Shows `options`: `asked`;
// that the status is 2 is only tested.
#[test]
fn bad_command_line(rt: HostRuntime) -> Result<(), Fail> {
    let errors = "rdbg: bad command line\n";
    assert_runs(&rt, &BAD_COMMAND_LINES, "step 0\n", 2, "", errors)
}

// With no words the built-in application is run, and settings at their limits are settings.
#[test]
fn run_is_the_default(rt: HostRuntime) -> Result<(), Fail> {
    let replies = "ok at 1\nok at 0\n";
    assert_runs(&rt, &DEFAULTS, "step 0\nback 1\n", 0, replies, "")
}

// No more moves are done at a time than the setting says.
#[test]
fn moves_are_limited(rt: HostRuntime) -> Result<(), Fail> {
    let commands = "step 0\nstep 0\nback 1\nstep 0\n";
    let replies = "ok at 1\nno MovesFull\nok at 0\nok at 1\n";
    assert_runs(&rt, &ONE_MOVE, commands, 0, replies, "")
}

// Which files can't be read. Shows `app_of_opened`: `failed`; when opening fails is only tested.
#[test]
fn missing_file(rt: HostRuntime) -> Result<(), Fail> {
    let errors = "rdbg: cannot read the file\n";
    assert_runs(&rt, &MISSING_FILES, "step 0\n", 1, "", errors)
}

const ASKS_FOR_HELP: [&[&str]; 3] = [&["--help"], &["-h"], &["help"]];

const ASKS_FOR_HELP_OF_RUN: [&[&str]; 2] = [&["run", "--help"], &["help", "run"]];

const HELP: &str = "A reverse debugger for models of FreeRTOS applications

Usage: rdbg <COMMAND>

Commands:
  run    Answers commands from standard input
  serve  Answers the commands of several sessions on a TCP port
  help   Print this message or the help of the given subcommand(s)

Options:
  -h, --help  Print help

rdbg run [--app FILE] [--moves COUNT] [--history COUNT]
rdbg serve --app FILE --port PORT --sessions COUNT [--moves COUNT] [--history COUNT]
";

const HELP_OF_RUN: &str = "Answers commands from standard input

Usage: rdbg run [OPTIONS]

Options:
      --app <FILE>       The application file [default: the built-in application]
      --moves <COUNT>    How many moves may be done at a time, 1 to 1000000 [default: 100000]
      --history <COUNT>  How many entries the history may have, 2 to 1000000 [default: 100000]
  -h, --help             Print help
";

// Whether `help` as a word is help, and the text of help.
#[test]
fn help(rt: HostRuntime) -> Result<(), Fail> {
    assert_runs(&rt, &ASKS_FOR_HELP, "step 0\n", 0, HELP, "")?;
    assert_runs(&rt, &ASKS_FOR_HELP_OF_RUN, "step 0\n", 0, HELP_OF_RUN, "")
}

// A file of 1,048,576 bytes is read, one with a byte more isn't. Shows `read_application`: `long`,
// `fault`.
#[test]
fn long_files(rt: HostRuntime) -> Result<(), Fail> {
    let mut text = vec![in rt.alloc(); b' '; 1_048_576]?;
    let read = run_file(&rt, "long.json", text.as_slice(), &[], "")?;
    assert_ending(&rt, &read, 1, "", "rdbg: application refused: L1 NotJson\n");
    text.push(b' ')?;
    let unread = run_file(&rt, "long.json", text.as_slice(), &[], "")?;
    assert_ending(&rt, &unread, 1, "", "rdbg: cannot read the file\n");
    Ok(())
}

// Faults are found in the order command line, file, application. Shows `options`: `asked`, and
// `load`: `refused`; the order is only tested.
#[test]
fn refused_files(rt: HostRuntime) -> Result<(), Fail> {
    let no_room = concat!(
        r#"{"profile":1,"cores":1,"queues":[{"name":"q0","length":0,"item":1}],"#,
        r#""tasks":[{"name":"t0","priority":1,"code":["end"]}]}"#,
    )
    .as_bytes();
    let refused = run_file(&rt, "refused.json", no_room, &[], "step 0\n")?;
    assert_ending(
        &rt,
        &refused,
        1,
        "",
        "rdbg: application refused: L3 Limit\n",
    );
    let bad = run_file(&rt, "refused.json", no_room, &["--moves", "0"], "")?;
    assert_ending(&rt, &bad, 2, "", "rdbg: bad command line\n");
    Ok(())
}
