//! The program: its words, one session over standard input and output, and many over connections.
//! Page: `docs/FORMATS.md`. Definitions in reading order (`specs/`): `Running`.
#![tactic(auto)]

ghost use Rattle.std.specs.Prelude.{◌≡◌, ◌≢◌, ◌≤◌, length, map, string_bytes, IfErr, IsOk};
ghost use Rattle.std.specs.IoError.{error_kind};
ghost use Rattle.rd_start.specs.Requests.{words_read, AreRefused, IsWithinLimits};
ghost use Rattle.rd_start.specs.declared.fault.Fault.TheVariants.{BadCommandLine};
ghost use Rattle.rd_main.specs.Running.{AskForSomething};
ghost use Rattle.rd_main.specs.declared.failure.Failure.TheVariants.{Start};

pub mod alone;
pub mod failure;
pub mod serve;

use crate::alone::debug;
use crate::failure::Failure;
use crate::serve::listen;
use rd_desk::limits::Limits;
use rd_start::fault::Fault;
use rd_start::file::load;
use rd_start::options::{Settings, StartRequest, options};
use std::alloc::AllocGlobal;
use std::io;
use std::io::{ErrorKind, Read, Write};
use std::net::{Net, TcpListener, TcpStream};
use std::rt::Files;
use std::sync::Wait;
use std::thread::Threads;
use std::time::Clock;

// The exit status at the end of a session, and after help.
const DONE: u8 = 0;

/// Runs the program on the words of its command line, without its own name, and answers its exit
/// status: 0 at the end of all sessions and after help, where the words ask for one of these, 2 for
/// a bad command line, 1 where no session begins for another cause, or where the history isn't what
/// the sessions were answered. The cause is said in one line on `errors`; so is, with status 0, how
/// many connections have failed, if some have.
pub fn run_main<H, R: Read, W: Write, E: Write>(
    handle: &H,
    words: &[String],
    reader: &mut R,
    writer: &mut W,
    errors: &mut E,
) -> u8
where
    H: Files + AllocGlobal + Wait + Sync + Threads + Clock,
    H: Net<Listener = TcpListener, Stream = TcpStream>,
    ensures statuses { result ≤ 2 }
    ensures no_words { length words.now ≡ 0 → result ≤ 1 }
    ensures bad_command_line { result ≡ 2 → AreRefused (words_read (map string_bytes words.now)) }
    ensures done { result ≡ 0 → AskForSomething (words_read (map string_bytes words.now)) }
{
    match run(handle, words, reader, writer, errors) {
        Ok(()) => DONE,
        Err(failure) => report(errors, &failure),
    }
}

/// Says why the words of the command line couldn't be had: one is no text, or there is no memory.
/// Answers the exit status: 2 for a word that is no text, else 1.
pub fn refuse_words<E: Write>(errors: &mut E, error: &io::Error) -> u8
    ensures no_text { error_kind error.now ≡ ErrorKind.InvalidData → result ≡ 2 }
    ensures others { error_kind error.now ≢ ErrorKind.InvalidData → result ≡ 1 }
{
    if error.kind() == ErrorKind::InvalidData {
        report(errors, &Failure::from(Fault::BadCommandLine))
    } else {
        report(errors, &Failure::from(Fault::NoMemory))
    }
}

// Says what is wrong, and answers the exit status. There is nobody left to be told that the saying
// failed.
fn report<E: Write>(errors: &mut E, failure: &Failure) -> u8
    ensures bad_command_line { failure.now ≡ Start BadCommandLine → result ≡ 2 }
    ensures others { failure.now ≢ Start BadCommandLine → result ≡ 1 }
{
    let _ = writeln!(errors, "rdbg: {failure}");
    failure.status()
}

// Does what the words ask for.
fn run<H, R: Read, W: Write, E: Write>(
    handle: &H,
    words: &[String],
    reader: &mut R,
    writer: &mut W,
    errors: &mut E,
) -> Result<(), Failure>
where
    H: Files + AllocGlobal + Wait + Sync + Threads + Clock,
    H: Net<Listener = TcpListener, Stream = TcpStream>,
    ensures no_words { length words.now ≡ 0
        → IfErr result (λ failure. failure ≢ Start BadCommandLine) }
    ensures bad_command_line { IfErr result (λ failure. failure ≡ Start BadCommandLine
        → AreRefused (words_read (map string_bytes words.now))) }
    ensures asked { IsOk result → AskForSomething (words_read (map string_bytes words.now)) }
{
    match options(handle.alloc(), words)? {
        StartRequest::Run { settings } => {
            let app = load(handle, settings.app)?;
            debug(
                handle,
                handle.alloc(),
                app,
                limits_of(settings),
                reader,
                writer,
            )
        }
        StartRequest::Serve {
            settings,
            port,
            sessions,
        } => {
            let app = load(handle, settings.app)?;
            listen(
                handle,
                handle.alloc(),
                app,
                limits_of(settings),
                port,
                sessions,
                writer,
                errors,
            )
        }
        StartRequest::Help { text } => {
            let _ = writer.write_all(text.as_bytes());
            Ok(())
        }
    }
}

// How many moves and entries a hall with these settings may have.
fn limits_of(settings: Settings<'_>) -> Limits
    requires { IsWithinLimits settings }
    ensures { result ≡ record {
      moves = settings.entry.moves;
      history = settings.entry.history;
    } }
{
    Limits {
        moves: settings.moves as u32,
        history: settings.history as u32,
    }
}
