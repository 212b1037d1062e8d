//! What can still come in an application: the words that ask it, the answer, and what is told of it.
//! Page: `docs/REACHING.md`. Definitions in reading order (`specs/`): `Asked`, `EngineView`,
//! `Numbers`, `Handlers`, `IsrWords`, `Paces`, `Parts`, `CommandLine`, `Questions`, `Statuses`,
//! `Said`.
#![tactic(auto)]

ghost use Rattle.std.specs.Prelude.{◌≡◌, ◌≢◌, ◌≤◌, IfOk, map, string_bytes};
ghost use Rattle.rd_question.specs.Statuses.{IsStatusOf};

pub mod asking;
mod dialogue;
mod engine;
mod engine_isr;
pub mod engine_line;
pub mod fault;
pub mod handler;
mod input;
mod isr_options;
mod numbers;
pub mod options;
pub mod pace;
pub mod part_word;
pub mod planning;
mod progress;
pub mod query;
mod start;
mod telling;
mod telling_doomed;
mod telling_lost;
mod wanted;

use crate::asking::ask;
use crate::dialogue::answer_lines;
use crate::fault::ReachFault;
use crate::options::{ReachRequest, options};
use std::alloc::AllocGlobal;
use std::io;
use std::io::{ErrorKind, Read, Write};
use std::rt::Files;

// The exit status where the goal comes behind no order, at the end of lines, and after help.
const NONE: u8 = 0;

/// Runs the program on the words of its command line, without its own name, and returns its exit
/// status: 0 if no requested run reaches the goal, and after help; 1 if one does; 2 if that is
/// unknown or there was an error, whose cause is written to `errors`. A command line with neither a
/// goal nor `--engine` is such an error. With `--engine` it answers the lines of `reader`, and the
/// status is 0 at their end.
pub fn run_main<H: Files + AllocGlobal, R: Read, W: Write, E: Write>(
    handle: &H,
    words: &[String],
    reader: &mut R,
    writer: &mut W,
    errors: &mut E,
) -> u8
    ensures statuses { result ≤ 2 }
    ensures told { result ≢ 2 → IsStatusOf (map string_bytes words.now) result }
{
    match run(handle, words, reader, writer, errors) {
        Ok(status) => status,
        Err(fault) => report(errors, &fault),
    }
}

/// Says why the words of the command line couldn't be had: one is no text, or there is no memory.
/// Answers the exit status, which is 2.
pub fn refuse_words<E: Write>(errors: &mut E, error: &io::Error) -> u8
    ensures { result ≡ 2 }
{
    if error.kind() == ErrorKind::InvalidData {
        report(errors, &ReachFault::NoText)
    } else {
        report(errors, &ReachFault::NoMemory)
    }
}

// Says what is wrong, and answers the exit status. There is nobody left to be told that the saying
// failed.
fn report<E: Write>(errors: &mut E, fault: &ReachFault) -> u8
    ensures { result ≡ 2 }
{
    let _ = writeln!(errors, "rdbg reach: {fault}");
    2
}

// Does what the words ask for.
fn run<H: Files + AllocGlobal, R: Read, W: Write, E: Write>(
    handle: &H,
    words: &[String],
    reader: &mut R,
    writer: &mut W,
    errors: &mut E,
) -> Result<u8, ReachFault>
    ensures told { IfOk result (IsStatusOf (map string_bytes words.now)) }
    ensures within { IfOk result (λ status. status ≤ 2) }
{
    match options(handle.alloc(), words)? {
        ReachRequest::Ask { question } => ask(handle, &question, writer, errors),
        ReachRequest::Engine { question } => {
            answer_lines(handle, question, reader, writer, errors)?;
            Ok(NONE)
        }
        ReachRequest::Help { text } => {
            writer.write_all(text.as_bytes())?;
            Ok(NONE)
        }
    }
}
