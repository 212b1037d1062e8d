//! The lines of an input, each answered by an engine.

ghost use Rattle.std.specs.Prelude.{IfOk};
ghost use Rattle.rd_question.specs.Questions.{IsQuestion};
ghost use Rattle.rd_question.specs.Said.{IsLineWithinLimits};

use crate::engine::Engine;
use crate::engine_line::{EngineLine, line_of};
use crate::fault::ReachFault;
use crate::input::{HeardInput, Input};
use crate::options::Question;
use std::alloc::AllocGlobal;
use std::io::{BufWriter, Read, Write};
use std::rt::Files;

// What the line `help` is answered.
const HELP: &str = "\
from PATH                 searches begin behind the command lines of this file
from                      they begin at boot
line COMMAND              they begin behind one command line more, as line step 0
pace M..N                 each busy core makes M to N moves from one tick to the next; pace none
surprises N               orders of at most N surprises alone, 0 to 255; surprises none
moves N                   orders of at most N moves alone; moves none
states N                  how many states are kept, 1 to 1000000000
memory MIB                for how many mebibytes states are kept, 1 to 1048576
exact on                  states are told apart to the last field; exact off
isr CALLS [times N|any] [after I] [apart T]
                          one interrupt more may come, as isr send rx 41 times 3
isr none                  no interrupt may come
reach GOAL                answers whether some order leads to the goal
lost GOAL                 answers from which place of the run of from and line on none does
doomed GOAL               answers whether one leads to where none leads to the goal any more
quit                      ends
";

// Does what a line says, and writes the answer.
fn obey<H: Files + AllocGlobal, W: Write, E: Write>(
    handle: &H,
    engine: &mut Engine<'_>,
    line: EngineLine<'_>,
    writer: &mut W,
    errors: &mut E,
) -> Result<(), ReachFault>
    requires { IsLineWithinLimits line }
{
    let alloc = handle.alloc();
    match line {
        EngineLine::Ask { query, goal } => return engine.ask(alloc, query, goal, writer, errors),
        EngineLine::Help => return Ok(writer.write_all(HELP.as_bytes())?),
        EngineLine::Boot => engine.begin_at_boot(),
        EngineLine::From { path } => engine.begin_behind(handle, path)?,
        EngineLine::Command { command } => engine.add_command(alloc, command)?,
        EngineLine::Set { setting } => engine.set(alloc, setting)?,
        EngineLine::Quit => {}
    }
    Ok(writeln!(writer, "ok")?)
}

// What the line says that was heard last.
fn line_heard<'a, R: Read>(input: &'a Input<'_, R>) -> Result<EngineLine<'a>, ReachFault>
    ensures { IfOk result IsLineWithinLimits }
{
    match input.text() {
        Ok(text) => line_of(text),
        Err(fault) => Err(fault),
    }
}

// Answers a line, or says why it is refused, and ends the answer by an empty line. An `Err` says that
// it can't be written.
fn reply<H: Files + AllocGlobal, W: Write, E: Write>(
    handle: &H,
    engine: &mut Engine<'_>,
    said: Result<EngineLine<'_>, ReachFault>,
    writer: &mut W,
    errors: &mut E,
) -> Result<(), ReachFault>
    requires { IfOk said IsLineWithinLimits }
{
    let done = match said {
        Ok(line) => obey(handle, engine, line, writer, errors),
        Err(fault) => Err(fault),
    };
    match done {
        Ok(()) => {}
        Err(ReachFault::Unwritten) => return Err(ReachFault::Unwritten),
        Err(fault) => writeln!(writer, "no: {fault}")?,
    }
    writeln!(writer)?;
    Ok(writer.flush()?)
}

// What was heard, as a line, or why it is none. (Behind the end there is nothing to do.)
fn said_by<'a, R: Read>(
    input: &'a Input<'_, R>,
    heard: HeardInput,
) -> Result<EngineLine<'a>, ReachFault>
    ensures { IfOk result IsLineWithinLimits }
{
    match heard {
        HeardInput::Line => line_heard(input),
        HeardInput::TooLong => Err(ReachFault::LongLine),
        HeardInput::NoMemory => Err(ReachFault::NoMemory),
        HeardInput::End => Ok(EngineLine::Quit),
    }
}

// Answers the next line of an input, and says whether others come: not behind its end, nor behind a
// line that says so.
fn reply_next<H: Files + AllocGlobal, R: Read, W: Write, E: Write>(
    handle: &H,
    engine: &mut Engine<'_>,
    input: &mut Input<'_, R>,
    writer: &mut W,
    errors: &mut E,
) -> Result<bool, ReachFault> {
    let heard = input.hear()?;
    if matches!(heard, HeardInput::End) {
        return Ok(false);
    }
    let said = said_by(input, heard);
    let is_last = matches!(said, Ok(EngineLine::Quit));
    reply(handle, engine, said, writer, errors)?;
    Ok(!is_last)
}

// Answers each line of an input, up to its end or a line that says so.
fn reply_all<H: Files + AllocGlobal, R: Read, W: Write, E: Write>(
    handle: &H,
    engine: &mut Engine<'_>,
    input: &mut Input<'_, R>,
    writer: &mut W,
    errors: &mut E,
) -> Result<(), ReachFault> {
    for _line in 0..u64::MAX {
        let goes_on = reply_next(handle, engine, input, writer, errors)?;
        if !goes_on {
            break;
        }
    }
    Ok(())
}

/// Answers the lines of an input as an engine does that begins with what the question asks for. Each
/// answer is its lines, and then an empty one; it is out before the next line is read. `ok` is the
/// answer to a line that changes what is asked for, `no: ` and the cause the one to a line that is
/// refused, which changes nothing. It ends with the input, or by the line `quit`. An `Err` says why
/// it couldn't begin, as for `ask`, that a line can't be read (`Unread`), or that an answer can't be
/// written (`Unwritten`).
pub(crate) fn answer_lines<H: Files + AllocGlobal, R: Read, W: Write, E: Write>(
    handle: &H,
    question: Question<'_>,
    reader: &mut R,
    writer: &mut W,
    errors: &mut E,
) -> Result<(), ReachFault>
    requires { IsQuestion question }
{
    let mut engine = Engine::new(handle, question)?;
    let mut input = Input::new(handle.alloc(), reader)?;
    let Ok(mut writer) = BufWriter::new(handle.alloc(), writer) else {
        return Err(ReachFault::NoMemory);
    };
    reply_all(handle, &mut engine, &mut input, &mut writer, errors)
}
