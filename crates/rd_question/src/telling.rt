//! What is told of an answer.

ghost use Rattle.std.specs.Prelude.{◌≡◌, ◌<◌, ◌≤◌, IfOk, length};
ghost use Rattle.rd_answer.specs.Answers.{status_of};

use crate::handler::Handler;
use crate::options::Question;
use rd_dealt::part::Part;
use rd_names::app::App;
use rd_reach::answer::{FullCause, SearchAnswer, SearchOutcome};
use rd_reach::came::Came;
use rd_reach::choice::{Choice, choice_of};
use rd_text::kind::Kind;
use std::io;
use std::io::Write;

/// The exit status where the goal comes behind no order that was asked for.
pub(crate) const NONE: u8 = 0;

/// The exit status where it comes behind one.
pub(crate) const FOUND: u8 = 1;

/// The exit status where that can't be told.
pub(crate) const UNTOLD: u8 = 2;

/// A question with what it is asked of.
#[derive(Drop)]
pub(crate) struct AskedQuestion<'a> {
    /// The application.
    pub(crate) app: &'a App,
    /// The command lines that the search begins behind.
    pub(crate) lines: &'a str,
    /// The question.
    pub(crate) question: &'a Question<'a>,
}

// The calls of an interrupt, a line each.
fn tell_isr<W: Write>(writer: &mut W, handlers: &[Handler], isr: usize) -> io::Result<()> {
    if let Some(handler) = handlers.get(isr) {
        for line in handler.lines.as_slice() {
            writeln!(writer, "{line}")?;
        }
    }
    Ok(())
}

/// The command lines that the search begins behind, a line each.
pub(crate) fn tell_lines<W: Write>(writer: &mut W, asked: &AskedQuestion<'_>) -> io::Result<()> {
    for line in asked.lines.lines() {
        writeln!(writer, "{line}")?;
    }
    Ok(())
}

/// The command lines of an order, a line each.
pub(crate) fn tell_order<W: Write>(
    writer: &mut W,
    asked: &AskedQuestion<'_>,
    order: &[u8],
) -> io::Result<()> {
    let cores = asked.app.program().cores();
    for number in order {
        match choice_of(cores, *number) {
            Choice::Core(core) => writeln!(writer, "step {core}")?,
            Choice::Tick => writeln!(writer, "tick")?,
            Choice::Isr(isr) => { tell_isr(writer, asked.question.isrs.as_slice(), isr as usize)? }
        }
    }
    Ok(())
}

// The instructions of a task that weren't come to, in a line, if there are some.
fn tell_missed_by<W: Write>(writer: &mut W, app: &App, task: usize, came: &Came) -> io::Result<()>
    requires named { task < length app.now.names.tasks }
    requires runs { task < length app.now.runs.tasks }
{
    let mut is_told = false;
    for instruction in 0..app.code(task).len() {
        if !came.came(task, instruction) {
            if !is_told {
                write!(writer, "no order came to {}", app.name(Kind::Task, task))?;
                is_told = true;
            }
            write!(writer, " {instruction}")?;
        }
    }
    if is_told {
        writeln!(writer)?;
    }
    Ok(())
}

/// The instructions that weren't come to, a line for each task that has some.
pub(crate) fn tell_missed<W: Write>(writer: &mut W, app: &App, came: &Came) -> io::Result<()> {
    app.limits();
    for task in 0..app.names().counts().tasks {
        tell_missed_by(writer, app, task, came)?;
    }
    Ok(())
}

/// What ended a search.
pub(crate) fn told(cause: FullCause) -> &'static str {
    match cause {
        FullCause::States => "as many states as may be kept (--states)",
        FullCause::Bytes => "as much memory as may be taken (--memory)",
        FullCause::Memory => "there is no more memory",
        FullCause::Turns => "it took as many turns as can be counted",
        FullCause::Limit => "the tick came to the last there is (--exact)",
    }
}

/// What was gone through: states that were kept, moves, and those of the longest order.
pub(crate) fn tell_counts<W: Write>(
    writer: &mut W,
    states: usize,
    moves: u64,
    deepest: usize,
) -> io::Result<()> {
    writeln!(writer, "states {states} moves {moves} deepest {deepest}")
}

// The bounds that an answer is said of: so many moves, and so many surprises, if they are counted.
fn tell_bounds<W: Write>(writer: &mut W, moves: u32, surprises: Option<u8>) -> io::Result<()> {
    match surprises {
        Some(surprises) => { write!(writer, "not within {moves} moves and {surprises} surprises") }
        None => write!(writer, "not within {moves} moves"),
    }
}

// That it is so behind no order, of whatever length.
fn tell_never<W: Write>(writer: &mut W, surprises: Option<u8>) -> io::Result<()> {
    match surprises {
        Some(surprises) => write!(writer, "not within {surprises} surprises"),
        None => write!(writer, "never"),
    }
}

// The end of the first line: the part that the answer is of, if it is of one.
fn tell_part<W: Write>(writer: &mut W, part: Option<&Part>) -> io::Result<()> {
    match part {
        Some(part) => writeln!(writer, ", part {} of {}", part.number(), part.of()),
        None => writeln!(writer),
    }
}

// The answer by itself. The exit status it has.
fn tell_answer<W: Write>(
    writer: &mut W,
    asked: &AskedQuestion<'_>,
    answer: &SearchAnswer,
) -> io::Result<u8>
    ensures { IfOk result (λ status. status ≡ status_of answer.now) }
{
    let surprises = asked.question.surprises;
    let part = asked.question.part.as_ref();
    match answer {
        SearchAnswer::Found(order) => {
            write!(writer, "found")?;
            tell_part(writer, part)?;
            tell_lines(writer, asked)?;
            tell_order(writer, asked, order.as_slice())?;
            Ok(FOUND)
        }
        SearchAnswer::Never => {
            tell_never(writer, surprises)?;
            tell_part(writer, part)?;
            Ok(NONE)
        }
        SearchAnswer::NotWithin(most) => {
            tell_bounds(writer, *most, surprises)?;
            tell_part(writer, part)?;
            Ok(NONE)
        }
        SearchAnswer::Full(depth, cause) => {
            write!(writer, "full: ")?;
            tell_bounds(writer, *depth, surprises)?;
            tell_part(writer, part)?;
            writeln!(writer, "{}", told(*cause))?;
            Ok(UNTOLD)
        }
    }
}

/// Writes the answer to a question: what it is, the order as commands behind those that the search
/// began behind, if it is one, what was gone through, and where no order was left out which
/// instructions none came to. Answers the exit status: 0 where the goal comes behind no order that
/// was asked for, 1 where it comes behind one, 2 where that can't be told.
pub(crate) fn tell<W: Write>(
    writer: &mut W,
    asked: &AskedQuestion<'_>,
    outcome: &SearchOutcome,
) -> io::Result<u8>
    ensures status { IfOk result (λ status. status ≡ status_of outcome.now.answer) }
    ensures within { IfOk result (λ status. status ≤ 2) }
{
    let status = tell_answer(writer, asked, &outcome.answer)?;
    let counts = &outcome.counts;
    tell_counts(writer, counts.states, counts.moves, counts.deepest)?;
    if status == NONE {
        tell_missed(writer, asked.app, &outcome.came)?;
    }
    Ok(status)
}
