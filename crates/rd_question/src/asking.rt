//! From a question to its answer.

ghost use Rattle.std.specs.Prelude.{◌<◌, ◌≤◌, IfOk};
ghost use Rattle.rd_app.specs.Application.{priorities_of};
ghost use Rattle.rd_goal.specs.Goals.{IsGoalOf};
ghost use Rattle.rd_goal.specs.Written.{IsGoalOfWords};
ghost use Rattle.rd_question.specs.Questions.{IsQuestion};
ghost use Rattle.rd_question.specs.Statuses.{IsAnswerFor, IsTold, IsToldOfFile};
ghost use Rattle.rd_question.specs.Statuses.{TellsDoomed, TellsLost, TellsReach};
ghost use Rattle.rd_reach.specs.Explored.{AreIsrsOf};
ghost use Rattle.rd_reach.specs.Places.{choices_of};
ghost use Rattle.rd_reach.specs.Searches.{IsForMost};
ghost use Rattle.rd_start.specs.Requests.{IsOfAFile};
ghost use Rattle.rd_state.specs.Settled.{IsSettled};
ghost use Rattle.rd_state.specs.Valid.{IsValid};
ghost use Rattle.rd_text.specs.Words.{texts};

use crate::fault::ReachFault;
use crate::options::Question;
use crate::planning::schedule_of;
use crate::progress::Progress;
use crate::query::Query;
use crate::start::{lines_of, run_of, start_of};
use crate::telling::{AskedQuestion, tell};
use crate::telling_doomed::tell_doomed;
use crate::telling_lost::tell_lost;
use crate::wanted::refused_goal;
use rd_answer::answer::answer;
use rd_answer::onlooker::Onlooker;
use rd_app::app::Program;
use rd_bytes::no_memory::NoMemory;
use rd_dealt::answer_part::answer_part;
use rd_doomed::doomed::doomed;
use rd_goal::goal::Goal;
use rd_goal::reading::read_goal;
use rd_lost::lost::lost;
use rd_names::app::App;
use rd_reach::answer::{SearchOutcome, SearchRoom};
use rd_reach::schedule::Schedule;
use rd_start::file::load;
use rd_state::state::State;
use std::alloc::{AllocGlobal, Global};
use std::io::{BufWriter, Write};
use std::rt::Files;

// How many bytes a mebibyte has.
const MEBIBYTE: usize = 1_048_576;

/// The application of the file at the path. `File` where there is none.
pub(crate) fn application<H: Files + AllocGlobal>(handle: &H, path: &str) -> Result<App, ReachFault>
    ensures { IfOk result IsOfAFile }
{
    match load(handle, Some(path)) {
        Ok(app) => Ok(app),
        Err(fault) => {
            let path = String::from_str(handle.alloc(), path)?;
            Err(ReachFault::File { path, fault })
        }
    }
}

// The goal of these words.
fn goal_of(alloc: Global, app: &App, words: &[&[u8]]) -> Result<Goal, ReachFault>
    ensures written { IfOk result (IsGoalOfWords app.now (texts words.now)) }
    ensures named { IfOk result (IsGoalOf app.now.runs) }
{
    match read_goal(alloc, app, words) {
        Ok(goal) => Ok(goal),
        Err(error) => Err(refused_goal(alloc, words, &error)),
    }
}

// How much may be kept.
fn room_of(question: &Question<'_>) -> SearchRoom
    requires { IsQuestion question.now }
{
    SearchRoom {
        states: question.states,
        bytes: question.memory * MEBIBYTE,
    }
}

// Refuses bounds that would leave orders out of what is said of all.
fn refuse_bounds(question: &Question<'_>) -> Result<(), ReachFault> {
    if question.moves.is_some() || question.surprises.is_some() || question.part.is_some() {
        return Err(ReachFault::Bounded);
    }
    Ok(())
}

// Whether the goal can come, by all orders or by those of a part.
fn answered<W: Onlooker>(
    alloc: Global,
    app: &Program,
    goal: &Goal,
    schedule: &Schedule,
    start: State,
    question: &Question<'_>,
    watch: &mut W,
) -> Result<SearchOutcome, NoMemory>
    requires question { IsQuestion question.now }
    requires goal { IsGoalOf app.now goal.now }
    requires isrs { AreIsrsOf app.now schedule.now }
    requires few { choices_of app.now schedule.now < 256 }
    requires valid { IsValid app.now start }
    requires settled { IsSettled (priorities_of app.now) start }
    ensures right { IfOk result (λ outcome. IsAnswerFor question.now.part app.now schedule.now
        goal.now start outcome.answer) }
    ensures most { IfOk result (λ outcome. IsForMost question.now.moves outcome.answer) }
{
    let (manner, room) = (question.manner(), room_of(question));
    match &question.part {
        None => answer(alloc, app, goal, schedule, start, manner, &room, watch),
        Some(part) => answer_part(
            alloc, app, goal, schedule, start, manner, &room, watch, part,
        ),
    }
}

// Answers whether the goal can come, and tells the answer.
fn reach<W: Write, E: Write>(
    alloc: Global,
    asked: &AskedQuestion<'_>,
    goal: &Goal,
    schedule: &Schedule,
    writer: &mut W,
    errors: &mut E,
) -> Result<u8, ReachFault>
    requires question { IsQuestion asked.now.question.now }
    requires goal { IsGoalOf asked.now.app.now.runs goal.now }
    requires isrs { AreIsrsOf asked.now.app.now.runs schedule.now }
    requires few { choices_of asked.now.app.now.runs schedule.now < 256 }
    ensures told { IfOk result (TellsReach asked.now.question.now asked.now.app.now
        schedule.now goal.now asked.now.lines.now) }
    ensures within { IfOk result (λ status. status ≤ 2) }
{
    let question = asked.question;
    let start = start_of(alloc, asked.app, question.from, asked.lines)?;
    let outcome = answered(
        alloc,
        asked.app.program(),
        goal,
        schedule,
        start,
        question,
        &mut Progress::new(errors, question.progress),
    )?;
    Ok(tell(writer, asked, &outcome)?)
}

// Answers where the run of the command lines lost the goal, and tells the answer.
fn lose<W: Write, E: Write>(
    alloc: Global,
    asked: &AskedQuestion<'_>,
    goal: &Goal,
    schedule: &Schedule,
    writer: &mut W,
    errors: &mut E,
) -> Result<u8, ReachFault>
    requires question { IsQuestion asked.now.question.now }
    requires goal { IsGoalOf asked.now.app.now.runs goal.now }
    requires isrs { AreIsrsOf asked.now.app.now.runs schedule.now }
    requires few { choices_of asked.now.app.now.runs schedule.now < 256 }
    ensures told { IfOk result (TellsLost asked.now.app.now schedule.now goal.now
        asked.now.lines.now) }
    ensures within { IfOk result (λ status. status ≤ 2) }
{
    let question = asked.question;
    refuse_bounds(question)?;
    let mut run = run_of(alloc, asked.app, question.from, asked.lines)?;
    let outcome = lost(
        alloc,
        asked.app.program(),
        goal,
        schedule,
        &mut run,
        question.manner(),
        &room_of(question),
        &mut Progress::new(errors, question.progress),
    );
    let (first, moves) = (run.first(), run.places());
    run.close();
    Ok(tell_lost(writer, asked, first, moves, &outcome)?)
}

// Answers whether the goal can be lost, and tells the answer.
fn doom<W: Write, E: Write>(
    alloc: Global,
    asked: &AskedQuestion<'_>,
    goal: &Goal,
    schedule: &Schedule,
    writer: &mut W,
    errors: &mut E,
) -> Result<u8, ReachFault>
    requires question { IsQuestion asked.now.question.now }
    requires goal { IsGoalOf asked.now.app.now.runs goal.now }
    requires isrs { AreIsrsOf asked.now.app.now.runs schedule.now }
    requires few { choices_of asked.now.app.now.runs schedule.now < 256 }
    ensures told { IfOk result (TellsDoomed asked.now.app.now schedule.now goal.now
        asked.now.lines.now) }
    ensures within { IfOk result (λ status. status ≤ 2) }
{
    let question = asked.question;
    refuse_bounds(question)?;
    let start = start_of(alloc, asked.app, question.from, asked.lines)?;
    let outcome = doomed(
        alloc,
        asked.app.program(),
        goal,
        schedule,
        start,
        question.exact,
        &room_of(question),
        &mut Progress::new(errors, question.progress),
    )?;
    Ok(tell_doomed(writer, asked, &outcome)?)
}

/// Answers what is asked of the goal of these words, by what the question says beside its own goal,
/// and tells the answer; meanwhile `errors` is told how far the search is, where that was asked for.
/// Answers the exit status: 0 where the goal comes no more, or comes from everywhere, 1 where an
/// order was found, 2 where that can't be told. `Goal` where the words are none, `Isr` where an
/// interrupt is none that may come, `Bounded` where moves or surprises are bounded and no order may be
/// left out, `Start` where the command lines lead to none, `NoMemory` where there is none to begin,
/// `Unwritten` where the answer can't be written.
pub(crate) fn respond<W: Write, E: Write>(
    alloc: Global,
    asked: &AskedQuestion<'_>,
    query: Query,
    words: &[&[u8]],
    writer: &mut W,
    errors: &mut E,
) -> Result<u8, ReachFault>
    requires { IsQuestion asked.now.question.now }
    ensures told { IfOk result (IsTold query asked.now.question.now asked.now.app.now
        asked.now.lines.now (texts words.now)) }
    ensures within { IfOk result (λ status. status ≤ 2) }
{
    let goal = goal_of(alloc, asked.app, words)?;
    let schedule = schedule_of(alloc, asked.app, asked.question)?;
    let _few = schedule.isrs();
    asked.app.limits();
    match query {
        Query::Reach => reach(alloc, asked, &goal, &schedule, writer, errors),
        Query::Lost => lose(alloc, asked, &goal, &schedule, writer, errors),
        Query::Doomed => doom(alloc, asked, &goal, &schedule, writer, errors),
    }
}

/// Answers as `respond` does. The answer is buffered, and all of it is written before this returns.
///
/// Errors: those of `respond`.
fn respond_buffered<W: Write, E: Write>(
    alloc: Global,
    asked: &AskedQuestion<'_>,
    query: Query,
    words: &[&[u8]],
    writer: &mut W,
    errors: &mut E,
) -> Result<u8, ReachFault>
    requires { IsQuestion asked.now.question.now }
    ensures told { IfOk result (IsTold query asked.now.question.now asked.now.app.now
        asked.now.lines.now (texts words.now)) }
    ensures within { IfOk result (λ status. status ≤ 2) }
{
    let Ok(mut buffered) = BufWriter::new(alloc, writer) else {
        return Err(ReachFault::NoMemory);
    };
    let status = respond(alloc, asked, query, words, &mut buffered, errors)?;
    buffered.flush()?;
    Ok(status)
}

/// Answers a question about an application file as `respond` does. The answer is buffered, and all
/// of it is written before this returns.
///
/// Errors: those of `respond`, `File` if the file has no application, `Lines` if there are no
/// command lines.
pub(crate) fn ask<H: Files + AllocGlobal, W: Write, E: Write>(
    handle: &H,
    question: &Question<'_>,
    writer: &mut W,
    errors: &mut E,
) -> Result<u8, ReachFault>
    requires { IsQuestion question.now }
    ensures told { IfOk result (IsToldOfFile question.now) }
    ensures within { IfOk result (λ status. status ≤ 2) }
{
    let app = application(handle, question.file)?;
    let lines = lines_of(handle, question.from)?;
    let asked = AskedQuestion {
        app: &app,
        lines: lines.as_str(),
        question,
    };
    respond_buffered(
        handle.alloc(),
        &asked,
        question.query,
        question.goal.as_slice(),
        writer,
        errors,
    )
}
