//! Command lines, played by a timeline.

ghost use Rattle.std.specs.Prelude.{◌≡◌, ◌≢◌, Err, IfErr, IfOk, Ok, OnOk, Some};
ghost use Rattle.std.specs.Str.Lines.{lines};
ghost use Rattle.rd_text.specs.Words.{texts};
ghost use Rattle.rd_moves.specs.Requests.{IsRequestOf};
ghost use Rattle.rd_timeline.specs.Runs.{moves_of, response_to};
ghost use Rattle.rd_command.specs.Bindings.{known_of};
ghost use Rattle.rd_command.specs.Keywords.{carrying};
ghost use Rattle.rd_origin.specs.Playing.{command_played, left_by, line_played, lines_played};
ghost use Rattle.rd_origin.specs.Playing.{refusal_in};
ghost use Rattle.rd_origin.specs.declared.cause.NoOrigin.TheVariants.{NoMemory};

use crate::cause::NoOrigin;
use rd_command::binding::{Bound, bind};
use rd_command::command::{Command, parse_line};
use rd_command::demand::Demand;
use rd_command::digits::{Digits, own};
use rd_command::known::Known;
use rd_command::word::Behind;
use rd_moves::answer::Answer;
use rd_moves::carried::{Carried, Lent};
use rd_moves::moves::Move;
use rd_moves::request::Request;
use rd_names::app::App;
use rd_refusal::refusal::Refusal;
use rd_timeline::timeline::Timeline;
use std::alloc::{AllocError, Global};

/// How many moves may be done: as many as a run can be given.
pub const MAX_MOVES: usize = 1_000_000;

/// How many bytes a line has at the most.
pub const MAX_LINE: usize = 1024;

// Why a request was refused, if it was.
fn refusal_in(answer: Answer) -> Option<Refusal>
    ensures { result ≡ refusal_in answer }
{
    match answer {
        Answer::Refused { refusal } => Some(refusal),
        Answer::Done { .. } | Answer::Answered { .. } | Answer::Ended { .. } => None,
    }
}

// Asks the timeline, for the line with this number.
#[tactic(auto, using(crate::proofs::PlayingLaws::leaves, crate::proofs::PlayingLaws::stops))]
fn ask(timeline: &mut Timeline, request: &Request<Lent<'_>>, number: usize) -> Result<(), NoOrigin>
    requires named { IsRequestOf timeline.old.app request.now }
    requires limit { timeline.old.limit ≡ MAX_MOVES }
    ensures ok { OnOk result (left_by number
        (response_to timeline.old.app MAX_MOVES (moves_of timeline.old) request.now)
        ≡ Ok (moves_of timeline.new)) }
    ensures err { IfErr result (λ cause. cause ≢ NoMemory → left_by number
        (response_to timeline.old.app MAX_MOVES (moves_of timeline.old) request.now)
        ≡ Err cause) }
    ensures app { timeline.new.app ≡ timeline.old.app }
    ensures same_limit { timeline.new.limit ≡ timeline.old.limit }
{
    match refusal_in(timeline.answer(request)?) {
        Some(refusal) => Err(NoOrigin::Refused {
            line: number,
            refusal,
        }),
        None => Ok(()),
    }
}

// The same, for a move with what it carries, whose bytes are read here and stand here meanwhile.
fn carry(
    timeline: &mut Timeline,
    carried: &Carried<Digits<'_>>,
    number: usize,
) -> Result<(), NoOrigin>
    requires named { IsRequestOf timeline.old.app (carrying carried.now) }
    requires limit { timeline.old.limit ≡ MAX_MOVES }
    ensures ok { OnOk result (left_by number
        (response_to timeline.old.app MAX_MOVES (moves_of timeline.old) (carrying carried.now))
        ≡ Ok (moves_of timeline.new)) }
    ensures err { IfErr result (λ cause. cause ≢ NoMemory → left_by number
        (response_to timeline.old.app MAX_MOVES (moves_of timeline.old) (carrying carried.now))
        ≡ Err cause) }
    ensures app { timeline.new.app ≡ timeline.old.app }
    ensures same_limit { timeline.new.limit ≡ timeline.old.limit }
{
    let carried = own(carried);
    let carried = Lent::new(&carried);
    let action = Move::Carried { carried };
    ask(timeline, &Request::Go { action }, number)
}

// The same, for what a command asks of it.
fn demand(timeline: &mut Timeline, asked: &Demand<'_>, number: usize) -> Result<(), NoOrigin>
    requires named { IsRequestOf timeline.old.app asked.now }
    requires limit { timeline.old.limit ≡ MAX_MOVES }
    ensures ok { OnOk result (left_by number
        (response_to timeline.old.app MAX_MOVES (moves_of timeline.old) asked.now)
        ≡ Ok (moves_of timeline.new)) }
    ensures err { IfErr result (λ cause. cause ≢ NoMemory → left_by number
        (response_to timeline.old.app MAX_MOVES (moves_of timeline.old) asked.now)
        ≡ Err cause) }
    ensures app { timeline.new.app ≡ timeline.old.app }
    ensures same_limit { timeline.new.limit ≡ timeline.old.limit }
{
    match asked.split() {
        Ok(request) => ask(timeline, request, number),
        Err(carried) => carry(timeline, carried, number),
    }
}

// Plays a command, which stands on the line with this number.
fn play_command(
    timeline: &mut Timeline,
    app: &App,
    known: &Known,
    command: &Command<'_, '_>,
    number: usize,
) -> Result<(), NoOrigin>
    requires application { timeline.old.app ≡ app.now.runs }
    requires known { known.now ≡ known_of app.now }
    requires limit { timeline.old.limit ≡ MAX_MOVES }
    ensures ok { OnOk result
        (command_played app.now (moves_of timeline.old) number (Some command.now)
        ≡ Ok (moves_of timeline.new)) }
    ensures err { IfErr result (λ cause. cause ≢ NoMemory
        → command_played app.now (moves_of timeline.old) number (Some command.now)
        ≡ Err cause) }
    ensures app { timeline.new.app ≡ timeline.old.app }
    ensures same_limit { timeline.new.limit ≡ timeline.old.limit }
{
    app.limits();
    let refusal = match &bind(command, known) {
        Ok(bound) => match bound {
            Bound::Asks { request } => return demand(timeline, request, number),
            Bound::AsksByWatch { .. } => Refusal::NoWatch,
            Bound::TakesWheel
            | Bound::GivesWheel
            | Bound::Keeps { .. }
            | Bound::Drops { .. }
            | Bound::Looks { .. } => return Ok(()),
        },
        Err(_) => Refusal::NoSuch,
    };
    Err(NoOrigin::Refused {
        line: number,
        refusal,
    })
}

// Plays the line with this number.
#[tactic(auto, unfolding(crate::specs::Playing::line_played))]
fn play_line(
    timeline: &mut Timeline,
    app: &App,
    known: &Known,
    line: &[u8],
    number: usize,
) -> Result<(), NoOrigin>
    requires application { timeline.old.app ≡ app.now.runs }
    requires known { known.now ≡ known_of app.now }
    requires limit { timeline.old.limit ≡ MAX_MOVES }
    ensures ok { OnOk result (line_played app.now (moves_of timeline.old) number line.now
        ≡ Ok (moves_of timeline.new)) }
    ensures err { IfErr result (λ cause. cause ≢ NoMemory
        → line_played app.now (moves_of timeline.old) number line.now ≡ Err cause) }
    ensures app { timeline.new.app ≡ timeline.old.app }
    ensures same_limit { timeline.new.limit ≡ timeline.old.limit }
{
    if line.len() > MAX_LINE {
        return Err(NoOrigin::BadLine { line: number });
    }
    let mut behind = Behind::new();
    // (looked at where it is, since what is taken out of a result is copied)
    match &parse_line(line, &mut behind) {
        Ok(command) => play_command(timeline, app, known, command, number),
        Err(_) => Err(NoOrigin::BadLine { line: number }),
    }
}

// Plays these lines.
fn play_all(
    timeline: &mut Timeline,
    app: &App,
    known: &Known,
    lines: &[&str],
) -> Result<(), NoOrigin>
    requires application { timeline.old.app ≡ app.now.runs }
    requires known { known.now ≡ known_of app.now }
    requires limit { timeline.old.limit ≡ MAX_MOVES }
    ensures ok { OnOk result (lines_played app.now (moves_of timeline.old) 1 (texts lines.now)
        ≡ Ok (moves_of timeline.new)) }
    ensures err { IfErr result (λ cause. cause ≢ NoMemory
        → lines_played app.now (moves_of timeline.old) 1 (texts lines.now) ≡ Err cause) }
    ensures app { timeline.new.app ≡ timeline.old.app }
{
    for index in 0..lines.len() {
        play_line(timeline, app, known, lines[index].as_bytes(), index + 1)?;
    }
    Ok(())
}

// The lines of a text.
fn lines_in(alloc: Global, text: &str) -> Result<Vec<&str>, AllocError>
    ensures { IfOk result (λ found. texts found.items ≡ lines text.now) }
{
    text.lines().collect(alloc)
}

/// Plays the lines of a text, numbered from 1, up to the first that is no command or is refused,
/// which the error names; `NoMemory` where a growth was refused.
pub(crate) fn play_text(
    alloc: Global,
    app: &App,
    text: &str,
    timeline: &mut Timeline,
) -> Result<(), NoOrigin>
    requires application { timeline.old.app ≡ app.now.runs }
    requires limit { timeline.old.limit ≡ MAX_MOVES }
    ensures ok { OnOk result (lines_played app.now (moves_of timeline.old) 1 (lines text.now)
        ≡ Ok (moves_of timeline.new)) }
    ensures err { IfErr result (λ cause. cause ≢ NoMemory
        → lines_played app.now (moves_of timeline.old) 1 (lines text.now) ≡ Err cause) }
    ensures app { timeline.new.app ≡ timeline.old.app }
{
    let lines = lines_in(alloc, text)?;
    let known = Known::of(alloc, app)?;
    play_all(timeline, app, &known, lines.as_slice())
}
