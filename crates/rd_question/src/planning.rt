//! The schedule that a question asks for.

ghost use Rattle.std.specs.Prelude.{◌≡◌, ◌⊎◌, String, All, IfErr, IfOk, string_bytes};
ghost use Rattle.std.specs.declared.alloc.Global.{Global as Heap};
ghost use Rattle.rd_command.specs.Bindings.{known_of};
ghost use Rattle.rd_moves.specs.Carried.{IsCarriedOf};
ghost use Rattle.rd_question.specs.declared.handler.NoHandler.TheVariants.{Call, NoMemory};
ghost use Rattle.rd_question.specs.declared.handler.NoHandler.TheVariants.{Unknown};
ghost use Rattle.rd_question.specs.Asked.{AreEach, IsCallOf, IsIsrFor, IsPlanOf, IsWhyNoCall};
ghost use Rattle.rd_question.specs.Asked.{IsWhyNoCalls, IsWhyNoIsrs, IsWhyNoPlan};
ghost use Rattle.rd_reach.specs.Explored.{AreIsrsOf};
ghost use Rattle.rd_reach.specs.Plans.{IsrPlan};

use crate::handler::{Handler, NoHandler};
use crate::options::Question;
use crate::pace::Pace;
use rd_command::binding::{Bound, bind};
use rd_command::command::parse_line;
use rd_command::digits::own;
use rd_command::known::Known;
use rd_command::word::Behind;
use rd_moves::carried::Carried;
use rd_names::app::App;
use rd_reach::schedule::{Isr, Schedule};
use std::alloc::Global;

// A line that is no call of an interrupt.
fn no_call(alloc: Global, line: &str) -> NoHandler
    ensures { (result ≡ NoMemory)
        ⊎ ((call : String Heap) × (result ≡ Call call) × (line.now ≡ string_bytes call)) }
{
    match String::from_str(alloc, line) {
        Ok(call) => NoHandler::Call { call },
        Err(_) => NoHandler::NoMemory,
    }
}

// A line that names what isn't there.
fn unknown(alloc: Global, line: &str) -> NoHandler
    ensures { (result ≡ NoMemory)
        ⊎ ((call : String Heap) × (result ≡ Unknown call) × (line.now ≡ string_bytes call)) }
{
    match String::from_str(alloc, line) {
        Ok(call) => NoHandler::Unknown { call },
        Err(_) => NoHandler::NoMemory,
    }
}

// The call of an interrupt that a line makes in the application of which this is known.
fn call_of(alloc: Global, app: &App, known: &Known, line: &str) -> Result<Carried, NoHandler>
    requires known { known.now ≡ known_of app.now }
    ensures said { IfOk result (IsCallOf app.now line.now) }
    ensures named { IfOk result (IsCarriedOf app.now.runs) }
    ensures wrong { IfErr result (IsWhyNoCall app.now line.now) }
{
    let mut behind = Behind::new();
    let Ok(command) = parse_line(line.as_bytes(), &mut behind) else {
        return Err(no_call(alloc, line));
    };
    app.limits();
    match bind(&command, known) {
        Ok(Bound::Asks { request }) => match request.split() {
            Err(carried) => match carried {
                Carried::Interrupt { .. } => Ok(own(carried)),
                Carried::Edit { .. } => Err(no_call(alloc, line)),
            },
            Ok(_) => Err(no_call(alloc, line)),
        },
        Ok(
            Bound::AsksByWatch { .. }
            | Bound::TakesWheel
            | Bound::GivesWheel
            | Bound::Keeps { .. }
            | Bound::Drops { .. }
            | Bound::Looks { .. },
        ) => Err(no_call(alloc, line)),
        Err(_) => Err(unknown(alloc, line)),
    }
}

// The calls that the lines make, in a row.
fn calls_of(
    alloc: Global,
    app: &App,
    known: &Known,
    lines: &[String],
) -> Result<Vec<Carried>, NoHandler>
    requires known { known.now ≡ known_of app.now }
    ensures said { IfOk result (λ calls.
        AreEach (λ line call. IsCallOf app.now (string_bytes line) call) lines.now calls.items) }
    ensures named { IfOk result (λ calls. All (IsCarriedOf app.now.runs) calls.items) }
    ensures wrong { IfErr result (IsWhyNoCalls app.now lines.now) }
{
    let mut calls = Vec::new(alloc);
    for line in lines {
        let call = call_of(alloc, app, known, line.as_str())?;
        calls.push(call)?;
    }
    Ok(calls)
}

// The interrupts that are asked for.
fn isrs_of(
    alloc: Global,
    app: &App,
    known: &Known,
    handlers: &[Handler],
) -> Result<Vec<Isr>, NoHandler>
    requires known { known.now ≡ known_of app.now }
    ensures said { IfOk result (λ isrs. AreEach (IsIsrFor app.now) handlers.now isrs.items) }
    ensures named { IfOk result (λ isrs.
        All (λ (isr : IsrPlan). All (IsCarriedOf app.now.runs) isr.calls) isrs.items) }
    ensures wrong { IfErr result (IsWhyNoIsrs app.now handlers.now) }
{
    let mut isrs = Vec::new(alloc);
    for handler in handlers {
        let calls = calls_of(alloc, app, known, handler.lines.as_slice())?;
        let isr = Isr::new(calls, handler.times, handler.follows, handler.apart);
        isrs.push(isr)?;
    }
    Ok(isrs)
}

/// The schedule that a question asks for, of an application. `NoIsr` where its profile has no
/// interrupts, `Call` and `Unknown` where a call of one is none or names what isn't there,
/// `TooMany` where there are more than 16, `NoMemory` where there is no memory for it.
#[tactic(auto, using(crate::proofs::AskedLaws::is_plan, crate::proofs::AskedLaws::are_isrs))]
pub fn schedule_of(alloc: Global, app: &App, question: &Question<'_>) -> Result<Schedule, NoHandler>
    ensures plan { IfOk result (IsPlanOf app.now question.now) }
    ensures isrs { IfOk result (AreIsrsOf app.now.runs) }
    ensures wrong { IfErr result (IsWhyNoPlan app.now question.now) }
{
    let handlers = question.isrs.as_slice();
    if !handlers.is_empty() && !app.profile().has_interrupts() {
        return Err(NoHandler::NoIsr);
    }
    let known = Known::of(alloc, app)?;
    let isrs = isrs_of(alloc, app, &known, handlers)?;
    let Pace { at_least, at_most } = question.pace;
    Schedule::new(at_least, at_most, isrs, question.surprises).ok_or(NoHandler::TooMany)
}
