//! The interrupts that a command line asks for: `--isr CALLS [--times N] [--after I] [--apart T]`,
//! several times, where each of the others belongs to the `--isr` before it.

ghost use Rattle.std.specs.Prelude.{◌≡◌, ◌≤◌, ◌⊎◌, IfErr, IfOk, IfSome, codes, false, is_some};
ghost use Rattle.std.specs.Prelude.{length, true};
ghost use Rattle.std.specs.List.{IsAmong as IsOneOf};
ghost use Rattle.clap.specs.Words.{all_of, found_of, rows_of, rule_of};
ghost use Rattle.rd_question.specs.Asked.{AreEach};
ghost use Rattle.rd_question.specs.CommandLine.{IsSaidIn, IsTwice, IsWrongIn, repeated, texts_of};
ghost use Rattle.rd_question.specs.Handlers.{HasCalls};
ghost use Rattle.rd_question.specs.declared.handler.NoHandler.TheVariants.{NoMemory, Stray};
ghost use Rattle.rd_question.specs.declared.handler.NoHandler.TheVariants.{Twice};

use crate::handler::{Handler, NoHandler, Said, handler_of};
use clap::{Arg, ArgAction, ArgMatches};
use std::alloc::Global;

// One of the options that belong to an interrupt: what it is found by, and how it is written.
#[derive(Clone, Copy)]
struct Belonging {
    id: &'static str,
    option: &'static str,
}

const TIMES: Belonging = Belonging {
    id: "times",
    option: "--times",
};

const AFTER: Belonging = Belonging {
    id: "after",
    option: "--after",
};

const APART: Belonging = Belonging {
    id: "apart",
    option: "--apart",
};

/// `--isr CALLS`.
pub(crate) fn isr_arg<'a>(alloc: Global) -> Arg<'a>
    ensures rule { rule_of result ≡ repeated (codes "isr") }
    ensures local { result.global ≡ false }
{
    Arg::new(alloc, "isr")
        .long("isr")
        .value_name("CALLS")
        .action(ArgAction::Append)
        .help("An interrupt that may come: 'send rx 41', several calls with ; between them")
}

/// `--times N`.
pub(crate) fn times_arg<'a>(alloc: Global) -> Arg<'a>
    ensures rule { rule_of result ≡ repeated (codes "times") }
    ensures local { result.global ≡ false }
{
    Arg::new(alloc, "times")
        .long("times")
        .value_name("N")
        .action(ArgAction::Append)
        .help("How often the --isr before it comes at the most: 1 to 255, or any; 1 by itself")
}

/// `--after I`.
pub(crate) fn after_arg<'a>(alloc: Global) -> Arg<'a>
    ensures rule { rule_of result ≡ repeated (codes "after") }
    ensures local { result.global ≡ false }
{
    Arg::new(alloc, "after")
        .long("after")
        .value_name("I")
        .action(ArgAction::Append)
        .help("The --isr before it comes more rarely than the Ith, of which the first is 0")
}

/// `--apart T`.
pub(crate) fn apart_arg<'a>(alloc: Global) -> Arg<'a>
    ensures rule { rule_of result ≡ repeated (codes "apart") }
    ensures local { result.global ≡ false }
{
    Arg::new(alloc, "apart")
        .long("apart")
        .value_name("T")
        .action(ArgAction::Append)
        .help("The --isr before it comes again no sooner than T ticks after itself, 0 to 255")
}

// What is said by the option between two places among the words.
fn said_between<'a>(
    matches: &ArgMatches<'a>,
    belonging: Belonging,
    from: usize,
    to: usize,
) -> Result<Option<&'a str>, NoHandler>
    ensures said { IfOk result (λ said. IfSome said (λ text.
        IsOneOf (texts_of belonging.id.now (rows_of (found_of matches.now))) text.now)) }
    ensures twice { IfErr result (λ why. (why ≡ Twice belonging.option)
        × (2 ≤ length (texts_of belonging.id.now (rows_of (found_of matches.now))))) }
{
    let places = matches.indices_of(belonging.id).unwrap_or(&[]);
    let texts = matches.get_strs(belonging.id).unwrap_or(&[]);
    let mut said = None;
    for (at, text) in texts.iter().enumerate() {
        let place = places.get(at).copied().unwrap_or(from);
        if from < place && place < to {
            if said.is_some() {
                return Err(NoHandler::Twice {
                    option: belonging.option,
                });
            }
            said = Some(*text);
        }
    }
    Ok(said)
}

// Refuses an option that stands before a place among the words.
fn refuse_before(
    matches: &ArgMatches<'_>,
    belonging: Belonging,
    first: usize,
) -> Result<(), NoHandler>
    ensures { IfErr result (λ why. (why ≡ Stray belonging.option)
        × (is_some (all_of belonging.id.now (rows_of (found_of matches.now))) ≡ true)) }
{
    let Some(places) = matches.indices_of(belonging.id) else {
        return Ok(());
    };
    for place in places {
        if *place < first {
            return Err(NoHandler::Stray {
                option: belonging.option,
            });
        }
    }
    Ok(())
}

// What is said of the interrupt at this place among all, which has these calls.
fn said_at<'a>(
    matches: &ArgMatches<'a>,
    places: &[usize],
    at: usize,
    calls: &'a str,
) -> Result<Said<'a>, NoHandler>
    ensures calls { IfOk result (λ said. said.calls.now ≡ calls.entry.now) }
    ensures options { IfOk result (IsSaidIn (rows_of (found_of matches.now))) }
    ensures wrong { IfErr result (IsTwice (rows_of (found_of matches.now))) }
{
    let from = places.get(at).copied().unwrap_or(0);
    let to = places
        .get(at.saturating_add(1))
        .copied()
        .unwrap_or(usize::MAX);
    Ok(Said {
        calls,
        times: said_between(matches, TIMES, from, to)?,
        after: said_between(matches, AFTER, from, to)?,
        apart: said_between(matches, APART, from, to)?,
    })
}

/// The interrupts that were found among the options, in the order in which they were said. `Stray`
/// where an option stands before all of them, `Twice` where one is said twice of one, and what
/// `handler_of` refuses.
pub(crate) fn handlers_in(
    alloc: Global,
    matches: &ArgMatches<'_>,
) -> Result<Vec<Handler>, NoHandler>
    ensures calls { IfOk result (λ handlers. AreEach HasCalls
        (texts_of (codes "isr") (rows_of (found_of matches.now))) handlers.items) }
    ensures wrong { IfErr result (λ why. (why ≡ NoMemory)
        ⊎ IsWrongIn (rows_of (found_of matches.now)) why) }
{
    let texts = matches.get_strs("isr").unwrap_or(&[]);
    let places = matches.indices_of("isr").unwrap_or(&[]);
    let first = places.first().copied().unwrap_or(usize::MAX);
    refuse_before(matches, TIMES, first)?;
    refuse_before(matches, AFTER, first)?;
    refuse_before(matches, APART, first)?;
    let mut handlers = Vec::new(alloc);
    for (at, calls) in texts.iter().enumerate() {
        let said = said_at(matches, places, at, calls)?;
        let handler = handler_of(alloc, said, handlers.as_slice())?;
        handlers.push(handler)?;
    }
    Ok(handlers)
}
