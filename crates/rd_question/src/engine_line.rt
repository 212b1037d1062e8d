//! What a line says to the engine.

ghost use Rattle.std.specs.Prelude.{◌≡◌, ◌≤◌, None, codes, IfErr, IfOk, IfSome};
ghost use Rattle.std.specs.Result.{result_ok};
ghost use Rattle.std.specs.List.{after_first, before_first};
ghost use Rattle.rd_question.specs.Said.{IsLimitSaid, IsLine, IsLineWithinLimits, IsPaceSaid};
ghost use Rattle.rd_question.specs.Said.{IsSaid, IsSetting, IsSwitchSaid, IsWithinLimits, is_blank};
ghost use Rattle.rd_question.specs.Said.{IsWhyNoLine, IsWhyNoSetting, IsWhyUnsaid};
ghost use Rattle.rd_question.specs.Numbers.{number_within};
ghost use Rattle.rd_question.specs.declared.fault.ReachFault.TheVariants as fault;

use crate::engine_isr::said_of;
use crate::fault::ReachFault;
use crate::handler::Said;
use crate::numbers::number_within;
use crate::options::{MAX_MEMORY, MAX_MOVES, MAX_STATES};
use crate::pace::{NO_PACE, Pace, pace_of};
use crate::query::Query;

/// How many surprises an order may have at the most, where they are counted.
pub const MAX_SURPRISES: usize = 255;

/// What a line changes of what is asked for beside the goal.
#[derive(Clone, Copy)]
pub enum EngineSetting<'a> {
    /// The pace, by `pace M..N` or `pace none`.
    Pace { pace: Pace },
    /// How many surprises an order has at the most, by `surprises N`; none, by `surprises none`:
    /// they aren't counted.
    Surprises { most: Option<u8> },
    /// How many choices an order has at the most, by `moves N`, or that it has any length, by
    /// `moves none`.
    Moves { most: Option<u32> },
    /// How many states are kept, by `states N`.
    States { most: usize },
    /// How many mebibytes are kept, by `memory N`.
    Memory { most: usize },
    /// Whether states are told apart to the last field, by `exact on` or `exact off`.
    Exact { exact: bool },
    /// One more interrupt may come, by `isr CALLS [times N|any] [after I] [apart T]`.
    Isr { said: Said<'a> },
    /// No interrupt may come, by `isr none`.
    NoIsrs,
}

/// What a line says.
#[derive(Clone, Copy)]
pub enum EngineLine<'a> {
    /// `from`: a search begins at boot.
    Boot,
    /// `from PATH`: it begins behind the command lines of this file.
    From { path: &'a str },
    /// `line COMMAND`: it begins behind one command line more.
    Command { command: &'a str },
    /// A setting.
    Set { setting: EngineSetting<'a> },
    /// `reach GOAL`, `lost GOAL` or `doomed GOAL`: what is asked of the goal.
    Ask { query: Query, goal: &'a str },
    /// `help`: what lines there are.
    Help,
    /// `quit`: the engine ends.
    Quit,
}

// The number that a word writes, which is one of these.
fn limit_of(
    word: &str,
    option: &'static str,
    least: usize,
    most: usize,
) -> Result<usize, ReachFault>
    ensures exact { result_ok result ≡ number_within least most word.now }
    ensures within { IfOk result (λ number. number ≤ most) }
    ensures wrong { IfErr result (λ cause. (cause ≡ fault.Number option.entry least most)
        × (number_within least most word.now ≡ None)) }
{
    number_within(word, least, most).ok_or(ReachFault::Number {
        option,
        least,
        most,
    })
}

// The pace that is said, or none.
fn pace_within(word: &str) -> Result<Pace, ReachFault>
    ensures said { IfOk result (IsPaceSaid word.now) }
    ensures wrong { IfErr result (IsWhyNoSetting (codes "pace") word.now) }
{
    if word == "none" {
        return Ok(NO_PACE);
    }
    Ok(pace_of(word)?)
}

// How many surprises are said, or that they aren't counted.
fn surprises_within(word: &str) -> Result<Option<u8>, ReachFault>
    ensures said { IfOk result (IsLimitSaid MAX_SURPRISES word.now) }
    ensures wrong { IfErr result (IsWhyNoSetting (codes "surprises") word.now) }
{
    if word == "none" {
        return Ok(None);
    }
    let most = limit_of(word, "--surprises", 0, MAX_SURPRISES)?;
    Ok(Some(most as u8))
}

// How many choices are said, or that there may be any number of them.
fn moves_within(word: &str) -> Result<Option<u32>, ReachFault>
    ensures said { IfOk result (IsLimitSaid MAX_MOVES word.now) }
    ensures limit { IfOk result (λ most. IfSome most (λ number. number ≤ MAX_MOVES)) }
    ensures wrong { IfErr result (IsWhyNoSetting (codes "moves") word.now) }
{
    if word == "none" {
        return Ok(None);
    }
    let most = limit_of(word, "--moves", 0, MAX_MOVES)?;
    Ok(Some(most as u32))
}

// Whether it is said to be on.
fn switch_of(word: &str) -> Result<bool, ReachFault>
    ensures said { IfOk result (IsSwitchSaid word.now) }
    ensures wrong { IfErr result (IsWhyNoSetting (codes "exact") word.now) }
{
    match word {
        "on" => Ok(true),
        "off" => Ok(false),
        _ => Err(ReachFault::Switch),
    }
}

// The interrupt that is said, or none.
fn isr_within(words: &str) -> Result<EngineSetting<'_>, ReachFault>
    ensures said { IfOk result (IsSetting (codes "isr") words.entry.now) }
    ensures limits { IfOk result IsWithinLimits }
    ensures wrong { IfErr result (IsWhyNoSetting (codes "isr") words.entry.now) }
{
    if words == "none" {
        return Ok(EngineSetting::NoIsrs);
    }
    let said = said_of(words)?;
    Ok(EngineSetting::Isr { said })
}

// The setting that a line says by its keyword and what stands behind it. `NoLine` where it says
// none.
fn setting_of<'a>(keyword: &str, operand: &'a str) -> Result<EngineSetting<'a>, ReachFault>
    ensures said { IfOk result (IsSetting keyword.now operand.entry.now) }
    ensures limits { IfOk result IsWithinLimits }
    ensures wrong { IfErr result (IsWhyNoSetting keyword.now operand.entry.now) }
{
    match keyword {
        "pace" => {
            let pace = pace_within(operand)?;
            Ok(EngineSetting::Pace { pace })
        }
        "surprises" => {
            let most = surprises_within(operand)?;
            Ok(EngineSetting::Surprises { most })
        }
        "moves" => {
            let most = moves_within(operand)?;
            Ok(EngineSetting::Moves { most })
        }
        "states" => {
            let most = limit_of(operand, "--states", 1, MAX_STATES)?;
            Ok(EngineSetting::States { most })
        }
        "memory" => {
            let most = limit_of(operand, "--memory", 1, MAX_MEMORY)?;
            Ok(EngineSetting::Memory { most })
        }
        "exact" => {
            let exact = switch_of(operand)?;
            Ok(EngineSetting::Exact { exact })
        }
        "isr" => isr_within(operand),
        _ => Err(ReachFault::NoLine),
    }
}

// What stands before the first space of a text, and what stands behind it.
#[tactic(auto, using(crate::proofs::SaidLaws::nothing_behind))]
fn in_two(text: &str) -> (&str, &str)
    ensures before { result.0.now ≡ before_first is_blank text.entry.now }
    ensures behind { result.1.now ≡ after_first is_blank text.entry.now }
{
    match text.split_once(' ') {
        Some((front, back)) => (front, back),
        None => (text, ""),
    }
}

// Where a search begins, by what stands behind `from`.
fn start_in(path: &str) -> EngineLine<'_>
    ensures said { IsLine (codes "from") path.entry.now result }
    ensures limits { IsLineWithinLimits result }
{
    if path.is_empty() {
        EngineLine::Boot
    } else {
        EngineLine::From { path }
    }
}

// What a line says by its keyword and what stands behind it. `NoLine` where it says nothing.
fn line_in<'a>(keyword: &str, operand: &'a str) -> Result<EngineLine<'a>, ReachFault>
    ensures said { IfOk result (IsLine keyword.now operand.entry.now) }
    ensures limits { IfOk result IsLineWithinLimits }
    ensures wrong { IfErr result (IsWhyNoLine keyword.now operand.entry.now) }
{
    match keyword {
        "reach" => Ok(EngineLine::Ask {
            query: Query::Reach,
            goal: operand,
        }),
        "lost" => Ok(EngineLine::Ask {
            query: Query::Lost,
            goal: operand,
        }),
        "doomed" => Ok(EngineLine::Ask {
            query: Query::Doomed,
            goal: operand,
        }),
        "line" => Ok(EngineLine::Command { command: operand }),
        "from" => Ok(start_in(operand)),
        "help" if operand.is_empty() => Ok(EngineLine::Help),
        "quit" if operand.is_empty() => Ok(EngineLine::Quit),
        _ => {
            let setting = setting_of(keyword, operand)?;
            Ok(EngineLine::Set { setting })
        }
    }
}

/// What a line says: `from`, `from PATH`, `line COMMAND`, `pace M..N`, `pace none`, `surprises N`,
/// `surprises none`, `moves N`, `moves none`, `states N`, `memory N`, `exact on`, `exact off`,
/// `isr CALLS [times N|any] [after I] [apart T]`, `isr none`, `reach GOAL`, `lost GOAL`,
/// `doomed GOAL`, `help` or `quit`. Spaces at either end are dropped. `NoLine` where it is none of
/// these, `Number` where a number isn't one that may be asked for, `Pace` where the pace is none,
/// `Switch` where it says neither on nor off, `Isr` where an option of an interrupt is said twice.
/// Whether its goal, its command line or its calls are some, and what its path leads to, isn't asked
/// here.
pub fn line_of(text: &str) -> Result<EngineLine<'_>, ReachFault>
    ensures said { IfOk result (IsSaid text.entry.now) }
    ensures limits { IfOk result IsLineWithinLimits }
    ensures wrong { IfErr result (IsWhyUnsaid text.entry.now) }
{
    let (keyword, operand) = in_two(text.trim());
    line_in(keyword, operand.trim())
}
