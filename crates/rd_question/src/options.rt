//! The command line.

ghost use Rattle.std.specs.Prelude.{◌≡◌, ◌≤◌, IfErr, IfOk, IfSome, Some, codes, false, map};
ghost use Rattle.std.specs.Prelude.{[], option_map, string_bytes, unwrap_or};
ghost use Rattle.clap.specs.Words.{app_of, first_of, found_of, kind_of, rows_of, rule_of};
ghost use Rattle.rd_question.specs.CommandLine.{AreBothOn, IsAskedBy, IsAskedIn, IsBadNumber};
ghost use Rattle.rd_question.specs.CommandLine.{IsBadPace, IsBadPart, IsFaultIn, IsFaultOf};
ghost use Rattle.rd_question.specs.CommandLine.{IsFaultOfError, IsGoalFault, IsHelp, IsPaceOf};
ghost use Rattle.rd_question.specs.CommandLine.{IsPartOf, IsRequestIn};
ghost use Rattle.rd_question.specs.CommandLine.{command_line, file_word, goal_words};
ghost use Rattle.rd_question.specs.CommandLine.{has_goal, is_on, memory_option, number_of};
ghost use Rattle.rd_question.specs.CommandLine.{number_said, query_of, setting, states_option};
ghost use Rattle.rd_question.specs.CommandLine.{surprises_option, switch, texts_of, words_in};
ghost use Rattle.rd_text.specs.Words.{texts};
ghost use Rattle.rd_question.specs.Questions.{IsQuestion, IsRequest, manner_of};
ghost use Rattle.rd_question.specs.declared.fault.ReachFault.TheVariants.{Both, Number};

use crate::fault::ReachFault;
use crate::handler::Handler;
use crate::isr_options::{after_arg, apart_arg, handlers_in, isr_arg, times_arg};
use crate::pace::{NO_PACE, Pace, pace_of};
use crate::part_word::part_of;
use crate::query::Query;
use clap::error::ErrorKind;
use clap::{Arg, ArgAction, ArgMatches, Command, value_parser};
use rd_answer::manner::Manner;
use rd_dealt::part::Part;
use rd_goal::reading::words_of;
use std::alloc::{AllocError, Global};

/// The largest value of `--moves`.
pub const MAX_MOVES: usize = 1_000_000_000;

/// The largest value of `--states`.
pub const MAX_STATES: usize = 1_000_000_000;

/// The largest value of `--memory`, in mebibytes.
pub const MAX_MEMORY: usize = 1_048_576;

// The default of `--states`, as a word of the command line.
const DEFAULT_STATES_WORD: &str = "10000000";

// The default of `--memory`, as a word of the command line.
const DEFAULT_MEMORY_WORD: &str = "1024";

// The last paragraph of help.
const AS_ENGINE: &str = "With --engine, and without a goal, rdreach answers each line of standard \
    input and ends each\nanswer with an empty line; the line 'help' lists the lines it accepts\n";

/// A question about an application, or the first settings of an engine.
#[derive(Drop)]
pub struct Question<'a> {
    /// The path of the application file.
    pub file: &'a str,
    /// The words of the goal; none for an engine, which reads goals from lines.
    pub goal: Vec<&'a [u8]>,
    /// Which question is asked about the goal.
    pub query: Query,
    /// The path of the commands after which the search starts; none: it starts at boot.
    pub from: Option<&'a str>,
    /// The most moves that a run may have; none: any number.
    pub moves: Option<u32>,
    /// The pace.
    pub pace: Pace,
    /// The interrupts that may occur.
    pub isrs: Vec<Handler>,
    /// The most surprises that a run may have; none: they are not counted.
    pub surprises: Option<u8>,
    /// The most states that the search may store: 1 to 1,000,000,000.
    pub states: usize,
    /// The mebibytes that stored states may take: 1 to 1,048,576.
    pub memory: usize,
    /// The part of all runs that is searched; none: all of them.
    pub part: Option<Part>,
    /// Whether states that differ in any field are distinguished.
    pub exact: bool,
    /// Whether progress is reported during the search.
    pub progress: bool,
}

impl<'a> Question<'a> {
    /// Returns the options of the search.
    pub(crate) fn manner(&self) -> Manner
        ensures { result ≡ manner_of self.now }
    {
        Manner {
            most: self.moves,
            exact: self.exact,
        }
    }
}

/// The request of a command line.
#[derive(Drop)]
pub enum ReachRequest<'a> {
    /// Answer a question.
    Ask { question: Question<'a> },
    /// Answer the lines of standard input, with these settings at first.
    Engine { question: Question<'a> },
    /// Print help.
    Help { text: String },
}

// `FILE`.
fn file_arg<'a>(alloc: Global) -> Arg<'a>
    ensures rule { rule_of result ≡ file_word }
    ensures local { result.global ≡ false }
{
    Arg::new(alloc, "FILE")
        .required(true)
        .help("The application file")
}

// `GOAL..`.
fn goal_arg<'a>(alloc: Global) -> Arg<'a>
    ensures rule { rule_of result ≡ goal_words }
    ensures local { result.global ≡ false }
{
    Arg::new(alloc, "GOAL")
        .num_args(1..)
        .action(ArgAction::Append)
        .help("What is looked for, as one word or several: 'count q = 2 and not asleep'")
}

// `--lost`.
fn lost_arg<'a>(alloc: Global) -> Arg<'a>
    ensures rule { rule_of result ≡ switch (codes "lost") }
    ensures local { result.global ≡ false }
{
    Arg::new(alloc, "lost")
        .long("lost")
        .action(ArgAction::SetTrue)
        .help("Asks from which place of the run of --from on the goal can come no more")
}

// `--doomed`.
fn doomed_arg<'a>(alloc: Global) -> Arg<'a>
    ensures rule { rule_of result ≡ switch (codes "doomed") }
    ensures local { result.global ≡ false }
{
    Arg::new(alloc, "doomed")
        .long("doomed")
        .action(ArgAction::SetTrue)
        .help("Asks for an order to a place from which the goal can come no more")
}

// `--from COMMANDS`.
fn from_arg<'a>(alloc: Global) -> Arg<'a>
    ensures rule { rule_of result ≡ setting (codes "from") }
    ensures local { result.global ≡ false }
{
    Arg::new(alloc, "from")
        .long("from")
        .value_name("COMMANDS")
        .help("A file of command lines, behind which the search begins, in place of boot")
}

// `--moves N`.
fn moves_arg<'a>(alloc: Global) -> Arg<'a>
    ensures rule { rule_of result ≡ number_of 0 MAX_MOVES (codes "moves") }
    ensures local { result.global ≡ false }
{
    Arg::new(alloc, "moves")
        .long("moves")
        .value_name("N")
        .value_parser(value_parser!(usize).range(0..=MAX_MOVES as i64))
        .help("Orders of at most N moves alone, and not of any length")
}

// `--pace M..N`.
fn pace_arg<'a>(alloc: Global) -> Arg<'a>
    ensures rule { rule_of result ≡ setting (codes "pace") }
    ensures local { result.global ≡ false }
{
    Arg::new(alloc, "pace").long("pace").value_name("M..N").help(
        "Each busy core makes M to N moves from one tick to the next",
    )
}

// `--surprises N`.
fn surprises_arg<'a>(alloc: Global) -> Arg<'a>
    ensures rule { rule_of result ≡ surprises_option }
    ensures local { result.global ≡ false }
{
    Arg::new(alloc, "surprises")
        .long("surprises")
        .value_name("N")
        .value_parser(value_parser!(u8))
        .help("Orders of at most N surprises alone, 0 to 255")
}

// `--states N`.
fn states_arg<'a>(alloc: Global) -> Arg<'a>
    ensures rule { rule_of result ≡ states_option }
    ensures local { result.global ≡ false }
{
    Arg::new(alloc, "states")
        .long("states")
        .value_name("N")
        .value_parser(value_parser!(usize).range(1..=MAX_STATES as i64))
        .default_value(DEFAULT_STATES_WORD)
        .help("How many states are kept, 1 to 1000000000")
}

// `--memory MIB`.
fn memory_arg<'a>(alloc: Global) -> Arg<'a>
    ensures rule { rule_of result ≡ memory_option }
    ensures local { result.global ≡ false }
{
    Arg::new(alloc, "memory")
        .long("memory")
        .value_name("MIB")
        .value_parser(value_parser!(usize).range(1..=MAX_MEMORY as i64))
        .default_value(DEFAULT_MEMORY_WORD)
        .help("For how many mebibytes states are kept, 1 to 1048576")
}

// `--part K/N`.
fn part_arg<'a>(alloc: Global) -> Arg<'a>
    ensures rule { rule_of result ≡ setting (codes "part") }
    ensures local { result.global ≡ false }
{
    Arg::new(alloc, "part")
        .long("part")
        .value_name("K/N")
        .help("The Kth of N parts of all orders alone, 1/1 to 255/255")
}

// `--exact`.
fn exact_arg<'a>(alloc: Global) -> Arg<'a>
    ensures rule { rule_of result ≡ switch (codes "exact") }
    ensures local { result.global ≡ false }
{
    Arg::new(alloc, "exact")
        .long("exact")
        .action(ArgAction::SetTrue)
        .help("Tells states apart to the last field, the tick and the turn among them")
}

// `--progress`.
fn progress_arg<'a>(alloc: Global) -> Arg<'a>
    ensures rule { rule_of result ≡ switch (codes "progress") }
    ensures local { result.global ≡ false }
{
    Arg::new(alloc, "progress")
        .long("progress")
        .action(ArgAction::SetTrue)
        .help("Tells on standard error how far the search is, now and then")
}

// `--engine`.
fn engine_arg<'a>(alloc: Global) -> Arg<'a>
    ensures rule { rule_of result ≡ switch (codes "engine") }
    ensures local { result.global ≡ false }
{
    Arg::new(alloc, "engine")
        .long("engine")
        .action(ArgAction::SetTrue)
        .help("Answer the lines of standard input, in place of a goal")
}

// Returns the parser of the command line.
fn command<'a>(alloc: Global) -> Result<Command<'a>, AllocError>
    ensures { IfOk result (λ command. app_of command ≡ command_line) }
{
    Command::new(alloc, "rdreach")
        .about("Answers what can still come in a model of a FreeRTOS application")
        .after_help(AS_ENGINE)
        .bin_name("rdreach")?
        .no_binary_name(true)
        .arg(file_arg(alloc))?
        .arg(goal_arg(alloc))?
        .arg(lost_arg(alloc))?
        .arg(doomed_arg(alloc))?
        .arg(from_arg(alloc))?
        .arg(moves_arg(alloc))?
        .arg(pace_arg(alloc))?
        .arg(isr_arg(alloc))?
        .arg(times_arg(alloc))?
        .arg(after_arg(alloc))?
        .arg(apart_arg(alloc))?
        .arg(surprises_arg(alloc))?
        .arg(states_arg(alloc))?
        .arg(memory_arg(alloc))?
        .arg(part_arg(alloc))?
        .arg(exact_arg(alloc))?
        .arg(progress_arg(alloc))?
        .arg(engine_arg(alloc))
}

// Returns the words of the goal, which may be given as several arguments.
fn goal_in<'a>(alloc: Global, matches: &ArgMatches<'a>) -> Result<Vec<&'a [u8]>, AllocError>
    ensures { IfOk result (λ words. texts words.items
        ≡ words_in (texts_of (codes "GOAL") (rows_of (found_of matches.now)))) }
{
    let said = matches.get_strs("GOAL").unwrap_or(&[]);
    let mut words = Vec::new(alloc);
    for text in said {
        let more = words_of(alloc, text.as_bytes())?;
        words.extend_from_slice(more.as_slice())?;
    }
    Ok(words)
}

// Returns the first value of an argument, if it has one.
fn text_of<'a>(matches: &ArgMatches<'a>, name: &str) -> Option<&'a str>
    ensures { option_map (λ text. text.now) result
        ≡ first_of name.now (rows_of (found_of matches.now)) }
{
    matches.get_str(name)
}

// Whether there is a goal, perhaps an empty one.
fn has_goal(matches: &ArgMatches<'_>) -> bool
    ensures { result ≡ has_goal (rows_of (found_of matches.now)) }
{
    matches.contains_id("GOAL")
}

// Returns the error for an option whose value is not a number within these limits.
fn no_number(option: &'static str, least: usize, most: usize) -> ReachFault
    ensures { result ≡ Number option.entry least most }
{
    ReachFault::Number {
        option,
        least,
        most,
    }
}

// Returns the number that is the value of an option, if it is given.
fn number_said(
    matches: &ArgMatches<'_>,
    option: &'static str,
    least: usize,
    most: usize,
) -> Result<Option<usize>, ReachFault>
    ensures said { IfOk result (λ number.
        number ≡ number_said option.entry.now (rows_of (found_of matches.now))) }
    ensures within { IfOk result (λ number. IfSome number (λ said. said ≤ most)) }
    ensures wrong { IfErr result (IsBadNumber (rows_of (found_of matches.now))) }
{
    match matches.try_get_one::<usize>(option) {
        Ok(None) => Ok(None),
        Ok(Some(number)) if least <= number && number <= most => Ok(Some(number)),
        Ok(Some(_)) => Err(no_number(option, least, most)),
        Err(_) => Err(no_number(option, least, most)),
    }
}

// Returns the number that is the value of an option which has a default.
fn number_of(
    matches: &ArgMatches<'_>,
    option: &'static str,
    least: usize,
    most: usize,
) -> Result<usize, ReachFault>
    ensures said { IfOk result (λ number.
        Some number ≡ number_said option.entry.now (rows_of (found_of matches.now))) }
    ensures within { IfOk result (λ number. number ≤ most) }
    ensures wrong { IfErr result (IsBadNumber (rows_of (found_of matches.now))) }
{
    match number_said(matches, option, least, most)? {
        Some(number) => Ok(number),
        None => Err(no_number(option, least, most)),
    }
}

// Returns the value of `--moves`, if it is given.
fn moves_of(matches: &ArgMatches<'_>) -> Result<Option<u32>, ReachFault>
    ensures said { IfOk result (λ moves.
        moves ≡ number_said (codes "moves") (rows_of (found_of matches.now))) }
    ensures within { IfOk result (λ moves. IfSome moves (λ most. most ≤ MAX_MOVES)) }
    ensures wrong { IfErr result (IsBadNumber (rows_of (found_of matches.now))) }
{
    match number_said(matches, "moves", 0, MAX_MOVES)? {
        Some(moves) => Ok(Some(moves as u32)),
        None => Ok(None),
    }
}

// Returns the value of `--surprises`, if it is given.
fn surprises_of(matches: &ArgMatches<'_>) -> Result<Option<u8>, ReachFault>
    ensures said { IfOk result (λ surprises.
        surprises ≡ number_said (codes "surprises") (rows_of (found_of matches.now))) }
    ensures wrong { IfErr result (IsBadNumber (rows_of (found_of matches.now))) }
{
    match number_said(matches, "surprises", 0, 255)? {
        Some(surprises) => Ok(Some(surprises as u8)),
        None => Ok(None),
    }
}

// Whether a switch is on.
fn is_on(matches: &ArgMatches<'_>, switch: &str) -> bool
    ensures { result ≡ is_on switch.now (rows_of (found_of matches.now)) }
{
    match text_of(matches, switch) {
        Some(text) => text == "true",
        None => false,
    }
}

// Returns the value of `--part`, if it is given.
fn part_in(matches: &ArgMatches<'_>) -> Result<Option<Part>, ReachFault>
    ensures part { IfOk result
        (IsPartOf (first_of (codes "part") (rows_of (found_of matches.now)))) }
    ensures wrong { IfErr result (IsBadPart (rows_of (found_of matches.now))) }
{
    match text_of(matches, "part") {
        Some(word) => Ok(Some(part_of(word)?)),
        None => Ok(None),
    }
}

// Returns the question that `--lost` and `--doomed` select.
fn query_in(matches: &ArgMatches<'_>) -> Result<Query, ReachFault>
    ensures query { IfOk result (λ query. Some query
        ≡ query_of (is_on (codes "lost") (rows_of (found_of matches.now)))
        (is_on (codes "doomed") (rows_of (found_of matches.now)))) }
    ensures both { IfErr result (λ cause. (cause ≡ Both)
        × AreBothOn (rows_of (found_of matches.now))) }
{
    match (is_on(matches, "lost"), is_on(matches, "doomed")) {
        (true, true) => Err(ReachFault::Both),
        (true, false) => Ok(Query::Lost),
        (false, true) => Ok(Query::Doomed),
        (false, false) => Ok(Query::Reach),
    }
}

// Returns the value of `--pace`, or no pace if it is not given.
fn pace_in(matches: &ArgMatches<'_>) -> Result<Pace, ReachFault>
    ensures pace { IfOk result
        (IsPaceOf (first_of (codes "pace") (rows_of (found_of matches.now)))) }
    ensures wrong { IfErr result (IsBadPace (rows_of (found_of matches.now))) }
{
    match text_of(matches, "pace") {
        Some(word) => Ok(pace_of(word)?),
        None => Ok(NO_PACE),
    }
}

// Returns the path of the application file.
fn file_of<'a>(matches: &ArgMatches<'a>) -> &'a str
    ensures { result.now ≡ unwrap_or (first_of (codes "FILE") (rows_of (found_of matches.now))) [] }
{
    match text_of(matches, "FILE") {
        Some(path) => path,
        None => "",
    }
}

// Returns the question that the parsed arguments ask.
fn question_of<'a>(alloc: Global, matches: &ArgMatches<'a>) -> Result<Question<'a>, ReachFault>
    ensures limits { IfOk result IsQuestion }
    ensures asked { IfOk result (IsAskedIn (rows_of (found_of matches.now))) }
    ensures fault { IfErr result (IsFaultIn (rows_of (found_of matches.now))) }
{
    Ok(Question {
        file: file_of(matches),
        goal: goal_in(alloc, matches)?,
        query: query_in(matches)?,
        from: text_of(matches, "from"),
        moves: moves_of(matches)?,
        pace: pace_in(matches)?,
        isrs: handlers_in(alloc, matches)?,
        surprises: surprises_of(matches)?,
        states: number_of(matches, "states", 1, MAX_STATES)?,
        memory: number_of(matches, "memory", 1, MAX_MEMORY)?,
        part: part_in(matches)?,
        exact: is_on(matches, "exact"),
        progress: is_on(matches, "progress"),
    })
}

// Returns the request for a question: an engine with `--engine`, and otherwise an answer.
//
// Errors: `EngineWithGoal` if there are both `--engine` and a goal, `GoalMissing` if neither.
fn request_of<'a>(
    matches: &ArgMatches<'a>,
    question: Question<'a>,
) -> Result<ReachRequest<'a>, ReachFault>
    requires limits { IsQuestion question }
    requires asked { IsAskedIn (rows_of (found_of matches.now)) question }
    ensures limits { IfOk result IsRequest }
    ensures asked { IfOk result (IsRequestIn (rows_of (found_of matches.now))) }
    ensures fault { IfErr result (IsGoalFault (rows_of (found_of matches.now))) }
{
    match (is_on(matches, "engine"), has_goal(matches)) {
        (true, true) => Err(ReachFault::EngineWithGoal),
        (true, false) => Ok(ReachRequest::Engine { question }),
        (false, _) => {
            if question.goal.is_empty() {
                return Err(ReachFault::GoalMissing);
            }
            Ok(ReachRequest::Ask { question })
        }
    }
}

// Returns the request or the error for words that clap rejects; help is one of clap's errors.
fn without_question<'a>(alloc: Global, error: &clap::Error) -> Result<ReachRequest<'a>, ReachFault>
    ensures limits { IfOk result IsRequest }
    ensures help { IfOk result (λ request. IsHelp request
        × (kind_of error.now ≡ ErrorKind.DisplayHelp)) }
    ensures fault { IfErr result (IsFaultOfError (kind_of error.now)) }
{
    let text = format!(in alloc; "{error}")?;
    // (only an error for whose text there was no memory has none)
    if text.is_empty() {
        return Err(ReachFault::NoMemory);
    }
    match error.kind() {
        ErrorKind::DisplayHelp => Ok(ReachRequest::Help { text }),
        ErrorKind::OutOfMemory => Err(ReachFault::NoMemory),
        _ => Err(ReachFault::Words { text }),
    }
}

/// Returns the request of the command line's words, without the program's own name: `FILE [GOAL..]
/// [--lost | --doomed] [--from COMMANDS] [--moves N] [--pace M..N]
/// [--isr CALLS [--times N] [--after I] [--apart T]] [--surprises N] [--states N] [--memory MIB]
/// [--part K/N] [--exact] [--progress]` with a goal, `--engine` in its place, or help.
///
/// Errors: `Words` if they are no such line, `Both` for both `--lost` and `--doomed`, `Pace`, `Isr`
/// or `Part` if the pace, an interrupt or the part is malformed, `Number` if a number is not within
/// its limits, `GoalMissing` if there is neither a goal with a word in it nor `--engine`,
/// `EngineWithGoal` if there are both, `NoMemory` if there is no memory for the words or for the
/// text of help.
pub fn options<'a>(alloc: Global, words: &'a [String]) -> Result<ReachRequest<'a>, ReachFault>
    ensures limits { IfOk result IsRequest }
    ensures asked { IfOk result (IsAskedBy (map string_bytes words.entry.now)) }
    ensures fault { IfErr result (IsFaultOf (map string_bytes words.entry.now)) }
{
    match command(alloc)?.try_get_matches_from(words) {
        Ok(matches) => {
            let question = question_of(alloc, &matches)?;
            request_of(&matches, question)
        }
        Err(error) => without_question(alloc, &error),
    }
}
