//! The command line.

ghost use Rattle.std.specs.Prelude.{◌≡◌, ◌≢◌, false, None, Ok, length, map, string_bytes};
ghost use Rattle.std.specs.Prelude.{◌↔◌, IfErr, IfOk, IfSome, IsSome, IsTrue};
ghost use Rattle.clap.specs.Words.{app_of, found_of, kind_of, rows_of, rule_of};
ghost use Rattle.clap.specs.Words.{subcommand_rows_of};
ghost use Rattle.clap.specs.declared.builder.command.Command.TheViews.{out-Command};
ghost use Rattle.rd_start.specs.Requests.{AreSettingsIn, HasLimits, HasServerLimits};
ghost use Rattle.rd_start.specs.Requests.{HasSettingsIn, HasSettingsOf, IsAskedBy, IsFaultOfError};
ghost use Rattle.rd_start.specs.Requests.{IsFaultOfWords, IsHelp, IsNamedBy};
ghost use Rattle.rd_start.specs.Requests.{IsRequestWithinLimits, IsServable, IsServer, IsWhole};
ghost use Rattle.rd_start.specs.Requests.{IsWithinLimits, app_option, command_line};
ghost use Rattle.rd_start.specs.Requests.{history_option, moves_option, options_of, port_option};
ghost use Rattle.rd_start.specs.Requests.{run_line, serve_line, served_app_option};
ghost use Rattle.rd_start.specs.Requests.{sessions_option, words_read};
ghost use Rattle.rd_start.specs.declared.fault.Fault.TheVariants.{BadCommandLine, NoMemory};
ghost use Rattle.rd_start.specs.declared.options.StartRequest.TheVariants.{Run};

use crate::fault::Fault;
use clap::error::ErrorKind;
use clap::{Arg, ArgMatches, Command, value_parser};
use std::alloc::{AllocError, Global};

/// How many moves may be done at a time, where nothing else is asked.
pub const DEFAULT_MOVES: usize = 100_000;

// The same as a word of the command line.
const DEFAULT_MOVES_WORD: &str = "100000";

/// How many moves may be asked for at the most.
pub const MAX_MOVES: usize = 1_000_000;

/// How many entries the history may have, where nothing else is asked.
pub const DEFAULT_HISTORY: usize = 100_000;

// The same as a word of the command line.
const DEFAULT_HISTORY_WORD: &str = "100000";

/// How many entries may be asked for at the least: one where the session enters, and one where it
/// leaves.
pub const MIN_HISTORY: usize = 2;

/// How many entries may be asked for at the most.
pub const MAX_HISTORY: usize = 1_000_000;

/// The highest port.
pub const MAX_PORT: usize = 65_535;

/// How many sessions a server may be started for at the most.
pub const MAX_SESSIONS: usize = 64;

// What help says below the commands.
const FORMS: &str = "rdbg run [--app FILE] [--moves COUNT] [--history COUNT]\n\
    rdbg serve --app FILE --port PORT --sessions COUNT [--moves COUNT] [--history COUNT]";

/// The settings of a session.
#[derive(Clone, Copy)]
pub struct Settings<'a> {
    /// The path of the application file; none: the built-in application.
    pub app: Option<&'a str>,
    /// How many moves may be done at a time: 1 to 1,000,000.
    pub moves: usize,
    /// How many entries the history may have: 2 to 1,000,000.
    pub history: usize,
}

impl<'a> Settings<'a> {
    // Whether the numbers are ones that may be asked for.
    fn are_within_limits(&self) -> bool
        ensures { IsTrue result ↔ IsWithinLimits self.now }
    {
        (1..=MAX_MOVES).contains(&self.moves) && (MIN_HISTORY..=MAX_HISTORY).contains(&self.history)
    }
}

/// What a command line asks for.
#[derive(Drop)]
pub enum StartRequest<'a> {
    /// A session over standard input and output.
    Run {
        settings: Settings<'a>,
    },
    /// Sessions over a TCP port.
    Serve {
        /// The settings of each session; `app` is a path.
        settings: Settings<'a>,
        /// The port: 1 to 65,535.
        port: u16,
        /// How many sessions there will be: 1 to 64.
        sessions: usize,
    },
    /// Help, with its text.
    Help {
        text: String,
    },
}

// `--app FILE`.
fn app_arg<'a>(alloc: Global) -> Arg<'a>
    ensures rule { rule_of result ≡ app_option }
    ensures local { result.global ≡ false }
{
    Arg::new(alloc, "app")
        .long("app")
        .value_name("FILE")
        .help("The application file [default: the built-in application]")
}

// `--moves COUNT`.
fn moves_arg<'a>(alloc: Global) -> Arg<'a>
    ensures rule { rule_of result ≡ moves_option }
    ensures local { result.global ≡ false }
{
    Arg::new(alloc, "moves")
        .long("moves")
        .value_name("COUNT")
        .value_parser(value_parser!(usize).range(1..=MAX_MOVES as i64))
        .default_value(DEFAULT_MOVES_WORD)
        .help("How many moves may be done at a time, 1 to 1000000")
}

// `--history COUNT`.
fn history_arg<'a>(alloc: Global) -> Arg<'a>
    ensures rule { rule_of result ≡ history_option }
    ensures local { result.global ≡ false }
{
    Arg::new(alloc, "history")
        .long("history")
        .value_name("COUNT")
        .value_parser(value_parser!(usize).range(MIN_HISTORY as i64..=MAX_HISTORY as i64))
        .default_value(DEFAULT_HISTORY_WORD)
        .help("How many entries the history may have, 2 to 1000000")
}

// `--app FILE`, where there has to be one.
fn served_app_arg<'a>(alloc: Global) -> Arg<'a>
    ensures rule { rule_of result ≡ served_app_option }
    ensures local { result.global ≡ false }
{
    Arg::new(alloc, "app")
        .long("app")
        .value_name("FILE")
        .required(true)
        .help("The application file")
}

// `--port PORT`.
fn port_arg<'a>(alloc: Global) -> Arg<'a>
    ensures rule { rule_of result ≡ port_option }
    ensures local { result.global ≡ false }
{
    Arg::new(alloc, "port")
        .long("port")
        .value_name("PORT")
        .value_parser(value_parser!(usize).range(1..=MAX_PORT as i64))
        .required(true)
        .help("The TCP port, 1 to 65535")
}

// `--sessions COUNT`.
fn sessions_arg<'a>(alloc: Global) -> Arg<'a>
    ensures rule { rule_of result ≡ sessions_option }
    ensures local { result.global ≡ false }
{
    Arg::new(alloc, "sessions")
        .long("sessions")
        .value_name("COUNT")
        .value_parser(value_parser!(usize).range(1..=MAX_SESSIONS as i64))
        .required(true)
        .help("How many sessions are served, 1 to 64")
}

// `run` with its options.
fn run_command<'a>(alloc: Global) -> Result<Command<'a>, AllocError>
    ensures line { IfOk result (λ run. app_of run ≡ run_line) }
    ensures local { IfOk result (λ run. (out-Command run).has_globals ≡ false) }
{
    Command::new(alloc, "run")
        .about("Answers commands from standard input")
        .arg(app_arg(alloc))?
        .arg(moves_arg(alloc))?
        .arg(history_arg(alloc))
}

// `serve` with its options.
fn serve_command<'a>(alloc: Global) -> Result<Command<'a>, AllocError>
    ensures line { IfOk result (λ serve. app_of serve ≡ serve_line) }
    ensures local { IfOk result (λ serve. (out-Command serve).has_globals ≡ false) }
{
    Command::new(alloc, "serve")
        .about("Answers the commands of several sessions on a TCP port")
        .arg(served_app_arg(alloc))?
        .arg(port_arg(alloc))?
        .arg(sessions_arg(alloc))?
        .arg(moves_arg(alloc))?
        .arg(history_arg(alloc))
}

// What the words are parsed by.
fn command<'a>(alloc: Global) -> Result<Command<'a>, AllocError>
    ensures { IfOk result (λ command. app_of command ≡ command_line) }
{
    let run = run_command(alloc)?;
    let serve = serve_command(alloc)?;
    Command::new(alloc, "rdbg")
        .about("A reverse debugger for models of FreeRTOS applications")
        .after_help(FORMS)
        .bin_name("rdbg")?
        .no_binary_name(true)
        .subcommand_required(true)
        .subcommand(run)?
        .subcommand(serve)
}

// The settings of a session, as they were found among the options.
fn settings_of<'a>(options: &ArgMatches<'a>) -> Option<Settings<'a>>
    ensures limits { IfSome result IsWithinLimits }
    ensures settings { IfSome result (AreSettingsIn (rows_of (found_of options.now))) }
    ensures some { HasLimits (rows_of (found_of options.now)) → IsSome result }
{
    let settings = Settings {
        app: options.get_str("app"),
        moves: options.get_one("moves")?,
        history: options.get_one("history")?,
    };
    if settings.are_within_limits() {
        Some(settings)
    } else {
        None
    }
}

// Whether a server may be started with these.
fn can_serve<'a>(settings: &Settings<'a>, port: usize, sessions: usize) -> bool
    requires { IsWithinLimits settings.now }
    ensures { IsTrue result ↔ IsServable settings.now port sessions }
{
    settings.app.is_some()
        && (1..=MAX_PORT).contains(&port)
        && (1..=MAX_SESSIONS).contains(&sessions)
}

// The server that was found among the options, whose sessions have these settings.
fn server_of<'a>(options: &ArgMatches<'a>, settings: Settings<'a>) -> Option<StartRequest<'a>>
    requires limits { IsWithinLimits settings }
    requires settings { AreSettingsIn (rows_of (found_of options.now)) settings }
    ensures limits { IfSome result IsRequestWithinLimits }
    ensures server { IfSome result IsServer }
    ensures settings { IfSome result (HasSettingsIn (rows_of (found_of options.now))) }
    ensures some { HasServerLimits (rows_of (found_of options.now)) → IsSome result }
{
    let port = options.get_one("port")?;
    let sessions = options.get_one("sessions")?;
    if can_serve(&settings, port, sessions) {
        Some(StartRequest::Serve {
            settings,
            port: port as u16,
            sessions,
        })
    } else {
        None
    }
}

// What was asked for by the subcommand that was found, with its options.
fn request_of<'a>(matches: &ArgMatches<'a>) -> Option<StartRequest<'a>>
    ensures limits { IfSome result IsRequestWithinLimits }
    ensures name { IfSome result (IsNamedBy (subcommand_rows_of matches.now)) }
    ensures settings { IfSome result (HasSettingsIn (options_of (subcommand_rows_of
        matches.now))) }
    ensures some { IsWhole (subcommand_rows_of matches.now) → IsSome result }
{
    let (name, options) = matches.subcommand()?;
    let settings = settings_of(options)?;
    match name {
        "run" => Some(StartRequest::Run { settings }),
        "serve" => server_of(options, settings),
        _ => None,
    }
}

// What becomes of words that gave no settings: help is one of clap's errors.
fn without_settings<'a>(alloc: Global, error: &clap::Error) -> Result<StartRequest<'a>, Fault>
    ensures help { kind_of error.now ≡ ErrorKind.DisplayHelp → IfOk result IsHelp }
    ensures untold { kind_of error.now ≡ ErrorKind.DisplayHelp
        → IfErr result (λ fault. fault ≡ NoMemory) }
    ensures no_memory { kind_of error.now ≡ ErrorKind.OutOfMemory → result ≡ Err NoMemory }
    ensures bad_command_line { kind_of error.now ≢ ErrorKind.DisplayHelp
        → kind_of error.now ≢ ErrorKind.OutOfMemory → result ≡ Err BadCommandLine }
    ensures asked { IfOk result (λ _. kind_of error.now ≡ ErrorKind.DisplayHelp) }
    ensures fault { IfErr result (IsFaultOfError (kind_of error.now)) }
    ensures limits { IfOk result IsRequestWithinLimits }
{
    match error.kind() {
        ErrorKind::DisplayHelp => Ok(StartRequest::Help {
            text: format!(in alloc; "{error}")?,
        }),
        ErrorKind::OutOfMemory => Err(Fault::NoMemory),
        _ => Err(Fault::BadCommandLine),
    }
}

/// What the words of the command line ask for, without the program's own name: a session, by
/// `run [--app FILE] [--moves COUNT] [--history COUNT]` or no words at all, with 1 to 1,000,000
/// moves and a history of 2 to 1,000,000 entries; 1 to 64 sessions over a port from 1 to 65,535, by
/// `serve --app FILE --port PORT --sessions COUNT [--moves COUNT] [--history COUNT]`; or help.
/// `BadCommandLine` where the words are no such line, `NoMemory` where there is no memory to read
/// them or for the text of help.
pub fn options<'a>(alloc: Global, words: &'a [String]) -> Result<StartRequest<'a>, Fault>
    ensures limits { IfOk result IsRequestWithinLimits }
    ensures no_words { length words.entry.now ≡ 0
        → result ≡ Ok (Run (record { app = None; moves = 100000; history = 100000 })) }
    // What was asked for is what the words say, and no words say `run`.
    ensures settings { IfOk result (HasSettingsOf (words_read (map string_bytes
        words.entry.now))) }
    ensures asked { IfOk result (IsAskedBy (words_read (map string_bytes words.entry.now))) }
    ensures fault { IfErr result (IsFaultOfWords (words_read (map string_bytes
        words.entry.now))) }
{
    if words.is_empty() {
        let settings = Settings {
            app: None,
            moves: DEFAULT_MOVES,
            history: DEFAULT_HISTORY,
        };
        return Ok(StartRequest::Run { settings });
    }
    match command(alloc)?.try_get_matches_from(words) {
        Ok(matches) => request_of(&matches).ok_or(Fault::BadCommandLine),
        Err(error) => without_settings(alloc, &error),
    }
}
