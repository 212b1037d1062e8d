//! Interrupts as they are asked for.

ghost use Rattle.std.specs.Prelude.{◌≡◌, ◌⊎◌, ◌++◌, ◌∷◌, ℕ, Option, None, Some, [], slice_get};
ghost use Rattle.std.specs.Prelude.{IfErr, IfOk, IfSome, IsErrOf, IsSome, OnOk, if◌then◌else◌};
ghost use Rattle.std.specs.Prelude.{string_bytes};
ghost use Rattle.rd_question.specs.Handlers.{AreLinesOf, HasCalls, IsLineOf, IsUnlimited};
ghost use Rattle.rd_question.specs.Handlers.{IsWhyNotAfter, IsWrong, behind_isr, each_behind_space};
ghost use Rattle.rd_question.specs.Handlers.{apart_said, follows_said, times_at, times_said};
ghost use Rattle.rd_question.specs.declared.handler.NoHandler.TheVariants.{After, Apart};
ghost use Rattle.rd_question.specs.declared.handler.NoHandler.TheVariants.{Times, Unlimited};

use crate::numbers::small_number;
use rd_text::words::number;
use std::alloc::{AllocError, AllocFailed, Global};
use thiserror::Error;

/// An interrupt that may come: what it does, how often, and when.
#[derive(Drop)]
pub struct Handler {
    /// Its calls, each as a command line: `isr send Q HEX` or `isr notify K I N ACTION`.
    pub lines: Vec<String>,
    /// How often it comes at the most; none: any number of times.
    pub times: Option<u8>,
    /// The one that it follows, of those that are asked for: it comes more rarely than that one.
    pub follows: Option<usize>,
    /// How many ticks after itself it may come again.
    pub apart: u8,
}

/// What is said of an interrupt, as texts.
#[derive(Clone, Copy)]
pub struct Said<'a> {
    /// Its calls, with `;` between them. Each may begin with `isr`.
    pub calls: &'a str,
    /// How often it comes: a number, or `any`. Once, where nothing is said.
    pub times: Option<&'a str>,
    /// The number of the one that it follows, of which the first is 0.
    pub after: Option<&'a str>,
    /// How many ticks after itself it may come again. None, where nothing is said.
    pub apart: Option<&'a str>,
}

/// Why an interrupt isn't one that may come.
#[derive(Debug, Drop, Error)]
pub enum NoHandler {
    /// One of its calls is none.
    #[error("'{call}' is no call of an interrupt: send Q HEX, or notify K I N ACTION; more calls of \
         one interrupt with ; between them")]
    Call { call: String },
    /// The application lacks what a call names.
    #[error("'{call}' names a queue, a task or a notification entry that isn't there")]
    Unknown { call: String },
    /// The application's profile has no interrupts.
    #[error("interrupts need profile 2")]
    NoIsr,
    /// How often it comes is no such number.
    #[error("--times is 1 to 255, or any")]
    Times,
    /// It follows none that was said before.
    #[error("--after is the number of an interrupt that was said before, of which the first is 0")]
    After,
    /// Neither it nor the one that it follows may come any number of times.
    #[error("an interrupt that follows another, or is followed, needs --times N")]
    Unlimited,
    /// How far it is apart is no such number.
    #[error("--apart is 0 to 255 ticks")]
    Apart,
    /// An option stands before all interrupts.
    #[error("{option} stands behind the --isr that it belongs to")]
    Stray { option: &'static str },
    /// An option is said twice of one interrupt.
    #[error("{option} is said twice of one --isr")]
    Twice { option: &'static str },
    /// There are too many.
    #[error("there are 16 interrupts at the most")]
    TooMany,
    /// There is no memory for it.
    #[error("no memory")]
    NoMemory,
}

impl From<AllocError> for NoHandler {
    ghost use Rattle.rd_question.specs.declared.handler.NoHandler.{NoHandler};

    ghost from_gives = { λ _ cause. cause ≡ NoHandler.NoMemory };

    fn from(_error: AllocError) -> NoHandler {
        NoHandler::NoMemory
    }
}

impl<T: Drop> From<AllocFailed<T>> for NoHandler {
    ghost use Rattle.rd_question.specs.declared.handler.NoHandler.{NoHandler};

    ghost from_gives = { λ _ cause. cause ≡ NoHandler.NoMemory };

    fn from(_failed: AllocFailed<T>) -> NoHandler {
        NoHandler::NoMemory
    }
}

// Adds a word of a call to its line, unless it is an `isr` that stands first.
fn add_word(line: &mut String, word: &str, first: bool) -> Result<(), AllocError>
    ensures { OnOk result (string_bytes line.new ≡ string_bytes line.old
        ++ each_behind_space (if first then behind_isr (word.now ∷ []) else word.now ∷ [])) }
{
    if first && word == "isr" {
        return Ok(());
    }
    line.push_str(" ")?;
    line.push_str(word)
}

// The command line of a call, with one space between words.
fn line_of(alloc: Global, call: &str) -> Result<String, AllocError>
    ensures { IfOk result (λ line. IsLineOf call.now (string_bytes line)) }
{
    let mut line = String::from_str(alloc, "isr")?;
    let mut first = true;
    for word in call.split_whitespace() {
        add_word(&mut line, word, first)?;
        first = false;
    }
    Ok(line)
}

// The command lines of calls that `;` parts.
fn lines_of(alloc: Global, calls: &str) -> Result<Vec<String>, AllocError>
    ensures { IfOk result (λ lines. AreLinesOf calls.now lines.items) }
{
    let mut lines = Vec::new(alloc);
    for call in calls.split(';') {
        lines.push(line_of(alloc, call)?)?;
    }
    Ok(lines)
}

// How often one comes of which this is said.
fn times_of(said: Option<&str>) -> Result<Option<u8>, NoHandler>
    ensures ok { IfOk result (λ times. times_said said.entry ≡ Some times) }
    ensures err { IfErr result (λ cause. (cause ≡ Times) × (times_said said.entry ≡ None)) }
{
    match said {
        None => Ok(Some(1)),
        Some("any") => Ok(None),
        Some(text) => match small_number(text, 1) {
            Some(times) => Ok(Some(times)),
            None => Err(NoHandler::Times),
        },
    }
}

// How often one of those before comes at the most, if that is limited.
fn times_at(before: &[Handler], place: usize) -> Result<Option<u8>, NoHandler>
    ensures ok { IfOk result (λ times. times_at before.now place ≡ times) }
    ensures err { IfErr result (λ cause. (cause ≡ After) × (slice_get before.now place ≡ None)) }
{
    match before.get(place) {
        Some(handler) => Ok(handler.times),
        None => Err(NoHandler::After),
    }
}

// The one that it follows, of those before, where it comes so often.
fn follows_of(
    said: Option<&str>,
    times: Option<u8>,
    before: &[Handler],
) -> Result<Option<usize>, NoHandler>
    ensures said { IfOk result (λ follows. follows_said said.entry ≡ Some follows) }
    ensures own { IfOk result (λ follows. IfSome follows (λ place. IsSome times)) }
    ensures other { IfOk result (λ follows. IfSome follows (λ place.
        IsSome (times_at before.now place))) }
    ensures after { IsErrOf result After → IsWhyNotAfter said.entry before.now }
    ensures unlimited { IsErrOf result Unlimited → IsUnlimited said.entry times before.now }
    ensures causes { IfErr result (λ cause. (cause ≡ After) ⊎ (cause ≡ Unlimited)) }
{
    let Some(text) = said else {
        return Ok(None);
    };
    let follows = number(text.as_bytes()).ok_or(NoHandler::After)? as usize;
    let followed = times_at(before, follows)?;
    if times.is_none() || followed.is_none() {
        return Err(NoHandler::Unlimited);
    }
    Ok(Some(follows))
}

// How far it is apart.
fn apart_of(said: Option<&str>) -> Result<u8, NoHandler>
    ensures ok { IfOk result (λ apart. apart_said said.entry ≡ Some apart) }
    ensures err { IfErr result (λ cause. (cause ≡ Apart) × (apart_said said.entry ≡ None)) }
{
    match said {
        None => Ok(0),
        Some(text) => small_number(text, 0).ok_or(NoHandler::Apart),
    }
}

/// The interrupt of which this is said, behind those that were said before. One that follows
/// another comes a limited number of times, and so does that other one, which was said before it.
/// `Times`, `After`, `Unlimited` and `Apart` where an option is wrong, `NoMemory` where there is no
/// memory for its calls. Whether these are some isn't asked here.
pub fn handler_of(alloc: Global, said: Said<'_>, before: &[Handler]) -> Result<Handler, NoHandler>
    ensures calls { IfOk result (HasCalls said.entry.calls.now) }
    ensures times { IfOk result (λ handler. times_said said.entry.times ≡ Some handler.times) }
    ensures follows { IfOk result (λ handler.
        follows_said said.entry.after ≡ Some handler.follows) }
    ensures own { IfOk result (λ handler. IfSome handler.follows (λ place. IsSome handler.times)) }
    ensures other { IfOk result (λ handler. IfSome handler.follows (λ place.
        IsSome (times_at before.now place))) }
    ensures apart { IfOk result (λ handler. apart_said said.entry.apart ≡ Some handler.apart) }
    ensures bad_times { IsErrOf result Times → times_said said.entry.times ≡ None }
    ensures bad_after { IsErrOf result After → IsWhyNotAfter said.entry.after before.now }
    ensures unlimited { IsErrOf result Unlimited → (times : Option ℕ)
        × (times_said said.entry.times ≡ Some times)
        × IsUnlimited said.entry.after times before.now }
    ensures bad_apart { IsErrOf result Apart → apart_said said.entry.apart ≡ None }
    ensures causes { IfErr result IsWrong }
{
    let times = times_of(said.times)?;
    let follows = follows_of(said.after, times, before)?;
    let apart = apart_of(said.apart)?;
    let lines = lines_of(alloc, said.calls)?;
    Ok(Handler {
        lines,
        times,
        follows,
        apart,
    })
}
