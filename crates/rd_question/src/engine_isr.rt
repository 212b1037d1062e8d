//! An interrupt as a line says it: `CALLS [times N|any] [after I] [apart T]`.

ghost use Rattle.std.specs.Prelude.{◌≡◌, ◌+◌, ℕ, List, None, Some, IfErr, IfOk, IfSome, IsSome};
ghost use Rattle.rd_question.specs.IsrWords.{IsBare, IsIsrOf, IsWhole, SaysIsr, SaysTwice};
ghost use Rattle.rd_question.specs.IsrWords.{as_text, before_word, last_call, last_word};
ghost use Rattle.rd_question.specs.IsrWords.{options_said};
ghost use Rattle.rd_question.specs.declared.handler.NoHandler.TheVariants.{Twice};

use crate::handler::{NoHandler, Said};

// How many words a call has at the least: `send Q HEX`.
const CALL_WORDS: usize = 3;

// How many options an interrupt has.
const OPTIONS: usize = 3;

// A text before its last word, without space at either end, and that word.
fn last_word(text: &str) -> (&str, &str)
    ensures front { result.0.now ≡ before_word text.entry.now }
    ensures word { result.1.now ≡ last_word text.entry.now }
{
    let (front, word) = match text.rsplit_once(' ') {
        Some(split) => split,
        None => ("", text),
    };
    (front.trim(), word)
}

// The last of these calls.
fn last_call(calls: &str) -> &str
    ensures { result.now ≡ last_call calls.entry.now }
{
    match calls.rsplit_once(';') {
        Some((_, last)) => last,
        None => calls,
    }
}

// Whether the last of these calls has as many words as one needs. (What it names may be called as
// an option is.)
fn is_whole(calls: &str) -> bool
    ensures { IsWhole calls.now result }
{
    let mut count = 0_usize;
    let mut first = true;
    for word in last_call(calls).split_whitespace() {
        if !first || word != "isr" {
            count = count.saturating_add(1);
        }
        first = false;
    }
    count >= CALL_WORDS
}

// What an option says, where nothing was said by it yet.
fn once<'a>(
    before: Option<&'a str>,
    value: &'a str,
    option: &'static str,
) -> Result<Option<&'a str>, NoHandler>
    ensures said { IfOk result (λ said. as_text said ≡ Some value.entry.now) }
    ensures once { IfOk result (λ said. before.entry ≡ None) }
    ensures twice { IfErr result (λ why. (why ≡ Twice option.entry) × IsSome before.entry) }
{
    match before {
        None => Ok(Some(value)),
        Some(_) => Err(NoHandler::Twice { option }),
    }
}

// The same interrupt, of which one option more was cut off, if there is one.
fn without_last<'a>(said: Said<'a>) -> Result<Option<Said<'a>>, NoHandler>
    ensures says { IfOk result (λ cut. IfSome cut (λ front. (text : List ℕ)
        → SaysIsr text said.entry → SaysIsr text front)) }
    ensures more { IfOk result (λ cut. IfSome cut (λ front.
        options_said front ≡ options_said said.entry + 1)) }
    ensures bare { IfOk result (λ cut. cut ≡ None → IsBare said.entry.calls.now) }
    ensures twice { IfErr result (λ why. (text : List ℕ)
        → SaysIsr text said.entry → SaysTwice text why) }
{
    let (front, value) = last_word(said.calls);
    let (calls, name) = last_word(front);
    if !is_whole(calls) {
        return Ok(None);
    }
    let said = Said { calls, ..said };
    match name {
        "times" => {
            let times = once(said.times, value, "--times")?;
            Ok(Some(Said { times, ..said }))
        }
        "after" => {
            let after = once(said.after, value, "--after")?;
            Ok(Some(Said { after, ..said }))
        }
        "apart" => {
            let apart = once(said.apart, value, "--apart")?;
            Ok(Some(Said { apart, ..said }))
        }
        _ => Ok(None),
    }
}

/// The interrupt that these words say, without spaces at either end: its calls, and behind them its
/// options, in any order. `Twice` where an option is said twice. Whether its calls are some, and its
/// numbers ones that may be asked for, isn't asked here.
pub(crate) fn said_of(words: &str) -> Result<Said<'_>, NoHandler>
    ensures said { IfOk result (IsIsrOf words.entry.now) }
    ensures twice { IfErr result (SaysTwice words.entry.now) }
{
    let mut said = Said {
        calls: words,
        times: None,
        after: None,
        apart: None,
    };
    // (each option is said once, so that one more is refused)
    for _ in 0..=OPTIONS {
        match without_last(said)? {
            Some(front) => said = front,
            None => return Ok(said),
        }
    }
    Ok(said)
}
