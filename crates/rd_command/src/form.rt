//! The forms of the words of a command, whatever they name.

ghost use Rattle.std.specs.Prelude.{◌≡◌};
ghost use Rattle.std.specs.Option.{option_copied};
ghost use Rattle.rd_command.specs.Forms.{count_of, operator_of, phase_of, is_formed};
ghost use Rattle.rd_command.specs.Forms.{watch_number, watch_of};
ghost use Rattle.rd_command.specs.Forms.{after_words, after_condition};
ghost use Rattle.rd_command.specs.Forms.{are_operands, is_all};
ghost use Rattle.rd_command.specs.Tables.{operands_view};

use crate::binding::MAX_WATCHES;
use crate::digits::is_data;
use crate::keyword::{CommandParameter, Operands, condition_keyword_of};
use crate::word::Word;
use rd_condition::condition::{Comparison, PhaseName};
use rd_moves::count::Count;
use rd_notify::action::action_of;
use rd_text::words::{is_name, number};

/// A number of moves: 1 to 1,000,000.
pub(crate) fn count_of(word: &Word<'_>) -> Option<Count>
    ensures { result ≡ count_of word.now }
{
    Count::new(word.number()?)
}

/// The number of a watch, 0 to 15, of a word that is `w` and that number.
pub(crate) fn watch_of(word: &[u8]) -> Option<usize>
    ensures { result ≡ watch_of word.now }
{
    match word {
        [b'w', digits @ ..] => watch_number(digits),
        _ => None,
    }
}

// A number below 16.
fn watch_number(digits: &[u8]) -> Option<usize>
    ensures { result ≡ watch_number digits.now }
{
    match number(digits) {
        Some(number) if (number as usize) < MAX_WATCHES => Some(number as usize),
        _ => None,
    }
}

/// How an amount is compared: `=`, `<` or `>`.
pub(crate) fn operator_of(word: &[u8]) -> Option<Comparison>
    ensures { result ≡ operator_of word.now }
{
    match word {
        b"=" => Some(Comparison::Equal),
        b"<" => Some(Comparison::Less),
        b">" => Some(Comparison::Greater),
        _ => None,
    }
}

/// What a phase is called.
pub(crate) fn phase_of(word: &[u8]) -> Option<PhaseName>
    ensures { result ≡ phase_of word.now }
{
    match word {
        b"run" => Some(PhaseName::Run),
        b"again" => Some(PhaseName::Again),
        b"given" => Some(PhaseName::Given),
        b"wait" => Some(PhaseName::Wait),
        b"ended" => Some(PhaseName::Ended),
        b"failed" => Some(PhaseName::Failed),
        _ => None,
    }
}

// Whether a word has the form of such an operand. (Inlined, as `are_operands`: most lines are moves
// of two words, for which two calls more are a tenth of what it takes to read them.)
#[inline(always)]
fn is_formed(parameter: CommandParameter, word: &Word<'_>) -> bool
    ensures { result ≡ is_formed parameter word.now }
{
    match parameter {
        CommandParameter::Core
        | CommandParameter::Register
        | CommandParameter::Index
        | CommandParameter::Number => { word.number().is_some() }
        CommandParameter::Count => count_of(word).is_some(),
        CommandParameter::Data => is_data(word.text()),
        CommandParameter::Operator => operator_of(word.text()).is_some(),
        CommandParameter::Phase => phase_of(word.text()).is_some(),
        CommandParameter::Action => action_of(word.text()).is_some(),
        CommandParameter::Watch => watch_of(word.text()).is_some(),
        CommandParameter::Name(_) => is_name(word.text()),
    }
}

// What is left of the words behind one for each of these operands, if they have the forms.
fn after_words<'w, 'a>(
    words: &'w [Word<'a>],
    parameters: &[CommandParameter],
) -> Option<&'w [Word<'a>]>
    ensures { option_copied result ≡ after_words parameters.now words.now }
{
    let mut left = words;
    for parameter in parameters {
        let [word, others @ ..] = left else {
            return None;
        };
        if !is_formed(*parameter, word) {
            return None;
        }
        left = others;
    }
    Some(left)
}

// What is left of the words behind a condition, if they begin with one.
fn after_condition<'w, 'a>(words: &'w [Word<'a>]) -> Option<&'w [Word<'a>]>
    ensures { option_copied result ≡ after_condition words.now }
{
    let (first, others) = words.split_first()?;
    let (parameters, _) = condition_keyword_of(first.text())?;
    after_words(others, parameters)
}

// Whether the words are one for each of these operands, with the forms, and no more.
fn are_formed(words: &[Word<'_>], parameters: &[CommandParameter]) -> bool
    ensures { result ≡ is_all (after_words parameters.now words.now) }
{
    match after_words(words, parameters) {
        Some(left) => left.is_empty(),
        None => false,
    }
}

/// Whether the words are such operands, and no more.
#[inline(always)]
pub(crate) fn are_operands(words: &[Word<'_>], operands: Operands<'_>) -> bool
    ensures { result ≡ are_operands (operands_view operands.entry) words.now }
{
    match operands {
        Operands::Plain(parameters) => are_formed(words, parameters),
        Operands::WithCondition(parameters) => match after_condition(words) {
            Some(left) => are_formed(left, parameters),
            None => false,
        },
    }
}
