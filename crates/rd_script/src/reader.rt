//! The operands of an instruction, read from its words.

ghost use Rattle.std.specs.Prelude.{◌≡◌};
ghost use Rattle.rd_script.specs.declared.keyword.Parameter.TheVariants as parameter;
ghost use Rattle.rd_script.specs.Draft.{scope_view};
ghost use Rattle.rd_script.specs.Spelling.{register_of, number_below, operand_of, time_of};
ghost use Rattle.rd_script.specs.Spelling.{on_exit_of, on_met_of, room_of, wait_for_of};
ghost use Rattle.rd_script.specs.Spelling.{index_named, index_of, is_formed, are_formed};
ghost use Rattle.rd_script.specs.Spelling.{Takes};
ghost use Rattle.rd_text.specs.Words.{texts};

use crate::error::AppError;
use crate::keyword::Parameter;
use crate::scope::Scope;
use rd_app::instr::{MAX_DELAY, Operand};
use rd_bytes::bytes::{Bytes, MAX_BYTES};
use rd_group::wish::{OnMet, WaitFor};
use rd_notify::action::{Action, OnExit, action_of};
use rd_text::kind::Kind;
use rd_text::words::{Words, bytes, name, number};
use std::marker::Model;

// The number of a register: `r0` to `r7`.
fn register_of(word: &[u8]) -> Option<usize>
    ensures { result ≡ register_of word.now }
{
    match word {
        [b'r', digit @ b'0'..=b'7'] => Some(usize::from(*digit - b'0')),
        _ => None,
    }
}

// A number, or the value of a register.
fn operand_of(word: &[u8]) -> Option<Operand>
    ensures { result ≡ operand_of word.now }
{
    match register_of(word) {
        Some(register) => Some(Operand::Register { register }),
        None => Some(Operand::Number {
            value: number(word)?,
        }),
    }
}

// A block time: `max`, a number of ticks, or the value of a register.
fn time_of(word: &[u8]) -> Option<Operand>
    ensures { result ≡ time_of word.now }
{
    match word {
        b"max" => Some(Operand::Number { value: MAX_DELAY }),
        _ => operand_of(word),
    }
}

// A number below a limit.
fn number_below(word: &[u8], limit: usize) -> Option<usize>
    ensures { result ≡ number_below limit word.now }
{
    let number = number(word)? as usize;
    if number < limit { Some(number) } else { None }
}

// How many bytes are read at the most: 1 to 256.
fn room_of(word: &[u8]) -> Option<usize>
    ensures { result ≡ room_of word.now }
{
    let room = number(word)? as usize;
    if 1 <= room && room <= MAX_BYTES {
        Some(room)
    } else {
        None
    }
}

// What a task that takes a value leaves of it (`xClearCountOnExit`).
fn on_exit_of(word: &[u8]) -> Option<OnExit>
    ensures { result ≡ on_exit_of word.now }
{
    match word {
        b"clear" => Some(OnExit::Clear),
        b"dec" => Some(OnExit::Decrement),
        _ => None,
    }
}

// Whether a task waits for any of its bits, or for all (`xWaitForAllBits`).
fn wait_for_of(word: &[u8]) -> Option<WaitFor>
    ensures { result ≡ wait_for_of word.now }
{
    match word {
        b"any" => Some(WaitFor::Any),
        b"all" => Some(WaitFor::All),
        _ => None,
    }
}

// What becomes of the bits that a task waited for (`xClearOnExit`).
fn on_met_of(word: &[u8]) -> Option<OnMet>
    ensures { result ≡ on_met_of word.now }
{
    match word {
        b"keep" => Some(OnMet::Keep),
        b"clear" => Some(OnMet::Clear),
        _ => None,
    }
}

/// The number of the thing with that name, which is its index among these.
pub(crate) fn index_of(name: &str, names: &[&str]) -> Result<usize, AppError>
    ensures { result ≡ index_of (texts names.now) name.now }
{
    for (index, other) in names.iter().enumerate() {
        if name == *other {
            return Ok(index);
        }
    }
    Err(AppError::Name)
}

// The number of the thing that a word names.
fn index_named(word: &[u8], names: &[&str]) -> Option<usize>
    ensures { result ≡ index_named (texts names.now) word.now }
{
    index_of(name(word)?, names).ok()
}

// Whether the word has the form of such an operand, whatever it names.
fn is_formed(parameter: Parameter, word: &[u8], scope: Scope<'_>, len: usize) -> bool
    ensures { result ≡ is_formed (scope_view scope.entry) len parameter word.now }
{
    match parameter {
        Parameter::Register => register_of(word).is_some(),
        Parameter::Number => number(word).is_some(),
        Parameter::Target => number_below(word, len).is_some(),
        Parameter::Data => bytes(word).is_some(),
        Parameter::Time => time_of(word).is_some(),
        Parameter::Operand => operand_of(word).is_some(),
        Parameter::Index => number_below(word, scope.entries).is_some(),
        Parameter::Room => room_of(word).is_some(),
        Parameter::Action => action_of(word).is_some(),
        Parameter::OnExit => on_exit_of(word).is_some(),
        Parameter::WaitFor => wait_for_of(word).is_some(),
        Parameter::OnMet => on_met_of(word).is_some(),
        Parameter::Name(_) => name(word).is_some(),
    }
}

/// Reads the words after a keyword, in that scope, in a script of that length.
#[derive(Drop)]
pub(crate) struct Reader<'a> {
    scope: Scope<'a>,
    len: usize,
    words: Words<'a>,
}

impl<'a> Model for Reader<'a> {
    ghost use Rattle.rd_script.specs.Draft.{scope_view};
    ghost use Rattle.rd_script.specs.Spelling.{InstrReading};

    ghost Value = { InstrReading };

    ghost view = { λ r. record {
      scope = scope_view r.scope;
      len = r.len;
      words = r.words;
    } };
}

impl<'a> Reader<'a> {
    /// Reads these words.
    pub(crate) fn new(scope: Scope<'a>, len: usize, words: Words<'a>) -> Reader<'a>
        ensures { result ≡ record {
          scope = scope_view scope.entry;
          len = len;
          words = words.entry;
        } }
    {
        Reader { scope, len, words }
    }

    /// Whether the words have the forms of these operands, and there are no more.
    pub(crate) fn are_formed(&self, parameters: &[Parameter]) -> bool
        ensures { result ≡ are_formed self.now.scope self.now.len parameters.now self.now.words }
    {
        let mut words = self.words.copy();
        for parameter in parameters {
            let Some(word) = words.next() else {
                return false;
            };
            if !is_formed(*parameter, word, self.scope, self.len) {
                return false;
            }
        }
        words.next().is_none()
    }

    /// The next word, as a register.
    #[tactic(auto, unfolding(crate::specs::Spelling::next_value))]
    pub(crate) fn register(&mut self) -> Option<usize>
        ensures { Takes parameter.Register self.old result self.new }
    {
        register_of(self.words.next()?)
    }

    /// The next word, as a number.
    #[tactic(auto, unfolding(crate::specs::Spelling::next_value))]
    pub(crate) fn number(&mut self) -> Option<u32>
        ensures { Takes parameter.Number self.old result self.new }
    {
        number(self.words.next()?)
    }

    /// The next word, as the number of an instruction of the script.
    #[tactic(auto, unfolding(crate::specs::Spelling::next_value))]
    pub(crate) fn target(&mut self) -> Option<usize>
        ensures { Takes parameter.Target self.old result self.new }
    {
        number_below(self.words.next()?, self.len)
    }

    /// The next word, as bytes.
    #[tactic(auto, unfolding(crate::specs::Spelling::next_value))]
    pub(crate) fn data(&mut self) -> Option<Bytes>
        ensures { Takes parameter.Data self.old result self.new }
    {
        bytes(self.words.next()?)
    }

    /// The next word, as a block time.
    #[tactic(auto, unfolding(crate::specs::Spelling::next_value))]
    pub(crate) fn time(&mut self) -> Option<Operand>
        ensures { Takes parameter.Time self.old result self.new }
    {
        time_of(self.words.next()?)
    }

    /// The next word, as a number or the value of a register.
    #[tactic(auto, unfolding(crate::specs::Spelling::next_value))]
    pub(crate) fn operand(&mut self) -> Option<Operand>
        ensures { Takes parameter.Operand self.old result self.new }
    {
        operand_of(self.words.next()?)
    }

    /// The next word, as the index of a notification entry.
    #[tactic(auto, unfolding(crate::specs::Spelling::next_value))]
    pub(crate) fn index(&mut self) -> Option<usize>
        ensures { Takes parameter.Index self.old result self.new }
    {
        number_below(self.words.next()?, self.scope.entries)
    }

    /// The next word, as how many bytes are read at the most.
    #[tactic(auto, unfolding(crate::specs::Spelling::next_value))]
    pub(crate) fn room(&mut self) -> Option<usize>
        ensures { Takes parameter.Room self.old result self.new }
    {
        room_of(self.words.next()?)
    }

    /// The next word, as what a notification does.
    #[tactic(auto, unfolding(crate::specs::Spelling::next_value))]
    pub(crate) fn action(&mut self) -> Option<Action>
        ensures { Takes parameter.Action self.old result self.new }
    {
        action_of(self.words.next()?)
    }

    /// The next word, as what is left of a value that is taken.
    #[tactic(auto, unfolding(crate::specs::Spelling::next_value))]
    pub(crate) fn on_exit(&mut self) -> Option<OnExit>
        ensures { Takes parameter.OnExit self.old result self.new }
    {
        on_exit_of(self.words.next()?)
    }

    /// The next word, as whether any of the bits is waited for, or all.
    #[tactic(auto, unfolding(crate::specs::Spelling::next_value))]
    pub(crate) fn wait_for(&mut self) -> Option<WaitFor>
        ensures { Takes parameter.WaitFor self.old result self.new }
    {
        wait_for_of(self.words.next()?)
    }

    /// The next word, as what becomes of the bits that were waited for.
    #[tactic(auto, unfolding(crate::specs::Spelling::next_value))]
    pub(crate) fn on_met(&mut self) -> Option<OnMet>
        ensures { Takes parameter.OnMet self.old result self.new }
    {
        on_met_of(self.words.next()?)
    }

    /// The next word, as the number of the thing of that kind that it names.
    #[tactic(auto, unfolding(crate::specs::Spelling::next_value))]
    pub(crate) fn named(&mut self, kind: Kind) -> Option<usize>
        ensures { Takes (parameter.Name kind) self.old result self.new }
    {
        index_named(self.words.next()?, self.scope.names(kind))
    }
}
