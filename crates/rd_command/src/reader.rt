//! The operands of a command, looked up in an application one after another.

ghost use Rattle.std.specs.Prelude.{◌≡◌, IfSome, slice_get};
ghost use Rattle.std.specs.Option.{option_copied};
ghost use Rattle.std.specs.Result.{result_ok};
ghost use Rattle.rd_command.specs.declared.keyword.CommandParameter.TheVariants as parameter;
ghost use Rattle.rd_command.specs.Bindings.{Takes, after_word, next_keyword, next_value};
ghost use Rattle.rd_command.specs.Bindings.{number_below, number_named};

use crate::binding::Unknown;
use crate::digits::Digits;
use crate::form::{count_of, operator_of, phase_of, watch_of};
use crate::keyword::{ConditionKeyword, condition_keyword_of};
use crate::known::Known;
use crate::word::Word;
use rd_app::instr::REGISTERS;
use rd_condition::condition::{Comparison, PhaseName};
use rd_moves::count::Count;
use rd_names::names::Names;
use rd_notify::action::{Action, action_of};
use rd_text::kind::Kind;
use rd_text::words::name;
use std::marker::Model;

// A number below a limit.
fn number_below(word: &Word<'_>, limit: usize) -> Result<usize, Unknown>
    ensures { result_ok result ≡ number_below limit word.now }
{
    match word.number() {
        Some(number) if (number as usize) < limit => Ok(number as usize),
        _ => Err(Unknown),
    }
}

// The number of the thing of that kind that a word names.
fn number_named(word: &[u8], kind: Kind, names: &Names) -> Result<usize, Unknown>
    ensures { result_ok result ≡ number_named names.now kind word.now }
{
    let name = name(word).ok_or(Unknown)?;
    names.find(kind, name).ok_or(Unknown)
}

/// Reads the operands of a command, which have their forms, and answers `Unknown` to one that the
/// application doesn't have.
#[derive(Drop)]
pub(crate) struct CommandReader<'r, 'a> {
    known: &'r Known,
    words: &'r [Word<'a>],
    // how many of the words are read
    read: usize,
}

impl<'r, 'a> Model for CommandReader<'r, 'a> {
    ghost use Rattle.std.specs.Prelude.{◌≤◌, drop, length};
    ghost use Rattle.rd_command.specs.Bindings.{Reading};

    ghost Value = { Reading };

    ghost view = { λ r. record {
      known = r.known.now;
      words = drop r.read r.words.now;
    } };

    ghost invariant = { λ r. r.read ≤ length r.words.now };
}

impl<'r, 'a> CommandReader<'r, 'a> {
    /// Reads these words in this application.
    pub(crate) fn new(known: &'r Known, words: &'r [Word<'a>]) -> CommandReader<'r, 'a>
        ensures { result ≡ record { known = known.now; words = words.now } }
    {
        CommandReader {
            known,
            words,
            read: 0,
        }
    }

    // The next word, which is read now.
    fn next(&mut self) -> Option<&'r Word<'a>>
        ensures word { option_copied result ≡ slice_get self.old.words 0 }
        ensures left { IfSome result (λ word. self.new ≡ after_word self.old) }
    {
        let word = self.words.get(self.read)?;
        self.read += 1;
        Some(word)
    }

    /// The next word, as the keyword of a condition.
    #[tactic(auto, unfolding(crate::specs::Bindings::next_keyword))]
    pub(crate) fn condition_keyword(&mut self) -> Result<ConditionKeyword, Unknown>
        ensures { Takes (next_keyword self.old) result self.new }
    {
        match condition_keyword_of(self.next().ok_or(Unknown)?.text()) {
            Some((_, keyword)) => Ok(keyword),
            None => Err(Unknown),
        }
    }

    /// The next word, as a core.
    #[tactic(auto, unfolding(crate::specs::Bindings::next_value))]
    pub(crate) fn core(&mut self) -> Result<usize, Unknown>
        ensures { Takes (next_value parameter.Core self.old) result self.new }
    {
        number_below(self.next().ok_or(Unknown)?, self.known.cores())
    }

    /// The next word, as a number of moves.
    #[tactic(auto, unfolding(crate::specs::Bindings::next_value))]
    pub(crate) fn count(&mut self) -> Result<Count, Unknown>
        ensures { Takes (next_value parameter.Count self.old) result self.new }
    {
        count_of(self.next().ok_or(Unknown)?).ok_or(Unknown)
    }

    /// The next word, as a register.
    #[tactic(auto, unfolding(crate::specs::Bindings::next_value))]
    pub(crate) fn register(&mut self) -> Result<usize, Unknown>
        ensures { Takes (next_value parameter.Register self.old) result self.new }
    {
        number_below(self.next().ok_or(Unknown)?, REGISTERS)
    }

    /// The next word, as the index of a notification entry.
    #[tactic(auto, unfolding(crate::specs::Bindings::next_value))]
    pub(crate) fn index(&mut self) -> Result<usize, Unknown>
        ensures { Takes (next_value parameter.Index self.old) result self.new }
    {
        number_below(self.next().ok_or(Unknown)?, self.known.entries())
    }

    /// The next word, as a number.
    #[tactic(auto, unfolding(crate::specs::Bindings::next_value))]
    pub(crate) fn number(&mut self) -> Result<u32, Unknown>
        ensures { Takes (next_value parameter.Number self.old) result self.new }
    {
        self.next().ok_or(Unknown)?.number().ok_or(Unknown)
    }

    /// The next word, as the digits of bytes.
    #[tactic(auto, unfolding(crate::specs::Bindings::next_value))]
    pub(crate) fn data(&mut self) -> Result<Digits<'a>, Unknown>
        ensures { Takes (next_value parameter.Data self.old) result self.new }
    {
        Digits::new(self.next().ok_or(Unknown)?.text()).ok_or(Unknown)
    }

    /// The next word, as how an amount is compared.
    #[tactic(auto, unfolding(crate::specs::Bindings::next_value))]
    pub(crate) fn operator(&mut self) -> Result<Comparison, Unknown>
        ensures { Takes (next_value parameter.Operator self.old) result self.new }
    {
        operator_of(self.next().ok_or(Unknown)?.text()).ok_or(Unknown)
    }

    /// The next word, as what a phase is called.
    #[tactic(auto, unfolding(crate::specs::Bindings::next_value))]
    pub(crate) fn phase(&mut self) -> Result<PhaseName, Unknown>
        ensures { Takes (next_value parameter.Phase self.old) result self.new }
    {
        phase_of(self.next().ok_or(Unknown)?.text()).ok_or(Unknown)
    }

    /// The next word, as what a notification does.
    #[tactic(auto, unfolding(crate::specs::Bindings::next_value))]
    pub(crate) fn action(&mut self) -> Result<Action, Unknown>
        ensures { Takes (next_value parameter.Action self.old) result self.new }
    {
        action_of(self.next().ok_or(Unknown)?.text()).ok_or(Unknown)
    }

    /// The next word, as the number of a watch.
    #[tactic(auto, unfolding(crate::specs::Bindings::next_value))]
    pub(crate) fn watch(&mut self) -> Result<usize, Unknown>
        ensures { Takes (next_value parameter.Watch self.old) result self.new }
    {
        watch_of(self.next().ok_or(Unknown)?.text()).ok_or(Unknown)
    }

    /// The next word, as the number of the thing of that kind that it names.
    #[tactic(auto, unfolding(crate::specs::Bindings::next_value))]
    pub(crate) fn named(&mut self, kind: Kind) -> Result<usize, Unknown>
        ensures { Takes (next_value (parameter.Name kind) self.old) result self.new }
    {
        number_named(self.next().ok_or(Unknown)?.text(), kind, self.known.names())
    }
}
