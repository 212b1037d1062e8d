//! The commands of a session.

ghost use Rattle.std.specs.Prelude.{◌≡◌, ◌≤◌, Some, IfOk, IfSome, length, option_map};
ghost use Rattle.std.specs.Result.{result_ok};
ghost use Rattle.rd_text.specs.Words.{words_of};
ghost use Rattle.rd_command.specs.Commands.{AreOperands, CommandView, Spells, command_from};
ghost use Rattle.rd_command.specs.Commands.{command_of};
ghost use Rattle.rd_command.specs.Keywords.{needs_wheel, spelling_of};
ghost use Rattle.rd_command.specs.Tables.{alone_view, longer_view, verb_view, verbs_view};
ghost use Rattle.rd_command.specs.Tables.{command_alone, command_behind, command_by_verb};
ghost use Rattle.rd_command.specs.Tables.{command_longer, command_with_second};
ghost use Rattle.rd_command.specs.Tables.{found_in, with_operands};

use crate::form::are_operands;
use crate::keyword::{Alone, CommandKeyword, KEYWORDS, Longer, Verb};
use crate::word::{Behind, Word};
use rd_text::words::Words;
use std::marker::Model;
use thiserror::Error;

/// A command of a session: its keyword, and the words of its operands, which have the forms that
/// the keyword asks for. So the word of a count is a number of 1 to 1,000,000, and `bind` makes a
/// `Count` of it. Each word was cut once, and its number read, where the words lie. What they name
/// is looked up by `bind`.
#[derive(Drop)]
pub struct Command<'w, 'l> {
    line: &'l [u8],
    keyword: CommandKeyword,
    operands: &'w [Word<'l>],
}

impl<'w, 'l> Model for Command<'w, 'l> {
    ghost use Rattle.std.specs.Prelude.{◌≡◌, Some};
    ghost use Rattle.rd_text.specs.Words.{words_of};
    ghost use Rattle.rd_command.specs.Commands.{CommandView, command_of};

    ghost Value = { CommandView };

    ghost view = { λ c. record { keyword = c.keyword; operands = c.operands.now } };

    ghost invariant = { λ c. command_of (words_of c.line.now)
        ≡ Some (record { keyword = c.keyword; operands = c.operands.now }) };
}

/// What the words of a line were found to be: a keyword, and how many of the words behind the first
/// one are its own.
#[derive(Clone, Copy)]
struct Found {
    keyword: CommandKeyword,
    own: usize,
}

/// The line is no command.
#[derive(Debug, Drop, Error)]
#[error("the line is no command")]
pub struct Syntax;

impl<'w, 'l> Command<'w, 'l> {
    /// The line that the command was read from. The line alone says which command it is.
    pub fn line(&self) -> &'l [u8]
        ensures { command_of (words_of result.now) ≡ Some self.now }
    {
        self.line
    }

    /// The same command once more, whose words lie where they lay.
    pub fn copy(&self) -> Command<'w, 'l>
        ensures { result ≡ self.now }
    {
        Command {
            line: self.line,
            keyword: self.keyword,
            operands: self.operands,
        }
    }

    /// For contracts alone: what holds of every command: the words of its operands have the forms
    /// that its keyword asks for, that of a count the form of one.
    pub fn by_invariant(&self)
        ensures { AreOperands (spelling_of self.now.keyword).operands self.now.operands }
    {
        let _ = &self.line;
    }

    /// Whether the command is refused while another session has the wheel.
    pub fn needs_wheel(&self) -> bool
        ensures { result ≡ needs_wheel self.now.keyword }
    {
        self.keyword.needs_wheel()
    }

    /// The words of the operands.
    pub(crate) fn operands(&self) -> &'w [Word<'l>]
        ensures { result.now ≡ self.now.operands }
    {
        self.operands
    }

    /// The keyword.
    pub(crate) fn keyword(&self) -> CommandKeyword
        ensures { result ≡ self.now.keyword }
    {
        self.keyword
    }
}

/// Reads a command from its line. Its words come to lie in `behind`, whatever lay there before.
/// `Syntax` exactly where the words of the line spell no command.
pub fn parse_line<'w, 'l>(
    line: &'l [u8],
    behind: &'w mut Behind<'l>,
) -> Result<Command<'w, 'l>, Syntax>
    ensures exact { result_ok result ≡ command_of (words_of line.now) }
    // What is read is spelled so, and what is spelled so is read.
    ensures spelled { IfOk result (Spells (words_of line.now)) }
    ensures only { (command : CommandView) → Spells (words_of line.now) command
        → result_ok result ≡ Some command }
{
    read_line(line, behind)
}

// The command that the words of the line spell, if they do.
fn read_line<'w, 'l>(line: &'l [u8], behind: &'w mut Behind<'l>) -> Result<Command<'w, 'l>, Syntax>
    ensures { result_ok result ≡ command_of (words_of line.now) }
{
    let mut words = words_in(line);
    let Some(first) = words.next() else {
        return Err(Syntax);
    };
    if !behind.read(words) {
        return Err(Syntax);
    }
    let behind = behind.as_slice();
    let Found { keyword, own } = command_from(first, behind).ok_or(Syntax)?;
    Ok(Command {
        line,
        keyword,
        operands: &behind[own..],
    })
}

// The words of a line. Of the reader's contract only this matters here.
fn words_in(line: &[u8]) -> Words<'_>
    ensures { result ≡ words_of line.now }
{
    Words::new(line)
}

// The command that the words spell, of which the first stands apart, if they do.
fn command_from(first: &[u8], words: &[Word<'_>]) -> Option<Found>
    ensures command { option_map (found_in words.now) result ≡ command_from first.now words.now }
    ensures own { IfSome result (λ found. found.own ≤ length words.now) }
{
    command_by_verb(first, words, &KEYWORDS)
}

// The command of the keywords that begin with the first word, which stands apart.
fn command_by_verb(first: &[u8], words: &[Word<'_>], verbs: &[Verb<'_>]) -> Option<Found>
    ensures command { option_map (found_in words.now) result
        ≡ command_by_verb (verbs_view verbs.now) first.now words.now }
    ensures own { IfSome result (λ found. found.own ≤ length words.now) }
{
    for verb in verbs {
        if first == verb.0.as_bytes() {
            return command_behind(words, verb);
        }
    }
    None
}

// The command that the words spell behind this first word.
fn command_behind(words: &[Word<'_>], verb: &Verb<'_>) -> Option<Found>
    ensures command { option_map (found_in words.now) result
        ≡ command_behind (verb_view verb.now) words.now }
    ensures own { IfSome result (λ found. found.own ≤ length words.now) }
{
    let (_, alone, longer) = *verb;
    let found = command_alone(words, alone);
    if found.is_some() {
        found
    } else {
        command_longer(words, longer)
    }
}

// The command of the first of these keywords that the words are the operands of.
fn command_alone(words: &[Word<'_>], rows: &[Alone<'_>]) -> Option<Found>
    ensures command { option_map (found_in words.now) result
        ≡ command_alone (alone_view rows.now) words.now }
    ensures own { IfSome result (λ found. found.own ≤ length words.now) }
{
    for (operands, keyword) in rows {
        if are_operands(words, *operands) {
            return Some(Found {
                keyword: *keyword,
                own: 0,
            });
        }
    }
    None
}

// The command of the keywords that have a second word.
fn command_longer(words: &[Word<'_>], rows: &[Longer<'_>]) -> Option<Found>
    ensures command { option_map (found_in words.now) result
        ≡ command_longer (longer_view rows.now) words.now }
    ensures own { IfSome result (λ found. found.own ≤ length words.now) }
{
    let (second, others) = words.split_first()?;
    let keyword = keyword_with_second(second.text(), others, rows)?;
    Some(Found { keyword, own: 1 })
}

// The first of these keywords that has this second word, and the words as operands.
fn keyword_with_second(
    second: &[u8],
    words: &[Word<'_>],
    rows: &[Longer<'_>],
) -> Option<CommandKeyword>
    ensures { option_map (with_operands words.now) result
        ≡ command_with_second (longer_view rows.now) second.now words.now }
{
    for (text, operands, keyword) in rows {
        if second == text.as_bytes() && are_operands(words, *operands) {
            return Some(*keyword);
        }
    }
    None
}
