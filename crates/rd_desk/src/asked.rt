//! A command that is kept.

ghost use Rattle.std.specs.Prelude.{◌≡◌, ◌↔◌, ◌<◌, length, IfOk, IsSome, IsTrue, OnErr, Some};
ghost use Rattle.rd_text.specs.Words.{words_of};
ghost use Rattle.rd_command.specs.Commands.{command_of};
ghost use Rattle.rd_desk.specs.Asked.{asked_by};

use rd_bytes::no_memory::NoMemory;
use rd_command::laws::what_is_spelled_is_found;
use rd_text::words::Words;
use smallvec::SmallVec;
use std::alloc::Global;
use std::marker::Model;

/// How many bytes of a line take no memory elsewhere.
pub const INLINE_BYTES: usize = 24;

/// A command that is kept, by its line.
#[derive(Drop)]
pub struct Asked {
    line: SmallVec<u8, INLINE_BYTES>,
}

impl Model for Asked {
    ghost use Rattle.std.specs.Prelude.{IsSome};
    ghost use Rattle.rd_text.specs.Words.{words_of};
    ghost use Rattle.rd_command.specs.Commands.{CommandView, command_of};
    ghost use Rattle.rd_desk.specs.Asked.{asked_by};

    ghost Value = { CommandView };

    ghost view = { λ a. asked_by a.line.items };

    ghost invariant = { λ a. IsSome (command_of (words_of a.line.items)) };
}

impl Asked {
    /// The command of this line. An `Err` says that there is no memory for the line, and comes only
    /// where that has more than 24 bytes.
    pub fn new(alloc: Global, line: &[u8]) -> Result<Asked, NoMemory>
        requires { IsSome (command_of (words_of line.now)) }
        ensures ok { IfOk result (λ asked. asked ≡ asked_by line.now) }
        ensures err { OnErr result (INLINE_BYTES < length line.now) }
    {
        Ok(Asked {
            line: SmallVec::from_slice(alloc, line)?,
        })
    }

    /// Its line, which says alone which command it is.
    pub fn line(&self) -> &[u8]
        ensures { command_of (words_of result.now) ≡ Some self.now }
    {
        self.line.as_slice()
    }
}

// Whether two lines of commands ask for the same. (They may have other spaces.)
pub(crate) fn are_same_command(line: &[u8], other: &[u8]) -> bool
    requires line { IsSome (command_of (words_of line.now)) }
    requires other { IsSome (command_of (words_of other.now)) }
    ensures { IsTrue result ↔ (asked_by line.now ≡ asked_by other.now) }
{
    what_is_spelled_is_found();
    have_same_words(line, other)
}

// Whether two lines have the same words. (Mostly they have the same bytes; then no word is cut.)
fn have_same_words(line: &[u8], other: &[u8]) -> bool
    ensures { IsTrue result ↔ (words_of line.now ≡ words_of other.now) }
{
    line == other || agree_word_by_word(line, other)
}

// The same, looked at word by word.
#[inline(never)]
fn agree_word_by_word(line: &[u8], other: &[u8]) -> bool
    ensures { IsTrue result ↔ (words_of line.now ≡ words_of other.now) }
{
    let mut words = Words::new(line);
    let mut others = Words::new(other);
    while let Some(word) = words.next() {
        if others.next() != Some(word) {
            return false;
        }
    }
    others.next().is_none()
}
