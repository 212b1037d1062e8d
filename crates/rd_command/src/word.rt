//! The words of a line, each cut once, with the number that it is.

ghost use Rattle.std.specs.Prelude.{◌≡◌, ◌≤◌, [], IsTrue, length, nat_le};
ghost use Rattle.rd_text.specs.Words.{number_of};
ghost use Rattle.rd_command.specs.declared.word.TheConstants.{MAX_WORDS};

use arrayvec::ArrayVec;
use rd_text::words::{Words, number};
use std::marker::Model;

/// How many words a command has at the most behind its first one, as in `until` for a register.
pub(crate) const MAX_WORDS: usize = 6;

/// A word of a line. Its number, if it is one, was read with it.
#[derive(Drop)]
pub(crate) struct Word<'a> {
    text: &'a [u8],
    number: Option<u32>,
}

impl<'a> Model for Word<'a> {
    ghost use Rattle.std.specs.Prelude.{◌≡◌, ℕ, List};
    ghost use Rattle.rd_text.specs.Words.{number_of};

    ghost Value = { List ℕ };

    ghost view = { λ w. w.text.now };

    ghost invariant = { λ w. w.number ≡ number_of w.text.now };
}

impl<'a> Default for Word<'a> {
    fn default() -> Word<'a> {
        Word {
            text: &[],
            number: None,
        }
    }
}

impl<'a> Word<'a> {
    /// Reads a word.
    pub(crate) fn new(text: &'a [u8]) -> Word<'a>
        ensures { result ≡ text.now }
    {
        Word {
            text,
            number: number(text),
        }
    }

    /// The word.
    pub(crate) fn text(&self) -> &'a [u8]
        ensures { result.now ≡ self.now }
    {
        self.text
    }

    /// Its number, if it is one.
    pub(crate) fn number(&self) -> Option<u32>
        ensures { result ≡ number_of self.now }
    {
        self.number
    }
}

/// The words behind the first one of a line, as many as a command may have. They lie where whoever
/// reads a line wants them, since what is handed on with all of them is copied each time.
#[derive(Drop)]
pub struct Behind<'a> {
    words: ArrayVec<Word<'a>, MAX_WORDS>,
}

impl<'a> Model for Behind<'a> {
    ghost use Rattle.std.specs.Prelude.{ℕ, List};

    ghost Value = { List (List ℕ) };

    ghost view = { λ b. b.words.items };
}

impl<'a> Behind<'a> {
    /// No words yet.
    pub fn new() -> Behind<'a>
        ensures { result ≡ [] }
    {
        Behind {
            words: ArrayVec::new(),
        }
    }

    /// Reads these words, in place of those that were read before. Answers whether they are no more
    /// than a command may have; of more not all are read.
    pub(crate) fn read(&mut self, words: Words<'a>) -> bool
        ensures few { result ≡ nat_le (length words.entry) MAX_WORDS }
        ensures all { IsTrue result → self.new ≡ words.entry }
    {
        self.words.clear();
        for text in words {
            if self.words.is_full() {
                return false;
            }
            self.words.push(Word::new(text));
        }
        true
    }

    /// The words.
    pub(crate) fn as_slice(&self) -> &[Word<'a>]
        ensures words { result.now ≡ self.now }
        ensures few { length self.now ≤ MAX_WORDS }
    {
        self.words.as_slice()
    }
}
