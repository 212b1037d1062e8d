//! The words of instructions and command lines: ASCII, apart by one or more spaces.

ghost use Rattle.std.specs.Prelude.{◌≡◌, ◌≤◌, ℕ, List, true, not, length};
ghost use Rattle.std.specs.Char.{is_ascii_digit};
ghost use Rattle.std.specs.List.{list_all, prefix_len};
ghost use Rattle.std.specs.Str.Parse.{digits_value};
ghost use Rattle.std.specs.Iterator.{YieldsFirstBy, item_count};
ghost use Rattle.std.specs.Option.{option_copied};
ghost use Rattle.rd_text.specs.Words.{AreWords, is_space, words_of};
ghost use Rattle.rd_text.specs.Words.{number_of, is_name, is_name_byte, name_of, bytes_of};

use rd_bytes::bytes::{Bytes, MAX_BYTES};
use std::marker::Model;
use std::str;

/// How many characters a name has at the most.
pub const MAX_NAME: usize = 16;

/// The words of a line that are still to come.
#[derive(Drop)]
pub struct Words<'a> {
    rest: &'a [u8],
}

impl<'a> Model for Words<'a> {
    ghost use Rattle.std.specs.Prelude.{ℕ, List};
    ghost use Rattle.rd_text.specs.Words.{words_of};

    ghost Value = { List (List ℕ) };

    ghost view = { λ w. words_of w.rest.now };
}

impl<'a> Words<'a> {
    /// The words of a line. Spaces at either end are dropped.
    pub fn new(line: &'a [u8]) -> Words<'a>
        ensures words { result ≡ words_of line.now }
        // They are the line's words, and the only ones.
        ensures spaced { AreWords result line.now }
        ensures only { (words : List (List ℕ)) → AreWords words line.now → words ≡ result }
    {
        Words { rest: line }
    }

    /// The same words, to be read a second time.
    pub fn copy(&self) -> Words<'a>
        ensures { result ≡ self.now }
    {
        Words { rest: self.rest }
    }
}

impl<'a> Iterator for Words<'a> {
    type Item = &'a [u8];

    ghost next_gives = { YieldsFirstBy (λ word. word.now) (λ words. words) };

    ghost remaining = { item_count (λ words. words) };

    fn next(&mut self) -> Option<&'a [u8]> {
        let line = &self.rest[spaces_len(self.rest)..];
        let (word, rest) = line.split_at(word_len(line));
        self.rest = rest;
        if word.is_empty() { None } else { Some(word) }
    }
}

// How many spaces the line begins with.
fn spaces_len(line: &[u8]) -> usize
    ensures prefix { result ≡ prefix_len is_space line.now }
    ensures within { result ≤ length line.now }
{
    line.iter().take_while(|byte| **byte == b' ').count()
}

// How many bytes stand before the line's first space.
fn word_len(line: &[u8]) -> usize
    ensures prefix { result ≡ prefix_len (λ byte. not (is_space byte)) line.now }
    ensures within { result ≤ length line.now }
{
    line.iter().take_while(|byte| **byte != b' ').count()
}

/// The value of a number: 1 to 10 decimal digits, at most 4,294,967,295.
pub fn number(word: &[u8]) -> Option<u32>
    ensures { result ≡ number_of word.now }
{
    if word.is_empty() || word.len() > 10 || !are_digits(word) {
        return None;
    }
    u32::try_from(value(word)).ok()
}

fn are_digits(word: &[u8]) -> bool
    ensures { result ≡ list_all is_ascii_digit word.now }
{
    word.iter().all(|byte| byte.is_ascii_digit())
}

// The number that the digits write.
fn value(digits: &[u8]) -> u64
    requires few { length digits.now ≤ 10 }
    requires digits { list_all is_ascii_digit digits.now ≡ true }
    ensures { result ≡ digits_value 10 digits.now }
{
    let mut value = 0;
    for digit in digits {
        value = value * 10 + u64::from(*digit - b'0');
    }
    value
}

/// Is this a name: 1 to 16 characters of `a` to `z`, `0` to `9` and `_`, the first a letter?
pub fn is_name(word: &[u8]) -> bool
    ensures { result ≡ is_name word.now }
{
    match word {
        [first, ..] if word.len() <= MAX_NAME && first.is_ascii_lowercase() => are_name_bytes(word),
        _ => false,
    }
}

/// The word as a name, where it has the form of one.
pub fn name(word: &[u8]) -> Option<&str>
    ensures { option_copied result ≡ name_of word.now }
{
    if is_name(word) {
        Some(str::from_utf8(word).unwrap())
    } else {
        None
    }
}

fn are_name_bytes(word: &[u8]) -> bool
    ensures { result ≡ list_all is_name_byte word.now }
{
    word.iter().all(|byte| is_name_byte(*byte))
}

fn is_name_byte(byte: u8) -> bool
    ensures { result ≡ is_name_byte byte }
{
    byte.is_ascii_lowercase() || byte.is_ascii_digit() || byte == b'_'
}

/// The bytes of a hexadecimal word: `-` for none, or 1 to 256 as pairs of digits of either case.
pub fn bytes(word: &[u8]) -> Option<Bytes>
    ensures { result ≡ bytes_of word.now }
{
    if word == b"-".as_slice() {
        return Some(Bytes::new());
    }
    if word.is_empty() || word.len() > 2 * MAX_BYTES {
        return None;
    }
    let mut buffer = [0; MAX_BYTES];
    let decoded = &mut buffer[..word.len() / 2];
    hex::decode_to_slice(word, decoded).ok()?;
    Some(Bytes::from_slice(decoded))
}
