//! Numbers that a word writes, within limits.

ghost use Rattle.std.specs.Prelude.{◌≡◌, ◌≤◌, IfSome};
ghost use Rattle.rd_question.specs.Numbers.{number_within, small_number};

use rd_text::words::number;

/// The number that a word writes, where it is one of these.
pub(crate) fn number_within(word: &str, least: usize, most: usize) -> Option<usize>
    ensures exact { result ≡ number_within least most word.now }
    ensures within { IfSome result (λ number. number ≤ most) }
{
    let number = number(word.as_bytes())? as usize;
    if least <= number && number <= most {
        Some(number)
    } else {
        None
    }
}

/// The number of at least so much that a word writes, where it is at most 255.
pub(crate) fn small_number(word: &str, least: usize) -> Option<u8>
    ensures exact { result ≡ small_number least word.now }
    ensures least { IfSome result (λ number. least ≤ number) }
{
    match number_within(word, least, 255) {
        Some(number) => Some(number as u8),
        None => None,
    }
}
