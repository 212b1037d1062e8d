//! The part of all orders that a command line asks for.

ghost use Rattle.std.specs.Prelude.{IfErr, IfOk};
ghost use Rattle.rd_question.specs.Parts.{IsNoPart, IsPart};

use crate::numbers::small_number;
use rd_dealt::part::Part;
use thiserror::Error;

/// Why a word is no part.
#[derive(Debug, Drop, Error)]
pub enum NoPart {
    /// It isn't two numbers with `/` between them, of which the first is 1 at the least, and the
    /// second as much at the least and 255 at the most.
    #[error("a part is K/N, the Kth of N parts, 1/1 to 255/255")]
    Form,
}

/// The part that a word is: `K/N`, the Kth of N, where N is 255 at the most. `Form` exactly where it
/// is none.
pub fn part_of(word: &str) -> Result<Part, NoPart>
    ensures part { IfOk result (IsPart word.now) }
    ensures none { IfErr result (λ cause. IsNoPart word.now) }
{
    let (first, second) = word.split_once('/').ok_or(NoPart::Form)?;
    let number = small_number(first, 1).ok_or(NoPart::Form)?;
    let parts = small_number(second, 1).ok_or(NoPart::Form)?;
    Part::new(number, parts).ok_or(NoPart::Form)
}
