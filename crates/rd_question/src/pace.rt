//! The pace: how time is said apart from moves.

ghost use Rattle.std.specs.Prelude.{◌≡◌, ◌<◌, ◌≤◌, ℕ, Some, false, true};
ghost use Rattle.std.specs.Prelude.{IfErr, IfOk, IfSome, IsErrOf};
ghost use Rattle.rd_question.specs.Paces.{CanCome, IsCrossed, IsLeast, IsMost, IsNoLeast, IsNoMost};
ghost use Rattle.rd_question.specs.Paces.{IsOutOfForm, IsWritten};
ghost use Rattle.rd_question.specs.declared.pace.NoPace.TheVariants.{Crossed, Form};

use crate::numbers::small_number;
use thiserror::Error;

/// How many moves the task on a busy core makes from one tick to the next.
#[derive(Clone, Copy, Debug)]
pub struct Pace {
    /// At the least.
    pub at_least: u8,
    /// At the most, if that is limited.
    pub at_most: Option<u8>,
}

/// Moves come as they like.
pub const NO_PACE: Pace = Pace {
    at_least: 0,
    at_most: None,
};

/// Why a word is no pace.
#[derive(Debug, Drop, Error)]
pub enum NoPace {
    /// It isn't two numbers, or one, beside `..`.
    #[error("a pace is M..N, M.. or ..N, where M is 0 to 255 and N is 1 to 255")]
    Form,
    /// No tick could come.
    #[error("M is above N, so that no tick could come")]
    Crossed,
}

// The least number of moves, which is 0 where nothing is said.
fn least_of(text: &str) -> Result<u8, NoPace>
    ensures ok { IfOk result (IsLeast text.now) }
    ensures err { IfErr result (λ cause. (cause ≡ Form) × IsNoLeast text.now) }
{
    if text.is_empty() {
        return Ok(0);
    }
    small_number(text, 0).ok_or(NoPace::Form)
}

// The largest number of moves, of which there is none where nothing is said.
fn most_of(text: &str) -> Result<Option<u8>, NoPace>
    ensures written { IfOk result (IsMost text.now) }
    ensures some { IfOk result (λ most. IfSome most (λ moves. 1 ≤ moves)) }
    ensures err { IfErr result (λ cause. (cause ≡ Form) × IsNoMost text.now) }
{
    if text.is_empty() {
        return Ok(None);
    }
    let most = small_number(text, 1).ok_or(NoPace::Form)?;
    Ok(Some(most))
}

// Whether ticks can come, and moves.
fn is_crossed(pace: &Pace) -> bool
    ensures not { result ≡ false
        → IfSome pace.now.at_most (λ most. pace.now.at_least ≤ most) }
    ensures crossed { result ≡ true → (most : ℕ) × (pace.now.at_most ≡ Some most)
        × (most < pace.now.at_least) }
{
    match pace.at_most {
        Some(most) => pace.at_least > most,
        None => false,
    }
}

/// The pace that a word is: `M..N`, `M..` or `..N`, where M is 0 to 255, N is 1 to 255 and M is at
/// most N. `Form` where it is none of these, `Crossed` where M is above N.
#[tactic(auto, using(crate::proofs::TextLaws::in_parts))]
pub fn pace_of(word: &str) -> Result<Pace, NoPace>
    ensures written { IfOk result (IsWritten word.now) }
    ensures comes { IfOk result CanCome }
    ensures form { IsErrOf result Form → IsOutOfForm word.now }
    ensures crossed { IsErrOf result Crossed → IsCrossed word.now }
{
    let (least, most) = word.split_once("..").ok_or(NoPace::Form)?;
    if least.is_empty() && most.is_empty() {
        return Err(NoPace::Form);
    }
    let pace = Pace {
        at_least: least_of(least)?,
        at_most: most_of(most)?,
    };
    if is_crossed(&pace) {
        return Err(NoPace::Crossed);
    }
    Ok(pace)
}
