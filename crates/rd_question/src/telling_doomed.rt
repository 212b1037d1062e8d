//! What is told of whether a goal can be lost.

ghost use Rattle.std.specs.Prelude.{◌≡◌, ◌≤◌, IfOk};
ghost use Rattle.rd_question.specs.Statuses.{status_of_verdict};

use crate::telling::{
    AskedQuestion, FOUND, NONE, UNTOLD, tell_counts, tell_lines, tell_missed, tell_order, told,
};
use rd_doomed::verdict::{Doomed, Verdict};
use std::io;
use std::io::Write;

// The verdict by itself. The exit status it has.
fn tell_verdict<W: Write>(
    writer: &mut W,
    asked: &AskedQuestion<'_>,
    verdict: &Verdict,
) -> io::Result<u8>
    ensures { IfOk result (λ status. status ≡ status_of_verdict verdict.now) }
{
    match verdict {
        Verdict::Found(order) => {
            writeln!(writer, "found")?;
            tell_lines(writer, asked)?;
            tell_order(writer, asked, order.as_slice())?;
            Ok(FOUND)
        }
        Verdict::Never(most) => {
            writeln!(writer, "never")?;
            writeln!(writer, "within {most} moves it comes from anywhere")?;
            Ok(NONE)
        }
        Verdict::Full(cause) => {
            writeln!(writer, "full")?;
            writeln!(writer, "{}", told(*cause))?;
            Ok(UNTOLD)
        }
    }
}

/// Writes whether a goal can be lost: `found`, and the order to a place from which it can come no
/// more, behind the command lines that the search began behind; `never`, and within how many moves
/// it comes from anywhere; or `full`, and why. Then what was gone through, and where no order was
/// left out which instructions none came to. Answers the exit status: 0 where it can't be lost, 1
/// where it can, 2 where that can't be told.
pub(crate) fn tell_doomed<W: Write>(
    writer: &mut W,
    asked: &AskedQuestion<'_>,
    doomed: &Doomed,
) -> io::Result<u8>
    ensures status { IfOk result (λ status. status ≡ status_of_verdict doomed.now.verdict) }
    ensures within { IfOk result (λ status. status ≤ 2) }
{
    let status = tell_verdict(writer, asked, &doomed.verdict)?;
    let counts = &doomed.counts;
    tell_counts(writer, counts.states, counts.moves, counts.deepest)?;
    if status == NONE {
        tell_missed(writer, asked.app, &doomed.came)?;
    }
    Ok(status)
}
