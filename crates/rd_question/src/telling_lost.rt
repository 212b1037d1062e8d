//! What is told of where a run lost a goal.

ghost use Rattle.std.specs.Prelude.{◌≡◌, ◌≤◌, IfOk};
ghost use Rattle.rd_question.specs.Statuses.{status_of_lost};

use crate::telling::{
    AskedQuestion, FOUND, NONE, UNTOLD, tell_counts, tell_lines, tell_order, told,
};
use rd_lost::outcome::{Lost, LostOutcome, Untold, Way};
use std::io;
use std::io::Write;

// An order from a place of the run, which has so many moves: the lines that lead to its last place, a
// way back from there, and the order.
fn tell_way<W: Write>(
    writer: &mut W,
    asked: &AskedQuestion<'_>,
    moves: usize,
    place: usize,
    order: &[u8],
) -> io::Result<()> {
    tell_lines(writer, asked)?;
    if place < moves {
        writeln!(writer, "back {}", moves - place)?;
    }
    tell_order(writer, asked, order)
}

// From which place on the goal is known to be lost, and at which it can still come, as far as that is
// known.
fn tell_borders<W: Write>(
    writer: &mut W,
    known_lost: Option<usize>,
    can_come: Option<&Way>,
) -> io::Result<()> {
    match (known_lost, can_come) {
        (Some(lost), Some(way)) => writeln!(writer, "full: lost at {lost}, still at {}", way.place),
        (Some(lost), None) => writeln!(writer, "full: lost at {lost}"),
        (None, Some(way)) => writeln!(writer, "full: still at {}", way.place),
        (None, None) => writeln!(writer, "full"),
    }
}

// Why it can't be told from a place.
fn tell_why<W: Write>(writer: &mut W, place: usize, untold: Untold) -> io::Result<()> {
    match untold {
        Untold::NotWithin(most) => writeln!(writer, "from {place}: not within {most} moves"),
        Untold::Full(depth, cause) => {
            writeln!(writer, "from {place}: not within {depth} moves")?;
            writeln!(writer, "{}", told(cause))
        }
        Untold::NoMemory => writeln!(writer, "from {place}: there is no more memory"),
    }
}

// Where it was lost, by itself. The exit status that says so.
fn tell_place<W: Write>(
    writer: &mut W,
    asked: &AskedQuestion<'_>,
    first: usize,
    moves: usize,
    lost: &Lost,
) -> io::Result<u8>
    ensures { IfOk result (λ status. status ≡ status_of_lost lost.now) }
{
    match lost {
        Lost::Still(order) => {
            writeln!(writer, "still")?;
            tell_way(writer, asked, moves, moves, order.as_slice())?;
            Ok(FOUND)
        }
        Lost::At { place, before } => {
            writeln!(writer, "lost at {place}")?;
            tell_way(
                writer,
                asked,
                moves,
                place.saturating_sub(1),
                before.as_slice(),
            )?;
            Ok(NONE)
        }
        Lost::Never => {
            writeln!(writer, "lost at {first}")?;
            Ok(NONE)
        }
        Lost::Full {
            known_lost,
            can_come,
            place,
            untold,
        } => {
            tell_borders(writer, *known_lost, can_come.as_ref())?;
            tell_why(writer, *place, *untold)?;
            Ok(UNTOLD)
        }
    }
}

/// Writes where a goal was lost in a run of so many moves, whose first place this is. `still`: it can
/// come from the last place, by the order behind the command lines that lead there. `lost at I`: from
/// place I on it comes by no order, and from the place before by the one that is told, behind the
/// command lines and a way back. Nothing is told behind `lost at I` where no place is before. `full`:
/// that can't be told; as far as it is known, from which place on it is lost, and at which it can still
/// come; and why it can't be told from one between. Then what was gone through. Answers the exit
/// status: 0 where it is lost, 1 where it can still come, 2 where that can't be told.
pub(crate) fn tell_lost<W: Write>(
    writer: &mut W,
    asked: &AskedQuestion<'_>,
    first: usize,
    moves: usize,
    outcome: &LostOutcome,
) -> io::Result<u8>
    ensures status { IfOk result (λ status. status ≡ status_of_lost outcome.now.lost) }
    ensures within { IfOk result (λ status. status ≤ 2) }
{
    let status = tell_place(writer, asked, first, moves, &outcome.lost)?;
    let effort = &outcome.effort;
    tell_counts(writer, effort.states, effort.moves, effort.deepest)?;
    Ok(status)
}
