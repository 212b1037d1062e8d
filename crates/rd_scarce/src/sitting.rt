//! Seats: joining and asking, again where memory was refused.

ghost use Rattle.std.specs.Prelude.{◌≡◌};
ghost use Rattle.rd_command.specs.Bindings.{known_of};

use crate::before::{Before, HallHost};
use crate::refused::{Refusals, TRIES, Tried};
use crate::rows::{ReplyRow, Who};
use crate::told::is_told;
use crate::wrong::Wrong;
use rd_command::binding::bind;
use rd_command::command::parse_line;
use rd_command::order::Order;
use rd_command::word::Behind;
use rd_desk::desk::{EnterError, NotServed};
use rd_hall::seat::{Pass, Seat};
use rd_hall::setup::Setup;
use std::sync::Wait;

/// A session joins. Where memory is refused nothing has changed, and it joins again, with the pass
/// that was given back.
pub fn join<R: Wait, L: Setup>(
    host: HallHost<'_, R, L>,
    pass: Pass<L>,
    refused: &mut Refusals,
) -> Result<Seat<L>, Wrong> {
    let before = Before::of(host, refused)?;
    let mut pass = pass;
    for _ in 0..TRIES {
        match host.hall.join(host.rt, pass) {
            Ok(seat) => return Ok(seat),
            Err((back, error)) => {
                pass = back;
                match error {
                    EnterError::NoMemory => refused.note(Tried::Join),
                    EnterError::Full | EnterError::HistoryFull { .. } => {
                        return Err(Wrong::Refusal { at: Tried::Join });
                    }
                }
                before.stands(host, Tried::Join)?;
            }
        }
    }
    Err(Wrong::RefusedTwice { at: Tried::Join })
}

// The seat's last reply is this one.
fn judge<L: Setup>(seat: &Seat<L>, row: ReplyRow) -> Result<(), Wrong> {
    if is_told(&seat.last().entry.reply, row.reply) {
        Ok(())
    } else {
        Err(Wrong::Reply { line: row.line })
    }
}

// A command wasn't served: for want of memory, and nothing has changed.
fn note_refusal<R: Wait, L: Setup>(
    host: HallHost<'_, R, L>,
    before: &Before,
    error: &NotServed,
    refused: &mut Refusals,
) -> Result<(), Wrong> {
    match error {
        NotServed::NoMemory => refused.note(Tried::Ask),
        NotServed::HistoryFull { .. } | NotServed::Broken => {
            return Err(Wrong::Refusal { at: Tried::Ask });
        }
    }
    before.stands(host, Tried::Ask)
}

// Asks a command until it is served.
fn ask_command<R: Wait, L: Setup>(
    host: HallHost<'_, R, L>,
    seat: Seat<L>,
    order: &Order<'_, '_>,
    before: &Before,
    refused: &mut Refusals,
) -> (Seat<L>, Result<(), Wrong>)
    requires application { order.now.known ≡ known_of L.app }
{
    let mut seat = seat;
    for _ in 0..TRIES {
        let (next, served) = host.hall.ask(host.rt, seat, order);
        seat = next;
        let Err(error) = served else {
            return (seat, Ok(()));
        };
        let noted = note_refusal(host, before, &error, refused);
        if noted.is_err() {
            return (seat, noted);
        }
    }
    (seat, Err(Wrong::RefusedTwice { at: Tried::Ask }))
}

/// A session asks a row's line, and is answered its reply. Where memory is refused nothing has
/// changed, and it asks again.
pub fn ask<R: Wait, L: Setup>(
    host: HallHost<'_, R, L>,
    seat: Seat<L>,
    row: ReplyRow,
    refused: &mut Refusals,
) -> (Seat<L>, Result<(), Wrong>) {
    let mut behind = Behind::new();
    let Ok(command) = parse_line(row.line.as_bytes(), &mut behind) else {
        return (seat, Err(Wrong::Line { line: row.line }));
    };
    let known = host.hall.known();
    let bound = bind(&command, known);
    let order = Order::new(&command, known, &bound);
    let before = match Before::of(host, refused) {
        Ok(before) => before,
        Err(wrong) => return (seat, Err(wrong)),
    };
    let (seat, asked) = ask_command(host, seat, &order, &before, refused);
    if asked.is_err() {
        return (seat, asked);
    }
    let told = judge(&seat, row);
    (seat, told)
}

/// A session asks all this.
pub fn ask_all<R: Wait, L: Setup>(
    host: HallHost<'_, R, L>,
    seat: Seat<L>,
    rows: &[ReplyRow],
    refused: &mut Refusals,
) -> (Seat<L>, Result<(), Wrong>) {
    let mut seat = seat;
    for row in rows {
        let (next, told) = ask(host, seat, *row, refused);
        seat = next;
        if told.is_err() {
            return (seat, told);
        }
    }
    (seat, Ok(()))
}

/// Two sessions ask all this, in turn.
pub fn ask_in_turn<R: Wait, L: Setup>(
    host: HallHost<'_, R, L>,
    first: Seat<L>,
    second: Seat<L>,
    rows: &[ReplyRow],
    refused: &mut Refusals,
) -> (Seat<L>, Seat<L>, Result<(), Wrong>) {
    let mut first = first;
    let mut second = second;
    for row in rows {
        let told = match row.who {
            Who::First => {
                let (next, told) = ask(host, first, *row, refused);
                first = next;
                told
            }
            Who::Second => {
                let (next, told) = ask(host, second, *row, refused);
                second = next;
                told
            }
        };
        if told.is_err() {
            return (first, second, told);
        }
    }
    (first, second, Ok(()))
}
