//! Runs by the calls of a hall, from its opening to its end.

ghost use Rattle.std.specs.Prelude.{◌≡◌, ◌+◌, ◌≤◌, vec_capacity, vec_len, IfOk};
ghost use Rattle.rd_desk.specs.declared.sessions.TheConstants.{MAX_JOINS};

use crate::applications::{Which, make};
use crate::attending::attend;
use crate::before::HallHost;
use crate::refused::{Refusals, TRIES, Tried};
use crate::rows::{RUNS, WHEEL};
use crate::sitting::{ask_all, ask_in_turn, join};
use crate::wrong::Wrong;
use rd_desk::limits::Limits;
use rd_desk::sessions::MAX_JOINS;
use rd_hall::hall::Hall;
use rd_hall::seat::{Gone, Pass, Seat};
use rd_hall::setup::Setup;
use rd_names::app::App;
use std::alloc::Global;
use std::marker::Brand;
use std::sync::Wait;
use std::sync::ledger::Blank;

/// Who sits in a hall, and what for.
#[derive(Clone, Copy)]
pub enum Sitting {
    /// One, for `runs_to_a_condition`.
    Alone,
    /// Two, for `the_wheel`.
    Both,
    /// One that reads and answers lines, for `runs_to_a_condition`.
    Session,
}

impl Sitting {
    fn application(self) -> Which {
        match self {
            Sitting::Alone | Sitting::Session => Which::Twice,
            Sitting::Both => Which::Builtin,
        }
    }
}

// How many moves and entries a hall of these runs may have.
fn limits() -> Limits
    ensures moves { result.moves ≡ 100 }
    ensures history { result.history ≡ 100 }
{
    Limits {
        moves: 100,
        history: 100,
    }
}

// The next pass.
fn next_pass<L: Setup>(passes: &mut Vec<Pass<L>>) -> Result<Pass<L>, Wrong> {
    match passes.pop() {
        Some(pass) => Ok(pass),
        None => Err(Wrong::Refusal { at: Tried::Join }),
    }
}

// One session asks all of its run.
fn alone<R: Wait, L: Setup>(
    host: HallHost<'_, R, L>,
    passes: &mut Vec<Pass<L>>,
    gones: &mut Vec<Gone<L>>,
    refused: &mut Refusals,
) -> Result<(), Wrong>
    requires { vec_len gones.old + 1 ≤ vec_capacity gones.old }
{
    let pass = next_pass(passes)?;
    match join(host, pass, refused) {
        Ok(seat) => {
            let (seat, told) = ask_all(host, seat, &RUNS, refused);
            gones.push_reserved(host.hall.leave(host.rt, seat));
            told
        }
        Err(wrong) => Err(wrong),
    }
}

// A second session joins, and both ask.
fn with_second<R: Wait, L: Setup>(
    host: HallHost<'_, R, L>,
    first: Seat<L>,
    passes: &mut Vec<Pass<L>>,
    gones: &mut Vec<Gone<L>>,
    refused: &mut Refusals,
) -> (Seat<L>, Result<(), Wrong>)
    requires { vec_len gones.old + 2 ≤ vec_capacity gones.old }
    ensures { vec_len gones.new + 1 ≤ vec_capacity gones.new }
{
    let pass = match next_pass(passes) {
        Ok(pass) => pass,
        Err(wrong) => return (first, Err(wrong)),
    };
    match join(host, pass, refused) {
        Ok(second) => {
            let (first, second, told) = ask_in_turn(host, first, second, &WHEEL, refused);
            gones.push_reserved(host.hall.leave(host.rt, second));
            (first, told)
        }
        Err(wrong) => (first, Err(wrong)),
    }
}

// Two sessions ask in turn.
fn both<R: Wait, L: Setup>(
    host: HallHost<'_, R, L>,
    passes: &mut Vec<Pass<L>>,
    gones: &mut Vec<Gone<L>>,
    refused: &mut Refusals,
) -> Result<(), Wrong>
    requires { vec_len gones.old + 2 ≤ vec_capacity gones.old }
{
    let pass = next_pass(passes)?;
    match join(host, pass, refused) {
        Ok(first) => {
            let (first, told) = with_second(host, first, passes, gones, refused);
            gones.push_reserved(host.hall.leave(host.rt, first));
            told
        }
        Err(wrong) => Err(wrong),
    }
}

// What is done in a hall.
fn hold<R: Wait, L: Setup>(
    host: HallHost<'_, R, L>,
    sitting: Sitting,
    passes: &mut Vec<Pass<L>>,
    gones: &mut Vec<Gone<L>>,
    refused: &mut Refusals,
) -> Result<(), Wrong>
    requires { vec_len gones.old + 2 ≤ vec_capacity gones.old }
{
    match sitting {
        Sitting::Alone => alone(host, passes, gones, refused),
        Sitting::Both => both(host, passes, gones, refused),
        Sitting::Session => {
            let pass = next_pass(passes)?;
            attend(host, pass, gones, refused)
        }
    }
}

// Room for the sessions that have left.
fn room_for_two<L: Setup>(alloc: Global, refused: &mut Refusals) -> Result<Vec<Gone<L>>, Wrong>
    ensures { IfOk result (λ gones. vec_len gones + 2 ≤ vec_capacity gones) }
{
    for _ in 0..TRIES {
        match Vec::with_capacity(alloc, 2) {
            Ok(gones) => return Ok(gones),
            Err(_) => refused.note(Tried::Making),
        }
    }
    Err(Wrong::RefusedTwice { at: Tried::Making })
}

// Opens a hall, sits in it, and ends it: so many entries are in its history, or none where memory
// for the opening was refused.
fn sit_once<L: Setup, R: Wait>(
    rt: &R,
    alloc: Global,
    blank: Blank,
    app: App,
    sitting: Sitting,
    refused: &mut Refusals,
) -> Result<Option<usize>, Wrong>
    requires name { blank.name ≡ L.name }
    requires parts { (blank.parts ≡ L.parts) × (blank.parts ≡ MAX_JOINS + 1) }
    requires app { app ≡ L.app }
    requires moves { L.most_moves ≡ 100 }
    requires entries { L.most_entries ≡ 100 }
{
    let mut gones = room_for_two(alloc, refused)?;
    let Ok((hall, mut passes)) = Hall::<L>::open(alloc, blank, app, limits()) else {
        refused.note(Tried::Open);
        return Ok(None);
    };
    let host = HallHost {
        rt,
        alloc,
        hall: &hall,
    };
    let held = hold(host, sitting, &mut passes, &mut gones, refused);
    match (held, hall.finish(gones)) {
        (Ok(()), Ok(closed)) => Ok(Some(closed.entries())),
        (Ok(()), Err(_)) => Err(Wrong::Broken),
        (Err(wrong), _) => Err(wrong),
    }
}

/// Sits in a hall, which is opened for it: so many entries are in its history at the end. Where the
/// opening is refused it is tried again, with all that it takes made anew.
pub fn sit<R: Wait>(
    rt: &R,
    alloc: Global,
    sitting: Sitting,
    refused: &mut Refusals,
) -> Result<usize, Wrong> {
    for _ in 0..TRIES {
        let app = make(alloc, sitting.application(), refused)?;
        let blank = Blank::new(MAX_JOINS as u64 + 1);
        let sat = sit_once::<Brand, R>(rt, alloc, blank, app, sitting, refused)?;
        if let Some(entries) = sat {
            return Ok(entries);
        }
    }
    Err(Wrong::RefusedTwice { at: Tried::Open })
}
