//! Sessions of a hall, by calls.

ghost use Rattle.std.specs.Prelude.{◌≡◌, ◌+◌, ◌≤◌, vec_capacity, vec_len};
ghost use Rattle.rd_desk.specs.declared.sessions.TheConstants.{MAX_JOINS};

use crate::asserts::assert_same;
use crate::desk::line_of;
use rd_command::binding::bind;
use rd_command::command::parse_line;
use rd_command::order::Order;
use rd_command::word::Behind;
use rd_desk::limits::Limits;
use rd_desk::sessions::MAX_JOINS;
use rd_hall::hall::Hall;
use rd_hall::seat::{Gone, Pass, Seat};
use rd_hall::setup::Setup;
use rd_names::app::App;
use std::alloc::AllocGlobal;
use std::marker::Brand;
use std::process::Abort;
use std::sync::Wait;
use std::sync::ledger::Blank;
use std::test::Fail;

// How many moves and entries a hall of these tests may have.
fn limits() -> Limits
    ensures moves { result.moves ≡ 100 }
    ensures history { result.history ≡ 10000 }
{
    Limits {
        moves: 100,
        history: 10_000,
    }
}

// The next pass.
pub(crate) fn next_pass<L: Setup>(rt: &impl Abort, passes: &mut Vec<Pass<L>>) -> Pass<L> {
    match passes.pop() {
        Some(pass) => pass,
        None => panic!(rt; "there is no pass left"),
    }
}

// The next session joins.
fn join<L: Setup>(rt: &(impl Wait + Abort), hall: &Hall<L>, passes: &mut Vec<Pass<L>>) -> Seat<L> {
    let pass = next_pass(rt, passes);
    match hall.join(rt, pass) {
        Ok(seat) => seat,
        Err(_) => panic!(rt; "a session isn't let in"),
    }
}

// A session asks, and is answered so.
fn ask<L: Setup, H: Wait + Abort + AllocGlobal>(
    rt: &H,
    hall: &Hall<L>,
    seat: Seat<L>,
    line: &str,
    reply: &str,
) -> Seat<L> {
    let mut behind = Behind::new();
    let Ok(command) = parse_line(line.as_bytes(), &mut behind) else {
        panic!(rt; "{line} is no command");
    };
    let bound = bind(&command, hall.known());
    let order = Order::new(&command, hall.known(), &bound);
    let (seat, served) = hall.ask(rt, seat, &order);
    assert!(rt; served.is_ok(), "{line} isn't served");
    let Ok(told) = line_of(rt, &seat.last().entry.reply) else {
        panic!(rt; "no memory");
    };
    assert_same(rt, told.as_slice(), reply.as_bytes());
    seat
}

// One session takes the wheel, another is held, and sees who has it; the first looks at what it
// did.
fn hold_the_wheel<L: Setup, H: Wait + Abort + AllocGlobal>(
    rt: &H,
    hall: &Hall<L>,
    passes: &mut Vec<Pass<L>>,
) -> (Gone<L>, Gone<L>) {
    let first = join(rt, hall, passes);
    let second = join(rt, hall, passes);
    let first = ask(rt, hall, first, "wheel take", "ok wheel\n");
    let second = ask(rt, hall, second, "step 0", "no Held 1\n");
    let second = ask(rt, hall, second, "show wheel", "wheel 1\n");
    let first = ask(rt, hall, first, "poke reg t0 0 7", "ok at 1\n");
    let first = ask(
        rt,
        hall,
        first,
        "show task t0",
        "task t0 core 0 pc 0 phase run regs 7,0,0,0,0,0,0,0 data - notes 0:idle\n",
    );
    (hall.leave(rt, first), hall.leave(rt, second))
}

// The end of a hall whose sessions are these: so many entries, or nothing where the history isn't
// theirs.
fn entries_at_end<L: Setup>(hall: Hall<L>, gones: Vec<Gone<L>>) -> Option<usize> {
    match hall.finish(gones) {
        Ok(closed) => Some(closed.entries()),
        Err(_) => None,
    }
}

// What the audit says where all sessions are handed in, or all but the second.
fn audit_of_two<L: Setup, H: Wait + Abort + AllocGlobal>(
    rt: &H,
    blank: Blank,
    app: App,
    with_both: bool,
) -> Result<Option<usize>, Fail>
    requires name { blank.name ≡ L.name }
    requires parts { (blank.parts ≡ L.parts) × (blank.parts ≡ MAX_JOINS + 1) }
    requires app { app ≡ L.app }
    requires moves { L.most_moves ≡ 100 }
    requires entries { L.most_entries ≡ 10000 }
{
    let mut gones = Vec::with_capacity(rt.alloc(), 2)?;
    let (hall, mut passes) = Hall::<L>::open(rt.alloc(), blank, app, limits())?;
    let (first, second) = hold_the_wheel(rt, &hall, &mut passes);
    gones.push_reserved(first);
    if with_both {
        gones.push_reserved(second);
    }
    Ok(entries_at_end(hall, gones))
}

// A hall's calls make the desk's: a reply tells what another session did, and there are just so
// many entries at the end. Where a session isn't handed in, the audit says no.
#[test]
fn the_wheel(rt: HostRuntime) -> Result<(), Fail> {
    for (with_both, entries) in [(true, Some(9)), (false, None)] {
        let app = App::builtin(rt.alloc())?;
        let blank = Blank::new(MAX_JOINS as u64 + 1);
        let found = audit_of_two::<Brand, HostRuntime>(&rt, blank, app, with_both)?;
        assert_same(&rt, found, entries);
    }
    Ok(())
}

// So many sessions join.
fn join_others<L: Setup, H: Wait + Abort + AllocGlobal>(
    rt: &H,
    hall: &Hall<L>,
    passes: &mut Vec<Pass<L>>,
    count: usize,
) -> Vec<Seat<L>>
    ensures { vec_len result ≡ count }
{
    let Ok(mut seats) = Vec::with_capacity(rt.alloc(), count) else {
        panic!(rt; "no memory");
    };
    for _turn in 0..count {
        seats.push_reserved(join(rt, hall, passes));
    }
    seats
}

// Two sessions ask who has the wheel, in turn, 500 times each.
fn look_in_turn<L: Setup, H: Wait + Abort + AllocGlobal>(
    rt: &H,
    hall: &Hall<L>,
    first: Seat<L>,
    second: Seat<L>,
) -> (Seat<L>, Seat<L>) {
    let mut first = first;
    let mut second = second;
    for _turn in 0..500 {
        first = ask(rt, hall, first, "show wheel", "wheel -\n");
        second = ask(rt, hall, second, "show wheel", "wheel -\n");
    }
    (first, second)
}

// All these sessions leave. There is room for what they keep.
fn leave_all<L: Setup>(
    rt: &impl Wait,
    hall: &Hall<L>,
    seats: Vec<Seat<L>>,
    gones: &mut Vec<Gone<L>>,
)
    requires { vec_len gones.old + vec_len seats ≤ vec_capacity gones.old }
{
    let mut left = seats;
    for _turn in 0..left.len() {
        let seat = left.pop().unwrap();
        gones.push_reserved(hall.leave(rt, seat));
    }
    left.destroy_empty();
}

// All 64 sessions join, the first two look in turn, and all leave: so many entries are there then.
fn entries_of_64<L: Setup, H: Wait + Abort + AllocGlobal>(
    rt: &H,
    blank: Blank,
    app: App,
) -> Result<Option<usize>, Fail>
    requires name { blank.name ≡ L.name }
    requires parts { (blank.parts ≡ L.parts) × (blank.parts ≡ MAX_JOINS + 1) }
    requires app { app ≡ L.app }
    requires moves { L.most_moves ≡ 100 }
    requires entries { L.most_entries ≡ 10000 }
{
    let mut gones = Vec::with_capacity(rt.alloc(), MAX_JOINS)?;
    let (hall, mut passes) = Hall::<L>::open(rt.alloc(), blank, app, limits())?;
    let first = join(rt, &hall, &mut passes);
    let second = join(rt, &hall, &mut passes);
    let others = join_others(rt, &hall, &mut passes, MAX_JOINS - 2);
    let (first, second) = look_in_turn(rt, &hall, first, second);
    gones.push_reserved(hall.leave(rt, first));
    gones.push_reserved(hall.leave(rt, second));
    leave_all(rt, &hall, others, &mut gones);
    Ok(entries_at_end(hall, gones))
}

// Each session has the entry of its join and that of its leave, and two have 500 more.
#[test]
fn sixty_four_seats(rt: HostRuntime) -> Result<(), Fail> {
    let app = App::builtin(rt.alloc())?;
    let blank = Blank::new(MAX_JOINS as u64 + 1);
    let found = entries_of_64::<Brand, HostRuntime>(&rt, blank, app)?;
    assert_same(&rt, found, Some(1_128));
    Ok(())
}
