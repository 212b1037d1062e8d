//! What is shared, as lent to whoever has the lock.

ghost use Rattle.std.specs.Prelude.{◌≡◌, ◌+◌};
ghost use Rattle.rd_command.specs.Bindings.{known_of};
ghost use Rattle.rd_desk.specs.declared.sessions.TheConstants.{MAX_JOINS};

use crate::asserts::assert_same;
use crate::hall::next_pass;
use rd_command::binding::bind;
use rd_command::command::parse_line;
use rd_command::known::Known;
use rd_command::order::Order;
use rd_command::word::Behind;
use rd_desk::limits::Limits;
use rd_desk::sessions::MAX_JOINS;
use rd_hall::seat::{Gone, Pass, Seat};
use rd_hall::setup::Setup;
use rd_hall::shared::Shared;
use rd_names::app::App;
use rd_state::state::State;
use std::alloc::AllocGlobal;
use std::marker::Brand;
use std::process::Abort;
use std::sync::ledger::Blank;
use std::test::Fail;

// A session asks, and is served.
fn ask<L: Setup>(
    rt: &impl Abort,
    shared: &mut Shared<L>,
    known: &Known,
    seat: Seat<L>,
    line: &str,
) -> Seat<L>
    requires application { known.now ≡ known_of L.app }
{
    let mut behind = Behind::new();
    let Ok(command) = parse_line(line.as_bytes(), &mut behind) else {
        panic!(rt; "{line} is no command");
    };
    let bound = bind(&command, known);
    let order = Order::new(&command, known, &bound);
    let mut seat = seat;
    assert!(rt;
        seat.make_room(line.len()).is_ok(),
        "there is no memory for {line}"
    );
    let served = shared.ask(&mut seat, &order);
    assert!(rt; served.is_ok(), "{line} isn't served");
    seat
}

// A session comes, steps, goes back and leaves. The target is the one at boot all the while, but
// after its step.
fn step_and_go_back<L: Setup>(
    rt: &impl Abort,
    shared: &mut Shared<L>,
    known: &Known,
    passes: &mut Vec<Pass<L>>,
    boot: &State,
) -> Gone<L>
    requires application { known.now ≡ known_of L.app }
{
    assert!(rt; shared.target().same(boot));
    let Ok(seat) = shared.join(next_pass(rt, passes)) else {
        panic!(rt; "a session isn't let in");
    };
    assert!(rt; shared.target().same(boot));
    let seat = ask(rt, shared, known, seat, "step 0");
    assert!(rt; !shared.target().same(boot));
    let seat = ask(rt, shared, known, seat, "back 1");
    assert!(rt; shared.target().same(boot));
    let gone = shared.leave(seat);
    assert!(rt; shared.target().same(boot));
    gone
}

// How many entries there are at the end.
fn entries_of_one<L: Setup, H: Abort + AllocGlobal>(
    rt: &H,
    blank: Blank,
    app: App,
) -> Result<Option<usize>, Fail>
    requires name { blank.name ≡ L.name }
    requires parts { (blank.parts ≡ L.parts) × (blank.parts ≡ MAX_JOINS + 1) }
    requires app { app ≡ L.app }
    requires moves { L.most_moves ≡ 10 }
    requires entries { L.most_entries ≡ 10 }
{
    let boot = State::boot(rt.alloc(), app.program())?;
    let known = Known::of(rt.alloc(), &app)?;
    let mut gones = Vec::with_capacity(rt.alloc(), 1)?;
    let limits = Limits {
        moves: 10,
        history: 10,
    };
    let (mut shared, mut passes) = Shared::<L>::open(rt.alloc(), blank, app, limits)?;
    gones.push_reserved(step_and_go_back(rt, &mut shared, &known, &mut passes, &boot));
    match shared.finish(gones) {
        Ok(closed) => Ok(Some(closed.entries())),
        Err(_) => Ok(None),
    }
}

// The target lent is the state that the moves not undone give.
#[test]
fn target_that_is_lent(rt: HostRuntime) -> Result<(), Fail> {
    let app = App::builtin(rt.alloc())?;
    let blank = Blank::new(MAX_JOINS as u64 + 1);
    let found = entries_of_one::<Brand, HostRuntime>(&rt, blank, app)?;
    assert_same(&rt, found, Some(4));
    Ok(())
}
