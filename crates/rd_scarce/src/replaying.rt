//! An order that was found, replayed by the calls of a timeline.

ghost use Rattle.rd_app.specs.Application.{Application};
ghost use Rattle.rd_goal.specs.Goals.{IsGoalOf};

use crate::refused::{Refusals, TRIES, Tried};
use crate::wrong::Wrong;
use rd_app::app::Program;
use rd_goal::goal::Goal;
use rd_moves::moves::Move;
use rd_reach::choice::{Choice, choice_of};
use rd_refusal::refusal::Refusal;
use rd_timeline::timeline::Timeline;
use std::alloc::Global;

// How many moves may be done.
const LIMIT: usize = 100;

// Makes the move of a choice. An interrupt is none that comes here.
fn make_choice(timeline: &mut Timeline, number: u8) -> Result<usize, Refusal> {
    let cores = timeline.app().cores();
    match choice_of(cores, number) {
        Choice::Core(core) => {
            let core = core as usize;
            if core >= cores {
                return Err(Refusal::NoSuch);
            }
            timeline.go(&Move::Core { core })
        }
        Choice::Tick => timeline.go(&Move::Tick),
        Choice::Isr(_) => Err(Refusal::NoSuch),
    }
}

// Makes the move of a choice, again where it was refused.
fn follow(timeline: &mut Timeline, number: u8, refused: &mut Refusals) -> Result<(), Wrong> {
    for _ in 0..TRIES {
        match make_choice(timeline, number) {
            Ok(_) => return Ok(()),
            Err(Refusal::NoMemory) => refused.note(Tried::Ask),
            Err(_) => return Err(Wrong::Refusal { at: Tried::Ask }),
        }
    }
    Err(Wrong::RefusedTwice { at: Tried::Ask })
}

// Makes the moves of an order.
fn follow_all(timeline: &mut Timeline, order: &[u8], refused: &mut Refusals) -> Result<(), Wrong> {
    for number in order {
        follow(timeline, *number, refused)?;
    }
    Ok(())
}

/// Makes the moves of an order from boot, on a timeline of its own: so many are done, and the goal
/// holds behind them. `None` says that the timeline was refused.
pub fn replay(
    alloc: Global,
    program: Program,
    order: &[u8],
    goal: &Goal,
    refused: &mut Refusals,
) -> Result<Option<usize>, Wrong>
    requires { (app : Application) → IsGoalOf app goal.now }
{
    let Ok(timeline) = Timeline::new(alloc, program, LIMIT) else {
        refused.note(Tried::Open);
        return Ok(None);
    };
    let mut timeline = timeline;
    let followed = follow_all(&mut timeline, order, refused);
    timeline.by_invariant();
    let holds = goal.holds(timeline.app(), timeline.target());
    let at = timeline.at();
    timeline.close();
    match followed {
        Ok(()) if holds => Ok(Some(at)),
        Ok(()) => Err(Wrong::Order),
        Err(wrong) => Err(wrong),
    }
}
