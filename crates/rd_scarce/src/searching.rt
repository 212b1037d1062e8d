//! Runs that search through the orders of an application.

ghost use Rattle.std.specs.Prelude.{◌≡◌, []};
ghost use Rattle.rd_app.specs.Application.{Application, priorities_of};
ghost use Rattle.rd_goal.specs.Claims.{IsClaimOf};
ghost use Rattle.rd_goal.specs.Goals.{IsGoalOf};
ghost use Rattle.rd_state.specs.Settled.{IsSettled};
ghost use Rattle.rd_state.specs.Valid.{IsValid};

use crate::aim::{AimedGoal, make_goal};
use crate::applications::{Which, make};
use crate::moves::make_boot;
use crate::refused::{Refusals, TRIES, Tried};
use crate::replaying::replay;
use crate::wrong::Wrong;
use rd_app::app::Program;
use rd_goal::claim::Claim;
use rd_goal::goal::Goal;
use rd_key::sight::Sight;
use rd_reach::answer::{FullCause, SearchAnswer, SearchCounts, SearchOutcome, SearchRoom, Watch};
use rd_reach::orders::reach_orders;
use rd_reach::schedule::Schedule;
use rd_state::state::State;
use rd_timeline::logged::Logged;
use std::alloc::Global;

// What a search may keep, which is more than these need.
const ROOM: SearchRoom = SearchRoom {
    states: 1_000,
    bytes: 1_000_000,
};

/// What is looked for, and in which application.
#[derive(Clone, Copy)]
pub enum Sought {
    /// A call that has failed, in the built-in application, by orders of moves and ticks of at most
    /// 5 choices. None fails.
    Failure,
    /// The end of all scripts, in a count down from 3, by moves before ticks and orders of at most
    /// 20 choices. It comes behind 10.
    End,
}

impl Sought {
    fn application(self) -> Which {
        match self {
            Sought::Failure => Which::Builtin,
            Sought::End => Which::Countdown,
        }
    }

    fn claim(self) -> Claim
        ensures { (app : Application) → IsClaimOf app result }
    {
        match self {
            Sought::Failure => Claim::SomeFailed,
            Sought::End => Claim::Finished,
        }
    }

    // How many moves the task makes at the least from one tick to the next.
    fn at_least(self) -> u8 {
        match self {
            Sought::Failure => 0,
            Sought::End => u8::MAX,
        }
    }

    // How many choices the orders have at the most.
    fn most(self) -> u32 {
        match self {
            Sought::Failure => 5,
            Sought::End => 20,
        }
    }

    // How many choices no order has that leads there, at the most.
    fn without(self) -> u32 {
        match self {
            Sought::Failure => 5,
            Sought::End => 9,
        }
    }
}

// Looks on and says nothing.
#[derive(Drop)]
struct NoWatch;

impl Watch for NoWatch {
    fn sees(&mut self, _counts: &SearchCounts) {}
}

// What comes next: a move of a task that is on a core, or a tick.
fn make_schedule(alloc: Global, at_least: u8) -> Schedule
    ensures isrs { result.isrs ≡ [] }
{
    Schedule::new(at_least, None, Vec::new(alloc), None).unwrap()
}

// Searches from a target that is as at boot, and sees that it is handed back so. `None` says that
// the target was refused.
#[tactic(auto, using(crate::proofs::AimLaws::whole_suits))]
fn search_from(
    alloc: Global,
    program: &Program,
    boot: &State,
    start: State,
    goal: &Goal,
    sought: Sought,
    refused: &mut Refusals,
) -> Result<Option<SearchOutcome>, Wrong>
    requires goal { IsGoalOf program.now goal.now }
    requires valid { IsValid program.now start }
    requires settled { IsSettled (priorities_of program.now) start }
{
    let Ok(logged) = Logged::new(alloc, start) else {
        refused.note(Tried::Open);
        return Ok(None);
    };
    let schedule = make_schedule(alloc, sought.at_least());
    let aim = AimedGoal { goal };
    let most = Some(sought.most());
    let (logged, outcome) = reach_orders(
        alloc,
        logged,
        program,
        &schedule,
        &aim,
        Sight::Whole,
        most,
        &ROOM,
        &mut NoWatch,
    );
    let stands = logged.target().same(boot) && logged.kept() == 0;
    logged.retire();
    if !stands {
        return Err(Wrong::Target { at: Tried::Search });
    }
    Ok(Some(outcome))
}

// What has come of a search: it ended with so many places that are kept, or with an order of so many
// moves. `None` says that a growth was refused. What it says then is true, and so is each order.
fn come_of(
    alloc: Global,
    program: Program,
    goal: &Goal,
    sought: Sought,
    outcome: SearchOutcome,
    refused: &mut Refusals,
) -> Result<Option<usize>, Wrong>
    requires { (app : Application) → IsGoalOf app goal.now }
{
    let without = sought.without();
    let within = outcome.counts.within;
    match outcome.answer {
        SearchAnswer::Full(depth, FullCause::Memory) if depth <= without => {
            refused.note(Tried::Search);
            Ok(None)
        }
        SearchAnswer::NotWithin(most) if most == without => Ok(Some(outcome.counts.states)),
        SearchAnswer::Found(order) if within <= without => {
            let led = replay(alloc, program, order.as_slice(), goal, refused)?;
            // Whether one with fewer choices leads there, too, couldn't be told.
            if led.is_some() && within < without {
                refused.note(Tried::Search);
                return Ok(None);
            }
            Ok(led)
        }
        SearchAnswer::Full(_, _)
        | SearchAnswer::NotWithin(_)
        | SearchAnswer::Found(_)
        | SearchAnswer::Never => { Err(Wrong::Answer) }
    }
}

// Makes all that a search takes, and searches. `None` says that a growth was refused.
fn try_to_search(
    alloc: Global,
    sought: Sought,
    refused: &mut Refusals,
) -> Result<Option<usize>, Wrong> {
    let (program, _names) = make(alloc, sought.application(), refused)?.split();
    let boot = make_boot(alloc, &program, refused)?;
    let start = make_boot(alloc, &program, refused)?;
    let goal = make_goal(alloc, sought.claim(), refused)?;
    match search_from(alloc, &program, &boot, start, &goal, sought, refused)? {
        Some(outcome) => come_of(alloc, program, &goal, sought, outcome, refused),
        None => Ok(None),
    }
}

/// Searches: at the end so many places are kept, or the order that leads there has so many moves.
/// Where a growth is refused all is made and searched again.
pub fn search(alloc: Global, sought: Sought, refused: &mut Refusals) -> Result<usize, Wrong> {
    for _ in 0..TRIES {
        if let Some(end) = try_to_search(alloc, sought, refused)? {
            return Ok(end);
        }
    }
    Err(Wrong::RefusedTwice { at: Tried::Search })
}
