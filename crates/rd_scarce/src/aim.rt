//! What is looked for by the runs that search.

ghost use Rattle.std.specs.Prelude.{IfOk};
ghost use Rattle.rd_app.specs.Application.{Application};
ghost use Rattle.rd_goal.specs.Claims.{IsClaimOf};
ghost use Rattle.rd_goal.specs.Goals.{IsGoalOf, holds_in};

use crate::refused::{Refusals, TRIES, Tried};
use crate::wrong::Wrong;
use rd_app::app::Program;
use rd_bytes::no_memory::NoMemory;
use rd_goal::claim::Claim;
use rd_goal::goal::{Goal, GoalRow};
use rd_reach::orders::Judge;
use rd_state::state::State;
use std::alloc::Global;

/// A state is looked for where the goal holds in it.
#[derive(Drop)]
pub struct AimedGoal<'a> {
    pub goal: &'a Goal,
}

impl<'a> Judge for AimedGoal<'a> {
    ghost holds = { λ aim s. holds_in aim.goal.now s };

    ghost judges = { λ aim app. IsGoalOf app aim.goal.now };

    fn holds(&self, app: &Program, state: &State) -> bool {
        self.goal.holds(app, state)
    }
}

// The goal that says this, and nothing else. An `Err` says that there is no memory for it.
fn try_to_make(alloc: Global, claim: Claim) -> Result<Goal, NoMemory>
    requires { (app : Application) → IsClaimOf app claim }
    ensures { IfOk result (λ goal. (app : Application) → IsGoalOf app goal) }
{
    let mut goal = Goal::new(alloc);
    goal.add(GoalRow::Says { claim })?;
    Ok(goal)
}

/// The goal that says this, and nothing else: it is one of each application.
pub fn make_goal(alloc: Global, claim: Claim, refused: &mut Refusals) -> Result<Goal, Wrong>
    requires { (app : Application) → IsClaimOf app claim }
    ensures { IfOk result (λ goal. (app : Application) → IsGoalOf app goal) }
{
    for _ in 0..TRIES {
        match try_to_make(alloc, claim) {
            Ok(goal) => return Ok(goal),
            Err(_) => refused.note(Tried::Making),
        }
    }
    Err(Wrong::RefusedTwice { at: Tried::Making })
}
