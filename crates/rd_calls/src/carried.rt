//! Moves that carry their operands: when each is refused, and what it does.

ghost use Rattle.std.specs.Prelude.{◌≡◌, true, None, OnErr, OnOk};
ghost use Rattle.rd_app.specs.Application.{priorities_of};
ghost use Rattle.rd_state.specs.EditingView.{GivesUp, Reaches};
ghost use Rattle.rd_state.specs.Settled.{IsSettled};
ghost use Rattle.rd_state.specs.Valid.{IsValid};
ghost use Rattle.rd_moves.specs.Carried.{IsCarriedOf};
ghost use Rattle.rd_moves.specs.Interrupts.{IsInterruptOf};
ghost use Rattle.rd_interrupts.specs.Interrupts.{IsInterruptAt};
ghost use Rattle.rd_calls.specs.Carried.{carried_answer, carried_cost, carried_out, why_refused};

use rd_app::app::Program;
use rd_bytes::no_memory::NoMemory;
use rd_edits::edit::{is_good, make};
use rd_interrupts::interrupt::{interrupt as make_interrupt, isr_answer};
use rd_moves::carried::Carried;
use rd_moves::interrupt::Interrupt;
use rd_refusal::refusal::Refusal;
use rd_state::editing::Editing;
use rd_state::state::State;

/// Why the rules refuse it, if they do: `BadEdit` where an edit can't be made, `NoIsr` where it is
/// an interrupt and the application has profile 1.
pub fn why_refused(carried: &Carried, app: &Program, state: &State) -> Option<Refusal>
    requires valid { IsValid app.now state.now }
    requires named { IsCarriedOf app.now carried.now }
    ensures { result ≡ why_refused app.now state.now carried.now }
{
    match carried {
        Carried::Edit { edit } if !is_good(edit, app, state) => Some(Refusal::BadEdit),
        Carried::Interrupt { .. } if !app.profile().has_interrupts() => Some(Refusal::NoIsr),
        Carried::Edit { .. } | Carried::Interrupt { .. } => None,
    }
}

/// Does it, where the rules don't refuse it, and records what undoes it. `NoMemory` where there is
/// none for the record; then the move goes no further.
pub fn carry_out(carried: &Carried, app: &Program, editing: &mut Editing) -> Result<(), NoMemory>
    requires valid { IsValid app.now editing.old.now }
    requires named { IsCarriedOf app.now carried.now }
    requires good { why_refused app.now editing.old.now carried.now ≡ None }
    requires calm { editing.old.outset.calm ≡ true
        → IsSettled (priorities_of app.now) editing.old.outset.state }
    ensures ok { OnOk result (Reaches editing.old editing.new
        (carried_out app.now editing.old.now carried.now)
        (carried_cost app.now editing.old.now carried.now)) }
    ensures err { OnErr result (GivesUp editing.old editing.new
        (carried_cost app.now editing.old.now carried.now)) }
{
    match carried {
        Carried::Edit { edit } => make(edit, app, editing),
        Carried::Interrupt { interrupt } => make_interrupt(app, editing, interrupt),
    }
}

// What an interrupt names of the application is there in its state.
fn is_there(interrupt: &Interrupt, app: &Program, state: &State)
    requires valid { IsValid app.now state.now }
    requires named { IsInterruptOf app.now interrupt.now }
    ensures { IsInterruptAt state.now interrupt.now }
{
    let _ = app;
    let _ = state;
}

/// What it will answer, if it is made now and answers something: an interrupt answers 1 or 0. It
/// takes no memory.
pub fn carried_answer(carried: &Carried, app: &Program, state: &State) -> Option<u32>
    requires valid { IsValid app.now state.now }
    requires named { IsCarriedOf app.now carried.now }
    ensures { result ≡ carried_answer state.now carried.now }
{
    match carried {
        Carried::Edit { .. } => None,
        Carried::Interrupt { interrupt } => {
            is_there(interrupt, app, state);
            Some(isr_answer(state, interrupt))
        }
    }
}
