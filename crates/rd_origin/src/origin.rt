//! The start of a search.

ghost use Rattle.std.specs.Prelude.{◌≡◌, ◌≢◌, Err, IfErr, IfOk};
ghost use Rattle.rd_app.specs.Application.{priorities_of};
ghost use Rattle.rd_state.specs.Settled.{IsSettled};
ghost use Rattle.rd_state.specs.Valid.{IsValid};
ghost use Rattle.rd_origin.specs.Playing.{IsOrigin, text_played};
ghost use Rattle.rd_origin.specs.declared.cause.NoOrigin.TheVariants.{NoMemory};

use crate::cause::NoOrigin;
use crate::run::Run;
use rd_names::app::App;
use rd_state::state::State;
use std::alloc::Global;

/// The state that the command lines of a text leave behind boot: that at the last place of their run
/// (`Run::of`, whose errors are these).
pub fn origin(alloc: Global, app: &App, text: &str) -> Result<State, NoOrigin>
    ensures origin { IfOk result (IsOrigin app.now text.now) }
    ensures valid { IfOk result (IsValid app.now.runs) }
    ensures settled { IfOk result (IsSettled (priorities_of app.now.runs)) }
    ensures stopped { IfErr result (λ cause. cause ≢ NoMemory
        → text_played app.now text.now ≡ Err cause) }
{
    let run = Run::of(alloc, app, text)?;
    let state = run.state().copy(alloc);
    run.close();
    Ok(state?)
}
