//! What a task relies on when it calls the kernel.
ghost use Rattle.std.specs.Prelude.{◌≡◌, ◌<◌, length, IfSome};
ghost use Rattle.rd_state.specs.Snapshot.{core_at};
ghost use Rattle.rd_state.specs.Valid.{IsValid};
ghost use Rattle.rd_kernel.specs.Outcomes.{IsCalling};

use rd_app::app::Program;
use rd_state::state::State;

/// The task on a core, if one is there. It can call the kernel: it can run, so each list of tasks
/// that wait has room for it, and the ready list has room for each task that waits.
pub fn caller_on(app: &Program, state: &State, core: usize) -> Option<usize>
    requires valid { IsValid app.now state.now }
    requires core { core < length state.now.cores }
    ensures task { result ≡ core_at state.now core }
    ensures calls { IfSome result (IsCalling app.now state.now) }
{
    let _ = app;
    state.core(core)
}
