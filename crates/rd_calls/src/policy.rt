//! The choice of a run.
ghost use Rattle.std.specs.Prelude.{◌≡◌, position, is_some};
ghost use Rattle.rd_calls.specs.Step.{policy_of};

use rd_moves::carried::Lent;
use rd_moves::moves::Move;
use rd_state::state::State;

// How far ahead the first busy core is, if one is.
fn busy_from(cores: &[Option<usize>]) -> Option<usize>
    ensures { result ≡ position is_some cores.now }
{
    cores.iter().position(|running| running.is_some())
}

/// The move that a run makes next: of the first busy core from
/// the turn on, or a tick where there is none.
pub fn policy(state: &State) -> Move<Lent<'static>>
    ensures { result ≡ policy_of state.now }
{
    let turn = state.turn();
    match busy_from(&state.cores()[turn..]) {
        Some(ahead) => Move::Core { core: turn + ahead },
        None => Move::Tick,
    }
}
