//! What stands behind the lock before a call, and after it was refused.

use crate::refused::{Refusals, TRIES, Tried};
use crate::wrong::Wrong;
use rd_hall::hall::Hall;
use rd_hall::look::Look;
use rd_hall::setup::Setup;
use rd_state::state::State;
use std::alloc::Global;
use std::sync::Wait;

/// A hall that is there, and what its calls take.
#[derive_where(Clone, Copy)]
pub struct HallHost<'a, R: Wait, L: Setup> {
    pub rt: &'a R,
    pub alloc: Global,
    pub hall: &'a Hall<L>,
}

/// What stands behind the lock before a call: a copy of the target, and all else that is looked at.
#[derive(Drop)]
pub struct Before {
    target: State,
    look: Look,
}

impl Before {
    /// What stands there now. A copy that is refused is made again.
    pub fn of<R: Wait, L: Setup>(
        host: HallHost<'_, R, L>,
        refused: &mut Refusals,
    ) -> Result<Before, Wrong> {
        for _ in 0..TRIES {
            match host.hall.copy_target(host.rt, host.alloc) {
                Ok(target) => {
                    let look = host.hall.look(host.rt);
                    return Ok(Before { target, look });
                }
                Err(_) => refused.note(Tried::Copy),
            }
        }
        Err(Wrong::RefusedTwice { at: Tried::Copy })
    }

    /// All still stands there as it did before the call that was refused.
    pub fn stands<R: Wait, L: Setup>(
        &self,
        host: HallHost<'_, R, L>,
        at: Tried,
    ) -> Result<(), Wrong> {
        let after = host.hall.look(host.rt);
        if after != self.look {
            return Err(Wrong::Behind {
                at,
                before: self.look,
                after,
            });
        }
        if !host.hall.is_target(host.rt, &self.target) {
            return Err(Wrong::Target { at });
        }
        Ok(())
    }
}
