//! The memory of a session.

ghost use Rattle.std.specs.Prelude.{◌≡◌, [], IfOk};

use crate::lines::Lines;
use crate::pending::Pending;
use std::alloc::{AllocError, Global};
use std::marker::Model;

/// What a session reads into, and gathers its answers in. A session takes no other memory.
#[derive(Drop)]
pub struct Buffers {
    pub(crate) lines: Lines,
    pub(crate) pending: Pending,
}

impl Model for Buffers {
    ghost use Rattle.rd_session.specs.BuffersView.{BuffersView};

    ghost Value = { BuffersView };

    ghost view = { λ b. record { held = b.lines; pending = b.pending.bytes } };
}

impl Buffers {
    /// Room for one session at a time. All its memory is taken here: an `Err` says that there is
    /// none.
    pub fn new(alloc: Global) -> Result<Buffers, AllocError>
        ensures { IfOk result (λ buffers. buffers ≡ record { held = []; pending = [] }) }
    {
        Ok(Buffers {
            lines: Lines::new(alloc)?,
            pending: Pending::new(alloc)?,
        })
    }
}
