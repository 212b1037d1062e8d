//! What becomes of a caller.

use rd_state::phase::{Cause, Place};

/// What becomes of a task that calls the kernel.
#[derive(Clone, Copy)]
pub enum Outcome {
    /// The call returns this value.
    Returns(u32),
    /// The call returns the first value, and gives its task the second one in r1.
    ReturnsBoth { value: u32, second: u32 },
    /// The task waits at a place while the deadline, a tick, is
    /// ahead; without end where there is none.
    Waits { place: Place, deadline: Option<u64> },
    /// The call has failed, and so has the task.
    Fails(Cause),
}
