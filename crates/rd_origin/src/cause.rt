//! Why lines have no start.

ghost use Rattle.std.specs.Prelude.{◌≡◌};

use rd_bytes::no_memory::NoMemory;
use rd_refusal::refusal::Refusal;
use std::alloc::AllocError;
use thiserror::Error;

/// Why lines have no start. They are numbered from 1.
#[derive(Clone, Copy, Debug, PartialEq, Eq, Error)]
pub enum NoOrigin {
    /// The line with this number is no command, or has more than 1,024 bytes.
    #[error("line {line} is no command")]
    BadLine { line: usize },
    /// The command on the line with this number is refused.
    #[error("line {line}: {refusal}")]
    Refused { line: usize, refusal: Refusal },
    /// A growth was refused.
    #[error("there is no memory")]
    NoMemory,
}

impl From<NoMemory> for NoOrigin {
    ghost use Rattle.rd_origin.specs.declared.cause.NoOrigin.{NoOrigin};

    ghost from_gives = { λ _ cause. cause ≡ NoOrigin.NoMemory };

    fn from(_error: NoMemory) -> NoOrigin {
        NoOrigin::NoMemory
    }
}

impl From<AllocError> for NoOrigin {
    ghost use Rattle.rd_origin.specs.declared.cause.NoOrigin.{NoOrigin};

    ghost from_gives = { λ _ cause. cause ≡ NoOrigin.NoMemory };

    fn from(_error: AllocError) -> NoOrigin {
        NoOrigin::NoMemory
    }
}
