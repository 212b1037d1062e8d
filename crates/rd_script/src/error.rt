//! Why a file is no application.

ghost use Rattle.std.specs.Prelude.{◌≡◌};
ghost use Rattle.rd_script.specs.declared.error.AppError.TheVariants.{Memory};

use std::alloc::{AllocError, AllocFailed};
use thiserror::Error;

/// Why a file is no application: the first fault that is met from its first key to its last.
#[derive(Clone, Copy, Debug, PartialEq, Eq, Error)]
pub enum AppError {
    /// The bytes are no JSON value.
    #[error("L1 NotJson")]
    NotJson,
    /// A value is of the wrong kind, or an object has an unknown key or lacks one.
    #[error("L2 Shape")]
    Shape,
    /// A number or a length is out of its limits.
    #[error("L3 Limit")]
    Limit,
    /// A text is no name, stands twice in its kind, or names nothing; or a queue is a member twice.
    #[error("L4 Name")]
    Name,
    /// A text is no instruction, or the script could go on after its last one.
    #[error("L5 Instr")]
    Instr,
    /// A queue that is overwritten has room for more than one item.
    #[error("L6 OverwriteLength")]
    OverwriteLength,
    /// Memory ran out.
    #[error("L7 Memory")]
    Memory,
}

impl From<AllocError> for AppError {
    ghost from_gives = { λ _ e. e ≡ Memory };

    fn from(_e: AllocError) -> AppError {
        AppError::Memory
    }
}

impl<T: Drop> From<AllocFailed<T>> for AppError {
    ghost from_gives = { λ _ e. e ≡ Memory };

    fn from(_e: AllocFailed<T>) -> AppError {
        AppError::Memory
    }
}
