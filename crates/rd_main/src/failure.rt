//! The reasons for which the program ends with a status other than 0.

ghost use Rattle.std.specs.Prelude.{◌≡◌, ◌≢◌};
ghost use Rattle.rd_start.specs.declared.fault.Fault.TheVariants.{BadCommandLine, NoMemory};
ghost use Rattle.rd_main.specs.declared.failure.Failure.TheVariants.{Start};

use rd_bytes::no_memory;
use rd_start::fault::Fault;
use std::alloc::AllocError;
use thiserror::Error;

/// The reason for which the program ends with a status other than 0.
#[derive(Debug, Drop, Error)]
pub enum Failure {
    /// The program could not start.
    #[error("{fault}")]
    Start { fault: Fault },
    /// `serve` could not listen at its port.
    #[error("cannot listen")]
    CannotListen,
    /// The final audit failed: the history is not what the sessions were answered.
    #[error("history broken")]
    Broken,
}

impl From<Fault> for Failure {
    ghost from_gives = { λ fault failure. failure ≡ Start fault };

    fn from(fault: Fault) -> Failure {
        Failure::Start { fault }
    }
}

impl From<AllocError> for Failure {
    ghost from_gives = { λ _ failure. failure ≡ Start NoMemory };

    fn from(_error: AllocError) -> Failure {
        Failure::Start {
            fault: Fault::NoMemory,
        }
    }
}

impl From<no_memory::NoMemory> for Failure {
    ghost from_gives = { λ _ failure. failure ≡ Start NoMemory };

    fn from(_error: no_memory::NoMemory) -> Failure {
        Failure::Start {
            fault: Fault::NoMemory,
        }
    }
}

impl Failure {
    /// Returns the exit status: 2 for a bad command line, otherwise 1.
    pub fn status(&self) -> u8
        ensures bad_command_line { self.now ≡ Start BadCommandLine → result ≡ 2 }
        ensures others { self.now ≢ Start BadCommandLine → result ≡ 1 }
    {
        match self {
            Failure::Start { fault } => fault.status(),
            Failure::CannotListen | Failure::Broken => 1,
        }
    }
}
