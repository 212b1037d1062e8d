//! Why the program ends with another status than 0.

ghost use Rattle.std.specs.Prelude.{◌≡◌, ◌≢◌};
ghost use Rattle.std.specs.IoError.{error_kind};
ghost use Rattle.rd_start.specs.Requests.{IsFaultOfKind};
ghost use Rattle.rd_start.specs.declared.fault.Fault.TheVariants.{BadCommandLine, NoMemory};

use rd_bytes::no_memory;
use rd_script::error::AppError;
use std::alloc::AllocError;
use std::io;
use std::io::ErrorKind;
use thiserror::Error;

/// Why the program ends with another status than 0.
#[derive(Debug, Drop, Error)]
pub enum Fault {
    /// The words are no command line.
    #[error("bad command line")]
    BadCommandLine,
    /// The application file can't be read, or has more than 1,048,576 bytes.
    #[error("cannot read the file")]
    CannotRead,
    /// The file is no application.
    #[error("application refused: {error}")]
    App { error: AppError },
    /// Memory ran out before the session began.
    #[error("no memory")]
    NoMemory,
}

impl From<AllocError> for Fault {
    ghost from_gives = { λ _ fault. fault ≡ NoMemory };

    fn from(_error: AllocError) -> Fault {
        Fault::NoMemory
    }
}

impl From<no_memory::NoMemory> for Fault {
    ghost from_gives = { λ _ fault. fault ≡ NoMemory };

    fn from(_error: no_memory::NoMemory) -> Fault {
        Fault::NoMemory
    }
}

// What was met where a file is opened or read.
impl From<io::Error> for Fault {
    ghost from_gives = { λ error fault. IsFaultOfKind (error_kind error) fault };

    fn from(error: io::Error) -> Fault {
        if error.kind() == ErrorKind::OutOfMemory {
            Fault::NoMemory
        } else {
            Fault::CannotRead
        }
    }
}

impl Fault {
    /// The exit status: 2 for a bad command line, 1 for all else.
    pub fn status(&self) -> u8
        ensures bad_command_line { self.now ≡ BadCommandLine → result ≡ 2 }
        ensures others { self.now ≢ BadCommandLine → result ≡ 1 }
    {
        match self {
            Fault::BadCommandLine => 2,
            Fault::CannotRead | Fault::App { .. } | Fault::NoMemory => 1,
        }
    }
}
