//! Why there is no answer.

ghost use Rattle.std.specs.Prelude.{◌≡◌};
ghost use Rattle.rd_question.specs.CommandLine.{IsFaultOfHandler};
ghost use Rattle.rd_question.specs.declared.fault.ReachFault.TheVariants as fault;

use crate::handler::NoHandler;
use crate::pace::NoPace;
use crate::part_word::NoPart;
use rd_bytes::no_memory;
use rd_origin::cause::NoOrigin;
use rd_start::fault::Fault as FileFault;
use std::alloc::{AllocError, AllocFailed};
use std::io;
use thiserror::Error;

/// Why there is no answer.
#[derive(Debug, Drop, Error)]
pub enum ReachFault {
    /// The words are no command line; the text says what is wrong.
    #[error("{text}")]
    Words {
        text: String,
    },
    /// Two questions are asked at once.
    #[error("--lost and --doomed are two questions: one is asked at a time")]
    Both,
    /// There is no goal, and no engine was asked for.
    #[error("no goal given (for the line protocol: reach FILE --engine)")]
    GoalMissing,
    /// An engine was asked for, and there is a goal.
    #[error("--engine takes no goal on the command line: it reads goals from standard input")]
    EngineWithGoal,
    /// The pace is none.
    #[error("--pace: {fault}")]
    Pace {
        fault: NoPace,
    },
    /// The part is none.
    #[error("--part: {fault}")]
    Part {
        fault: NoPart,
    },
    /// An interrupt is none that may come.
    #[error("--isr: {fault}")]
    Isr {
        fault: NoHandler,
    },
    /// A word of the command line is no text.
    #[error("a word of the command line is no text")]
    NoText,
    /// There is no application in the file.
    #[error("{path}: {fault}")]
    File {
        path: String,
        fault: FileFault,
    },
    /// There are no command lines in the file.
    #[error("{path}: cannot read command lines, a text of at most 16777216 bytes")]
    Lines {
        path: String,
    },
    /// The command lines of the file lead to no start.
    #[error("{path}: {cause}")]
    Start {
        path: String,
        cause: NoOrigin,
    },
    /// The command line that was added is none, or is refused.
    #[error("{cause}")]
    Command {
        cause: NoOrigin,
    },
    /// The words are no goal; the text says which word, and what is wanted there.
    #[error("goal: {text}")]
    Goal {
        text: String,
    },
    /// A line says nothing to the engine.
    #[error("a line begins with from, line, pace, surprises, moves, states, memory, exact, isr, reach, lost, \
         doomed, help or quit; help says what stands behind")]
    NoLine,
    /// A line has more than 1,000,000 bytes.
    #[error("a line has at most 1000000 bytes")]
    LongLine,
    /// A line is no text.
    #[error("a line is a text in UTF-8")]
    NoLineText,
    /// A number is none that may be asked for.
    #[error("{option} is a number, {least} to {most}")]
    Number {
        option: &'static str,
        least: usize,
        most: usize,
    },
    /// It says neither on nor off.
    #[error("exact is on or off")]
    Switch,
    /// Orders may be left out of what is said of all.
    #[error("what is lost or doomed is so for all orders: without --moves, --surprises and --part")]
    Bounded,
    /// The lines couldn't be read.
    #[error("cannot read the lines")]
    Unread,
    /// There is no memory to begin.
    #[error("no memory")]
    NoMemory,
    /// What was found couldn't be written.
    #[error("cannot write the answer")]
    Unwritten,
}

impl From<AllocError> for ReachFault {
    ghost from_gives = { λ _ cause. cause ≡ fault.NoMemory };

    fn from(_error: AllocError) -> ReachFault {
        ReachFault::NoMemory
    }
}

impl<T: Drop> From<AllocFailed<T>> for ReachFault {
    ghost from_gives = { λ _ cause. cause ≡ fault.NoMemory };

    fn from(_failed: AllocFailed<T>) -> ReachFault {
        ReachFault::NoMemory
    }
}

impl From<no_memory::NoMemory> for ReachFault {
    ghost from_gives = { λ _ cause. cause ≡ fault.NoMemory };

    fn from(_error: no_memory::NoMemory) -> ReachFault {
        ReachFault::NoMemory
    }
}

impl From<NoPace> for ReachFault {
    ghost from_gives = { λ why cause. cause ≡ fault.Pace why };

    fn from(fault: NoPace) -> ReachFault {
        ReachFault::Pace { fault }
    }
}

impl From<NoPart> for ReachFault {
    ghost from_gives = { λ why cause. cause ≡ fault.Part why };

    fn from(fault: NoPart) -> ReachFault {
        ReachFault::Part { fault }
    }
}

impl From<NoHandler> for ReachFault {
    ghost from_gives = { λ why cause. IsFaultOfHandler why cause };

    fn from(fault: NoHandler) -> ReachFault {
        match fault {
            NoHandler::NoMemory => ReachFault::NoMemory,
            fault => ReachFault::Isr { fault },
        }
    }
}

impl From<NoOrigin> for ReachFault {
    fn from(cause: NoOrigin) -> ReachFault {
        match cause {
            NoOrigin::NoMemory => ReachFault::NoMemory,
            NoOrigin::BadLine { .. } | NoOrigin::Refused { .. } => ReachFault::Command { cause },
        }
    }
}

// What was met where the answer is written.
impl From<io::Error> for ReachFault {
    ghost from_gives = { λ _ cause. cause ≡ fault.Unwritten };

    fn from(_error: io::Error) -> ReachFault {
        ReachFault::Unwritten
    }
}
