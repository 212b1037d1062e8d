//! The applications of the runs.

use crate::refused::{Refusals, TRIES, Tried};
use crate::wrong::Wrong;
use rd_bytes::no_memory::NoMemory;
use rd_names::app::App;
use rd_script::error::AppError;
use rd_script::file::read_app;
use std::alloc::Global;

// An item comes and goes, twice.
const TWICE: &str = concat!(
    r#"{"profile":1,"cores":1,"queues":[{"name":"q0","length":2,"item":1}],"#,
    r#""tasks":[{"name":"t0","priority":1,"code":["data 41","send q0 0","recv q0 0","#,
    r#""data 42","send q0 0","recv q0 0","set r1 9","end"]}]}"#,
);

// Three tasks wait: for an item of a queue in no set, for a handle of a set with room for one, and
// for a notification. The last one goes on for ever.
const INTERRUPTED: &str = concat!(
    r#"{"profile":2,"cores":1,"queues":[{"name":"q0","length":1,"item":1},"#,
    r#"{"name":"q1","length":2,"item":1}],"#,
    r#""sets":[{"name":"s0","length":1,"members":["q1"]}],"#,
    r#""tasks":[{"name":"t0","priority":3,"code":["recv q0 max","jump 0"]},"#,
    r#"{"name":"t1","priority":2,"code":["select s0 max","recv q1 0","jump 0"]},"#,
    r#"{"name":"t2","priority":1,"code":["take 0 clear max","jump 0"]},"#,
    r#"{"name":"t3","priority":0,"code":["set r1 9","jump 0"]}]}"#,
);

// A task counts down from 3, and ends.
const COUNTDOWN: &str = concat!(
    r#"{"profile":1,"cores":1,"tasks":[{"name":"t0","priority":1,"code":["set r1 3","#,
    r#""add r1 4294967295","jumpz r1 4","jump 1","end"]}]}"#,
);

/// Which application a run has.
#[derive(Clone, Copy)]
pub enum Which {
    Builtin,
    Twice,
    Interrupted,
    Countdown,
}

// Reads it. `Err(None)` says that there is no memory for it.
fn try_to_read(alloc: Global, text: &str) -> Result<App, Option<Wrong>> {
    match read_app(alloc, text.as_bytes()) {
        Ok(app) => Ok(app),
        Err(AppError::Memory) => Err(None),
        Err(
            AppError::NotJson
            | AppError::Shape
            | AppError::Limit
            | AppError::Name
            | AppError::Instr
            | AppError::OverwriteLength,
        ) => Err(Some(Wrong::Application)),
    }
}

// Makes it. `Err(None)` says that there is no memory for it.
fn try_to_make(alloc: Global, which: Which) -> Result<App, Option<Wrong>> {
    match which {
        Which::Builtin => match App::builtin(alloc) {
            Ok(app) => Ok(app),
            Err(_) => Err(None),
        },
        Which::Twice => try_to_read(alloc, TWICE),
        Which::Interrupted => try_to_read(alloc, INTERRUPTED),
        Which::Countdown => try_to_read(alloc, COUNTDOWN),
    }
}

/// Makes it, again where memory was refused.
pub fn make(alloc: Global, which: Which, refused: &mut Refusals) -> Result<App, Wrong> {
    for _ in 0..TRIES {
        match try_to_make(alloc, which) {
            Ok(app) => return Ok(app),
            Err(None) => refused.note(Tried::Making),
            Err(Some(wrong)) => return Err(wrong),
        }
    }
    Err(Wrong::RefusedTwice { at: Tried::Making })
}
