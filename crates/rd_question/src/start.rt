//! Where a search begins.

ghost use Rattle.std.specs.Prelude.{◌≡◌, [], IfOk, None, string_bytes};
ghost use Rattle.rd_app.specs.Application.{priorities_of};
ghost use Rattle.rd_origin.specs.Playing.{IsOrigin};
ghost use Rattle.rd_origin.specs.RunView.{IsRunOf};
ghost use Rattle.rd_state.specs.Settled.{IsSettled};
ghost use Rattle.rd_state.specs.Valid.{IsValid};

use crate::fault::ReachFault;
use rd_names::app::App;
use rd_origin::cause::NoOrigin;
use rd_origin::origin::origin;
use rd_origin::run::Run;
use rd_state::state::State;
use std::alloc::{AllocGlobal, Global};
use std::io::{ErrorKind, Read};
use std::rt::Files;
use std::{fs, io};

// How many bytes the command lines have at the most.
const MAX_LINES: usize = 16_777_216;

// The refusal of a file that has no command lines.
fn no_lines(alloc: Global, path: &str) -> ReachFault {
    match String::from_str(alloc, path) {
        Ok(path) => ReachFault::Lines { path },
        Err(_) => ReachFault::NoMemory,
    }
}

// The refusal of command lines that lead to no start.
fn no_start(alloc: Global, path: &str, cause: NoOrigin) -> ReachFault {
    if cause == NoOrigin::NoMemory {
        return ReachFault::NoMemory;
    }
    match String::from_str(alloc, path) {
        Ok(path) => ReachFault::Start { path, cause },
        Err(_) => ReachFault::NoMemory,
    }
}

// The text of a file, by how opening it ended.
fn text_of_opened<R: Read + Drop>(
    alloc: Global,
    path: &str,
    opened: io::Result<R>,
) -> Result<String, ReachFault> {
    let Ok(reader) = opened else {
        return Err(no_lines(alloc, path));
    };
    let mut bytes = Vec::new(alloc);
    // (one byte more shows that there are too many)
    if let Err(error) = reader.take(MAX_LINES as u64 + 1).read_to_end(&mut bytes) {
        return Err(match error.kind() {
            ErrorKind::OutOfMemory => ReachFault::NoMemory,
            _ => no_lines(alloc, path),
        });
    }
    if bytes.len() > MAX_LINES {
        return Err(no_lines(alloc, path));
    }
    match String::from_utf8(bytes) {
        Ok(text) => Ok(text),
        Err(_) => Err(no_lines(alloc, path)),
    }
}

/// The command lines that a search begins behind: those of the file at the path, or none where it
/// begins at boot. `Lines` where the file can't be read, is no text or has more than 16,777,216
/// bytes, `NoMemory` where there is no memory to read it.
pub(crate) fn lines_of<H: Files + AllocGlobal>(
    handle: &H,
    path: Option<&str>,
) -> Result<String, ReachFault>
    ensures boot { path.entry ≡ None → IfOk result (λ lines. string_bytes lines ≡ []) }
{
    match path {
        Some(path) => text_of_opened(handle.alloc(), path, fs::open(handle, path)),
        None => Ok(String::new(handle.alloc())),
    }
}

/// The state behind these lines, which is that at boot where there are none. `Start` where a line
/// is no command or is refused: the first of them.
pub(crate) fn start_of(
    alloc: Global,
    app: &App,
    path: Option<&str>,
    lines: &str,
) -> Result<State, ReachFault>
    ensures origin { IfOk result (IsOrigin app.now lines.now) }
    ensures valid { IfOk result (IsValid app.now.runs) }
    ensures settled { IfOk result (IsSettled (priorities_of app.now.runs)) }
{
    match origin(alloc, app, lines) {
        Ok(state) => Ok(state),
        Err(cause) => Err(no_start(alloc, path.unwrap_or(""), cause)),
    }
}

/// The run of these lines, which has no moves where there are none. `Start` as for `start_of`. It
/// ends in `close`.
pub(crate) fn run_of(
    alloc: Global,
    app: &App,
    path: Option<&str>,
    lines: &str,
) -> Result<Run, ReachFault>
    ensures { IfOk result (IsRunOf app.now lines.now) }
{
    match Run::of(alloc, app, lines) {
        Ok(run) => Ok(run),
        Err(cause) => Err(no_start(alloc, path.unwrap_or(""), cause)),
    }
}
