//! Reads an application from a file.

ghost use Rattle.std.specs.Prelude.{◌≡◌, ◌≢◌, ◌<◌, length, IsNone, IsSome, IfSome};
ghost use Rattle.std.specs.Prelude.{IfErr, IfOk, IsErr, IsErrAnd, IsOk};
ghost use Rattle.std.specs.IoError.{error_kind};
ghost use Rattle.rd_names.specs.Apps.{IsApp, builtin_app};
ghost use Rattle.rd_script.specs.Says.{FileSays};
ghost use Rattle.rd_start.specs.Requests.{IsFile, IsOfAFile, IsFaultOf, IsFaultOfKind};
ghost use Rattle.rd_start.specs.Requests.{IsOfARefusedFile, IsRefusalOf, IsSaidBy};
ghost use Rattle.rd_start.specs.declared.fault.Fault.TheVariants.{BadCommandLine, CannotRead};
ghost use Rattle.rd_start.specs.declared.fault.Fault.TheVariants.{NoMemory};

use crate::fault::Fault;
use rd_names::app::App;
use rd_script::file::read_app;
use std::alloc::{AllocGlobal, Global};
use std::io::Read;
use std::rt::Files;
use std::{fs, io};

/// How many bytes a file has at the most.
pub const MAX_FILE: usize = 1_048_576;

// The application that a file's bytes say.
fn app_of(alloc: Global, bytes: &[u8]) -> Result<App, Fault>
    ensures app { IfOk result (FileSays bytes.now) }
    ensures limits { IfOk result IsApp }
    ensures fault { IfErr result (IsRefusalOf bytes.now) }
{
    match read_app(alloc, bytes) {
        Ok(app) => Ok(app),
        Err(error) => Err(Fault::App { error }),
    }
}

/// The application that bytes say which were read, by how reading them ended: `CannotRead` where it
/// failed or where there are more than 1,048,576 bytes, `NoMemory` where it failed for want of
/// memory, `App` where the bytes are refused.
pub fn app_of_read(alloc: Global, read: io::Result<usize>, bytes: &[u8]) -> Result<App, Fault>
    ensures failed { IfErr read (λ error. IsErrAnd result (IsFaultOfKind (error_kind error))) }
    ensures long { IsOk read → 1048576 < length bytes.now → result ≡ Err CannotRead }
    ensures short { IfOk result (λ _. IsFile bytes.now) }
    ensures app { IfOk result (FileSays bytes.now) }
    ensures limits { IfOk result IsApp }
    ensures fault { IsOk read → IsFile bytes.now → IfErr result (IsRefusalOf bytes.now) }
{
    read?;
    if bytes.len() > MAX_FILE {
        return Err(Fault::CannotRead);
    }
    app_of(alloc, bytes)
}

/// The application that a reader's bytes say, up to the reader's end. `CannotRead` where there are
/// more than 1,048,576 bytes or a read fails, `App` where the bytes are refused, `NoMemory` where
/// there is no memory to read them.
pub fn read_application<R: Read + Drop>(alloc: Global, reader: R) -> Result<App, Fault>
    ensures app { IfOk result (IsSaidBy (R.remaining reader)) }
    ensures long { IfSome (R.remaining reader) (λ bytes. 1048576 < length bytes → IsErr result) }
    ensures fault { IfErr result (IsFaultOf (R.remaining reader)) }
{
    let mut bytes = Vec::new(alloc);
    // (one byte more shows that there are too many)
    let read = reader.take(MAX_FILE as u64 + 1).read_to_end(&mut bytes);
    app_of_read(alloc, read, bytes.as_slice())
}

/// The application of a file, by how opening it ended: `NoMemory` where that failed for want of
/// memory, `CannotRead` where it failed for another cause, and where it opened what
/// `read_application` answers.
pub fn app_of_opened<R: Read + Drop>(alloc: Global, opened: io::Result<R>) -> Result<App, Fault>
    ensures failed { IfErr opened (λ error. IsErrAnd result (IsFaultOfKind (error_kind error))) }
    ensures app { IfOk opened (λ reader. IfOk result (IsSaidBy (R.remaining reader))) }
    ensures long { IfOk opened (λ reader. IfSome (R.remaining reader) (λ bytes.
        1048576 < length bytes → IsErr result)) }
    ensures fault { IfOk opened (λ reader. IfErr result (IsFaultOf (R.remaining reader))) }
{
    read_application(alloc, opened?)
}

/// The application of the file at the path, or the built-in one where no file is named.
/// `CannotRead` where the file can't be opened or read or has more than 1,048,576 bytes, `App`
/// where it is refused, `NoMemory` where there is none.
pub fn load<H: Files + AllocGlobal>(handle: &H, path: Option<&str>) -> Result<App, Fault>
    // With no path, the built-in application, but for want of memory.
    ensures builtin { IsNone path.entry → IfOk result (λ app. app ≡ builtin_app) }
    ensures no_file { IsNone path.entry → IfErr result (λ fault. fault ≡ NoMemory) }
    // With a path, what a file says, or why it is refused.
    ensures app { IsSome path.entry → IfOk result IsOfAFile }
    ensures refused { IfErr result IsOfARefusedFile }
    ensures fault { IfErr result (λ fault. fault ≢ BadCommandLine) }
{
    let Some(path) = path else {
        return Ok(App::builtin(handle.alloc())?);
    };
    app_of_opened(handle.alloc(), fs::open(handle, path))
}
