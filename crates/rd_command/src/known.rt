//! What is known of an application when commands are bound.

ghost use Rattle.std.specs.Prelude.{◌≡◌, IfOk};
ghost use Rattle.rd_command.specs.Bindings.{known_of, made_known};

use rd_names::app::App;
use rd_names::names::Names;
use std::alloc::{AllocError, Global};
use std::marker::Model;

/// What is known of an application when commands are bound: its names, how many cores there are,
/// and how many notification entries each of its tasks has.
#[derive(Drop)]
pub struct Known {
    names: Names,
    cores: usize,
    entries: usize,
}

impl Model for Known {
    ghost use Rattle.rd_command.specs.Bindings.{KnownView, made_known};

    ghost Value = { KnownView };

    ghost view = { λ k. made_known k.names k.cores k.entries };
}

impl Known {
    /// Of an application with these names, and so many cores and notification entries.
    pub fn new(names: Names, cores: usize, entries: usize) -> Known
        ensures { result ≡ made_known names cores entries }
    {
        Known {
            names,
            cores,
            entries,
        }
    }

    /// Of this application, with a copy of its names. An `Err` says that there is no memory for
    /// them.
    pub fn of(alloc: Global, app: &App) -> Result<Known, AllocError>
        ensures { IfOk result (λ known. known ≡ known_of app.now) }
    {
        let names = app.names().copy(alloc)?;
        let program = app.program();
        Ok(Known::new(names, program.cores(), program.entries()))
    }

    /// What the application's things are called.
    pub(crate) fn names(&self) -> &Names
        ensures { result.now ≡ self.now.names }
    {
        &self.names
    }

    /// How many cores it has.
    pub(crate) fn cores(&self) -> usize
        ensures { result ≡ self.now.cores }
    {
        self.cores
    }

    /// How many notification entries each of its tasks has.
    pub(crate) fn entries(&self) -> usize
        ensures { result ≡ self.now.entries }
    {
        self.entries
    }
}
