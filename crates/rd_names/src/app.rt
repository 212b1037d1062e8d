//! An application: what runs, and what it is called.

ghost use Rattle.std.specs.Prelude.{◌≡◌, ◌<◌, ◌≤◌, length, position, slice_get, All, Some};
ghost use Rattle.std.specs.Prelude.{IfOk, MatchOption};
ghost use Rattle.std.specs.Str.{bytes_eq};
ghost use Rattle.rd_app.specs.Application.{IsWithin, code_of, priorities_of};
ghost use Rattle.rd_app.specs.declared.app.TheConstants.{MAX_CODE};
ghost use Rattle.rd_names.specs.Apps.{AreAsMany, IsApp, builtin_app, builtin_names, counts_in};
ghost use Rattle.rd_names.specs.Names.{names_of};

use crate::names::{Counts, NameLists, Names};
use rd_app::app::Program;
use rd_app::both::both;
use rd_app::instr::Instr;
use rd_app::profile::Profile;
use rd_text::kind::Kind;
use std::alloc::{AllocError, Global};
use std::marker::Model;

/// An application within the limits: what runs, and a name for each thing of it. It never changes.
pub struct App {
    program: Program,
    names: Names,
}

// (Written out, so that a drop of one is a call: no proof elsewhere has to look into its parts.)
impl Drop for App {
    fn drop(self) {
        let App {
            program: _program,
            names: _names,
        } = self;
    }
}

impl Model for App {
    ghost use Rattle.rd_names.specs.Apps.{AppView, AreAsMany};

    ghost Value = { AppView };

    ghost view = { λ a. record { runs = a.program; names = a.names } };

    ghost invariant = { λ a. AreAsMany a.program a.names };
}

// How many things there are of each kind.
fn counts_in(program: &Program) -> Counts
    ensures { result ≡ counts_in program.now }
{
    let objects = program.objects();
    Counts {
        queues: objects.queues().len(),
        queue_sets: objects.queue_sets().len(),
        streams: objects.streams().len(),
        messages: objects.messages().len(),
        groups: objects.groups().len(),
        tasks: program.priorities().len(),
    }
}

// The names of the built-in application.
fn builtin_names(alloc: Global) -> Result<Names, AllocError>
    ensures { IfOk result (λ names. names ≡ builtin_names) }
{
    Names::new(
        alloc,
        NameLists {
            queues: &["q0"],
            queue_sets: &[],
            streams: &[],
            messages: &[],
            groups: &[],
            tasks: &["t0"],
        },
    )
}

impl App {
    /// The application of what runs and its names. `None` where there aren't as many names of each
    /// kind as things.
    pub fn new(program: Program, names: Names) -> Option<App>
        ensures { MatchOption result (¬ AreAsMany program names)
            (λ app. app ≡ record { runs = program; names = names }) }
    {
        if names.counts() == counts_in(&program) {
            Some(App { program, names })
        } else {
            None
        }
    }

    /// The built-in application: one task that sends three times to a queue for two items.
    pub fn builtin(alloc: Global) -> Result<App, AllocError>
        ensures { IfOk result (λ app. app ≡ builtin_app) }
    {
        let (program, names) = both(Program::builtin(alloc), builtin_names(alloc))?;
        Ok(App::new(program, names).unwrap())
    }

    /// For contracts alone: what every application keeps: what runs is within the limits, and each
    /// thing has a name of its own in its kind.
    pub fn limits(&self)
        ensures { IsApp self.now }
    {
        self.program.limits();
        self.names.by_invariant();
    }

    /// The profile.
    pub fn profile(&self) -> Profile
        ensures { result ≡ self.now.runs.profile }
    {
        self.program.profile()
    }

    /// What runs.
    pub fn program(&self) -> &Program
        ensures { result.now ≡ self.now.runs }
    {
        &self.program
    }

    /// What it is called.
    pub fn names(&self) -> &Names
        ensures { result.now ≡ self.now.names }
    {
        &self.names
    }

    /// What runs, and what it is called, each by itself.
    pub fn split(self) -> (Program, Names)
        ensures runs { result.0 ≡ self.runs }
        ensures names { result.1 ≡ self.names }
    {
        let App { program, names } = self;
        (program, names)
    }

    /// The number of the thing of that kind with that name, if there is one.
    pub fn find(&self, kind: Kind, name: &str) -> Option<usize>
        ensures { result ≡ position (bytes_eq name.now) (names_of kind self.now.names) }
    {
        self.names.find(kind, name)
    }

    /// The name of the thing of that kind with that number.
    pub fn name(&self, kind: Kind, number: usize) -> &str
        requires { number < length (names_of kind self.now.names) }
        ensures { slice_get (names_of kind self.now.names) number ≡ Some result.now }
    {
        self.names.name(kind, number)
    }

    /// The instructions of the task's script.
    pub fn code(&self, task: usize) -> &[Instr]
        requires { task < length self.now.runs.tasks }
        ensures code { result.now ≡ code_of self.now.runs task }
        ensures few { length result.now ≤ MAX_CODE }
        ensures within { All (IsWithin self.now.runs (length result.now)) result.now }
    {
        self.program.code(task)
    }

    /// The tasks' priorities, by number.
    pub fn priorities(&self) -> &[u8]
        ensures { result.now ≡ priorities_of self.now.runs }
    {
        self.program.priorities()
    }
}
