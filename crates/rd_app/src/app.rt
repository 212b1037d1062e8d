//! What runs of an application: its cores, its objects, and its tasks with their scripts. All of it
//! goes by number; what it is called is elsewhere.

ghost use Rattle.std.specs.Prelude.{◌≡◌, ◌<◌, ◌≤◌, length, map};
ghost use Rattle.std.specs.Prelude.{All, IfOk};
ghost use Rattle.rd_app.specs.Application.{IsApplication, IsWithin, code_of, priorities_of};
ghost use Rattle.rd_app.specs.Builtin.{builtin, builtin_code};
ghost use Rattle.rd_app.specs.Inside.{application_of};
ghost use Rattle.rd_app.specs.Objects.{objects_view};
ghost use Rattle.rd_app.specs.Profiles.{max_cores};
ghost use Rattle.rd_app.specs.declared.profile.TheConstants.{MAX_CORES};

use crate::both::both;
use crate::instr::{Instr, LocalInstr, Operand, QueueCall};
use crate::objects::{ObjectShapes, QueueShape};
use crate::profile::Profile;
use rd_bytes::bytes::Bytes;
use rd_queue::end::End;
use std::alloc::{AllocError, Global};
use std::marker::Model;

/// How many tasks an application has at the most.
pub const MAX_TASKS: usize = 32;

/// The highest priority of a task (`configMAX_PRIORITIES` is one more).
pub const MAX_PRIORITY: u8 = 31;

/// How many instructions the script of a task has at the most.
pub const MAX_CODE: usize = 256;

/// A task to be made: its priority, 0 to 31, higher before lower, and its instructions.
pub struct Script {
    priority: u8,
    code: Vec<Instr>,
}

// (Written out, so that a drop of one is a call: no proof elsewhere has to look into its parts.)
impl Drop for Script {
    fn drop(self) {
        let Script {
            priority: _,
            code: _code,
        } = self;
    }
}

impl Model for Script {
    ghost use Rattle.rd_app.specs.TaskScript.{TaskScript};

    ghost Value = { TaskScript };

    ghost view = { λ s. record { priority = s.priority; code = s.code.items } };
}

/// What a program is made of.
#[derive(Drop)]
pub struct Parts {
    /// The profile.
    pub profile: Profile,
    /// How many cores there are, from 1 to the most of the profile.
    pub cores: usize,
    /// How many notification entries each task has, 1 to 4.
    pub entries: usize,
    /// The tick at boot.
    pub tick: u32,
    /// The objects.
    pub objects: ObjectShapes,
    /// The tasks' scripts, 1 to 32. They go by number: the index here.
    pub tasks: Vec<Script>,
}

/// What runs of an application within the limits. It never changes.
pub struct Program {
    parts: Parts,
    priorities: Vec<u8>,
}

// (Written out, so that a drop of one is a call: no proof elsewhere has to look into its parts.)
impl Drop for Program {
    fn drop(self) {
        let Program {
            parts: _parts,
            priorities: _priorities,
        } = self;
    }
}

impl Model for Program {
    ghost use Rattle.std.specs.Prelude.{◌≡◌};
    ghost use Rattle.rd_app.specs.Application.{Application, priorities_of, IsApplication};

    ghost Value = { Application };

    ghost use Rattle.rd_app.specs.Inside.{application_of};

    ghost view = { λ a. application_of a.parts };

    ghost invariant = { λ a.
        IsApplication (application_of a.parts)
        × (a.priorities.items ≡ priorities_of (application_of a.parts)) };
}

impl Script {
    /// A task of that priority, 0 to 31, with these instructions.
    pub fn new(priority: u8, code: Vec<Instr>) -> Script
        ensures { result ≡ record { priority = priority; code = code.items } }
    {
        Script { priority, code }
    }
}

// The tasks' priorities, by number.
fn priorities_of(alloc: Global, scripts: &[Script]) -> Result<Vec<u8>, AllocError>
    ensures { IfOk result
        (λ priorities. priorities.items ≡ map (λ script. script.priority) scripts.now) }
{
    let mut priorities = Vec::new(alloc);
    for script in scripts {
        let script: &Script = script;
        priorities.push(script.priority)?;
    }
    Ok(priorities)
}

// The instructions of the built-in application's task. (One by one: to drop an array of them costs
// a proof of its own.)
fn builtin_code(alloc: Global) -> Result<Vec<Instr>, AllocError>
    ensures { IfOk result (λ code. code.items ≡ builtin_code) }
{
    let data = LocalInstr::Data {
        bytes: Bytes::from_slice(b"\x41"),
    };
    let call = QueueCall::Send {
        end: End::Back,
        wait: Operand::Number { value: 0 },
    };
    let mut code = Vec::with_capacity(alloc, 5)?;
    code.push_reserved(Instr::Local { instr: data });
    code.push_reserved(Instr::Queue { queue: 0, call });
    code.push_reserved(Instr::Queue { queue: 0, call });
    code.push_reserved(Instr::Queue { queue: 0, call });
    code.push_reserved(Instr::Local {
        instr: LocalInstr::End,
    });
    Ok(code)
}

// The built-in application's task.
fn builtin_tasks(alloc: Global) -> Result<Vec<Script>, AllocError>
    ensures { IfOk result (λ tasks. tasks.items ≡ builtin.tasks) }
{
    let mut scripts = Vec::with_capacity(alloc, 1)?;
    scripts.push_reserved(Script::new(1, builtin_code(alloc)?));
    Ok(scripts)
}

impl Program {
    /// What these parts make, which are within the limits.
    pub fn new(alloc: Global, parts: Parts) -> Result<Program, AllocError>
        requires { IsApplication (application_of parts) }
        ensures { IfOk result (λ app. app ≡ application_of parts) }
    {
        let priorities = priorities_of(alloc, parts.tasks.as_slice());
        let (parts, priorities) = both(Ok(parts), priorities)?;
        Ok(Program { parts, priorities })
    }

    /// What runs of the built-in application: one task that sends three times to a queue for two
    /// items.
    pub fn builtin(alloc: Global) -> Result<Program, AllocError>
        ensures { IfOk result (λ app. app ≡ builtin) }
    {
        let queue = QueueShape {
            capacity: 2,
            item_size: 1,
        };
        let queues = vec![in alloc; queue]?;
        let tasks = builtin_tasks(alloc)?;
        let parts = Parts {
            profile: Profile::One,
            cores: 1,
            entries: 1,
            tick: 0,
            objects: ObjectShapes::of_queues(alloc, queues),
            tasks,
        };
        Program::new(alloc, parts)
    }

    /// For contracts alone: the limits that every program keeps.
    pub fn limits(&self)
        ensures { IsApplication self.now }
    {
        let _ = &self.priorities;
    }

    /// The profile.
    pub fn profile(&self) -> Profile
        ensures { result ≡ self.now.profile }
    {
        self.parts.profile
    }

    /// How many cores there are.
    pub fn cores(&self) -> usize
        ensures { result ≡ self.now.cores }
    {
        self.parts.cores
    }

    /// How many notification entries each task has.
    pub fn entries(&self) -> usize
        ensures { result ≡ self.now.entries }
    {
        self.parts.entries
    }

    /// The tick at boot.
    pub fn tick(&self) -> u32
        ensures { result ≡ self.now.tick }
    {
        self.parts.tick
    }

    /// The objects.
    pub fn objects(&self) -> &ObjectShapes
        ensures { objects_view result.now ≡ self.now.objects }
    {
        &self.parts.objects
    }

    /// The instructions of the task's script.
    pub fn code(&self, task: usize) -> &[Instr]
        requires { task < length self.now.tasks }
        ensures code { result.now ≡ code_of self.now task }
        ensures few { length result.now ≤ MAX_CODE }
        ensures within { All (IsWithin self.now (length result.now)) result.now }
    {
        let script = &self.parts.tasks[task];
        script.code.as_slice()
    }

    /// The tasks' priorities, by number.
    pub fn priorities(&self) -> &[u8]
        ensures { result.now ≡ priorities_of self.now }
    {
        self.priorities.as_slice()
    }
}

/// For contracts alone: the limits of applications, as numbers.
pub fn limits_of_applications()
    ensures cores { max_cores Profile.One ≡ 8 }
    ensures more_cores { max_cores Profile.Two ≡ 16 }
    ensures room_for_cores { MAX_CORES ≡ 16 }
    ensures tasks { MAX_TASKS ≡ 32 }
    ensures priority { MAX_PRIORITY ≡ 31 }
    ensures code { MAX_CODE ≡ 256 }
{}
