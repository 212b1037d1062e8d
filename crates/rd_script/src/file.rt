//! Reads an application from its file: finds every fault first, which takes no memory, then keeps
//! what the file says.

ghost use Rattle.std.specs.Prelude.{◌≡◌, ◌≤◌, ◌<◌, [], length, map};
ghost use Rattle.std.specs.Prelude.{Ok, IfOk, IsOk, IsOkAnd, IsUtf8};
ghost use Rattle.serde_json.specs.View.{view, items_view};
ghost use Rattle.rd_app.specs.Application.{IsApplication};
ghost use Rattle.rd_names.specs.Apps.{AppView, IsApp};
ghost use Rattle.rd_script.specs.Draft.{app_draft_view, task_draft_view, task_drafts_view};
ghost use Rattle.rd_script.specs.File.{GivesFaultFirst, GivesOrNoMemory, checked};
ghost use Rattle.rd_script.specs.File.{are_texts, task_of, tasks_after};
ghost use Rattle.rd_script.specs.File.{ends_script, instr_of_value, instrs_of, scripts_after};
ghost use Rattle.rd_script.specs.File.{draft_of, profile_in, program_of, scope_of_draft};
ghost use Rattle.rd_script.specs.File.{with_scripts};
ghost use Rattle.rd_script.specs.File.{app_of, app_of_text, app_of_bytes};
ghost use Rattle.rd_script.specs.Named.{apart, runs_of, together};
ghost use Rattle.rd_script.specs.Says.{FileSays};
ghost use Rattle.rd_script.specs.Draft.{scope_view};
ghost use Rattle.rd_script.specs.Values.{Gives, nothing_named};
ghost use Rattle.rd_text.specs.Words.{texts};

use crate::error::AppError;
use crate::objects::{FILE_KEYS, NamedArray, ObjectDrafts, keep_objects, read_objects};
use crate::scope::Scope;
use crate::spelling::read_instr;
use crate::values::{array, field, new_name, number, number_or, object_with};
use arrayvec::ArrayVec;
use rd_app::app::{MAX_CODE, MAX_PRIORITY, MAX_TASKS, Parts, Program, Script};
use rd_app::both::both;
use rd_app::instr::Instr;
use rd_app::profile::Profile;
use rd_names::app::App;
use rd_names::names::Names;
use rd_notify::entries::MAX_ENTRIES;
use serde_json::Value;
use std::alloc::{AllocError, Global};

// A task's priority and the texts of its instructions, which are not read yet.
#[derive(Clone, Copy, Default)]
struct TaskDraft<'a> {
    priority: u8,
    code: &'a [Value],
}

fn are_texts(values: &[Value]) -> bool
    ensures { result ≡ are_texts (items_view values.now) }
{
    for value in values {
        if !value.is_string() {
            return false;
        }
    }
    true
}

#[tactic(auto, unfolding(crate::specs::File::task_of))]
fn read_task<'a>(value: &'a Value, names: &[&str]) -> Result<(&'a str, TaskDraft<'a>), AppError>
    ensures { Gives (λ task. (task.0.now, task_draft_view task.1))
        result (task_of (texts names.now) (view value.now)) }
{
    object_with(value, &["name", "priority", "code"])?;
    let name = field(value, "name")?;
    let priority = field(value, "priority")?;
    let code = field(value, "code")?;
    let name = new_name(name, names)?;
    let priority = number(priority, 0, u64::from(MAX_PRIORITY))? as u8;
    let code = array(code, 1, MAX_CODE)?;
    if !are_texts(code) {
        return Err(AppError::Shape);
    }
    Ok((name, TaskDraft { priority, code }))
}

fn read_tasks(values: &[Value]) -> Result<NamedArray<'_, TaskDraft<'_>, MAX_TASKS>, AppError>
    requires { length values.now ≤ MAX_TASKS }
    ensures { Gives task_drafts_view
        result (tasks_after nothing_named (items_view values.now)) }
{
    let mut names = ArrayVec::new();
    let mut things = ArrayVec::new();
    for value in values {
        let (name, draft) = read_task(value, names.as_slice())?;
        names.push(name);
        things.push(draft);
    }
    Ok(NamedArray { names, things })
}

// What a file says of an application, its scripts not read yet.
#[derive(Drop)]
struct AppDraft<'a> {
    profile: Profile,
    cores: usize,
    entries: usize,
    tick: u32,
    objects: ObjectDrafts<'a>,
    tasks: NamedArray<'a, TaskDraft<'a>, MAX_TASKS>,
}

impl<'a> AppDraft<'a> {
    // What its scripts can name.
    fn scope(&self) -> Scope<'_>
        ensures { scope_view result ≡ scope_of_draft (app_draft_view self.now) }
    {
        Scope {
            objects: &self.objects,
            tasks: self.tasks.names.as_slice(),
            entries: self.entries,
        }
    }
}

// The profile of a number: that of 1 is profile 1, and that of 2 profile 2.
fn read_profile(value: &Value) -> Result<Profile, AppError>
    ensures { result ≡ profile_in (view value.now) }
{
    let profile = number(value, 1, 2)?;
    Ok(if profile == 1 {
        Profile::One
    } else {
        Profile::Two
    })
}

#[tactic(auto, unfolding(crate::specs::File::draft_of))]
fn read_draft(file: &Value) -> Result<AppDraft<'_>, AppError>
    ensures { Gives app_draft_view result (draft_of (view file.now)) }
{
    object_with(file, &FILE_KEYS)?;
    let profile = field(file, "profile")?;
    let cores = field(file, "cores")?;
    let tasks = field(file, "tasks")?;
    let profile = read_profile(profile)?;
    let cores = number(cores, 1, profile.max_cores() as u64)? as usize;
    let entries = number_or(file.get("notes"), 1, 1, MAX_ENTRIES as u64)? as usize;
    let tick = number_or(file.get("tick"), 0, 0, u64::from(u32::MAX))? as u32;
    let objects = read_objects(file)?;
    let tasks = read_tasks(array(tasks, 1, MAX_TASKS)?)?;
    Ok(AppDraft {
        profile,
        cores,
        entries,
        tick,
        objects,
        tasks,
    })
}

// The instruction of a value, in that scope, in a script of that length.
fn read_value(value: &Value, scope: Scope<'_>, len: usize) -> Result<Instr, AppError>
    ensures { result ≡ instr_of_value (scope_view scope.entry) len (view value.now) }
{
    let text = value.as_str().ok_or(AppError::Shape)?;
    read_instr(text.as_bytes(), scope, len)
}

// Whether the instruction of a value is one after which the script never goes on.
fn ends_script(value: &Value, scope: Scope<'_>, len: usize) -> Result<bool, AppError>
    ensures { result ≡ ends_script (scope_view scope.entry) len (view value.now) }
{
    let instr = read_value(value, scope, len)?;
    Ok(instr.is_final())
}

// Finds the first fault of a script, and keeps nothing of it.
fn check_code(values: &[Value], scope: Scope<'_>) -> Result<(), AppError>
    ensures { result ≡ checked (instrs_of (scope_view scope.entry) (items_view values.now)) }
{
    let mut ended = false;
    for value in values {
        ended = ends_script(value, scope, values.len())?;
    }
    if ended { Ok(()) } else { Err(AppError::Instr) }
}

// Finds the first fault of the scripts, and keeps nothing of them.
fn check_scripts(drafts: &[TaskDraft<'_>], scope: Scope<'_>) -> Result<(), AppError>
    ensures { result
        ≡ checked (scripts_after (scope_view scope.entry) [] (map task_draft_view drafts.now)) }
{
    for draft in drafts {
        check_code(draft.code, scope)?;
    }
    Ok(())
}

// The instructions of a script without a fault.
fn keep_code(alloc: Global, values: &[Value], scope: Scope<'_>) -> Result<Vec<Instr>, AllocError>
    requires { IsOk (instrs_of (scope_view scope) (items_view values.now)) }
    ensures { IfOk result
        (λ code. instrs_of (scope_view scope.entry) (items_view values.now) ≡ Ok code.items) }
{
    let mut code = Vec::new(alloc);
    for value in values {
        code.push(read_value(value, scope, values.len()).unwrap())?;
    }
    Ok(code)
}

// The scripts of drafts without a fault.
fn keep_scripts(
    alloc: Global,
    drafts: &[TaskDraft<'_>],
    scope: Scope<'_>,
) -> Result<Vec<Script>, AllocError>
    requires { IsOk (scripts_after (scope_view scope) [] (map task_draft_view drafts.now)) }
    ensures { IfOk result (λ scripts.
        scripts_after (scope_view scope.entry) [] (map task_draft_view drafts.now)
        ≡ Ok scripts.items) }
{
    let mut scripts = Vec::new(alloc);
    for draft in drafts {
        let code = keep_code(alloc, draft.code, scope)?;
        scripts.push(Script::new(draft.priority, code))?;
    }
    Ok(scripts)
}

// What runs of a draft without a fault.
fn keep_program(alloc: Global, draft: &AppDraft<'_>) -> Result<Program, AllocError>
    requires { IsOkAnd (with_scripts (app_draft_view draft.now))
        (λ app. IsApplication (runs_of app)) }
    ensures { IfOk result (λ program.
        program_of (app_draft_view draft.now) ≡ Ok program) }
{
    let tasks = draft.tasks.things.as_slice();
    let tasks = keep_scripts(alloc, tasks, draft.scope())?;
    let objects = keep_objects(alloc, &draft.objects)?;
    let parts = Parts {
        profile: draft.profile,
        cores: draft.cores,
        entries: draft.entries,
        tick: draft.tick,
        objects,
        tasks,
    };
    Program::new(alloc, parts)
}

// The application of a draft without a fault.
fn keep(alloc: Global, draft: &AppDraft<'_>) -> Result<App, AllocError>
    requires { IsOkAnd (with_scripts (app_draft_view draft.now)) (λ app. IsApp (apart app)) }
    ensures { IfOk result
        (λ app. with_scripts (app_draft_view draft.now) ≡ Ok (together app)) }
{
    let lists = draft.objects.lists(draft.tasks.names.as_slice());
    let names = Names::new(alloc, lists);
    let (program, names) = both(keep_program(alloc, draft), names)?;
    Ok(App::new(program, names).unwrap())
}

// Finds every fault before anything is kept.
fn read_file(alloc: Global, file: &Value) -> Result<App, AppError>
    ensures { GivesFaultFirst together result (app_of (view file.now)) }
{
    let draft = read_draft(file)?;
    check_scripts(draft.tasks.things.as_slice(), draft.scope())?;
    Ok(keep(alloc, &draft)?)
}

fn read_text(alloc: Global, text: &str) -> Result<App, AppError>
    ensures exact { GivesOrNoMemory together result (app_of_text text.now) }
    ensures memory { result ≡ Err AppError.Memory → 0 < length text.now }
{
    match Value::from_str(alloc, text) {
        Ok(file) => read_file(alloc, &file),
        Err(e) => Err(if e.is_memory() {
            AppError::Memory
        } else {
            AppError::NotJson
        }),
    }
}

// Bytes that aren't UTF-8 are refused before anything is kept.
fn read_bytes(alloc: Global, bytes: &[u8]) -> Result<App, AppError>
    ensures exact { GivesOrNoMemory together result (app_of_bytes bytes.now) }
    ensures memory { result ≡ Err AppError.Memory → 0 < length bytes.now }
    ensures memory_text { result ≡ Err AppError.Memory → IsUtf8 bytes.now }
{
    match str::from_utf8(bytes) {
        Ok(text) => read_text(alloc, text),
        Err(_) => Err(AppError::NotJson),
    }
}

/// The application of a file's bytes: a JSON object with the keys `profile`, `cores`, `notes`,
/// `tick`, `queues`, `sets`, `streams`, `messages`, `groups` and `tasks`.
pub fn read_app(alloc: Global, text: &[u8]) -> Result<App, AppError>
    // What is read is what the file says, within the limits.
    ensures accepted { IfOk result (FileSays text.now) }
    ensures limits { IfOk result IsApp }
    // What the file says is read, if it is within the limits.
    ensures only { (app : AppView) → FileSays text.now app → IsApp app
        → GivesOrNoMemory (λ app. app) result (Ok app) }
    // Which fault it is.
    ensures exact { GivesOrNoMemory together result (app_of_bytes text.now) }
    // Memory runs out only where there is text to read as JSON.
    ensures memory { result ≡ Err AppError.Memory → 0 < length text.now }
    ensures memory_text { result ≡ Err AppError.Memory → IsUtf8 text.now }
{
    read_bytes(alloc, text)
}
