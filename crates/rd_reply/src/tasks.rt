//! The views of tasks and of the cores, and what the places are called where tasks wait.
#![tactic(auto, using(crate::proofs::PageLaws::appends_then))]

ghost use Rattle.std.specs.Prelude.{◌≡◌, ◌++◌, position, All, OnErr, OnOk};
ghost use Rattle.rd_state.specs.Waiting.{IsList, IsPlace};
ghost use Rattle.rd_reply.specs.Names.{numbers_named, name_or_dash, IsNamedOrNone, PlaceIsNamed};
ghost use Rattle.rd_reply.specs.Names.{LineupIsNamed};
ghost use Rattle.rd_reply.specs.Replies.{line_of, list_text, cause_text, deadline_text, list_name};
ghost use Rattle.rd_reply.specs.Replies.{listed_text, place_text, phase_text, entry_text};
ghost use Rattle.rd_reply.specs.Replies.{running_core_text, state_text, task_text, is_task};
ghost use Rattle.rd_reply.specs.Replies.{ticks_text, cores_text};
ghost use Rattle.rd_reply.specs.Pages.{Appends, LacksRoom, PageFrontStays};

use crate::buffers::append_held;
use crate::page::Page;
use crate::parts::{
    Appended, append_bytes, append_comma, append_name, append_name_or_dash, append_number,
    append_number_list, append_task_names,
};
use rd_names::names::Names;
use rd_notify::entries::{Entry, EntryState};
use rd_queue::waiting_list::WaitingList;
use rd_state::phase::{Cause, Listed, Phase, Place};
use rd_state::state::State;
use rd_state::task::Task;
use rd_text::kind::Kind;

// The names of the tasks on the cores.
fn append_running_names(page: &mut Page<'_>, names: &Names, cores: &[Option<usize>])
    requires { All (IsNamedOrNone names.now.tasks) cores.now }
    ensures { Appends page.old page.new (list_text (name_or_dash names.now.tasks) cores.now) }
{
    if cores.is_empty() {
        return page.append("-");
    }
    for (index, running) in cores.iter().enumerate() {
        append_comma(page, index);
        append_name_or_dash(page, names, Kind::Task, *running);
    }
}

fn append_entry(page: &mut Page<'_>, entry: Entry)
    ensures { Appends page.old page.new (entry_text entry) }
{
    append_number(page, entry.value);
    match entry.state {
        EntryState::Idle => page.append(":idle"),
        EntryState::Waiting => page.append(":waiting"),
        EntryState::Received => page.append(":received"),
    }
}

fn append_entry_list(page: &mut Page<'_>, entries: &[Entry])
    ensures { Appends page.old page.new (list_text entry_text entries.now) }
{
    if entries.is_empty() {
        return page.append("-");
    }
    for (index, entry) in entries.iter().enumerate() {
        append_comma(page, index);
        append_entry(page, *entry);
    }
}

// A deadline's tick; `max` for none.
fn append_deadline(page: &mut Page<'_>, deadline: Option<u64>)
    ensures { Appends page.old page.new (deadline_text deadline) }
{
    match deadline {
        Some(tick) => append_number(page, tick),
        None => page.append("max"),
    }
}

// What the list of a queue where a task waits is called.
fn list_name(list: WaitingList) -> &'static str
    ensures { result.now ≡ list_name list }
{
    match list {
        WaitingList::Receiving => "recv",
        WaitingList::Sending => "send",
    }
}

// The list in which a task waits.
fn append_listed(page: &mut Page<'_>, names: &Names, list: Listed)
    requires { IsList (numbers_named names.now) list }
    ensures { Appends page.old page.new (listed_text names.now list) }
{
    match list {
        Listed::Queue { queue, list } => {
            page.append(list_name(list));
            page.append(":");
            append_name(page, names, Kind::Queue, queue);
        }
        Listed::QueueSet { queue_set } => {
            page.append("set:");
            append_name(page, names, Kind::QueueSet, queue_set);
        }
        Listed::Group { group } => {
            page.append("group:");
            append_name(page, names, Kind::Group, group);
        }
    }
}

// Where a task waits.
fn append_place(page: &mut Page<'_>, names: &Names, place: Place)
    requires { IsPlace (numbers_named names.now) place }
    ensures { Appends page.old page.new (place_text names.now place) }
{
    match place {
        Place::Listed { list } => append_listed(page, names, list),
        Place::Held { held } => append_held(page, names, held),
        Place::Entry { index } => {
            page.append("note:");
            append_number(page, index);
        }
    }
}

// Why a call failed.
fn append_cause(page: &mut Page<'_>, cause: Cause)
    ensures { Appends page.old page.new (cause_text cause) }
{
    match cause {
        Cause::SetFull => page.append("SetFull"),
        Cause::TwoReaders => page.append("TwoReaders"),
        Cause::TwoWriters => page.append("TwoWriters"),
        Cause::EmptyData => page.append("EmptyData"),
        Cause::BadBits => page.append("BadBits"),
    }
}

fn append_phase(page: &mut Page<'_>, names: &Names, phase: Phase)
    requires { PlaceIsNamed names.now phase }
    ensures { Appends page.old page.new (phase_text names.now phase) }
{
    match phase {
        Phase::Run => page.append("run"),
        Phase::Again { deadline } => {
            page.append("again:");
            append_deadline(page, deadline);
        }
        Phase::Given { bits } => {
            page.append("given:");
            append_number(page, bits);
        }
        Phase::Wait { place, deadline } => {
            page.append("wait:");
            append_place(page, names, place);
            page.append(":");
            append_deadline(page, deadline);
        }
        Phase::Ended => page.append("ended"),
        Phase::Failed { cause } => {
            page.append("failed:");
            append_cause(page, cause);
        }
    }
}

// The core that a task runs on; `-` for none.
fn append_running_core(page: &mut Page<'_>, core: Option<usize>)
    ensures { Appends page.old page.new (running_core_text core) }
{
    match core {
        Some(core) => append_number(page, core),
        None => page.append("-"),
    }
}

/// Appends the view of a task. An `Err` says that there is no memory for it, and comes only where
/// the page has no room for it; the page may then have some part of it after what it had.
pub fn show_task(
    page: &mut Vec<u8>,
    names: &Names,
    name: &str,
    core: Option<usize>,
    task: &Task,
) -> Appended
    requires { PlaceIsNamed names.now task.now.phase }
    ensures text { OnOk result (page.new.items
        ≡ page.old.items ++ line_of (task_text names.now name.now core task.now)) }
    ensures full { OnErr result
        (LacksRoom page.old (line_of (task_text names.now name.now core task.now))) }
    ensures front { PageFrontStays page.old page.new }
{
    let mut line = Page::new(page);
    append_task(&mut line, names, name, core, task);
    line.end()
}

// The line of a task.
fn append_task(page: &mut Page<'_>, names: &Names, name: &str, core: Option<usize>, task: &Task)
    requires { PlaceIsNamed names.now task.now.phase }
    ensures { Appends page.old page.new
        (line_of (task_text names.now name.now core task.now)) }
{
    page.append("task ");
    page.append(name);
    page.append(" core ");
    append_running_core(page, core);
    page.append(" pc ");
    append_number(page, task.pc());
    page.append(" phase ");
    append_phase(page, names, task.phase());
    append_state(page, task);
    page.append("\n");
}

// The rest of a task's view, from its registers on.
fn append_state(page: &mut Page<'_>, task: &Task)
    ensures { Appends page.old page.new (state_text task.now) }
{
    page.append(" regs ");
    append_number_list(page, task.registers());
    page.append(" data ");
    append_bytes(page, task.bytes());
    page.append(" notes ");
    append_entry_list(page, task.entries().as_slice());
}

/// Appends the view of the cores. An `Err` says that there is no memory for it, and comes only
/// where the page has no room for it; the page may then have some part of it after what it had.
pub fn show_cores(page: &mut Vec<u8>, names: &Names, state: &State) -> Appended
    requires { LineupIsNamed names.now state.now }
    ensures text { OnOk result (page.new.items
        ≡ page.old.items ++ line_of (cores_text names.now state.now)) }
    ensures full { OnErr result
        (LacksRoom page.old (line_of (cores_text names.now state.now))) }
    ensures front { PageFrontStays page.old page.new }
{
    let mut line = Page::new(page);
    append_cores(&mut line, names, state);
    line.end()
}

// The line of the cores.
fn append_cores(page: &mut Page<'_>, names: &Names, state: &State)
    requires { LineupIsNamed names.now state.now }
    ensures { Appends page.old page.new (line_of (cores_text names.now state.now)) }
{
    page.append("cores ");
    append_running_names(page, names, state.cores());
    page.append(" ready ");
    append_task_names(page, names, state.ready().as_slice());
    append_ticks(page, state);
    page.append("\n");
}

// The rest of the cores' view, from the tick on.
fn append_ticks(page: &mut Page<'_>, state: &State)
    ensures { Appends page.old page.new (ticks_text state.now) }
{
    page.append(" tick ");
    append_number(page, state.tick());
    page.append(" turn ");
    append_number(page, state.turn());
}

/// The core that the task runs on, if it runs.
pub fn core_of(cores: &[Option<usize>], task: usize) -> Option<usize>
    ensures { result ≡ position (is_task task) cores.now }
{
    cores.iter().position(|running| matches!(running, Some(running) if *running == task))
}
