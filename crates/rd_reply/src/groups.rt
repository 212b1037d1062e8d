//! The view of event groups.
#![tactic(auto, using(crate::proofs::PageLaws::appends_then))]

ghost use Rattle.std.specs.Prelude.{◌≡◌, ◌++◌, OnErr, OnOk};
ghost use Rattle.std.specs.List.{zip};
ghost use Rattle.rd_reply.specs.Names.{GroupIsNamed, IsNamed};
ghost use Rattle.rd_reply.specs.Pages.{Appends, PageFrontStays, LacksRoom};
ghost use Rattle.rd_reply.specs.Replies.{group_text, line_of, list_text};
ghost use Rattle.rd_reply.specs.Replies.{on_met_name, wait_for_name, waiter_text, wish_text};

use crate::page::Page;
use crate::parts::{Appended, append_comma, append_name, append_number};
use rd_group::group::Group;
use rd_group::wish::{OnMet, WaitFor, Wish};
use rd_names::names::Names;
use rd_text::kind::Kind;

// Whether a task waits for any of its bits or for all, as a word.
fn wait_for_name(wait_for: WaitFor) -> &'static str
    ensures { result.now ≡ wait_for_name wait_for }
{
    match wait_for {
        WaitFor::Any => "any",
        WaitFor::All => "all",
    }
}

// What becomes of the bits once they have come, as a word.
fn on_met_name(on_met: OnMet) -> &'static str
    ensures { result.now ≡ on_met_name on_met }
{
    match on_met {
        OnMet::Keep => "keep",
        OnMet::Clear => "clear",
    }
}

// What a task waits for.
fn append_wish(page: &mut Page<'_>, wish: Wish)
    ensures { Appends page.old page.new (wish_text wish) }
{
    append_number(page, wish.bits);
    page.append(":");
    page.append(wait_for_name(wish.wait_for));
    page.append(":");
    page.append(on_met_name(wish.on_met));
}

// A task that waits, with its wish.
fn append_waiter(page: &mut Page<'_>, names: &Names, task: usize, wish: Wish)
    requires { IsNamed names.now.tasks task }
    ensures { Appends page.old page.new (waiter_text names.now (task, wish)) }
{
    append_name(page, names, Kind::Task, task);
    page.append(":");
    append_wish(page, wish);
}

// Those who wait for bits of a group, each with its wish.
fn append_waiters(page: &mut Page<'_>, names: &Names, group: &Group)
    requires { GroupIsNamed names.now group.now }
    ensures { Appends page.old page.new
        (list_text (waiter_text names.now) (zip group.now.waiting group.now.wishes)) }
{
    let tasks = group.waiting().as_slice();
    if tasks.is_empty() {
        return page.append("-");
    }
    for (index, wish) in group.wishes().iter().enumerate() {
        append_comma(page, index);
        append_waiter(page, names, tasks[index], *wish);
    }
}

/// Appends the view of an event group. An `Err` says that there is no memory for it, and comes
/// only where the page has no room for it; the page may then have some part of it after what it
/// had.
pub fn show_group(page: &mut Vec<u8>, names: &Names, name: &str, group: &Group) -> Appended
    requires { GroupIsNamed names.now group.now }
    ensures text { OnOk result (page.new.items
        ≡ page.old.items ++ line_of (group_text names.now name.now group.now)) }
    ensures full { OnErr result
        (LacksRoom page.old (line_of (group_text names.now name.now group.now))) }
    ensures front { PageFrontStays page.old page.new }
{
    let mut line = Page::new(page);
    append_group(&mut line, names, name, group);
    line.end()
}

// The line of an event group.
fn append_group(page: &mut Page<'_>, names: &Names, name: &str, group: &Group)
    requires { GroupIsNamed names.now group.now }
    ensures { Appends page.old page.new (line_of (group_text names.now name.now group.now)) }
{
    page.append("group ");
    page.append(name);
    page.append(" bits ");
    append_number(page, group.bits());
    page.append(" wait ");
    append_waiters(page, names, group);
    page.append("\n");
}
