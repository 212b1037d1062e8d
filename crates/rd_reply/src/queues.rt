//! The views of queues and of queue sets.
#![tactic(auto, using(crate::proofs::PageLaws::appends_then))]

ghost use Rattle.std.specs.Prelude.{◌≡◌, ◌++◌, All, OnErr, OnOk};
ghost use Rattle.rd_reply.specs.Names.{name_at, IsNamed, QueueIsNamed, QueueSetIsNamed};
ghost use Rattle.rd_reply.specs.Replies.{line_of, list_text, bytes_text, contents_text};
ghost use Rattle.rd_reply.specs.Replies.{waiting_text, membership_text, queue_text, handles_text};
ghost use Rattle.rd_reply.specs.Replies.{selecting_text, queue_set_text};
ghost use Rattle.rd_reply.specs.Pages.{Appends, LacksRoom, PageFrontStays};

use crate::page::Page;
use crate::parts::{
    Appended, append_bytes, append_comma, append_counts, append_name, append_name_or_dash,
    append_task_names,
};
use rd_names::names::Names;
use rd_queue::queue::Queue;
use rd_queue::queue_set::QueueSet;
use rd_queue::waiting_list::WaitingList;
use rd_text::kind::Kind;

fn append_items(page: &mut Page<'_>, queue: &Queue)
    ensures { Appends page.old page.new (list_text bytes_text queue.now.items) }
{
    if queue.count() == 0 {
        return page.append("-");
    }
    for index in 0..queue.count() {
        append_comma(page, index);
        append_bytes(page, queue.item(index));
    }
}

// The names of the queues whose handles are in a set.
fn append_handle_names(page: &mut Page<'_>, names: &Names, queue_set: &QueueSet)
    requires { All (IsNamed names.now.queues) queue_set.now.handles }
    ensures { Appends page.old page.new
        (list_text (name_at names.now.queues) queue_set.now.handles) }
{
    if queue_set.count() == 0 {
        return page.append("-");
    }
    for index in 0..queue_set.count() {
        append_comma(page, index);
        append_name(page, names, Kind::Queue, queue_set.handle(index));
    }
}

/// Appends the view of a queue. An `Err` says that there is no memory for it, and comes only where
/// the page has no room for it; the page may then have some part of it after what it had.
pub fn show_queue(page: &mut Vec<u8>, names: &Names, name: &str, queue: &Queue) -> Appended
    requires { QueueIsNamed names.now queue.now }
    ensures text { OnOk result (page.new.items
        ≡ page.old.items ++ line_of (queue_text names.now name.now queue.now)) }
    ensures full { OnErr result
        (LacksRoom page.old (line_of (queue_text names.now name.now queue.now))) }
    ensures front { PageFrontStays page.old page.new }
{
    let mut line = Page::new(page);
    append_queue(&mut line, names, name, queue);
    line.end()
}

// The line of a queue.
fn append_queue(page: &mut Page<'_>, names: &Names, name: &str, queue: &Queue)
    requires { QueueIsNamed names.now queue.now }
    ensures { Appends page.old page.new
        (line_of (queue_text names.now name.now queue.now)) }
{
    page.append("queue ");
    page.append(name);
    page.append(" ");
    append_contents(page, queue);
    append_waiting(page, names, queue);
    append_membership(page, names, queue);
    page.append("\n");
}

// What is in a queue.
fn append_contents(page: &mut Page<'_>, queue: &Queue)
    ensures { Appends page.old page.new (contents_text queue.now) }
{
    append_counts(page, queue.count(), queue.capacity());
    page.append(" items ");
    append_items(page, queue);
}

// Who waits at a queue.
fn append_waiting(page: &mut Page<'_>, names: &Names, queue: &Queue)
    requires { QueueIsNamed names.now queue.now }
    ensures { Appends page.old page.new (waiting_text names.now queue.now) }
{
    page.append(" recv ");
    append_task_names(
        page,
        names,
        queue.waiting(WaitingList::Receiving).as_slice(),
    );
    page.append(" send ");
    append_task_names(page, names, queue.waiting(WaitingList::Sending).as_slice());
}

// The set that a queue is a member of.
fn append_membership(page: &mut Page<'_>, names: &Names, queue: &Queue)
    requires { QueueIsNamed names.now queue.now }
    ensures { Appends page.old page.new (membership_text names.now queue.now) }
{
    page.append(" set ");
    append_name_or_dash(page, names, Kind::QueueSet, queue.set_of());
}

/// Appends the view of a queue set. An `Err` says that there is no memory for it, and comes only
/// where the page has no room for it; the page may then have some part of it after what it had.
pub fn show_queue_set(
    page: &mut Vec<u8>,
    names: &Names,
    name: &str,
    queue_set: &QueueSet,
) -> Appended
    requires { QueueSetIsNamed names.now queue_set.now }
    ensures text { OnOk result (page.new.items
        ≡ page.old.items ++ line_of (queue_set_text names.now name.now queue_set.now)) }
    ensures full { OnErr result
        (LacksRoom page.old (line_of (queue_set_text names.now name.now queue_set.now))) }
    ensures front { PageFrontStays page.old page.new }
{
    let mut line = Page::new(page);
    append_queue_set(&mut line, names, name, queue_set);
    line.end()
}

// The line of a queue set.
fn append_queue_set(page: &mut Page<'_>, names: &Names, name: &str, queue_set: &QueueSet)
    requires { QueueSetIsNamed names.now queue_set.now }
    ensures { Appends page.old page.new
        (line_of (queue_set_text names.now name.now queue_set.now)) }
{
    page.append("set ");
    page.append(name);
    page.append(" ");
    append_handles(page, names, queue_set);
    append_selecting(page, names, queue_set);
    page.append("\n");
}

// What is in a set.
fn append_handles(page: &mut Page<'_>, names: &Names, queue_set: &QueueSet)
    requires { QueueSetIsNamed names.now queue_set.now }
    ensures { Appends page.old page.new (handles_text names.now queue_set.now) }
{
    append_counts(page, queue_set.count(), queue_set.capacity());
    page.append(" handles ");
    append_handle_names(page, names, queue_set);
}

// Who waits to select from a set.
fn append_selecting(page: &mut Page<'_>, names: &Names, queue_set: &QueueSet)
    requires { QueueSetIsNamed names.now queue_set.now }
    ensures { Appends page.old page.new (selecting_text names.now queue_set.now) }
{
    page.append(" wait ");
    append_task_names(page, names, queue_set.waiting().as_slice());
}
