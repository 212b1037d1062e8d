//! What the views share: numbers, bytes, commas and names.
#![tactic(auto, using(crate::proofs::PageLaws::appends_then))]

ghost use Rattle.std.specs.Prelude.{◌*◌, ◌≤◌, decimal, length, All};
ghost use Rattle.rd_names.specs.Names.{names_of};
ghost use Rattle.rd_reply.specs.Names.{name_at, name_or_dash, IsNamed, IsNamedOrNone};
ghost use Rattle.rd_reply.specs.Replies.{list_text, bytes_text, comma_at, counts_text};
ghost use Rattle.rd_reply.specs.Pages.{Appends};

use crate::page::Page;
use itoa::{Buffer, Integer};
use rd_bytes::bytes::MAX_BYTES;
use rd_names::names::Names;
use rd_text::kind::Kind;
use std::alloc::AllocError;

// Whether there was memory for what is appended to a page.
pub(crate) type Appended = Result<(), AllocError>;

// The functions below append to a page what their name says.
pub(crate) fn append_number<I: Integer>(page: &mut Page<'_>, number: I)
    ensures { Appends page.old page.new (I.text number) }
{
    page.append(Buffer::new().format(number));
}

// Two digits a byte; `-` for none.
pub(crate) fn append_bytes(page: &mut Page<'_>, bytes: &[u8])
    requires { length bytes.now ≤ MAX_BYTES }
    ensures { Appends page.old page.new (bytes_text bytes.now) }
{
    if bytes.is_empty() {
        return page.append("-");
    }
    let mut digits = [0; 2 * MAX_BYTES];
    let digits = &mut digits[..2 * bytes.len()];
    hex::encode_to_slice(bytes, digits).unwrap();
    page.append_raw(digits);
}

// A `,` before each member but the first, which has the index 0.
pub(crate) fn append_comma(page: &mut Page<'_>, index: usize)
    ensures { Appends page.old page.new (comma_at index) }
{
    if index > 0 {
        page.append(",");
    }
}

// The name of an object or a task.
pub(crate) fn append_name(page: &mut Page<'_>, names: &Names, kind: Kind, number: usize)
    requires { IsNamed (names_of kind names.now) number }
    ensures { Appends page.old page.new (name_at (names_of kind names.now) number) }
{
    page.append(names.name(kind, number));
}

pub(crate) fn append_number_list(page: &mut Page<'_>, numbers: &[u32])
    ensures { Appends page.old page.new (list_text decimal numbers.now) }
{
    if numbers.is_empty() {
        return page.append("-");
    }
    for (index, number) in numbers.iter().enumerate() {
        append_comma(page, index);
        append_number(page, *number);
    }
}

// The names of tasks.
pub(crate) fn append_task_names(page: &mut Page<'_>, names: &Names, tasks: &[usize])
    requires { All (IsNamed names.now.tasks) tasks.now }
    ensures { Appends page.old page.new (list_text (name_at names.now.tasks) tasks.now) }
{
    if tasks.is_empty() {
        return page.append("-");
    }
    for (index, task) in tasks.iter().enumerate() {
        append_comma(page, index);
        append_name(page, names, Kind::Task, *task);
    }
}

// The name of an object or a task; `-` for none.
pub(crate) fn append_name_or_dash(
    page: &mut Page<'_>,
    names: &Names,
    kind: Kind,
    number: Option<usize>,
)
    requires { IsNamedOrNone (names_of kind names.now) number }
    ensures { Appends page.old page.new (name_or_dash (names_of kind names.now) number) }
{
    match number {
        Some(number) => append_name(page, names, kind, number),
        None => page.append("-"),
    }
}

// How many there are, and how many there is room for.
pub(crate) fn append_counts(page: &mut Page<'_>, count: usize, capacity: usize)
    ensures { Appends page.old page.new (counts_text count capacity) }
{
    append_number(page, count);
    page.append("/");
    append_number(page, capacity);
}
