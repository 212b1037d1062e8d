//! The view of a session's watches.
#![tactic(auto, using(crate::proofs::PageLaws::appends_then))]

ghost use Rattle.std.specs.Prelude.{◌≡◌, ◌++◌, OnErr, OnOk};
ghost use Rattle.rd_reply.specs.Replies.{line_of, list_text, watch_shown_text, watches_text};
ghost use Rattle.rd_reply.specs.Pages.{Appends, LacksRoom, PageFrontStays};

use crate::page::Page;
use crate::parts::{Appended, append_comma, append_number};

/// What is shown of a watch.
#[derive(Clone, Copy, Default)]
pub struct WatchShown {
    /// Its number.
    pub number: usize,
    /// Whether its condition holds.
    pub holds: bool,
}

// A watch, by its number, and whether its condition holds.
fn append_watch_shown(page: &mut Page<'_>, watch: WatchShown)
    ensures { Appends page.old page.new (watch_shown_text watch) }
{
    append_number(page, watch.number);
    page.append(if watch.holds { ":holds" } else { ":fails" });
}

fn append_watch_list(page: &mut Page<'_>, watches: &[WatchShown])
    ensures { Appends page.old page.new (list_text watch_shown_text watches.now) }
{
    if watches.is_empty() {
        return page.append("-");
    }
    for (index, watch) in watches.iter().enumerate() {
        append_comma(page, index);
        append_watch_shown(page, *watch);
    }
}

// The line of a session's watches.
fn append_watches(page: &mut Page<'_>, watches: &[WatchShown])
    ensures { Appends page.old page.new (line_of (watches_text watches.now)) }
{
    page.append("watches ");
    append_watch_list(page, watches);
    page.append("\n");
}

/// Appends the view of a session's watches. An `Err` says that there is no memory for it, and comes
/// only where the page has no room for it; the page may then have some part of it after what it
/// had.
pub fn show_watches(page: &mut Vec<u8>, watches: &[WatchShown]) -> Appended
    ensures text { OnOk result (page.new.items
        ≡ page.old.items ++ line_of (watches_text watches.now)) }
    ensures full { OnErr result (LacksRoom page.old (line_of (watches_text watches.now))) }
    ensures front { PageFrontStays page.old page.new }
{
    let mut line = Page::new(page);
    append_watches(&mut line, watches);
    line.end()
}
