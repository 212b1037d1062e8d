//! The lines of views.

ghost use Rattle.std.specs.Prelude.{◌≡◌, ◌++◌, ◌<◌, [], length, IfOk, IfSome, IsSome, OnErr, OnOk};
ghost use Rattle.rd_names.specs.Names.{names_of};
ghost use Rattle.rd_reply.specs.Pages.{LacksRoom};
ghost use Rattle.rd_reply.specs.Replies.{line_of, watches_text};
ghost use Rattle.rd_desk.specs.Sessions.{AreWatchesOf};
ghost use Rattle.rd_condition.specs.Conditions.{IsConditionOf};
ghost use Rattle.rd_command.specs.Bindings.{IsViewOf};
ghost use Rattle.rd_desk.specs.Views.{AreNamesOf, shown_at, text_shown, view_text};
ghost use Rattle.rd_desk.specs.Views.{watches_shown};

use crate::text::Text;
use crate::watches::Watches;
use rd_bytes::no_memory::NoMemory;
use rd_command::binding::MAX_WATCHES;
use rd_command::view::View;
use rd_condition::condition::Condition;
use rd_names::names::Names;
use rd_reply::buffers::{show_message, show_stream};
use rd_reply::groups::show_group;
use rd_reply::queues::{show_queue, show_queue_set};
use rd_reply::tasks::{core_of, show_cores, show_task};
use rd_reply::watches::{WatchShown, show_watches};
use rd_state::state::State;
use rd_text::kind::Kind;
use rd_timeline::timeline::Timeline;
use smallvec::SmallVec;
use std::alloc::{AllocError, Global};

// For how many bytes of a view room is made first.
const ROOM: usize = 128;

// Appends what is shown of the thing of that kind and number. There is no memory for it only where
// the line, as it was, had no room.
fn append_thing(
    state: &State,
    names: &Names,
    line: &mut Vec<u8>,
    kind: Kind,
    number: usize,
) -> Result<(), AllocError>
    requires paired { AreNamesOf state.now names.now }
    requires named { number < length (names_of kind names.now) }
    ensures text { OnOk result (line.new.items
        ≡ line.old.items ++ line_of (view_text names.now state.now kind number)) }
    ensures full { OnErr result
        (LacksRoom line.old (line_of (view_text names.now state.now kind number))) }
{
    let name = names.name(kind, number);
    state.sizes();
    match kind {
        Kind::Queue => show_queue(line, names, name, state.queue(number)),
        Kind::QueueSet => show_queue_set(line, names, name, state.queue_set(number)),
        Kind::Stream => show_stream(line, names, name, state.stream(number)),
        Kind::Message => show_message(line, names, name, state.message(number)),
        Kind::Group => show_group(line, names, name, state.group(number)),
        Kind::Task => {
            let core = core_of(state.cores(), number);
            show_task(line, names, name, core, state.task(number))
        }
    }
}

// Appends a view of the target. There is no memory for it only where the line, as it was, had no
// room.
fn append_view(
    state: &State,
    names: &Names,
    line: &mut Vec<u8>,
    view: View,
) -> Result<(), AllocError>
    requires paired { AreNamesOf state.now names.now }
    requires there { IsSome (text_shown names.now state.now view) }
    requires named { IsViewOf names.now view }
    ensures text { OnOk result (IfSome (text_shown names.now state.now view) (λ text.
        line.new.items ≡ line.old.items ++ line_of text)) }
    ensures full { OnErr result (IfSome (text_shown names.now state.now view) (λ text.
        LacksRoom line.old (line_of text))) }
{
    match view {
        View::Thing { kind, number } => append_thing(state, names, line, kind, number),
        View::Cores => {
            state.sizes();
            show_cores(line, names, state)
        }
        View::Overview { .. } => unreachable!(),
    }
}

/// The line of a view of the target, its LF included: of a thing by the number of one that there
/// is, or of the cores. The names are those of the state's objects and tasks. An `Err` says that
/// there is no memory for it: for 128 bytes, or for a longer line.
pub fn show(alloc: Global, state: &State, names: &Names, view: View) -> Result<Vec<u8>, NoMemory>
    requires paired { AreNamesOf state.now names.now }
    requires there { IsSome (text_shown names.now state.now view) }
    requires named { IsViewOf names.now view }
    ensures { IfOk result (λ line. IfSome (text_shown names.now state.now view) (λ text.
        line.items ≡ line_of text)) }
{
    let mut line = Vec::with_capacity(alloc, ROOM)?;
    append_view(state, names, &mut line, view)?;
    Ok(line)
}

// Appends a watch with that number, if there is one, with whether its condition holds.
fn append_shown(
    timeline: &Timeline,
    shown: &mut SmallVec<WatchShown, MAX_WATCHES>,
    number: usize,
    watch: Option<Condition>,
) -> Result<(), NoMemory>
    requires { IfSome watch (IsConditionOf timeline.now.app) }
    ensures { OnOk result (shown.new.items
        ≡ shown.old.items ++ shown_at timeline.now.target number watch) }
{
    timeline.by_invariant();
    if let Some(condition) = watch {
        let holds = condition.holds(timeline.target());
        shown.push(WatchShown { number, holds })?;
    }
    Ok(())
}

// The watches by rising number, each with whether its condition holds.
fn shown_of(
    timeline: &Timeline,
    alloc: Global,
    watches: &Watches,
) -> Result<SmallVec<WatchShown, MAX_WATCHES>, NoMemory>
    requires { AreWatchesOf timeline.now.app watches.now }
    ensures { IfOk result (λ shown.
        shown.items ≡ watches_shown timeline.now.target watches.now) }
{
    let mut shown = SmallVec::new(alloc);
    for number in 0..watches.numbers() {
        append_shown(timeline, &mut shown, number, watches.condition(number))?;
    }
    Ok(shown)
}

/// The view of the watches of a session. An `Err` says that there is no memory for it.
pub(crate) fn show_all_watches(
    timeline: &Timeline,
    alloc: Global,
    watches: &Watches,
) -> Result<Text, NoMemory>
    requires { AreWatchesOf timeline.now.app watches.now }
    ensures { IfOk result (λ text.
        text ≡ line_of (watches_text (watches_shown timeline.now.target watches.now))) }
{
    let shown = shown_of(timeline, alloc, watches)?;
    let mut line = Vec::with_capacity(alloc, ROOM)?;
    show_watches(&mut line, shown.as_slice())?;
    Ok(Text::new(line))
}
