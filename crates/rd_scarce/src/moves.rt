//! Runs by the calls of a timeline.

ghost use Rattle.std.specs.Prelude.{IfOk};
ghost use Rattle.rd_app.specs.Application.{priorities_of};
ghost use Rattle.rd_state.specs.Settled.{IsSettled};
ghost use Rattle.rd_state.specs.Valid.{IsValid};

use crate::applications::{Which, make};
use crate::calls::{CallEnd, CallRow, TimelineCall, make_call};
use crate::refused::{Refusals, TRIES, Tried};
use crate::wrong::Wrong;
use rd_app::app::Program;
use rd_refusal::refusal::Refusal;
use rd_state::state::State;
use rd_timeline::timeline::Timeline;
use std::alloc::Global;

// How many moves may be done.
const LIMIT: usize = 100;

/// `runs_to_a_condition`, and behind it a run in whose middle lists grow.
pub const TWICE: [CallRow; 17] = [
    CallRow {
        call: TimelineCall::Step,
        end: CallEnd::At { at: 1 },
    },
    CallRow {
        call: TimelineCall::Step,
        end: CallEnd::At { at: 2 },
    },
    CallRow {
        call: TimelineCall::Step,
        end: CallEnd::At { at: 3 },
    },
    CallRow {
        call: TimelineCall::Step,
        end: CallEnd::At { at: 4 },
    },
    CallRow {
        call: TimelineCall::Step,
        end: CallEnd::At { at: 5 },
    },
    CallRow {
        call: TimelineCall::Step,
        end: CallEnd::At { at: 6 },
    },
    CallRow {
        call: TimelineCall::Step,
        end: CallEnd::At { at: 7 },
    },
    CallRow {
        call: TimelineCall::BackUntil { items: 1 },
        end: CallEnd::Met { at: 5 },
    },
    CallRow {
        call: TimelineCall::BackUntil { items: 1 },
        end: CallEnd::Met { at: 2 },
    },
    CallRow {
        call: TimelineCall::BackUntil { items: 1 },
        end: CallEnd::NotMet { at: 0 },
    },
    CallRow {
        call: TimelineCall::Until { items: 1, most: 9 },
        end: CallEnd::Met { at: 3 },
    },
    CallRow {
        call: TimelineCall::Until { items: 2, most: 1 },
        end: CallEnd::NotMet { at: 4 },
    },
    CallRow {
        call: TimelineCall::Trim { keep: 2 },
        end: CallEnd::At { at: 4 },
    },
    CallRow {
        call: TimelineCall::BackUntil { items: 9 },
        end: CallEnd::NotMet { at: 2 },
    },
    CallRow {
        call: TimelineCall::Forward { count: 22 },
        end: CallEnd::At { at: 24 },
    },
    CallRow {
        call: TimelineCall::Trim { keep: 10 },
        end: CallEnd::At { at: 24 },
    },
    CallRow {
        call: TimelineCall::Forward { count: 20 },
        end: CallEnd::At { at: 44 },
    },
];

// So many moves are done and undone, as before.
fn stands(timeline: &Timeline, at: usize, left: usize) -> Result<(), Wrong> {
    if timeline.at() == at && timeline.left() == left {
        return Ok(());
    }
    Err(Wrong::Moves {
        done: timeline.at(),
        undone: timeline.left(),
        at,
    })
}

// After a refusal: goes back as far as records are kept, at the start to what was at boot, and
// makes the moves again.
fn go_back_and_on(
    timeline: &mut Timeline,
    boot: &State,
    at: usize,
    left: usize,
) -> Result<(), Wrong> {
    stands(timeline, at, left)?;
    let kept = timeline.kept();
    if timeline.back(kept).is_err() || (kept == at && !timeline.target().same(boot)) {
        return Err(Wrong::Boot);
    }
    if timeline.redo(kept).is_err() {
        return Err(Wrong::RefusedTwice { at: Tried::Ask });
    }
    stands(timeline, at, left)
}

// Makes a row's call, again where it was refused.
fn follow(
    timeline: &mut Timeline,
    boot: &State,
    row: CallRow,
    refused: &mut Refusals,
) -> Result<(), Wrong> {
    let refused_at = row.call.refused_at();
    for _ in 0..TRIES {
        let (at, left) = (timeline.at(), timeline.left());
        match make_call(timeline, row.call) {
            Ok(end) if end == row.end => return Ok(()),
            Err(Refusal::NoMemory) => {
                refused.note(refused_at);
                go_back_and_on(timeline, boot, at, left)?;
            }
            Ok(_) => return Err(Wrong::End {
                done: timeline.at(),
            }),
            Err(_) => return Err(Wrong::Refusal { at: refused_at }),
        }
    }
    Err(Wrong::RefusedTwice { at: refused_at })
}

// Makes all calls: so many moves are done at the end.
fn follow_all(
    timeline: &mut Timeline,
    boot: &State,
    rows: &[CallRow],
    refused: &mut Refusals,
) -> Result<usize, Wrong> {
    for row in rows {
        follow(timeline, boot, *row, refused)?;
    }
    Ok(timeline.at())
}

/// The target at boot, made again where it was refused.
pub fn make_boot(alloc: Global, app: &Program, refused: &mut Refusals) -> Result<State, Wrong>
    ensures valid { IfOk result (IsValid app.now) }
    ensures settled { IfOk result (IsSettled (priorities_of app.now)) }
{
    for _ in 0..TRIES {
        match State::boot(alloc, app) {
            Ok(boot) => return Ok(boot),
            Err(_) => refused.note(Tried::Copy),
        }
    }
    Err(Wrong::RefusedTwice { at: Tried::Copy })
}

/// These calls on a timeline of their own, of that application: so many moves are done at the end.
/// Where the timeline is refused, it is made again, with an application that is made anew.
pub fn go_both_ways(
    alloc: Global,
    which: Which,
    rows: &[CallRow],
    refused: &mut Refusals,
) -> Result<usize, Wrong> {
    for _ in 0..TRIES {
        let (program, _names) = make(alloc, which, refused)?.split();
        let boot = make_boot(alloc, &program, refused)?;
        match Timeline::new(alloc, program, LIMIT) {
            Ok(timeline) => {
                let mut timeline = timeline;
                let ended = follow_all(&mut timeline, &boot, rows, refused);
                timeline.close();
                return ended;
            }
            Err(_) => refused.note(Tried::Open),
        }
    }
    Err(Wrong::RefusedTwice { at: Tried::Open })
}
