//! Interrupts by the calls of a timeline, among moves of tasks and an edit.

use crate::calls::{CallEnd, CallRow, TimelineCall};
use rd_notify::action::Action;

/// The calls, and where each must end.
pub const INTERRUPTED: [CallRow; 25] = [
    // The first three tasks wait.
    CallRow {
        call: TimelineCall::Step,
        end: CallEnd::At { at: 1 },
    },
    CallRow {
        call: TimelineCall::Step,
        end: CallEnd::At { at: 2 },
    },
    CallRow {
        call: TimelineCall::Step,
        end: CallEnd::At { at: 3 },
    },
    // An item into an empty queue, and one into the full one; into a member of a set, and into the
    // full set; a value, and one that leaves its entry alone.
    CallRow {
        call: TimelineCall::Send { queue: 0, byte: 42 },
        end: CallEnd::Answered { at: 4, answer: 1 },
    },
    CallRow {
        call: TimelineCall::Send { queue: 0, byte: 43 },
        end: CallEnd::Answered { at: 5, answer: 0 },
    },
    CallRow {
        call: TimelineCall::Send { queue: 1, byte: 44 },
        end: CallEnd::Answered { at: 6, answer: 1 },
    },
    CallRow {
        call: TimelineCall::Send { queue: 1, byte: 45 },
        end: CallEnd::Answered { at: 7, answer: 0 },
    },
    CallRow {
        call: TimelineCall::Notify {
            task: 2,
            value: 5,
            action: Action::Overwrite,
        },
        end: CallEnd::Answered { at: 8, answer: 1 },
    },
    CallRow {
        call: TimelineCall::Notify {
            task: 2,
            value: 6,
            action: Action::WithoutOverwrite,
        },
        end: CallEnd::Answered { at: 9, answer: 0 },
    },
    // Back over them, and all but the last again.
    CallRow {
        call: TimelineCall::Back { count: 6 },
        end: CallEnd::At { at: 3 },
    },
    CallRow {
        call: TimelineCall::Redo { count: 5 },
        end: CallEnd::At { at: 8 },
    },
    // A tick, and the first task receives. The last interrupt is forgotten.
    CallRow {
        call: TimelineCall::Until { items: 0, most: 2 },
        end: CallEnd::Met { at: 10 },
    },
    // An edit among them, and interrupts again.
    CallRow {
        call: TimelineCall::Item { queue: 1, byte: 46 },
        end: CallEnd::At { at: 11 },
    },
    CallRow {
        call: TimelineCall::Notify {
            task: 2,
            value: 0,
            action: Action::Increment,
        },
        end: CallEnd::Answered { at: 12, answer: 1 },
    },
    CallRow {
        call: TimelineCall::Trim { keep: 4 },
        end: CallEnd::At { at: 12 },
    },
    CallRow {
        call: TimelineCall::BackUntil { items: 1 },
        end: CallEnd::Met { at: 9 },
    },
    CallRow {
        call: TimelineCall::Send { queue: 1, byte: 47 },
        end: CallEnd::Answered { at: 10, answer: 0 },
    },
    // All that came is taken, and the first three tasks wait again. Each is woken, in the middle of
    // a run in which lists grow.
    CallRow {
        call: TimelineCall::Forward { count: 22 },
        end: CallEnd::At { at: 32 },
    },
    CallRow {
        call: TimelineCall::Send { queue: 1, byte: 48 },
        end: CallEnd::Answered { at: 33, answer: 1 },
    },
    CallRow {
        call: TimelineCall::Notify {
            task: 2,
            value: 0,
            action: Action::Increment,
        },
        end: CallEnd::Answered { at: 34, answer: 1 },
    },
    CallRow {
        call: TimelineCall::Send { queue: 0, byte: 49 },
        end: CallEnd::Answered { at: 35, answer: 1 },
    },
    CallRow {
        call: TimelineCall::Back { count: 3 },
        end: CallEnd::At { at: 32 },
    },
    CallRow {
        call: TimelineCall::Redo { count: 3 },
        end: CallEnd::At { at: 35 },
    },
    CallRow {
        call: TimelineCall::Trim { keep: 10 },
        end: CallEnd::At { at: 35 },
    },
    CallRow {
        call: TimelineCall::Forward { count: 35 },
        end: CallEnd::At { at: 70 },
    },
];
