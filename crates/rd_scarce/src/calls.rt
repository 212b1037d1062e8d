//! Calls of a timeline, and where each must end.

ghost use Rattle.std.specs.Prelude.{◌≡◌};
ghost use Rattle.rd_condition.specs.declared.condition.Amount.TheVariants.{Items};
ghost use Rattle.rd_condition.specs.declared.condition.Comparison.TheVariants.{Equal};
ghost use Rattle.rd_condition.specs.declared.condition.Condition.TheVariants.{Compares};
ghost use Rattle.rd_moves.specs.Interrupts.{IsInterruptOf};

use crate::refused::Tried;
use rd_bytes::bytes::Bytes;
use rd_condition::condition::{Amount, Comparison, Condition};
use rd_moves::carried::{Carried, Lent};
use rd_moves::edit::Edit;
use rd_moves::interrupt::Interrupt;
use rd_moves::moves::Move;
use rd_notify::action::Action;
use rd_refusal::refusal::Refusal;
use rd_timeline::running::FoundPlace;
use rd_timeline::timeline::Timeline;

/// A call of a timeline, and where it must lead.
#[derive(Clone, Copy)]
pub enum TimelineCall {
    /// The task on core 0 does one instruction.
    Step,
    /// An interrupt sends an item of one byte.
    Send {
        queue: usize,
        byte: u8,
    },
    /// An interrupt notifies entry 0 of a task.
    Notify {
        task: usize,
        value: u32,
        action: Action,
    },
    /// By hand the item at the front of the queue becomes this byte.
    Item {
        queue: usize,
        byte: u8,
    },
    /// So many moves back.
    Back {
        count: usize,
    },
    /// So many moves again.
    Redo {
        count: usize,
    },
    /// Back to where the first queue had so many items: there, or at the start.
    BackUntil {
        items: u32,
    },
    /// On until the first queue has so many items, so many moves at the most.
    Until {
        items: u32,
        most: usize,
    },
    /// So many moves by policy.
    Forward {
        count: usize,
    },
    /// The records of so many moves are kept, and no others.
    Trim {
        keep: usize,
    },
}

impl TimelineCall {
    /// What is refused where this call is.
    pub fn refused_at(self) -> Tried {
        match self {
            TimelineCall::Send { .. } | TimelineCall::Notify { .. } => Tried::Interrupt,
            TimelineCall::Step
            | TimelineCall::Item { .. }
            | TimelineCall::Back { .. }
            | TimelineCall::Redo { .. }
            | TimelineCall::BackUntil { .. }
            | TimelineCall::Until { .. }
            | TimelineCall::Forward { .. }
            | TimelineCall::Trim { .. } => Tried::Ask,
        }
    }
}

/// Where a call ended: how many moves are done there.
#[derive(Clone, Copy, PartialEq, Eq)]
pub enum CallEnd {
    /// It made moves.
    At { at: usize },
    /// It was an interrupt, and was answered this.
    Answered { at: usize, answer: u32 },
    /// It looked for something, which is there.
    Met { at: usize },
    /// It looked for something, and found it nowhere.
    NotMet { at: usize },
}

/// A call, and where it must end.
#[derive(Clone, Copy)]
pub struct CallRow {
    pub call: TimelineCall,
    pub end: CallEnd,
}

// The first queue has so many items.
fn has_items(items: u32) -> Condition
    ensures { result ≡ Compares (Items 0) Equal items }
{
    Condition::Compares {
        amount: Amount::Items { queue: 0 },
        comparison: Comparison::Equal,
        bound: items,
    }
}

fn ended(found: FoundPlace) -> CallEnd {
    let at = found.at;
    if found.met {
        CallEnd::Met { at }
    } else {
        CallEnd::NotMet { at }
    }
}

fn step(timeline: &mut Timeline) -> Result<CallEnd, Refusal> {
    if timeline.app().cores() == 0 {
        return Err(Refusal::NoSuch);
    }
    let at = timeline.go(&Move::Core { core: 0 })?;
    Ok(CallEnd::At { at })
}

// Makes an interrupt.
fn interrupt(timeline: &mut Timeline, interrupt: Interrupt) -> Result<CallEnd, Refusal>
    requires { IsInterruptOf timeline.old.app interrupt }
{
    let answer = timeline.isr(interrupt)?;
    let at = timeline.at();
    Ok(CallEnd::Answered { at, answer })
}

fn send(timeline: &mut Timeline, queue: usize, byte: u8) -> Result<CallEnd, Refusal> {
    if queue >= timeline.app().objects().queues().len() {
        return Err(Refusal::NoSuch);
    }
    let bytes = Bytes::from_slice(&[byte]);
    interrupt(timeline, Interrupt::Send { queue, bytes })
}

fn notify(
    timeline: &mut Timeline,
    task: usize,
    value: u32,
    action: Action,
) -> Result<CallEnd, Refusal> {
    if task >= timeline.app().priorities().len() || timeline.app().entries() == 0 {
        return Err(Refusal::NoSuch);
    }
    let notification = Interrupt::Notify {
        task,
        index: 0,
        value,
        action,
    };
    interrupt(timeline, notification)
}

fn set_item(timeline: &mut Timeline, queue: usize, byte: u8) -> Result<CallEnd, Refusal> {
    if queue >= timeline.app().objects().queues().len() {
        return Err(Refusal::NoSuch);
    }
    let bytes = Bytes::from_slice(&[byte]);
    let edit = Edit::Item {
        queue,
        index: 0,
        bytes,
    };
    let carried = Carried::Edit { edit };
    let at = timeline.go(&Move::Carried {
        carried: Lent::new(&carried),
    })?;
    Ok(CallEnd::At { at })
}

fn until(timeline: &mut Timeline, items: u32, most: usize) -> Result<CallEnd, Refusal> {
    if most == 0 || timeline.app().objects().queues().is_empty() {
        return Err(Refusal::NoSuch);
    }
    Ok(ended(timeline.until(has_items(items), most)?))
}

fn back_until(timeline: &mut Timeline, items: u32) -> Result<CallEnd, Refusal> {
    if timeline.app().objects().queues().is_empty() {
        return Err(Refusal::NoSuch);
    }
    Ok(ended(timeline.back_until(has_items(items))))
}

fn forward(timeline: &mut Timeline, count: usize) -> Result<CallEnd, Refusal> {
    if count == 0 {
        return Err(Refusal::NoSuch);
    }
    let at = timeline.forward(count)?;
    Ok(CallEnd::At { at })
}

/// Makes a call.
pub fn make_call(timeline: &mut Timeline, call: TimelineCall) -> Result<CallEnd, Refusal> {
    match call {
        TimelineCall::Step => step(timeline),
        TimelineCall::Send { queue, byte } => send(timeline, queue, byte),
        TimelineCall::Notify {
            task,
            value,
            action,
        } => notify(timeline, task, value, action),
        TimelineCall::Item { queue, byte } => set_item(timeline, queue, byte),
        TimelineCall::Back { count } => {
            let at = timeline.back(count)?;
            Ok(CallEnd::At { at })
        }
        TimelineCall::Redo { count } => {
            let at = timeline.redo(count)?;
            Ok(CallEnd::At { at })
        }
        TimelineCall::BackUntil { items } => back_until(timeline, items),
        TimelineCall::Until { items, most } => until(timeline, items, most),
        TimelineCall::Forward { count } => forward(timeline, count),
        TimelineCall::Trim { keep } => Ok(CallEnd::At {
            at: timeline.trim(keep),
        }),
    }
}
