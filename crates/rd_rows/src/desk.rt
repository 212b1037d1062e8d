//! Sessions of a desk, by calls.

ghost use Rattle.std.specs.Prelude.{IfOk};
ghost use Rattle.rd_desk.specs.Kept.{IsNarrow};
ghost use Rattle.rd_desk.specs.Sessions.{IsPresent};

use crate::asserts::assert_same;
use rd_command::binding::bind;
use rd_command::command::parse_line;
use rd_command::known::Known;
use rd_command::order::Order;
use rd_command::word::Behind;
use rd_desk::desk::{Desk, EnterError, NotServed};
use rd_desk::entry::Receipt;
use rd_desk::limits::Limits;
use rd_desk::reply::DeskReply;
use rd_desk::rows::Rows;
use rd_desk::tally::Tally;
use rd_names::app::App;
use rd_reply::reply::{MAX_REPLY, append_reply};
use std::alloc::{AllocError, AllocGlobal};
use std::process::Abort;
use std::test::Fail;

// A line that a session asks, and what it is answered.
#[derive(Clone, Copy)]
struct AskedLine {
    who: u32,
    line: &'static str,
    reply: &'static str,
}

/// A desk over the built-in application, with a history of so many entries.
pub fn open<H: AllocGlobal>(rt: &H, history: u32) -> Result<Desk, Fail> {
    let app = App::builtin(rt.alloc())?;
    let limits = Limits {
        moves: 100,
        history,
    };
    Ok(Desk::open(rt.alloc(), app, limits)?)
}

// The receipt says who did something at that place.
fn assert_receipt(rt: &impl Abort, receipt: &Receipt, place: usize, who: u32) {
    assert_same(rt, receipt.place, place);
    assert_same(rt, receipt.entry.who, who);
}

/// The next session enters, and has this number.
pub fn assert_enters(rt: &impl Abort, desk: &mut Desk, who: u32) {
    let place = desk.entries();
    match desk.enter() {
        Ok(receipt) => assert_receipt(rt, &receipt, place, who),
        Err(_) => assert!(rt; false, "session {who} can't enter"),
    }
}

// The session is present.
fn assert_present(rt: &impl Abort, desk: &Desk, who: u32)
    ensures { IsPresent desk.now.desk.debugger.sessions who }
{
    assert!(rt; desk.is_present(who), "session {who} isn't present");
}

/// A session departs.
pub fn assert_departs(rt: &impl Abort, desk: &mut Desk, who: u32) {
    assert_present(rt, desk, who);
    let place = desk.entries();
    let receipt = desk.depart(who);
    assert_receipt(rt, &receipt, place, who);
    assert!(rt; !desk.is_present(who), "session {who} is still present");
}

/// The line of a reply.
pub fn line_of<H: AllocGlobal>(rt: &H, reply: &DeskReply) -> Result<Vec<u8>, AllocError> {
    let mut line = Vec::with_capacity(rt.alloc(), MAX_REPLY)?;
    match reply {
        DeskReply::Done => {}
        DeskReply::Told { told } => append_reply(&mut line, told),
        DeskReply::Shown { text } => line.extend_from_slice(text.as_slice())?,
    }
    Ok(line)
}

// The receipt has the command, and this reply.
fn assert_answer<H: AllocGlobal + Abort>(
    rt: &H,
    receipt: &Receipt,
    asked: AskedLine,
) -> Result<(), Fail> {
    let line = line_of(rt, &receipt.entry.reply)?;
    assert_eq!(rt;
        line.as_slice(),
        asked.reply.as_bytes(),
        "to {}",
        asked.line
    );
    let copied = receipt.entry.reply.copy(rt.alloc())?;
    let line = line_of(rt, &copied)?;
    assert_same(rt, line.as_slice(), asked.reply.as_bytes());
    Ok(())
}

// A session that is present asks. What the line names is looked up in a copy of the names.
fn ask<H: AllocGlobal + Abort>(
    rt: &H,
    desk: &mut Desk,
    who: u32,
    line: &str,
) -> Result<Receipt, NotServed>
    requires { IsPresent desk.old.desk.debugger.sessions who }
    ensures { IfOk result (λ receipt. IsNarrow receipt.entry.reply) }
{
    let mut behind = Behind::new();
    let Ok(command) = parse_line(line.as_bytes(), &mut behind) else {
        panic!(rt; "{line} is no command");
    };
    let Ok(names) = desk.names().copy(rt.alloc()) else {
        panic!(rt; "no memory");
    };
    let program = desk.program();
    let known = Known::new(names, program.cores(), program.entries());
    let bound = bind(&command, &known);
    let order = Order::new(&command, &known, &bound);
    let mut receipts = Rows::new(rt.alloc());
    let Ok(()) = receipts.make_room(0, order.line().len()) else {
        panic!(rt; "no memory");
    };
    desk.serve(who, &order, &mut receipts)
}

// The session is answered so.
fn assert_asked<H: AllocGlobal + Abort>(
    rt: &H,
    desk: &mut Desk,
    asked: AskedLine,
) -> Result<(), Fail> {
    let place = desk.entries();
    assert_present(rt, desk, asked.who);
    match ask(rt, desk, asked.who, asked.line) {
        Ok(receipt) => {
            assert_receipt(rt, &receipt, place, asked.who);
            assert_answer(rt, &receipt, asked)
        }
        Err(_) => panic!(rt; "{} isn't served", asked.line),
    }
}

fn assert_all_asked<H: AllocGlobal + Abort>(
    rt: &H,
    desk: &mut Desk,
    all: &[AskedLine],
) -> Result<(), Fail> {
    for asked in all {
        assert_asked(rt, desk, *asked)?;
    }
    Ok(())
}

// Two sessions enter, ask all this, and depart.
fn two_sessions<H: AllocGlobal + Abort>(
    rt: &H,
    desk: &mut Desk,
    all: &[AskedLine],
) -> Result<(), Fail> {
    assert_enters(rt, desk, 1);
    assert_enters(rt, desk, 2);
    assert_all_asked(rt, desk, all)?;
    assert_departs(rt, desk, 1);
    assert_departs(rt, desk, 2);
    Ok(())
}

const THE_WHEEL: [AskedLine; 5] = [
    AskedLine {
        who: 1,
        line: "wheel take",
        reply: "ok wheel\n",
    },
    AskedLine {
        who: 2,
        line: "step 0",
        reply: "no Held 1\n",
    },
    AskedLine {
        who: 2,
        line: "show wheel",
        reply: "wheel 1\n",
    },
    AskedLine {
        who: 1,
        line: "poke reg t0 0 7",
        reply: "ok at 1\n",
    },
    AskedLine {
        who: 1,
        line: "show task t0",
        reply: "task t0 core 0 pc 0 phase run regs 7,0,0,0,0,0,0,0 data - notes 0:idle\n",
    },
];

// Who takes the wheel makes moves alone; the others look as they like.
#[test]
fn the_wheel(rt: HostRuntime) -> Result<(), Fail> {
    let mut desk = open(&rt, 100)?;
    let ended = two_sessions(&rt, &mut desk, &THE_WHEEL);
    let history = desk.close();
    assert_same(&rt, history.len(), 9);
    ended
}

// What the wheel refuses comes before all other refusals. It refuses no view and no watch.
const HELD: [AskedLine; 18] = [
    AskedLine {
        who: 2,
        line: "wheel take",
        reply: "ok wheel\n",
    },
    AskedLine {
        who: 2,
        line: "wheel take",
        reply: "ok wheel\n",
    },
    AskedLine {
        who: 1,
        line: "wheel take",
        reply: "no Held 2\n",
    },
    AskedLine {
        who: 1,
        line: "wheel give",
        reply: "no NotHolder\n",
    },
    AskedLine {
        who: 1,
        line: "step 9",
        reply: "no Held 2\n",
    },
    AskedLine {
        who: 1,
        line: "until w0 1",
        reply: "no Held 2\n",
    },
    AskedLine {
        who: 1,
        line: "back 1",
        reply: "no Held 2\n",
    },
    AskedLine {
        who: 1,
        line: "redo 1",
        reply: "no Held 2\n",
    },
    AskedLine {
        who: 1,
        line: "trim 1",
        reply: "no Held 2\n",
    },
    AskedLine {
        who: 1,
        line: "poke pc t9 0",
        reply: "no Held 2\n",
    },
    AskedLine {
        who: 1,
        line: "isr send q9 41",
        reply: "no Held 2\n",
    },
    AskedLine {
        who: 1,
        line: "watch tick = 0",
        reply: "ok watch 0\n",
    },
    AskedLine {
        who: 1,
        line: "unwatch 1",
        reply: "no NoWatch\n",
    },
    AskedLine {
        who: 1,
        line: "show cores",
        reply: "cores t0 ready - tick 0 turn 0\n",
    },
    AskedLine {
        who: 2,
        line: "forward 1",
        reply: "ok at 1\n",
    },
    AskedLine {
        who: 2,
        line: "wheel give",
        reply: "ok wheel\n",
    },
    AskedLine {
        who: 1,
        line: "show wheel",
        reply: "wheel -\n",
    },
    AskedLine {
        who: 1,
        line: "back 1",
        reply: "ok at 0\n",
    },
];

// What the wheel refuses, and what it doesn't.
#[test]
fn held(rt: HostRuntime) -> Result<(), Fail> {
    let mut desk = open(&rt, 100)?;
    let ended = two_sessions(&rt, &mut desk, &HELD);
    desk.close();
    ended
}

// One session trims, and another goes back too far.
const TRIMMED: [AskedLine; 7] = [
    AskedLine {
        who: 2,
        line: "forward 3",
        reply: "ok at 3\n",
    },
    AskedLine {
        who: 1,
        line: "trim 1",
        reply: "ok at 3\n",
    },
    AskedLine {
        who: 2,
        line: "back 2",
        reply: "no TooFar 1\n",
    },
    AskedLine {
        who: 2,
        line: "show moves",
        reply: "moves 3 undone 0 kept 1\n",
    },
    AskedLine {
        who: 2,
        line: "back 1",
        reply: "ok at 2\n",
    },
    AskedLine {
        who: 1,
        line: "back until tick = 9",
        reply: "ok at 2 start\n",
    },
    AskedLine {
        who: 1,
        line: "redo 1",
        reply: "ok at 3\n",
    },
];

// What one session trims is gone for all.
#[test]
fn trimmed_by_another(rt: HostRuntime) -> Result<(), Fail> {
    let mut desk = open(&rt, 100)?;
    let ended = two_sessions(&rt, &mut desk, &TRIMMED);
    desk.close();
    ended
}

// Watches are numbered in each session by itself, and no other session sees or drops them.
const OWN_WATCHES: [AskedLine; 10] = [
    AskedLine {
        who: 1,
        line: "watch tick > 0",
        reply: "ok watch 0\n",
    },
    AskedLine {
        who: 2,
        line: "watch tick = 0",
        reply: "ok watch 0\n",
    },
    AskedLine {
        who: 2,
        line: "watch pc t0 = 0",
        reply: "ok watch 1\n",
    },
    AskedLine {
        who: 1,
        line: "show watches",
        reply: "watches 0:fails\n",
    },
    AskedLine {
        who: 2,
        line: "show watches",
        reply: "watches 0:holds,1:holds\n",
    },
    AskedLine {
        who: 1,
        line: "unwatch 1",
        reply: "no NoWatch\n",
    },
    AskedLine {
        who: 1,
        line: "unwatch 0",
        reply: "ok watch 0\n",
    },
    AskedLine {
        who: 1,
        line: "show watches",
        reply: "watches -\n",
    },
    AskedLine {
        who: 2,
        line: "unwatch 0",
        reply: "ok watch 0\n",
    },
    AskedLine {
        who: 2,
        line: "show watches",
        reply: "watches 1:holds\n",
    },
];

// A watch is its own session's.
#[test]
fn own_watches(rt: HostRuntime) -> Result<(), Fail> {
    let mut desk = open(&rt, 100)?;
    let ended = two_sessions(&rt, &mut desk, &OWN_WATCHES);
    desk.close();
    ended
}

const BEFORE_DEPARTURE: [AskedLine; 2] = [
    AskedLine {
        who: 1,
        line: "wheel take",
        reply: "ok wheel\n",
    },
    AskedLine {
        who: 1,
        line: "watch tick = 0",
        reply: "ok watch 0\n",
    },
];

const AFTER_DEPARTURE: [AskedLine; 4] = [
    AskedLine {
        who: 2,
        line: "show wheel",
        reply: "wheel -\n",
    },
    AskedLine {
        who: 3,
        line: "show watches",
        reply: "watches -\n",
    },
    AskedLine {
        who: 3,
        line: "wheel take",
        reply: "ok wheel\n",
    },
    AskedLine {
        who: 2,
        line: "tick",
        reply: "no Held 3\n",
    },
];

// Who departs has no wheel and no watches any more, and the next to enter has another number. The
// wheel of another stays where it is.
fn depart_and_enter<H: AllocGlobal + Abort>(rt: &H, desk: &mut Desk) -> Result<(), Fail> {
    assert_enters(rt, desk, 1);
    assert_enters(rt, desk, 2);
    assert_all_asked(rt, desk, &BEFORE_DEPARTURE)?;
    assert_departs(rt, desk, 1);
    assert_enters(rt, desk, 3);
    assert_all_asked(rt, desk, &AFTER_DEPARTURE)?;
    assert_departs(rt, desk, 2);
    let asked = AskedLine {
        who: 3,
        line: "show wheel",
        reply: "wheel 3\n",
    };
    assert_asked(rt, desk, asked)
}

// Who has left has neither wheel nor watches, and no number comes twice.
#[test]
fn departures(rt: HostRuntime) -> Result<(), Fail> {
    let mut desk = open(&rt, 100)?;
    let ended = depart_and_enter(&rt, &mut desk);
    desk.close();
    ended
}

// The numbers of a full history.
fn assert_tally(rt: &impl Abort, tally: &Tally, entries: usize, present: usize, limit: usize) {
    assert_same(rt, tally.entries(), entries);
    assert_same(rt, tally.present(), present);
    assert_same(rt, tally.limit(), limit);
}

// The 65th isn't let in, also where some have left.
fn enter_64_times(rt: &impl Abort, desk: &mut Desk) {
    for who in 1..=64 {
        assert_enters(rt, desk, who);
    }
    assert!(rt; matches!(desk.enter(), Err(EnterError::Full)));
    assert_departs(rt, desk, 64);
    assert!(rt; matches!(desk.enter(), Err(EnterError::Full)));
    assert_same(rt, desk.entries(), 65);
}

// At most 64 sessions enter in all.
#[test]
fn joins(rt: HostRuntime) -> Result<(), Fail> {
    let mut desk = open(&rt, 1_000)?;
    enter_64_times(&rt, &mut desk);
    desk.close();
    Ok(())
}

// One session is present, and fills a history of two places: no other is let in.
fn assert_no_way_in(rt: &impl Abort, desk: &mut Desk) {
    match desk.enter() {
        Ok(_receipt) => assert!(rt; false, "the history isn't full"),
        Err(error) => match error {
            EnterError::HistoryFull { tally } => assert_tally(rt, &tally, 1, 1, 2),
            EnterError::Full | EnterError::NoMemory => assert!(rt; false, "it isn't that"),
        },
    }
}

// Nor is its own command served.
fn assert_no_place<H: AllocGlobal + Abort>(rt: &H, desk: &mut Desk) {
    assert_present(rt, desk, 1);
    match ask(rt, desk, 1, "tick") {
        Ok(_receipt) => assert!(rt; false, "the history isn't full"),
        Err(refusal) => match refusal {
            NotServed::HistoryFull { tally } => assert_tally(rt, &tally, 1, 1, 2),
            NotServed::NoMemory | NotServed::Broken => assert!(rt; false, "it isn't that"),
        },
    }
}

// With two places one session can enter and depart, and nothing else.
fn fill_two_places<H: AllocGlobal + Abort>(rt: &H, desk: &mut Desk) {
    assert_enters(rt, desk, 1);
    assert_no_way_in(rt, desk);
    assert_no_place(rt, desk);
    assert_departs(rt, desk, 1);
    assert_same(rt, desk.entries(), 2);
}

// A history that is full lets nobody in and serves nothing, and has a place for each departure.
#[test]
fn two_places(rt: HostRuntime) -> Result<(), Fail> {
    let mut desk = open(&rt, 2)?;
    fill_two_places(&rt, &mut desk);
    desk.close();
    Ok(())
}

/// A session is served, and gets its receipt.
pub fn serve<H: AllocGlobal + Abort>(rt: &H, desk: &mut Desk, who: u32, line: &str) -> Receipt
    ensures { IsNarrow result.entry.reply }
{
    assert_present(rt, desk, who);
    match ask(rt, desk, who, line) {
        Ok(receipt) => receipt,
        Err(_) => panic!(rt; "{line} isn't served"),
    }
}
