//! What the receipts of sessions say, laid against the history.

ghost use Rattle.rd_desk.specs.Kept.{IsNarrow};

use crate::asserts::assert_same;
use crate::desk::{assert_departs, assert_enters, line_of, open, serve};
use rd_desk::desk::Desk;
use rd_desk::entry::{Event, Receipt};
use rd_desk::history::History;
use rd_desk::rows::{Deed, Rows, reply_bytes};
use rd_hall::account::Closed;
use rd_hall::setup::Setup;
use std::alloc::{AllocError, AllocGlobal, Global};
use std::process::Abort;
use std::test::Fail;

/// What a session asked, and what it was replied, a line each.
#[derive(Drop)]
pub struct SessionTranscript {
    pub asked: Vec<u8>,
    pub replies: Vec<u8>,
}

impl SessionTranscript {
    fn new(alloc: Global) -> SessionTranscript {
        SessionTranscript {
            asked: Vec::new(alloc),
            replies: Vec::new(alloc),
        }
    }

    // Adds what a receipt says.
    fn add<H: AllocGlobal>(&mut self, rt: &H, receipt: &Receipt) -> Result<(), AllocError> {
        if let Event::Ask { command } = &receipt.entry.event {
            self.asked.extend_from_slice(command.line())?;
            self.asked.push(b'\n')?;
            let line = line_of(rt, &receipt.entry.reply)?;
            self.replies.extend_from_slice(line.as_slice())?;
        }
        Ok(())
    }
}

/// What each session asked and was replied, in the order in which they were handed in. Each of its
/// receipts is the entry at its place.
pub fn all_sessions<L: Setup, H: AllocGlobal + Abort>(
    rt: &H,
    closed: &Closed<L>,
) -> Result<Vec<SessionTranscript>, AllocError> {
    let mut all = Vec::new(rt.alloc());
    for gone in closed.gones() {
        let mut session = SessionTranscript::new(rt.alloc());
        for index in 0..gone.len() {
            assert!(rt;
                gone.is_entered(closed.history(), index),
                "a receipt isn't an entry"
            );
            let Ok(receipt) = gone.receipt(rt.alloc(), index) else {
                panic!(rt; "no memory");
            };
            session.add(rt, &receipt)?;
        }
        all.push(session)?;
    }
    Ok(all)
}

// A session ticks, looks at the wheel twice, in lines of other spaces, and departs.
fn serve_three<H: AllocGlobal + Abort>(rt: &H, desk: &mut Desk) -> (Receipt, Receipt, Receipt)
    ensures ticked { IsNarrow result.0.entry.reply }
    ensures first { IsNarrow result.1.entry.reply }
    ensures second { IsNarrow result.2.entry.reply }
{
    assert_enters(rt, desk, 1);
    let ticked = serve(rt, desk, 1, "tick");
    let first = serve(rt, desk, 1, "show wheel");
    let second = serve(rt, desk, 1, " show  wheel ");
    assert_departs(rt, desk, 1);
    (ticked, first, second)
}

// Keeps a receipt as a row, under the number of a place.
fn keep<H: AllocGlobal + Abort>(rt: &H, rows: &mut Rows, place: usize, receipt: &Receipt)
    requires { IsNarrow receipt.now.entry.reply }
{
    let Event::Ask { command } = &receipt.entry.event else {
        panic!(rt; "no command was asked");
    };
    let (line, reply) = (command.line(), &receipt.entry.reply);
    let Ok(()) = rows.make_room(1, line.len() + reply_bytes(reply).len()) else {
        panic!(rt; "no memory");
    };
    let Ok(number) = u32::try_from(place) else {
        panic!(rt; "no place");
    };
    rows.push(number, Deed::Ask, line, reply);
}

// Whether each of these rows, or none, is a receipt of the session's in the history.
fn assert_all(rt: &impl Abort, history: &History, who: u32, rows: &Rows, are_there: bool) {
    for index in 0..rows.len() {
        assert!(rt;
            history.has(who, rows, index) == are_there,
            "row {index} of session {who}"
        );
    }
}

// A history has a receipt at its own place, and at that of an equal entry, and nowhere else, and of
// its own session alone.
#[test]
fn receipts(rt: HostRuntime) -> Result<(), Fail> {
    let mut desk = open(&rt, 100)?;
    let (ticked, first, second) = serve_three(&rt, &mut desk);
    let history = desk.close();
    assert_same(&rt, history.len(), 5);
    let mut rows = Rows::new(rt.alloc());
    keep(&rt, &mut rows, ticked.place, &ticked);
    keep(&rt, &mut rows, first.place, &first);
    keep(&rt, &mut rows, second.place, &second);
    keep(&rt, &mut rows, second.place, &first);
    assert_same(&rt, rows.len(), 4);
    assert_all(&rt, &history, 1, &rows, true);
    assert_all(&rt, &history, 2, &rows, false);
    let mut elsewhere = Rows::new(rt.alloc());
    for place in [0, ticked.place, 4, 5] {
        keep(&rt, &mut elsewhere, place, &first);
    }
    assert_same(&rt, elsewhere.len(), 4);
    assert_all(&rt, &history, 1, &elsewhere, false);
    Ok(())
}
