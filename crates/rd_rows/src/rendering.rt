//! Replies that are written one by one.

use crate::asserts::assert_same;
use crate::desk::{assert_enters, open, serve};
use crate::memory::Narrow;
use rd_desk::desk::Desk;
use rd_desk::reply::DeskReply;
use rd_ends::over::Over;
use rd_refusal::refusal::Refusal;
use rd_reply::reply::Reply as Short;
use rd_session::render::render;
use std::alloc::AllocGlobal;
use std::process::Abort;
use std::test::Fail;

// What is written where there is room for so many bytes, in how many writes, and whether the last
// of them fails.
#[derive(Clone, Copy)]
struct Rendered {
    room: usize,
    text: &'static str,
    writes: usize,
    fails: bool,
}

// The reply is written so.
fn assert_rendered<H: AllocGlobal + Abort>(rt: &H, reply: &DeskReply, wanted: Rendered) {
    let mut sink = Over::new(Narrow::new(Vec::new(rt.alloc()), wanted.room));
    let written = render(reply, &mut sink);
    assert_same(rt, written.is_err(), wanted.fails);
    assert_same(rt, sink.faults, u64::from(wanted.fails));
    assert_same(rt, sink.inner.writes, wanted.writes);
    assert_same(rt, sink.inner.bytes.as_slice(), wanted.text.as_bytes());
}

// The reply has this line. It is written at once, and a front of it where there is no room.
fn assert_line<H: AllocGlobal + Abort>(
    rt: &H,
    reply: &DeskReply,
    line: &'static str,
    front: &'static str,
) {
    assert_rendered(
        rt,
        reply,
        Rendered {
            room: usize::MAX,
            text: line,
            writes: 1,
            fails: false,
        },
    );
    assert_rendered(
        rt,
        reply,
        Rendered {
            room: 0,
            text: "",
            writes: 1,
            fails: true,
        },
    );
    assert_rendered(
        rt,
        reply,
        Rendered {
            room: 1,
            text: front,
            writes: 2,
            fails: true,
        },
    );
}

// Nothing is written to who enters or leaves.
#[test]
fn nothing(rt: HostRuntime) {
    assert_rendered(
        &rt,
        &DeskReply::Done,
        Rendered {
            room: 0,
            text: "",
            writes: 0,
            fails: false,
        },
    );
}

// A reply that is written by itself is its line to the last byte, or a front of it. Shows `render`:
// `says`, `given`, `faults`.
#[test]
fn few_words(rt: HostRuntime) {
    let told = Short::Done { at: 3 };
    assert_line(&rt, &DeskReply::Told { told }, "ok at 3\n", "o");
    let told = Short::Answered { at: 3, answer: 0 };
    assert_line(&rt, &DeskReply::Told { told }, "ok at 3 isr 0\n", "o");
    let refusal = Refusal::TooFar { kept: 0 };
    let told = Short::Refused { refusal };
    assert_line(&rt, &DeskReply::Told { told }, "no TooFar 0\n", "n");
}

// A session enters, and looks at the cores.
fn look(rt: &(impl AllocGlobal + Abort), desk: &mut Desk) {
    assert_enters(rt, desk, 1);
    let receipt = serve(rt, desk, 1, "show cores");
    let line = "cores t0 ready - tick 0 turn 0\n";
    assert_line(rt, &receipt.entry.reply, line, "c");
}

// So is a view. Shows the same.
#[test]
fn view(rt: HostRuntime) -> Result<(), Fail> {
    let mut desk = open(&rt, 100)?;
    look(&rt, &mut desk);
    desk.close();
    Ok(())
}
