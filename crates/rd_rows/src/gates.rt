//! What a session calls of its gate, beside what it has written and what the history has.

ghost use Rattle.std.specs.Prelude.{◌≡◌, ◌+◌};
ghost use Rattle.rd_desk.specs.declared.sessions.TheConstants.{MAX_JOINS};

use crate::asserts::assert_same;
use crate::attending::attend;
use crate::counting::{CountingGate, TellingWriter};
use crate::looking::LookingGate;
use crate::memory::{LineByLine, Narrow};
use rd_desk::limits::Limits;
use rd_desk::sessions::MAX_JOINS;
use rd_ends::over::Over;
use rd_hall::hall::Hall;
use rd_hall::seat::{Gone, Pass};
use rd_hall::setup::Setup;
use rd_names::app::App;
use std::alloc::AllocGlobal;
use std::marker::Brand;
use std::process::Abort;
use std::sync::Wait;
use std::sync::atomic::{AtomicU64, Ordering};
use std::sync::ledger::Blank;
use std::test::Fail;

// Lines, the numbers of those that are no commands, whether one read brings all, how many answers
// there are, and by how many writes at the least they are written.
#[derive(Clone, Copy)]
struct GateScript<'a> {
    lines: &'a [u8],
    no_commands: &'a [u64],
    is_whole: bool,
    answers: u64,
    writes: usize,
}

// A session with a gate that counts and looks. It is told of each answer by the end.
fn pass_the_gate<'a, L: Setup, H: Wait + Abort + AllocGlobal>(
    rt: &'a H,
    hall: &'a Hall<L>,
    passes: &mut Vec<Pass<L>>,
    script: GateScript<'a>,
) -> Gone<L> {
    let lines_out = AtomicU64::new(0);
    let mut gate = LookingGate {
        counting: CountingGate::new(rt, 1, &lines_out),
        hall,
        no_commands: script.no_commands,
    };
    let mut source = Over::new(LineByLine {
        rest: script.lines,
        calls: 0,
        is_whole: script.is_whole,
    });
    let mut sink = Over::new(TellingWriter {
        narrow: Narrow::new(Vec::new(rt.alloc()), usize::MAX),
        lines_out: &lines_out,
    });
    let gone = attend(rt, hall, passes, &mut source, &mut sink, &mut gate);
    assert_same(rt, lines_out.load(Ordering::SeqCst), script.answers);
    assert_same(rt, gate.counting.begun, script.answers);
    assert_same(rt, gate.counting.told, script.answers);
    assert!(rt;
        script.writes <= sink.inner.narrow.writes,
        "there were fewer writes"
    );
    gone
}

fn enter_and_pass<L: Setup, H: Wait + Abort + AllocGlobal>(
    rt: &H,
    blank: Blank,
    app: App,
    script: GateScript<'_>,
) -> Result<(), Fail>
    requires name { blank.name ≡ L.name }
    requires parts { (blank.parts ≡ L.parts) × (blank.parts ≡ MAX_JOINS + 1) }
    requires app { app ≡ L.app }
    requires moves { L.most_moves ≡ 10 }
    requires entries { L.most_entries ≡ 5000 }
{
    let mut gones = Vec::with_capacity(rt.alloc(), 1)?;
    let limits = Limits {
        moves: 10,
        history: 5_000,
    };
    let (hall, mut passes) = Hall::<L>::open(rt.alloc(), blank, app, limits)?;
    gones.push_reserved(pass_the_gate(rt, &hall, &mut passes, script));
    assert!(rt;
        hall.finish(gones).is_ok(),
        "the history isn't the session's"
    );
    Ok(())
}

fn assert_gate<H: Wait + Abort + AllocGlobal>(rt: &H, script: GateScript<'_>) -> Result<(), Fail> {
    let app = App::builtin(rt.alloc())?;
    let blank = Blank::new(MAX_JOINS as u64 + 1);
    enter_and_pass::<Brand, H>(rt, blank, app, script)
}

// The gate is called before each line and after it, once, with its number and in order, before it
// only while it isn't asked, and after it only when its answer is written: line by line, and where
// one write has all answers. Lines that are no commands are lines too, and so is an unfinished one
// at the end of the input.
#[test]
fn each_line_passes_the_gate(rt: HostRuntime) -> Result<(), Fail> {
    for (is_whole, writes) in [(false, 6), (true, 2)] {
        let script = GateScript {
            lines: b"step 0\nfly\n\nshow queue q0\nback 2\nstep 0",
            no_commands: &[2, 3],
            is_whole,
            answers: 6,
            writes,
        };
        assert_gate(&rt, script)?;
    }
    Ok(())
}

// So does the line that is too long, behind which there is no other. Shows `session`: `heard`
// (`LongLine`, `GateCalled`).
#[test]
fn a_long_line_passes_the_gate(rt: HostRuntime) -> Result<(), Fail> {
    let mut lines = Vec::from_slice(rt.alloc(), b"step 0\nfly\n")?;
    lines.extend_from_slice(&[b'x'; 1025])?;
    lines.extend_from_slice(b"\nstep 0\n")?;
    for (is_whole, writes) in [(false, 3), (true, 1)] {
        let script = GateScript {
            lines: lines.as_slice(),
            no_commands: &[2, 3],
            is_whole,
            answers: 3,
            writes,
        };
        assert_gate(&rt, script)?;
    }
    Ok(())
}

// More answers to one read than there is room for: some are written before the others, and the gate
// is told of these only.
#[test]
fn many_answers_pass_the_gate(rt: HostRuntime) -> Result<(), Fail> {
    let mut lines = Vec::new(rt.alloc());
    for _line in 0..4_000 {
        lines.extend_from_slice(b"show task t0\n")?;
    }
    let script = GateScript {
        lines: lines.as_slice(),
        no_commands: &[],
        is_whole: true,
        answers: 4_000,
        writes: 2,
    };
    assert_gate(&rt, script)
}
