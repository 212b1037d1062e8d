//! Records of moves: how many changes they have, and their weight.

ghost use Rattle.std.specs.Prelude.{◌≡◌, ◌<◌, length};
ghost use Rattle.rd_moves.specs.Interrupts.{IsInterruptOf};
ghost use Rattle.rd_moves.specs.Moves.{IsMoveOf};
ghost use Rattle.rd_state.specs.Valid.{IsValid};

use crate::asserts::assert_same;
use crate::files::read;
use rd_app::app::Program;
use rd_bytes::bytes::Bytes;
use rd_calls::play::play;
use rd_moves::carried::{Carried, Lent};
use rd_moves::interrupt::Interrupt;
use rd_moves::moves::Move;
use rd_notify::action::Action;
use rd_state::state::State;
use rd_timeline::timeline::Timeline;
use std::alloc::{AllocError, Global};
use std::fmt::Write;
use std::process::Abort;
use std::test::Fail;

// Whether all went well.
type Passed = Result<(), Fail>;

// A queue with room for two items of three bytes, and a task with 256 bytes of data.
fn file(alloc: Global) -> Result<String, AllocError> {
    let head = r#""profile":1,"cores":1,"queues":[{"name":"q0","length":2,"item":3}]"#;
    let data = format!(in alloc; "data {:0>512}", "")?;
    let calls = r#""send q0 0","recv q0 0","send q0 0","send q0 0","qreset q0""#;
    let told = r#""notify t0 0 5 set","take 0 clear 0","end""#;
    let task = format!(in alloc;
        r#"{{"name":"t0","priority":1,"code":["{data}",{calls},{told}]}}"#
    )?;
    format!(in alloc; r#"{{{head},"tasks":[{task}]}}"#)
}

// The move is made, and its record has so many changes and that weight.
#[tactic(auto, using(crate::proofs::RecordLaws::dropped_few))]
fn weighs(
    rt: &impl Abort,
    alloc: Global,
    app: &Program,
    state: &mut State,
    action: &Move<Lent<'_>>,
    want: (usize, usize),
)
    requires valid { IsValid app.now state.old }
    requires named { IsMoveOf app.now action.now }
    ensures { IsValid app.now state.new }
{
    app.limits();
    match play(alloc, state, app, action) {
        Ok(undo) => {
            let measured = (undo.len(), undo.weight());
            undo.retire();
            assert_same(rt, measured, want);
        }
        Err(_) => assert!(rt; false),
    }
}

// How many changes the record of each move has, and its weight. The bytes that a change carries are
// those that were there before: the data that is replaced, the item that is taken, and the items
// that a reset takes out. At most a record weighs 4 * tasks + 6 * cores + 528, here 538, and the
// bytes of items that a reset takes out.
const WEIGHTS: [(usize, usize); 9] = [
    // data: the data of no bytes, the instruction, the turn
    (3, 3),
    // send: the item, r0, the instruction
    (3, 3),
    // recv: the data of 256 bytes, the item of 3, the instruction; r0 is 1 already
    (3, 257 + 4 + 1),
    // send, twice: the item, the instruction
    (2, 2),
    (2, 2),
    // qreset: the two items, the instruction
    (2, 7 + 1),
    // notify: the entry, the instruction
    (2, 2),
    // take: the entry, r0, the instruction
    (3, 3),
    // end: the phase, the core
    (2, 2),
];

fn weighs_instrs(rt: &impl Abort, alloc: Global, app: &Program, state: &mut State)
    requires valid { IsValid app.now state.old }
    requires core { app.now.cores ≡ 1 }
    ensures { IsValid app.now state.new }
{
    for want in WEIGHTS {
        weighs(rt, alloc, app, state, &Move::Core { core: 0 }, want);
    }
}

// An application of profile 2 on sixteen cores, each with a task that waits for a tick.
fn file_on_sixteen(alloc: Global) -> Result<String, AllocError> {
    let mut text = String::new(alloc);
    text.push_str(r#"{"profile":2,"cores":16,"tasks":["#)?;
    for number in 0..16 {
        let comma = if number == 0 { "" } else { "," };
        let code = r#""priority":1,"code":["take 0 clear 1","end"]"#;
        write!(text, r#"{comma}{{"name":"t{number}",{code}}}"#)?;
    }
    text.push_str("]}")?;
    Ok(text)
}

fn weighs_on_sixteen(rt: &impl Abort, alloc: Global, app: &Program, state: &mut State)
    requires valid { IsValid app.now state.old }
    requires cores { app.now.cores ≡ 16 }
    ensures { IsValid app.now state.new }
{
    for core in 0..16 {
        // take: the entry, the phase, the core, the turn
        weighs(rt, alloc, app, state, &Move::Core { core }, (4, 4));
    }
    // the tick, the turn, and of each task the phase, its place in the ready list, twice, and the
    // core
    weighs(rt, alloc, app, state, &Move::Tick, (66, 66));
}

// The moves are played on a copy of the target, and the timeline keeps none of them.
fn weighs_moves(rt: &impl Abort, alloc: Global, timeline: &Timeline) -> Passed {
    timeline.by_invariant();
    let app = timeline.app();
    assert!(rt; app.cores() == 1);
    let mut state = timeline.target().copy(alloc)?;
    weighs_instrs(rt, alloc, app, &mut state);
    // the tick, the turn
    weighs(rt, alloc, app, &mut state, &Move::Tick, (2, 2));
    Ok(())
}

// The same on sixteen cores.
fn weighs_moves_on_sixteen(rt: &impl Abort, alloc: Global, timeline: &Timeline) -> Passed {
    timeline.by_invariant();
    let app = timeline.app();
    assert!(rt; app.cores() == 16);
    let mut state = timeline.target().copy(alloc)?;
    weighs_on_sixteen(rt, alloc, app, &mut state);
    Ok(())
}

// All tasks wait, and a tick wakes them: the timeline keeps each record, and goes back by them.
fn keeps_moves_on_sixteen(rt: &impl Abort, alloc: Global, timeline: &mut Timeline) -> Passed {
    let boot = timeline.target().copy(alloc)?;
    for core in 0..16 {
        assert!(rt; core < timeline.app().cores());
        assert!(rt; timeline.go(&Move::Core { core }).is_ok());
    }
    let waiting = timeline.target().copy(alloc)?;
    assert_same(rt, timeline.go(&Move::Tick), Ok(17));
    assert_same(rt, timeline.kept(), 17);
    assert!(rt; !timeline.target().same(&waiting));
    assert_same(rt, timeline.back(1), Ok(16));
    assert!(rt; timeline.target().same(&waiting));
    assert_same(rt, timeline.back(16), Ok(0));
    assert!(rt; timeline.target().same(&boot));
    Ok(())
}

// One task waits for an item, and another goes on for ever.
const INTERRUPTED: &str = concat!(
    r#"{"profile":2,"cores":1,"queues":[{"name":"q0","length":1,"item":3}],"#,
    r#""tasks":[{"name":"t0","priority":2,"code":["recv q0 max","end"]},"#,
    r#"{"name":"t1","priority":1,"code":["jump 0"]}]}"#,
);

// The interrupt is made, and its record has so many changes and that weight.
fn interrupt_weighs(
    rt: &impl Abort,
    alloc: Global,
    app: &Program,
    state: &mut State,
    interrupt: Interrupt,
    want: (usize, usize),
)
    requires valid { IsValid app.now state.old }
    requires named { IsInterruptOf app.now interrupt }
    ensures { IsValid app.now state.new }
{
    let carried = Carried::Interrupt { interrupt };
    let action = Move::Carried {
        carried: Lent::new(&carried),
    };
    weighs(rt, alloc, app, state, &action, want);
}

// An item is sent by an interrupt to the first queue.
fn send_weighs(
    rt: &impl Abort,
    alloc: Global,
    app: &Program,
    state: &mut State,
    want: (usize, usize),
)
    requires valid { IsValid app.now state.old }
    requires queue { 0 < length app.now.objects.queues }
    ensures { IsValid app.now state.new }
{
    let bytes = Bytes::from_slice(&[1, 2, 3]);
    let interrupt = Interrupt::Send { queue: 0, bytes };
    interrupt_weighs(rt, alloc, app, state, interrupt, want);
}

// The second task is notified by an interrupt.
fn notify_weighs(
    rt: &impl Abort,
    alloc: Global,
    app: &Program,
    state: &mut State,
    action: Action,
    want: (usize, usize),
)
    requires valid { IsValid app.now state.old }
    requires task { 1 < length app.now.tasks }
    ensures { IsValid app.now state.new }
{
    app.limits();
    let interrupt = Interrupt::Notify {
        task: 1,
        index: 0,
        value: 5,
        action,
    };
    interrupt_weighs(rt, alloc, app, state, interrupt, want);
}

// At most a record of an interrupt weighs 3 * cores + 5, here 8.
fn weighs_interrupts(rt: &impl Abort, alloc: Global, app: &Program, state: &mut State)
    requires valid { IsValid app.now state.old }
    requires core { app.now.cores ≡ 1 }
    requires queue { 0 < length app.now.objects.queues }
    requires task { 1 < length app.now.tasks }
{
    // recv: the list, the phase, the core, the turn, and of t1 its place in the ready list and the
    // core
    weighs(rt, alloc, app, state, &Move::Core { core: 0 }, (6, 6));
    // the item, and of t0 the list, the phase, its place in the ready list, twice, and the core;
    // t1's place in the ready list
    send_weighs(rt, alloc, app, state, (7, 7));
    // the queue is full: nothing
    send_weighs(rt, alloc, app, state, (0, 0));
    // the entry; then it has received: nothing
    notify_weighs(rt, alloc, app, state, Action::Overwrite, (1, 1));
    notify_weighs(rt, alloc, app, state, Action::WithoutOverwrite, (0, 0));
}

// The moves are played on a copy of the target.
fn weighs_moves_and_interrupts(rt: &impl Abort, alloc: Global, timeline: &Timeline) -> Passed {
    timeline.by_invariant();
    let app = timeline.app();
    assert!(rt; app.cores() == 1);
    assert!(rt; 0 < app.objects().queues().len());
    assert!(rt; 1 < app.priorities().len());
    let mut state = timeline.target().copy(alloc)?;
    weighs_interrupts(rt, alloc, app, &mut state);
    Ok(())
}

#[test]
fn weights_of_interrupts(rt: HostRuntime) -> Result<(), Fail> {
    let alloc = rt.alloc();
    let timeline = Timeline::new(alloc, read(alloc, INTERRUPTED)?, 1)?;
    let result = weighs_moves_and_interrupts(&rt, alloc, &timeline);
    timeline.close();
    result
}

#[test]
fn weights_on_sixteen(rt: HostRuntime) -> Result<(), Fail> {
    let alloc = rt.alloc();
    let timeline = Timeline::new(alloc, read(alloc, file_on_sixteen(alloc)?.as_str())?, 1)?;
    let result = weighs_moves_on_sixteen(&rt, alloc, &timeline);
    timeline.close();
    result
}

#[test]
fn kept_on_sixteen(rt: HostRuntime) -> Result<(), Fail> {
    let alloc = rt.alloc();
    let mut timeline = Timeline::new(alloc, read(alloc, file_on_sixteen(alloc)?.as_str())?, 17)?;
    let result = keeps_moves_on_sixteen(&rt, alloc, &mut timeline);
    timeline.close();
    result
}

#[test]
fn weights(rt: HostRuntime) -> Result<(), Fail> {
    let alloc = rt.alloc();
    let timeline = Timeline::new(alloc, read(alloc, file(alloc)?.as_str())?, 1)?;
    let result = weighs_moves(&rt, alloc, &timeline);
    timeline.close();
    result
}
