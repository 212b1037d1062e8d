//! Interrupts that are made by themselves: what they answer, why they are refused, whom they put
//! on a core, and the way back over them.

use crate::asserts::assert_same;
use crate::files::read;
use rd_app::app::Program;
use rd_bytes::bytes::Bytes;
use rd_moves::interrupt::Interrupt;
use rd_moves::moves::Move;
use rd_notify::action::Action;
use rd_refusal::refusal::Refusal;
use rd_state::state::State;
use rd_timeline::timeline::Timeline;
use std::alloc::{AllocError, Global};
use std::fmt::Write;
use std::process::Abort;
use std::test::Fail;

// Whether all went well.
type CheckResult = Result<(), Fail>;

// An item is longer than a byte; the set has room for one handle, its member for two items.
const ONE_TASK: &str = concat!(
    r#"{"profile":2,"cores":1,"queues":[{"name":"q0","length":1,"item":2},"#,
    r#"{"name":"q1","length":2,"item":1}],"#,
    r#""sets":[{"name":"s0","length":1,"members":["q1"]}],"#,
    r#""tasks":[{"name":"t0","priority":1,"code":["recv q0 0","unpack r1","recv q0 0","#,
    r#""unpack r2","take 0 clear 0","end"]}]}"#,
);

// One of two cores gets idle.
const ON_TWO: &str = concat!(
    r#"{"profile":2,"cores":2,"queues":[{"name":"q0","length":1,"item":1}],"#,
    r#""tasks":[{"name":"t0","priority":1,"code":["jump 0"]},"#,
    r#"{"name":"t1","priority":1,"code":["recv q0 max","end"]}]}"#,
);

// An interrupt sends these bytes to a queue, and is answered so.
fn send(
    rt: &impl Abort,
    timeline: &mut Timeline,
    queue: usize,
    bytes: &[u8],
    wanted: Result<u32, Refusal>,
) {
    assert!(rt; queue < timeline.app().objects().queues().len());
    assert!(rt; bytes.len() <= 256);
    let bytes = Bytes::from_slice(bytes);
    assert_same(rt, timeline.isr(Interrupt::Send { queue, bytes }), wanted);
}

// An interrupt notifies entry 0 of task 0, and is answered so.
fn notify(
    rt: &impl Abort,
    timeline: &mut Timeline,
    value: u32,
    action: Action,
    wanted: Result<u32, Refusal>,
) {
    timeline.app().limits();
    let interrupt = Interrupt::Notify {
        task: 0,
        index: 0,
        value,
        action,
    };
    assert_same(rt, timeline.isr(interrupt), wanted);
}

// The task on the core does one instruction.
fn step(rt: &impl Abort, timeline: &mut Timeline, core: usize) {
    assert!(rt; core < timeline.app().cores());
    assert!(rt; timeline.go(&Move::Core { core }).is_ok());
}

// So many moves are done and so many undone.
fn assert_place(rt: &impl Abort, timeline: &Timeline, done: usize, undone: usize) {
    assert_same(rt, timeline.at(), done);
    assert_same(rt, timeline.left(), undone);
}

// The task on the core, or none.
fn assert_on_core(rt: &impl Abort, timeline: &Timeline, core: usize, task: Option<usize>) {
    let cores = timeline.target().cores();
    assert!(rt; core < cores.len());
    assert_same(rt, cores[core], task);
}

// That task is ready there, the first to run at 0.
fn assert_ready(rt: &impl Abort, timeline: &Timeline, index: usize, task: usize) {
    let ready = timeline.target().ready().as_slice();
    assert!(rt; index < ready.len());
    assert_same(rt, ready[index], task);
}

// So many tasks are ready.
fn assert_ready_count(rt: &impl Abort, timeline: &Timeline, count: usize) {
    assert_same(rt, timeline.target().ready().as_slice().len(), count);
}

// The register of task 0 has the value.
fn assert_register(rt: &impl Abort, timeline: &Timeline, register: usize, value: u32) {
    let state = timeline.target();
    assert!(rt; 0 < state.task_count());
    assert!(rt; register < 8);
    assert_same(rt, state.task(0).register(register), value);
}

// Each answers 1, and once more 0: into a full queue, into a member of a full set that is not full
// itself, and to an entry that has received. An action that never fails answers 1.
fn interrupts_answer(rt: &impl Abort, timeline: &mut Timeline) {
    send(rt, timeline, 0, &[0x2a], Ok(1));
    send(rt, timeline, 0, &[0x2b], Ok(0));
    send(rt, timeline, 1, &[1], Ok(1));
    send(rt, timeline, 1, &[2], Ok(0));
    notify(rt, timeline, 5, Action::Overwrite, Ok(1));
    notify(rt, timeline, 6, Action::WithoutOverwrite, Ok(0));
    notify(rt, timeline, 8, Action::SetBits, Ok(1));
    assert_place(rt, timeline, 7, 0);
}

// The first item was filled up with a zero byte; the next one is cut to two bytes. The value is 5
// with the bits of 8.
fn items_are_fitted(rt: &impl Abort, timeline: &mut Timeline) {
    step(rt, timeline, 0);
    assert!(rt; 0 < timeline.target().task_count());
    assert_same(rt, timeline.target().task(0).bytes().len(), 2);
    step(rt, timeline, 0);
    assert_register(rt, timeline, 1, 0x2a);
    send(rt, timeline, 0, &[1, 2, 3], Ok(1));
    step(rt, timeline, 0);
    step(rt, timeline, 0);
    assert_register(rt, timeline, 2, 0x201);
    step(rt, timeline, 0);
    assert_register(rt, timeline, 0, 13);
    assert_place(rt, timeline, 13, 0);
}

#[test]
fn answers(rt: HostRuntime) -> Result<(), Fail> {
    let alloc = rt.alloc();
    let mut timeline = Timeline::new(alloc, read(alloc, ONE_TASK)?, 20)?;
    interrupts_answer(&rt, &mut timeline);
    items_are_fitted(&rt, &mut timeline);
    timeline.close();
    Ok(())
}

// In profile 1 each is refused, and leaves the moves undone. Where the moves done are at their
// limit, that comes first.
fn refuses_in_profile_1(rt: &impl Abort, alloc: Global, timeline: &mut Timeline) -> CheckResult {
    let boot = timeline.target().copy(alloc)?;
    send(rt, timeline, 0, &[1], Err(Refusal::NoIsr));
    notify(rt, timeline, 1, Action::Increment, Err(Refusal::NoIsr));
    assert_place(rt, timeline, 0, 0);
    assert!(rt; timeline.target().same(&boot));
    assert_same(rt, timeline.go(&Move::Tick), Ok(1));
    send(rt, timeline, 0, &[1], Err(Refusal::MovesFull));
    notify(rt, timeline, 1, Action::Increment, Err(Refusal::MovesFull));
    assert_same(rt, timeline.back(1), Ok(0));
    send(rt, timeline, 0, &[1], Err(Refusal::NoIsr));
    assert_place(rt, timeline, 0, 1);
    assert!(rt; timeline.target().same(&boot));
    Ok(())
}

#[test]
fn none_in_profile_1(rt: HostRuntime) -> Result<(), Fail> {
    let alloc = rt.alloc();
    let mut timeline = Timeline::new(alloc, Program::builtin(alloc)?, 1)?;
    let result = refuses_in_profile_1(&rt, alloc, &mut timeline);
    timeline.close();
    result
}

// The limit comes before what the interrupt would do or answer.
fn refuses_at_the_limit(rt: &impl Abort, alloc: Global, timeline: &mut Timeline) -> CheckResult {
    send(rt, timeline, 0, &[1], Ok(1));
    let full = timeline.target().copy(alloc)?;
    send(rt, timeline, 0, &[1], Err(Refusal::MovesFull));
    send(rt, timeline, 1, &[1], Err(Refusal::MovesFull));
    notify(rt, timeline, 1, Action::Increment, Err(Refusal::MovesFull));
    assert_place(rt, timeline, 1, 0);
    assert!(rt; timeline.target().same(&full));
    Ok(())
}

#[test]
fn none_beyond_the_limit(rt: HostRuntime) -> Result<(), Fail> {
    let alloc = rt.alloc();
    let mut timeline = Timeline::new(alloc, read(alloc, ONE_TASK)?, 1)?;
    let result = refuses_at_the_limit(&rt, alloc, &mut timeline);
    timeline.close();
    result
}

// The task that is woken takes the idle core. The turn and the tick stay.
fn wakes_on_an_idle_core(rt: &impl Abort, timeline: &mut Timeline) {
    step(rt, timeline, 1);
    assert_on_core(rt, timeline, 0, Some(0));
    assert_on_core(rt, timeline, 1, None);
    send(rt, timeline, 0, &[1], Ok(1));
    assert_on_core(rt, timeline, 0, Some(0));
    assert_on_core(rt, timeline, 1, Some(1));
    assert_ready_count(rt, timeline, 0);
    assert_same(rt, timeline.target().turn(), 2);
    assert_same(rt, timeline.target().tick(), 0);
}

#[test]
fn an_idle_core(rt: HostRuntime) -> Result<(), Fail> {
    let alloc = rt.alloc();
    let mut timeline = Timeline::new(alloc, read(alloc, ON_TWO)?, 2)?;
    wakes_on_an_idle_core(&rt, &mut timeline);
    timeline.close();
    Ok(())
}

// Sixteen cores. Task 0 has the highest priority and task 1 the lowest, and each waits for an item;
// sixteen tasks between them wait for a tick.
fn file_on_sixteen(alloc: Global) -> Result<String, AllocError> {
    let mut text = String::new(alloc);
    text.push_str(r#"{"profile":2,"cores":16,"#)?;
    text.push_str(r#""queues":[{"name":"q0","length":1,"item":1},"#)?;
    text.push_str(r#"{"name":"q1","length":1,"item":1}],"tasks":["#)?;
    text.push_str(r#"{"name":"t0","priority":3,"code":["recv q0 max","end"]},"#)?;
    text.push_str(r#"{"name":"t1","priority":1,"code":["recv q1 max","end"]}"#)?;
    for number in 2..18 {
        let code = r#""priority":2,"code":["take 0 clear 1","jump 1"]"#;
        write!(text, r#",{{"name":"t{number}",{code}}}"#)?;
    }
    text.push_str("]}")?;
    Ok(text)
}

// Task 0 begins on core 0 and tasks 2 to 16 on those behind it. Task 17 takes core 0 once that is
// idle, and task 1 core 1. At the tick the sixteen wake in their order, so task 2 is on core 0, and
// task 17 on core 15.
fn all_are_busy(rt: &impl Abort, timeline: &mut Timeline) {
    step(rt, timeline, 0);
    assert_on_core(rt, timeline, 0, Some(17));
    step(rt, timeline, 1);
    assert_on_core(rt, timeline, 1, Some(1));
    for core in 0..16 {
        step(rt, timeline, core);
        assert_on_core(rt, timeline, core, None);
    }
    assert_same(rt, timeline.go(&Move::Tick), Ok(19));
    assert_are_on_cores(rt, timeline, 0);
    assert_ready_count(rt, timeline, 0);
}

// From that core on, each has the task whose number is two more.
fn assert_are_on_cores(rt: &impl Abort, timeline: &Timeline, first: usize) {
    for core in 0..16 {
        if core >= first {
            assert_on_core(rt, timeline, core, Some(core + 2));
        }
    }
}

// A task of lower priority that is woken is ready, and that is all. One of higher priority takes
// the lowest core of those that run the lowest priority, and who ran there is ready.
fn wakes_where_all_are_busy(rt: &impl Abort, timeline: &mut Timeline) {
    send(rt, timeline, 1, &[1], Ok(1));
    assert_are_on_cores(rt, timeline, 0);
    assert_ready_count(rt, timeline, 1);
    assert_ready(rt, timeline, 0, 1);
    send(rt, timeline, 0, &[1], Ok(1));
    assert_on_core(rt, timeline, 0, Some(0));
    assert_are_on_cores(rt, timeline, 1);
    assert_ready_count(rt, timeline, 2);
    assert_ready(rt, timeline, 0, 2);
    assert_ready(rt, timeline, 1, 1);
    assert_same(rt, timeline.target().turn(), 0);
}

#[test]
fn sixteen_busy_cores(rt: HostRuntime) -> Result<(), Fail> {
    let alloc = rt.alloc();
    let app = read(alloc, file_on_sixteen(alloc)?.as_str())?;
    let mut timeline = Timeline::new(alloc, app, 21)?;
    all_are_busy(&rt, &mut timeline);
    wakes_where_all_are_busy(&rt, &mut timeline);
    timeline.close();
    Ok(())
}

// The target is as it was.
fn assert_state(rt: &impl Abort, timeline: &Timeline, state: &State) {
    assert!(rt; timeline.target().same(state));
    assert!(rt; state.same(timeline.target()));
}

// An interrupt in the middle of moves: each way it leads to the same states, of which no two are
// the same. One that answers 0 leads from a state to the same.
fn goes_both_ways(rt: &impl Abort, alloc: Global, timeline: &mut Timeline) -> CheckResult {
    let boot = timeline.target().copy(alloc)?;
    step(rt, timeline, 1);
    let waiting = timeline.target().copy(alloc)?;
    send(rt, timeline, 0, &[7], Ok(1));
    let sent = timeline.target().copy(alloc)?;
    send(rt, timeline, 0, &[8], Ok(0));
    assert_state(rt, timeline, &sent);
    step(rt, timeline, 0);
    step(rt, timeline, 1);
    let received = timeline.target().copy(alloc)?;
    assert!(rt; !sent.same(&waiting));
    assert_same(rt, timeline.back(3), Ok(2));
    assert_state(rt, timeline, &sent);
    assert_same(rt, timeline.back(1), Ok(1));
    assert_state(rt, timeline, &waiting);
    runs_into_the_limit(rt, timeline, &waiting);
    assert_same(rt, timeline.redo(1), Ok(2));
    assert_state(rt, timeline, &sent);
    assert_same(rt, timeline.back(2), Ok(0));
    assert_state(rt, timeline, &boot);
    assert_same(rt, timeline.redo(5), Ok(5));
    assert_state(rt, timeline, &received);
    Ok(())
}

// A run that comes to the limit takes its moves back, and the interrupts are still undone.
fn runs_into_the_limit(rt: &impl Abort, timeline: &mut Timeline, waiting: &State) {
    assert_same(rt, timeline.forward(9), Err(Refusal::MovesFull));
    assert_place(rt, timeline, 1, 4);
    assert_state(rt, timeline, waiting);
}

#[test]
fn both_ways(rt: HostRuntime) -> Result<(), Fail> {
    let alloc = rt.alloc();
    let mut timeline = Timeline::new(alloc, read(alloc, ON_TWO)?, 6)?;
    let result = goes_both_ways(&rt, alloc, &mut timeline);
    timeline.close();
    result
}
