//! Runs of the parts: moves, the way back, and their limit; waiting lists.

ghost use Rattle.std.specs.Prelude.{◌<◌};
ghost use Rattle.rd_state.specs.Valid.{IsValid};

use crate::asserts::assert_same;
use rd_app::app::Program;
use rd_bytes::no_memory::NoMemory;
use rd_calls::play::play;
use rd_moves::moves::Move;
use rd_packed::packed::Packed;
use rd_queue::queue::Queue;
use rd_queue::waiting_list::WaitingList;
use rd_refusal::refusal::Refusal;
use rd_state::change::Change;
use rd_state::editing::Editing;
use rd_state::phase::Listed;
use rd_state::state::State;
use rd_timeline::timeline::Timeline;
use std::alloc::Global;
use std::process::Abort;
use std::test::Fail;

fn step_core_0(rt: &impl Abort, timeline: &mut Timeline) -> Result<usize, Refusal> {
    assert!(rt; timeline.app().cores() > 0);
    timeline.go(&Move::Core { core: 0 })
}

// A timeline of the built-in application, with a limit of so many moves.
fn timeline_with(alloc: Global, moves: usize) -> Result<Timeline, NoMemory> {
    Timeline::new(alloc, Program::builtin(alloc)?, moves)
}

// The state at boot comes back whole, and the moves can be redone.
fn goes_back_to_boot(rt: &impl Abort, alloc: Global, timeline: &mut Timeline) -> Result<(), Fail> {
    let boot = State::boot(alloc, timeline.app())?;
    assert!(rt; timeline.target().same(&boot));
    for at in 1..=4 {
        assert_same(rt, step_core_0(rt, timeline), Ok(at));
    }
    assert!(rt; !timeline.target().same(&boot));
    assert_same(rt, timeline.back(4), Ok(0));
    assert!(rt; timeline.target().same(&boot));
    assert_same(rt, timeline.left(), 4);
    assert_same(rt, timeline.back(1), Err(Refusal::TooFar { kept: 0 }));
    assert_same(rt, timeline.left(), 4);
    Ok(())
}

#[test]
fn undo_to_boot(rt: HostRuntime) -> Result<(), Fail> {
    let alloc = rt.alloc();
    let mut timeline = timeline_with(alloc, 100)?;
    let result = goes_back_to_boot(&rt, alloc, &mut timeline);
    timeline.close();
    result
}

// A refused move leaves the target, the moves done and the moves undone.
fn stops_at_the_limit(rt: &impl Abort, alloc: Global, timeline: &mut Timeline) -> Result<(), Fail> {
    for at in 1..=3 {
        assert_same(rt, step_core_0(rt, timeline), Ok(at));
    }
    let last = timeline.target().copy(alloc)?;
    assert_same(rt, step_core_0(rt, timeline), Err(Refusal::MovesFull));
    assert!(rt; timeline.target().same(&last));
    assert_same(rt, timeline.at(), 3);
    assert_same(rt, timeline.left(), 0);
    assert_same(rt, timeline.back(1), Ok(2));
    assert_same(rt, step_core_0(rt, timeline), Ok(3));
    assert_same(rt, timeline.left(), 0);
    Ok(())
}

#[test]
fn moves_full(rt: HostRuntime) -> Result<(), Fail> {
    let alloc = rt.alloc();
    let mut timeline = timeline_with(alloc, 3)?;
    let result = stops_at_the_limit(&rt, alloc, &mut timeline);
    timeline.close();
    result
}

// A move of core 0 is played, and its record is kept.
fn is_kept(alloc: Global, app: &Program, state: &mut State, log: &mut Packed) -> bool
    requires valid { IsValid app.now state.old }
    requires core { 0 < app.now.cores }
{
    match play(alloc, state, app, &Move::Core { core: 0 }) {
        Ok(undo) => match log.push(undo) {
            Ok(()) => true,
            Err(undo) => {
                undo.retire();
                false
            }
        },
        Err(_) => false,
    }
}

// With ample memory it is.
fn keeps_a_record(rt: &impl Abort, alloc: Global, timeline: &Timeline) -> Result<(), Fail> {
    timeline.by_invariant();
    let app = timeline.app();
    assert!(rt; app.cores() > 0);
    let mut state = timeline.target().copy(alloc)?;
    let mut log = Packed::new(alloc);
    let kept = is_kept(alloc, app, &mut state, &mut log);
    let records = log.len();
    log.retire();
    assert!(rt; kept);
    assert_same(rt, records, 1);
    Ok(())
}

#[test]
fn always_out_of_memory(rt: HostRuntime) -> Result<(), Fail> {
    let alloc = rt.alloc();
    let timeline = timeline_with(alloc, 1)?;
    let result = keeps_a_record(&rt, alloc, &timeline);
    timeline.close();
    result
}

#[test]
fn waiting_lists(rt: HostRuntime) -> Result<(), Fail> {
    let alloc = rt.alloc();
    let mut queue = Queue::new(alloc, 1, 1, 8, 0)?;
    queue.insert(WaitingList::Receiving, 0, 4);
    queue.insert(WaitingList::Receiving, 0, 7);
    let receiving = queue.waiting(WaitingList::Receiving).as_slice();
    assert_same(&rt, receiving, [7, 4].as_slice());
    assert!(rt; queue.waiting(WaitingList::Sending).as_slice().is_empty());
    assert_same(&rt, queue.remove(WaitingList::Receiving, 1), 4);
    let receiving = queue.waiting(WaitingList::Receiving).as_slice();
    assert_same(&rt, receiving, [7].as_slice());
    Ok(())
}

// A task is put to wait at a queue. Only that list changes.
fn puts_to_wait(rt: &impl Abort, editing: &mut Editing) -> Result<(), Fail> {
    let queue = 0;
    let list = WaitingList::Sending;
    let place = Listed::Queue { queue, list };
    let list = WaitingList::Receiving;
    let other = Listed::Queue { queue, list };
    assert!(rt; editing.state().queue_count() > 0);
    assert!(rt; editing.state().task_count() > 0);
    assert!(rt; editing.state().waiting(place).is_empty());
    let (index, task) = (0, 0);
    editing.insert_waiting(place, index, task)?;
    assert!(rt; editing.state().queue_count() > 0);
    assert_same(rt, editing.state().waiting(place), [0].as_slice());
    assert!(rt; editing.state().waiting(other).is_empty());
    Ok(())
}

// The way back leaves the state from before.
fn undoes_waiting(rt: &impl Abort, alloc: Global, boot: &State) -> Result<(), Fail> {
    let mut editing = Editing::new(alloc, boot.copy(alloc)?);
    let result = puts_to_wait(rt, &mut editing);
    let differs = !editing.state().same(boot);
    let mut state = State::hollow(alloc);
    editing.roll_back();
    editing.end(&mut state).retire();
    result?;
    assert!(rt; differs);
    assert!(rt; state.same(boot));
    Ok(())
}

#[test]
fn waiting_is_undone(rt: HostRuntime) -> Result<(), Fail> {
    let alloc = rt.alloc();
    let timeline = timeline_with(alloc, 1)?;
    let result = undoes_waiting(&rt, alloc, timeline.target());
    timeline.close();
    result
}
