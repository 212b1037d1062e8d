//! Event groups in a state: their changes as bytes and the way back, and copies of states in which
//! tasks wait at one.

ghost use Rattle.std.specs.Prelude.{◌<◌, length, OnOk};
ghost use Rattle.rd_state.specs.EditingView.{SameShape};

use crate::asserts::assert_same;
use crate::files::read;
use rd_app::app::Program;
use rd_bytes::no_memory::NoMemory;
use rd_group::group_change::GroupChange;
use rd_group::wish::{OnMet, WaitFor, Wish};
use rd_moves::moves::Move;
use rd_state::editing::Editing;
use rd_state::objects::ObjectChange;
use rd_state::phase::Listed;
use rd_state::state::State;
use rd_timeline::timeline::Timeline;
use std::alloc::Global;
use std::process::Abort;
use std::test::Fail;

// Two tasks wait for bits of the group, and a third sets them.
const FILE: &str = concat!(
    r#"{"profile":1,"cores":3,"groups":[{"name":"g0"}],"#,
    r#""tasks":[{"name":"t0","priority":1,"code":["gwait g0 1 any clear max","end"]},"#,
    r#"{"name":"t1","priority":1,"code":["gwait g0 3 all clear max","end"]},"#,
    r#"{"name":"t2","priority":1,"code":["gset g0 3","end"]}]}"#,
);

// The group gets bits.
fn sets_bits(editing: &mut Editing, bits: u32) -> Result<(), NoMemory>
    requires group { 0 < length editing.old.now.objects.groups }
    requires bits { bits < 16777216 }
    ensures { OnOk result (SameShape editing.old.now editing.new.now) }
{
    let change = GroupChange::SetBits { bits };
    let change = ObjectChange::Group { group: 0, change };
    editing.change_object(change)
}

// Task 1 waits for bits of the group, which gets some, and others, and then the task leaves it.
fn changes_a_group(rt: &impl Abort, editing: &mut Editing) -> Result<(), NoMemory>
    requires group { 0 < length editing.old.now.objects.groups }
    requires tasks { 1 < length editing.old.now.tasks }
{
    let wish = Wish {
        bits: 3,
        wait_for: WaitFor::All,
        on_met: OnMet::Clear,
    };
    assert!(rt; editing.state().group(0).waiting().as_slice().is_empty());
    editing.append_waiting(0, 1, wish)?;
    sets_bits(editing, 0x10203)?;
    sets_bits(editing, 5)?;
    assert!(rt; !editing.state().group(0).waiting().as_slice().is_empty());
    editing.delete_waiting(Listed::Group { group: 0 }, 0)
}

// What the changes leave behind in the record: what undoes each of them, its tag last.
const BYTES: [u8; 24] = [
    // the task at index 0 leaves group 0
    0, 0, 14, //
    // group 0 has no bits
    0, 0, 0, 0, 0, 43, //
    // group 0 has the bits 0x10203
    0, 3, 2, 1, 0, 43, //
    // task 1 is put at index 0 of group 0, to wait for all of the bits 3, which are cleared then
    0, 0, 1, 3, 0, 0, 0, 3, 13,
];

// The record of the changes has these bytes.
fn records_changes(rt: &impl Abort, alloc: Global, boot: &State) -> Result<(), Fail>
    requires group { 0 < length boot.now.objects.groups }
    requires tasks { 1 < length boot.now.tasks }
{
    let mut editing = Editing::new(alloc, boot.copy(alloc)?);
    let result = changes_a_group(rt, &mut editing);
    let mut state = State::hollow(alloc);
    let undo = editing.end(&mut state);
    let is_same = undo.bytes() == BYTES.as_slice();
    undo.retire();
    result?;
    assert!(rt; is_same);
    Ok(())
}

// The way back leaves the state from before.
fn undoes_changes(rt: &impl Abort, alloc: Global, boot: &State) -> Result<(), Fail>
    requires group { 0 < length boot.now.objects.groups }
    requires tasks { 1 < length boot.now.tasks }
{
    let mut editing = Editing::new(alloc, boot.copy(alloc)?);
    let result = changes_a_group(rt, &mut editing);
    let differs = !editing.state().same(boot);
    let mut state = State::hollow(alloc);
    editing.roll_back();
    editing.end(&mut state).retire();
    result?;
    assert!(rt; differs);
    assert!(rt; state.same(boot));
    Ok(())
}

#[test]
fn changes_are_undone(rt: HostRuntime) -> Result<(), Fail> {
    let alloc = rt.alloc();
    let app = read(alloc, FILE)?;
    let boot = State::boot(alloc, &app)?;
    app.limits();
    assert!(&rt; app.objects().groups().len() == 1);
    assert!(&rt; boot.task_count() == 3);
    records_changes(&rt, alloc, &boot)?;
    undoes_changes(&rt, alloc, &boot)
}

// A copy of the target, which is the same.
fn copy_of(rt: &impl Abort, alloc: Global, timeline: &Timeline) -> Result<State, Fail> {
    let copy = timeline.target().copy(alloc)?;
    assert!(rt; copy.same(timeline.target()));
    assert!(rt; timeline.target().same(&copy));
    Ok(copy)
}

// The task on the core makes its call.
fn step(rt: &impl Abort, timeline: &mut Timeline, core: usize) {
    assert!(rt; core < timeline.app().cores());
    assert!(rt; timeline.go(&Move::Core { core }).is_ok());
}

// The state in which two wait is the same again once they were given bits and the move is taken
// back, and not before.
fn compares_states(rt: &impl Abort, alloc: Global, timeline: &mut Timeline) -> Result<(), Fail> {
    step(rt, timeline, 0);
    let one = copy_of(rt, alloc, timeline)?;
    step(rt, timeline, 1);
    let two = copy_of(rt, alloc, timeline)?;
    assert!(rt; !one.same(&two));
    step(rt, timeline, 2);
    let last = copy_of(rt, alloc, timeline)?;
    assert!(rt; !two.same(&last));
    assert_same(rt, timeline.back(1), Ok(2));
    assert!(rt; two.same(timeline.target()));
    assert_same(rt, timeline.back(1), Ok(1));
    assert!(rt; one.same(timeline.target()));
    Ok(())
}

#[test]
fn waiters_are_copied(rt: HostRuntime) -> Result<(), Fail> {
    let alloc = rt.alloc();
    let mut timeline = Timeline::new(alloc, read(alloc, FILE)?, 3)?;
    let result = compares_states(&rt, alloc, &mut timeline);
    timeline.close();
    result
}
