//! States at the limits, copied and compared: 8 cores of profile 1 and 16 of profile 2, 32 tasks,
//! 32 queues with room for 64 items of 64 bytes, 32 queue sets with room for 2,048 handles, 4
//! notification entries, 256 bytes of data, 256 instructions, names of 16 characters, and the last
//! ticks. `ci/limits` sees the same applications through their views.
//!
//! The number of a task tells its priority, task 0 the first: at boot the first tasks are on the
//! cores of their numbers. Task 7 stays on core 7. It fills the queues, all of them members of set
//! 31, with 64 rounds of one item each, whose first bytes are 0, 1, 2, 3, 0 and so on, and sees by
//! an answer of 0 that they are full: after 16 times its 134 instructions, and 133 more. Then it
//! takes handles. Each other task waits for a handle of set 30, for one tick, counts queue 31, and
//! waits for space in it.

use crate::asserts::assert_same;
use crate::files::read;
use rd_moves::moves::Move;
use rd_state::state::State;
use rd_timeline::timeline::Timeline;
use std::alloc::{AllocError, Global};
use std::fmt::Write;
use std::process::Abort;
use std::test::Fail;

// Whether all went well within the limits.
type Within = Result<(), Fail>;

// So many moves of core 7 fill the queues.
const FILLING: usize = 2277;

// What stands before a member of a list: a comma, but nothing before the first.
fn comma(number: usize) -> &'static str {
    if number == 0 { "" } else { "," }
}

// An instruction with 256 bytes of data that count on from the first. After ff comes 00.
fn add_data(text: &mut String, first: u8) -> Result<(), AllocError> {
    text.push_str("\"data ")?;
    let mut byte = first;
    for _ in 0..256 {
        write!(text, "{byte:02x}")?;
        byte = byte.wrapping_add(1);
    }
    text.push_str("\",")
}

fn add_queues(text: &mut String) -> Result<(), AllocError> {
    for number in 0..32 {
        let comma = comma(number);
        let name = r#"{"name":"queue_________"#;
        write!(text, r#"{comma}{name}{number:02}","length":64,"item":64}}"#)?;
    }
    Ok(())
}

// All queues are members of the last set.
fn add_queue_sets(text: &mut String) -> Result<(), AllocError> {
    for number in 0..31 {
        let name = r#"{"name":"set___________"#;
        write!(text, r#"{name}{number:02}","length":2048,"members":[]}},"#)?;
    }
    text.push_str(r#"{"name":"set___________31","length":2048,"members":["#)?;
    for number in 0..32 {
        write!(text, r#"{}"queue_________{number:02}""#, comma(number))?;
    }
    text.push_str("]}")
}

// The script of task 7: 256 instructions.
fn add_filling(text: &mut String) -> Result<(), AllocError> {
    for first in 0..4 {
        add_data(text, first)?;
        for number in 0..32 {
            write!(text, r#""send queue_________{number:02} 0","#)?;
        }
    }
    text.push_str(r#""jumpz r0 253","jump 0","#)?;
    for _ in 134..253 {
        text.push_str(r#""end","#)?;
    }
    text.push_str(r#""select set___________31 0","set r0 0","jump 253""#)
}

// The script of each other task.
fn add_waiting(text: &mut String) -> Result<(), AllocError> {
    add_data(text, 128)?;
    text.push_str(r#""select set___________30 1","count queue_________31","move r7 r0","#)?;
    text.push_str(r#""send queue_________31 max","end""#)
}

fn add_tasks(text: &mut String) -> Result<(), AllocError> {
    for number in 0..32 {
        let priority = 31 - number;
        let name = r#"{"name":"task__________"#;
        let comma = comma(number);
        write!(
            text,
            r#"{comma}{name}{number:02}","priority":{priority},"code":["#
        )?;
        if number == 7 {
            add_filling(text)?;
        } else {
            add_waiting(text)?;
        }
        text.push_str("]}")?;
    }
    Ok(())
}

// The file of an application of that profile, on so many cores.
fn file(alloc: Global, profile: usize, cores: usize) -> Result<String, AllocError> {
    let mut text = String::new(alloc);
    write!(text, r#"{{"profile":{profile},"cores":{cores},"notes":4,"#)?;
    text.push_str(r#""tick":4294967294,"queues":["#)?;
    add_queues(&mut text)?;
    text.push_str(r#"],"sets":["#)?;
    add_queue_sets(&mut text)?;
    text.push_str(r#"],"tasks":["#)?;
    add_tasks(&mut text)?;
    text.push_str("]}")?;
    Ok(text)
}

// How many tasks begin to wait on that one of so many cores, one after the other: those that no
// other core has on core 0, none on core 7, and one on each other.
fn waiting_on(core: usize, cores: usize) -> usize {
    if core == 0 {
        33_usize.saturating_sub(cores)
    } else if core == 7 {
        0
    } else {
        1
    }
}

// The cores whose moves let each task but that of core 7 do so many instructions, where it waits at
// the last of these.
fn all_wait(alloc: Global, cores: usize, each: usize) -> Result<Vec<usize>, AllocError> {
    let mut moving = Vec::new(alloc);
    for core in 0..cores {
        for _ in 0..waiting_on(core, cores) {
            let moves = vec![in alloc; core; each]?;
            moving.extend_from_slice(moves.as_slice())?;
        }
    }
    Ok(moving)
}

// Makes moves of these cores.
fn go(rt: &impl Abort, timeline: &mut Timeline, cores: &[usize]) {
    for core in cores {
        let core = *core;
        assert!(rt; core < timeline.app().cores());
        assert!(rt; timeline.go(&Move::Core { core }).is_ok());
    }
}

// A copy of the target, which is the same.
fn copy_of(rt: &impl Abort, alloc: Global, timeline: &Timeline) -> Result<State, Fail> {
    let copy = timeline.target().copy(alloc)?;
    assert!(rt; copy.same(timeline.target()));
    assert!(rt; timeline.target().same(&copy));
    Ok(copy)
}

// The states are the same once the moves between them are taken back, and not before: a handle
// taken, and r0 as it was, is the only difference.
fn compares_full_queue_sets(rt: &impl Abort, alloc: Global, timeline: &mut Timeline) -> Within {
    let full = copy_of(rt, alloc, timeline)?;
    go(rt, timeline, &[7, 7, 7]);
    assert!(rt; !full.same(timeline.target()));
    assert!(rt; !timeline.target().same(&full));
    copy_of(rt, alloc, timeline)?;
    assert!(rt; timeline.back(3).is_ok());
    assert!(rt; full.same(timeline.target()));
    Ok(())
}

// Makes the moves of these cores, and copies what they leave.
fn go_and_copy(rt: &impl Abort, alloc: Global, timeline: &mut Timeline, cores: &[usize]) -> Within {
    go(rt, timeline, cores);
    copy_of(rt, alloc, timeline)?;
    Ok(())
}

// All moves: the others wait, the queues fill, handles are taken and put back, and after the last
// tick the others wait for space.
fn make_all_moves(rt: &impl Abort, alloc: Global, timeline: &mut Timeline) -> Within {
    let cores = timeline.app().cores();
    go_and_copy(rt, alloc, timeline, all_wait(alloc, cores, 2)?.as_slice())?;
    go(rt, timeline, vec![in alloc; 7; FILLING]?.as_slice());
    compares_full_queue_sets(rt, alloc, timeline)?;
    assert_same(rt, timeline.go(&Move::Tick), Ok(2340));
    copy_of(rt, alloc, timeline)?;
    go_and_copy(rt, alloc, timeline, all_wait(alloc, cores, 4)?.as_slice())
}

fn compares_states(rt: &impl Abort, alloc: Global, timeline: &mut Timeline) -> Within {
    let boot = State::boot(alloc, timeline.app())?;
    assert!(rt; timeline.target().same(&boot));
    let boot = copy_of(rt, alloc, timeline)?;
    make_all_moves(rt, alloc, timeline)?;
    assert_same(rt, timeline.back(2464), Ok(0));
    assert!(rt; timeline.target().same(&boot));
    Ok(())
}

#[test]
fn states(rt: HostRuntime) -> Result<(), Fail> {
    let alloc = rt.alloc();
    for (profile, cores) in [(1, 8), (2, 16)] {
        let app = read(alloc, file(alloc, profile, cores)?.as_str())?;
        let mut timeline = Timeline::new(alloc, app, 2464)?;
        let result = compares_states(&rt, alloc, &mut timeline);
        timeline.close();
        result?;
    }
    Ok(())
}
