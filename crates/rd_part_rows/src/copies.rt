//! The last states of runs, copied and compared: of tasks with queues and sets, stream and message
//! buffers, notifications and event groups.

use crate::asserts::assert_same;
use crate::files::read;
use rd_moves::moves::Move;
use rd_state::state::State;
use rd_timeline::timeline::Timeline;
use std::alloc::Global;
use std::process::Abort;
use std::test::Fail;

// A run: its name, the application, and which cores move, in order, up to the last state of the
// worked run of that name.
#[derive(Clone, Copy)]
struct WorkedRun {
    name: &'static str,
    app: &'static str,
    cores: &'static [usize],
}

// A reader that is notified, and a write behind that.
const FOREIGN_NOTIFICATION: &str = concat!(
    r#"{"profile":1,"cores":2,"streams":[{"name":"b0","size":8,"trigger":0}],"#,
    r#""tasks":[{"name":"t0","priority":1,"code":["sread b0 8 max","end"]},"#,
    r#"{"name":"t1","priority":1,"code":["notify t0 0 0 none","data 010203","#,
    r#""swrite b0 0","end"]}]}"#,
);

const RUNS: [WorkedRun; 11] = [
    WorkedRun {
        name: "undo_to_boot",
        app: concat!(
            r#"{"profile":1,"cores":1,"queues":[{"name":"q0","length":2,"item":1}],"#,
            r#""tasks":[{"name":"t0","priority":1,"code":["data 41","send q0 0","#,
            r#""send q0 0","send q0 0","end"]}]}"#,
        ),
        cores: &[0, 0, 0, 0],
    },
    WorkedRun {
        name: "overwrite_in_a_set",
        app: concat!(
            r#"{"profile":1,"cores":1,"queues":[{"name":"q0","length":1,"item":1}],"#,
            r#""sets":[{"name":"s0","length":1,"members":["q0"]}],"#,
            r#""tasks":[{"name":"t0","priority":1,"code":["data 07","over q0","data 08","#,
            r#""over q0","select s0 0","recv q0 0","select s0 0","end"]}]}"#,
        ),
        cores: &[0, 0, 0, 0, 0, 0, 0],
    },
    WorkedRun {
        name: "full_set",
        app: concat!(
            r#"{"profile":1,"cores":1,"queues":[{"name":"q0","length":2,"item":1}],"#,
            r#""sets":[{"name":"s0","length":1,"members":["q0"]}],"#,
            r#""tasks":[{"name":"t0","priority":1,"code":["send q0 0","send q0 0","end"]}]}"#,
        ),
        cores: &[0, 0],
    },
    WorkedRun {
        name: "foreign_notification_ends_a_read",
        app: FOREIGN_NOTIFICATION,
        cores: &[0, 1, 1, 1, 0],
    },
    WorkedRun {
        name: "foreign_notification_ends_a_read, where it runs before the write",
        app: FOREIGN_NOTIFICATION,
        cores: &[0, 1, 0],
    },
    WorkedRun {
        name: "trigger_level",
        app: concat!(
            r#"{"profile":1,"cores":1,"streams":[{"name":"b0","size":8,"trigger":4}],"#,
            r#""tasks":[{"name":"t0","priority":2,"code":["sread b0 10 max","end"]},"#,
            r#"{"name":"t1","priority":1,"code":["data 010203","swrite b0 0","data 04","#,
            r#""swrite b0 0","end"]}]}"#,
        ),
        cores: &[0, 0, 0, 0, 0, 0],
    },
    WorkedRun {
        name: "message_too_long_for_its_reader",
        app: concat!(
            r#"{"profile":1,"cores":1,"messages":[{"name":"m0","size":10}],"#,
            r#""tasks":[{"name":"t0","priority":1,"code":["data 61626364656667","#,
            r#""mwrite m0 max","data 616263646566","mwrite m0 max","mread m0 5 0","#,
            r#""mread m0 6 0","end"]}]}"#,
        ),
        cores: &[0, 0, 0, 0, 0, 0],
    },
    WorkedRun {
        name: "one_set_wakes_two",
        app: concat!(
            r#"{"profile":1,"cores":3,"groups":[{"name":"g0"}],"#,
            r#""tasks":[{"name":"t0","priority":1,"code":["gwait g0 1 any clear max","end"]},"#,
            r#"{"name":"t1","priority":1,"code":["gwait g0 3 all clear max","end"]},"#,
            r#"{"name":"t2","priority":1,"code":["gset g0 3","end"]}]}"#,
        ),
        cores: &[0, 1, 2],
    },
    WorkedRun {
        name: "one_set_wakes_fifteen_on_sixteen_cores",
        app: concat!(
            r#"{"profile":2,"cores":16,"groups":[{"name":"g0"}],"tasks":["#,
            r#"{"name":"t0","priority":1,"code":["gwait g0 1 any keep max","end"]},"#,
            r#"{"name":"t1","priority":1,"code":["gwait g0 1 any keep max","end"]},"#,
            r#"{"name":"t2","priority":1,"code":["gwait g0 1 any keep max","end"]},"#,
            r#"{"name":"t3","priority":1,"code":["gwait g0 1 any keep max","end"]},"#,
            r#"{"name":"t4","priority":1,"code":["gwait g0 1 any keep max","end"]},"#,
            r#"{"name":"t5","priority":1,"code":["gwait g0 1 any keep max","end"]},"#,
            r#"{"name":"t6","priority":1,"code":["gwait g0 1 any keep max","end"]},"#,
            r#"{"name":"t7","priority":1,"code":["gwait g0 1 any keep max","end"]},"#,
            r#"{"name":"t8","priority":1,"code":["gwait g0 1 any keep max","end"]},"#,
            r#"{"name":"t9","priority":1,"code":["gwait g0 1 any keep max","end"]},"#,
            r#"{"name":"t10","priority":1,"code":["gwait g0 1 any keep max","end"]},"#,
            r#"{"name":"t11","priority":1,"code":["gwait g0 1 any keep max","end"]},"#,
            r#"{"name":"t12","priority":1,"code":["gwait g0 1 any keep max","end"]},"#,
            r#"{"name":"t13","priority":1,"code":["gwait g0 1 any keep max","end"]},"#,
            r#"{"name":"t14","priority":1,"code":["gwait g0 1 any keep max","end"]},"#,
            r#"{"name":"t15","priority":1,"code":["gset g0 1","end"]}]}"#,
        ),
        cores: &[0, 1, 2, 3, 4, 5, 6, 7, 8, 9, 10, 11, 12, 13, 14, 15],
    },
    WorkedRun {
        name: "set_without_overwrite",
        app: concat!(
            r#"{"profile":1,"cores":1,"tasks":[{"name":"t0","priority":1,"#,
            r#""code":["notify t0 0 5 setif","notify t0 0 6 setif","#,
            r#""notify t0 0 4294967295 set","notify t0 0 0 inc","end"]}]}"#,
        ),
        cores: &[0, 0, 0, 0],
    },
    WorkedRun {
        name: "take_counts_down",
        app: concat!(
            r#"{"profile":1,"cores":1,"tasks":[{"name":"t0","priority":1,"#,
            r#""code":["notify t0 0 2 set","take 0 dec 0","take 0 clear 0","#,
            r#""take 0 clear 0","end"]}]}"#,
        ),
        cores: &[0, 0],
    },
];

// The target has a copy, which is the same as it.
fn copy_of(rt: &impl Abort, alloc: Global, timeline: &Timeline) -> Result<State, Fail> {
    let copy = timeline.target().copy(alloc)?;
    assert!(rt; copy.same(timeline.target()));
    assert!(rt; timeline.target().same(&copy));
    Ok(copy)
}

// The copy of the last state is not that of any before, and the way back and on again leads to the
// states that were copied.
fn compares_states(
    rt: &impl Abort,
    alloc: Global,
    timeline: &mut Timeline,
    run: WorkedRun,
) -> Result<(), Fail> {
    let boot = copy_of(rt, alloc, timeline)?;
    let mut before = timeline.target().copy(alloc)?;
    for core in run.cores {
        let core = *core;
        before = copy_of(rt, alloc, timeline)?;
        assert!(rt; core < timeline.app().cores(), "{}", run.name);
        assert!(rt; timeline.go(&Move::Core { core }).is_ok(), "{}", run.name);
    }
    let last = copy_of(rt, alloc, timeline)?;
    assert!(rt; !last.same(&before), "{}", run.name);
    let moves = timeline.at();
    assert_same(rt, timeline.back(1), Ok(moves.saturating_sub(1)));
    assert!(rt; timeline.target().same(&before), "{}", run.name);
    assert!(rt;
        timeline.back(moves.saturating_sub(1)).is_ok(),
        "{}",
        run.name
    );
    assert!(rt; timeline.target().same(&boot), "{}", run.name);
    assert_same(rt, timeline.redo(moves), Ok(moves));
    assert!(rt; timeline.target().same(&last), "{}", run.name);
    Ok(())
}

#[test]
fn last_states(rt: HostRuntime) -> Result<(), Fail> {
    let alloc = rt.alloc();
    for run in RUNS {
        let mut timeline = Timeline::new(alloc, read(alloc, run.app)?, 16)?;
        let result = compares_states(&rt, alloc, &mut timeline, run);
        timeline.close();
        result?;
    }
    Ok(())
}
