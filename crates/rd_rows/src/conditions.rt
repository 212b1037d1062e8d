//! Conditions: what each looks at, how it compares, and what it is refused for.

use crate::tasks::{FileRun, assert_rows};
use std::test::Fail;

// One task that fills a thing after the other, each instruction followed by a tick.
const FILLS: &str = concat!(
    r#"{"profile":1,"cores":1,"notes":2,"queues":[{"name":"q0","length":2,"item":1}],"#,
    r#""streams":[{"name":"b0","size":4,"trigger":1}],"messages":[{"name":"m0","size":16}],"#,
    r#""groups":[{"name":"g0"}],"tasks":[{"name":"t0","priority":1,"code":["data 4142","#,
    r#""send q0 0","swrite b0 0","mwrite m0 0","gset g0 5","notify t0 1 9 set","set r1 3","#,
    r#""end"]},"#,
    r#"{"name":"t1","priority":0,"code":["end"]}]}"#,
);

// A task that is given bits, whose time ends, and that fails.
const PHASES: &str = concat!(
    r#"{"profile":1,"cores":2,"queues":[{"name":"q0","length":1,"item":1}],"#,
    r#""groups":[{"name":"g0"}],"tasks":[{"name":"t0","priority":1,"code":["#,
    r#""gwait g0 1 any keep max","recv q0 1","gset g0 16777216","end"]},"#,
    r#"{"name":"t1","priority":1,"code":["gset g0 1","jump 1"]}]}"#,
);

const OF_OBJECTS: [FileRun; 4] = [
    FileRun {
        name: "items",
        app: FILLS,
        commands: "until count q0 > 0 2\nuntil count q0 = 1 9\nuntil count q0 > 1 1\n\
                   back until count q0 < 1\nback until count q0 < 0\nuntil count q1 = 0 1\n\
                   until count b0 = 0 1\nuntil count q0 == 1 1\nuntil count q0 = -1 1\n",
        replies: "ok at 2 limit\nok at 3 met\nok at 4 limit\nok at 2 met\nok at 0 start\n\
                  no NoSuch\nno NoSuch\nno Syntax\nno Syntax\n",
    },
    FileRun {
        name: "bytes",
        app: FILLS,
        commands: "until bytes b0 = 2 9\nuntil bytes b0 < 2 1\nback until bytes b0 = 0\n\
                   until bytes b0 > 1 9\nuntil bytes q0 = 0 1\nuntil bytes b0 2 1\n",
        replies: "ok at 5 met\nok at 6 limit\nok at 4 met\nok at 5 met\nno NoSuch\nno Syntax\n",
    },
    FileRun {
        name: "messages",
        app: FILLS,
        commands: "until msgs m0 = 1 9\nuntil msgs m0 > 1 1\nback until msgs m0 < 1\n\
                   until msgs b0 = 0 1\nuntil msgs m0 =1 1\n",
        replies: "ok at 7 met\nok at 8 limit\nok at 6 met\nno NoSuch\nno Syntax\n",
    },
    FileRun {
        name: "bits",
        app: FILLS,
        commands: "until bits g0 = 5 9\nuntil bits g0 > 5 1\nback until bits g0 < 5\n\
                   until bits g1 = 0 1\nuntil bits g0 = 1\n",
        replies: "ok at 9 met\nok at 10 limit\nok at 8 met\nno NoSuch\nno Syntax\n",
    },
];

const OF_TASKS: [FileRun; 4] = [
    FileRun {
        name: "a register",
        app: FILLS,
        commands: "until reg t0 1 = 3 20\nuntil reg t0 1 > 3 1\nback until reg t0 1 < 3\n\
                   until reg t0 8 = 0 1\nuntil reg t2 0 = 0 1\nuntil reg t0 r1 = 0 1\n",
        replies: "ok at 13 met\nok at 14 limit\nok at 12 met\nno NoSuch\nno NoSuch\nno Syntax\n",
    },
    FileRun {
        name: "the next instruction",
        app: FILLS,
        commands: "until pc t0 = 3 20\nuntil pc t0 > 3 1\nback until pc t0 < 3\n\
                   until pc t2 = 0 1\nuntil pc t0 1 = 0 1\n",
        replies: "ok at 5 met\nok at 6 limit\nok at 4 met\nno NoSuch\nno Syntax\n",
    },
    FileRun {
        name: "an entry",
        app: FILLS,
        commands: "until note t0 1 = 9 20\nuntil note t0 0 > 0 1\nback until note t0 1 < 9\n\
                   until note t0 2 = 0 1\nuntil note t2 0 = 0 1\nuntil note t0 = 0 1\n",
        replies: "ok at 11 met\nok at 12 limit\nok at 10 met\nno NoSuch\nno NoSuch\nno Syntax\n",
    },
    FileRun {
        name: "the tick",
        app: FILLS,
        commands: "until tick = 3 20\nuntil tick > 3 1\nback until tick < 3\nuntil tick t0 = 0 1\n",
        replies: "ok at 6 met\nok at 7 limit\nok at 5 met\nno Syntax\n",
    },
];

const OF_PHASES: [FileRun; 2] = [
    FileRun {
        name: "a phase",
        app: FILLS,
        commands: "until phase t0 run 1\nuntil phase t0 ended 30\nback until phase t0 run\n\
                   until phase t2 run 1\nuntil phase t0 Run 1\nuntil phase t0 1\n\
                   until phase t0 = run 1\n",
        replies: "ok at 1 met\nok at 15 met\nok at 14 met\nno NoSuch\nno Syntax\nno Syntax\n\
                  no Syntax\n",
    },
    FileRun {
        name: "every phase",
        app: PHASES,
        commands: "until phase t0 wait 9\nuntil phase t0 given 9\nuntil phase t0 run 9\n\
                   until phase t0 wait 9\nuntil phase t0 again 9\nuntil phase t0 failed 9\n\
                   show task t0\nback until phase t0 again\nback until phase t0 given\n\
                   back until phase t0 ended\n",
        replies: "ok at 1 met\nok at 2 met\nok at 4 met\nok at 7 met\nok at 9 met\n\
                  ok at 13 met\n\
                  task t0 core - pc 2 phase failed:BadBits regs 0,0,0,0,0,0,0,0 data - \
                  notes 0:idle\nok at 9 met\nok at 3 met\nok at 0 start\n",
    },
];

// A condition of an object holds exactly where it says so of the state.
#[test]
fn of_objects(rt: HostRuntime) -> Result<(), Fail> {
    assert_rows(&rt, &OF_OBJECTS)
}

// And so does one of a task, and of the tick.
#[test]
fn of_tasks(rt: HostRuntime) -> Result<(), Fail> {
    assert_rows(&rt, &OF_TASKS)
}

// And one of a task's phase.
#[test]
fn of_phases(rt: HostRuntime) -> Result<(), Fail> {
    assert_rows(&rt, &OF_PHASES)
}
