//! Interrupts: what each does and answers, whom it wakes, what it is refused for, and the way back.

use crate::programs::{assert_ending, assert_runs, run_file};
use crate::tasks::{FileRun, assert_rows};
use std::test::Fail;

const SEND_AND_NOTIFY: [FileRun; 1] = [FileRun {
    name: "isr_send_and_notify",
    app: concat!(
        r#"{"profile":2,"cores":1,"queues":[{"name":"q0","length":1,"item":1}],"#,
        r#""tasks":[{"name":"t0","priority":1,"code":["recv q0 max","end"]}]}"#,
    ),
    commands: "step 0\nisr send q0 4142\nshow queue q0\nisr send q0 43\nstep 0\n\
               isr notify t0 0 5 set\nisr notify t0 0 6 setif\nback 1\nshow task t0\n",
    replies: "ok at 1\nok at 2 isr 1\nqueue q0 1/1 items 41 recv - send - set -\n\
              ok at 3 isr 0\nok at 4\nok at 5 isr 1\nok at 6 isr 0\nok at 5\n\
              task t0 core 0 pc 1 phase run regs 1,0,0,0,0,0,0,0 data 41 notes 5:received\n",
}];

// An item goes into a queue, and not into a full one; a value comes to an entry, and not over one
// that is there where that was asked.
#[test]
fn isr_send_and_notify(rt: HostRuntime) -> Result<(), Fail> {
    assert_rows(&rt, &SEND_AND_NOTIFY)
}

const INTO_A_SET: [FileRun; 2] = [
    FileRun {
        name: "isr_into_a_full_set",
        app: concat!(
            r#"{"profile":2,"cores":1,"queues":[{"name":"q0","length":2,"item":1}],"#,
            r#""sets":[{"name":"s0","length":1,"members":["q0"]}],"#,
            r#""tasks":[{"name":"t0","priority":1,"code":["end"]}]}"#,
        ),
        commands: "isr send q0 41\nisr send q0 41\nshow queue q0\nshow set s0\nshow task t0\n",
        replies: "ok at 1 isr 1\nok at 2 isr 0\nqueue q0 1/2 items 41 recv - send - set s0\n\
                  set s0 1/1 handles q0 wait -\n\
                  task t0 core 0 pc 0 phase run regs 0,0,0,0,0,0,0,0 data - notes 0:idle\n",
    },
    FileRun {
        name: "the first who waits at the set is woken, and nobody who waits at the queue",
        app: concat!(
            r#"{"profile":2,"cores":1,"queues":[{"name":"q0","length":2,"item":1},"#,
            r#"{"name":"q1","length":2,"item":1}],"#,
            r#""sets":[{"name":"s0","length":4,"members":["q0","q1"]}],"#,
            r#""tasks":[{"name":"t0","priority":3,"code":["recv q1 max","end"]},"#,
            r#"{"name":"t1","priority":2,"code":["select s0 max","end"]},"#,
            r#"{"name":"t2","priority":1,"code":["jump 0"]}]}"#,
        ),
        commands: "step 0\nstep 0\nisr send q1 41\nshow set s0\nshow cores\nshow task t0\nstep 0\n\
                   show task t1\nback 2\nshow set s0\nshow queue q1\n",
        replies: "ok at 1\nok at 2\nok at 3 isr 1\nset s0 1/4 handles q1 wait -\n\
                  cores t1 ready t2 tick 0 turn 1\n\
                  task t0 core - pc 0 phase wait:recv:q1:max regs 0,0,0,0,0,0,0,0 data - \
                  notes 0:idle\nok at 4\n\
                  task t1 core 0 pc 1 phase run regs 2,0,0,0,0,0,0,0 data - notes 0:idle\n\
                  ok at 2\nset s0 0/4 handles - wait t1\n\
                  queue q1 0/2 items - recv t0 send - set s0\n",
    },
];

// An item that goes into a member of a set brings its handle, for which there has to be space.
#[test]
fn isr_into_a_full_set(rt: HostRuntime) -> Result<(), Fail> {
    assert_rows(&rt, &INTO_A_SET)
}

const BUILTIN: [&[&str]; 1] = [&["run"]];

const ONE_MOVE: [&[&str]; 1] = [&["run", "--moves", "1"]];

// An application of profile 1 has no interrupts; what isn't there, and moves at their limit, are
// said first.
#[test]
fn isr_refused(rt: HostRuntime) -> Result<(), Fail> {
    let commands = "isr send q0 41\nisr send q9 41\nisr notify t0 0 1 set\nisr notify t0 1 1 set\n\
                    isr notify t9 0 1 set\nisr send q0 4\nshow moves\n";
    let replies = "no NoIsr\nno NoSuch\nno NoIsr\nno NoSuch\nno NoSuch\nno Syntax\n\
                   moves 0 undone 0 kept 0\n";
    assert_runs(&rt, &BUILTIN, commands, 0, replies, "")?;
    let commands = "isr send q0 41\nstep 0\nisr send q0 41\nisr send q9 41\nback 1\n\
                    isr send q0 41\nredo 1\n";
    let replies = "no NoIsr\nok at 1\nno MovesFull\nno NoSuch\nok at 0\nno NoIsr\nok at 1\n";
    assert_runs(&rt, &ONE_MOVE, commands, 0, replies, "")
}

// One task that is on its core, with two entries.
const TWO_ENTRIES: &str = concat!(
    r#"{"profile":2,"cores":1,"notes":2,"#,
    r#""tasks":[{"name":"t0","priority":1,"code":["end"]}]}"#,
);

const ACTIONS: [FileRun; 5] = [
    FileRun {
        name: "none leaves the value",
        app: TWO_ENTRIES,
        commands: "poke note t0 1 5\nisr notify t0 1 6 none\nshow task t0\n\
                   isr notify t0 1 7 none\nshow task t0\nback 2\nshow task t0\n",
        replies: "ok at 1\nok at 2 isr 1\n\
                  task t0 core 0 pc 0 phase run regs 0,0,0,0,0,0,0,0 data - \
                  notes 0:idle,5:received\nok at 3 isr 1\n\
                  task t0 core 0 pc 0 phase run regs 0,0,0,0,0,0,0,0 data - \
                  notes 0:idle,5:received\nok at 1\n\
                  task t0 core 0 pc 0 phase run regs 0,0,0,0,0,0,0,0 data - \
                  notes 0:idle,5:idle\n",
    },
    FileRun {
        name: "bits sets bits",
        app: TWO_ENTRIES,
        commands: "poke note t0 1 5\nisr notify t0 1 6 bits\nshow task t0\n\
                   isr notify t0 1 4294967288 bits\nshow task t0\nback 1\nshow task t0\n",
        replies: "ok at 1\nok at 2 isr 1\n\
                  task t0 core 0 pc 0 phase run regs 0,0,0,0,0,0,0,0 data - \
                  notes 0:idle,7:received\nok at 3 isr 1\n\
                  task t0 core 0 pc 0 phase run regs 0,0,0,0,0,0,0,0 data - \
                  notes 0:idle,4294967295:received\nok at 2\n\
                  task t0 core 0 pc 0 phase run regs 0,0,0,0,0,0,0,0 data - \
                  notes 0:idle,7:received\n",
    },
    FileRun {
        name: "inc adds one, and wraps",
        app: TWO_ENTRIES,
        commands: "poke note t0 0 4294967294\nisr notify t0 0 9 inc\nshow task t0\n\
                   isr notify t0 0 9 inc\nshow task t0\nback 2\nshow task t0\n",
        replies: "ok at 1\nok at 2 isr 1\n\
                  task t0 core 0 pc 0 phase run regs 0,0,0,0,0,0,0,0 data - \
                  notes 4294967295:received,0:idle\nok at 3 isr 1\n\
                  task t0 core 0 pc 0 phase run regs 0,0,0,0,0,0,0,0 data - \
                  notes 0:received,0:idle\nok at 1\n\
                  task t0 core 0 pc 0 phase run regs 0,0,0,0,0,0,0,0 data - \
                  notes 4294967294:idle,0:idle\n",
    },
    FileRun {
        name: "set overwrites",
        app: TWO_ENTRIES,
        commands: "isr notify t0 1 6 set\nisr notify t0 1 4294967295 set\nshow task t0\n\
                   isr notify t0 1 0 set\nshow task t0\nback 3\nshow task t0\n",
        replies: "ok at 1 isr 1\nok at 2 isr 1\n\
                  task t0 core 0 pc 0 phase run regs 0,0,0,0,0,0,0,0 data - \
                  notes 0:idle,4294967295:received\nok at 3 isr 1\n\
                  task t0 core 0 pc 0 phase run regs 0,0,0,0,0,0,0,0 data - \
                  notes 0:idle,0:received\nok at 0\n\
                  task t0 core 0 pc 0 phase run regs 0,0,0,0,0,0,0,0 data - \
                  notes 0:idle,0:idle\n",
    },
    FileRun {
        name: "setif is answered 0 where something has come",
        app: TWO_ENTRIES,
        commands: "isr notify t0 1 6 setif\nisr notify t0 1 7 setif\nshow task t0\n\
                   isr notify t0 0 8 setif\nshow task t0\nshow moves\nback 2\nback 1\n\
                   show task t0\n",
        replies: "ok at 1 isr 1\nok at 2 isr 0\n\
                  task t0 core 0 pc 0 phase run regs 0,0,0,0,0,0,0,0 data - \
                  notes 0:idle,6:received\nok at 3 isr 1\n\
                  task t0 core 0 pc 0 phase run regs 0,0,0,0,0,0,0,0 data - \
                  notes 8:received,6:received\nmoves 3 undone 0 kept 3\nok at 1\nok at 0\n\
                  task t0 core 0 pc 0 phase run regs 0,0,0,0,0,0,0,0 data - \
                  notes 0:idle,0:idle\n",
    },
];

// What each action leaves of the value and the state, and what it is answered.
#[test]
fn isr_actions(rt: HostRuntime) -> Result<(), Fail> {
    assert_rows(&rt, &ACTIONS)
}

const OF_QUEUES: [FileRun; 3] = [
    FileRun {
        name: "a full queue is left, and an interrupt never waits",
        app: concat!(
            r#"{"profile":2,"cores":1,"queues":[{"name":"q0","length":1,"item":2}],"#,
            r#""tasks":[{"name":"t0","priority":1,"#,
            r#""code":["data 4142","send q0 max","send q0 max","end"]}]}"#,
        ),
        commands: "step 0\nstep 0\nstep 0\nisr send q0 ff\nshow queue q0\nshow cores\n\
                   show moves\nback 1\nshow moves\nshow queue q0\n",
        replies: "ok at 1\nok at 2\nok at 3\nok at 4 isr 0\n\
                  queue q0 1/1 items 4142 recv - send t0 set -\ncores - ready - tick 0 turn 1\n\
                  moves 4 undone 0 kept 4\nok at 3\nmoves 3 undone 1 kept 3\n\
                  queue q0 1/1 items 4142 recv - send t0 set -\n",
    },
    FileRun {
        name: "bytes are cut or filled, and go to the back",
        app: concat!(
            r#"{"profile":2,"cores":1,"queues":[{"name":"q0","length":4,"item":2}],"#,
            r#""tasks":[{"name":"t0","priority":1,"code":["recv q0 0","end"]}]}"#,
        ),
        commands: "isr send q0 aBcDeF\nisr send q0 ff\nisr send q0 -\nshow queue q0\nstep 0\n\
                   show task t0\nisr send q0 0102\nshow queue q0\n",
        replies: "ok at 1 isr 1\nok at 2 isr 1\nok at 3 isr 1\n\
                  queue q0 3/4 items abcd,ff00,0000 recv - send - set -\nok at 4\n\
                  task t0 core 0 pc 1 phase run regs 1,0,0,0,0,0,0,0 data abcd notes 0:idle\n\
                  ok at 5 isr 1\nqueue q0 3/4 items ff00,0000,0102 recv - send - set -\n",
    },
    FileRun {
        name: "the first who waits to receive is woken, and has still to receive",
        app: concat!(
            r#"{"profile":2,"cores":1,"queues":[{"name":"q0","length":2,"item":1}],"#,
            r#""tasks":[{"name":"t0","priority":2,"code":["recv q0 max","end"]},"#,
            r#"{"name":"t1","priority":3,"code":["recv q0 9","end"]},"#,
            r#"{"name":"t2","priority":1,"code":["jump 0"]}]}"#,
        ),
        commands: "step 0\nstep 0\nshow queue q0\nisr send q0 41\nshow queue q0\nshow cores\n\
                   show task t1\nisr send q0 42\nshow cores\nstep 0\nshow task t1\n\
                   show queue q0\nback 3\nshow queue q0\nshow cores\n",
        replies: "ok at 1\nok at 2\nqueue q0 0/2 items - recv t1,t0 send - set -\nok at 3 isr 1\n\
                  queue q0 1/2 items 41 recv t0 send - set -\ncores t1 ready t2 tick 0 turn 1\n\
                  task t1 core 0 pc 0 phase again:9 regs 0,0,0,0,0,0,0,0 data - notes 0:idle\n\
                  ok at 4 isr 1\ncores t1 ready t0,t2 tick 0 turn 1\nok at 5\n\
                  task t1 core 0 pc 1 phase run regs 1,0,0,0,0,0,0,0 data 41 notes 0:idle\n\
                  queue q0 1/2 items 42 recv - send - set -\nok at 2\n\
                  queue q0 0/2 items - recv t1,t0 send - set -\n\
                  cores t2 ready - tick 0 turn 1\n",
    },
];

// What an interrupt sends to a queue.
#[test]
fn isr_of_queues(rt: HostRuntime) -> Result<(), Fail> {
    assert_rows(&rt, &OF_QUEUES)
}

const WAKES: [FileRun; 4] = [
    FileRun {
        name: "the task that is woken takes an idle core, and the turn stays",
        app: concat!(
            r#"{"profile":2,"cores":2,"queues":[{"name":"q0","length":1,"item":1}],"#,
            r#""tasks":[{"name":"t0","priority":2,"code":["recv q0 max","end"]},"#,
            r#"{"name":"t1","priority":1,"code":["jump 0"]}]}"#,
        ),
        commands: "step 0\nshow cores\nisr send q0 41\nshow cores\nshow task t0\nstep 0\n\
                   show task t0\nback 2\nshow cores\n",
        replies: "ok at 1\ncores -,t1 ready - tick 0 turn 1\nok at 2 isr 1\n\
                  cores t0,t1 ready - tick 0 turn 1\n\
                  task t0 core 0 pc 0 phase again:max regs 0,0,0,0,0,0,0,0 data - notes 0:idle\n\
                  ok at 3\n\
                  task t0 core 0 pc 1 phase run regs 1,0,0,0,0,0,0,0 data 41 notes 0:idle\n\
                  ok at 1\ncores -,t1 ready - tick 0 turn 1\n",
    },
    FileRun {
        name: "a notification wakes a task that waits for this very entry",
        app: concat!(
            r#"{"profile":2,"cores":1,"notes":2,"tasks":[{"name":"t0","priority":1,"#,
            r#""code":["take 1 dec max","end"]}]}"#,
        ),
        commands: "step 0\nisr notify t0 0 5 set\nshow task t0\nshow cores\n\
                   isr notify t0 1 0 inc\nshow task t0\nstep 0\nshow task t0\nstep 0\n\
                   isr notify t0 1 7 setif\nshow task t0\nshow cores\n",
        replies: "ok at 1\nok at 2 isr 1\n\
                  task t0 core - pc 0 phase wait:note:1:max regs 0,0,0,0,0,0,0,0 data - \
                  notes 5:received,0:waiting\ncores - ready - tick 0 turn 1\nok at 3 isr 1\n\
                  task t0 core 0 pc 0 phase again:max regs 0,0,0,0,0,0,0,0 data - \
                  notes 5:received,1:received\nok at 4\n\
                  task t0 core 0 pc 1 phase run regs 1,0,0,0,0,0,0,0 data - \
                  notes 5:received,0:idle\nok at 5\nok at 6 isr 1\n\
                  task t0 core - pc 1 phase ended regs 1,0,0,0,0,0,0,0 data - \
                  notes 5:received,7:received\ncores - ready - tick 0 turn 1\n",
    },
    FileRun {
        name: "entry 0 wakes the reader of a buffer, which is named until it runs",
        app: concat!(
            r#"{"profile":2,"cores":1,"streams":[{"name":"b0","size":4,"trigger":1}],"#,
            r#""tasks":[{"name":"t0","priority":1,"code":["sread b0 4 max","end"]}]}"#,
        ),
        commands: "step 0\nisr notify t0 0 5 none\nshow task t0\nshow stream b0\nstep 0\n\
                   show task t0\nshow stream b0\n",
        replies: "ok at 1\nok at 2 isr 1\n\
                  task t0 core 0 pc 0 phase again:max regs 0,0,0,0,0,0,0,0 data - \
                  notes 0:received\nstream b0 0/4 trigger 1 bytes - reader t0 writer -\n\
                  ok at 3\n\
                  task t0 core 0 pc 1 phase run regs 0,0,0,0,0,0,0,0 data - notes 0:idle\n\
                  stream b0 0/4 trigger 1 bytes - reader - writer -\n",
    },
    FileRun {
        name: "at the last tick there are interrupts as at any other",
        app: concat!(
            r#"{"profile":2,"cores":1,"tick":4294967295,"#,
            r#""tasks":[{"name":"t0","priority":1,"code":["end"]}]}"#,
        ),
        commands: "tick\nisr notify t0 0 5 set\nshow cores\nback 1\n",
        replies: "no TickLimit\nok at 1 isr 1\ncores t0 ready - tick 4294967295 turn 0\nok at 0\n",
    },
];

// Whom an interrupt wakes, and where that task goes.
#[test]
fn isr_wakes(rt: HostRuntime) -> Result<(), Fail> {
    assert_rows(&rt, &WAKES)
}

// A task that waits for an item, and one below it that never does.
const A_RUN: &str = concat!(
    r#"{"profile":2,"cores":1,"queues":[{"name":"q0","length":1,"item":1}],"#,
    r#""tasks":[{"name":"t0","priority":2,"code":["recv q0 max","add r1 1","jump 0"]},"#,
    r#"{"name":"t1","priority":1,"code":["jump 0"]}]}"#,
);

const BACK_AND_AGAIN: [FileRun; 3] = [
    FileRun {
        name: "taken back, and made again with no answer said",
        app: A_RUN,
        commands: "step 0\nisr send q0 4142\nisr send q0 43\nisr notify t1 0 5 set\nback 3\n\
                   show queue q0\nshow cores\nredo 1\nshow queue q0\nredo 2\nshow task t1\n\
                   show moves\nback 1\nisr notify t1 0 6 set\nredo 1\nshow task t1\n",
        replies: "ok at 1\nok at 2 isr 1\nok at 3 isr 0\nok at 4 isr 1\nok at 1\n\
                  queue q0 0/1 items - recv t0 send - set -\ncores t1 ready - tick 0 turn 1\n\
                  ok at 2\nqueue q0 1/1 items 41 recv - send - set -\nok at 4\n\
                  task t1 core - pc 0 phase run regs 0,0,0,0,0,0,0,0 data - notes 5:received\n\
                  moves 4 undone 0 kept 4\nok at 3\nok at 4 isr 1\nno NothingUndone\n\
                  task t1 core - pc 0 phase run regs 0,0,0,0,0,0,0,0 data - notes 6:received\n",
    },
    FileRun {
        name: "in the middle of a run",
        app: A_RUN,
        commands: "forward 2\nisr send q0 41\nshow cores\nforward 3\nshow task t0\nshow cores\n\
                   back 4\nshow task t0\nshow cores\nredo 4\nshow task t0\nshow cores\n\
                   back until count q0 = 1\nshow queue q0\nredo 1\nshow queue q0\n",
        replies: "ok at 2\nok at 3 isr 1\ncores t0 ready t1 tick 1 turn 0\nok at 6\n\
                  task t0 core 0 pc 2 phase run regs 1,1,0,0,0,0,0,0 data 41 notes 0:idle\n\
                  cores t0 ready t1 tick 2 turn 1\nok at 2\n\
                  task t0 core - pc 0 phase wait:recv:q0:max regs 0,0,0,0,0,0,0,0 data - \
                  notes 0:idle\ncores t1 ready - tick 1 turn 0\nok at 6\n\
                  task t0 core 0 pc 2 phase run regs 1,1,0,0,0,0,0,0 data 41 notes 0:idle\n\
                  cores t0 ready t1 tick 2 turn 1\nok at 3 met\n\
                  queue q0 1/1 items 41 recv - send - set -\nok at 4\n\
                  queue q0 0/1 items - recv - send - set -\n",
    },
    FileRun {
        name: "trimmed as any move",
        app: A_RUN,
        commands: "step 0\nisr send q0 41\nisr send q0 42\ntrim 1\nback 1\nback 1\nshow moves\n\
                   redo 1\nshow queue q0\n",
        replies: "ok at 1\nok at 2 isr 1\nok at 3 isr 0\nok at 3\nok at 2\nno TooFar 0\n\
                  moves 2 undone 1 kept 0\nok at 3\n\
                  queue q0 1/1 items 41 recv - send - set -\n",
    },
];

// An interrupt is a move: it is taken back and made again, by itself and in the middle of a run.
#[test]
fn isr_back_and_again(rt: HostRuntime) -> Result<(), Fail> {
    assert_rows(&rt, &BACK_AND_AGAIN)
}

const NO_INTERRUPTS: [FileRun; 3] = [
    FileRun {
        name: "lines that are no interrupts",
        app: A_RUN,
        commands: "isr\nisr send\nisr send q0\nisr send q0 4\nisr send q0 4g\nisr send q0 41 42\n\
                   isr send Q0 41\nisr sent q0 41\nisr tick\nisr send 41 q0\nisr notify t0\n\
                   isr notify t0 0 5\nisr notify t0 0 5 sets\nisr notify t0 0 5 set 1\n\
                   isr notify t0 -1 5 set\nisr notify t0 0 4294967296 set\n\
                   isr notify t0 0 r1 set\nisr notify t0 0 max set\nisr notify T0 0 5 set\n\
                   isr notify t0 0 set 5\nISR send q0 41\nshow moves\n",
        replies: "no Syntax\nno Syntax\nno Syntax\nno Syntax\nno Syntax\nno Syntax\nno Syntax\n\
                  no Syntax\nno Syntax\nno Syntax\nno Syntax\nno Syntax\nno Syntax\nno Syntax\n\
                  no Syntax\nno Syntax\nno Syntax\nno Syntax\nno Syntax\nno Syntax\nno Syntax\n\
                  moves 0 undone 0 kept 0\n",
    },
    FileRun {
        name: "interrupts of what isn't there",
        app: A_RUN,
        commands: "isr send q1 41\nisr send t0 41\nisr notify t2 0 5 set\nisr notify q0 0 5 set\n\
                   isr notify t0 1 5 set\nisr notify t0 4294967295 5 none\nshow moves\n",
        replies: "no NoSuch\nno NoSuch\nno NoSuch\nno NoSuch\nno NoSuch\nno NoSuch\n\
                  moves 0 undone 0 kept 0\n",
    },
    FileRun {
        name: "spaces between, before and behind the words",
        app: A_RUN,
        commands: "  isr   send q0  41 \nisr notify  t0 0   5 bits  \r\n",
        replies: "ok at 1 isr 1\nok at 2 isr 1\n",
    },
];

// What is no interrupt, or is one of what isn't there, changes nothing.
#[test]
fn isr_lines(rt: HostRuntime) -> Result<(), Fail> {
    assert_rows(&rt, &NO_INTERRUPTS)
}

// Moves at their limit refuse an interrupt, and it counts among them.
#[test]
fn isr_at_the_limit(rt: HostRuntime) -> Result<(), Fail> {
    let commands = "isr send q0 41\nisr send q0 42\nisr send q0 43\nisr send q1 41\nshow moves\n";
    let replies = "ok at 1 isr 1\nok at 2 isr 0\nno MovesFull\nno NoSuch\n\
                   moves 2 undone 0 kept 2\n";
    let words = ["--moves", "2"];
    let ending = run_file(&rt, "isr.json", A_RUN.as_bytes(), &words, commands)?;
    assert_ending(&rt, &ending, 0, replies, "");
    Ok(())
}
