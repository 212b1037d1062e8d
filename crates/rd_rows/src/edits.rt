//! Edits by hand: each with its refusals, and the way back.

use crate::tasks::{FileRun, assert_rows};
use std::test::Fail;

// One task that fills a queue and a stream buffer, and one that waits for bits.
const PARTS: &str = concat!(
    r#"{"profile":1,"cores":2,"notes":2,"queues":[{"name":"q0","length":2,"item":2}],"#,
    r#""streams":[{"name":"b0","size":4,"trigger":1}],"groups":[{"name":"g0"}],"#,
    r#""tasks":[{"name":"t0","priority":1,"code":["data 4142","send q0 0","swrite b0 0","#,
    r#""gset g0 0","jump 0"]},"#,
    r#"{"name":"t1","priority":1,"code":["gwait g0 4 any keep max","end"]}]}"#,
);

const OF_TASKS: [FileRun; 4] = [
    FileRun {
        name: "a register",
        app: PARTS,
        commands: "poke reg t0 7 4294967295\nshow task t0\nback 1\nshow task t0\npoke reg t0 8 1\n\
                   poke reg t2 0 1\npoke reg q0 0 1\npoke reg t0 0 4294967296\npoke reg t0 0\n\
                   poke reg t0 r0 1\nshow moves\n",
        replies: "ok at 1\n\
                  task t0 core 0 pc 0 phase run regs 0,0,0,0,0,0,0,4294967295 data - \
                  notes 0:idle,0:idle\nok at 0\n\
                  task t0 core 0 pc 0 phase run regs 0,0,0,0,0,0,0,0 data - notes 0:idle,0:idle\n\
                  no NoSuch\nno NoSuch\nno NoSuch\nno Syntax\nno Syntax\nno Syntax\n\
                  moves 0 undone 1 kept 0\n",
    },
    FileRun {
        name: "the data",
        app: PARTS,
        commands: "poke data t1 00fF7a\nshow task t1\npoke data t1 -\nshow task t1\nback 1\n\
                   show task t1\npoke data t9 00\npoke data t1 0\npoke data t1\n",
        replies: "ok at 1\n\
                  task t1 core 1 pc 0 phase run regs 0,0,0,0,0,0,0,0 data 00ff7a \
                  notes 0:idle,0:idle\nok at 2\n\
                  task t1 core 1 pc 0 phase run regs 0,0,0,0,0,0,0,0 data - notes 0:idle,0:idle\n\
                  ok at 1\n\
                  task t1 core 1 pc 0 phase run regs 0,0,0,0,0,0,0,0 data 00ff7a \
                  notes 0:idle,0:idle\nno NoSuch\nno Syntax\nno Syntax\n",
    },
    FileRun {
        name: "the next instruction",
        app: PARTS,
        commands: "poke pc t0 4\nshow task t0\nstep 0\nshow task t0\npoke pc t0 5\nstep 1\n\
                   poke pc t1 1\npoke pc t9 0\npoke pc t0 x\nback 3\nshow task t0\n",
        replies: "ok at 1\n\
                  task t0 core 0 pc 4 phase run regs 0,0,0,0,0,0,0,0 data - notes 0:idle,0:idle\n\
                  ok at 2\n\
                  task t0 core 0 pc 0 phase run regs 0,0,0,0,0,0,0,0 data - notes 0:idle,0:idle\n\
                  no BadEdit\nok at 3\nno BadEdit\nno NoSuch\nno Syntax\nok at 0\n\
                  task t0 core 0 pc 0 phase run regs 0,0,0,0,0,0,0,0 data - notes 0:idle,0:idle\n",
    },
    FileRun {
        name: "the value of an entry",
        app: PARTS,
        commands: "poke note t0 1 4294967295\nshow task t0\npoke note t0 2 1\npoke note t9 0 1\n\
                   poke note t0 0\nback 1\nshow task t0\n",
        replies: "ok at 1\n\
                  task t0 core 0 pc 0 phase run regs 0,0,0,0,0,0,0,0 data - \
                  notes 0:idle,4294967295:idle\nno NoSuch\nno NoSuch\nno Syntax\nok at 0\n\
                  task t0 core 0 pc 0 phase run regs 0,0,0,0,0,0,0,0 data - \
                  notes 0:idle,0:idle\n",
    },
];

// An edit of a task leaves exactly the state that it says, or is refused and changes nothing.
#[test]
fn of_tasks(rt: HostRuntime) -> Result<(), Fail> {
    assert_rows(&rt, &OF_TASKS)
}

const OF_OBJECTS: [FileRun; 3] = [
    FileRun {
        name: "bits wake nobody until they are set",
        app: PARTS,
        commands: "step 1\npoke group g0 4\nshow group g0\nshow cores\nstep 0\nstep 0\nstep 0\n\
                   step 0\nshow group g0\nshow task t1\nback 5\nshow group g0\n\
                   poke group g0 16777215\npoke group g0 16777216\npoke group g1 0\n\
                   poke group g0\n",
        replies: "ok at 1\nok at 2\ngroup g0 bits 4 wait t1:4:any:keep\n\
                  cores t0,- ready - tick 0 turn 2\nok at 3\nok at 4\nok at 5\nok at 6\n\
                  group g0 bits 4 wait -\n\
                  task t1 core 1 pc 0 phase given:4 regs 0,0,0,0,0,0,0,0 data - \
                  notes 0:idle,0:idle\nok at 1\ngroup g0 bits 0 wait t1:4:any:keep\nok at 2\n\
                  no BadEdit\nno NoSuch\nno Syntax\n",
    },
    FileRun {
        name: "an item",
        app: PARTS,
        commands: "step 0\nstep 0\npoke item q0 0 ff00\nshow queue q0\npoke item q0 1 ff00\n\
                   poke item q0 0 ff\npoke item q0 0 ff00ff\npoke item q0 0 -\n\
                   poke item q1 0 ff00\npoke item b0 0 ff00\npoke item q0 0 f\n\
                   back 1\nshow queue q0\n",
        replies: "ok at 1\nok at 2\nok at 3\nqueue q0 1/2 items ff00 recv - send - set -\n\
                  no BadEdit\nno BadEdit\nno BadEdit\nno BadEdit\nno NoSuch\nno NoSuch\n\
                  no Syntax\nok at 2\nqueue q0 1/2 items 4142 recv - send - set -\n",
    },
    FileRun {
        name: "a byte",
        app: PARTS,
        commands: "step 0\nstep 0\nstep 0\npoke byte b0 1 255\nshow stream b0\npoke byte b0 1 256\n\
                   poke byte b0 2 0\npoke byte b1 0 0\npoke byte q0 0 0\npoke byte b0 0\nback 1\n\
                   show stream b0\n",
        replies: "ok at 1\nok at 2\nok at 3\nok at 4\n\
                  stream b0 2/4 trigger 1 bytes 41ff reader - writer -\nno BadEdit\nno BadEdit\n\
                  no NoSuch\nno NoSuch\nno Syntax\nok at 3\n\
                  stream b0 2/4 trigger 1 bytes 4142 reader - writer -\n",
    },
];

// So does one of an object.
#[test]
fn of_objects(rt: HostRuntime) -> Result<(), Fail> {
    assert_rows(&rt, &OF_OBJECTS)
}
