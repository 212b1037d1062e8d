//! Runs of applications with event groups: whose wishes are met, which bits are cleared, who waits
//! and what each is answered, and the way back.

use crate::tasks::{FileRun, assert_rows};
use std::test::Fail;

const ROWS: [FileRun; 11] = [
    FileRun {
        name: "one_set_wakes_two",
        app: concat!(
            r#"{"profile":1,"cores":3,"groups":[{"name":"g0"}],"#,
            r#""tasks":[{"name":"t0","priority":1,"code":["gwait g0 1 any clear max","end"]},"#,
            r#"{"name":"t1","priority":1,"code":["gwait g0 3 all clear max","end"]},"#,
            r#"{"name":"t2","priority":1,"code":["gset g0 3","end"]}]}"#,
        ),
        commands: "step 0\nstep 1\nshow group g0\nstep 2\nshow group g0\nshow cores\n\
                   show task t0\nshow task t1\nshow task t2\nback 1\nshow group g0\nshow cores\n\
                   show task t1\n",
        replies: "ok at 1\nok at 2\n\
                  group g0 bits 0 wait t0:1:any:clear,t1:3:all:clear\n\
                  ok at 3\n\
                  group g0 bits 0 wait -\n\
                  cores t0,t1,t2 ready - tick 0 turn 3\n\
                  task t0 core 0 pc 0 phase given:3 regs 0,0,0,0,0,0,0,0 data - notes 0:idle\n\
                  task t1 core 1 pc 0 phase given:3 regs 0,0,0,0,0,0,0,0 data - notes 0:idle\n\
                  task t2 core 2 pc 1 phase run regs 0,0,0,0,0,0,0,0 data - notes 0:idle\n\
                  ok at 2\n\
                  group g0 bits 0 wait t0:1:any:clear,t1:3:all:clear\n\
                  cores -,-,t2 ready - tick 0 turn 2\n\
                  task t1 core - pc 0 phase wait:group:g0:max regs 0,0,0,0,0,0,0,0 data - \
                  notes 0:idle\n",
    },
    FileRun {
        name: "bits_out_of_range",
        app: concat!(
            r#"{"profile":1,"cores":1,"groups":[{"name":"g0"}],"#,
            r#""tasks":[{"name":"t0","priority":1,"code":["gset g0 16777216","end"]}]}"#,
        ),
        commands: "step 0\nshow task t0\nshow group g0\nstep 0\nback 1\nshow task t0\n",
        replies: "ok at 1\n\
                  task t0 core - pc 0 phase failed:BadBits regs 0,0,0,0,0,0,0,0 data - \
                  notes 0:idle\n\
                  group g0 bits 0 wait -\n\
                  no NoTask\nok at 0\n\
                  task t0 core 0 pc 0 phase run regs 0,0,0,0,0,0,0,0 data - notes 0:idle\n",
    },
    FileRun {
        name: "late_wish",
        app: concat!(
            r#"{"profile":1,"cores":2,"groups":[{"name":"g0"}],"#,
            r#""tasks":[{"name":"t0","priority":1,"code":["gwait g0 2 all clear 1","end"]},"#,
            r#"{"name":"t1","priority":1,"code":["gset g0 3","end"]}]}"#,
        ),
        commands: "step 0\nshow task t0\nshow group g0\ntick\nshow task t0\nshow group g0\n\
                   step 1\nstep 0\nshow task t0\nshow group g0\nback 1\nshow task t0\n\
                   show group g0\nback 2\nshow group g0\n",
        replies: "ok at 1\n\
                  task t0 core - pc 0 phase wait:group:g0:1 regs 0,0,0,0,0,0,0,0 data - \
                  notes 0:idle\n\
                  group g0 bits 0 wait t0:2:all:clear\n\
                  ok at 2\n\
                  task t0 core 0 pc 0 phase again:1 regs 0,0,0,0,0,0,0,0 data - notes 0:idle\n\
                  group g0 bits 0 wait -\n\
                  ok at 3\nok at 4\n\
                  task t0 core 0 pc 1 phase run regs 3,0,0,0,0,0,0,0 data - notes 0:idle\n\
                  group g0 bits 1 wait -\n\
                  ok at 3\n\
                  task t0 core 0 pc 0 phase again:1 regs 0,0,0,0,0,0,0,0 data - notes 0:idle\n\
                  group g0 bits 3 wait -\n\
                  ok at 1\n\
                  group g0 bits 0 wait t0:2:all:clear\n",
    },
    FileRun {
        name: "bits are set, cleared and read, of one group",
        app: concat!(
            r#"{"profile":1,"cores":1,"groups":[{"name":"g0"},{"name":"g1"}],"#,
            r#""tasks":[{"name":"t0","priority":1,"code":["gset g1 5","gclear g1 4","gget g1","#,
            r#""gset g1 16777215","gclear g1 16777216","end"]}]}"#,
        ),
        commands: "step 0\nshow task t0\nshow group g1\nstep 0\nshow task t0\nshow group g1\n\
                   step 0\nshow task t0\nshow group g1\nstep 0\nshow task t0\nstep 0\n\
                   show task t0\nshow group g1\nshow group g0\nback 2\nshow task t0\n\
                   show group g1\nback 2\nshow group g1\n",
        replies: "ok at 1\n\
                  task t0 core 0 pc 1 phase run regs 5,0,0,0,0,0,0,0 data - notes 0:idle\n\
                  group g1 bits 5 wait -\n\
                  ok at 2\n\
                  task t0 core 0 pc 2 phase run regs 5,0,0,0,0,0,0,0 data - notes 0:idle\n\
                  group g1 bits 1 wait -\n\
                  ok at 3\n\
                  task t0 core 0 pc 3 phase run regs 1,0,0,0,0,0,0,0 data - notes 0:idle\n\
                  group g1 bits 1 wait -\n\
                  ok at 4\n\
                  task t0 core 0 pc 4 phase run regs 16777215,0,0,0,0,0,0,0 data - notes 0:idle\n\
                  ok at 5\n\
                  task t0 core - pc 4 phase failed:BadBits regs 16777215,0,0,0,0,0,0,0 data - \
                  notes 0:idle\n\
                  group g1 bits 16777215 wait -\n\
                  group g0 bits 0 wait -\n\
                  ok at 3\n\
                  task t0 core 0 pc 3 phase run regs 1,0,0,0,0,0,0,0 data - notes 0:idle\n\
                  group g1 bits 1 wait -\n\
                  ok at 1\n\
                  group g1 bits 5 wait -\n",
    },
    FileRun {
        name: "a wish for no bits, or for bits that no group has, is none",
        app: concat!(
            r#"{"profile":1,"cores":5,"groups":[{"name":"g0"}],"#,
            r#""tasks":[{"name":"t0","priority":1,"code":["gwait g0 0 any keep max","end"]},"#,
            r#"{"name":"t1","priority":1,"code":["gwait g0 16777216 all clear 0","end"]},"#,
            r#"{"name":"t2","priority":1,"code":["gsync g0 16777216 1 0","end"]},"#,
            r#"{"name":"t3","priority":1,"code":["gsync g0 1 0 max","end"]},"#,
            r#"{"name":"t4","priority":1,"code":["gsync g0 1 4294967295 max","end"]}]}"#,
        ),
        commands: "step 0\nstep 1\nstep 2\nstep 3\nstep 4\nshow task t0\nshow task t1\n\
                   show task t2\nshow task t3\nshow task t4\nshow group g0\nshow cores\nback 5\n\
                   show task t4\nshow cores\n",
        replies: "ok at 1\nok at 2\nok at 3\nok at 4\nok at 5\n\
                  task t0 core - pc 0 phase failed:BadBits regs 0,0,0,0,0,0,0,0 data - \
                  notes 0:idle\n\
                  task t1 core - pc 0 phase failed:BadBits regs 0,0,0,0,0,0,0,0 data - \
                  notes 0:idle\n\
                  task t2 core - pc 0 phase failed:BadBits regs 0,0,0,0,0,0,0,0 data - \
                  notes 0:idle\n\
                  task t3 core - pc 0 phase failed:BadBits regs 0,0,0,0,0,0,0,0 data - \
                  notes 0:idle\n\
                  task t4 core - pc 0 phase failed:BadBits regs 0,0,0,0,0,0,0,0 data - \
                  notes 0:idle\n\
                  group g0 bits 0 wait -\n\
                  cores -,-,-,-,- ready - tick 0 turn 5\n\
                  ok at 0\n\
                  task t4 core 4 pc 0 phase run regs 0,0,0,0,0,0,0,0 data - notes 0:idle\n\
                  cores t0,t1,t2,t3,t4 ready - tick 0 turn 0\n",
    },
    FileRun {
        name: "a wish that is met at once, and one that does not wait",
        app: concat!(
            r#"{"profile":1,"cores":1,"groups":[{"name":"g0"}],"#,
            r#""tasks":[{"name":"t0","priority":1,"code":["gset g0 7","gwait g0 2 any keep max","#,
            r#""gwait g0 6 all clear max","gwait g0 3 all clear 0","gwait g0 3 any clear 0","#,
            r#""gwait g0 3 any clear 0","end"]}]}"#,
        ),
        commands: "step 0\nstep 0\nshow group g0\nstep 0\nshow task t0\nshow group g0\nstep 0\n\
                   show task t0\nshow group g0\nstep 0\nshow task t0\nshow group g0\nstep 0\n\
                   show task t0\nback 2\nshow group g0\nback 2\nshow group g0\n",
        replies: "ok at 1\nok at 2\n\
                  group g0 bits 7 wait -\n\
                  ok at 3\n\
                  task t0 core 0 pc 3 phase run regs 7,0,0,0,0,0,0,0 data - notes 0:idle\n\
                  group g0 bits 1 wait -\n\
                  ok at 4\n\
                  task t0 core 0 pc 4 phase run regs 1,0,0,0,0,0,0,0 data - notes 0:idle\n\
                  group g0 bits 1 wait -\n\
                  ok at 5\n\
                  task t0 core 0 pc 5 phase run regs 1,0,0,0,0,0,0,0 data - notes 0:idle\n\
                  group g0 bits 0 wait -\n\
                  ok at 6\n\
                  task t0 core 0 pc 6 phase run regs 0,0,0,0,0,0,0,0 data - notes 0:idle\n\
                  ok at 4\n\
                  group g0 bits 1 wait -\n\
                  ok at 2\n\
                  group g0 bits 7 wait -\n",
    },
    FileRun {
        name: "who waits stands in the order of arrival, and comes back to the same place",
        app: concat!(
            r#"{"profile":1,"cores":4,"groups":[{"name":"g0"}],"#,
            r#""tasks":[{"name":"t0","priority":1,"code":["gwait g0 4 any keep max","end"]},"#,
            r#"{"name":"t1","priority":3,"code":["gwait g0 1 all keep max","end"]},"#,
            r#"{"name":"t2","priority":2,"code":["gwait g0 6 all clear max","end"]},"#,
            r#"{"name":"t3","priority":1,"code":["gset g0 2","gset g0 4","end"]}]}"#,
        ),
        commands: "step 2\nstep 0\nstep 1\nstep 3\nshow group g0\nshow task t3\nstep 3\n\
                   show group g0\nshow cores\nshow task t0\nshow task t3\nstep 1\nshow task t0\n\
                   back 1\nshow task t0\nback 1\nshow group g0\nback 2\nshow group g0\n",
        replies: "ok at 1\nok at 2\nok at 3\nok at 4\n\
                  group g0 bits 2 wait t0:4:any:keep,t1:1:all:keep,t2:6:all:clear\n\
                  task t3 core 3 pc 1 phase run regs 2,0,0,0,0,0,0,0 data - notes 0:idle\n\
                  ok at 5\n\
                  group g0 bits 0 wait t1:1:all:keep\n\
                  cores t2,t0,-,t3 ready - tick 0 turn 4\n\
                  task t0 core 1 pc 0 phase given:6 regs 0,0,0,0,0,0,0,0 data - notes 0:idle\n\
                  task t3 core 3 pc 2 phase run regs 0,0,0,0,0,0,0,0 data - notes 0:idle\n\
                  ok at 6\n\
                  task t0 core 1 pc 1 phase run regs 6,0,0,0,0,0,0,0 data - notes 0:idle\n\
                  ok at 5\n\
                  task t0 core 1 pc 0 phase given:6 regs 0,0,0,0,0,0,0,0 data - notes 0:idle\n\
                  ok at 4\n\
                  group g0 bits 2 wait t0:4:any:keep,t1:1:all:keep,t2:6:all:clear\n\
                  ok at 2\n\
                  group g0 bits 0 wait t0:4:any:keep,t1:1:all:keep\n",
    },
    FileRun {
        name: "a wait times out, and a wish that is not met then clears nothing",
        app: concat!(
            r#"{"profile":1,"cores":1,"groups":[{"name":"g0"}],"#,
            r#""tasks":[{"name":"t0","priority":1,"code":["set r1 6","gset g0 2","#,
            r#""gwait g0 r1 all clear r1","end"]}]}"#,
        ),
        commands: "step 0\nstep 0\nstep 0\nshow task t0\nshow group g0\ntick\ntick\ntick\ntick\n\
                   tick\nshow group g0\ntick\nshow task t0\nshow group g0\nstep 0\nshow task t0\n\
                   show group g0\nback 2\nshow group g0\n",
        replies: "ok at 1\nok at 2\nok at 3\n\
                  task t0 core - pc 2 phase wait:group:g0:6 regs 2,6,0,0,0,0,0,0 data - \
                  notes 0:idle\n\
                  group g0 bits 2 wait t0:6:all:clear\n\
                  ok at 4\nok at 5\nok at 6\nok at 7\nok at 8\n\
                  group g0 bits 2 wait t0:6:all:clear\n\
                  ok at 9\n\
                  task t0 core 0 pc 2 phase again:6 regs 2,6,0,0,0,0,0,0 data - notes 0:idle\n\
                  group g0 bits 2 wait -\n\
                  ok at 10\n\
                  task t0 core 0 pc 3 phase run regs 2,6,0,0,0,0,0,0 data - notes 0:idle\n\
                  group g0 bits 2 wait -\n\
                  ok at 8\n\
                  group g0 bits 2 wait t0:6:all:clear\n",
    },
    FileRun {
        name: "three tasks meet at a barrier",
        app: concat!(
            r#"{"profile":1,"cores":3,"groups":[{"name":"g0"}],"#,
            r#""tasks":[{"name":"t0","priority":1,"code":["gsync g0 1 7 max","end"]},"#,
            r#"{"name":"t1","priority":1,"code":["gsync g0 2 7 max","end"]},"#,
            r#"{"name":"t2","priority":1,"code":["gsync g0 4 7 max","end"]}]}"#,
        ),
        commands: "step 0\nshow group g0\nstep 1\nshow group g0\nstep 2\nshow group g0\n\
                   show task t2\nshow task t0\nshow task t1\nstep 0\nshow task t0\nback 2\n\
                   show group g0\nback 1\nshow group g0\nback 1\nshow group g0\n",
        replies: "ok at 1\n\
                  group g0 bits 1 wait t0:7:all:clear\n\
                  ok at 2\n\
                  group g0 bits 3 wait t0:7:all:clear,t1:7:all:clear\n\
                  ok at 3\n\
                  group g0 bits 0 wait -\n\
                  task t2 core 2 pc 1 phase run regs 7,0,0,0,0,0,0,0 data - notes 0:idle\n\
                  task t0 core 0 pc 0 phase given:7 regs 0,0,0,0,0,0,0,0 data - notes 0:idle\n\
                  task t1 core 1 pc 0 phase given:7 regs 0,0,0,0,0,0,0,0 data - notes 0:idle\n\
                  ok at 4\n\
                  task t0 core 0 pc 1 phase run regs 7,0,0,0,0,0,0,0 data - notes 0:idle\n\
                  ok at 2\n\
                  group g0 bits 3 wait t0:7:all:clear,t1:7:all:clear\n\
                  ok at 1\n\
                  group g0 bits 1 wait t0:7:all:clear\n\
                  ok at 0\n\
                  group g0 bits 0 wait -\n",
    },
    FileRun {
        name: "a sync that its own bits meet, and one that does not wait, while others clear",
        app: concat!(
            r#"{"profile":1,"cores":2,"groups":[{"name":"g0"}],"#,
            r#""tasks":[{"name":"t0","priority":1,"code":["gwait g0 1 any clear max","#,
            r#""gwait g0 4 any clear max","end"]},"#,
            r#"{"name":"t1","priority":1,"code":["gsync g0 3 1 0","gsync g0 6 8 0","end"]}]}"#,
        ),
        commands: "step 0\nstep 1\nshow task t1\nshow group g0\nstep 0\nshow task t0\nstep 0\n\
                   show group g0\nstep 1\nshow task t1\nshow group g0\nshow task t0\nback 1\n\
                   show group g0\nback 3\nshow group g0\n",
        replies: "ok at 1\nok at 2\n\
                  task t1 core 1 pc 1 phase run regs 3,0,0,0,0,0,0,0 data - notes 0:idle\n\
                  group g0 bits 2 wait -\n\
                  ok at 3\n\
                  task t0 core 0 pc 1 phase run regs 3,0,0,0,0,0,0,0 data - notes 0:idle\n\
                  ok at 4\n\
                  group g0 bits 2 wait t0:4:any:clear\n\
                  ok at 5\n\
                  task t1 core 1 pc 2 phase run regs 2,0,0,0,0,0,0,0 data - notes 0:idle\n\
                  group g0 bits 2 wait -\n\
                  task t0 core 0 pc 1 phase given:6 regs 3,0,0,0,0,0,0,0 data - notes 0:idle\n\
                  ok at 4\n\
                  group g0 bits 2 wait t0:4:any:clear\n\
                  ok at 1\n\
                  group g0 bits 0 wait t0:1:any:clear\n",
    },
    FileRun {
        name: "a sync that timed out sets nothing again, and is met by what is there",
        app: concat!(
            r#"{"profile":1,"cores":2,"groups":[{"name":"g0"}],"#,
            r#""tasks":[{"name":"t0","priority":1,"code":["gsync g0 1 6 1","end"]},"#,
            r#"{"name":"t1","priority":1,"code":["gclear g0 1","gset g0 14","end"]}]}"#,
        ),
        commands: "step 0\nshow task t0\nshow group g0\nstep 1\nshow task t1\nshow group g0\n\
                   tick\nstep 1\nshow group g0\nstep 0\nshow task t0\nshow group g0\nback 1\n\
                   show task t0\nshow group g0\nback 3\nshow group g0\n",
        replies: "ok at 1\n\
                  task t0 core - pc 0 phase wait:group:g0:1 regs 0,0,0,0,0,0,0,0 data - \
                  notes 0:idle\n\
                  group g0 bits 1 wait t0:6:all:clear\n\
                  ok at 2\n\
                  task t1 core 1 pc 1 phase run regs 1,0,0,0,0,0,0,0 data - notes 0:idle\n\
                  group g0 bits 0 wait t0:6:all:clear\n\
                  ok at 3\nok at 4\n\
                  group g0 bits 14 wait -\n\
                  ok at 5\n\
                  task t0 core 0 pc 1 phase run regs 14,0,0,0,0,0,0,0 data - notes 0:idle\n\
                  group g0 bits 8 wait -\n\
                  ok at 4\n\
                  task t0 core 0 pc 0 phase again:1 regs 0,0,0,0,0,0,0,0 data - notes 0:idle\n\
                  group g0 bits 14 wait -\n\
                  ok at 1\n\
                  group g0 bits 1 wait t0:6:all:clear\n",
    },
];

// Each call of an event group is as written: whom bits meet, and what is cleared behind them.
#[test]
fn rows(rt: HostRuntime) -> Result<(), Fail> {
    assert_rows(&rt, &ROWS)
}
