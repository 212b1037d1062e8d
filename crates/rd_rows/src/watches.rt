//! The wheel and watches of the program's one session, and its history.

use crate::programs::{assert_ending, run_file};
use crate::tasks::{FileRun, assert_rows};
use std::test::Fail;

// The built-in application.
const BUILTIN: &str = concat!(
    r#"{"profile":1,"cores":1,"queues":[{"name":"q0","length":2,"item":1}],"#,
    r#""tasks":[{"name":"t0","priority":1,"code":["data 41","send q0 0","send q0 0","#,
    r#""send q0 0","end"]}]}"#,
);

/// A watch, and what is refused, to the built-in application, and what is answered.
pub const WATCHES: &str = "watch tick > 0\ntick\nshow watches\nback until w0\nunwatch 3\n\
     wheel give\nstep 9\npoke pc t0 5\n";

pub const WATCHES_REPLIES: &str = "ok watch 0\nok at 1\nwatches 0:holds\nok at 0 start\n\
     no NoWatch\nno NotHolder\nno NoSuch\nno BadEdit\n";

const ROWS: [FileRun; 7] = [
    FileRun {
        name: "watches",
        app: BUILTIN,
        commands: WATCHES,
        replies: WATCHES_REPLIES,
    },
    FileRun {
        name: "a 17th watch",
        app: BUILTIN,
        commands: "watch tick = 0\nwatch tick = 1\nwatch tick = 2\nwatch tick = 3\n\
                   watch tick = 4\nwatch tick = 5\nwatch tick = 6\nwatch tick = 7\n\
                   watch tick = 8\nwatch tick = 9\nwatch tick < 1\nwatch tick < 2\n\
                   watch tick < 3\nwatch tick < 4\nwatch tick < 5\nwatch tick < 6\n\
                   watch tick < 7\nwatch count q9 = 0\nshow watches\nunwatch 15\nunwatch 3\n\
                   watch pc t0 = 1\nwatch pc t0 = 0\nwatch pc t0 = 0\nshow watches\n",
        replies: "ok watch 0\nok watch 1\nok watch 2\nok watch 3\nok watch 4\nok watch 5\n\
                  ok watch 6\nok watch 7\nok watch 8\nok watch 9\nok watch 10\nok watch 11\n\
                  ok watch 12\nok watch 13\nok watch 14\nok watch 15\nno WatchesFull\n\
                  no NoSuch\n\
                  watches 0:holds,1:fails,2:fails,3:fails,4:fails,5:fails,6:fails,7:fails,\
                  8:fails,9:fails,10:holds,11:holds,12:holds,13:holds,14:holds,15:holds\n\
                  ok watch 15\nok watch 3\nok watch 3\nok watch 15\nno WatchesFull\n\
                  watches 0:holds,1:fails,2:fails,3:fails,4:fails,5:fails,6:fails,7:fails,\
                  8:fails,9:fails,10:holds,11:holds,12:holds,13:holds,14:holds,15:holds\n",
    },
    FileRun {
        name: "runs to a watch",
        app: BUILTIN,
        commands: "watch count q0 = 1\nuntil w0 9\nuntil w0 2\nback until w00\nback until w0\n\
                   until w0 2\nshow watches\nunwatch 0\nuntil w0 9\nback until w0\nshow watches\n",
        replies: "ok watch 0\nok at 3 met\nok at 4 met\nok at 3 met\nok at 0 start\nok at 2 limit\n\
                  watches 0:fails\nok watch 0\nno NoWatch\nno NoWatch\nwatches -\n",
    },
    FileRun {
        name: "no watches",
        app: BUILTIN,
        commands: "watch\nwatch w0\nwatch tick\nwatch tick = 0 1\nunwatch\nunwatch w0\n\
                   unwatch 4294967296\nuntil w16 1\nuntil w 1\nuntil w0\nuntil w0 0\n\
                   until w0 1000001\nback until w16\nback until w0 1\nback until W0\n\
                   show watch\nshow watches 0\n",
        replies: "no Syntax\nno Syntax\nno Syntax\nno Syntax\nno Syntax\nno Syntax\n\
                  no Syntax\nno Syntax\nno Syntax\nno Syntax\nno Syntax\n\
                  no Syntax\nno Syntax\nno Syntax\nno Syntax\n\
                  no Syntax\nno Syntax\n",
    },
    FileRun {
        name: "numbers of watches that aren't set",
        app: BUILTIN,
        commands: "unwatch 0\nunwatch 16\nunwatch 4294967295\nuntil w15 1\nback until w7\n\
                   until w0000000015 1\n",
        replies: "no NoWatch\nno NoWatch\nno NoWatch\nno NoWatch\nno NoWatch\nno NoWatch\n",
    },
    FileRun {
        name: "the wheel of one session",
        app: BUILTIN,
        commands: "show wheel\nwheel give\nwheel take\nshow wheel\nwheel take\nstep 0\nback 1\n\
                   redo 1\nwheel give\nshow wheel\nwheel give\nshow moves\n",
        replies: "wheel -\nno NotHolder\nok wheel\nwheel 1\nok wheel\nok at 1\nok at 0\n\
                  ok at 1\nok wheel\nwheel -\nno NotHolder\nmoves 1 undone 0 kept 1\n",
    },
    FileRun {
        name: "no wheels",
        app: BUILTIN,
        commands: "wheel\nwheel turn\nwheel take 1\nwheel give 1\nshow wheels\nshow wheel 1\n\
                   WHEEL take\n",
        replies: "no Syntax\nno Syntax\nno Syntax\nno Syntax\nno Syntax\nno Syntax\nno Syntax\n",
    },
];

// Watches are numbered and kept as written, and the wheel of one session holds nobody up.
#[test]
fn watches_and_the_wheel(rt: HostRuntime) -> Result<(), Fail> {
    assert_rows(&rt, &ROWS)
}

// Refusals take places too, but for Syntax and for want of a place.
#[test]
fn full_history(rt: HostRuntime) -> Result<(), Fail> {
    let words = ["--history", "4"];
    let app = BUILTIN.as_bytes();
    let commands = "step 0\nstep 0\nstep 0\n";
    let replies = "ok at 1\nok at 2\nno HistoryFull\n";
    let ending = run_file(&rt, "history.json", app, &words, commands)?;
    assert_ending(&rt, &ending, 0, replies, "");

    let commands = "fly\nback 1\nstep\nshow moves\nshow moves\nfly\nstep 9\n";
    let replies = "no Syntax\nno TooFar 0\nno Syntax\nmoves 0 undone 0 kept 0\nno HistoryFull\n\
                   no Syntax\nno HistoryFull\n";
    let ending = run_file(&rt, "history.json", app, &words, commands)?;
    assert_ending(&rt, &ending, 0, replies, "");

    let words = ["--history", "2"];
    let replies = "no HistoryFull\n";
    let ending = run_file(&rt, "history.json", app, &words, "show queue q0\n")?;
    assert_ending(&rt, &ending, 0, replies, "");
    Ok(())
}
