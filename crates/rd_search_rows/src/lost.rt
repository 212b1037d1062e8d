//! Where goals are lost in runs. The figures were worked out by hand.

ghost use Rattle.std.specs.Prelude.{◌≡◌};

use crate::asserts::{Quiet, assert_same};
use rd_answer::manner::Manner;
use rd_answer::onlooker::Onlooker;
use rd_goal::reading::{read_goal, words_of};
use rd_lost::lost::lost;
use rd_lost::outcome::{Lost, LostOutcome, Untold};
use rd_names::app::App;
use rd_origin::run::Run;
use rd_reach::answer::{FullCause, SearchCounts, SearchRoom, Watch};
use rd_reach::schedule::Schedule;
use rd_script::file::read_app;
use std::alloc::Global;
use std::rt::HostRuntime;
use std::test::Fail;

// One task counts what lies in a queue, and where nothing does it sets a register to 9; the other,
// on a core of its own, puts an item there. No tick can come.
const LOOK: &str = concat!(
    r#"{"profile":1,"cores":2,"tick":4294967295,"queues":[{"name":"q","length":1,"item":1}],"#,
    r#""tasks":[{"name":"a","priority":1,"code":["count q","jumpz r0 3","end","set r2 9","end"]},"#,
    r#"{"name":"b","priority":1,"code":["data 41","send q 0","end"]}]}"#,
);

// It counts in a register, 1 to 4. No tick can come.
const COUNT: &str = concat!(
    r#"{"profile":1,"cores":1,"tick":4294967295,"tasks":[{"name":"a","priority":1,"#,
    r#""code":["set r1 1","set r1 2","set r1 3","set r1 4","end"]}]}"#,
);

// The example of a lost item (examples/lost_item.json).
const LOST_ITEM: &str = concat!(
    r#"{"profile":1,"cores":2,"queues":[{"name":"jobs","length":1,"item":1}],"tasks":["#,
    r#"{"name":"worker","priority":2,"code":["recv jobs max","jump 0"]},"#,
    r#"{"name":"producer","priority":1,"code":["data 41","send jobs 0","end"]},"#,
    r#"{"name":"poller","priority":1,"code":["recv jobs 0","jump 0"]}]}"#,
);

// The example of a lost wake-up (examples/lost_wakeup.json).
const LOST_WAKEUP: &str = concat!(
    r#"{"profile":2,"cores":4,"queues":[{"name":"keys","length":1,"item":1},"#,
    r#"{"name":"in","length":1,"item":1},{"name":"out","length":1,"item":1}],"tasks":["#,
    r#"{"name":"gate","priority":1,"code":["count in","jumpz r0 5","recv in 0","send out max","#,
    r#""jump 0","vclear gate 0 4294967295","notify keypad 0 0 inc","take 0 clear max","jump 0"]},"#,
    r#"{"name":"keypad","priority":1,"code":["take 0 dec max","data 6b","send keys max","jump 0"]},"#,
    r#"{"name":"console","priority":1,"#,
    r#""code":["recv keys max","send in max","notify gate 0 0 inc","jump 0"]},"#,
    r#"{"name":"uplink","priority":1,"code":["recv out max","jump 0"]}]}"#,
);

// What is said of a goal, an order by its length.
#[derive(Clone, Copy, Debug, PartialEq)]
enum GoalTold {
    Still(usize),
    At(usize, usize),
    Never,
    // from where it is known to be lost; from where it can come, and the order; from where it can't
    // be told, and why
    Full(Option<usize>, Option<(usize, usize)>, usize, Untold),
}

// What is asked: of which application, behind which command lines, for which goal, whether states are
// told apart to the last field, within how many choices, if not by any number, and with room for how
// many places. What is told, and of how many places it was asked.
#[derive(Clone, Copy)]
struct LostRow {
    app: &'static str,
    lines: &'static str,
    goal: &'static str,
    exact: bool,
    most: Option<u32>,
    room: usize,
    told: GoalTold,
    asked: usize,
}

// Whether the one that counts can still come to 9, before anything is done: it counts, jumps and
// sets.
const LOOKED: LostRow = LostRow {
    app: LOOK,
    lines: "",
    goal: "reg a 2 = 9",
    exact: true,
    most: None,
    room: 1_000,
    told: GoalTold::Still(3),
    asked: 1,
};

// Whether the one that counts in a register can come to 9: never. Asked of 5, 2, 1 and 0.
const COUNTED: LostRow = LostRow {
    app: COUNT,
    lines: "step 0\nstep 0\nstep 0\nstep 0\nstep 0",
    goal: "reg a 1 = 9",
    exact: true,
    most: None,
    room: 1_000,
    told: GoalTold::Never,
    asked: 4,
};

const ROWS: [LostRow; 19] = [
    LOOKED,
    // It has counted: jumps and sets. The item comes too late.
    LostRow {
        lines: "step 0\nstep 1\nstep 1",
        told: GoalTold::Still(2),
        ..LOOKED
    },
    // The goal holds at the last place.
    LostRow {
        lines: "step 0\nstep 0\nstep 0",
        told: GoalTold::Still(0),
        asked: 0,
        ..LOOKED
    },
    // The last move puts the item there. Asked of the last place and of 1.
    LostRow {
        lines: "step 1\nstep 1",
        told: GoalTold::At(2, 3),
        asked: 2,
        ..LOOKED
    },
    // The first does: asked of 4, 2, 1 and 0.
    LostRow {
        app: concat!(
            r#"{"profile":1,"cores":2,"tick":4294967295,"queues":[{"name":"q","length":1,"item":1}],"#,
            r#""tasks":[{"name":"a","priority":1,"code":["count q","jumpz r0 3","end","set r2 9","end"]},"#,
            r#"{"name":"b","priority":1,"code":["send q 0","end"]}]}"#,
        ),
        lines: "step 1\nstep 0\nstep 0\nstep 0",
        told: GoalTold::At(1, 3),
        asked: 4,
        ..LOOKED
    },
    // That the item comes is undone.
    LostRow {
        lines: "step 1\nstep 1\nback 1",
        ..LOOKED
    },
    // It is lost at the first place that is kept, 2. Asked of 4, 3 and 2.
    LostRow {
        lines: "step 1\nstep 1\nstep 0\nstep 0\ntrim 2",
        told: GoalTold::Never,
        asked: 3,
        ..LOOKED
    },
    // It is lost by the second move, and the records of the last two are kept. Asked of 3, 2 and 1.
    LostRow {
        lines: "step 1\nstep 1\nstep 0\ntrim 2",
        told: GoalTold::At(2, 3),
        asked: 3,
        ..LOOKED
    },
    // Of at most three choices an order comes from place 1. None comes from 2, and longer ones aren't
    // looked for. Asked of 2 and 1.
    LostRow {
        lines: "step 1\nstep 1",
        most: Some(3),
        told: GoalTold::Full(None, Some((1, 3)), 2, Untold::NotWithin(3)),
        asked: 2,
        ..LOOKED
    },
    // Of at most two choices none comes from any. Asked of 2, 1 and 0.
    LostRow {
        lines: "step 1\nstep 1",
        most: Some(2),
        told: GoalTold::Full(None, None, 0, Untold::NotWithin(2)),
        asked: 3,
        ..LOOKED
    },
    COUNTED,
    // Nothing was done. Asked of 0.
    LostRow {
        lines: "",
        asked: 1,
        ..COUNTED
    },
    // It has come to 2 once, behind two moves, and never does again: asked of 5, 4 and 3.
    LostRow {
        goal: "reg a 1 = 2",
        told: GoalTold::At(3, 0),
        asked: 3,
        ..COUNTED
    },
    // An edit, the ninth of eleven moves, brings it to 9; no order does. So it is lost by the tenth.
    // Asked of 11 and 10.
    LostRow {
        lines: concat!(
            "step 0\nstep 0\npoke pc a 0\nstep 0\nstep 0\npoke pc a 0\nstep 0\nstep 0\n",
            "poke reg a 1 9\nstep 0\nstep 0",
        ),
        told: GoalTold::At(10, 0),
        asked: 2,
        ..COUNTED
    },
    // An edit brings it back to its first instruction: it comes to 1 again, and is lost again, by
    // the same move.
    LostRow {
        lines: "step 0\nstep 0\npoke pc a 0\nstep 0\nstep 0",
        goal: "reg a 1 = 1",
        told: GoalTold::At(5, 0),
        asked: 1,
        ..COUNTED
    },
    // From place N there are 6 - N places left to come to, and there is room for three. So nothing
    // is told of 2, 1 and 0. Asked of 5, 2, 1, 0 and 3.
    LostRow {
        room: 3,
        told: GoalTold::Full(Some(3), None, 0, Untold::Full(0, FullCause::States)),
        asked: 5,
        ..COUNTED
    },
    // The same where it was 1 behind the first move, and there is room for two: of 5 and 4 it is
    // known to be lost, of 3 and 2 nothing is told. Asked of 5, 3, 2 and 4.
    LostRow {
        goal: "reg a 1 = 1",
        room: 2,
        told: GoalTold::Full(Some(4), Some((1, 0)), 2, Untold::Full(0, FullCause::States)),
        asked: 4,
        ..COUNTED
    },
    // The poller takes the job with the eighth of nine moves. Before it a tick and then the worker are
    // no surprise. Asked of 9, 4, 7 and 8.
    LostRow {
        app: LOST_ITEM,
        lines: "until count jobs > 0 50\nstep 1\nstep 1\nstep 1\nstep 0",
        goal: "at worker 1",
        exact: false,
        told: GoalTold::At(8, 2),
        asked: 4,
        ..LOOKED
    },
    // The gate has seen that nothing is there, and then the radio puts a frame there: nobody is left
    // to ring behind it. Without the frame 38 moves of the policy lead to where the uplink has a key.
    // Asked of 24, 12, 6, 3, 1 and 2.
    LostRow {
        app: LOST_WAKEUP,
        lines: concat!(
            "step 0\nisr send in 72\nisr notify gate 0 0 inc\nstep 1\nstep 2\nstep 3\ntick\n",
            "step 0\ntick\nstep 0\ntick\nstep 0\nstep 1\ntick\nstep 0\nstep 1\ntick\nstep 1\n",
            "tick\nstep 0\nstep 1\ntick\nstep 0\nstep 1",
        ),
        goal: "at uplink 1",
        exact: false,
        room: 100_000,
        told: GoalTold::At(2, 38),
        asked: 6,
        ..LOOKED
    },
];

// What is told of a run of the application, which is ended.
fn ask(alloc: Global, app: &App, row: LostRow, run: &mut Run) -> Result<LostOutcome, Fail>
    requires { run.old.app ≡ app.now.runs }
{
    let words = words_of(alloc, row.goal.as_bytes())?;
    let goal = read_goal(alloc, app, words.as_slice())?;
    let schedule = Schedule::new(0, None, Vec::new(alloc), None).unwrap();
    let room = SearchRoom {
        states: row.room,
        bytes: 100_000_000,
    };
    let manner = Manner {
        most: row.most,
        exact: row.exact,
    };
    app.limits();
    Ok(lost(
        alloc,
        app.program(),
        &goal,
        &schedule,
        run,
        manner,
        &room,
        &mut Quiet,
    ))
}

fn told_of(lost: &Lost) -> GoalTold {
    match lost {
        Lost::Still(order) => GoalTold::Still(order.len()),
        Lost::At { place, before } => GoalTold::At(*place, before.len()),
        Lost::Never => GoalTold::Never,
        Lost::Full {
            known_lost,
            can_come,
            place,
            untold,
        } => {
            let can_come = match can_come {
                Some(way) => Some((way.place, way.order.len())),
                None => None,
            };
            GoalTold::Full(*known_lost, can_come, *place, *untold)
        }
    }
}

#[test]
fn a_goal_is_lost_by_a_move(rt: HostRuntime) -> Result<(), Fail> {
    let alloc = rt.alloc();
    for row in ROWS {
        let app = read_app(alloc, row.app.as_bytes())?;
        let mut run = Run::of(alloc, &app, row.lines)?;
        let outcome = ask(alloc, &app, row, &mut run);
        run.close();
        let outcome = outcome?;
        assert_same(&rt, told_of(&outcome.lost), row.told);
        assert_same(&rt, outcome.effort.asked, row.asked);
    }
    Ok(())
}
