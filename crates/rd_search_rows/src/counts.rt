//! What a search has gone through, and which instructions no order came to. The figures were worked
//! out by hand, or by an enumeration that knows nothing of this program.

ghost use Rattle.std.specs.Prelude.{IfOk};
ghost use Rattle.rd_app.specs.Application.{priorities_of};
ghost use Rattle.rd_state.specs.Settled.{IsSettled};
ghost use Rattle.rd_state.specs.Valid.{IsValid};

use crate::asserts::{Quiet, assert_same};
use rd_answer::answer::answer;
use rd_answer::manner::Manner;
use rd_goal::reading::{read_goal, words_of};
use rd_names::app::App;
use rd_origin::origin::origin;
use rd_reach::answer::{FullCause, SearchAnswer, SearchOutcome, SearchRoom};
use rd_reach::came::Came;
use rd_reach::schedule::Schedule;
use rd_script::file::read_app;
use rd_state::state::State;
use std::alloc::{AllocError, Global};
use std::rt::HostRuntime;
use std::test::Fail;

// A task of two instructions. Behind a moves and b ticks it has done a of them, the tick is b, and
// the turn is that of a move or of a tick: so two places for each a and b, but one where either is
// 0. Each place has one depth, a and b together.
const STEPS: &str = concat!(
    r#"{"profile":1,"cores":1,"#,
    r#""tasks":[{"name":"a","priority":1,"code":["set r1 1","end"]}]}"#,
);

// It never jumps.
const BRANCH: &str = concat!(
    r#"{"profile":1,"cores":1,"tasks":[{"name":"a","priority":1,"#,
    r#""code":["set r1 1","jumpz r1 3","end","set r2 9","end"]}]}"#,
);

// It goes round in one instruction, and no tick can come.
const ROUND: &str = concat!(
    r#"{"profile":1,"cores":1,"tick":4294967295,"#,
    r#""tasks":[{"name":"a","priority":1,"code":["jump 0"]}]}"#,
);

// A queue for one item, which one task receives and another sends. Its send never fails. No tick can
// come. On one core there is one order, of seven moves: the receiver waits; the sender sends; the
// receiver receives, and ends; the sender ends.
const MEETING: &str = concat!(
    r#"{"profile":1,"cores":1,"tick":4294967295,"queues":[{"name":"q","length":1,"item":1}],"#,
    r#""tasks":[{"name":"r","priority":2,"code":["recv q max","end"]},"#,
    r#"{"name":"s","priority":1,"#,
    r#""code":["data 41","send q 0","jumpz r0 4","end","set r1 1","end"]}]}"#,
);

// The same on two cores.
const APART: &str = concat!(
    r#"{"profile":1,"cores":2,"tick":4294967295,"queues":[{"name":"q","length":1,"item":1}],"#,
    r#""tasks":[{"name":"r","priority":2,"code":["recv q max","end"]},"#,
    r#"{"name":"s","priority":1,"#,
    r#""code":["data 41","send q 0","jumpz r0 4","end","set r1 1","end"]}]}"#,
);

// It waits for what nobody sends.
const WAITING: &str = concat!(
    r#"{"profile":1,"cores":1,"queues":[{"name":"q","length":1,"item":1}],"#,
    r#""tasks":[{"name":"r","priority":2,"code":["recv q max","end"]}]}"#,
);

// An answer, an order by its length.
#[derive(Clone, Copy, Debug, PartialEq)]
enum SearchEnded {
    Found(usize),
    NotWithin(u32),
    Never,
    Full(u32, FullCause),
}

// What was gone through for an answer.
#[derive(Clone, Copy, Debug, PartialEq)]
struct Figures {
    ended: SearchEnded,
    states: usize,
    moves: u64,
    deepest: usize,
    within: u32,
}

// What is asked: of which application, behind which command lines, by which pace, with how many
// surprises, for which goal, within how many choices and with room for how many places. What was
// gone through for it, and a mark for each instruction of each task: '#' where an order came to it.
#[derive(Clone, Copy)]
struct SearchRow {
    app: &'static str,
    lines: &'static str,
    goal: &'static str,
    pace: (u8, Option<u8>),
    surprises: Option<u8>,
    most: u32,
    room: usize,
    figures: Figures,
    came: &'static str,
}

// All orders of at most so many choices, from boot, for a call that fails.
const PLAIN: SearchRow = SearchRow {
    app: STEPS,
    lines: "",
    goal: "failed",
    pace: (0, None),
    surprises: None,
    most: 20,
    room: 1_000,
    figures: Figures {
        ended: SearchEnded::Never,
        states: 0,
        moves: 0,
        deepest: 0,
        within: 0,
    },
    came: "",
};

const ROWS: [SearchRow; 11] = [
    // 1 place at the start, 2 by moves alone, 3 by ticks alone, and 2 for each of (1, 1), (1, 2) and
    // (2, 1). From each of depth 0, 1 and 2 there is a tick, and from all but (2, 0) a move.
    SearchRow {
        most: 3,
        figures: Figures {
            ended: SearchEnded::NotWithin(3),
            states: 12,
            moves: 13,
            deepest: 3,
            within: 3,
        },
        came: "##",
        ..PLAIN
    },
    // Within 8 choices there are 37 places and 53 moves, within 10 there are 47 and 69. Both are gone
    // through, one after the other.
    SearchRow {
        most: 10,
        figures: Figures {
            ended: SearchEnded::NotWithin(10),
            states: 47,
            moves: 122,
            deepest: 10,
            within: 10,
        },
        came: "##",
        ..PLAIN
    },
    // Within 8 choices all was gone through; of 16 there is no room for the 41st place.
    SearchRow {
        room: 40,
        figures: Figures {
            ended: SearchEnded::Full(8, FullCause::States),
            states: 40,
            moves: 106,
            deepest: 16,
            within: 8,
        },
        came: "##",
        ..PLAIN
    },
    // It is so at the start, so nothing is gone through.
    SearchRow {
        goal: "reg a 1 = 0",
        figures: Figures {
            ended: SearchEnded::Found(0),
            states: 0,
            moves: 0,
            deepest: 0,
            within: 0,
        },
        came: "#.",
        ..PLAIN
    },
    // Without a surprise there is one order: a move, a tick, a move. Then it is looked for within 2
    // choices.
    SearchRow {
        goal: "ended a",
        surprises: Some(0),
        figures: Figures {
            ended: SearchEnded::Found(3),
            states: 3,
            moves: 5,
            deepest: 3,
            within: 2,
        },
        came: "##",
        ..PLAIN
    },
    // One move from tick to tick: there is one order, of a move, a tick, a move, and ticks.
    SearchRow {
        pace: (1, Some(1)),
        most: 4,
        figures: Figures {
            ended: SearchEnded::NotWithin(4),
            states: 5,
            moves: 4,
            deepest: 4,
            within: 4,
        },
        came: "##",
        ..PLAIN
    },
    // As the first, by three moves.
    SearchRow {
        app: BRANCH,
        most: 4,
        figures: Figures {
            ended: SearchEnded::NotWithin(4),
            states: 20,
            moves: 25,
            deepest: 4,
            within: 4,
        },
        came: "###..",
        ..PLAIN
    },
    // At the start the turn is another one than behind a move. The second move leads to where the
    // first did.
    SearchRow {
        app: ROUND,
        figures: Figures {
            ended: SearchEnded::Never,
            states: 2,
            moves: 2,
            deepest: 2,
            within: 0,
        },
        came: "#",
        ..PLAIN
    },
    SearchRow {
        app: MEETING,
        figures: Figures {
            ended: SearchEnded::Never,
            states: 8,
            moves: 7,
            deepest: 7,
            within: 0,
        },
        came: "## ####..",
        ..PLAIN
    },
    // Whether the receiver waits or not, it comes to the same places, without a wait by one move
    // less: from these all is gone through again.
    SearchRow {
        app: APART,
        figures: Figures {
            ended: SearchEnded::Never,
            states: 21,
            moves: 39,
            deepest: 7,
            within: 0,
        },
        came: "## ####..",
        ..PLAIN
    },
    // Nothing comes but ticks. The task is on no core, and is in the instruction in which it waits.
    SearchRow {
        app: WAITING,
        lines: "step 0",
        most: 2,
        figures: Figures {
            ended: SearchEnded::NotWithin(2),
            states: 3,
            moves: 2,
            deepest: 2,
            within: 2,
        },
        came: "#.",
        ..PLAIN
    },
];

// The application of a row, and where it is searched from.
fn begin(alloc: Global, row: SearchRow) -> Result<(App, State), Fail>
    ensures valid { IfOk result (λ begun. IsValid begun.0.runs begun.1) }
    ensures settled { IfOk result (λ begun. IsSettled (priorities_of begun.0.runs) begun.1) }
{
    let app = read_app(alloc, row.app.as_bytes())?;
    let start = origin(alloc, &app, row.lines)?;
    Ok((app, start))
}

// The answer to what a row asks.
fn ask(alloc: Global, app: &App, start: State, row: SearchRow) -> Result<SearchOutcome, Fail>
    requires valid { IsValid app.now.runs start }
    requires settled { IsSettled (priorities_of app.now.runs) start }
{
    let words = words_of(alloc, row.goal.as_bytes())?;
    let goal = read_goal(alloc, app, words.as_slice())?;
    let (at_least, at_most) = row.pace;
    let schedule = Schedule::new(at_least, at_most, Vec::new(alloc), row.surprises).unwrap();
    let room = SearchRoom {
        states: row.room,
        bytes: 1_000_000,
    };
    app.limits();
    Ok(answer(
        alloc,
        app.program(),
        &goal,
        &schedule,
        start,
        Manner {
            most: Some(row.most),
            exact: true,
        },
        &room,
        &mut Quiet,
    )?)
}

fn figures_of(outcome: &SearchOutcome) -> Figures {
    let ended = match &outcome.answer {
        SearchAnswer::Found(order) => SearchEnded::Found(order.len()),
        SearchAnswer::NotWithin(most) => SearchEnded::NotWithin(*most),
        SearchAnswer::Never => SearchEnded::Never,
        SearchAnswer::Full(depth, cause) => SearchEnded::Full(*depth, *cause),
    };
    Figures {
        ended,
        states: outcome.counts.states,
        moves: outcome.counts.moves,
        deepest: outcome.counts.deepest,
        within: outcome.counts.within,
    }
}

// A mark for each instruction of each task, with a space between tasks.
fn marks(alloc: Global, app: &App, came: &Came) -> Result<String, AllocError> {
    let mut marks = String::new(alloc);
    for task in 0..app.program().priorities().len() {
        if task > 0 {
            marks.push_str(" ")?;
        }
        for instruction in 0..app.program().code(task).len() {
            marks.push_str(if came.came(task, instruction) {
                "#"
            } else {
                "."
            })?;
        }
    }
    Ok(marks)
}

#[test]
fn a_search_says_what_it_went_through(rt: HostRuntime) -> Result<(), Fail> {
    let alloc = rt.alloc();
    for row in ROWS {
        let (app, start) = begin(alloc, row)?;
        let outcome = ask(alloc, &app, start, row)?;
        assert_same(&rt, figures_of(&outcome), row.figures);
    }
    Ok(())
}

#[test]
fn a_search_says_which_instructions_no_order_came_to(rt: HostRuntime) -> Result<(), Fail> {
    let alloc = rt.alloc();
    for row in ROWS {
        let (app, start) = begin(alloc, row)?;
        let outcome = ask(alloc, &app, start, row)?;
        let marks = marks(alloc, &app, &outcome.came)?;
        assert_same(&rt, marks.as_str(), row.came);
    }
    Ok(())
}
