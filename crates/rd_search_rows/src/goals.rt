//! Goals as words: what each is at boot, and why words are none.

ghost use Rattle.std.specs.Prelude.{IfOk};
ghost use Rattle.rd_state.specs.Valid.{IsValid};

use crate::asserts::assert_same;
use rd_goal::reading::{NoGoal, read_goal, words_of};
use rd_names::app::App;
use rd_script::file::read_app;
use rd_state::state::State;
use std::alloc::Global;
use std::rt::HostRuntime;
use std::test::Fail;

// Two tasks on one core: at boot `high` runs and `low` is ready, the queue is empty, the group has
// no bits. A stream and a message buffer have one name.
const APP: &str = concat!(
    r#"{"profile":1,"cores":1,"notes":2,"queues":[{"name":"q","length":1,"item":1}],"#,
    r#""sets":[{"name":"s","length":1,"members":["q"]}],"#,
    r#""streams":[{"name":"b","size":4,"trigger":1},{"name":"one","size":4,"trigger":1}],"#,
    r#""messages":[{"name":"m","size":8},{"name":"one","size":8}],"groups":[{"name":"g"}],"#,
    r#""tasks":[{"name":"high","priority":2,"code":["set r1 1","end"]},"#,
    r#"{"name":"low","priority":1,"code":["end"]}]}"#,
);

// Each goal with whether it holds at boot.
const GOALS: [(&str, bool); 34] = [
    ("tick = 0", true),
    ("tick > 0", false),
    ("count q < 1", true),
    ("bytes b = 0", true),
    ("msgs m = 0", true),
    ("bits g & 3 = 0", true),
    ("bits g & 3 > 0", false),
    ("note low 1 & 255 = 0", true),
    ("reg high 1 & 1 = 1", false),
    ("reg high 1 = reg low 7", true),
    ("reg high 1 < reg low 7", false),
    ("pc low = 0", true),
    ("phase high run", true),
    ("at high 0", true),
    ("at high 1", false),
    ("waits low", false),
    ("waits low recv q", false),
    ("waits low select s or runs high", true),
    ("runs high", true),
    ("runs low", false),
    ("ended high", false),
    ("failed", false),
    ("failed high", false),
    ("finished", false),
    ("asleep", false),
    ("not asleep", true),
    ("not not asleep", false),
    ("runs high or asleep and asleep", true),
    ("(runs high or asleep) and asleep", false),
    ("not asleep and asleep", false),
    ("not (asleep and asleep)", true),
    ("asleep and asleep or runs high", true),
    ("((runs high))and(not asleep)", true),
    ("asleep or asleep or not runs high", false),
];

// Why words are no goal, and at which of them.
#[derive(Clone, Copy, Debug, PartialEq)]
enum Why {
    Wanted(usize),
    Ends,
    Either(usize),
    Unopened(usize),
    Unclosed,
    TooLong,
}

const REFUSED: [(&str, Why); 18] = [
    ("", Why::Ends),
    ("sleeps", Why::Wanted(1)),
    ("count", Why::Ends),
    ("count x = 0", Why::Wanted(2)),
    ("count high = 0", Why::Wanted(2)),
    ("count q 0", Why::Wanted(3)),
    ("count q = many", Why::Wanted(4)),
    ("tick = 4294967296", Why::Wanted(3)),
    ("reg high 8 = 0", Why::Wanted(3)),
    ("note high 2 = 0", Why::Wanted(3)),
    ("at low 1", Why::Wanted(3)),
    ("waits low for q", Why::Wanted(3)),
    ("waits low read one", Why::Either(4)),
    ("asleep failed", Why::Wanted(2)),
    ("asleep and", Why::Ends),
    ("asleep )", Why::Unopened(2)),
    ("( asleep", Why::Unclosed),
    ("asleep or ( asleep and ( asleep )", Why::Unclosed),
];

fn boot(alloc: Global) -> Result<(App, State), Fail>
    ensures { IfOk result (λ booted. IsValid booted.0.runs booted.1) }
{
    let app = read_app(alloc, APP.as_bytes())?;
    let state = State::boot(alloc, app.program())?;
    Ok((app, state))
}

// Whether the goal that this text is holds in the state.
fn holds(alloc: Global, app: &App, state: &State, text: &str) -> Result<bool, Fail>
    requires { IsValid app.now.runs state.now }
{
    let words = words_of(alloc, text.as_bytes())?;
    let goal = read_goal(alloc, app, words.as_slice())?;
    Ok(goal.holds(app.program(), state))
}

#[test]
fn goals_hold_at_boot_as_they_say(rt: HostRuntime) -> Result<(), Fail> {
    let alloc = rt.alloc();
    let (app, state) = boot(alloc)?;
    for (text, wanted) in GOALS {
        assert_same(&rt, holds(alloc, &app, &state, text)?, wanted);
    }
    Ok(())
}

fn reason(refused: &NoGoal) -> Option<Why> {
    match refused {
        NoGoal::Wanted { at, .. } => Some(Why::Wanted(*at)),
        NoGoal::Ends { .. } => Some(Why::Ends),
        NoGoal::Either { at } => Some(Why::Either(*at)),
        NoGoal::Unopened { at } => Some(Why::Unopened(*at)),
        NoGoal::Unclosed => Some(Why::Unclosed),
        NoGoal::TooLong => Some(Why::TooLong),
        NoGoal::NoMemory => None,
    }
}

#[test]
fn words_that_are_no_goal_are_refused_for_their_reason(rt: HostRuntime) -> Result<(), Fail> {
    let alloc = rt.alloc();
    let (app, _state) = boot(alloc)?;
    for (text, wanted) in REFUSED {
        let words = words_of(alloc, text.as_bytes())?;
        match read_goal(alloc, &app, words.as_slice()) {
            Ok(_goal) => assert_same(&rt, None, Some(wanted)),
            Err(refused) => assert_same(&rt, reason(&refused), Some(wanted)),
        }
    }
    Ok(())
}

#[test]
fn a_goal_of_over_64_rows_is_too_long(rt: HostRuntime) -> Result<(), Fail> {
    let alloc = rt.alloc();
    let (app, _state) = boot(alloc)?;
    let mut words: Vec<&[u8]> = Vec::new(alloc);
    for _ in 0..32 {
        words.push(b"asleep")?;
        words.push(b"or")?;
    }
    words.push(b"asleep")?;
    match read_goal(alloc, &app, words.as_slice()) {
        Ok(_goal) => assert_same(&rt, None, Some(Why::TooLong)),
        Err(refused) => assert_same(&rt, reason(&refused), Some(Why::TooLong)),
    }
    Ok(())
}
