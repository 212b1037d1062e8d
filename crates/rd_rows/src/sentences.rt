//! What errors say to a person.

use crate::asserts::assert_same;
use rd_refusal::refusal::Refusal;
use std::test::Fail;

const SENTENCES: [(Refusal, &str); 18] = [
    (Refusal::NoTask, "no task is on this core"),
    (Refusal::TickLimit, "the tick is the last that there is"),
    (
        Refusal::TooFar { kept: 3 },
        "there are only 3 moves to go back",
    ),
    (
        Refusal::NothingUndone,
        "fewer moves are undone than would be made again",
    ),
    (Refusal::MovesFull, "the moves done are at their limit"),
    (Refusal::Held { holder: 2 }, "session 2 has the wheel"),
    (
        Refusal::NoSuch,
        "there is no such core, register, notification, object or task",
    ),
    (
        Refusal::BadEdit,
        "the edit would leave something that can't be",
    ),
    (
        Refusal::NoIsr,
        "an application of profile 1 has no interrupts",
    ),
    (Refusal::HistoryFull, "the history is full"),
    (Refusal::NoMemory, "there is no memory"),
    (Refusal::Syntax, "the line is no command"),
    (Refusal::LineTooLong, "the line has more than 1,024 bytes"),
    (
        Refusal::WatchesFull,
        "the session has as many watches as it may have",
    ),
    (
        Refusal::NoWatch,
        "the session has no watch with this number",
    ),
    (
        Refusal::NotHolder,
        "the session doesn't have the wheel that it would give",
    ),
    (
        Refusal::Broken,
        "the session's receipts aren't those of the history",
    ),
    (Refusal::Full, "as many sessions have joined as may"),
];

// What is said of each refusal.
#[test]
fn refusals(rt: HostRuntime) -> Result<(), Fail> {
    for (refusal, want) in SENTENCES {
        let text = refusal.to_string(rt.alloc())?;
        assert_same(&rt, text.as_str(), want);
    }
    Ok(())
}
