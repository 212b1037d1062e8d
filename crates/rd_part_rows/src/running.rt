//! Runs both ways: on by policy, to where a condition holds, back, and again.

ghost use Rattle.std.specs.Prelude.{◌≡◌, ◌<◌};
ghost use Rattle.rd_condition.specs.declared.condition.Amount.TheVariants.{Register, Tick};
ghost use Rattle.rd_condition.specs.declared.condition.Comparison.TheVariants.{Equal, Greater};
ghost use Rattle.rd_condition.specs.declared.condition.Condition.TheVariants.{Compares};

use crate::asserts::assert_same;
use crate::files::read;
use rd_condition::condition::{Amount, Comparison, Condition};
use rd_refusal::refusal::Refusal;
use rd_timeline::running::FoundPlace;
use rd_timeline::timeline::Timeline;
use std::process::Abort;
use std::test::Fail;

// The first of each six moves makes r1 1, the third makes it 2, and each second is a tick.
const ONE_TWO: &str = concat!(
    r#"{"profile":1,"cores":1,"#,
    r#""tasks":[{"name":"t0","priority":1,"code":["set r1 1","set r1 2","jump 0"]}]}"#,
);

// Register 1 of the first task has this value.
fn r1_is(value: u32) -> Condition
    ensures { result ≡ Compares (Register 0 1) Equal value }
{
    Condition::Compares {
        amount: Amount::Register {
            task: 0,
            register: 1,
        },
        comparison: Comparison::Equal,
        bound: value,
    }
}

// It is after this tick.
fn is_after(tick: u32) -> Condition
    ensures { result ≡ Compares Tick Greater tick }
{
    Condition::Compares {
        amount: Amount::Tick,
        comparison: Comparison::Greater,
        bound: tick,
    }
}

fn met(at: usize) -> FoundPlace {
    FoundPlace { at, met: true }
}

// On to where r1 has the value, so many moves at the most.
fn assert_until(
    rt: &impl Abort,
    timeline: &mut Timeline,
    value: u32,
    count: usize,
    found: FoundPlace,
)
    requires { 0 < count }
{
    timeline.app().limits();
    assert_same(rt, timeline.until(r1_is(value), count), Ok(found));
}

// Back to where r1 had the value.
fn assert_back_until(rt: &impl Abort, timeline: &mut Timeline, value: u32, found: FoundPlace) {
    timeline.app().limits();
    assert_same(rt, timeline.back_until(r1_is(value)), found);
}

fn searches_forwards(rt: &impl Abort, timeline: &mut Timeline) {
    assert_until(rt, timeline, 2, 9, met(3));
    assert_until(rt, timeline, 1, 9, met(7));
    assert_until(rt, timeline, 9, 2, FoundPlace { at: 9, met: false });
}

fn searches_backwards(rt: &impl Abort, timeline: &mut Timeline) {
    assert_back_until(rt, timeline, 1, met(8));
    assert_back_until(rt, timeline, 1, met(7));
    assert_back_until(rt, timeline, 2, met(6));
    let start = FoundPlace { at: 0, met: false };
    assert_same(rt, timeline.back_until(is_after(5)), start);
}

fn redoes(rt: &impl Abort, timeline: &mut Timeline) {
    assert_same(rt, timeline.redo(10), Err(Refusal::NothingUndone));
    assert_same(rt, timeline.redo(9), Ok(9));
    assert_same(rt, timeline.target().tick(), 4);
}

// A run that comes to the limit takes its moves back, and leaves the moves undone.
fn runs_into_the_limit(rt: &impl Abort, timeline: &mut Timeline) {
    assert_same(rt, timeline.back(2), Ok(7));
    assert_same(rt, timeline.forward(6), Err(Refusal::MovesFull));
    assert_same(rt, timeline.at(), 7);
    assert_same(rt, timeline.left(), 2);
    assert_same(rt, timeline.forward(5), Ok(12));
    assert_same(rt, timeline.left(), 0);
}

#[test]
fn runs_both_ways(rt: HostRuntime) -> Result<(), Fail> {
    let alloc = rt.alloc();
    let mut timeline = Timeline::new(alloc, read(alloc, ONE_TWO)?, 12)?;
    searches_forwards(&rt, &mut timeline);
    searches_backwards(&rt, &mut timeline);
    redoes(&rt, &mut timeline);
    runs_into_the_limit(&rt, &mut timeline);
    timeline.close();
    Ok(())
}
