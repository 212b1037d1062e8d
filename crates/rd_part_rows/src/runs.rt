//! Whole runs: lists of requests, what they leave of the moves, and what a run moves next.

ghost use Rattle.std.specs.Prelude.{◌≡◌};
ghost use Rattle.rd_moves.specs.Requests.{IsRequestOf};

use crate::asserts::assert_same;
use crate::files::read;
use rd_app::app::Program;
use rd_calls::policy::policy;
use rd_moves::answer::Answer;
use rd_moves::carried::Lent;
use rd_moves::count::Count;
use rd_moves::moves::Move;
use rd_moves::request::Request;
use rd_refusal::refusal::Refusal;
use rd_timeline::timeline::Timeline;
use std::alloc::{AllocError, Global};
use std::process::Abort;
use std::test::Fail;

fn go() -> Request<Lent<'static>>
    ensures { result ≡ Request.Go Move.Tick }
{
    Request::Go { action: Move::Tick }
}

fn back(rt: &impl Abort, count: u32) -> Request<Lent<'static>>
    ensures { result ≡ Request.Back count }
{
    let Some(count) = Count::new(count) else {
        panic!(rt; "{count} is no count");
    };
    Request::Back { count }
}

// The request is answered so.
fn assert_answer(
    rt: &impl Abort,
    timeline: &mut Timeline,
    request: &Request<Lent<'_>>,
    wanted: Answer,
)
    requires { IsRequestOf timeline.old.app request.now }
{
    let Ok(answer) = timeline.answer(request) else {
        panic!(rt; "no memory");
    };
    assert!(rt; answer == wanted);
}

// So many moves are done and so many undone, and it is that tick.
fn assert_place(rt: &impl Abort, timeline: &Timeline, done: usize, undone: usize, tick: u32) {
    assert_same(rt, timeline.at(), done);
    assert_same(rt, timeline.left(), undone);
    assert_same(rt, timeline.target().tick(), tick);
}

// With ample memory what is asked is done, but for a move beyond the limit.
fn goes_to_the_limit(rt: &impl Abort, timeline: &mut Timeline) {
    for at in 1..=3 {
        assert_answer(rt, timeline, &go(), Answer::Done { at });
    }
    let refusal = Refusal::MovesFull;
    assert_answer(rt, timeline, &go(), Answer::Refused { refusal });
    assert_place(rt, timeline, 3, 0, 3);
}

// A way back that is too long does nothing.
fn goes_back_too_far(rt: &impl Abort, timeline: &mut Timeline) {
    let refusal = Refusal::TooFar { kept: 3 };
    assert_answer(rt, timeline, &back(rt, 4), Answer::Refused { refusal });
    assert_place(rt, timeline, 3, 0, 3);
}

// (A `Vec`: that an array of requests is dropped takes a proof of many minutes.)
fn goes_there_and_back(
    rt: &impl Abort,
    alloc: Global,
    timeline: &mut Timeline,
) -> Result<(), AllocError> {
    let mut requests = Vec::with_capacity(alloc, 2)?;
    requests.push_reserved(back(rt, 2));
    requests.push_reserved(go());
    assert!(rt; timeline.run(requests.as_slice()).is_ok());
    assert_place(rt, timeline, 2, 0, 2);
    Ok(())
}

fn goes_back_once(rt: &impl Abort, timeline: &mut Timeline) {
    assert_answer(rt, timeline, &back(rt, 1), Answer::Done { at: 1 });
    assert_place(rt, timeline, 1, 1, 1);
}

#[test]
fn whole_runs(rt: HostRuntime) -> Result<(), Fail> {
    let alloc = rt.alloc();
    let mut timeline = Timeline::new(alloc, Program::builtin(alloc)?, 3)?;
    goes_to_the_limit(&rt, &mut timeline);
    goes_back_too_far(&rt, &mut timeline);
    let result = goes_there_and_back(&rt, alloc, &mut timeline);
    goes_back_once(&rt, &mut timeline);
    timeline.close();
    Ok(result?)
}

const ROUND_ROBIN: &str = concat!(
    r#"{"profile":1,"cores":1,"#,
    r#""tasks":[{"name":"t0","priority":1,"code":["jump 0"]},"#,
    r#"{"name":"t1","priority":1,"code":["jump 0"]}]}"#,
);

// The core, a tick since the turn is after the last core, and the core again.
fn goes_by_policy(rt: &impl Abort, timeline: &mut Timeline) {
    for at in 1..=3 {
        assert!(rt; timeline.app().cores() == 1);
        let action = policy(timeline.target());
        let is_tick = matches!(action, Move::Tick);
        assert_same(rt, is_tick, at == 2);
        let done = if is_tick {
            timeline.go(&Move::Tick)
        } else {
            timeline.go(&Move::Core { core: 0 })
        };
        assert_same(rt, done, Ok(at));
    }
}

#[test]
fn round_robin_by_policy(rt: HostRuntime) -> Result<(), Fail> {
    let alloc = rt.alloc();
    let mut timeline = Timeline::new(alloc, read(alloc, ROUND_ROBIN)?, 10)?;
    goes_by_policy(&rt, &mut timeline);
    timeline.close();
    Ok(())
}
