//! Requests: what comes of each kind, and what is answered to it.

ghost use Rattle.std.specs.Prelude.{◌≡◌, ◌≢◌, ◌↔◌, IfErr, IfOk, IsErr, IsErrOf, IsTrue, Ok, OnErr};
ghost use Rattle.std.specs.Prelude.{OnOk, true};
ghost use Rattle.rd_moves.specs.declared.request.Request.TheVariants as request;
ghost use Rattle.rd_moves.specs.Moves.{IsMoveOf};
ghost use Rattle.rd_moves.specs.Requests.{IsRequestOf};
ghost use Rattle.rd_condition.specs.Conditions.{IsConditionOf};
ghost use Rattle.rd_timeline.specs.Answers.{Obeys, answer_at, answer_to, ended_answer};
ghost use Rattle.rd_timeline.specs.Course.{HasGrown, IsAsItWas};
ghost use Rattle.rd_timeline.specs.History.{state_after};
ghost use Rattle.rd_timeline.specs.Runs.{answered, ending_of, makes_move, may_make_moves};
ghost use Rattle.rd_timeline.specs.Runs.{moves_of};

use crate::running::FoundPlace;
use crate::timeline::Timeline;
use rd_bytes::no_memory::NoMemory;
use rd_calls::play::move_answer;
use rd_condition::condition::Condition;
use rd_moves::answer::{Answer, SearchEnd};
use rd_moves::carried::Lent;
use rd_moves::count::Count;
use rd_moves::moves::Move;
use rd_moves::request::Request;
use rd_refusal::refusal::Refusal;

// What is answered where so many moves are done now, or where a request was refused. That memory
// ran out is no answer.
fn told(made: Result<usize, Refusal>) -> Result<Answer, NoMemory>
    ensures ok { IfOk made (λ at. result ≡ Ok (Answer.Done at)) }
    ensures err { IfErr made (λ refusal. refusal ≢ Refusal.NoMemory
        → result ≡ Ok (Answer.Refused refusal)) }
    ensures no_memory { IsErr result ↔ IsErrOf made Refusal.NoMemory }
{
    match made {
        Ok(at) => Ok(Answer::Done { at }),
        Err(Refusal::NoMemory) => Err(NoMemory),
        Err(refusal) => Ok(Answer::Refused { refusal }),
    }
}

// What is answered where a move was made, which answers this, if it answers something, or where it
// was refused.
fn told_of_move(made: Result<usize, Refusal>, answer: Option<u32>) -> Result<Answer, NoMemory>
    ensures ok { IfOk made (λ at. result ≡ Ok (answer_at at (ending_of answer))) }
    ensures err { IfErr made (λ refusal. refusal ≢ Refusal.NoMemory
        → result ≡ Ok (Answer.Refused refusal)) }
    ensures no_memory { IsErr result ↔ IsErrOf made Refusal.NoMemory }
{
    let Some(answer) = answer else {
        return told(made);
    };
    match made {
        Ok(at) => Ok(Answer::Answered { at, answer }),
        Err(refusal) => told(Err(refusal)),
    }
}

// Makes a move. An `Err` of this and the others says that there is no memory for it; then nothing
// has changed.
fn go(timeline: &mut Timeline, action: &Move<Lent<'_>>) -> Result<Answer, NoMemory>
    requires { IsMoveOf timeline.old.app action.now }
    ensures { Obeys timeline.old (request.Go action.now) timeline.new result }
{
    timeline.by_invariant();
    let answer = move_answer(timeline.app(), timeline.target(), action);
    told_of_move(timeline.go(action), answer)
}

// Takes the last kept moves back. It takes no memory.
fn back(timeline: &mut Timeline, count: Count) -> Answer
    ensures { Obeys timeline.old (request.Back count) timeline.new (Ok result) }
{
    timeline.by_invariant();
    match timeline.back(count.get()) {
        Ok(at) => Answer::Done { at },
        Err(refusal) => Answer::Refused { refusal },
    }
}

// Makes so many moves by policy.
fn forward(timeline: &mut Timeline, count: Count) -> Result<Answer, NoMemory>
    ensures { Obeys timeline.old (request.Forward count) timeline.new result }
{
    timeline.by_invariant();
    told(timeline.forward(count.get()))
}

// Makes moves again that are undone.
fn redo(timeline: &mut Timeline, count: Count) -> Result<Answer, NoMemory>
    ensures { Obeys timeline.old (request.Redo count) timeline.new result }
{
    timeline.by_invariant();
    told(timeline.redo(count.get()))
}

// What is answered where a run to a condition has ended, or was refused.
fn ended(made: Result<FoundPlace, Refusal>) -> Result<Answer, NoMemory>
    ensures ok { IfOk made (λ found. result ≡ Ok (ended_answer found)) }
    ensures err { IfErr made (λ refusal. refusal ≢ Refusal.NoMemory
        → result ≡ Ok (Answer.Refused refusal)) }
    ensures no_memory { IsErr result ↔ IsErrOf made Refusal.NoMemory }
{
    match made {
        Ok(FoundPlace { at, met }) => {
            let end = if met {
                SearchEnd::Met
            } else {
                SearchEnd::Limit
            };
            Ok(Answer::Ended { at, end })
        }
        Err(Refusal::NoMemory) => Err(NoMemory),
        Err(refusal) => Ok(Answer::Refused { refusal }),
    }
}

// Makes moves by policy until a condition holds, so many of them at the most.
fn until(timeline: &mut Timeline, condition: Condition, count: Count) -> Result<Answer, NoMemory>
    requires { IsConditionOf timeline.old.app condition }
    ensures { Obeys timeline.old (request.Until condition count) timeline.new result }
{
    timeline.by_invariant();
    ended(timeline.until(condition, count.get()))
}

// Goes back to where a condition held, or by all kept moves.
fn back_until(timeline: &mut Timeline, condition: Condition) -> Answer
    requires { IsConditionOf timeline.old.app condition }
    ensures { Obeys timeline.old (request.BackUntil condition) timeline.new (Ok result) }
{
    timeline.by_invariant();
    let FoundPlace { at, met } = timeline.back_until(condition);
    let end = if met {
        SearchEnd::Met
    } else {
        SearchEnd::Start
    };
    Answer::Ended { at, end }
}

// Keeps the records of the last moves, so many. It takes no memory.
fn trim(timeline: &mut Timeline, keep: usize) -> Answer
    ensures { Obeys timeline.old (request.Trim keep) timeline.new (Ok result) }
{
    timeline.by_invariant();
    let at = timeline.trim(keep);
    Answer::Done { at }
}

impl Timeline {
    /// Does what is asked, and answers it; a request that is refused changes nothing. Only a
    /// request that makes a move may find no memory, and then nothing has changed either.
    pub fn answer(&mut self, request: &Request<Lent<'_>>) -> Result<Answer, NoMemory>
        requires { IsRequestOf self.old.app request.now }
        ensures ok { IfOk result (λ answer.
            answer ≡ answer_to self.old.app self.old.limit (moves_of self.old) request.now) }
        ensures moves { OnOk result (moves_of self.new
            ≡ answered self.old.app self.old.limit (moves_of self.old) request.now) }
        ensures no_memory { OnErr result
            (IsTrue (makes_move self.old.app self.old.limit (moves_of self.old) request.now)) }
        ensures only { OnErr result (may_make_moves request.now ≡ true) }
        ensures err { OnErr result (IsAsItWas self.old self.new) }
        ensures grows { HasGrown self.old.room self.new.room }
        ensures app { self.new.app ≡ self.old.app }
        ensures limit { self.new.limit ≡ self.old.limit }
        ensures leads { state_after self.new.app self.new.done ≡ Ok self.new.target }
    {
        match request {
            Request::Go { action } => go(self, action),
            Request::Back { count } => Ok(back(self, *count)),
            Request::Forward { count } => forward(self, *count),
            Request::Redo { count } => redo(self, *count),
            Request::Until { condition, count } => until(self, *condition, *count),
            Request::BackUntil { condition } => Ok(back_until(self, *condition)),
            Request::Trim { keep } => Ok(trim(self, *keep)),
        }
    }
}
