//! Runs both ways: on by policy, to where a condition holds, through the moves undone, and back.

ghost use Rattle.std.specs.Prelude.{◌≡◌, ◌↔◌, ◌+◌, ◌-◌, ◌<◌, ◌≤◌, [], false, length, take, drop};
ghost use Rattle.std.specs.Prelude.{Ok, None, Some, IfOk, IfErr, IfSome, OnOk, OnErr, IsErrOf};
ghost use Rattle.rd_calls.specs.Step.{policy_of};
ghost use Rattle.rd_condition.specs.Conditions.{holds, IsConditionOf};
ghost use Rattle.rd_timeline.specs.Backward.{place_met};
ghost use Rattle.rd_timeline.specs.Course.{base_of, HasGrown, IsAhead, IsAsItWas, IsWhyNot};
ghost use Rattle.rd_timeline.specs.History.{state_after};
ghost use Rattle.rd_timeline.specs.LogView.{bytes_of};
ghost use Rattle.rd_timeline.specs.Recorded.{RecordsMoves, StandsOn};
ghost use Rattle.rd_timeline.specs.Redoing.{HasRedone, HasRedonePart, IsWhyNoRedo, RedoLacksRoom};
ghost use Rattle.rd_timeline.specs.Running.{run_from, IsWhyNoRun, MayLackMemory, RunLacksRoom};
ghost use Rattle.rd_timeline.specs.Runs.{Going, back_at, ended, last_place, meets, moves_of};
ghost use Rattle.rd_timeline.specs.Runs.{redone};

use crate::timeline::Timeline;
use rd_bytes::no_memory::NoMemory;
use rd_calls::play::why_not;
use rd_calls::policy::policy;
use rd_condition::condition::Condition;
use rd_refusal::refusal::Refusal;

/// Where a search for a condition ended.
#[derive(Clone, Copy, Debug, PartialEq, Eq)]
pub struct FoundPlace {
    /// How many moves are done there.
    pub at: usize,
    /// Whether the condition holds there. Else the search came to its limit.
    pub met: bool,
}

impl Timeline {
    // Whether the goal is met, if there is one.
    fn meets(&self, goal: Option<Condition>) -> bool
        requires { IfSome goal (IsConditionOf self.now.app) }
        ensures { result ≡ meets goal self.now.target }
    {
        self.by_invariant();
        match goal {
            Some(condition) => condition.holds(self.target()),
            None => false,
        }
    }

    // Why the next move by policy isn't made, where there is no memory for it.
    fn why_no_move(&self) -> Refusal
        ensures { IsWhyNot self.now (policy_of self.now.target) result }
    {
        if self.at() == self.limit() {
            return Refusal::MovesFull;
        }
        self.by_invariant();
        let action = policy(self.target());
        why_not(self.app(), self.target(), &action).unwrap_or(Refusal::NoMemory)
    }

    // Makes moves by policy until the goal is met, so many of them at the most, where none is
    // undone. Answers whether it was met. A refusal leaves the moves that were made.
    fn go_on(&mut self, goal: Option<Condition>, count: usize) -> Result<bool, Refusal>
        requires none_undone { self.old.undone ≡ [] }
        requires named { IfSome goal (IsConditionOf self.old.app) }
        ensures ends { IfOk result (λ met.
            run_from self.old goal count ≡ ended met (moves_of self.new)) }
        ensures ahead { OnOk result (0 < count → IsAhead self.new) }
        ensures stands { StandsOn self.old self.new }
        ensures refusals { IfErr result (IsWhyNoRun self.old goal count) }
        ensures short { IsErrOf result Refusal.NoMemory → RunLacksRoom self.old goal count }
    {
        self.by_invariant();
        for _ in 0..count {
            self.by_invariant();
            let action = policy(self.target());
            self.go(&action)?;
            if self.meets(goal) {
                return Ok(true);
            }
        }
        Ok(false)
    }

    // Makes moves by policy until the goal is met, so many of them at the most, all or none.
    // Answers whether it was met. A refusal leaves the timeline as it was, but for more room.
    fn run_by_policy(&mut self, goal: Option<Condition>, count: usize) -> Result<bool, Refusal>
        requires some { 0 < count }
        requires named { IfSome goal (IsConditionOf self.old.app) }
        ensures ends { IfOk result (λ met.
            run_from self.old goal count ≡ ended met (moves_of self.new)) }
        ensures recorded { OnOk result (RecordsMoves self.old self.new) }
        ensures ahead { OnOk result (IsAhead self.new) }
        ensures app { self.new.app ≡ self.old.app }
        ensures limit { self.new.limit ≡ self.old.limit }
        ensures read { self.new.read ≡ self.old.read }
        ensures grows { HasGrown self.old.room self.new.room }
        ensures refusals { IfErr result (IsWhyNoRun self.old goal count) }
        ensures short { IsErrOf result Refusal.NoMemory → MayLackMemory self.old goal count }
        ensures err { OnErr result (IsAsItWas self.old self.new) }
    {
        self.by_invariant();
        let Ok(start) = self.begin_run() else {
            return Err(self.why_no_move());
        };
        match self.go_on(goal, count) {
            Ok(met) => Ok(met),
            Err(refusal) => {
                self.cancel_run(start);
                Err(refusal)
            }
        }
    }

    /// Makes so many moves, one at the least, as `policy` chooses, all or none. Answers how many
    /// moves are done then. A refusal leaves the timeline as it was, but for more room, the moves
    /// undone included: that of the first move that is refused, `MovesFull` or `TickLimit`, or
    /// `NoMemory` where a growth was refused before that. There is no other. Memory is needed only
    /// to set the moves undone aside, and where there is no room; room that was made stays
    /// (`run_has_room` says how far it goes).
    pub fn forward(&mut self, count: usize) -> Result<usize, Refusal>
        requires { 0 < count }
        ensures at { IfOk result (λ at. at ≡ length self.new.done) }
        ensures ends { OnOk result (run_from self.old None count ≡ Going (moves_of self.new)) }
        ensures recorded { OnOk result (RecordsMoves self.old self.new) }
        ensures ahead { OnOk result (IsAhead self.new) }
        ensures app { self.new.app ≡ self.old.app }
        ensures limit { self.new.limit ≡ self.old.limit }
        ensures read { self.new.read ≡ self.old.read }
        ensures grows { HasGrown self.old.room self.new.room }
        ensures leads { state_after self.new.app self.new.done ≡ Ok self.new.target }
        ensures refusals { IfErr result (IsWhyNoRun self.old None count) }
        ensures short { IsErrOf result Refusal.NoMemory → MayLackMemory self.old None count }
        ensures err { OnErr result (IsAsItWas self.old self.new) }
    {
        self.by_invariant();
        self.run_by_policy(None, count)?;
        self.by_invariant();
        Ok(self.at())
    }

    /// Makes moves as `policy` chooses until the condition holds after one of them, so many of them
    /// at the most, all or none. That it holds after none is no refusal. Refusals are those of
    /// `forward`, and leave the timeline as it was, but for more room.
    pub fn until(&mut self, condition: Condition, count: usize) -> Result<FoundPlace, Refusal>
        requires some { 0 < count }
        requires named { IsConditionOf self.old.app condition }
        ensures at { IfOk result (λ found. found.at ≡ length self.new.done) }
        ensures ends { IfOk result (λ found.
            run_from self.old (Some condition) count ≡ ended found.met (moves_of self.new)) }
        ensures recorded { OnOk result (RecordsMoves self.old self.new) }
        ensures ahead { OnOk result (IsAhead self.new) }
        ensures app { self.new.app ≡ self.old.app }
        ensures limit { self.new.limit ≡ self.old.limit }
        ensures read { self.new.read ≡ self.old.read }
        ensures grows { HasGrown self.old.room self.new.room }
        ensures leads { state_after self.new.app self.new.done ≡ Ok self.new.target }
        ensures refusals { IfErr result (IsWhyNoRun self.old (Some condition) count) }
        ensures short { IsErrOf result Refusal.NoMemory
            → MayLackMemory self.old (Some condition) count }
        ensures err { OnErr result (IsAsItWas self.old self.new) }
    {
        self.by_invariant();
        let met = self.run_by_policy(Some(condition), count)?;
        self.by_invariant();
        Ok(FoundPlace { at: self.at(), met })
    }

    // Makes moves that are undone again, so many of them, which are there. An `Err` says that there
    // is no memory for one of them, and leaves those that were made.
    fn redo_each(&mut self, count: usize) -> Result<(), NoMemory>
        requires { count ≤ length self.old.undone }
        ensures ok { OnOk result (HasRedone self.old count self.new) }
        ensures part { HasRedonePart self.old count self.new }
        ensures short { OnErr result (RedoLacksRoom self.old count) }
    {
        self.by_invariant();
        for _ in 0..count {
            self.redo_one()?;
        }
        Ok(())
    }

    /// Makes the next `count` moves that are undone again, all or none. Answers how many moves are
    /// done then. It is refused as `NothingUndone` where fewer are undone, and else as `NoMemory`
    /// alone, where a growth was refused, as none is but where there is no room for the longest
    /// record (`redo_has_room`). A refusal leaves the timeline as it was, but for more room.
    pub fn redo(&mut self, count: usize) -> Result<usize, Refusal>
        ensures at { IfOk result (λ at. at ≡ length self.new.done) }
        ensures moves { OnOk result (moves_of self.new ≡ redone (moves_of self.old) count) }
        ensures app { OnOk result (self.new.app ≡ self.old.app) }
        ensures limit { OnOk result (self.new.limit ≡ self.old.limit) }
        ensures recorded { OnOk result (RecordsMoves self.old self.new) }
        ensures read { self.new.read ≡ self.old.read }
        ensures grows { HasGrown self.old.room self.new.room }
        ensures leads { state_after self.new.app self.new.done ≡ Ok self.new.target }
        ensures nothing_undone { IsErrOf result Refusal.NothingUndone
            ↔ (length self.old.undone < count) }
        ensures refusals { IfErr result (IsWhyNoRedo self.old count) }
        ensures short { IsErrOf result Refusal.NoMemory → RedoLacksRoom self.old count }
        ensures err { OnErr result (IsAsItWas self.old self.new) }
    {
        self.by_invariant();
        if count > self.left() {
            return Err(Refusal::NothingUndone);
        }
        let done = self.at();
        if self.redo_each(count).is_err() {
            self.go_back(self.at() - done);
            return Err(Refusal::NoMemory);
        }
        self.by_invariant();
        Ok(self.at())
    }

    /// Goes back to the last earlier place where the condition holds, of those that the kept moves
    /// lead back to, or else by all kept moves. It takes no memory and is never refused, and reads
    /// as many bytes of records as these moves' records have. The moves taken back can be redone.
    pub fn back_until(&mut self, condition: Condition) -> FoundPlace
        requires named { IsConditionOf self.old.app condition }
        ensures at { result.at ≡ length self.new.done }
        ensures place { place_met result ≡ last_place self.old.app condition (moves_of self.old) }
        ensures start { result.met ≡ false → result.at ≡ base_of self.old }
        ensures moves { moves_of self.new ≡ back_at (moves_of self.old) result.at }
        ensures log { self.new.log ≡ take (result.at - base_of self.old) self.old.log }
        ensures app { self.new.app ≡ self.old.app }
        ensures limit { self.new.limit ≡ self.old.limit }
        ensures room { self.new.room ≡ self.old.room }
        ensures read { self.new.read
            ≡ self.old.read + bytes_of (drop (result.at - base_of self.old) self.old.log) }
        ensures leads { state_after self.new.app self.new.done ≡ Ok self.new.target }
    {
        self.by_invariant();
        for _ in 0..self.kept() {
            self.back(1).unwrap();
            if self.meets(Some(condition)) {
                return FoundPlace {
                    at: self.at(),
                    met: true,
                };
            }
        }
        self.by_invariant();
        FoundPlace {
            at: self.at(),
            met: false,
        }
    }
}
