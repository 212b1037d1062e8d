//! The target with the moves that led to it: going on, going back.

ghost use Rattle.std.specs.Prelude.{◌≡◌, ◌↔◌, ◌+◌, ◌-◌, ◌<◌, ◌≤◌, [], length, take};
ghost use Rattle.std.specs.Prelude.{drop, Ok, IfOk, IfErr, OnOk, OnErr, IsOk, IsErrOf};
ghost use Rattle.rd_state.specs.Boot.{boot_of};
ghost use Rattle.rd_app.specs.Application.{priorities_of};
ghost use Rattle.rd_state.specs.Settled.{IsSettled};
ghost use Rattle.rd_state.specs.Valid.{IsValid};
ghost use Rattle.rd_calls.specs.Step.{step};
ghost use Rattle.rd_moves.specs.Moves.{IsMoveOf};
ghost use Rattle.rd_timeline.specs.Course.{IsTraced, IsFull, IsRefusedBy, CanGo};
ghost use Rattle.rd_timeline.specs.Course.{HasGrown, IsAsItWas, IsWhyNot, LacksBytes, LacksRoom};
ghost use Rattle.rd_timeline.specs.History.{state_after};
ghost use Rattle.rd_timeline.specs.LogView.{bytes_of};
ghost use Rattle.rd_timeline.specs.Recorded.{RecordsMoves, StandsOn};
ghost use Rattle.rd_timeline.specs.Runs.{back_at, moved_on, moves_of, redone, trimmed};
ghost use Rattle.rd_timeline.specs.declared.logged.TheConstants.{MAX_KEPT_BYTES};
ghost use Rattle.rd_timeline.specs.Starts.{CanCancel, IsCancelled, IsStartOf};

use crate::journal::{Aside, Journal};
use rd_app::app::Program;
use rd_bytes::no_memory::NoMemory;
use rd_calls::play::why_not;
use rd_moves::carried::Lent;
use rd_moves::moves::Move;
use rd_packed::count::ReadCount;
use rd_refusal::refusal::Refusal;
use rd_state::state::State;
use std::alloc::Global;
use std::marker::Model;

/// The target with the moves that led to it. It can't be dropped: it ends in `close`.
pub struct Timeline {
    app: Program,
    limit: usize,
    journal: Journal,
    // How many bytes of records were read by trims, and to take runs back that were refused. All
    // else that the journal has read was read to go back.
    others: ReadCount,
}

impl Model for Timeline {
    ghost use Rattle.rd_timeline.specs.Course.{Course};

    ghost Value = { Course };

    ghost use Rattle.rd_timeline.specs.Inside.{course_of, IsWhole};

    ghost view = { course_of };

    ghost invariant = { IsWhole };
}

/// Where a run began: how many moves were done, and the moves undone, which are set aside.
#[derive(Drop)]
pub(crate) struct Start {
    done: usize,
    undone: Aside,
}

impl Timeline {
    /// A timeline at boot, for at most `limit` moves, with the memory for the record of one move. A
    /// refusal drops the application.
    pub fn new(alloc: Global, app: Program, limit: usize) -> Result<Timeline, NoMemory>
        ensures { IfOk result (λ timeline. timeline ≡ record {
          app = app;
          limit = limit;
          target = boot_of app;
          done = [];
          log = [];
          undone = [];
          room = timeline.room;
          read = 0;
        }) }
    {
        app.limits();
        let target = State::boot(alloc, &app)?;
        let journal = Journal::new(alloc, target)?;
        Ok(Timeline {
            app,
            limit,
            journal,
            others: ReadCount::new(),
        })
    }

    /// For contracts alone: the target is what the moves done give from boot, with nothing left to
    /// schedule, and the log leads back through the last of them.
    pub fn by_invariant(&self)
        ensures traced { IsTraced self.now }
        ensures leads { state_after self.now.app self.now.done ≡ Ok self.now.target }
        ensures valid { IsValid self.now.app self.now.target }
        ensures settled { IsSettled (priorities_of self.now.app) self.now.target }
    {
        let _ = &self.limit;
    }

    /// The application.
    pub fn app(&self) -> &Program
        ensures { result.now ≡ self.now.app }
    {
        &self.app
    }

    /// How many moves may be done.
    pub fn limit(&self) -> usize
        ensures { result ≡ self.now.limit }
    {
        self.limit
    }

    /// The target as it is now.
    pub fn target(&self) -> &State
        ensures { result.now ≡ self.now.target }
    {
        self.journal.target()
    }

    /// How many moves are done.
    pub fn at(&self) -> usize
        ensures { result ≡ length self.now.done }
    {
        self.journal.done()
    }

    /// How many moves are undone and could be redone.
    pub fn left(&self) -> usize
        ensures { result ≡ length self.now.undone }
    {
        self.journal.undone()
    }

    /// How many moves are kept: the last of the moves done, which have a record, so that one can go
    /// back by them. It takes no memory.
    pub fn kept(&self) -> usize
        ensures { result ≡ length self.now.log }
    {
        self.journal.kept()
    }

    /// Makes a move: it is laid on the moves done, and the moves undone are forgotten. Answers how
    /// many moves are done. A refusal leaves the timeline as it was, but for more room: `MovesFull`
    /// where the moves done are at their limit, else `NoTask` where the core is idle, `TickLimit`
    /// where there is no further tick, `BadEdit` where the edit can't be made and `NoIsr` where an
    /// interrupt comes to an application of profile 1, whatever memory is left, else `NoMemory`
    /// where a growth was refused: where the log can't grow, the move is taken back. There is no
    /// other. No memory is needed where there is room, and room that was made stays.
    pub fn go(&mut self, action: &Move<Lent<'_>>) -> Result<usize, Refusal>
        requires named { IsMoveOf self.old.app action.now }
        ensures at { IfOk result (λ at. at ≡ length self.new.done) }
        ensures moves { OnOk result
            (moves_of self.new ≡ moved_on (moves_of self.old) action.now) }
        ensures step { OnOk result
            (step self.old.app self.old.target action.now ≡ Ok self.new.target) }
        ensures app { OnOk result (self.new.app ≡ self.old.app) }
        ensures limit { OnOk result (self.new.limit ≡ self.old.limit) }
        ensures recorded { OnOk result (RecordsMoves self.old self.new) }
        ensures leads { OnOk result (state_after self.new.app self.new.done ≡ Ok self.new.target) }
        ensures ahead { OnOk result
            (bytes_of self.old.log + MAX_KEPT_BYTES ≤ self.new.room.bytes) }
        ensures read { OnOk result (self.new.read ≡ self.old.read) }
        ensures grows { HasGrown self.old.room self.new.room }

        // When it is refused, and that nothing has changed then, but that there may be more room.
        ensures moves_full { IsErrOf result Refusal.MovesFull ↔ IsFull self.old }
        ensures no_task { IsErrOf result Refusal.NoTask
            ↔ IsRefusedBy self.old action.now Refusal.NoTask }
        ensures tick_limit { IsErrOf result Refusal.TickLimit
            ↔ IsRefusedBy self.old action.now Refusal.TickLimit }
        ensures bad_edit { IsErrOf result Refusal.BadEdit
            ↔ IsRefusedBy self.old action.now Refusal.BadEdit }
        ensures no_isr { IsErrOf result Refusal.NoIsr
            ↔ IsRefusedBy self.old action.now Refusal.NoIsr }
        ensures no_memory { IsErrOf result Refusal.NoMemory → CanGo self.old action.now }
        ensures short { IsErrOf result Refusal.NoMemory → LacksRoom self.old action.now }
        ensures refusals { IfErr result (IsWhyNot self.old action.now) }
        ensures err { OnErr result (IsAsItWas self.old self.new) }
    {
        if self.at() == self.limit {
            return Err(Refusal::MovesFull);
        }
        if self.journal.reserve_for(action).is_err() {
            // What is wrong with the move itself is the cause, if something is.
            let cause = why_not(&self.app, self.journal.target(), action);
            return Err(cause.unwrap_or(Refusal::NoMemory));
        }
        self.journal.play(&self.app, action)?;
        Ok(self.journal.done())
    }

    // Goes back by `n` kept moves, which are there and can be redone, and counts nothing.
    pub(crate) fn go_back(&mut self, n: usize)
        requires { n ≤ length self.old.log }
        ensures moves { moves_of self.new
            ≡ back_at (moves_of self.old) (length self.old.done - n) }
        ensures log { self.new.log ≡ take (length self.old.log - n) self.old.log }
        ensures app { self.new.app ≡ self.old.app }
        ensures limit { self.new.limit ≡ self.old.limit }
        ensures room { self.new.room ≡ self.old.room }
        ensures read { self.new.read ≡ self.old.read }
        ensures leads { state_after self.new.app self.new.done ≡ Ok self.new.target }
    {
        let before = self.journal.count();
        self.journal.take_back(n);
        self.others = self.others.more(&before, &self.journal.count());
        self.by_invariant();
    }

    /// Goes back by `n` kept moves, which can be redone, the last one undone first. Answers how
    /// many moves are done then. It takes no memory, and reads as many bytes of records as these
    /// moves' records have. The only refusal is `TooFar` with the number of kept moves, where there
    /// are fewer; the timeline is then as it was.
    pub fn back(&mut self, n: usize) -> Result<usize, Refusal>
        ensures ok { IsOk result ↔ (n ≤ length self.old.log) }
        ensures at { IfOk result (λ at. at ≡ length self.new.done) }
        ensures moves { OnOk result (moves_of self.new
            ≡ back_at (moves_of self.old) (length self.old.done - n)) }
        ensures log { OnOk result (self.new.log ≡ take (length self.old.log - n) self.old.log) }
        ensures app { OnOk result (self.new.app ≡ self.old.app) }
        ensures limit { OnOk result (self.new.limit ≡ self.old.limit) }
        ensures room { OnOk result (self.new.room ≡ self.old.room) }
        ensures read { OnOk result (self.new.read
            ≡ self.old.read + bytes_of (drop (length self.old.log - n) self.old.log)) }
        ensures leads { OnOk result (state_after self.new.app self.new.done ≡ Ok self.new.target) }
        ensures too_far { IfErr result (λ refusal.
            refusal ≡ Refusal.TooFar (length self.old.log)) }
        ensures err { OnErr result (self.new ≡ self.old) }
    {
        let kept = self.kept();
        if n > kept {
            return Err(Refusal::TooFar { kept });
        }
        self.journal.take_back(n);
        self.by_invariant();
        Ok(self.at())
    }

    /// Trims the timeline: the records of the last `keep` moves done are kept, or all where they
    /// are fewer, and those before are given up, so that one can go back no further. Answers how
    /// many moves are done. All else stays, the moves done included. It takes no memory, and gives
    /// none back.
    pub fn trim(&mut self, keep: usize) -> usize
        ensures at { result ≡ length self.new.done }
        ensures moves { moves_of self.new ≡ trimmed (moves_of self.old) keep }
        ensures log { self.new.log ≡ drop (length self.old.log - keep) self.old.log }
        ensures app { self.new.app ≡ self.old.app }
        ensures limit { self.new.limit ≡ self.old.limit }
        ensures room { self.new.room ≡ self.old.room }
        ensures read { self.new.read ≡ self.old.read }
        ensures leads { state_after self.new.app self.new.done ≡ Ok self.new.target }
    {
        let before = self.journal.count();
        self.journal.keep_last(keep);
        self.others = self.others.more(&before, &self.journal.count());
        self.by_invariant();
        self.at()
    }

    /// A run begins: the moves undone are set aside. An `Err` says that there are some and no
    /// memory for that, and leaves the timeline as it was.
    pub(crate) fn begin_run(&mut self) -> Result<Start, NoMemory>
        ensures start { IfOk result (IsStartOf self.old) }
        ensures emptied { OnOk result (self.new ≡ record self.old { undone = [] }) }
        ensures short { OnErr result (0 < length self.old.undone) }
        ensures err { OnErr result (self.new ≡ self.old) }
    {
        Ok(Start {
            done: self.at(),
            undone: self.journal.set_aside()?,
        })
    }

    /// Takes the moves of a run back, and them alone, and has the moves undone from before it
    /// again. It takes no memory.
    pub(crate) fn cancel_run(&mut self, start: Start)
        requires { CanCancel self.old start }
        ensures { IsCancelled self.old start self.new }
    {
        let Start { done, undone } = start;
        let made = self.at() - done;
        let before = self.journal.count();
        self.journal.take_back(made);
        self.others = self.others.more(&before, &self.journal.count());
        self.journal.put_back(undone);
    }

    /// Makes the move again that is to be redone next, which is there. An `Err` says that there is
    /// no memory for it, and leaves the timeline as it was, but for more room. It needs none where
    /// there is room for the longest record.
    pub(crate) fn redo_one(&mut self) -> Result<(), NoMemory>
        requires { 0 < length self.old.undone }
        ensures moves { OnOk result (moves_of self.new ≡ redone (moves_of self.old) 1) }
        ensures stands { OnOk result (StandsOn self.old self.new) }
        ensures short { OnErr result (LacksBytes self.old) }
        ensures grows { HasGrown self.old.room self.new.room }
        ensures err { OnErr result (IsAsItWas self.old self.new) }
    {
        if let Err(_refusal) = self.journal.replay(&self.app) {
            // (the kernel's rules refuse no move that was made before)
            return Err(NoMemory);
        }
        Ok(())
    }

    /// Ends the timeline.
    pub fn close(self) {
        let Timeline {
            app: _,
            limit: _,
            journal,
            others: _,
        } = self;
        journal.retire();
    }
}
