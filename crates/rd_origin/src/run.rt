//! A run: the moves that command lines leave, and the state behind each of them.

ghost use Rattle.std.specs.Prelude.{◌≡◌, ◌≢◌, ◌≤◌, Err, IfErr, IfOk, IsOk, OnErr, OnOk, length, take};
ghost use Rattle.rd_timeline.specs.History.{IsStateAfter};
ghost use Rattle.rd_timeline.specs.Runs.{moves_of};
ghost use Rattle.rd_origin.specs.Playing.{no_moves, text_played};
ghost use Rattle.rd_origin.specs.RunView.{IsRunOf, IsSameRun};
ghost use Rattle.rd_origin.specs.declared.playing.TheConstants.{MAX_MOVES};

use crate::cause::NoOrigin;
use crate::copying::copy_of;
use crate::playing::{MAX_MOVES, play_text};
use rd_bytes::no_memory::NoMemory;
use rd_names::app::App;
use rd_state::state::State;
use rd_timeline::timeline::Timeline;
use std::alloc::Global;
use std::marker::Model;

/// The moves that command lines leave behind boot, without those that they leave undone, and the
/// state behind as many of them as one likes. A place is a number of moves: place 0 is boot, and
/// move I leads to place I from the one before. A run stands at one of its places. It can't be
/// dropped: it ends in `close`.
pub struct Run {
    // (what the lines leave undone stands there behind the moves of the run)
    timeline: Timeline,
    // How many moves it has.
    places: usize,
}

impl Model for Run {
    ghost use Rattle.rd_origin.specs.RunView.{RunView};

    ghost Value = { RunView };

    ghost use Rattle.rd_origin.specs.RunInside.{run_of, IsWithinMoves};

    ghost view = { run_of };

    ghost invariant = { IsWithinMoves };
}

// A timeline at boot, with what runs of the application.
fn timeline_of(alloc: Global, app: &App) -> Result<Timeline, NoOrigin>
    ensures app { IfOk result (λ timeline. timeline.app ≡ app.now.runs) }
    ensures limit { IfOk result (λ timeline. timeline.limit ≡ MAX_MOVES) }
    ensures moves { IfOk result (λ timeline. moves_of timeline ≡ no_moves) }
    ensures no_memory { IfErr result (λ cause. cause ≡ NoOrigin.NoMemory) }
{
    let copy = copy_of(alloc, app.program())?;
    Ok(Timeline::new(alloc, copy, MAX_MOVES)?)
}

impl Run {
    /// The run of the command lines of a text: moves, edits, interrupts, runs and ways back, as a
    /// timeline has them that may do 1,000,000 moves. What else a session asks for (the wheel,
    /// watches, views) leaves the moves, and is passed over; nobody keeps a watch to search by. It
    /// stands at its last place. A line ends with an LF or a CR and an LF, or with the text, where
    /// something stands behind the last LF. None is left out: an empty one is no command. `BadLine`
    /// comes of the first line that is no command, or has more than 1,024 bytes, `Refused` of the
    /// first command that is refused, with the cause; whichever is first. `NoMemory` comes where a
    /// growth was refused.
    pub fn of(alloc: Global, app: &App, text: &str) -> Result<Run, NoOrigin>
        ensures run { IfOk result (IsRunOf app.now text.now) }
        ensures stopped { IfErr result (λ cause. cause ≢ NoOrigin.NoMemory
            → text_played app.now text.now ≡ Err cause) }
    {
        let mut timeline = timeline_of(alloc, app)?;
        if let Err(cause) = play_text(alloc, app, text, &mut timeline) {
            timeline.close();
            return Err(cause);
        }
        timeline.by_invariant();
        let places = timeline.at();
        Ok(Run { timeline, places })
    }

    /// How many moves it has, which is its last place.
    pub fn places(&self) -> usize
        ensures places { result ≡ length self.now.moves }
        ensures first { self.now.first ≤ result }
    {
        self.timeline.by_invariant();
        self.places
    }

    /// The first of its places that one can go to: 0, or where the lines trim the timeline the first
    /// that is kept.
    pub fn first(&self) -> usize
        ensures { result ≡ self.now.first }
    {
        self.timeline.by_invariant();
        self.timeline.at() - self.timeline.kept()
    }

    /// The state at the place where the run stands.
    pub fn state(&self) -> &State
        ensures { IsStateAfter self.now.app (take self.now.at self.now.moves) result.now }
    {
        self.timeline.by_invariant();
        self.timeline.target()
    }

    // Goes back to a place, by records.
    fn back_to(&mut self, place: usize)
        requires first { self.old.first ≤ place }
        requires back { place ≤ self.old.at }
        ensures { self.new ≡ record self.old { at = place } }
    {
        self.timeline.by_invariant();
        let at = self.timeline.at();
        self.timeline.back(at - place).unwrap();
    }

    // Goes on to a place, by making moves again. An `Err` says that there is no memory for that.
    fn on_to(&mut self, place: usize) -> Result<(), NoMemory>
        requires on { self.old.at ≤ place }
        requires last { place ≤ length self.old.moves }
        ensures ok { OnOk result (self.new ≡ record self.old { at = place }) }
        ensures err { OnErr result (self.new ≡ self.old) }
    {
        self.timeline.by_invariant();
        let at = self.timeline.at();
        match self.timeline.redo(place - at) {
            Ok(_) => Ok(()),
            Err(_) => Err(NoMemory),
        }
    }

    /// Goes to a place: back by records, or on by making moves again. An `Err` says that there is no
    /// memory to go on, and leaves the run where it stood. To go back takes none.
    pub fn go_to(&mut self, place: usize) -> Result<(), NoMemory>
        requires first { self.old.first ≤ place }
        requires last { place ≤ length self.old.moves }
        ensures ok { OnOk result (self.new ≡ record self.old { at = place }) }
        ensures back { place ≤ self.old.at → IsOk result }
        ensures err { OnErr result (self.new ≡ self.old) }
    {
        if place > self.timeline.at() {
            return self.on_to(place);
        }
        self.back_to(place);
        Ok(())
    }

    /// A copy of the state at a place, where the run stands then. An `Err` says that there is no
    /// memory for it.
    pub fn state_at(&mut self, alloc: Global, place: usize) -> Result<State, NoMemory>
        requires first { self.old.first ≤ place }
        requires last { place ≤ length self.old.moves }
        ensures state { IfOk result (IsStateAfter self.old.app (take place self.old.moves)) }
        ensures run { IsSameRun self.old self.new }
    {
        self.go_to(place)?;
        Ok(self.state().copy(alloc)?)
    }

    /// Ends the run.
    pub fn close(self) {
        let Run {
            timeline,
            places: _,
        } = self;
        timeline.close();
    }
}
