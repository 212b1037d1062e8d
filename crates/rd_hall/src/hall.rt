//! One debugger behind one lock.

ghost use Rattle.std.specs.Prelude.{◌≡◌, ◌+◌, ◌<◌, ◌≤◌, ◌⊎◌, IfOk, IfErr, OnOk, OnErr, vec_len};
ghost use Rattle.rd_command.specs.Bindings.{known_of};
ghost use Rattle.rd_desk.specs.Debugger.{Debugger, opening};
ghost use Rattle.rd_desk.specs.Legal.{Leads};
ghost use Rattle.rd_desk.specs.DeskView.{used};
ghost use Rattle.rd_desk.specs.Refusals.{IfEnterFull, IfServeFull, IsWhyNotLetIn, LetsIn};
ghost use Rattle.rd_desk.specs.declared.entry.Event.TheVariants.{Enter, Ask, Leave};
ghost use Rattle.rd_desk.specs.declared.sessions.TheConstants.{MAX_JOINS};
ghost use Rattle.rd_hall.specs.Account.{IsAccounted};
ghost use Rattle.rd_hall.specs.Seats.{Finds, Gained, Joined, LetsGo, Serves, TurnsAway};
ghost use Rattle.rd_hall.specs.Seats.{newcomer};

use crate::account::{Broken, Closed};
use crate::look::Look;
use crate::seat::{Gone, Pass, Seat};
use crate::setup::Setup;
use crate::shared::Shared;
use rd_bytes::no_memory::NoMemory;
use rd_command::known::Known;
use rd_command::order::Order;
use rd_desk::desk::{EnterError, NotServed};
use rd_desk::limits::Limits;
use rd_names::app::App;
use rd_state::state::State;
use std::alloc::Global;
use std::sync::ledger::Blank;
use std::sync::{Mutex, MutexGuard, Wait};
use std::thread::yield_now;

// How often a session looks whether the lock is free before it sleeps, and how often it lets others
// run between two looks.
const LOOKS: u32 = 5;

const TURNS: u32 = 32;

// Lets others run for some ten microseconds, in which a line takes less than one.
#[inline(never)]
fn step_aside() {
    for _turn in 0..TURNS {
        yield_now();
    }
}

/// What sessions share, behind one lock, and outside of it what commands are bound by. It can't be
/// dropped: it ends in `finish`.
pub struct Hall<L: Setup> {
    shared: Mutex<Shared<L>>,
    known: Known,
    limit: usize,
    ghost application: { known ≡ known_of L.app },
    ghost limited: { limit ≡ L.most_entries },
}

impl<L: Setup> Hall<L> {
    /// A debugger at its opening, and 64 passes to join it. The ledger has a part for each pass,
    /// and one more. `NoMemory` where a growth was refused, which drops the application.
    pub fn open(
        alloc: Global,
        blank: Blank,
        app: App,
        limits: Limits,
    ) -> Result<(Hall<L>, Vec<Pass<L>>), NoMemory>
        requires name { blank.name ≡ L.name }
        requires parts { blank.parts ≡ L.parts }
        requires passes { blank.parts ≡ MAX_JOINS + 1 }
        requires app { app ≡ L.app }
        requires moves { limits.moves ≡ L.most_moves }
        requires entries { limits.history ≡ L.most_entries }
        ensures { IfOk result (λ opened. vec_len opened.1 ≡ MAX_JOINS) }
    {
        let known = Known::of(alloc, &app)?;
        let (shared, passes) = Shared::open(alloc, blank, app, limits)?;
        let hall = Hall {
            shared: Mutex::new(shared),
            known,
            limit: limits.history as usize,
        };
        Ok((hall, passes))
    }

    // Gets the lock. Whoever finds it taken steps aside for some lines of another, and sleeps only
    // after some such turns. (Where it changes hands at each line, all that stands behind it goes
    // from processor to processor, and to be woken takes as long as a hundred lines.)
    fn enter(&self, rt: &impl Wait) -> MutexGuard<'_, Shared<L>> {
        for _look in 0..LOOKS {
            if let Some(shared) = self.shared.try_lock() {
                return shared;
            }
            step_aside();
        }
        self.shared.lock(rt)
    }

    /// For tests alone: how many entries the history may have.
    pub fn limit(&self) -> usize
        ensures { result ≡ L.most_entries }
    {
        self.limit
    }

    /// What commands are bound by: what is known of the application.
    pub fn known(&self) -> &Known
        ensures { result.now ≡ known_of L.app }
    {
        &self.known
    }

    /// For tests alone: what stands behind the lock now, beside the target itself. It takes no
    /// memory.
    pub fn look(&self, rt: &impl Wait) -> Look {
        let shared = self.enter(rt);
        shared.look()
    }

    /// For tests alone: a copy of the target behind the lock. `NoMemory` where a growth was
    /// refused.
    pub fn copy_target(&self, rt: &impl Wait, alloc: Global) -> Result<State, NoMemory> {
        let shared = self.enter(rt);
        shared.target().copy(alloc)
    }

    /// For tests alone: whether the target behind the lock is this state, to the last field. It
    /// takes no memory.
    pub fn is_target(&self, rt: &impl Wait, state: &State) -> bool {
        let shared = self.enter(rt);
        shared.target().same(state)
    }

    /// A session joins, under the lock: it has the receipt of that. `Full` where 64 have joined,
    /// else `HistoryFull` where fewer than two places of the history are free, else `NoMemory`
    /// where a growth was refused. A refusal gives the pass back.
    pub fn join(&self, rt: &impl Wait, pass: Pass<L>) -> Result<Seat<L>, (Pass<L>, EnterError)>
        ensures ok { IfOk result (λ seat. Joined seat.session) }
        ensures tally { IfErr result (λ error. IfEnterFull error.1 (λ tally.
            (tally.limit ≡ L.most_entries)
            × (tally.limit < tally.entries + tally.present + 2))) }
        ensures entered { IfOk result (λ seat.
            Finds L.app L.most_moves L.most_entries 0 (λ d.
            LetsIn d × Serves d (newcomer d) Enter seat.session)) }
        ensures refused { IfErr result (λ error.
            Finds L.app L.most_moves L.most_entries 0 (λ d. IsWhyNotLetIn d error.1)) }
    {
        let mut shared = self.enter(rt);
        shared.by_invariant();
        shared.join(pass)
    }

    /// Serves a command, under the lock; what it names was looked up before, in the application of
    /// this hall. The seat has one receipt more, which is its last. `Broken` where the history
    /// isn't the seat's own, else `NoMemory` where there is no memory for its receipt, else
    /// `HistoryFull` where no place of the history is free, else `NoMemory` where another growth
    /// was refused. A refusal leaves the seat as it was, with no less room.
    pub fn serve(
        &self,
        rt: &impl Wait,
        seat: &mut Seat<L>,
        order: &Order<'_, '_>,
    ) -> Result<(), NotServed>
        requires application { order.now.known ≡ known_of L.app }
        ensures ok { OnOk result
            (Gained seat.old.session (Ask order.now.command) seat.new.session) }
        ensures tally { IfErr result (λ error. IfServeFull error (λ tally.
            (tally.limit ≡ L.most_entries)
            × (tally.limit ≡ tally.entries + tally.present))) }
        ensures err { OnErr result (seat.new.session ≡ seat.old.session) }
        ensures room_grows { OnErr result (seat.old.room ≤ seat.new.room) }
        ensures bytes_grow { OnErr result (seat.old.byte_room ≤ seat.new.byte_room) }
        ensures served { OnOk result
            (Finds L.app L.most_moves L.most_entries seat.old.session.share (λ d.
            (used d < d.most_entries)
            × Serves d seat.old.session (Ask order.now.command) seat.new.session)) }
        ensures refused { IfErr result (λ error.
            Finds L.app L.most_moves L.most_entries seat.old.session.share (λ d.
            TurnsAway d seat.new order.now.line error)) }
    {
        // The seat grows before the lock. That there was no memory for it is said under it, where
        // it is known whether the history is the seat's own.
        let made = seat.make_room(order.line().len());
        let receipt = {
            let mut shared = self.enter(rt);
            shared.by_invariant();
            shared.backs(&mut seat.share);
            shared.serve(&mut seat.share, &mut seat.receipts, made, order)?
        };
        // Nobody else sees what a seat keeps, so its receipt is put there behind the lock.
        seat.receipts.put(receipt, order);
        Ok(())
    }

    /// For tests alone: the same for a seat that is handed in, and back.
    pub fn ask(
        &self,
        rt: &impl Wait,
        seat: Seat<L>,
        order: &Order<'_, '_>,
    ) -> (Seat<L>, Result<(), NotServed>)
        requires application { order.now.known ≡ known_of L.app }
        ensures ok { OnOk result.1
            (Gained seat.session (Ask order.now.command) result.0.session) }
        ensures tally { IfErr result.1 (λ error. IfServeFull error (λ tally.
            (tally.limit ≡ L.most_entries)
            × (tally.limit ≡ tally.entries + tally.present))) }
        ensures err { OnErr result.1 (result.0.session ≡ seat.session) }
        ensures room_grows { OnErr result.1 (seat.room ≤ result.0.room) }
        ensures bytes_grow { OnErr result.1 (seat.byte_room ≤ result.0.byte_room) }
        ensures served { OnOk result.1
            (Finds L.app L.most_moves L.most_entries seat.session.share (λ d.
            (used d < d.most_entries)
            × Serves d seat.session (Ask order.now.command) result.0.session)) }
        ensures refused { IfErr result.1 (λ error.
            Finds L.app L.most_moves L.most_entries seat.session.share (λ d.
            TurnsAway d result.0 order.now.line error)) }
    {
        let mut seat = seat;
        let served = self.serve(rt, &mut seat, order);
        (seat, served)
    }

    /// A session leaves, under the lock, and gets the receipt of that, or none where the history
    /// isn't its own.
    pub fn leave(&self, rt: &impl Wait, seat: Seat<L>) -> Gone<L>
        ensures receipt { (result ≡ seat.session) ⊎ Gained seat.session Leave result }
        ensures left { Finds L.app L.most_moves L.most_entries seat.session.share (λ d.
            LetsGo d seat.session result) }
    {
        let mut seat = seat;
        let mut shared = self.enter(rt);
        shared.by_invariant();
        shared.backs(&mut seat.share);
        shared.leave(seat)
    }

    /// Ends the debugger. `Broken` where the receipts that are handed in aren't those of the
    /// history. Else the history is legal from the opening, each session's receipts are exactly its
    /// entries, each once, in order, and no entry is without its receipt. It takes no memory.
    pub fn finish(self, gones: Vec<Gone<L>>) -> Result<Closed<L>, Broken>
        ensures legal { IfOk result (λ closed. (end : Debugger)
            × Leads (opening L.app L.most_moves) closed.history end) }
        ensures accounted { IfOk result (λ closed. IsAccounted closed.history closed.gones) }
        ensures gones { IfOk result (λ closed. closed.gones ≡ gones.items) }
    {
        let Hall {
            shared,
            known: _known,
            limit: _,
        } = self;
        let shared = shared.into_inner();
        shared.by_invariant();
        shared.finish(gones)
    }
}
