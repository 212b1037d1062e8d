//! A debugger, and the ledger of the receipts that it has given.

ghost use Rattle.std.specs.Prelude.{◌≡◌, ◌↔◌, ◌+◌, ◌<◌, ◌≤◌, [], length, vec_len};
ghost use Rattle.std.specs.Prelude.{Ok, IfOk, IfErr, OnOk, OnErr, IsTrue, IsOk, IsErrOf};
ghost use Rattle.rd_command.specs.Bindings.{known_of};
ghost use Rattle.rd_desk.specs.Debugger.{opening};
ghost use Rattle.rd_desk.specs.DeskView.{Does, IsSound, LeadsBack, used};
ghost use Rattle.rd_desk.specs.Kept.{IsShort};
ghost use Rattle.rd_desk.specs.Legal.{IsLegal};
ghost use Rattle.rd_desk.specs.Refusals.{tally_of, IfEnterFull, IfServeFull, is_serve_full};
ghost use Rattle.rd_desk.specs.Refusals.{IsWhyNotLetIn, LetsIn};
ghost use Rattle.rd_desk.specs.declared.entry.Event.TheVariants.{Enter, Ask, Leave};
ghost use Rattle.rd_desk.specs.declared.sessions.TheConstants.{MAX_JOINS};
ghost use Rattle.rd_timeline.specs.History.{state_after};
ghost use Rattle.rd_hall.specs.Account.{IsAccount, IsAccounted};
ghost use Rattle.rd_hall.specs.Looks.{look_of};
ghost use Rattle.rd_hall.specs.SeatView.{Follows, StayWithRoom};
ghost use Rattle.rd_hall.specs.Seats.{newcomer, DoesFor, IsOf, LetsGo, Reaches, ReachesPast};
ghost use Rattle.rd_hall.specs.Seats.{IsUnchanged, LacksRoomFor, MayBeShort};

use crate::account::{Broken, Closed, is_account};
use crate::look::Look;
use crate::receipts::Receipts;
use crate::seat::{Gone, Pass, Seat};
use crate::setup::Setup;
use rd_bytes::no_memory::NoMemory;
use rd_command::order::Order;
use rd_desk::desk::{Desk, EnterError, NotServed};
use rd_desk::entry::Receipt;
use rd_desk::limits::Limits;
use rd_desk::reply::DeskReply;
use rd_desk::rows::{Deed, Rows};
use rd_desk::sessions::MAX_JOINS;
use rd_names::app::App;
use rd_state::state::State;
use std::alloc::Global;
use std::marker::Model;
use std::sync::ledger::{Blank, Book, Share};

/// A debugger whose history is as long as the total of a ledger. It can't be dropped: it ends in
/// `finish`.
pub struct Shared<L: Setup> {
    alloc: Global,
    desk: Desk,
    book: Book<L>,
}

impl<L: Setup> Model for Shared<L> {
    ghost use Rattle.std.specs.Prelude.{◌≡◌, length};
    ghost use Rattle.rd_desk.specs.Kept.{IsShort};
    ghost use Rattle.rd_hall.specs.Seats.{IsOf, SharedView};

    ghost Value = { SharedView };

    ghost view = { λ r. record {
      desk = r.desk.desk;
      total = r.book.total;
      row_room = r.desk.row_room;
      byte_room = r.desk.byte_room;
    } };

    ghost invariant = { λ r. (length r.desk.desk.history ≡ r.book.total)
        × IsOf r.desk.desk L.app L.most_moves L.most_entries
        × IsShort L.most_entries };
}

// The book of a ledger in which nothing is counted, and 64 passes.
fn open_book<L: Setup>(alloc: Global, blank: Blank) -> Result<(Book<L>, Vec<Pass<L>>), NoMemory>
    requires name { blank.name ≡ L.name }
    requires parts { blank.parts ≡ L.parts }
    requires passes { blank.parts ≡ MAX_JOINS + 1 }
    ensures book { IfOk result (λ opened. opened.0.total ≡ 0) }
    ensures passes { IfOk result (λ opened. vec_len opened.1 ≡ MAX_JOINS) }
{
    let mut passes = Vec::with_capacity(alloc, MAX_JOINS)?;
    let (book, mut all) = blank.open::<L>();
    for _i in 0..MAX_JOINS {
        passes.push_reserved(Pass::cut(&mut all));
    }
    Ok((book, passes))
}

impl<L: Setup> Shared<L> {
    /// A debugger at its opening, and 64 passes to join it. The ledger has a part for each pass,
    /// and one more. `NoMemory` where a growth was refused, which drops the application.
    pub fn open(
        alloc: Global,
        blank: Blank,
        app: App,
        limits: Limits,
    ) -> Result<(Shared<L>, Vec<Pass<L>>), NoMemory>
        requires name { blank.name ≡ L.name }
        requires parts { blank.parts ≡ L.parts }
        requires passes { blank.parts ≡ MAX_JOINS + 1 }
        requires app { app ≡ L.app }
        requires moves { limits.moves ≡ L.most_moves }
        requires entries { limits.history ≡ L.most_entries }
        ensures shared { IfOk result (λ opened. opened.0.desk ≡ record {
          debugger = opening app limits.moves;
          log = [];
          most_entries = limits.history;
          history = [];
        }) }
        ensures passes { IfOk result (λ opened. vec_len opened.1 ≡ MAX_JOINS) }
    {
        let (book, passes) = open_book(alloc, blank)?;
        let desk = Desk::open(alloc, app, limits)?;
        Ok((Shared { alloc, desk, book }, passes))
    }

    /// For contracts alone: the history is one of the sequential debugger, and as long as the
    /// ledger's total. The debugger is the one that the hall is set up for.
    pub fn by_invariant(&self)
        ensures sound { IsSound self.now.desk }
        ensures counted { length self.now.desk.history ≡ self.now.total }
        ensures set_up { IsOf self.now.desk L.app L.most_moves L.most_entries }
    {
        self.desk.by_invariant();
    }

    /// For contracts and tests alone: the target, which is the state that the moves done, and not
    /// undone, give from the start, whichever sessions made them. The history is one of the
    /// sequential debugger from its opening on, and as long as the ledger's total. The records that
    /// are held are of the moves done from the base on, one of each, and going back by them
    /// gives the whole state before each.
    pub fn target(&self) -> &State
        ensures legal { IsLegal self.now.desk.history self.now.desk.debugger }
        ensures leads { state_after self.now.desk.debugger.app.runs
            self.now.desk.debugger.moves.done ≡ Ok result.now }
        ensures leads_back { LeadsBack self.now.desk.debugger.app.runs
            self.now.desk.debugger.moves result.now self.now.desk.log }
        ensures counted { length self.now.desk.history ≡ self.now.total }
    {
        self.desk.by_invariant();
        self.desk.target()
    }

    /// For tests alone: what stands in the debugger now, beside the target itself. It takes no
    /// memory.
    pub fn look(&self) -> Look
        ensures { result ≡ look_of self.now.desk }
    {
        Look {
            done: self.desk.done(),
            undone: self.desk.undone(),
            kept: self.desk.kept(),
            wheel: self.desk.wheel(),
            watches: self.desk.watch_count(),
            entries: self.desk.entries(),
        }
    }

    /// A session joins: it enters the debugger, and gets the receipt of that. `Full` where 64 have
    /// entered, else `HistoryFull` where fewer than two places are free, else `NoMemory` where a
    /// growth was refused: for its receipts, or in the debugger. A refusal changes nothing, and
    /// gives the pass back.
    pub fn join(&mut self, pass: Pass<L>) -> Result<Seat<L>, (Pass<L>, EnterError)>
        ensures ok { IfOk result (λ seat. DoesFor self.old.desk (newcomer self.old.desk) Enter
            self.new.desk seat.session) }
        ensures let_in { OnOk result (LetsIn self.old.desk) }
        ensures refused { IfErr result (λ error. IsWhyNotLetIn self.old.desk error.1) }
        ensures tally { IfErr result (λ error. IfEnterFull error.1 (λ tally.
            (tally ≡ tally_of self.old.desk)
            × (tally.limit < tally.entries + tally.present + 2))) }
        ensures err { OnErr result (IsUnchanged self.old self.new) }
    {
        if let Err(error) = self.desk.may_enter() {
            return Err((pass, error));
        }
        let mut rows = Rows::new(self.alloc);
        let Ok(()) = rows.make_room(2, 0) else {
            return Err((pass, EnterError::NoMemory));
        };
        match self.desk.enter() {
            Ok(entered) => {
                let Pass { mut share } = pass;
                self.book.add(&mut share, 1);
                let next = self.desk.entries();
                rows.push(entered.place as u32, Deed::Enter, &[], &DeskReply::Done);
                let receipts = Receipts {
                    who: entered.entry.who,
                    rows,
                    last: entered,
                    next,
                };
                Ok(Seat { receipts, share })
            }
            Err(error) => Err((pass, error)),
        }
    }

    /// The history has no fewer entries than a share has of the ledger, whoever made them. It does
    /// nothing at run time.
    pub(crate) fn backs(&mut self, share: &mut Share<L>)
        ensures shared { self.new ≡ self.old }
        ensures amount { share.new.amount ≡ share.old.amount }
        ensures parts { share.new.parts ≡ share.old.parts }
        ensures backed { share.old.amount ≤ length self.old.desk.history }
    {
        self.book.audit(share);
    }

    // Whether the history reaches past the last of these receipts, and their session is present.
    fn reaches(&self, receipts: &Receipts) -> bool
        ensures { IsTrue result ↔ ReachesPast self.now.desk receipts.now }
    {
        receipts.next() <= self.desk.entries() && self.desk.is_present(receipts.who())
    }

    /// For tests alone: serves a command that was bound for the application; the seat gets the
    /// receipt of that. `Broken` where the history doesn't reach past the seat's last receipt, or
    /// its session isn't present, else `NoMemory` where the seat has no room for two more receipts,
    /// this and that of its leave, or for the line of this one, else `HistoryFull` where no place
    /// is free, else `NoMemory` where the debugger has none, or the seat none for the text of a
    /// view. A refusal changes nothing. It takes no memory beside that of the debugger and of a
    /// view's text.
    pub fn ask(&mut self, seat: &mut Seat<L>, order: &Order<'_, '_>) -> Result<(), NotServed>
        requires application { order.now.known ≡ known_of L.app }
        ensures ok { OnOk result (DoesFor self.old.desk seat.old.session
            (Ask order.now.command) self.new.desk seat.new.session) }
        ensures broken { IsErrOf result NotServed.Broken
            ↔ (¬ Reaches self.old.desk seat.old.session) }
        ensures history_full { IsTrue (is_serve_full result)
            ↔ (Reaches self.old.desk seat.old.session
            × (self.old.desk.most_entries ≡ used self.old.desk)
            × (2 ≤ seat.old.room)
            × (length order.now.line ≤ seat.old.byte_room)) }
        ensures no_memory { IsErrOf result NotServed.NoMemory
            → Reaches self.old.desk seat.old.session
            × MayBeShort self.old seat.old.session.who seat.new.room seat.new.byte_room
            order.now.line order.now.command }
        ensures place { OnOk result (used self.old.desk < self.old.desk.most_entries) }
        ensures tally { IfErr result (λ error. IfServeFull error (λ tally.
            (tally ≡ tally_of self.old.desk)
            × (tally.limit ≡ tally.entries + tally.present))) }
        ensures err { OnErr result
            (IsUnchanged self.old self.new × (seat.new.session ≡ seat.old.session)) }
        ensures room_grows { OnErr result (seat.old.room ≤ seat.new.room) }
        ensures bytes_grow { OnErr result (seat.old.byte_room ≤ seat.new.byte_room) }
        ensures room_taken { OnOk result (seat.old.room ≤ seat.new.room + 1) }
    {
        let made = seat.receipts.room_for(order.line().len());
        let receipt = self.serve(&mut seat.share, &mut seat.receipts, made, order)?;
        seat.receipts.put(receipt, order);
        Ok(())
    }

    /// Serves a command of a session, which was bound for the application; the share counts its
    /// receipt, which is yet to be put behind the others of the session. Whether room was made for
    /// two receipts, this and that of its leave, and for the line of this one, is known before.
    /// `Broken` where the history doesn't reach past the last of the others, or the session isn't
    /// present, else `NoMemory` where that room couldn't be made, else `HistoryFull` where no place
    /// is free, else `NoMemory` where the debugger has none, or the session none for the text of a
    /// view. A refusal changes nothing. It takes no memory beside that of the debugger and of a
    /// view's text.
    pub(crate) fn serve(
        &mut self,
        share: &mut Share<L>,
        receipts: &mut Receipts,
        made: Result<(), NoMemory>,
        order: &Order<'_, '_>,
    ) -> Result<Receipt, NotServed>
        requires application { order.now.known ≡ known_of L.app }
        requires part { 0 < share.old.parts }
        requires rows_made { OnOk made (2 ≤ receipts.old.room) }
        requires bytes_made { OnOk made (length order.now.line ≤ receipts.old.byte_room) }
        requires not_made { OnErr made
            (LacksRoomFor receipts.old.room receipts.old.byte_room order.now.line) }
        ensures ok { IfOk result
            (Does self.old.desk receipts.old.who (Ask order.now.command) self.new.desk) }
        ensures follows { IfOk result
            (Follows receipts.new order.now.line order.now.command) }
        ensures broken { IsErrOf result NotServed.Broken
            ↔ (¬ ReachesPast self.old.desk receipts.old) }
        ensures history_full { IsTrue (is_serve_full result)
            ↔ (ReachesPast self.old.desk receipts.old
            × (self.old.desk.most_entries ≡ used self.old.desk)
            × (2 ≤ receipts.old.room)
            × (length order.now.line ≤ receipts.old.byte_room)) }
        ensures no_memory { IsErrOf result NotServed.NoMemory
            → ReachesPast self.old.desk receipts.old
            × MayBeShort self.old receipts.old.who receipts.new.room receipts.new.byte_room
            order.now.line order.now.command }
        ensures place { OnOk result (used self.old.desk < self.old.desk.most_entries) }
        ensures tally { IfErr result (λ error. IfServeFull error (λ tally.
            (tally ≡ tally_of self.old.desk)
            × (tally.limit ≡ tally.entries + tally.present))) }
        ensures err { OnErr result (IsUnchanged self.old self.new) }
        ensures amount { OnOk result (share.new.amount ≡ share.old.amount + 1) }
        ensures no_amount { OnErr result (share.new.amount ≡ share.old.amount) }
        ensures parts { share.new.parts ≡ share.old.parts }
        ensures stay { StayWithRoom receipts.old receipts.new }
    {
        if !self.reaches(receipts) {
            return Err(NotServed::Broken);
        }
        made?;
        let receipt = self.desk.serve(receipts.who, order, &mut receipts.rows)?;
        self.book.add(share, 1);
        Ok(receipt)
    }

    /// A session leaves, and gets the receipt of that. Where the history doesn't reach past the
    /// seat's last receipt, or its session isn't present, nothing changes, and it gets none. It
    /// takes no memory.
    pub fn leave(&mut self, seat: Seat<L>) -> Gone<L>
        ensures left { Reaches self.old.desk seat.session
            → DoesFor self.old.desk seat.session Leave self.new.desk result }
        ensures broken { ¬ Reaches self.old.desk seat.session
            → (self.new ≡ self.old) × (result ≡ seat.session) }
        ensures lets_go { LetsGo self.old.desk seat.session result }
    {
        if !self.reaches(&seat.receipts) {
            return seat.gone();
        }
        self.desk.by_invariant();
        let left = self.desk.depart(seat.who());
        let next = self.desk.entries();
        seat.leave(&mut self.book, left, next)
    }

    /// Ends the debugger. `Broken` where the receipts that are handed in aren't those of the
    /// history. Else each session's receipts are exactly its entries, each once, in order, and no
    /// entry is without its receipt. It takes no memory.
    pub fn finish(self, gones: Vec<Gone<L>>) -> Result<Closed<L>, Broken>
        ensures exact { IsOk result ↔ IsAccount self.desk.history gones.items }
        ensures closed { IfOk result (λ closed.
            closed ≡ record { history = self.desk.history; gones = gones.items }) }
        ensures legal { IsLegal self.desk.history self.desk.debugger }
        ensures accounted { IfOk result (λ closed. IsAccounted closed.history closed.gones) }
    {
        let Shared {
            alloc: _,
            desk,
            book: _,
        } = self;
        desk.by_invariant();
        let history = desk.close();
        if is_account(&history, gones.as_slice()) {
            Ok(Closed { history, gones })
        } else {
            Err(Broken)
        }
    }
}
