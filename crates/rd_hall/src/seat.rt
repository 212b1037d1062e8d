//! The sessions of a hall: who may join, who has joined, and who has left.

ghost use Rattle.std.specs.Prelude.{◌≡◌, ◌↔◌, ◌+◌, ◌-◌, ◌<◌, ◌≤◌, ◌⊎◌};
ghost use Rattle.std.specs.Prelude.{length, slice_get};
ghost use Rattle.std.specs.Prelude.{IfOk, IsSomeAnd, IsTrue, OnErr, OnOk, Some};
ghost use Rattle.rd_desk.specs.HistoryView.{IsEntered};
ghost use Rattle.rd_desk.specs.Kept.{IsShort};
ghost use Rattle.rd_desk.specs.declared.entry.Event.TheVariants.{Leave};
ghost use Rattle.rd_desk.specs.declared.reply.DeskReply.TheVariants.{Done};
ghost use Rattle.rd_hall.specs.Account.{ends_in_leave, first_place};
ghost use Rattle.rd_hall.specs.SeatView.{IsSeries, next_place, with_receipt};

use crate::receipts::Receipts;
use crate::setup::Setup;
use rd_bytes::no_memory::NoMemory;
use rd_desk::entry::{HistoryEntry, Receipt};
use rd_desk::history::History;
use rd_desk::reply::DeskReply;
use rd_desk::rows::{Deed, Rows};
use std::alloc::Global;
use std::marker::Model;
use std::sync::ledger::{Book, Share};

/// The right to join once. It may be dropped.
#[derive(Drop)]
pub struct Pass<L: Setup> {
    pub(crate) share: Share<L>,
    ghost one_part: { share.parts ≡ 1 },
    ghost nothing: { share.amount ≡ 0 },
}

impl<L: Setup> Pass<L> {
    // One part of the ledger, with nothing counted.
    pub(crate) fn cut(all: &mut Share<L>) -> Pass<L>
        requires parts { 1 < all.old.parts }
        requires amount { all.old.amount ≡ 0 }
        ensures parts { all.new.parts + 1 ≡ all.old.parts }
        ensures amount { all.new.amount ≡ 0 }
    {
        Pass {
            share: all.split_off(1, 0),
        }
    }
}

/// A session that has joined, with its receipts. It must be spent: it ends in `leave`.
pub struct Seat<L: Setup> {
    pub(crate) receipts: Receipts,
    pub(crate) share: Share<L>,
}

impl<L: Setup> Model for Seat<L> {
    ghost use Rattle.std.specs.Prelude.{◌≡◌, ◌<◌, length};
    ghost use Rattle.rd_hall.specs.SeatView.{RoomedSeat, seat_with};

    ghost Value = { RoomedSeat };

    ghost view = { λ s. record {
      session = seat_with s.receipts s.share.amount;
      room = s.receipts.room;
      byte_room = s.receipts.byte_room;
    } };

    // There is room for the receipt of its leave.
    ghost invariant = { λ s. (s.share.parts ≡ 1)
        × (s.share.amount ≡ length s.receipts.receipts)
        × (0 < s.receipts.room) };
}

/// A session that has left, with its receipts.
#[derive(Drop)]
pub struct Gone<L: Setup> {
    pub(crate) who: u32,
    pub(crate) receipts: Rows,
    pub(crate) next: usize,
    pub(crate) share: Share<L>,
}

impl<L: Setup> Model for Gone<L> {
    ghost use Rattle.rd_hall.specs.SeatView.{SeatView, seat_of, IsSeat};

    ghost Value = { SeatView };

    ghost view = { λ s. seat_of s.who s.receipts.noted s.share.amount };

    ghost invariant = { λ s.
        IsSeat (seat_of s.who s.receipts.noted s.share.amount) s.next s.share.parts
        s.share.amount };
}

impl<L: Setup> Seat<L> {
    /// The number of the session, from 1 on.
    pub fn who(&self) -> u32
        ensures { result ≡ self.now.session.who }
    {
        self.receipts.who()
    }

    /// The last receipt.
    pub fn last(&self) -> &Receipt
        ensures { slice_get self.now.session.receipts (length self.now.session.receipts - 1)
            ≡ Some result.now }
    {
        self.receipts.last()
    }

    /// For contracts alone: there are receipts, all name the session, and they rise in place. The
    /// session has as much of the ledger as receipts, and room for the receipt of its leave.
    pub fn by_invariant(&self)
        ensures some { 0 < length self.now.session.receipts }
        ensures series { IsSeries self.now.session.who 0 self.now.session.receipts }
        ensures share { self.now.session.share ≡ length self.now.session.receipts }
        ensures room { 0 < self.now.room }
    {
        self.receipts.by_invariant();
    }
}

impl<L: Setup> Seat<L> {
    /// Makes room for two more receipts, that of a command whose line has so many bytes, and that
    /// of the leave. An `Err` says that there is no memory for them; the receipts stay, and there
    /// is no less room.
    pub fn make_room(&mut self, bytes: usize) -> Result<(), NoMemory>
        ensures session { self.new.session ≡ self.old.session }
        ensures room { OnOk result (2 ≤ self.new.room) }
        ensures bytes { OnOk result (bytes ≤ self.new.byte_room) }
        ensures room_grows { self.old.room ≤ self.new.room }
        ensures bytes_grow { self.old.byte_room ≤ self.new.byte_room }
        ensures short { OnErr result ((self.new.room < 2) ⊎ (self.new.byte_room < bytes)) }
    {
        self.receipts.make_room(bytes)
    }

    // The session as one that has left, without a receipt of that.
    pub(crate) fn gone(self) -> Gone<L>
        ensures { result ≡ self.session }
    {
        let Seat { receipts, share } = self;
        let Receipts {
            who,
            rows,
            last: _last,
            next,
        } = receipts;
        Gone {
            who,
            receipts: rows,
            next,
            share,
        }
    }

    // Leaves with the receipt of that, which the ledger counts. It takes no memory.
    pub(crate) fn leave(self, book: &mut Book<L>, receipt: Receipt, next: usize) -> Gone<L>
        requires who { receipt.entry.who ≡ self.session.who }
        requires behind { next_place 0 self.session.receipts ≤ receipt.place }
        requires next { next ≡ receipt.place + 1 }
        requires place { IsShort receipt.place }
        requires event { receipt.entry.event ≡ Leave }
        requires reply { receipt.entry.reply ≡ Done }
        ensures session { result ≡ with_receipt self.session receipt }
        ensures book { book.new.total ≡ book.old.total + 1 }
    {
        let Seat {
            receipts,
            mut share,
        } = self;
        let Receipts {
            who,
            mut rows,
            last: _last,
            next: _,
        } = receipts;
        book.add(&mut share, 1);
        rows.push(receipt.place as u32, Deed::Leave, &[], &DeskReply::Done);
        Gone {
            who,
            receipts: rows,
            next,
            share,
        }
    }
}

impl<L: Setup> Gone<L> {
    /// The number of the session, from 1 on.
    pub fn who(&self) -> u32
        ensures { result ≡ self.now.who }
    {
        self.who
    }

    /// How many receipts there are.
    pub fn len(&self) -> usize
        ensures { result ≡ length self.now.receipts }
    {
        self.receipts.len()
    }

    /// For tests alone: the receipt at an index, in the order in which they came. An `Err` says
    /// that there is no memory for it.
    pub fn receipt(&self, alloc: Global, index: usize) -> Result<Receipt, NoMemory>
        requires { index < length self.now.receipts }
        ensures { IfOk result (λ receipt. slice_get self.now.receipts index ≡ Some receipt) }
    {
        let noted = self.receipts.get(alloc, index)?;
        Ok(Receipt {
            place: noted.number as usize,
            entry: HistoryEntry {
                who: self.who,
                event: noted.event,
                reply: noted.reply,
            },
        })
    }

    /// For contracts alone: there are receipts, all name the session, and they rise in place. The
    /// session has as much of the ledger as receipts.
    pub fn by_invariant(&self)
        ensures some { 0 < length self.now.receipts }
        ensures series { IsSeries self.now.who 0 self.now.receipts }
        ensures share { self.now.share ≡ length self.now.receipts }
    {
        let _ = &self.who;
    }

    // The place behind the last receipt.
    pub(crate) fn next(&self) -> usize
        ensures { result ≡ next_place 0 self.now.receipts }
    {
        self.next
    }

    // The place of the first receipt.
    pub(crate) fn first(&self) -> usize
        ensures { result ≡ first_place self.now.receipts }
    {
        self.receipts.number(0) as usize
    }

    // Whether the last receipt is of a leave.
    pub(crate) fn ends_in_leave(&self) -> bool
        ensures { result ≡ ends_in_leave self.now.receipts }
    {
        match self.receipts.deed(self.receipts.len() - 1) {
            Deed::Enter | Deed::Ask => false,
            Deed::Leave => true,
        }
    }

    /// Whether the receipt at an index is the entry at its place.
    pub fn is_entered(&self, history: &History, index: usize) -> bool
        requires { index < length self.now.receipts }
        ensures { IsTrue result
            ↔ IsSomeAnd (slice_get self.now.receipts index) (IsEntered history.now.entries) }
    {
        history.has(self.who, &self.receipts, index)
    }
}
