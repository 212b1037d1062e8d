//! The receipts of a session that has joined.

ghost use Rattle.std.specs.Prelude.{◌≡◌, ◌+◌, ◌-◌, ◌<◌, ◌≤◌, ◌⊎◌, ◌∷◌, ◌++◌, []};
ghost use Rattle.std.specs.Prelude.{length, slice_get, OnErr, OnOk, Some};
ghost use Rattle.rd_hall.specs.SeatView.{Follows, IsSeries, next_place};

use rd_bytes::no_memory::NoMemory;
use rd_command::order::Order;
use rd_desk::entry::Receipt;
use rd_desk::rows::{Deed, Rows};
use std::marker::Model;

/// The receipts of a session that has joined, of which the last also stands by itself.
#[derive(Drop)]
pub(crate) struct Receipts {
    pub(crate) who: u32,
    pub(crate) rows: Rows,
    pub(crate) last: Receipt,
    pub(crate) next: usize,
}

impl Model for Receipts {
    ghost use Rattle.std.specs.Prelude.{◌≡◌, ◌-◌, length, slice_get, Some};
    ghost use Rattle.rd_hall.specs.SeatView.{AreReceipts, ReceiptsView, receipts_noted};

    ghost Value = { ReceiptsView };

    ghost view = { λ r. record {
      who = r.who;
      receipts = receipts_noted r.who r.rows.noted;
      room = r.rows.row_room;
      byte_room = r.rows.byte_room;
    } };

    ghost invariant = { λ r. AreReceipts r.who (receipts_noted r.who r.rows.noted) r.next
        × (slice_get (receipts_noted r.who r.rows.noted)
        (length (receipts_noted r.who r.rows.noted) - 1) ≡ Some r.last) };
}

impl Receipts {
    /// The number of the session, from 1 on.
    pub(crate) fn who(&self) -> u32
        ensures { result ≡ self.now.who }
    {
        self.who
    }

    /// The place behind the last receipt.
    pub(crate) fn next(&self) -> usize
        ensures { result ≡ next_place 0 self.now.receipts }
    {
        self.next
    }

    /// The last receipt.
    pub(crate) fn last(&self) -> &Receipt
        ensures { slice_get self.now.receipts (length self.now.receipts - 1) ≡ Some result.now }
    {
        &self.last
    }

    /// For contracts alone: there are receipts, all name the session, and they rise in place.
    pub(crate) fn by_invariant(&self)
        ensures some { 0 < length self.now.receipts }
        ensures series { IsSeries self.now.who 0 self.now.receipts }
    {
        let _ = &self.who;
    }

    /// Makes room for two more receipts, that of a command whose line has so many bytes, and that
    /// of the leave. An `Err` says that there is no memory for them; the receipts stay, and there
    /// is no less room.
    pub(crate) fn make_room(&mut self, bytes: usize) -> Result<(), NoMemory>
        ensures who { self.new.who ≡ self.old.who }
        ensures receipts { self.new.receipts ≡ self.old.receipts }
        ensures room { OnOk result (2 ≤ self.new.room) }
        ensures bytes { OnOk result (bytes ≤ self.new.byte_room) }
        ensures room_grows { self.old.room ≤ self.new.room }
        ensures bytes_grow { self.old.byte_room ≤ self.new.byte_room }
        ensures short { OnErr result ((self.new.room < 2) ⊎ (self.new.byte_room < bytes)) }
    {
        self.rows.make_room(2, bytes)
    }

    /// Whether there is that room.
    pub(crate) fn room_for(&self, bytes: usize) -> Result<(), NoMemory>
        ensures room { OnOk result (2 ≤ self.now.room) }
        ensures bytes { OnOk result (bytes ≤ self.now.byte_room) }
        ensures short { OnErr result ((self.now.room < 2) ⊎ (self.now.byte_room < bytes)) }
    {
        if self.rows.has_room(2, bytes) {
            Ok(())
        } else {
            Err(NoMemory)
        }
    }

    /// Puts the receipt of a command behind the others, of which it is the last then.
    pub(crate) fn put(&mut self, receipt: Receipt, order: &Order<'_, '_>)
        requires { Follows self.old order.now.line order.now.command receipt }
        ensures who { self.new.who ≡ self.old.who }
        ensures receipts { self.new.receipts ≡ self.old.receipts ++ receipt ∷ [] }
        ensures room { self.new.room + 1 ≡ self.old.room }
    {
        let place = receipt.place as u32;
        self.rows
            .push(place, Deed::Ask, order.line(), &receipt.entry.reply);
        self.next = receipt.place + 1;
        self.last = receipt;
    }
}
