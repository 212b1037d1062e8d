//! The history: the entries so far, in order.

ghost use Rattle.std.specs.Prelude.{◌≡◌, ◌↔◌, ◌+◌, ◌≤◌, ◌<◌, ◌⊎◌, ◌∷◌, ◌++◌, [], length};
ghost use Rattle.std.specs.Prelude.{slice_get, IsSomeAnd, IsTrue, OnErr, OnOk};
ghost use Rattle.rd_desk.specs.HistoryView.{deed_event, reply_bytes, IsEntered, IsLineOf};
ghost use Rattle.rd_desk.specs.Kept.{IsNarrow};
ghost use Rattle.rd_desk.specs.Rows.{receipt_of};

use crate::reply::DeskReply;
use crate::rows::{Deed, Rows};
use rd_bytes::no_memory::NoMemory;
use std::alloc::Global;
use std::marker::Model;

/// The entries so far, in order: rows, each under the number of who did it.
#[derive(Drop)]
pub struct History {
    rows: Rows,
}

impl Model for History {
    ghost use Rattle.rd_desk.specs.HistoryView.{HistoryView};

    ghost Value = { HistoryView };

    ghost use Rattle.rd_desk.specs.HistoryInside.{history_of};

    ghost view = { history_of };
}

impl History {
    /// No entries. It takes no memory.
    pub fn new(alloc: Global) -> History
        ensures { result.entries ≡ [] }
    {
        History {
            rows: Rows::new(alloc),
        }
    }

    /// How many entries there are.
    pub fn len(&self) -> usize
        ensures { result ≡ length self.now.entries }
    {
        self.rows.len()
    }

    /// Whether a receipt of a session is the entry at its place. Rows have it at this index, under
    /// the number of its place.
    pub fn has(&self, who: u32, receipts: &Rows, index: usize) -> bool
        requires { index < length receipts.now.noted }
        ensures { IsTrue result ↔ IsSomeAnd (slice_get receipts.now.noted index)
            (λ noted. IsEntered self.now.entries (receipt_of who noted)) }
    {
        let place = receipts.number(index) as usize;
        place < self.len()
            && self.rows.number(place) == who
            && self.rows.has_same(place, receipts, index)
    }

    /// Makes room for so many entries more, and for so many bytes of theirs. Where there is no
    /// memory for them, which is only where one of them had no room, the entries stay, and there is
    /// no less room.
    pub fn make_room(&mut self, rows: usize, bytes: usize) -> Result<(), NoMemory>
        ensures entries { self.new.entries ≡ self.old.entries }
        ensures ok_rows { OnOk result (rows ≤ self.new.row_room) }
        ensures ok_bytes { OnOk result (bytes ≤ self.new.byte_room) }
        ensures rows_grow { self.old.row_room ≤ self.new.row_room }
        ensures bytes_grow { self.old.byte_room ≤ self.new.byte_room }
        ensures full { OnErr result
            ((self.old.row_room < rows) ⊎ (self.old.byte_room < bytes)) }
    {
        self.rows.make_room(rows, bytes)
    }

    /// Appends an entry, which there is room for. The line is that of the command, if one was asked
    /// for.
    #[inline(always)]
    pub fn push(&mut self, who: u32, deed: Deed, line: &[u8], reply: &DeskReply)
        requires line { IsLineOf deed line.now }
        requires narrow { IsNarrow reply.now }
        requires row { 0 < self.old.row_room }
        requires bytes { length line.now + length (reply_bytes reply.now) ≤ self.old.byte_room }
        ensures entries { self.new.entries ≡ self.old.entries
            ++ record { who = who; event = deed_event deed line.now; reply = reply.now } ∷ [] }
        ensures room { self.new.row_room + 1 ≡ self.old.row_room }
        ensures byte_room { self.old.byte_room
            ≤ self.new.byte_room + (length line.now + length (reply_bytes reply.now)) }
    {
        self.rows.push(who, deed, line, reply);
    }
}
