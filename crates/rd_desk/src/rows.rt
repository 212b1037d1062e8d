//! Rows: what was done and what was replied, kept one behind the other, with their bytes in one
//! place.

ghost use Rattle.std.specs.Prelude.{◌≡◌, ◌↔◌, ◌+◌, ◌≤◌, ◌<◌, ◌⊎◌, ◌∷◌, ◌++◌, [], length};
ghost use Rattle.std.specs.Prelude.{drop, slice_get, slice_range, take, vec_capacity, vec_len};
ghost use Rattle.std.specs.Prelude.{IfOk, IsSomeAnd, IsTrue, OnErr, OnOk, Some};
ghost use Rattle.rd_desk.specs.HistoryView.{deed_event, deed_of, reply_bytes, IsLineOf};
ghost use Rattle.rd_desk.specs.Rows.{AreSame};
ghost use Rattle.rd_desk.specs.Kept.{packed_kept, reply_kept, IsNarrow};
ghost use Rattle.rd_desk.specs.RowsInside.{line_size, noted_by, row_end, row_kept, start_at};
ghost use Rattle.rd_desk.specs.RowsInside.{IsPlaced, IsRowOf, SaySame};

use crate::asked::{Asked, are_same_command};
use crate::entry::{Event, Noted};
use crate::kept::{KeptKind, PackedReply};
use crate::reply::DeskReply;
use rd_bytes::no_memory::NoMemory;
use std::alloc::Global;
use std::marker::Model;

/// What a session did, but for the line of a command.
#[derive(Clone, Copy, PartialEq, Eq)]
pub enum Deed {
    /// It entered.
    Enter,
    /// It asked for something.
    Ask,
    /// It left.
    Leave,
}

// What is kept of an entry or of a receipt, but for its bytes: the line of its command, and behind
// it the text of its view. They begin where those of the row before end. The halves of where they
// end, and of the reply that is kept, lie side by side, so that a row has no gap but at its end.
#[derive(Clone, Copy)]
struct KeptRow {
    first: u32,
    second: u32,
    third: u32,
    number: u32,
    low_end: u32,
    high_end: u32,
    deed: Deed,
    kind: KeptKind,
}

// A row with its bytes.
#[derive(Clone, Copy)]
struct Placed<'a> {
    row: &'a KeptRow,
    bytes: &'a [u8],
}

// What a row and its bytes say.
#[derive(Clone, Copy)]
struct Unpacked<'a> {
    deed: Deed,
    line: &'a [u8],
    packed: PackedReply,
    text: &'a [u8],
}

/// What was done and replied so far, in order, each under a number. Each takes a row of 28 bytes,
/// and the bytes of the line of its command and of its view.
#[derive(Drop)]
pub struct Rows {
    rows: Vec<KeptRow>,
    bytes: Vec<u8>,
}

impl Model for Rows {
    ghost use Rattle.rd_desk.specs.Rows.{RowsView};

    ghost Value = { RowsView };

    ghost use Rattle.rd_desk.specs.RowsInside.{rows_of, AreRowsWhole};

    ghost view = { rows_of };

    ghost invariant = { AreRowsWhole };
}

/// The bytes of a reply: the line of a view, and else none.
pub fn reply_bytes(reply: &DeskReply) -> &[u8]
    ensures { result.now ≡ reply_bytes reply.now }
{
    match reply {
        DeskReply::Done | DeskReply::Told { .. } => &[],
        DeskReply::Shown { text } => text.as_slice(),
    }
}

// Appends bytes that there is room for. (Mostly a reply has none.)
#[inline]
fn append_reserved(bytes: &mut Vec<u8>, more: &[u8])
    requires { vec_len bytes.old + length more.now ≤ vec_capacity bytes.old }
    ensures items { bytes.new.items ≡ bytes.old.items ++ more.now }
    ensures len { vec_len bytes.new ≡ vec_len bytes.old + length more.now }
    ensures room { vec_capacity bytes.old ≤ vec_capacity bytes.new }
{
    if !more.is_empty() {
        bytes.extend_from_slice(more).unwrap();
    }
}

impl KeptRow {
    // Of what is kept, with where its bytes end.
    fn new(end: usize, number: u32, deed: Deed, packed: PackedReply) -> KeptRow
        ensures end { row_end result ≡ end }
        ensures number { result.number ≡ number }
        ensures deed { result.deed ≡ deed }
        ensures kept { row_kept result ≡ packed_kept packed }
    {
        KeptRow {
            first: packed.first,
            second: packed.second,
            third: packed.third,
            number,
            low_end: (end % (1 << 32)) as u32,
            high_end: (end / (1 << 32)) as u32,
            deed,
            kind: packed.kind,
        }
    }

    // Where its bytes end.
    fn end(&self) -> usize
        ensures { result ≡ row_end self.now }
    {
        self.low_end as usize + (self.high_end as usize) * (1 << 32)
    }

    // What is kept of its reply.
    fn packed(&self) -> PackedReply
        ensures { result ≡ record {
          first = self.now.first;
          second = self.now.second;
          third = self.now.third;
          kind = self.now.kind;
        } }
    {
        PackedReply {
            first: self.first,
            second: self.second,
            third: self.third,
            kind: self.kind,
        }
    }
}

// Where the bytes of a row begin.
fn start_of(rows: &[KeptRow], index: usize) -> usize
    requires { index < length rows.now }
    ensures { result ≡ start_at 0 rows.now index }
{
    if index == 0 { 0 } else { rows[index - 1].end() }
}

// The bytes of a row, which begin there.
fn bytes_of<'a>(bytes: &'a [u8], start: usize, row: &KeptRow) -> &'a [u8]
    requires { IsRowOf bytes.now start row.now }
    ensures { result.now ≡ slice_range bytes.now start (row_end row.now) }
{
    &bytes[start..row.end()]
}

// Whether the same was done.
fn is_same_event(one: Unpacked<'_>, other: Unpacked<'_>) -> bool
    requires one { IsLineOf one.deed one.line.now }
    requires other { IsLineOf other.deed other.line.now }
    ensures { IsTrue result
        ↔ (deed_event one.entry.deed one.entry.line.now
        ≡ deed_event other.entry.deed other.entry.line.now) }
{
    match (one.deed, other.deed) {
        (Deed::Enter, Deed::Enter) | (Deed::Leave, Deed::Leave) => true,
        (Deed::Ask, Deed::Ask) => are_same_command(one.line, other.line),
        (Deed::Enter, Deed::Ask | Deed::Leave) => false,
        (Deed::Ask, Deed::Enter | Deed::Leave) => false,
        (Deed::Leave, Deed::Enter | Deed::Ask) => false,
    }
}

// Whether the same was replied.
fn is_same_reply(one: Unpacked<'_>, other: Unpacked<'_>) -> bool
    ensures { IsTrue result
        ↔ (reply_kept (packed_kept one.entry.packed) one.entry.text.now
        ≡ reply_kept (packed_kept other.entry.packed) other.entry.text.now) }
{
    if let (KeptKind::Shown, KeptKind::Shown) = (one.packed.kind, other.packed.kind) {
        one.text == other.text
    } else {
        one.packed.kept() == other.packed.kept()
    }
}

impl<'a> Placed<'a> {
    // How many of the bytes are those of the line.
    fn line_len(self) -> usize
        ensures { result ≡ line_size self.entry.row.now self.entry.bytes.now }
    {
        if let KeptKind::Shown = self.row.kind {
            self.row.packed().number()
        } else {
            self.bytes.len()
        }
    }

    // Taken apart.
    fn unpack(self) -> Unpacked<'a>
        requires { IsPlaced self.row.now self.bytes.now }
        ensures deed { result.deed ≡ self.entry.row.now.deed }
        ensures line { result.line.now
            ≡ take (line_size self.entry.row.now self.entry.bytes.now) self.entry.bytes.now }
        ensures kept { packed_kept result.packed ≡ row_kept self.entry.row.now }
        ensures text { result.text.now
            ≡ drop (line_size self.entry.row.now self.entry.bytes.now) self.entry.bytes.now }
    {
        let len = self.line_len();
        Unpacked {
            deed: self.row.deed,
            line: &self.bytes[..len],
            packed: self.row.packed(),
            text: &self.bytes[len..],
        }
    }

    // Whether another has the same bytes, and all else but the number. (Mostly a receipt and its
    // entry do; then nothing is taken apart.)
    fn is_repeated_by(self, other: Placed<'_>) -> bool
        ensures deed { IsTrue result → self.entry.row.now.deed ≡ other.entry.row.now.deed }
        ensures kept { IsTrue result
            → row_kept self.entry.row.now ≡ row_kept other.entry.row.now }
        ensures bytes { IsTrue result → self.entry.bytes.now ≡ other.entry.bytes.now }
    {
        self.row.deed == other.row.deed
            && self.row.packed() == other.row.packed()
            && self.bytes == other.bytes
    }

    // Whether the same was done and replied.
    #[inline(never)]
    fn means_same(self, other: Placed<'_>) -> bool
        requires one { IsPlaced self.row.now self.bytes.now }
        requires other { IsPlaced other.row.now other.bytes.now }
        ensures { IsTrue result ↔ SaySame (noted_by self.entry.row.now self.entry.bytes.now)
            (noted_by other.entry.row.now other.entry.bytes.now) }
    {
        let one = self.unpack();
        let other = other.unpack();
        is_same_event(one, other) && is_same_reply(one, other)
    }
}

// What was done.
fn event_of(alloc: Global, deed: Deed, line: &[u8]) -> Result<Event, NoMemory>
    requires { IsLineOf deed line.now }
    ensures { IfOk result (λ event. event ≡ deed_event deed line.now) }
{
    match deed {
        Deed::Enter => Ok(Event::Enter),
        Deed::Ask => Ok(Event::Ask {
            command: Asked::new(alloc, line)?,
        }),
        Deed::Leave => Ok(Event::Leave),
    }
}

impl Rows {
    /// None. They take no memory.
    pub fn new(alloc: Global) -> Rows
        ensures { result.noted ≡ [] }
    {
        Rows {
            rows: Vec::new(alloc),
            bytes: Vec::new(alloc),
        }
    }

    /// How many there are.
    pub fn len(&self) -> usize
        ensures { result ≡ length self.now.noted }
    {
        self.rows.len()
    }

    /// The number of the one at this index.
    pub fn number(&self, index: usize) -> u32
        requires { index < length self.now.noted }
        ensures { IsSomeAnd (slice_get self.now.noted index) (λ noted. result ≡ noted.number) }
    {
        self.rows[index].number
    }

    /// What was done at this index.
    pub fn deed(&self, index: usize) -> Deed
        requires { index < length self.now.noted }
        ensures { IsSomeAnd (slice_get self.now.noted index)
            (λ noted. result ≡ deed_of noted.event) }
    {
        self.rows[index].deed
    }

    // The row at this index, with its bytes.
    fn placed(&self, index: usize) -> Placed<'_>
        requires { index < length self.now.noted }
        ensures noted { slice_get self.now.noted index
            ≡ Some (noted_by result.row.now result.bytes.now) }
        ensures placed { IsPlaced result.row.now result.bytes.now }
    {
        let rows = self.rows.as_slice();
        let start = start_of(rows, index);
        let row = &rows[index];
        Placed {
            row,
            bytes: bytes_of(self.bytes.as_slice(), start, row),
        }
    }

    /// Whether the one at this index is the same as one of others, but for their numbers.
    pub fn has_same(&self, index: usize, others: &Rows, other: usize) -> bool
        requires index { index < length self.now.noted }
        requires other { other < length others.now.noted }
        ensures { IsTrue result ↔ AreSame (slice_get self.now.noted index)
            (slice_get others.now.noted other) }
    {
        let one = self.placed(index);
        let other = others.placed(other);
        one.is_repeated_by(other) || one.means_same(other)
    }

    /// The one at this index, by itself. An `Err` says that there is no memory for its bytes.
    pub fn get(&self, alloc: Global, index: usize) -> Result<Noted, NoMemory>
        requires { index < length self.now.noted }
        ensures { IfOk result (λ noted. slice_get self.now.noted index ≡ Some noted) }
    {
        let number = self.number(index);
        let one = self.placed(index).unpack();
        Ok(Noted {
            number,
            event: event_of(alloc, one.deed, one.line)?,
            reply: one.packed.kept().reply(alloc, one.text)?,
        })
    }

    /// Whether there is room for so many more, and for so many bytes of theirs.
    pub fn has_room(&self, rows: usize, bytes: usize) -> bool
        ensures { IsTrue result ↔ ((rows ≤ self.now.row_room) × (bytes ≤ self.now.byte_room)) }
    {
        rows <= self.rows.capacity() - self.rows.len()
            && bytes <= self.bytes.capacity() - self.bytes.len()
    }

    /// Makes room for so many more, and for so many bytes of theirs. Where a growth is refused, all
    /// stay, there is no less room, and too little for the rows or for the bytes.
    pub fn make_room(&mut self, rows: usize, bytes: usize) -> Result<(), NoMemory>
        ensures noted { self.new.noted ≡ self.old.noted }
        ensures ok_rows { OnOk result (rows ≤ self.new.row_room) }
        ensures ok_bytes { OnOk result (bytes ≤ self.new.byte_room) }
        ensures rows_grow { self.old.row_room ≤ self.new.row_room }
        ensures bytes_grow { self.old.byte_room ≤ self.new.byte_room }
        ensures full { OnErr result
            ((self.new.row_room < rows) ⊎ (self.new.byte_room < bytes)) }
    {
        self.rows.reserve(rows)?;
        self.bytes.reserve(bytes)?;
        Ok(())
    }

    /// Appends one, which there is room for. The line is that of the command, if one was asked for.
    #[inline(always)]
    pub fn push(&mut self, number: u32, deed: Deed, line: &[u8], reply: &DeskReply)
        requires line { IsLineOf deed line.now }
        requires narrow { IsNarrow reply.now }
        requires row { 0 < self.old.row_room }
        requires bytes { length line.now + length (reply_bytes reply.now) ≤ self.old.byte_room }
        ensures noted { self.new.noted ≡ self.old.noted ++ record {
          number = number;
          event = deed_event deed line.now;
          reply = reply.now;
        } ∷ [] }
        ensures room { self.new.row_room + 1 ≡ self.old.row_room }
        ensures byte_room { self.old.byte_room
            ≤ self.new.byte_room + (length line.now + length (reply_bytes reply.now)) }
    {
        append_reserved(&mut self.bytes, line);
        append_reserved(&mut self.bytes, reply_bytes(reply));
        let packed = PackedReply::of(line.len(), reply);
        self.rows
            .push_reserved(KeptRow::new(self.bytes.len(), number, deed, packed));
    }
}
