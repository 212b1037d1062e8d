//! Records as bytes, one after the other.

ghost use Rattle.std.specs.Prelude.{◌≡◌, ◌+◌, ◌-◌, ◌<◌, ◌≤◌, ◌∷◌, ◌++◌, ◌^◌, [], length, take};
ghost use Rattle.std.specs.Prelude.{IfErr, IsOk, OnErr, OnOk};
ghost use Rattle.std.specs.Prelude.{◌*◌, drop, if◌then◌else◌, nat_lt};
ghost use Rattle.std.specs.Borrow.{sem};
ghost use Rattle.rd_bytes.specs.Ends.{end_word};
ghost use Rattle.rd_packed.specs.ReadingAll.{CountsReadOf};
ghost use Rattle.rd_packed.specs.Records.{body_size, change_count, last_of_all};
ghost use Rattle.rd_packed.specs.Records.{start_of_last, HasLast};
ghost use Rattle.rd_packed.specs.Records.{record_packed, records_packed, trailer, TakesLittle};
ghost use Rattle.rd_state.specs.PackedChanges.{IsPackable};
ghost use Rattle.rd_state.specs.Undoing.{undone, CanUndo};

use crate::count::ReadCount;
use crate::tape::Tape;
use rd_bytes::ends::end_word;
use rd_bytes::no_memory::NoMemory;
use rd_state::change_list::ChangeList;
use rd_state::state::State;
use rd_state::undo::Undo;
use std::alloc::Global;
use std::marker::Model;

/// How many bytes stand behind the changes of a record.
pub const TRAILER: usize = 8;

/// A list of records. It can't be dropped: it ends in `retire`.
pub struct Packed {
    tape: Tape,
    records: usize,
}

impl Model for Packed {
    ghost use Rattle.rd_packed.specs.Records.{PackedView, records_in, AreRecords};

    ghost Value = { PackedView };

    ghost view = { λ p. record {
      records = records_in p.records p.tape.bytes;
      capacity = p.tape.capacity;
      read = p.tape.read;
    } };

    ghost invariant = { λ p. AreRecords p.records p.tape.bytes };
}

// The two numbers of a trailer.
fn numbers_of(trailer: &[u8]) -> (usize, usize)
    requires { length trailer.now ≡ 8 }
    ensures size { result.0 ≡ end_word 5 trailer.now }
    ensures count { result.1 ≡ end_word 1 trailer.now }
{
    (end_word(trailer, 5) as usize, end_word(trailer, 1) as usize)
}

// Reads the trailer of the record that ends at `end`. Answers how many bytes its changes take, and
// how many they are.
fn read_trailer(tape: &mut Tape, end: usize) -> (usize, usize)
    requires trailer { 8 ≤ end }
    requires there { end ≤ length tape.old.bytes }
    ensures size { result.0 ≡ body_size (take end tape.old.bytes) }
    ensures count { result.1 ≡ change_count (take end tape.old.bytes) }
    ensures tape { tape.new ≡ record tape.old { read = tape.old.read + 8 } }
{
    numbers_of(tape.read(end - TRAILER, TRAILER))
}

// Where the last `n` records begin. It goes from trailer to trailer, the last one first, and reads
// each once.
fn start_of_last(tape: &mut Tape, n: usize) -> usize
    requires { HasLast n tape.old.bytes }
    ensures start { result ≡ start_of_last n tape.old.bytes }
    ensures tape { tape.new ≡ record tape.old { read = tape.old.read + 8 * n } }
{
    let mut start = tape.len();
    let mut left = n;
    while left > 0 {
        let (size, _) = read_trailer(tape, start);
        start = start - TRAILER - size;
        left -= 1;
    }
    start
}

// Puts the changes of a record at the end, and the two numbers behind them.
fn push_record(tape: &mut Tape, body: &[u8], count: usize) -> Result<(), NoMemory>
    requires small { length body.now < 2 ^ 32 }
    requires few { count < 2 ^ 32 }
    ensures ok { OnOk result (tape.new.bytes
        ≡ (tape.old.bytes ++ body.now) ++ trailer (length body.now) count) }
    ensures enough { length tape.old.bytes + (length body.now + 8) ≤ tape.old.capacity
        → IsOk result }
    ensures err { OnErr result (tape.new.bytes ≡ tape.old.bytes) }
    ensures grows { tape.old.capacity ≤ tape.new.capacity }
    ensures read { tape.new.read ≡ tape.old.read }
{
    let before = tape.len();
    tape.push(body)?;
    let [a, b, c, d] = (body.len() as u32).to_le_bytes();
    let [e, f, g, h] = (count as u32).to_le_bytes();
    let pushed = tape.push(&[a, b, c, d, e, f, g, h]);
    if pushed.is_err() {
        tape.cut(before);
    }
    pushed
}

impl Packed {
    /// No records. It takes no memory.
    pub fn new(alloc: Global) -> Packed
        ensures records { result.records ≡ [] }
        ensures read { result.read ≡ 0 }
    {
        Packed {
            tape: Tape::new(alloc),
            records: 0,
        }
    }

    /// How many records there are. It takes no memory.
    pub fn len(&self) -> usize
        ensures { result ≡ length self.now.records }
    {
        self.records
    }

    /// How many bytes they take. It takes no memory.
    pub fn bytes(&self) -> usize
        ensures { result ≡ length (records_packed self.now.records) }
    {
        self.tape.len()
    }

    /// How many bytes of them were read, as a count of its own.
    pub fn count(&self) -> ReadCount
        ensures { result.bytes ≡ self.now.read }
    {
        self.tape.count()
    }

    /// Makes room for so many bytes more. Where there is no memory for them, nothing has changed.
    pub fn reserve(&mut self, more: usize) -> Result<(), NoMemory>
        ensures ok { OnOk result
            (length (records_packed self.new.records) + more ≤ self.new.capacity) }
        ensures enough { length (records_packed self.old.records) + more ≤ self.old.capacity
            → IsOk result }
        ensures records { self.new.records ≡ self.old.records }
        ensures grows { self.old.capacity ≤ self.new.capacity }
        ensures read { self.new.read ≡ self.old.read }
    {
        self.tape.reserve(more)
    }

    /// Puts a record of these changes at the end, which takes at most 16 bytes a change, those that
    /// they save, and 8. It refuses for want of memory alone, and where there is room for the
    /// record's bytes, it doesn't; then the others are as they were.
    pub fn append(&mut self, changes: &ChangeList) -> Result<(), NoMemory>
        requires { IsPackable changes.now.changes }
        ensures ok { OnOk result
            (self.new.records ≡ self.old.records ++ changes.now.changes ∷ []) }
        ensures records_take_little { TakesLittle changes.now.changes }
        ensures enough { length (records_packed self.old.records)
            + length (record_packed changes.now.changes) ≤ self.old.capacity → IsOk result }
        ensures err { OnErr result (self.new.records ≡ self.old.records) }
        ensures grows { self.old.capacity ≤ self.new.capacity }
        ensures read { self.new.read ≡ self.old.read }
    {
        let count = changes.len();
        push_record(&mut self.tape, changes.bytes(), count)?;
        // Each record takes eight bytes at least, so their number fits.
        let _len = self.tape.len();
        self.records += 1;
        Ok(())
    }

    /// Puts a record at the end, likewise. Where there is no memory for it, the same record is
    /// handed back, and the others are as they were.
    pub fn push(&mut self, undo: Undo) -> Result<(), Undo>
        requires { IsPackable undo }
        ensures ok { OnOk result (self.new.records ≡ self.old.records ++ undo ∷ []) }
        ensures records_take_little { TakesLittle undo }
        ensures enough { length (records_packed self.old.records) + length (record_packed undo)
            ≤ self.old.capacity → IsOk result }
        ensures back { IfErr result (λ back. back ≡ undo) }
        ensures err { OnErr result (self.new.records ≡ self.old.records) }
        ensures grows { self.old.capacity ≤ self.new.capacity }
        ensures read { self.new.read ≡ self.old.read }
    {
        if self.append(undo.changes()).is_err() {
            return Err(undo);
        }
        undo.retire();
        Ok(())
    }

    /// The `n` bytes from `from` on of all records, which are counted as read. It takes no memory.
    pub fn read(&mut self, from: usize, n: usize) -> &[u8]
        requires { from + n ≤ length (records_packed self.old.records) }
        ensures* count { sem 𝓛 (CountsReadOf self.entry n) }
        ensures bytes { result.now ≡ take n (drop from (records_packed self.old.records)) }
    {
        self.tape.read(from, n)
    }

    /// Goes back by the last record, which leaves the others, and of which each byte is read once.
    /// It takes no memory, and keeps the memory that it has.
    pub fn undo_last(&mut self, state: &mut State)
        requires some { 0 < length self.old.records }
        requires fits { CanUndo state.old (last_of_all self.old.records) }
        ensures state { state.new ≡ undone state.old (last_of_all self.old.records) }
        ensures records { self.new.records ≡ take (length self.old.records - 1) self.old.records }
        ensures read { self.new.read
            ≡ self.old.read + length (record_packed (last_of_all self.old.records)) }
        ensures capacity { self.new.capacity ≡ self.old.capacity }
    {
        let end = self.tape.len();
        let (size, count) = read_trailer(&mut self.tape, end);
        let start = end - TRAILER - size;
        state.back_by(self.tape.read(start, size), count);
        self.tape.cut(start);
        self.records -= 1;
    }

    /// Keeps the last `n` records, or all where there are fewer, and gives up the others. Where it
    /// gives up any, it reads the trailers of those that it keeps, and no other byte. It takes no
    /// memory, and keeps the memory that it has.
    pub fn keep_last(&mut self, n: usize)
        ensures records { self.new.records
            ≡ drop (length self.old.records - n) self.old.records }
        ensures read { self.new.read
            ≡ self.old.read + (if nat_lt n (length self.old.records) then 8 * n else 0) }
        ensures capacity { self.new.capacity ≡ self.old.capacity }
    {
        if n < self.records {
            let start = start_of_last(&mut self.tape, n);
            self.tape.drop_front(start);
            self.records = n;
        }
    }

    /// Ends it: nobody will go back by its records.
    pub fn retire(self) {
        let Packed { tape, records: _ } = self;
        tape.retire();
    }
}
