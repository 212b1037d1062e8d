//! The target, and the log of the records that lead back from it.

ghost use Rattle.std.specs.Prelude.{◌≡◌, ◌+◌, ◌-◌, ◌<◌, ◌≤◌, ◌∷◌, ◌++◌, [], drop, length};
ghost use Rattle.std.specs.Prelude.{◌*◌, if◌then◌else◌, nat_lt, take, IfErr, IfOk, IsErrOf};
ghost use Rattle.std.specs.Prelude.{IsOk, OnErr, OnOk};
ghost use Rattle.rd_moves.specs.Moves.{IsMoveOf};
ghost use Rattle.rd_packed.specs.Records.{last_of_all, record_packed};
ghost use Rattle.rd_app.specs.Application.{priorities_of};
ghost use Rattle.rd_state.specs.Settled.{IsSettled};
ghost use Rattle.rd_state.specs.Undoing.{undone, CanUndo};
ghost use Rattle.rd_state.specs.Valid.{IsValid};
ghost use Rattle.rd_timeline.specs.LogView.{bytes_of, RecordsMove};
ghost use Rattle.rd_timeline.specs.LoggedView.{IsWhyNotPlayed};
ghost use Rattle.rd_timeline.specs.History.{rewound, CanRewind};
ghost use Rattle.rd_calls.specs.declared.play.TheConstants.{MAX_RECORD_BYTES};
ghost use Rattle.rd_state.specs.PackedChanges.{all_packed, IsPackable};

use rd_app::app::Program;
use rd_bytes::no_memory::NoMemory;
use rd_calls::play::{MAX_RECORD_BYTES, play_on};
use rd_moves::carried::Lent;
use rd_moves::moves::Move;
use rd_packed::count::ReadCount;
use rd_packed::packed::{Packed, TRAILER};
use rd_refusal::refusal::Refusal;
use rd_state::change_list::ChangeList;
use rd_state::editing::Editing;
use rd_state::state::State;
use std::alloc::Global;
use std::marker::Model;

/// How many bytes the record of a move takes in a log at the most.
pub const MAX_KEPT_BYTES: usize = MAX_RECORD_BYTES + TRAILER;

/// The target, with the records of the moves that led to it, in order. Moves are made and taken
/// back where it is. It can't be dropped: it ends in `retire`.
pub struct Logged {
    // The target, and the record of the move that is being made: between moves it is empty, and it
    // has room for the longest one.
    editing: Editing,
    // The records of moves done.
    log: Packed,
}

impl Model for Logged {
    ghost use Rattle.std.specs.Prelude.{◌≡◌, ◌≤◌, []};
    ghost use Rattle.rd_calls.specs.declared.play.TheConstants.{MAX_RECORD_BYTES};
    ghost use Rattle.rd_timeline.specs.LoggedView.{LoggedView};

    ghost Value = { LoggedView };

    ghost view = { λ l. record {
      target = l.editing.now;
      records = l.log.records;
      memory = l.log.capacity;
      read = l.log.read;
    } };

    ghost invariant = { λ l. (l.editing.changes ≡ []) × (MAX_RECORD_BYTES ≤ l.editing.room) };
}

// Puts a record of these changes at the log's end. It makes room for the longest record first,
// however short this one is: so where as many bytes of records were kept once, no record needs
// memory. Where there is none for that, the records are as they were.
fn append(log: &mut Packed, changes: &ChangeList) -> Result<(), NoMemory>
    requires packable { IsPackable changes.now.changes }
    requires short { length (all_packed changes.now.changes) ≤ MAX_RECORD_BYTES }
    ensures ok { OnOk result (log.new.records ≡ log.old.records ++ changes.now.changes ∷ []) }
    ensures ahead { OnOk result (bytes_of log.old.records + MAX_KEPT_BYTES ≤ log.new.capacity) }
    ensures enough { bytes_of log.old.records + MAX_KEPT_BYTES ≤ log.old.capacity → IsOk result }
    ensures err { OnErr result (log.new.records ≡ log.old.records) }
    ensures grows { log.old.capacity ≤ log.new.capacity }
    ensures read { log.new.read ≡ log.old.read }
{
    log.reserve(MAX_KEPT_BYTES)?;
    log.append(changes)
}

impl Logged {
    /// A target from which nothing leads back. An `Err` says that there is no memory for the record
    /// of a move, and drops the target.
    pub fn new(alloc: Global, target: State) -> Result<Logged, NoMemory>
        ensures target { IfOk result (λ logged. logged.target ≡ target) }
        ensures records { IfOk result (λ logged. logged.records ≡ []) }
        ensures read { IfOk result (λ logged. logged.read ≡ 0) }
    {
        let mut editing = Editing::new(alloc, target);
        if editing.reserve(MAX_RECORD_BYTES).is_err() {
            editing.retire();
            return Err(NoMemory);
        }
        Ok(Logged {
            editing,
            log: Packed::new(alloc),
        })
    }

    /// The target as it is now.
    pub fn target(&self) -> &State
        ensures { result.now ≡ self.now.target }
    {
        self.editing.state()
    }

    /// How many records there are.
    pub fn kept(&self) -> usize
        ensures { result ≡ length self.now.records }
    {
        self.log.len()
    }

    /// How many bytes all records take.
    pub fn bytes(&self) -> usize
        ensures { result ≡ bytes_of self.now.records }
    {
        self.log.bytes()
    }

    /// How many bytes of them were read, as a count of its own.
    pub fn count(&self) -> ReadCount
        ensures { result.bytes ≡ self.now.read }
    {
        self.log.count()
    }

    /// Makes a move, and its record is the last one then. It takes no memory where the log has room
    /// for the longest record. A refusal is one of the kernel's rules, or else `NoMemory` where the
    /// log can't grow, and leaves the target and the records as they were: the move is taken back.
    pub fn play(&mut self, app: &Program, action: &Move<Lent<'_>>) -> Result<(), Refusal>
        requires valid { IsValid app.now self.old.target }
        requires named { IsMoveOf app.now action.now }
        requires settled { IsSettled (priorities_of app.now) self.old.target }
        ensures lays { OnOk result (RecordsMove app.now self.old.target action.now
            self.new.target self.old.records self.new.records) }
        ensures ahead { OnOk result
            (bytes_of self.old.records + MAX_KEPT_BYTES ≤ self.new.memory) }
        ensures refusals { IfErr result (IsWhyNotPlayed app.now self.old.target action.now) }
        ensures short { IsErrOf result Refusal.NoMemory
            → self.old.memory < bytes_of self.old.records + MAX_KEPT_BYTES }
        ensures err { OnErr result (self.new.records ≡ self.old.records) }
        ensures err_target { OnErr result (self.new.target ≡ self.old.target) }
        ensures grows { self.old.memory ≤ self.new.memory }
        ensures read { self.new.read ≡ self.old.read }
    {
        play_on(&mut self.editing, app, action)?;
        if append(&mut self.log, self.editing.recorded()).is_err() {
            self.editing.back_to(0);
            return Err(Refusal::NoMemory);
        }
        self.editing.empty();
        Ok(())
    }

    // Goes back by the last record.
    fn undo_last(&mut self)
        requires some { 0 < length self.old.records }
        requires fits { CanUndo self.old.target (last_of_all self.old.records) }
        ensures target { self.new.target
            ≡ undone self.old.target (last_of_all self.old.records) }
        ensures records { self.new.records ≡ take (length self.old.records - 1) self.old.records }
        ensures read { self.new.read
            ≡ self.old.read + length (record_packed (last_of_all self.old.records)) }
        ensures memory { self.new.memory ≡ self.old.memory }
    {
        self.log.undo_last(self.editing.state_mut());
    }

    /// Goes back by the last `n` records, which are gone then, and reads as many bytes as they have.
    /// It takes no memory, and the room stays.
    pub fn take_back(&mut self, n: usize)
        requires within { n ≤ length self.old.records }
        requires can_rewind { CanRewind self.old.target
            (drop (length self.old.records - n) self.old.records) }
        ensures target { self.new.target ≡ rewound self.old.target
            (drop (length self.old.records - n) self.old.records) }
        ensures records { self.new.records
            ≡ take (length self.old.records - n) self.old.records }
        ensures read { self.new.read ≡ self.old.read
            + bytes_of (drop (length self.old.records - n) self.old.records) }
        ensures memory { self.new.memory ≡ self.old.memory }
    {
        for _ in 0..n {
            self.undo_last();
        }
    }

    /// Keeps the last `n` records, or all where they are fewer, and gives up those before. It reads
    /// 8 bytes of each that is kept, where any is given up. It takes no memory, and the room stays.
    pub fn keep_last(&mut self, n: usize)
        ensures target { self.new.target ≡ self.old.target }
        ensures records { self.new.records
            ≡ drop (length self.old.records - n) self.old.records }
        ensures read { self.new.read
            ≡ self.old.read + (if nat_lt n (length self.old.records) then 8 * n else 0) }
        ensures memory { self.new.memory ≡ self.old.memory }
    {
        self.log.keep_last(n);
    }

    /// Ends it: nobody will go back any more.
    pub fn retire(self) {
        let Logged { editing, log } = self;
        editing.retire();
        log.retire();
    }
}
