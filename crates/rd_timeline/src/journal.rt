//! The moves done and undone, with the target, and the records that lead back through the last of
//! those done.

ghost use Rattle.std.specs.Prelude.{◌≡◌, ◌-◌, ◌∷◌, ◌++◌, ◌+◌, ◌<◌, ◌≤◌, [], drop, length};
ghost use Rattle.std.specs.Prelude.{◌*◌, if◌then◌else◌, nat_lt, take, IfErr, IfOk, IsErrOf, IsOk};
ghost use Rattle.std.specs.Prelude.{IsTrue, OnErr, OnOk};
ghost use Rattle.rd_moves.specs.Moves.{IsMoveOf};
ghost use Rattle.rd_app.specs.Application.{priorities_of};
ghost use Rattle.rd_state.specs.Settled.{IsSettled};
ghost use Rattle.rd_state.specs.Valid.{IsValid};
ghost use Rattle.rd_timeline.specs.History.{rewound, CanRewind};
ghost use Rattle.rd_timeline.specs.Decoded.{byte_of, carried_among, carried_at, carried_in};
ghost use Rattle.rd_timeline.specs.Decoded.{HasByte, is_carried_byte, move_of};
ghost use Rattle.rd_timeline.specs.JournalView.{next_undone, HasCarriedRoom, IsAsBefore};
ghost use Rattle.rd_timeline.specs.LogView.{bytes_of, RecordsMove};
ghost use Rattle.rd_timeline.specs.LoggedView.{IsWhyNotPlayed};
ghost use Rattle.rd_timeline.specs.declared.logged.TheConstants.{MAX_KEPT_BYTES};

use crate::carried::CarriedList;
use crate::logged::Logged;
use rd_app::app::Program;
use rd_bytes::no_memory::NoMemory;
use rd_moves::carried::{Carried, Lent};
use rd_moves::moves::Move;
use rd_packed::count::ReadCount;
use rd_refusal::refusal::Refusal;
use rd_state::state::State;
use std::alloc::Global;
use std::marker::Model;

/// The moves done and the moves undone, in one list, and the target with the records of the last
/// moves done. It can't be dropped: it ends in `retire`.
pub struct Journal {
    // A byte a move: the number of its core, 255 for a tick, or 254 where the move carries
    // something besides.
    moves: Vec<u8>,
    // So many of them are done; the others are undone, the one to be redone next first.
    done: usize,
    // What they carry. Moves that carry something are rare, and what they carry is large.
    carried: CarriedList,
    logged: Logged,
}

impl Model for Journal {
    ghost use Rattle.rd_timeline.specs.JournalView.{JournalView};

    ghost Value = { JournalView };

    ghost use Rattle.rd_timeline.specs.JournalInside.{journal_of, IsInOrder};

    ghost view = { journal_of };

    ghost invariant = { IsInOrder };
}

/// Moves undone that are kept aside while a run goes on.
#[derive(Drop)]
pub struct Aside {
    moves: Vec<u8>,
    // What they carry.
    carried: Vec<Carried>,
}

impl Model for Aside {
    ghost use Rattle.std.specs.Prelude.{List};
    ghost use Rattle.rd_moves.specs.Moves.{PlainMove};
    ghost use Rattle.rd_timeline.specs.JournalInside.{moves_aside, HasAllCarried};

    ghost Value = { List PlainMove };

    ghost view = { moves_aside };

    ghost invariant = { HasAllCarried };
}

// The byte that stands for a move.
fn byte_of_move(action: &Move<Lent<'_>>) -> u8
    requires { HasByte action.now }
    ensures { result ≡ byte_of action.now }
{
    match action {
        Move::Core { core } => *core as u8,
        Move::Tick => 255,
        Move::Carried { .. } => 254,
    }
}

// How many moves that carry something a byte stands for: one or none.
fn carried_at(byte: u8) -> usize
    ensures { result ≡ carried_at byte }
{
    if byte == 254 { 1 } else { 0 }
}

// How many of the bytes stand for moves that carry something.
fn carried_among(bytes: &[u8]) -> usize
    ensures { result ≡ carried_among bytes.now }
{
    bytes.iter().filter(|byte| **byte == 254).count()
}

// The move that a byte stands for, where what it carries is the first of what is undone.
fn move_of(byte: u8, carried: &CarriedList) -> Move<Lent<'_>>
    requires { IsTrue (is_carried_byte byte) → 0 < length carried.now.undone }
    ensures { result ≡ move_of byte carried.now.undone }
{
    match byte {
        255 => Move::Tick,
        254 => carried.next(),
        core => Move::Core {
            core: usize::from(core),
        },
    }
}

impl Journal {
    /// No moves yet, from this target on. An `Err` says that there is no memory for the record of a
    /// move, and drops the target.
    pub fn new(alloc: Global, target: State) -> Result<Journal, NoMemory>
        ensures target { IfOk result (λ journal. journal.target ≡ target) }
        ensures done { IfOk result (λ journal. journal.done ≡ []) }
        ensures records { IfOk result (λ journal. journal.records ≡ []) }
        ensures undone { IfOk result (λ journal. journal.undone ≡ []) }
        ensures read { IfOk result (λ journal. journal.read ≡ 0) }
    {
        let logged = Logged::new(alloc, target)?;
        Ok(Journal {
            moves: Vec::new(alloc),
            done: 0,
            carried: CarriedList::new(alloc),
            logged,
        })
    }

    /// The target as it is now.
    pub fn target(&self) -> &State
        ensures { result.now ≡ self.now.target }
    {
        self.logged.target()
    }

    /// How many moves are done.
    pub fn done(&self) -> usize
        ensures { result ≡ length self.now.done }
    {
        self.done
    }

    /// How many moves are undone.
    pub fn undone(&self) -> usize
        ensures { result ≡ length self.now.undone }
    {
        self.moves.len() - self.done
    }

    /// How many moves have a record kept.
    pub fn kept(&self) -> usize
        ensures { result ≡ length self.now.records }
    {
        self.logged.kept()
    }

    /// How many bytes of them were read, as a count of its own.
    pub fn count(&self) -> ReadCount
        ensures { result.bytes ≡ self.now.read }
    {
        self.logged.count()
    }

    /// Makes room for one move more done, but for what it carries (`reserve_for`). Where there is
    /// no memory for that, nothing else has changed. It needs none where there is such room, as
    /// there is after going back.
    pub fn reserve(&mut self) -> Result<(), NoMemory>
        ensures same { IsAsBefore self.old self.new }
        ensures ok { OnOk result (length self.new.done < self.new.capacity) }
        ensures enough { length self.old.done < self.old.capacity → IsOk result }
        ensures grows { self.old.capacity ≤ self.new.capacity }
        ensures same_carried_capacity { self.new.carried_capacity ≡ self.old.carried_capacity }
        ensures same_memory { self.new.memory ≡ self.old.memory }
    {
        let missing = (self.done + 1).saturating_sub(self.moves.len());
        self.moves.reserve(missing)?;
        Ok(())
    }

    /// Makes room for this move to be done. Where there is no memory for that, nothing else has
    /// changed. It needs none where there is such room, as there is after going back. Only a move
    /// that carries something needs room for that.
    pub fn reserve_for(&mut self, action: &Move<Lent<'_>>) -> Result<(), NoMemory>
        ensures same { IsAsBefore self.old self.new }
        ensures ok { OnOk result (length self.new.done < self.new.capacity) }
        ensures ok_carried { OnOk result (HasCarriedRoom self.new action.now) }
        ensures enough { length self.old.done < self.old.capacity
            → HasCarriedRoom self.old action.now → IsOk result }
        ensures grows { self.old.capacity ≤ self.new.capacity }
        ensures more_carried { self.old.carried_capacity ≤ self.new.carried_capacity }
        ensures same_memory { self.new.memory ≡ self.old.memory }
    {
        self.carried.reserve(action)?;
        self.reserve()
    }

    /// Makes a move: it is laid on the moves done, with its record, and the moves undone are
    /// forgotten. It takes no memory where the log has room for the longest record. A refusal is
    /// one of the kernel's rules, or else `NoMemory` where the log can't grow, and leaves the
    /// target, the moves and their records as they were.
    pub fn play(&mut self, app: &Program, action: &Move<Lent<'_>>) -> Result<(), Refusal>
        requires valid { IsValid app.now self.old.target }
        requires named { IsMoveOf app.now action.now }
        requires settled { IsSettled (priorities_of app.now) self.old.target }
        requires capacity { length self.old.done < self.old.capacity }
        requires carried_room { HasCarriedRoom self.old action.now }
        ensures lays { OnOk result
            (RecordsMove app.now self.old.target action.now self.new.target
            self.old.records self.new.records) }
        ensures done { OnOk result (self.new.done ≡ self.old.done ++ action.now ∷ []) }
        ensures undone { OnOk result (self.new.undone ≡ []) }
        ensures ahead { OnOk result
            (bytes_of self.old.records + MAX_KEPT_BYTES ≤ self.new.memory) }
        ensures refusals { IfErr result (IsWhyNotPlayed app.now self.old.target action.now) }
        ensures short { IsErrOf result Refusal.NoMemory
            → self.old.memory < bytes_of self.old.records + MAX_KEPT_BYTES }
        ensures err { OnErr result (IsAsBefore self.old self.new) }
        ensures read { self.new.read ≡ self.old.read }
        ensures same_capacity { self.new.capacity ≡ self.old.capacity }
        ensures same_carried_capacity { self.new.carried_capacity ≡ self.old.carried_capacity }
        ensures grows { self.old.memory ≤ self.new.memory }
    {
        app.limits();
        let byte = byte_of_move(action);
        self.logged.play(app, action)?;
        self.moves.truncate(self.done);
        self.moves.push_reserved(byte);
        self.done += 1;
        self.carried.lay(action);
        Ok(())
    }

    /// Makes the move again that is to be redone next. It takes no memory where the log has room
    /// for the longest record. A refusal is one of the kernel's rules, or else `NoMemory` where the
    /// log can't grow, and leaves the target, the moves and their records as they were.
    pub fn replay(&mut self, app: &Program) -> Result<(), Refusal>
        requires some { 0 < length self.old.undone }
        requires valid { IsValid app.now self.old.target }
        requires named { IsMoveOf app.now (next_undone self.old) }
        requires settled { IsSettled (priorities_of app.now) self.old.target }
        requires capacity { length self.old.done < self.old.capacity }
        ensures lays { OnOk result
            (RecordsMove app.now self.old.target (next_undone self.old) self.new.target
            self.old.records self.new.records) }
        ensures done { OnOk result
            (self.new.done ≡ self.old.done ++ next_undone self.old ∷ []) }
        ensures undone { OnOk result (self.new.undone ≡ drop 1 self.old.undone) }
        ensures ahead { OnOk result
            (bytes_of self.old.records + MAX_KEPT_BYTES ≤ self.new.memory) }
        ensures refusals { IfErr result
            (IsWhyNotPlayed app.now self.old.target (next_undone self.old)) }
        ensures short { IsErrOf result Refusal.NoMemory
            → self.old.memory < bytes_of self.old.records + MAX_KEPT_BYTES }
        ensures err { OnErr result (IsAsBefore self.old self.new) }
        ensures read { self.new.read ≡ self.old.read }
        ensures same_capacity { self.new.capacity ≡ self.old.capacity }
        ensures same_carried_capacity { self.new.carried_capacity ≡ self.old.carried_capacity }
        ensures grows { self.old.memory ≤ self.new.memory }
    {
        let byte = self.moves[self.done];
        let action = move_of(byte, &self.carried);
        self.logged.play(app, &action)?;
        self.carried.go_on(carried_at(byte));
        self.done += 1;
        Ok(())
    }

    /// Sets the moves undone aside. An `Err` says that there are some and no memory for that, and
    /// leaves the journal as it was.
    pub fn set_aside(&mut self) -> Result<Aside, NoMemory>
        ensures aside { IfOk result (λ aside. aside ≡ self.old.undone) }
        ensures emptied { OnOk result (self.new ≡ record self.old { undone = [] }) }
        ensures short { OnErr result (0 < length self.old.undone) }
        ensures err { OnErr result (self.new ≡ self.old) }
    {
        // (once there is memory for these bytes, nothing else but what is carried can find none)
        let done = self.done;
        let count = self.moves.len() - done;
        let mut moves = Vec::with_capacity(*self.moves.allocator(), count)?;
        let carried = self.carried.set_aside()?;
        moves.extend_from_slice(&self.moves[done..]).unwrap();
        self.moves.truncate(done);
        Ok(Aside { moves, carried })
    }

    /// Puts moves that were set aside in the place of those that are undone. It takes no memory.
    pub fn put_back(&mut self, aside: Aside)
        requires moves { length self.old.done + length aside ≤ self.old.capacity }
        requires carried { carried_in self.old.done + carried_in aside ≤ self.old.carried_capacity }
        ensures undone { self.new.undone ≡ aside }
        ensures target { self.new.target ≡ self.old.target }
        ensures done { self.new.done ≡ self.old.done }
        ensures records { self.new.records ≡ self.old.records }
        ensures same_memory { self.new.memory ≡ self.old.memory }
        ensures read { self.new.read ≡ self.old.read }
        ensures grows { self.old.capacity ≤ self.new.capacity }
        ensures more_carried { self.old.carried_capacity ≤ self.new.carried_capacity }
    {
        let Aside { moves, carried } = aside;
        let done = self.done;
        self.moves.truncate(done);
        self.moves.extend_from_slice(moves.as_slice()).unwrap();
        self.carried.put_back(carried);
    }

    // How many of the last `n` moves done carry something. Where nothing is kept they aren't looked
    // at.
    fn carried_in_last(&self, n: usize) -> usize
        requires { n ≤ length self.now.done }
        ensures { result ≡ carried_in (drop (length self.now.done - n) self.now.done) }
    {
        if self.carried.done() == 0 {
            return 0;
        }
        carried_among(&self.moves[self.done - n..self.done])
    }

    /// Takes the last `n` moves done back, which have a record each: the target goes back by these,
    /// and as many bytes are read as they have. The moves become the first of the moves undone. It
    /// takes no memory, and the room stays.
    pub fn take_back(&mut self, n: usize)
        requires within { n ≤ length self.old.records }
        requires can_rewind { CanRewind self.old.target
            (drop (length self.old.records - n) self.old.records) }
        ensures target { self.new.target ≡ rewound self.old.target
            (drop (length self.old.records - n) self.old.records) }
        ensures done { self.new.done ≡ take (length self.old.done - n) self.old.done }
        ensures undone { self.new.undone
            ≡ drop (length self.old.done - n) self.old.done ++ self.old.undone }
        ensures records { self.new.records
            ≡ take (length self.old.records - n) self.old.records }
        ensures same_capacity { self.new.capacity ≡ self.old.capacity }
        ensures same_carried_capacity { self.new.carried_capacity ≡ self.old.carried_capacity }
        ensures same_memory { self.new.memory ≡ self.old.memory }
        ensures read { self.new.read ≡ self.old.read
            + bytes_of (drop (length self.old.records - n) self.old.records) }
    {
        let count = self.carried_in_last(n);
        self.carried.take_back(count);
        self.done -= n;
        self.logged.take_back(n);
    }

    /// Keeps the records of the last `n` moves done, or all where they are fewer, and gives up
    /// those before. The moves stay. It reads 8 bytes of each record that is kept, where any is
    /// given up. It takes no memory, and the room stays.
    pub fn keep_last(&mut self, n: usize)
        ensures target { self.new.target ≡ self.old.target }
        ensures done { self.new.done ≡ self.old.done }
        ensures undone { self.new.undone ≡ self.old.undone }
        ensures records { self.new.records
            ≡ drop (length self.old.records - n) self.old.records }
        ensures read { self.new.read
            ≡ self.old.read + (if nat_lt n (length self.old.records) then 8 * n else 0) }
        ensures same_capacity { self.new.capacity ≡ self.old.capacity }
        ensures same_carried_capacity { self.new.carried_capacity ≡ self.old.carried_capacity }
        ensures same_memory { self.new.memory ≡ self.old.memory }
    {
        self.logged.keep_last(n);
    }

    /// Ends the journal: nobody will go back any more.
    pub fn retire(self) {
        let Journal {
            moves: _,
            done: _,
            carried: _,
            logged,
        } = self;
        logged.retire();
    }
}
