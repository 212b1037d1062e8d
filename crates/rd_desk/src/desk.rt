//! The sequential debugger with its history.

ghost use Rattle.std.specs.Prelude.{◌≡◌, ◌≢◌, ◌↔◌, ◌+◌, ◌<◌, ◌≤◌, ◌∷◌, ◌++◌, [], length};
ghost use Rattle.std.specs.Prelude.{IfErr, IfOk, IsErrOf, IsTrue, OnErr, OnOk};
ghost use Rattle.rd_timeline.specs.Runs.{kept};
ghost use Rattle.rd_command.specs.Bindings.{known_of};
ghost use Rattle.rd_desk.specs.declared.entry.Event.TheVariants.{Enter, Ask, Leave};
ghost use Rattle.rd_desk.specs.Debugger.{opening, target_of};
ghost use Rattle.rd_desk.specs.DeskView.{entry_of, used, Does, IsSound};
ghost use Rattle.rd_desk.specs.HistoryView.{reply_bytes, IsView};
ghost use Rattle.rd_desk.specs.Kept.{IsNarrow};
ghost use Rattle.rd_desk.specs.Memory.{MayLackMemory, TakesAtMost};
ghost use Rattle.rd_desk.specs.Rows.{HasNoLess};
ghost use Rattle.rd_desk.specs.Serving.{entered};
ghost use Rattle.rd_desk.specs.Refusals.{tally_of, IfEnterFull, IfServeFull, is_enter_full};
ghost use Rattle.rd_desk.specs.Refusals.{is_serve_full, IsWhyNotLetIn, LetsIn};
ghost use Rattle.rd_desk.specs.Sessions.{IsPresent, present_count, watch_count};

use crate::asked::Asked;
use crate::entry::{Event, HistoryEntry, Receipt};
use crate::history::History;
use crate::limits::Limits;
use crate::machine::DeskMachine;
use crate::reply::DeskReply;
use crate::rows::{Deed, Rows};
use crate::sessions::MAX_JOINS;
use crate::tally::Tally;
use rd_app::app::Program;
use rd_bytes::no_memory::NoMemory;
use rd_command::order::Order;
use rd_names::app::App;
use rd_names::names::Names;
use rd_state::state::State;
use std::alloc::Global;
use std::marker::Model;
use thiserror::Error;

/// Why a session couldn't enter. Nothing has changed.
#[derive(Debug, Drop, Error)]
pub enum EnterError {
    /// As many have entered as may.
    #[error("as many sessions have entered as may")]
    Full,
    /// Fewer than two places of the history are free.
    #[error("the history is full: {tally}")]
    HistoryFull { tally: Tally },
    /// A growth was refused.
    #[error("there is no memory")]
    NoMemory,
}

/// Why a command wasn't served. Nothing has changed.
#[derive(Debug, Drop, Error)]
pub enum NotServed {
    /// No place of the history is free.
    #[error("the history is full: {tally}")]
    HistoryFull { tally: Tally },
    /// A growth was refused.
    #[error("there is no memory")]
    NoMemory,
    /// The session's own receipts aren't those of the history. A desk never says so: only a hall,
    /// whose sessions keep their receipts, can.
    #[error("the session's receipts aren't those of the history")]
    Broken,
}

impl From<NoMemory> for NotServed {
    ghost use Rattle.rd_desk.specs.declared.desk.NotServed.{NotServed};

    ghost from_gives = { λ _ error. error ≡ NotServed.NoMemory };

    fn from(_error: NoMemory) -> NotServed {
        NotServed::NoMemory
    }
}

/// The sequential debugger with its history. It can't be dropped: it ends in `close`.
pub struct Desk {
    alloc: Global,
    machine: DeskMachine,
    limit: usize,
    history: History,
}

impl Model for Desk {
    ghost use Rattle.rd_desk.specs.DeskView.{RoomedDesk};

    ghost Value = { RoomedDesk };

    ghost use Rattle.rd_desk.specs.DeskInside.{roomed_desk_of, IsLegalDesk};

    ghost view = { roomed_desk_of };

    ghost invariant = { IsLegalDesk };
}

// Lets the next session in, where there is room for its entry.
fn admit(machine: &mut DeskMachine, history: &mut History) -> Receipt
    requires joins { length machine.old.debugger.sessions < MAX_JOINS }
    requires room { 0 < history.old.row_room }
    ensures machine { machine.new.debugger ≡ entered machine.old.debugger }
    ensures present { present_count machine.new.debugger.sessions
        ≡ present_count machine.old.debugger.sessions + 1 }
    ensures history { history.new.entries ≡ history.old.entries
        ++ entry_of machine.old.debugger (length machine.old.debugger.sessions + 1) Enter ∷ [] }
    ensures room { history.new.row_room + 1 ≡ history.old.row_room }
    ensures bytes { history.old.byte_room ≤ history.new.byte_room }
    ensures place { result.place ≡ length history.old.entries }
    ensures entry { result.entry
        ≡ entry_of machine.old.debugger (length machine.old.debugger.sessions + 1) Enter }
{
    let who = machine.joins() as u32 + 1;
    let place = history.len();
    machine.enter();
    history.push(who, Deed::Enter, &[], &DeskReply::Done);
    Receipt {
        place,
        entry: HistoryEntry {
            who,
            event: Event::Enter,
            reply: DeskReply::Done,
        },
    }
}

// Makes room for the bytes of a reply, in the history for so many entries more and in what its
// session keeps, where there is room for all but the reply of the first. An `Err` says that there
// is no memory for them; only a view has some.
fn make_room_for(
    history: &mut History,
    rows: usize,
    receipts: &mut Rows,
    line: &[u8],
    reply: &DeskReply,
) -> Result<(), NoMemory>
    requires rows { rows ≤ history.old.row_room }
    requires line { length line.now ≤ history.old.byte_room }
    requires receipts { length line.now ≤ receipts.old.byte_room }
    ensures entries { history.new.entries ≡ history.old.entries }
    ensures rows { history.old.row_room ≤ history.new.row_room }
    ensures bytes { OnOk result
        (length line.now + length (reply_bytes reply.now) ≤ history.new.byte_room) }
    ensures bytes_grow { history.old.byte_room ≤ history.new.byte_room }
    ensures receipts { HasNoLess receipts.old receipts.new }
    ensures receipt_bytes { OnOk result
        (length line.now + length (reply_bytes reply.now) ≤ receipts.new.byte_room) }
    ensures err { OnErr result (IsView reply.now) }
{
    match reply {
        DeskReply::Shown { text } => {
            let bytes = line.len() + text.as_slice().len();
            history.make_room(rows, bytes)?;
            receipts.make_room(0, bytes)
        }
        DeskReply::Done | DeskReply::Told { .. } => Ok(()),
    }
}

impl Desk {
    /// A debugger at its opening, with no entry. A refusal drops the application.
    pub fn open(alloc: Global, app: App, limits: Limits) -> Result<Desk, NoMemory>
        ensures { IfOk result (λ opened. opened.desk ≡ record {
          debugger = opening app limits.moves;
          log = [];
          most_entries = limits.history;
          history = [];
        }) }
    {
        Ok(Desk {
            alloc,
            machine: DeskMachine::new(alloc, app, limits.moves)?,
            limit: limits.history as usize,
            history: History::new(alloc),
        })
    }

    /// For contracts alone: the history is one of the sequential debugger, each session that is
    /// present has a place for its departure, and the moves done, and not undone, give the target
    /// from the start, from which the records that are held lead back. There are as many names as
    /// things in it.
    pub fn by_invariant(&self)
        ensures { IsSound self.now.desk }
    {
        self.machine.by_invariant();
    }

    /// The target.
    pub fn target(&self) -> &State
        ensures { result.now ≡ target_of self.now.desk.debugger }
    {
        self.machine.target()
    }

    /// What runs of the application.
    pub fn program(&self) -> &Program
        ensures { result.now ≡ self.now.desk.debugger.app.runs }
    {
        self.machine.program()
    }

    /// What the application's things are called.
    pub fn names(&self) -> &Names
        ensures { result.now ≡ self.now.desk.debugger.app.names }
    {
        self.machine.names()
    }

    /// How many entries the history has.
    pub fn entries(&self) -> usize
        ensures { result ≡ length self.now.desk.history }
    {
        self.history.len()
    }

    /// How many moves are done.
    pub fn done(&self) -> usize
        ensures { result ≡ length self.now.desk.debugger.moves.done }
    {
        self.machine.done()
    }

    /// How many moves are undone.
    pub fn undone(&self) -> usize
        ensures { result ≡ length self.now.desk.debugger.moves.undone }
    {
        self.machine.undone()
    }

    /// How many moves have a record kept, by which they can be taken back: the last ones done.
    pub fn kept(&self) -> usize
        ensures { result ≡ kept self.now.desk.debugger.moves }
    {
        self.machine.kept()
    }

    /// The session that has the wheel, if one has.
    pub fn wheel(&self) -> Option<u32>
        ensures { result ≡ self.now.desk.debugger.wheel }
    {
        self.machine.wheel()
    }

    /// How many watches the sessions that are present keep together.
    pub fn watch_count(&self) -> usize
        ensures { result ≡ watch_count self.now.desk.debugger.sessions }
    {
        self.machine.watch_count()
    }

    /// Whether a session has entered, and not departed.
    pub fn is_present(&self, who: u32) -> bool
        ensures { IsTrue result ↔ IsPresent self.now.desk.debugger.sessions who }
    {
        self.machine.is_present(who)
    }

    // How many places are free beyond those that are reserved for departures.
    fn free(&self) -> usize
        ensures { result + used self.now.desk ≡ self.now.desk.most_entries }
    {
        self.limit - (self.history.len() + self.machine.present())
    }

    fn tally(&self) -> Tally
        requires { self.now.desk.most_entries < used self.now.desk + 2 }
        ensures { result ≡ tally_of self.now.desk }
    {
        Tally::new(self.history.len(), self.machine.present(), self.limit)
    }

    /// Whether one session more may enter: `Full` where 64 have entered, else `HistoryFull` where
    /// fewer than two places are free.
    pub fn may_enter(&self) -> Result<(), EnterError>
        ensures ok { OnOk result (LetsIn self.now.desk) }
        ensures err { IfErr result (IsWhyNotLetIn self.now.desk) }
        ensures refusals { IfErr result (λ error. error ≢ EnterError.NoMemory) }
    {
        if self.machine.joins() == MAX_JOINS {
            return Err(EnterError::Full);
        }
        if self.free() < 2 {
            return Err(EnterError::HistoryFull {
                tally: self.tally(),
            });
        }
        Ok(())
    }

    /// A session enters, and gets the next number, from 1 on. `Full` where 64 have entered, else
    /// `HistoryFull` where fewer than two places are free, else `NoMemory` where a growth was
    /// refused, which is only where the history had no room for its entry and its departure, beside
    /// the departures of the others. The place for its departure is reserved from now on. A refusal
    /// changes nothing.
    pub fn enter(&mut self) -> Result<Receipt, EnterError>
        ensures ok { IfOk result (λ receipt. Does self.old.desk
            (length self.old.desk.debugger.sessions + 1) Enter self.new.desk receipt) }
        ensures full { IsErrOf result EnterError.Full
            ↔ (length self.old.desk.debugger.sessions ≡ MAX_JOINS) }
        ensures history_full { IsTrue (is_enter_full result)
            ↔ ((length self.old.desk.debugger.sessions < MAX_JOINS)
            × (self.old.desk.most_entries < used self.old.desk + 2)) }
        ensures place { OnOk result (used self.old.desk + 2 ≤ self.old.desk.most_entries) }
        ensures refused { IfErr result (IsWhyNotLetIn self.old.desk) }
        ensures tally { IfErr result (λ error. IfEnterFull error (λ tally.
            (tally ≡ tally_of self.old.desk)
            × (tally.limit < tally.entries + tally.present + 2))) }
        ensures no_memory { IsErrOf result EnterError.NoMemory
            → self.old.row_room < present_count self.old.desk.debugger.sessions + 2 }
        ensures err { OnErr result (self.new.desk ≡ self.old.desk) }
        ensures taken { OnOk result (TakesAtMost 1 0 self.old self.new) }
        ensures not_taken { OnErr result (TakesAtMost 0 0 self.old self.new) }
    {
        self.may_enter()?;
        let room = self.machine.present() + 2;
        match self.history.make_room(room, 0) {
            Ok(()) => Ok(admit(&mut self.machine, &mut self.history)),
            Err(NoMemory) => Err(EnterError::NoMemory),
        }
    }

    /// Serves a command of a session that is present, which was bound for the application of this
    /// desk. What the session keeps of its receipts has room for the command's line, and gets room
    /// for the text of a view; the receipt is not put there. `HistoryFull` where no place is free,
    /// else `NoMemory` where a growth was refused: for the entry, for the copy of a line of more
    /// than 24 bytes, for the records of moves or for the text of a view. A command with a line of
    /// at most 24 bytes that makes no move, shows no text and finds room for its entry is never
    /// refused for memory. A refusal changes nothing. All other refusals are replies, and take a
    /// place in the history.
    pub fn serve(
        &mut self,
        who: u32,
        order: &Order<'_, '_>,
        receipts: &mut Rows,
    ) -> Result<Receipt, NotServed>
        requires there { IsPresent self.old.desk.debugger.sessions who }
        requires application { order.now.known ≡ known_of self.old.desk.debugger.app }
        requires line { length order.now.line ≤ receipts.old.byte_room }
        ensures ok { IfOk result (Does self.old.desk who (Ask order.now.command) self.new.desk) }
        ensures history_full { IsTrue (is_serve_full result)
            ↔ (self.old.desk.most_entries ≡ used self.old.desk) }
        ensures place { OnOk result (used self.old.desk < self.old.desk.most_entries) }
        ensures tally { IfErr result (λ error. IfServeFull error (λ tally.
            (tally ≡ tally_of self.old.desk) × (tally.limit ≡ tally.entries + tally.present))) }
        ensures no_memory { IsErrOf result NotServed.NoMemory
            → MayLackMemory self.old who order.now.line order.now.command }
        ensures free { IsErrOf result NotServed.NoMemory
            → used self.old.desk < self.old.desk.most_entries }
        ensures not_broken { IfErr result (λ error. error ≢ NotServed.Broken) }
        ensures err { OnErr result (self.new.desk ≡ self.old.desk) }
        ensures taken { IfOk result (λ receipt. TakesAtMost 1
            (length order.now.line + length (reply_bytes receipt.entry.reply))
            self.old self.new) }
        ensures not_taken { OnErr result (TakesAtMost 0 0 self.old self.new) }
        ensures narrow { IfOk result (λ receipt. IsNarrow receipt.entry.reply) }
        ensures receipts { HasNoLess receipts.old receipts.new }
        ensures receipt_bytes { IfOk result (λ receipt.
            length order.now.line + length (reply_bytes receipt.entry.reply)
            ≤ receipts.new.byte_room) }
    {
        if self.free() == 0 {
            return Err(NotServed::HistoryFull {
                tally: self.tally(),
            });
        }
        self.record_command(who, order, receipts)
    }

    // Serves a command where a place is free.
    fn record_command(
        &mut self,
        who: u32,
        order: &Order<'_, '_>,
        receipts: &mut Rows,
    ) -> Result<Receipt, NotServed>
        requires there { IsPresent self.old.desk.debugger.sessions who }
        requires application { order.now.known ≡ known_of self.old.desk.debugger.app }
        requires line { length order.now.line ≤ receipts.old.byte_room }
        requires free { used self.old.desk < self.old.desk.most_entries }
        ensures ok { IfOk result (Does self.old.desk who (Ask order.now.command) self.new.desk) }
        ensures no_memory { IfErr result (λ error. error ≡ NotServed.NoMemory) }
        ensures lacks { OnErr result
            (MayLackMemory self.old who order.now.line order.now.command) }
        ensures err { OnErr result (self.new.desk ≡ self.old.desk) }
        ensures taken { IfOk result (λ receipt. TakesAtMost 1
            (length order.now.line + length (reply_bytes receipt.entry.reply))
            self.old self.new) }
        ensures not_taken { OnErr result (TakesAtMost 0 0 self.old self.new) }
        ensures narrow { IfOk result (λ receipt. IsNarrow receipt.entry.reply) }
        ensures receipts { HasNoLess receipts.old receipts.new }
        ensures receipt_bytes { IfOk result (λ receipt.
            length order.now.line + length (reply_bytes receipt.entry.reply)
            ≤ receipts.new.byte_room) }
    {
        let line = order.line();
        let rows = self.machine.present() + 1;
        self.history.make_room(rows, line.len())?;
        let asked = Asked::new(self.alloc, line)?;
        let reply = self.machine.serve(who, order)?;
        make_room_for(&mut self.history, rows, receipts, line, &reply)?;
        let place = self.history.len();
        self.history.push(who, Deed::Ask, line, &reply);
        Ok(Receipt {
            place,
            entry: HistoryEntry {
                who,
                event: Event::Ask { command: asked },
                reply,
            },
        })
    }

    /// A session departs: it has no wheel and no watches any more. It takes no memory.
    pub fn depart(&mut self, who: u32) -> Receipt
        requires { IsPresent self.old.desk.debugger.sessions who }
        ensures left { Does self.old.desk who Leave self.new.desk result }
        ensures taken { TakesAtMost 1 0 self.old self.new }
    {
        let place = self.history.len();
        self.machine.leave(who);
        self.history.push(who, Deed::Leave, &[], &DeskReply::Done);
        Receipt {
            place,
            entry: HistoryEntry {
                who,
                event: Event::Leave,
                reply: DeskReply::Done,
            },
        }
    }

    /// Ends the debugger, and hands its history out. It takes no memory.
    pub fn close(self) -> History
        ensures { result.entries ≡ self.desk.history }
    {
        let Desk {
            alloc: _,
            machine,
            limit: _,
            history,
        } = self;
        machine.close();
        history
    }
}
