//! A session: it reads lines, and answers each.

ghost use Rattle.std.specs.Prelude.{◌≡◌, ◌+◌, ◌^◌, ◌<◌, ◌≤◌, ◌⊎◌, ◌∷◌, [], Some, length};
ghost use Rattle.std.specs.Prelude.{IfErr, OnErr, OnOk};
ghost use Rattle.rd_ends.specs.Ends.{IsUnread};
ghost use Rattle.rd_command.specs.Bindings.{known_of};
ghost use Rattle.rd_desk.specs.declared.entry.Event.TheVariants.{Leave};
ghost use Rattle.rd_hall.specs.SeatView.{SeatView};
ghost use Rattle.rd_hall.specs.Seats.{Finds, Gained, LetsGo};
ghost use Rattle.rd_session.specs.Lines.{Whole, Long, front_of, last_of, lines_from, rest_from};
ghost use Rattle.rd_session.specs.declared.lines.Front.TheVariants.{Part};
ghost use Rattle.rd_session.specs.Replies.{refusal_of};
ghost use Rattle.rd_session.specs.Gathering.{Answered, Begins, BreaksAmid, GoesOn, HasReplyRoom};
ghost use Rattle.rd_session.specs.Gathering.{HearsMore, IsFlushed, IsLost, IsAtWork, IsReady};
ghost use Rattle.rd_session.specs.Gathering.{SaysAll, Stops};
ghost use Rattle.rd_session.specs.Spots.{At, Between, IsSameSpot, Leaves, spot_of};
ghost use Rattle.rd_session.specs.Hearing.{Heard};
ghost use Rattle.rd_reply.specs.declared.reply.TheConstants.{MAX_REPLY};

use crate::buffers::Buffers;
use crate::gate::Gate;
use crate::lines::{Front, Lines};
use crate::spot::Spot;
use rd_command::binding::bind;
use rd_command::command::parse_line;
use rd_command::order::Order;
use rd_command::recent::Recent;
use rd_command::word::Behind;
use rd_desk::desk::NotServed;
use rd_ends::ends::{ByteSink, ByteSource, WriteFault};
use rd_hall::hall::Hall;
use rd_hall::seat::{Gone, Seat};
use rd_hall::setup::Setup;
use rd_refusal::refusal::Refusal;
use rd_reply::reply::{MAX_REPLY, Reply as Short};
use std::sync::Wait;

/// How often a session reads at the most.
pub const MAX_READS: u32 = 16_777_216;

/// Why a session stops amid lines.
#[derive(Clone, Copy)]
pub(crate) enum Ended {
    /// A line is too long.
    LineTooLong,
    /// A write has failed.
    WriteFault,
}

impl From<WriteFault> for Ended {
    ghost use Rattle.rd_session.specs.declared.session.Ended.{Ended};

    ghost from_gives = { λ _ why. why ≡ Ended.WriteFault };

    fn from(_fault: WriteFault) -> Ended {
        Ended::WriteFault
    }
}

// Whom a session asks, and what the lines that it said lately are bound to there.
#[derive(Drop)]
struct Host<'a, R: Wait, L: Setup> {
    rt: &'a R,
    hall: &'a Hall<L>,
    recent: Recent<'a>,
    ghost application: { recent ≡ known_of L.app },
}

// The refusal that says why a command wasn't served.
fn refusal_of(error: &NotServed) -> Refusal
    ensures { result ≡ refusal_of error.now }
{
    match error {
        NotServed::HistoryFull { .. } => Refusal::HistoryFull,
        NotServed::NoMemory => Refusal::NoMemory,
        NotServed::Broken => Refusal::Broken,
    }
}

impl<L: Setup, G: Gate, W: ByteSink> Spot<'_, L, G, W> {
    // Writes all answers.
    fn finish(&mut self) -> Result<(), WriteFault>
        requires at_work { At W.seen G.calls IsAtWork self.old }
        ensures flushed { OnOk result (Between W.seen G.calls
            (IsFlushed self.old.pending.now.begun) self.old self.new) }
        ensures pending { OnOk result (self.new.pending.now
            ≡ record self.old.pending.now { bytes = []; out = self.old.pending.now.begun }) }
        ensures lost { OnErr result (Leaves W.seen G.calls IsLost self.old self.new) }
        ensures at_work { OnOk result (At W.seen G.calls IsAtWork self.new) }
        ensures same { IsSameSpot self.old self.new }
    {
        let begun = self.pending.begun();
        self.flush(begun)
    }

    // Makes room for a reply in a few words: where there is none the answers before it are written.
    fn make_room(&mut self) -> Result<(), WriteFault>
        requires at_work { At W.seen G.calls IsAtWork self.old }
        ensures goes_on { OnOk result (Between W.seen G.calls GoesOn self.old self.new) }
        ensures room { OnOk result (HasReplyRoom self.new.pending.now) }
        ensures begun { OnOk result (self.new.pending.now.begun ≡ self.old.pending.now.begun) }
        ensures lost { OnErr result (Leaves W.seen G.calls IsLost self.old self.new) }
        ensures at_work { OnOk result (At W.seen G.calls IsAtWork self.new) }
        ensures same { IsSameSpot self.old self.new }
    {
        if self.pending.fits(MAX_REPLY) {
            return Ok(());
        }
        self.finish()
    }

    // Begins a line: makes room for a reply in a few words, and calls the gate. Where answers
    // before it can't be written, the line isn't begun.
    fn begin(&mut self) -> Result<(), WriteFault>
        requires at_work { At W.seen G.calls IsAtWork self.old }
        requires begun { self.old.pending.now.begun < 2 ^ 63 }
        ensures begins { OnOk result (Between W.seen G.calls Begins self.old self.new) }
        ensures ready { OnOk result (At W.seen G.calls IsReady self.new) }
        ensures begun { OnOk result (self.new.pending.now.begun ≡ self.old.pending.now.begun + 1) }
        ensures lost { OnErr result (Leaves W.seen G.calls IsLost self.old self.new) }
        ensures same { IsSameSpot self.old self.new }
    {
        self.make_room()?;
        self.pending.begin();
        self.gate.before(self.seat.who(), self.pending.begun());
        Ok(())
    }

    // Asks the hall, and tells its reply, or why the command wasn't served.
    fn ask<R: Wait>(
        &mut self,
        host: &Host<'_, R, L>,
        order: &Order<'_, '_>,
    ) -> Result<(), WriteFault>
        requires application { order.now.known ≡ known_of L.app }
        requires ready { At W.seen G.calls IsReady self.old }
        ensures answered { Answered (Whole order.now.line) (spot_of W.seen G.calls self.old)
            (spot_of W.seen G.calls self.new) result }
        ensures begun { OnOk result (self.new.pending.now.begun ≡ self.old.pending.now.begun) }
        ensures at_work { OnOk result (At W.seen G.calls IsAtWork self.new) }
        ensures same { IsSameSpot self.old self.new }
    {
        // (its line says which command it is)
        order.line();
        match host.hall.serve(host.rt, self.seat, order) {
            Ok(()) => self.tell(),
            Err(error) => {
                let refusal = refusal_of(&error);
                self.pending.put_short(&Short::Refused { refusal });
                Ok(())
            }
        }
    }

    // Answers a line that was begun, and isn't among those that were bound lately. (By itself,
    // since else each call would zero the stack that its words take.)
    #[inline(never)]
    fn answer_anew<R: Wait>(
        &mut self,
        host: &mut Host<'_, R, L>,
        line: &[u8],
    ) -> Result<(), WriteFault>
        requires ready { At W.seen G.calls IsReady self.old }
        ensures answered { Answered (Whole line.now) (spot_of W.seen G.calls self.old)
            (spot_of W.seen G.calls self.new) result }
        ensures begun { OnOk result (self.new.pending.now.begun ≡ self.old.pending.now.begun) }
        ensures at_work { OnOk result (At W.seen G.calls IsAtWork self.new) }
        ensures same { IsSameSpot self.old self.new }
    {
        let mut behind = Behind::new();
        // (looked at where it is, since what is taken out of a result is copied)
        match &parse_line(line, &mut behind) {
            Ok(command) => {
                let known = host.hall.known();
                let bound = bind(command, known);
                let order = Order::new(command, known, &bound);
                let asked = self.ask(host, &order);
                if host.recent.is_turn() {
                    host.recent.keep(command, bound);
                }
                asked
            }
            Err(_) => {
                let refusal = Refusal::Syntax;
                self.pending.put_short(&Short::Refused { refusal });
                Ok(())
            }
        }
    }

    // Answers a line that was begun.
    fn answer<R: Wait>(&mut self, host: &mut Host<'_, R, L>, line: &[u8]) -> Result<(), WriteFault>
        requires ready { At W.seen G.calls IsReady self.old }
        ensures answered { Answered (Whole line.now) (spot_of W.seen G.calls self.old)
            (spot_of W.seen G.calls self.new) result }
        ensures begun { OnOk result (self.new.pending.now.begun ≡ self.old.pending.now.begun) }
        ensures at_work { OnOk result (At W.seen G.calls IsAtWork self.new) }
        ensures same { IsSameSpot self.old self.new }
    {
        match host.recent.find(line) {
            Some(order) => self.ask(host, &order),
            None => self.answer_anew(host, line),
        }
    }

    // Begins a line, and answers it.
    fn answer_line<R: Wait>(
        &mut self,
        host: &mut Host<'_, R, L>,
        line: &[u8],
    ) -> Result<(), WriteFault>
        requires at_work { At W.seen G.calls IsAtWork self.old }
        requires begun { self.old.pending.now.begun < 2 ^ 63 }
        ensures more { OnOk result (Between W.seen G.calls (HearsMore (Whole line.now ∷ []))
            self.old self.new) }
        ensures breaks { OnErr result (Leaves W.seen G.calls (BreaksAmid (Whole line.now ∷ []))
            self.old self.new) }
        ensures begun { OnOk result (self.new.pending.now.begun ≡ self.old.pending.now.begun + 1) }
        ensures at_work { OnOk result (At W.seen G.calls IsAtWork self.new) }
        ensures same { IsSameSpot self.old self.new }
    {
        self.begin()?;
        self.answer(host, line)
    }

    // Answers a line that is too long, and writes all answers.
    fn answer_long(&mut self) -> Result<(), WriteFault>
        requires at_work { At W.seen G.calls IsAtWork self.old }
        requires begun { self.old.pending.now.begun < 2 ^ 63 }
        ensures said { OnOk result (Leaves W.seen G.calls (SaysAll (Long ∷ []))
            self.old self.new) }
        ensures breaks { OnErr result (Leaves W.seen G.calls (BreaksAmid (Long ∷ []))
            self.old self.new) }
        ensures same { IsSameSpot self.old self.new }
    {
        self.begin()?;
        let refusal = Refusal::LineTooLong;
        self.pending.put_short(&Short::Refused { refusal });
        self.finish()
    }

    // Answers all whole lines that were read, and writes the answers.
    fn answer_lines<R: Wait>(
        &mut self,
        host: &mut Host<'_, R, L>,
        lines: &mut Lines,
    ) -> Result<(), Ended>
        requires at_work { At W.seen G.calls IsAtWork self.old }
        requires begun { self.old.pending.now.begun + length lines.old < 2 ^ 63 }
        ensures more { OnOk result (Between W.seen G.calls
            (HearsMore (lines_from (Some []) lines.old)) self.old self.new) }
        ensures rest { OnOk result (rest_from (Some []) lines.old ≡ Some lines.new) }
        ensures part { OnOk result (front_of lines.new ≡ Part) }
        ensures sent { OnOk result (self.new.pending.now.out ≡ self.new.pending.now.begun) }
        ensures begun { OnOk result
            (self.new.pending.now.begun ≤ self.old.pending.now.begun + length lines.old) }
        ensures stops { IfErr result (λ why. Leaves W.seen G.calls (Stops why
            (lines_from (Some []) lines.old) (rest_from (Some []) lines.old)) self.old self.new) }
        ensures at_work { OnOk result (At W.seen G.calls IsAtWork self.new) }
        ensures same { IsSameSpot self.old self.new }
    {
        loop {
            match lines.front() {
                Front::Line { len } => {
                    let line = lines.line(len);
                    self.answer_line(host, line)?;
                    lines.advance(len + 1);
                }
                Front::TooLong => {
                    self.answer_long()?;
                    return Err(Ended::LineTooLong);
                }
                Front::Part => return Ok(self.finish()?),
            }
        }
    }

    // At the end of the input, answers what stands behind the last LF, if there is something, and
    // writes the answer.
    fn answer_rest<R: Wait>(
        &mut self,
        host: &mut Host<'_, R, L>,
        rest: &[u8],
    ) -> Result<(), WriteFault>
        requires at_work { At W.seen G.calls IsAtWork self.old }
        requires sent { self.old.pending.now.out ≡ self.old.pending.now.begun }
        requires begun { self.old.pending.now.begun < 2 ^ 63 }
        ensures said { OnOk result (Leaves W.seen G.calls (SaysAll (last_of (Some rest.now)))
            self.old self.new) }
        ensures breaks { OnErr result (Leaves W.seen G.calls
            (BreaksAmid (last_of (Some rest.now))) self.old self.new) }
        ensures same { IsSameSpot self.old self.new }
    {
        if rest.is_empty() {
            return Ok(());
        }
        self.answer_line(host, rest)?;
        self.finish()
    }

    // Reads and answers until an end.
    fn listen<R: Wait, S: ByteSource>(
        &mut self,
        host: &mut Host<'_, R, L>,
        source: &mut S,
        lines: &mut Lines,
    )
        requires held { lines.old ≡ [] }
        requires pending { (self.old.pending.now.bytes ≡ []) × (self.old.pending.now.begun ≡ 0)
            × (self.old.pending.now.out ≡ 0) }
        requires unread { IsUnread (S.seen source.old) }
        requires unwritten { (W.seen self.old.sink.now).faults ≡ 0 }
        ensures heard { Heard (S.seen source.old) (S.seen source.new)
            (spot_of W.seen G.calls self.old).talk (spot_of W.seen G.calls self.new).talk }
        ensures reads { (S.seen source.new).reads ≤ 16777216 }
        ensures same { IsSameSpot self.old self.new }
    {
        for _turn in 0..MAX_READS {
            let Ok(count) = lines.read_from(source) else {
                return;
            };
            if count == 0 {
                let _ = self.answer_rest(host, lines.rest());
                return;
            }
            if let Err(_why) = self.answer_lines(host, lines) {
                return;
            }
        }
    }
}

/// Reads lines and answers each, in order, until the end of the input, a fault at either end, a
/// line that is too long, or `MAX_READS` calls of `read`. Then it leaves. Nothing was read of the
/// source yet, and no write to the sink has failed.
///
/// A line ends with LF. One CR before that is no part of it, and what stands behind the last LF is
/// a line too once the input has ended. A line that is no command is answered `no Syntax`, one of
/// more than 1,024 bytes, its CR among them, `no LineTooLong` as soon as so many were read. Every
/// other line is asked of the hall, and its answer is the reply in the receipt; `no HistoryFull`,
/// `no NoMemory` or `no Broken` where there is none. Answers are gathered in the buffers, and are
/// written before the session reads again. What the buffers held is dropped at the beginning.
///
/// Behind a line that is too long, a fault or the end of the input nothing more is read, and behind
/// a write that has failed no line is asked. The gate is called before each line that is answered,
/// and after it once its answer is written.
pub fn session<L: Setup, S: ByteSource, W: ByteSink, G: Gate>(
    rt: &impl Wait,
    source: &mut S,
    sink: &mut W,
    hall: &Hall<L>,
    seat: Seat<L>,
    gate: &mut G,
    buffers: &mut Buffers,
) -> Gone<L>
    requires unread { IsUnread (S.seen source.old) }
    requires unwritten { (W.seen sink.old).faults ≡ 0 }
    ensures heard { (stayed : SeatView) × Heard (S.seen source.old) (S.seen source.new)
        (record { seat = seat.session; sink = W.seen sink.old; calls = G.calls gate.old })
        (record { seat = stayed; sink = W.seen sink.new; calls = G.calls gate.new })
        × ((result ≡ stayed) ⊎ Gained stayed Leave result)
        × Finds L.app L.most_moves L.most_entries stayed.share (λ d. LetsGo d stayed result) }
    ensures reads { (S.seen source.new).reads ≤ 16777216 }
{
    buffers.lines.clear();
    buffers.pending.clear();
    let mut host = Host {
        rt,
        hall,
        recent: Recent::new(hall.known()),
    };
    let mut seat = seat;
    let mut spot = Spot::new(gate, &mut seat, &mut buffers.pending, sink);
    spot.listen(&mut host, source, &mut buffers.lines);
    hall.leave(rt, seat)
}
