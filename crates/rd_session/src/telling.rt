//! Answers on their way: gathered, or written, and the gate told what is out.

ghost use Rattle.std.specs.Prelude.{◌≡◌, ◌+◌, ◌<◌, ◌≤◌, [], length, OnErr, OnOk};
ghost use Rattle.rd_session.specs.Replies.{IsShown, reply_line};
ghost use Rattle.rd_session.specs.Gathering.{AreOut, IsFlushed, IsLost, IsAtWork, IsReady};
ghost use Rattle.rd_session.specs.Gathering.{IsSaid, IsUnsaid, has_shown, last_line};
ghost use Rattle.rd_session.specs.Spots.{At, Between, IsSameSpot, Leaves};

use crate::gate::Gate;
use crate::spot::Spot;
use rd_desk::reply::DeskReply;
use rd_ends::ends::{ByteSink, WriteFault};
use rd_hall::setup::Setup;

// The text of a view.
fn shown(reply: &DeskReply) -> &[u8]
    requires { IsShown reply.now }
    ensures { result.now ≡ reply_line reply.now }
{
    match reply {
        DeskReply::Shown { text } => text.as_slice(),
        _ => &[],
    }
}

impl<L: Setup, G: Gate, W: ByteSink> Spot<'_, L, G, W> {
    // Tells the gate of each line up to that number whose answer is out by now.
    fn let_out(&mut self, upto: u64)
        requires { self.old.pending.now.out ≤ upto }
        ensures out { AreOut self.old.seat.now.session.who self.old.pending.now.out upto
            (G.calls self.old.gate.now) (G.calls self.new.gate.now) }
        ensures pending { self.new.pending.now ≡ record self.old.pending.now { out = upto } }
        ensures seat { self.new.seat.now ≡ self.old.seat.now }
        ensures sink { self.new.sink.now ≡ self.old.sink.now }
        ensures same { IsSameSpot self.old self.new }
    {
        let who = self.seat.who();
        for line in self.pending.out()..upto {
            self.gate.after(who, line + 1);
        }
        self.pending.set_out(upto);
    }

    /// Writes all answers that were gathered, which are those up to the line of that number.
    pub(crate) fn flush(&mut self, upto: u64) -> Result<(), WriteFault>
        requires at_work { At W.seen G.calls IsAtWork self.old }
        requires out { self.old.pending.now.out ≤ upto }
        requires upto { upto ≤ self.old.pending.now.begun }
        ensures flushed { OnOk result (Between W.seen G.calls (IsFlushed upto) self.old self.new) }
        ensures pending { OnOk result
            (self.new.pending.now ≡ record self.old.pending.now { bytes = []; out = upto }) }
        ensures lost { OnErr result (Leaves W.seen G.calls IsLost self.old self.new) }
        ensures seat { self.new.seat.now ≡ self.old.seat.now }
        ensures at_work { OnOk result (At W.seen G.calls IsAtWork self.new) }
        ensures same { IsSameSpot self.old self.new }
    {
        self.pending.send(self.sink)?;
        self.let_out(upto);
        Ok(())
    }

    // Writes the view that was replied last, which has no room beside the answers that were
    // gathered: those first, then it.
    fn write_alone(&mut self) -> Result<(), WriteFault>
        requires at_work { At W.seen G.calls IsAtWork self.old }
        requires begun { self.old.pending.now.out < self.old.pending.now.begun }
        requires shown { has_shown self.old.seat.now.session }
        requires no_room { 65536 < length self.old.pending.now.bytes
            + length (last_line self.old.seat.now.session) }
        ensures said { OnOk result (Between W.seen G.calls
            (IsSaid (last_line self.old.seat.now.session)) self.old self.new) }
        ensures unsaid { OnErr result (Leaves W.seen G.calls
            (IsUnsaid (last_line self.old.seat.now.session)) self.old self.new) }
        ensures seat { self.new.seat.now ≡ self.old.seat.now }
        ensures begun { OnOk result (self.new.pending.now.begun ≡ self.old.pending.now.begun) }
        ensures at_work { OnOk result (At W.seen G.calls IsAtWork self.new) }
        ensures same { IsSameSpot self.old self.new }
    {
        let begun = self.pending.begun();
        self.flush(begun - 1)?;
        self.sink.write(shown(&self.seat.last().entry.reply))?;
        self.let_out(begun);
        Ok(())
    }

    /// Gathers the line of the reply in the last receipt; there is no line of one to who enters or
    /// leaves. A view that has no room beside the answers before it is written by itself, behind
    /// them. There is room for a reply in a few words.
    pub(crate) fn tell(&mut self) -> Result<(), WriteFault>
        requires ready { At W.seen G.calls IsReady self.old }
        ensures said { OnOk result (Between W.seen G.calls
            (IsSaid (last_line self.old.seat.now.session)) self.old self.new) }
        ensures unsaid { OnErr result (Leaves W.seen G.calls
            (IsUnsaid (last_line self.old.seat.now.session)) self.old self.new) }
        ensures seat { self.new.seat.now ≡ self.old.seat.now }
        ensures begun { OnOk result (self.new.pending.now.begun ≡ self.old.pending.now.begun) }
        ensures at_work { OnOk result (At W.seen G.calls IsAtWork self.new) }
        ensures same { IsSameSpot self.old self.new }
    {
        match &self.seat.last().entry.reply {
            DeskReply::Done => Ok(()),
            DeskReply::Told { told } => {
                self.pending.put_short(told);
                Ok(())
            }
            DeskReply::Shown { text } => {
                let line = text.as_slice();
                if self.pending.fits(line.len()) {
                    self.pending.put(line);
                    return Ok(());
                }
                self.write_alone()
            }
        }
    }
}
