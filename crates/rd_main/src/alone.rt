//! One session over standard input and output.

ghost use Rattle.std.specs.Prelude.{◌≡◌, ◌+◌, IfErr, IfOk};
ghost use Rattle.rd_desk.specs.Debugger.{Debugger, opening};
ghost use Rattle.rd_desk.specs.Legal.{Leads};
ghost use Rattle.rd_desk.specs.declared.sessions.TheConstants.{MAX_JOINS};
ghost use Rattle.rd_hall.specs.Account.{IsAccounted};
ghost use Rattle.rd_ends.specs.Ends.{IsUnread};
ghost use Rattle.rd_main.specs.Running.{AttendedAlone, FailsAlone};

use crate::failure::Failure;
use rd_bytes::no_memory::NoMemory;
use rd_desk::limits::Limits;
use rd_desk::sessions::MAX_JOINS;
use rd_ends::ends::{ByteSink, ByteSource};
use rd_ends::over::Over;
use rd_hall::account::Closed;
use rd_hall::hall::Hall;
use rd_hall::setup::Setup;
use rd_names::app::App;
use rd_session::buffers::Buffers;
use rd_session::gate::NoGate;
use rd_session::session::session;
use std::alloc::Global;
use std::io::{Read, Write};
use std::marker::Brand;
use std::sync::Wait;
use std::sync::ledger::Blank;

/// A session over an application: its lines are read, and each is answered, as a debugger by itself
/// answers them. `NoMemory` where there is none for it to begin, `Broken` where the history isn't
/// what the session was answered.
pub fn debug<H: Wait, R: Read, W: Write>(
    rt: &H,
    alloc: Global,
    app: App,
    limits: Limits,
    reader: &mut R,
    writer: &mut W,
) -> Result<(), Failure>
    ensures { IfErr result FailsAlone }
{
    let mut buffers = Buffers::new(alloc)?;
    let mut source = Over::new(reader);
    let mut sink = Over::new(writer);
    let blank = Blank::new(MAX_JOINS as u64 + 1);
    begin::<Brand, H, Over<&mut R>, Over<&mut W>>(
        rt,
        alloc,
        blank,
        app,
        limits,
        &mut source,
        &mut sink,
        &mut buffers,
    )
}

// The same, of a hall that is set up for it. (What is set up can be picked only where no type of
// the call hangs on it.)
fn begin<L: Setup, H: Wait, S: ByteSource, W: ByteSink>(
    rt: &H,
    alloc: Global,
    blank: Blank,
    app: App,
    limits: Limits,
    source: &mut S,
    sink: &mut W,
    buffers: &mut Buffers,
) -> Result<(), Failure>
    requires name { blank.name ≡ L.name }
    requires parts { (blank.parts ≡ L.parts) × (blank.parts ≡ MAX_JOINS + 1) }
    requires app { app ≡ L.app }
    requires moves { limits.moves ≡ L.most_moves }
    requires entries { limits.history ≡ L.most_entries }
    requires unread { IsUnread (S.seen source.old) }
    requires unwritten { (W.seen sink.old).faults ≡ 0 }
    ensures { IfErr result FailsAlone }
{
    attend::<L, H, S, W>(rt, alloc, blank, app, limits, source, sink, buffers)?;
    Ok(())
}

/// The one session of a hall, which is opened for it and ended behind it. With an answer the
/// history is legal from the opening on, the session's receipts are just its entries, and the texts
/// of its answers to what was read were written. Nothing was read of the source yet, and no write
/// to the sink has failed. `NoMemory` where there is none for the hall or for
/// the session to join, `Broken` where the history isn't what the session was answered.
pub fn attend<L: Setup, H: Wait, S: ByteSource, W: ByteSink>(
    rt: &H,
    alloc: Global,
    blank: Blank,
    app: App,
    limits: Limits,
    source: &mut S,
    sink: &mut W,
    buffers: &mut Buffers,
) -> Result<Closed<L>, Failure>
    requires name { blank.name ≡ L.name }
    requires parts { (blank.parts ≡ L.parts) × (blank.parts ≡ MAX_JOINS + 1) }
    requires app { app ≡ L.app }
    requires moves { limits.moves ≡ L.most_moves }
    requires entries { limits.history ≡ L.most_entries }
    requires unread { IsUnread (S.seen source.old) }
    requires unwritten { (W.seen sink.old).faults ≡ 0 }
    ensures legal { IfOk result (λ closed.
        (end : Debugger) × Leads (opening L.app L.most_moves) closed.history end) }
    ensures accounted { IfOk result (λ closed. IsAccounted closed.history closed.gones) }
    ensures attended { IfOk result (λ closed. AttendedAlone (S.seen source.old)
        (S.seen source.new) (W.seen sink.old) (W.seen sink.new) closed.gones) }
    ensures failures { IfErr result FailsAlone }
{
    let mut gones = Vec::with_capacity(alloc, 1)?;
    let (hall, mut passes) = Hall::<L>::open(alloc, blank, app, limits)?;
    let joined = hall.join(rt, passes.pop().unwrap());
    let Ok(seat) = joined else {
        let _ = hall.finish(gones);
        return Err(Failure::from(NoMemory));
    };
    let gone = session(rt, source, sink, &hall, seat, &mut NoGate, buffers);
    gones.push_reserved(gone);
    match hall.finish(gones) {
        Ok(closed) => Ok(closed),
        Err(_) => Err(Failure::Broken),
    }
}
