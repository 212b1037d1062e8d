//! A connection that was accepted: how it is turned away, and how it is closed.

ghost use Rattle.std.specs.Prelude.{◌≡◌, ◌^◌, ◌<◌};
ghost use Rattle.std.specs.Io.KnownBytes.{Appends};
ghost use Rattle.rd_ends.specs.Ends.{Says, faults_after};
ghost use Rattle.rd_session.specs.Replies.{refusal_line};
ghost use Rattle.rd_net.specs.Refused.{refusal_of};

use rd_desk::desk::EnterError;
use rd_desk::reply::DeskReply;
use rd_ends::ends::{ByteSink, WriteFault};
use rd_ends::over::Over;
use rd_refusal::refusal::Refusal;
use rd_reply::reply::Reply as Short;
use rd_session::render::render;
use std::io::Read;
use std::net::{Shutdown, TcpStream};
use std::time::{Clock, Duration, Instant};

/// Milliseconds for which a connection's own thread reads on before it closes the connection.
pub(crate) const LAST_MILLIS: u64 = 5_000;

// The same on the thread that accepts: shorter, because the next connection waits for it.
const LAST_MILLIS_UNSERVED: u64 = 200;

// Bytes per read.
const LAST_ROOM: usize = 16_384;

/// An accepted connection that no thread serves yet. Dropping it sends `no NoMemory` to the client.
pub(crate) struct Caller<'a, R: Clock> {
    rt: &'a R,
    stream: TcpStream,
}

impl<'a, R: Clock> Caller<'a, R> {
    /// Wraps an accepted connection.
    pub(crate) fn new(rt: &'a R, stream: TcpStream) -> Caller<'a, R> {
        Caller { rt, stream }
    }

    /// Hands the connection to the thread that serves it.
    pub(crate) fn into_stream(self) -> TcpStream {
        let Caller { rt: _, stream } = self;
        stream
    }
}

impl<'a, R: Clock> Drop for Caller<'a, R> {
    fn drop(self) {
        let Caller { rt, stream } = self;
        turn_away(rt, &stream, &EnterError::NoMemory, LAST_MILLIS_UNSERVED);
    }
}

/// Closes a connection so that the client gets all that was written. Closing it with unread bytes would
/// make the system reset it and drop replies on their way. So this shuts down the writing side, then
/// reads and discards until the client closes too, for at most `millis` milliseconds.
pub(crate) fn hang_up<R: Clock>(rt: &R, stream: &TcpStream, millis: u64) {
    if stream.shutdown(Shutdown::Write).is_err() {
        return;
    }
    let Ok(start) = Instant::now(rt) else {
        return;
    };
    let mut room = [0; LAST_ROOM];
    for _read in 0..u64::MAX {
        if !goes_on(rt, start, millis, stream, &mut room) {
            return;
        }
    }
}

// Reads and discards the next bytes. Returns whether there were some before the time was over.
fn goes_on<R: Clock>(
    rt: &R,
    start: Instant,
    millis: u64,
    stream: &TcpStream,
    room: &mut [u8],
) -> bool {
    let Ok(spent) = start.elapsed(rt) else {
        return false;
    };
    let Some(left) = Duration::from_millis(millis).checked_sub(spent) else {
        return false;
    };
    if stream.set_read_timeout(Some(left)).is_err() {
        return false;
    }
    let mut source = stream;
    match source.read(room) {
        Ok(count) => count > 0,
        Err(_) => false,
    }
}

/// Sends the client the reason why its session cannot join, then closes the connection by `hang_up`.
pub(crate) fn turn_away<R: Clock>(rt: &R, stream: &TcpStream, error: &EnterError, millis: u64) {
    let _ = tell(&mut Over::new(stream), error);
    hang_up(rt, stream, millis);
}

// The refusal to send for an error of `join`.
fn refusal_of(error: &EnterError) -> Refusal
    ensures { result ≡ refusal_of error.now }
{
    match error {
        EnterError::Full => Refusal::Full,
        EnterError::HistoryFull { .. } => Refusal::HistoryFull,
        EnterError::NoMemory => Refusal::NoMemory,
    }
}

// Writes the refusal line.
fn tell<W: ByteSink>(sink: &mut W, error: &EnterError) -> Result<(), WriteFault>
    requires { (W.seen sink.old).faults < 2 ^ 63 }
    ensures says { Says (W.seen sink.old).contents (W.seen sink.new).contents result
        (refusal_line (refusal_of error.now)) }
    ensures given { Appends (W.seen sink.old).given (W.seen sink.new).given
        (refusal_line (refusal_of error.now)) }
    ensures faults { (W.seen sink.new).faults ≡ faults_after (W.seen sink.old).faults result }
{
    let refusal = refusal_of(error);
    let told = Short::Refused { refusal };
    render(&DeskReply::Told { told }, sink)
}
