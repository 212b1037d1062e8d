//! A reply by itself.

ghost use Rattle.std.specs.Prelude.{◌≡◌, ◌^◌, ◌<◌};
ghost use Rattle.std.specs.Io.KnownBytes.{Appends};
ghost use Rattle.rd_ends.specs.Ends.{Says, faults_after};
ghost use Rattle.rd_session.specs.Replies.{reply_line};

use rd_desk::reply::DeskReply;
use rd_ends::ends::{ByteSink, WriteFault};

/// Writes the line of a reply, as a session would: nothing of one to who enters or leaves, and else
/// all of it in one write. It takes no memory. An `Err` says that the write has failed; the sink
/// has then taken a front of the line. Fewer than 2 ^ 63 writes have failed before.
pub fn render<W: ByteSink>(reply: &DeskReply, sink: &mut W) -> Result<(), WriteFault>
    requires { (W.seen sink.old).faults < 2 ^ 63 }
    ensures says { Says (W.seen sink.old).contents (W.seen sink.new).contents result
        (reply_line reply.now) }
    ensures given { Appends (W.seen sink.old).given (W.seen sink.new).given
        (reply_line reply.now) }
    ensures faults { (W.seen sink.new).faults ≡ faults_after (W.seen sink.old).faults result }
{
    match reply {
        DeskReply::Done => Ok(()),
        DeskReply::Told { told } => sink.write(told.line().as_slice()),
        DeskReply::Shown { text } => sink.write(text.as_slice()),
    }
}
