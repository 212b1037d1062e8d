//! Sources and sinks of bytes.

ghost use Rattle.std.specs.Prelude.{◌≡◌, ◌^◌, ◌+◌, ◌<◌, ◌≤◌, length, take, IfOk, OnErr};
ghost use Rattle.std.specs.Io.KnownBytes.{Appends, Consumes, IsAtEnd, Keeps};
ghost use Rattle.rd_ends.specs.Ends.{CountsReads, Says, SinkView, SourceView};
ghost use Rattle.rd_ends.specs.Ends.{ends_after, faults_after};

use thiserror::Error;

/// A read has failed.
#[derive(Clone, Copy, Debug, PartialEq, Eq, Error)]
#[error("a read has failed")]
pub struct ReadFault;

/// A write has failed.
#[derive(Clone, Copy, Debug, PartialEq, Eq, Error)]
#[error("a write has failed")]
pub struct WriteFault;

/// Where bytes come from.
pub trait ByteSource {
    /// What is known of it: the bytes that reads will give, and what came of those so far.
    ghost seen: { Self → SourceView };

    /// Reads once, into the front of `room`, which isn't empty, and answers how many bytes have
    /// come. None come only at the end. An `Err` says that the read has failed; it takes nothing.
    /// Fewer than 2 ^ 63 reads were made so far.
    fn read(&mut self, room: &mut [u8]) -> Result<usize, ReadFault>
        requires room { 0 < length room.old }
        requires counts { CountsReads (seen self.old) }
        ensures within { IfOk result (λ count. count ≤ length room.new) }
        ensures bytes { IfOk result (λ count.
            Consumes (seen self.old).remaining (seen self.new).remaining (take count room.new)) }
        ensures end { IfOk result (λ count. count ≡ 0 → IsAtEnd (seen self.new).remaining) }
        ensures err { OnErr result (Keeps (seen self.old).remaining (seen self.new).remaining) }
        ensures reads { (seen self.new).reads ≡ (seen self.old).reads + 1 }
        ensures ends { (seen self.new).ends ≡ ends_after (seen self.old).ends result }
        ensures faults { (seen self.new).faults ≡ faults_after (seen self.old).faults result };
}

/// Where bytes go.
pub trait ByteSink {
    /// What is known of it: the bytes that it was given and has taken, and how many writes failed.
    ghost seen: { Self → SinkView };

    /// Writes all these bytes; none of them is kept back. An `Err` says that the write has failed.
    /// Then the sink has taken a front of them. Fewer than 2 ^ 63 writes have failed so far.
    fn write(&mut self, bytes: &[u8]) -> Result<(), WriteFault>
        requires { (seen self.old).faults < 2 ^ 63 }
        ensures says { Says (seen self.old).contents (seen self.new).contents result bytes.now }
        ensures given { Appends (seen self.old).given (seen self.new).given bytes.now }
        ensures faults { (seen self.new).faults ≡ faults_after (seen self.old).faults result };
}
