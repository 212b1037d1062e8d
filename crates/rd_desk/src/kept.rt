//! Replies as a kind and three numbers, but for the text of a view.

ghost use Rattle.std.specs.Prelude.{◌≡◌, [], IfOk};
ghost use Rattle.rd_desk.specs.HistoryView.{reply_bytes};
ghost use Rattle.rd_desk.specs.Kept.{cause_refusal, packed_kept, reply_kept, wide, IsKeptOf};
ghost use Rattle.rd_desk.specs.Kept.{IsNarrow, IsNarrowTold};

use crate::reply::DeskReply;
use crate::text::Text;
use rd_bytes::no_memory::NoMemory;
use rd_moves::answer::SearchEnd;
use rd_refusal::refusal::Refusal;
use rd_reply::reply::Reply as Short;
use std::alloc::Global;

/// Why a command was refused, where no number goes with the refusal.
#[derive(Clone, Copy, PartialEq, Eq)]
pub(crate) enum RefusalCause {
    NoTask,
    TickLimit,
    NothingUndone,
    MovesFull,
    NoSuch,
    BadEdit,
    NoIsr,
    HistoryFull,
    NoMemory,
    Syntax,
    LineTooLong,
    WatchesFull,
    NoWatch,
    NotHolder,
    Broken,
    Full,
}

/// What is kept of a reply. The text of a view stands behind a line of so many bytes.
#[derive(Clone, Copy, PartialEq, Eq)]
pub(crate) enum Kept {
    Done,
    Reached { at: usize },
    Answered { answer: u32, at: usize },
    Ended { end: SearchEnd, at: usize },
    Moves { done: u32, undone: u32, kept: u32 },
    Wheel,
    Holder { holder: Option<u32> },
    Watch { number: usize },
    TooFar { kept: usize },
    Held { holder: u32 },
    Refused { cause: RefusalCause },
    Shown { line: usize },
}

/// Which reply it is, with what of it isn't a number.
#[derive(Clone, Copy, PartialEq, Eq)]
pub(crate) enum KeptKind {
    Done,
    Reached,
    Answered,
    Ended { end: SearchEnd },
    Moves,
    Wheel,
    Nobody,
    Holder,
    Watch,
    TooFar,
    Held,
    Refused { cause: RefusalCause },
    Shown,
}

/// The same in pieces that fit a row: three numbers of 32 bits, of which the first two may be the
/// halves of one of 64, the lower one first. A number that the kind doesn't have is 0.
#[derive(Clone, Copy, PartialEq, Eq)]
pub(crate) struct PackedReply {
    pub(crate) first: u32,
    pub(crate) second: u32,
    pub(crate) third: u32,
    pub(crate) kind: KeptKind,
}

// A kind that has no number.
fn plain(kind: KeptKind) -> PackedReply
    ensures kind { result.kind ≡ kind }
{
    narrow(kind, 0)
}

// A kind with a number of 32 bits.
fn narrow(kind: KeptKind, number: u32) -> PackedReply
    ensures kind { result.kind ≡ kind }
    ensures number { result.first ≡ number }
{
    PackedReply {
        first: number,
        second: 0,
        third: 0,
        kind,
    }
}

// A kind with a number of 64 bits, and one of 32.
fn wide(kind: KeptKind, number: usize, third: u32) -> PackedReply
    ensures kind { result.kind ≡ kind }
    ensures number { wide result.first result.second ≡ number }
    ensures third { result.third ≡ third }
{
    PackedReply {
        first: (number % (1 << 32)) as u32,
        second: (number / (1 << 32)) as u32,
        third,
        kind,
    }
}

// What is kept of a refusal without a number.
fn refused(cause: RefusalCause) -> PackedReply
    ensures { packed_kept result ≡ Kept.Refused cause }
{
    plain(KeptKind::Refused { cause })
}

// What is kept of a refusal.
fn pack_refusal(refusal: Refusal) -> PackedReply
    ensures { IsKeptOf (packed_kept result) 0 (DeskReply.Told (Short.Refused refusal)) }
{
    match refusal {
        Refusal::NoTask => refused(RefusalCause::NoTask),
        Refusal::TickLimit => refused(RefusalCause::TickLimit),
        Refusal::TooFar { kept } => wide(KeptKind::TooFar, kept, 0),
        Refusal::NothingUndone => refused(RefusalCause::NothingUndone),
        Refusal::MovesFull => refused(RefusalCause::MovesFull),
        Refusal::Held { holder } => narrow(KeptKind::Held, holder),
        Refusal::NoSuch => refused(RefusalCause::NoSuch),
        Refusal::BadEdit => refused(RefusalCause::BadEdit),
        Refusal::NoIsr => refused(RefusalCause::NoIsr),
        Refusal::HistoryFull => refused(RefusalCause::HistoryFull),
        Refusal::NoMemory => refused(RefusalCause::NoMemory),
        Refusal::Syntax => refused(RefusalCause::Syntax),
        Refusal::LineTooLong => refused(RefusalCause::LineTooLong),
        Refusal::WatchesFull => refused(RefusalCause::WatchesFull),
        Refusal::NoWatch => refused(RefusalCause::NoWatch),
        Refusal::NotHolder => refused(RefusalCause::NotHolder),
        Refusal::Broken => refused(RefusalCause::Broken),
        Refusal::Full => refused(RefusalCause::Full),
    }
}

// What is kept of who has the wheel.
fn pack_holder(holder: Option<u32>) -> PackedReply
    ensures { packed_kept result ≡ Kept.Holder holder }
{
    match holder {
        Some(holder) => narrow(KeptKind::Holder, holder),
        None => plain(KeptKind::Nobody),
    }
}

// What is kept of a reply in a few words.
fn pack_told(told: &Short) -> PackedReply
    requires { IsNarrowTold told.now }
    ensures { IsKeptOf (packed_kept result) 0 (DeskReply.Told told.now) }
{
    match told {
        Short::Done { at } => wide(KeptKind::Reached, *at, 0),
        Short::Answered { at, answer } => wide(KeptKind::Answered, *at, *answer),
        Short::Ended { at, end } => wide(KeptKind::Ended { end: *end }, *at, 0),
        Short::Moves { done, undone, kept } => PackedReply {
            first: *done as u32,
            second: *undone as u32,
            third: *kept as u32,
            kind: KeptKind::Moves,
        },
        Short::Wheel => plain(KeptKind::Wheel),
        Short::Holder { holder } => pack_holder(*holder),
        Short::Watch { number } => wide(KeptKind::Watch, *number, 0),
        Short::Refused { refusal } => pack_refusal(*refusal),
    }
}

impl PackedReply {
    /// What is kept of a reply behind a line of so many bytes.
    pub(crate) fn of(line: usize, reply: &DeskReply) -> PackedReply
        requires { IsNarrow reply.now }
        ensures { IsKeptOf (packed_kept result) line reply.now }
    {
        match reply {
            DeskReply::Done => plain(KeptKind::Done),
            DeskReply::Told { told } => pack_told(told),
            DeskReply::Shown { .. } => wide(KeptKind::Shown, line, 0),
        }
    }

    /// Its number of 64 bits.
    pub(crate) fn number(&self) -> usize
        ensures { result ≡ wide self.now.first self.now.second }
    {
        self.first as usize + (self.second as usize) * (1 << 32)
    }

    /// The same by its numbers.
    pub(crate) fn kept(&self) -> Kept
        ensures { result ≡ packed_kept self.now }
    {
        match self.kind {
            KeptKind::Done => Kept::Done,
            KeptKind::Reached => Kept::Reached { at: self.number() },
            KeptKind::Answered => Kept::Answered {
                answer: self.third,
                at: self.number(),
            },
            KeptKind::Ended { end } => Kept::Ended {
                end,
                at: self.number(),
            },
            KeptKind::Moves => Kept::Moves {
                done: self.first,
                undone: self.second,
                kept: self.third,
            },
            KeptKind::Wheel => Kept::Wheel,
            KeptKind::Nobody => Kept::Holder { holder: None },
            KeptKind::Holder => Kept::Holder {
                holder: Some(self.first),
            },
            KeptKind::Watch => Kept::Watch {
                number: self.number(),
            },
            KeptKind::TooFar => Kept::TooFar {
                kept: self.number(),
            },
            KeptKind::Held => Kept::Held { holder: self.first },
            KeptKind::Refused { cause } => Kept::Refused { cause },
            KeptKind::Shown => Kept::Shown {
                line: self.number(),
            },
        }
    }
}

// The refusal of a cause.
fn refusal_of(cause: RefusalCause) -> Refusal
    ensures { result ≡ cause_refusal cause }
{
    match cause {
        RefusalCause::NoTask => Refusal::NoTask,
        RefusalCause::TickLimit => Refusal::TickLimit,
        RefusalCause::NothingUndone => Refusal::NothingUndone,
        RefusalCause::MovesFull => Refusal::MovesFull,
        RefusalCause::NoSuch => Refusal::NoSuch,
        RefusalCause::BadEdit => Refusal::BadEdit,
        RefusalCause::NoIsr => Refusal::NoIsr,
        RefusalCause::HistoryFull => Refusal::HistoryFull,
        RefusalCause::NoMemory => Refusal::NoMemory,
        RefusalCause::Syntax => Refusal::Syntax,
        RefusalCause::LineTooLong => Refusal::LineTooLong,
        RefusalCause::WatchesFull => Refusal::WatchesFull,
        RefusalCause::NoWatch => Refusal::NoWatch,
        RefusalCause::NotHolder => Refusal::NotHolder,
        RefusalCause::Broken => Refusal::Broken,
        RefusalCause::Full => Refusal::Full,
    }
}

impl Kept {
    /// The reply, with the text of a view. An `Err` says that there is no memory for that.
    pub(crate) fn reply(self, alloc: Global, text: &[u8]) -> Result<DeskReply, NoMemory>
        ensures { IfOk result (λ reply. reply ≡ reply_kept self text.now) }
    {
        let told = match self {
            Kept::Done => return Ok(DeskReply::Done),
            Kept::Shown { .. } => {
                return Ok(DeskReply::Shown {
                    text: Text::of(alloc, text)?,
                });
            }
            Kept::Reached { at } => Short::Done { at },
            Kept::Answered { answer, at } => Short::Answered { at, answer },
            Kept::Ended { end, at } => Short::Ended { at, end },
            Kept::Moves { done, undone, kept } => Short::Moves {
                done: done as usize,
                undone: undone as usize,
                kept: kept as usize,
            },
            Kept::Wheel => Short::Wheel,
            Kept::Holder { holder } => Short::Holder { holder },
            Kept::Watch { number } => Short::Watch { number },
            Kept::TooFar { kept } => Short::Refused {
                refusal: Refusal::TooFar { kept },
            },
            Kept::Held { holder } => Short::Refused {
                refusal: Refusal::Held { holder },
            },
            Kept::Refused { cause } => Short::Refused {
                refusal: refusal_of(cause),
            },
        };
        Ok(DeskReply::Told { told })
    }
}
