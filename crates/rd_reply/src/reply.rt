//! Replies in a few words, and their lines.

ghost use Rattle.std.specs.Prelude.{◌≡◌, ◌+◌, ◌*◌, ◌++◌, ◌≤◌, ℕ, List, decimal, length};
ghost use Rattle.std.specs.Prelude.{vec_capacity, vec_len};
ghost use Rattle.rd_reply.specs.Replies.{answer_reply, answered_text, done_text, end_text};
ghost use Rattle.rd_reply.specs.Replies.{holder_text, line_of, moves_text, refusal_text};
ghost use Rattle.rd_reply.specs.Replies.{reply_text, watch_text};

use arrayvec::ArrayVec;
use itoa::Buffer;
use rd_moves::answer::{Answer, SearchEnd};
use rd_refusal::refusal::Refusal;

/// What is answered to a command that makes moves or takes them back, to one that asks how many
/// there are, to one for the wheel or a watch, or to one that is refused.
#[derive(Clone, Copy, PartialEq, Eq)]
pub enum Reply {
    /// So many moves are done now.
    Done {
        at: usize,
    },
    /// So many moves are done now, of which the last is an interrupt that had this answer, 1 or 0.
    Answered {
        at: usize,
        answer: u32,
    },
    /// So many moves are done where a search ended.
    Ended {
        at: usize,
        end: SearchEnd,
    },
    /// So many moves are done, and so many undone; so many of those done have a record kept, by
    /// which they can be taken back. Nothing has changed.
    Moves {
        done: usize,
        undone: usize,
        kept: usize,
    },
    /// The wheel was taken, or given.
    Wheel,
    /// Which session has the wheel, or that nobody has it. Nothing has changed.
    Holder {
        holder: Option<u32>,
    },
    /// The watch with this number is kept, or was dropped.
    Watch {
        number: usize,
    },
    /// Nothing has changed.
    Refused {
        refusal: Refusal,
    },
}

/// How many bytes the line of a reply has at the most: a `moves N undone N kept N` with three
/// numbers of 20 digits, as 18446744073709551615 has, and its LF.
pub const MAX_REPLY: usize = 81;

/// The line of a reply, which lies in the value itself.
pub type ReplyLine = ArrayVec<u8, MAX_REPLY>;

// How many digits a `usize` has at the most.
const MAX_DIGITS: usize = 20;

// Where the line of a reply is put: behind others that are yet to be written, or by itself.
trait LineTarget {
    // What stands there.
    ghost text: { Self → List ℕ };

    // How many bytes may stand there.
    ghost room: { Self → ℕ };

    // Appends bytes that there is room for.
    fn append(&mut self, bytes: &[u8])
        requires { length (text self.old) + length bytes.now ≤ room self.old }
        ensures text { text self.new ≡ text self.old ++ bytes.now }
        ensures room { room self.old ≤ room self.new };
}

// (Inlined: most texts are a few bytes that are known where it is called.)
impl LineTarget for ReplyLine {
    ghost use Rattle.rd_reply.specs.declared.reply.TheConstants.{MAX_REPLY};

    ghost text = { λ line. line.items };

    ghost room = { λ _. MAX_REPLY };

    #[inline(always)]
    fn append(&mut self, bytes: &[u8]) {
        self.try_extend_from_slice(bytes).unwrap();
    }
}

impl LineTarget for Vec<u8> {
    ghost text = { λ page. page.items };

    ghost room = { vec_capacity };

    #[inline(always)]
    fn append(&mut self, bytes: &[u8]) {
        self.extend_from_slice(bytes).unwrap();
    }
}

// The functions below append to a line what their name says, which there is room for.

fn append_number<L: LineTarget>(line: &mut L, number: usize)
    requires { length (L.text line.old) + MAX_DIGITS ≤ L.room line.old }
    ensures text { L.text line.new ≡ L.text line.old ++ decimal number }
    ensures len { length (L.text line.new) ≤ length (L.text line.old) + MAX_DIGITS }
    ensures room { L.room line.old ≤ L.room line.new }
{
    line.append(Buffer::new().format(number).as_bytes());
}

// The longest refusal is `TooFar ` with its number.
fn append_refusal<L: LineTarget>(line: &mut L, refusal: Refusal)
    requires { length (L.text line.old) + 7 + MAX_DIGITS ≤ L.room line.old }
    ensures text { L.text line.new ≡ L.text line.old ++ refusal_text refusal }
    ensures len { length (L.text line.new) ≤ length (L.text line.old) + 7 + MAX_DIGITS }
    ensures room { L.room line.old ≤ L.room line.new }
{
    match refusal {
        Refusal::NoTask => line.append(b"NoTask"),
        Refusal::TickLimit => line.append(b"TickLimit"),
        Refusal::TooFar { kept } => {
            line.append(b"TooFar ");
            append_number(line, kept);
        }
        Refusal::NothingUndone => line.append(b"NothingUndone"),
        Refusal::MovesFull => line.append(b"MovesFull"),
        Refusal::Held { holder } => {
            line.append(b"Held ");
            append_number(line, holder as usize);
        }
        Refusal::NoSuch => line.append(b"NoSuch"),
        Refusal::BadEdit => line.append(b"BadEdit"),
        Refusal::NoIsr => line.append(b"NoIsr"),
        Refusal::HistoryFull => line.append(b"HistoryFull"),
        Refusal::NoMemory => line.append(b"NoMemory"),
        Refusal::Syntax => line.append(b"Syntax"),
        Refusal::LineTooLong => line.append(b"LineTooLong"),
        Refusal::WatchesFull => line.append(b"WatchesFull"),
        Refusal::NoWatch => line.append(b"NoWatch"),
        Refusal::NotHolder => line.append(b"NotHolder"),
        Refusal::Broken => line.append(b"Broken"),
        Refusal::Full => line.append(b"Full"),
    }
}

// How many moves are done now.
fn append_done<L: LineTarget>(line: &mut L, at: usize)
    requires { length (L.text line.old) + 6 + MAX_DIGITS ≤ L.room line.old }
    ensures text { L.text line.new ≡ L.text line.old ++ done_text at }
    ensures len { length (L.text line.new) ≤ length (L.text line.old) + 6 + MAX_DIGITS }
    ensures room { L.room line.old ≤ L.room line.new }
{
    line.append(b"ok at ");
    append_number(line, at);
}

// How many moves are done now, and the answer that an interrupt had.
fn append_answered<L: LineTarget>(line: &mut L, at: usize, answer: u32)
    requires { length (L.text line.old) + 11 + 2 * MAX_DIGITS ≤ L.room line.old }
    ensures text { L.text line.new ≡ L.text line.old ++ answered_text at answer }
    ensures len { length (L.text line.new) ≤ length (L.text line.old) + 11 + 2 * MAX_DIGITS }
    ensures room { L.room line.old ≤ L.room line.new }
{
    append_done(line, at);
    line.append(b" isr ");
    append_number(line, answer as usize);
}

// How a search ended. No word is longer than `limit`.
fn append_end<L: LineTarget>(line: &mut L, end: SearchEnd)
    requires { length (L.text line.old) + 5 ≤ L.room line.old }
    ensures text { L.text line.new ≡ L.text line.old ++ end_text end }
    ensures len { length (L.text line.new) ≤ length (L.text line.old) + 5 }
    ensures room { L.room line.old ≤ L.room line.new }
{
    match end {
        SearchEnd::Met => line.append(b"met"),
        SearchEnd::Limit => line.append(b"limit"),
        SearchEnd::Start => line.append(b"start"),
    }
}

// How many moves are done, undone, and kept.
fn append_moves<L: LineTarget>(line: &mut L, done: usize, undone: usize, kept: usize)
    requires { length (L.text line.old) + 20 + 3 * MAX_DIGITS ≤ L.room line.old }
    ensures text { L.text line.new ≡ L.text line.old ++ moves_text done undone kept }
    ensures len { length (L.text line.new) ≤ length (L.text line.old) + 20 + 3 * MAX_DIGITS }
    ensures room { L.room line.old ≤ L.room line.new }
{
    line.append(b"moves ");
    append_number(line, done);
    line.append(b" undone ");
    append_number(line, undone);
    line.append(b" kept ");
    append_number(line, kept);
}

// Which session has the wheel; `-` for nobody.
fn append_holder<L: LineTarget>(line: &mut L, holder: Option<u32>)
    requires { length (L.text line.old) + 6 + MAX_DIGITS ≤ L.room line.old }
    ensures text { L.text line.new ≡ L.text line.old ++ holder_text holder }
    ensures len { length (L.text line.new) ≤ length (L.text line.old) + 6 + MAX_DIGITS }
    ensures room { L.room line.old ≤ L.room line.new }
{
    line.append(b"wheel ");
    match holder {
        Some(holder) => append_number(line, holder as usize),
        None => line.append(b"-"),
    }
}

// Which watch it was.
fn append_watch<L: LineTarget>(line: &mut L, number: usize)
    requires { length (L.text line.old) + 9 + MAX_DIGITS ≤ L.room line.old }
    ensures text { L.text line.new ≡ L.text line.old ++ watch_text number }
    ensures len { length (L.text line.new) ≤ length (L.text line.old) + 9 + MAX_DIGITS }
    ensures room { L.room line.old ≤ L.room line.new }
{
    line.append(b"ok watch ");
    append_number(line, number);
}

// (The line is written where it is wanted, since one that is handed on is copied.)
fn append_line<L: LineTarget>(line: &mut L, reply: &Reply)
    requires { length (L.text line.old) + MAX_REPLY ≤ L.room line.old }
    ensures text { L.text line.new ≡ L.text line.old ++ line_of (reply_text reply.now) }
    ensures room { L.room line.old ≤ L.room line.new }
{
    match reply {
        Reply::Done { at } => append_done(line, *at),
        Reply::Answered { at, answer } => append_answered(line, *at, *answer),
        Reply::Ended { at, end } => {
            append_done(line, *at);
            line.append(b" ");
            append_end(line, *end);
        }
        Reply::Moves { done, undone, kept } => append_moves(line, *done, *undone, *kept),
        Reply::Wheel => line.append(b"ok wheel"),
        Reply::Holder { holder } => append_holder(line, *holder),
        Reply::Watch { number } => append_watch(line, *number),
        Reply::Refused { refusal } => {
            line.append(b"no ");
            append_refusal(line, *refusal);
        }
    }
    line.append(b"\n");
}

impl Reply {
    /// What is replied to a request of the timeline.
    pub fn of(answer: Answer) -> Reply
        ensures { result ≡ answer_reply answer }
    {
        match answer {
            Answer::Done { at } => Reply::Done { at },
            Answer::Answered { at, answer } => Reply::Answered { at, answer },
            Answer::Ended { at, end } => Reply::Ended { at, end },
            Answer::Refused { refusal } => Reply::Refused { refusal },
        }
    }

    /// The line of the reply, its LF included. It takes no memory.
    pub fn line(&self) -> ReplyLine
        ensures { result.items ≡ line_of (reply_text self.now) }
    {
        let mut line = ArrayVec::new();
        append_line(&mut line, self);
        line
    }
}

/// Appends the line of a reply, which there is room for.
pub fn append_reply(page: &mut Vec<u8>, reply: &Reply)
    requires { vec_len page.old + MAX_REPLY ≤ vec_capacity page.old }
    ensures text { page.new.items ≡ page.old.items ++ line_of (reply_text reply.now) }
    ensures room { vec_capacity page.old ≤ vec_capacity page.new }
{
    append_line(page, reply);
}
