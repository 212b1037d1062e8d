//! The keywords: how each is written, and what its operands are.

ghost use Rattle.std.specs.Prelude.{◌≡◌, IfSome, option_map};
ghost use Rattle.rd_script.specs.Keywords.{keyword_of, row_of, operands_of};
ghost use Rattle.rd_script.specs.Keywords.{first_written, texts_view};

use Keyword::{Group, Local, Message, Notify, Queue, QueueSet, Stream};
use rd_text::kind::Kind;

/// What an operand of an instruction is.
#[derive(Clone, Copy)]
pub(crate) enum Parameter {
    /// A register, `r0` to `r7`.
    Register,
    /// A number below 2^32.
    Number,
    /// The number of an instruction of the script.
    Target,
    /// Bytes in hexadecimal digits, or `-`.
    Data,
    /// A block time: `max`, a number of ticks, or the value of a register.
    Time,
    /// A number below 2^32, or the value of a register.
    Operand,
    /// The index of a notification entry that each task has.
    Index,
    /// How many bytes are read at the most, 1 to 256.
    Room,
    /// What a notification does to the value: `none`, `bits`, `inc`, `set` or `setif`.
    Action,
    /// What is left of a value that is taken: `clear` or `dec`.
    OnExit,
    /// Whether a task waits for any of its bits, or for all: `any` or `all`.
    WaitFor,
    /// What becomes of the bits that a task waited for: `keep` or `clear`.
    OnMet,
    /// The name of a thing of that kind.
    Name(Kind),
}

/// The first word of an instruction that touches nothing but its own task.
#[derive(Clone, Copy)]
pub(crate) enum LocalKeyword {
    Set,
    Add,
    Move,
    Data,
    Pack,
    Unpack,
    Jump,
    JumpZero,
    End,
}

/// The first word of a call of a queue.
#[derive(Clone, Copy)]
pub(crate) enum QueueKeyword {
    Send,
    Front,
    Receive,
    Peek,
    Overwrite,
    Reset,
    Count,
    Spaces,
    AddToSet,
    RemoveFromSet,
}

/// The first word of a call of a queue set.
#[derive(Clone, Copy)]
pub(crate) enum QueueSetKeyword {
    Select,
}

/// The first word of a call of a stream buffer.
#[derive(Clone, Copy)]
pub(crate) enum StreamKeyword {
    Write,
    Read,
    Reset,
    SetTrigger,
    Count,
    Spaces,
}

/// The first word of a call of a message buffer.
#[derive(Clone, Copy)]
pub(crate) enum MessageKeyword {
    Write,
    Read,
    Reset,
    Spaces,
    NextLength,
}

/// The first word of a call of an event group.
#[derive(Clone, Copy)]
pub(crate) enum GroupKeyword {
    Set,
    Clear,
    Get,
    Wait,
    Sync,
}

/// The first word of a call that notifies a task, or looks at an entry.
#[derive(Clone, Copy)]
pub(crate) enum NotifyKeyword {
    Notify,
    Query,
    Take,
    Wait,
    ClearState,
    ClearValue,
}

/// The first word of an instruction.
#[derive(Clone, Copy)]
pub(crate) enum Keyword {
    Local(LocalKeyword),
    Queue(QueueKeyword),
    QueueSet(QueueSetKeyword),
    Stream(StreamKeyword),
    Message(MessageKeyword),
    Group(GroupKeyword),
    Notify(NotifyKeyword),
}

const REGISTER: Parameter = Parameter::Register;

const NUMBER: Parameter = Parameter::Number;

const TARGET: Parameter = Parameter::Target;

const DATA: Parameter = Parameter::Data;

const TIME: Parameter = Parameter::Time;

const OPERAND: Parameter = Parameter::Operand;

const INDEX: Parameter = Parameter::Index;

const ROOM: Parameter = Parameter::Room;

const ACTION: Parameter = Parameter::Action;

const ON_EXIT: Parameter = Parameter::OnExit;

const WAIT_FOR: Parameter = Parameter::WaitFor;

const ON_MET: Parameter = Parameter::OnMet;

const TASK: Parameter = Parameter::Name(Kind::Task);

const QUEUE: Parameter = Parameter::Name(Kind::Queue);

const QUEUE_SET: Parameter = Parameter::Name(Kind::QueueSet);

const STREAM: Parameter = Parameter::Name(Kind::Stream);

const MESSAGE: Parameter = Parameter::Name(Kind::Message);

const GROUP: Parameter = Parameter::Name(Kind::Group);

// Each keyword: as it is written, and its operands.
const KEYWORDS: [(&str, &[Parameter], Keyword); 42] = [
    ("set", &[REGISTER, NUMBER], Local(LocalKeyword::Set)),
    ("add", &[REGISTER, NUMBER], Local(LocalKeyword::Add)),
    ("move", &[REGISTER, REGISTER], Local(LocalKeyword::Move)),
    ("data", &[DATA], Local(LocalKeyword::Data)),
    ("pack", &[REGISTER], Local(LocalKeyword::Pack)),
    ("unpack", &[REGISTER], Local(LocalKeyword::Unpack)),
    ("jump", &[TARGET], Local(LocalKeyword::Jump)),
    ("jumpz", &[REGISTER, TARGET], Local(LocalKeyword::JumpZero)),
    ("end", &[], Local(LocalKeyword::End)),
    ("send", &[QUEUE, TIME], Queue(QueueKeyword::Send)),
    ("front", &[QUEUE, TIME], Queue(QueueKeyword::Front)),
    ("recv", &[QUEUE, TIME], Queue(QueueKeyword::Receive)),
    ("peek", &[QUEUE, TIME], Queue(QueueKeyword::Peek)),
    ("over", &[QUEUE], Queue(QueueKeyword::Overwrite)),
    ("qreset", &[QUEUE], Queue(QueueKeyword::Reset)),
    ("count", &[QUEUE], Queue(QueueKeyword::Count)),
    ("spaces", &[QUEUE], Queue(QueueKeyword::Spaces)),
    ("setadd", &[QUEUE, QUEUE_SET], Queue(QueueKeyword::AddToSet)),
    (
        "setdel",
        &[QUEUE, QUEUE_SET],
        Queue(QueueKeyword::RemoveFromSet),
    ),
    (
        "select",
        &[QUEUE_SET, TIME],
        QueueSet(QueueSetKeyword::Select),
    ),
    ("swrite", &[STREAM, TIME], Stream(StreamKeyword::Write)),
    ("sread", &[STREAM, ROOM, TIME], Stream(StreamKeyword::Read)),
    ("sreset", &[STREAM], Stream(StreamKeyword::Reset)),
    (
        "strig",
        &[STREAM, OPERAND],
        Stream(StreamKeyword::SetTrigger),
    ),
    ("scount", &[STREAM], Stream(StreamKeyword::Count)),
    ("sspaces", &[STREAM], Stream(StreamKeyword::Spaces)),
    ("mwrite", &[MESSAGE, TIME], Message(MessageKeyword::Write)),
    (
        "mread",
        &[MESSAGE, ROOM, TIME],
        Message(MessageKeyword::Read),
    ),
    ("mreset", &[MESSAGE], Message(MessageKeyword::Reset)),
    ("mspaces", &[MESSAGE], Message(MessageKeyword::Spaces)),
    ("mnext", &[MESSAGE], Message(MessageKeyword::NextLength)),
    ("gset", &[GROUP, OPERAND], Group(GroupKeyword::Set)),
    ("gclear", &[GROUP, OPERAND], Group(GroupKeyword::Clear)),
    ("gget", &[GROUP], Group(GroupKeyword::Get)),
    (
        "gwait",
        &[GROUP, OPERAND, WAIT_FOR, ON_MET, TIME],
        Group(GroupKeyword::Wait),
    ),
    (
        "gsync",
        &[GROUP, OPERAND, OPERAND, TIME],
        Group(GroupKeyword::Sync),
    ),
    (
        "notify",
        &[TASK, INDEX, OPERAND, ACTION],
        Notify(NotifyKeyword::Notify),
    ),
    (
        "query",
        &[TASK, INDEX, OPERAND, ACTION],
        Notify(NotifyKeyword::Query),
    ),
    ("take", &[INDEX, ON_EXIT, TIME], Notify(NotifyKeyword::Take)),
    (
        "nwait",
        &[INDEX, OPERAND, OPERAND, TIME],
        Notify(NotifyKeyword::Wait),
    ),
    ("nclear", &[TASK, INDEX], Notify(NotifyKeyword::ClearState)),
    (
        "vclear",
        &[TASK, INDEX, OPERAND],
        Notify(NotifyKeyword::ClearValue),
    ),
];

/// The keyword that is written so, with its operands.
pub(crate) fn keyword_of(word: &[u8]) -> Option<(&'static [Parameter], Keyword)>
    ensures keyword { option_map (λ found. found.1) result ≡ keyword_of word.now }
    ensures operands { IfSome result (λ found. found.0.now ≡ operands_of (row_of found.1)) }
{
    first_written(word, &KEYWORDS)
}

// The first of these keywords that is written so.
fn first_written<'a>(
    word: &[u8],
    keywords: &[(&str, &'a [Parameter], Keyword)],
) -> Option<(&'a [Parameter], Keyword)>
    ensures { option_map (λ row. (row.0.now, row.1)) result
        ≡ first_written word.now (texts_view keywords.now) }
{
    for (text, operands, keyword) in keywords {
        if word == text.as_bytes() {
            return Some((*operands, *keyword));
        }
    }
    None
}
