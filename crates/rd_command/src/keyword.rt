//! The keywords of commands and of conditions: how each is written, and what its operands are.

ghost use Rattle.std.specs.Prelude.{◌≡◌, IfSome, option_map};
ghost use Rattle.rd_command.specs.Keywords.{condition_keyword_of, condition_row, needs_wheel};
ghost use Rattle.rd_command.specs.Keywords.{parameters_of};
ghost use Rattle.rd_command.specs.Tables.{first_condition, conditions_view};

use crate::view::Overview;
use CommandKeyword::{Ask, AskByWatch, Look, Show};
use ConditionKeyword::Compares;
use Operands::{Plain, WithCondition};
use rd_text::kind::Kind;

/// What a word of a command or of a condition stands for.
#[derive(Clone, Copy)]
pub(crate) enum CommandParameter {
    /// A core, by its number.
    Core,
    /// A number of moves, 1 to 1,000,000.
    Count,
    /// A register, by its number.
    Register,
    /// A notification entry, by its index.
    Index,
    /// A number below 2^32.
    Number,
    /// Bytes in hexadecimal digits, or `-`.
    Data,
    /// How an amount is compared: `=`, `<` or `>`.
    Operator,
    /// What a phase is called: `run`, `again`, `given`, `wait`, `ended` or `failed`.
    Phase,
    /// What a notification does: `none`, `bits`, `inc`, `set` or `setif`.
    Action,
    /// A watch of the session: `w` and its number, 0 to 15.
    Watch,
    /// The name of a thing of that kind.
    Name(Kind),
}

/// What stands behind the words of a keyword.
#[derive(Clone, Copy)]
pub(crate) enum Operands<'a> {
    /// A word for each of these.
    Plain(&'a [CommandParameter]),
    /// A condition, and then a word for each of these.
    WithCondition(&'a [CommandParameter]),
}

/// What an edit changes.
#[derive(Clone, Copy)]
pub enum EditKeyword {
    Register,
    Data,
    Pc,
    Value,
    Bits,
    Item,
    Byte,
}

/// What an interrupt does.
#[derive(Clone, Copy)]
pub enum InterruptKeyword {
    Send,
    Notify,
}

/// What a request of the timeline is, as its first words say.
#[derive(Clone, Copy)]
pub enum RequestKeyword {
    Step,
    Tick,
    Back,
    Forward,
    Redo,
    Until,
    BackUntil,
    Trim,
    Poke(EditKeyword),
    Interrupt(InterruptKeyword),
}

/// What is looked for by a watch.
#[derive(Clone, Copy)]
pub enum SearchKeyword {
    Until,
    BackUntil,
}

/// What a command does, as its first words say.
#[derive(Clone, Copy)]
pub enum CommandKeyword {
    /// It asks the timeline.
    Ask(RequestKeyword),
    /// It asks the timeline by a watch of the session.
    AskByWatch(SearchKeyword),
    /// It takes the wheel.
    TakeWheel,
    /// It gives the wheel.
    GiveWheel,
    /// The session keeps a condition.
    Watch,
    /// The session drops a watch.
    Unwatch,
    /// It shows a thing of that kind.
    Show(Kind),
    /// It shows the cores.
    Cores,
    /// It shows what is of the debugger itself.
    Look(Overview),
}

impl CommandKeyword {
    /// Whether a command is refused while another session has the wheel: one that asks the
    /// timeline, and one that takes the wheel.
    pub(crate) fn needs_wheel(self) -> bool
        ensures { result ≡ needs_wheel self }
    {
        match self {
            CommandKeyword::Ask(_) | CommandKeyword::AskByWatch(_) | CommandKeyword::TakeWheel =>
                true,
            CommandKeyword::GiveWheel
            | CommandKeyword::Watch
            | CommandKeyword::Unwatch
            | CommandKeyword::Show(_)
            | CommandKeyword::Cores
            | CommandKeyword::Look(_) => false,
        }
    }
}

/// What a condition compares with a number.
#[derive(Clone, Copy)]
pub(crate) enum AmountKeyword {
    Items,
    Bytes,
    Messages,
    Bits,
    Register,
    Pc,
    Value,
    Tick,
}

/// What a condition speaks of, as its first word says.
#[derive(Clone, Copy)]
pub(crate) enum ConditionKeyword {
    Compares(AmountKeyword),
    InPhase,
}

const CORE: CommandParameter = CommandParameter::Core;

const COUNT: CommandParameter = CommandParameter::Count;

const REGISTER: CommandParameter = CommandParameter::Register;

const INDEX: CommandParameter = CommandParameter::Index;

const NUMBER: CommandParameter = CommandParameter::Number;

const DATA: CommandParameter = CommandParameter::Data;

const OPERATOR: CommandParameter = CommandParameter::Operator;

const PHASE: CommandParameter = CommandParameter::Phase;

const ACTION: CommandParameter = CommandParameter::Action;

const WATCH: CommandParameter = CommandParameter::Watch;

const QUEUE: CommandParameter = CommandParameter::Name(Kind::Queue);

const QUEUE_SET: CommandParameter = CommandParameter::Name(Kind::QueueSet);

const STREAM: CommandParameter = CommandParameter::Name(Kind::Stream);

const MESSAGE: CommandParameter = CommandParameter::Name(Kind::Message);

const GROUP: CommandParameter = CommandParameter::Name(Kind::Group);

const TASK: CommandParameter = CommandParameter::Name(Kind::Task);

/// The operands of a keyword that is its first word alone, and the keyword.
pub(crate) type Alone<'a> = (Operands<'a>, CommandKeyword);

/// The second word of a keyword that has one, its operands, and the keyword.
pub(crate) type Longer<'a> = (&'a str, Operands<'a>, CommandKeyword);

/// A first word, the keywords that are this word alone, and those that have a second one.
pub(crate) type Verb<'a> = (&'a str, &'a [Alone<'a>], &'a [Longer<'a>]);

/// Each keyword of a command, by its first word. What is asked for most comes first.
pub(crate) static KEYWORDS: [Verb<'static>; 13] = [
    ("step", &[(Plain(&[CORE]), Ask(RequestKeyword::Step))], &[]),
    ("tick", &[(Plain(&[]), Ask(RequestKeyword::Tick))], &[]),
    (
        "back",
        &[(Plain(&[COUNT]), Ask(RequestKeyword::Back))],
        &[
            ("until", WithCondition(&[]), Ask(RequestKeyword::BackUntil)),
            (
                "until",
                Plain(&[WATCH]),
                AskByWatch(SearchKeyword::BackUntil),
            ),
        ],
    ),
    (
        "forward",
        &[(Plain(&[COUNT]), Ask(RequestKeyword::Forward))],
        &[],
    ),
    (
        "show",
        &[],
        &[
            ("task", Plain(&[TASK]), Show(Kind::Task)),
            ("queue", Plain(&[QUEUE]), Show(Kind::Queue)),
            ("set", Plain(&[QUEUE_SET]), Show(Kind::QueueSet)),
            ("stream", Plain(&[STREAM]), Show(Kind::Stream)),
            ("message", Plain(&[MESSAGE]), Show(Kind::Message)),
            ("group", Plain(&[GROUP]), Show(Kind::Group)),
            ("cores", Plain(&[]), CommandKeyword::Cores),
            ("moves", Plain(&[]), Look(Overview::Moves)),
            ("wheel", Plain(&[]), Look(Overview::Wheel)),
            ("watches", Plain(&[]), Look(Overview::Watches)),
        ],
    ),
    ("redo", &[(Plain(&[COUNT]), Ask(RequestKeyword::Redo))], &[]),
    (
        "until",
        &[
            (WithCondition(&[COUNT]), Ask(RequestKeyword::Until)),
            (Plain(&[WATCH, COUNT]), AskByWatch(SearchKeyword::Until)),
        ],
        &[],
    ),
    (
        "poke",
        &[],
        &[
            (
                "reg",
                Plain(&[TASK, REGISTER, NUMBER]),
                Ask(RequestKeyword::Poke(EditKeyword::Register)),
            ),
            (
                "data",
                Plain(&[TASK, DATA]),
                Ask(RequestKeyword::Poke(EditKeyword::Data)),
            ),
            (
                "pc",
                Plain(&[TASK, NUMBER]),
                Ask(RequestKeyword::Poke(EditKeyword::Pc)),
            ),
            (
                "note",
                Plain(&[TASK, INDEX, NUMBER]),
                Ask(RequestKeyword::Poke(EditKeyword::Value)),
            ),
            (
                "group",
                Plain(&[GROUP, NUMBER]),
                Ask(RequestKeyword::Poke(EditKeyword::Bits)),
            ),
            (
                "item",
                Plain(&[QUEUE, NUMBER, DATA]),
                Ask(RequestKeyword::Poke(EditKeyword::Item)),
            ),
            (
                "byte",
                Plain(&[STREAM, NUMBER, NUMBER]),
                Ask(RequestKeyword::Poke(EditKeyword::Byte)),
            ),
        ],
    ),
    (
        "isr",
        &[],
        &[
            (
                "send",
                Plain(&[QUEUE, DATA]),
                Ask(RequestKeyword::Interrupt(InterruptKeyword::Send)),
            ),
            (
                "notify",
                Plain(&[TASK, INDEX, NUMBER, ACTION]),
                Ask(RequestKeyword::Interrupt(InterruptKeyword::Notify)),
            ),
        ],
    ),
    (
        "wheel",
        &[],
        &[
            ("take", Plain(&[]), CommandKeyword::TakeWheel),
            ("give", Plain(&[]), CommandKeyword::GiveWheel),
        ],
    ),
    (
        "trim",
        &[(Plain(&[NUMBER]), Ask(RequestKeyword::Trim))],
        &[],
    ),
    ("watch", &[(WithCondition(&[]), CommandKeyword::Watch)], &[]),
    (
        "unwatch",
        &[(Plain(&[NUMBER]), CommandKeyword::Unwatch)],
        &[],
    ),
];

// Each keyword of a condition: as it is written, and its operands.
static CONDITIONS: [(&str, &[CommandParameter], ConditionKeyword); 9] = [
    (
        "count",
        &[QUEUE, OPERATOR, NUMBER],
        Compares(AmountKeyword::Items),
    ),
    (
        "bytes",
        &[STREAM, OPERATOR, NUMBER],
        Compares(AmountKeyword::Bytes),
    ),
    (
        "msgs",
        &[MESSAGE, OPERATOR, NUMBER],
        Compares(AmountKeyword::Messages),
    ),
    (
        "bits",
        &[GROUP, OPERATOR, NUMBER],
        Compares(AmountKeyword::Bits),
    ),
    (
        "reg",
        &[TASK, REGISTER, OPERATOR, NUMBER],
        Compares(AmountKeyword::Register),
    ),
    ("pc", &[TASK, OPERATOR, NUMBER], Compares(AmountKeyword::Pc)),
    (
        "note",
        &[TASK, INDEX, OPERATOR, NUMBER],
        Compares(AmountKeyword::Value),
    ),
    ("tick", &[OPERATOR, NUMBER], Compares(AmountKeyword::Tick)),
    ("phase", &[TASK, PHASE], ConditionKeyword::InPhase),
];

/// The keyword of a condition that is written so, with its operands.
pub(crate) fn condition_keyword_of(
    word: &[u8],
) -> Option<(&'static [CommandParameter], ConditionKeyword)>
    ensures keyword { option_map (λ found. found.1) result ≡ condition_keyword_of word.now }
    ensures operands { IfSome result
        (λ found. found.0.now ≡ parameters_of (condition_row found.1)) }
{
    first_condition(word, &CONDITIONS)
}

// The first of these keywords that is written so.
fn first_condition<'a>(
    word: &[u8],
    keywords: &[(&str, &'a [CommandParameter], ConditionKeyword)],
) -> Option<(&'a [CommandParameter], ConditionKeyword)>
    ensures { option_map (λ row. (row.0.now, row.1)) result
        ≡ first_condition word.now (conditions_view keywords.now) }
{
    for (text, parameters, keyword) in keywords {
        if word == text.as_bytes() {
            return Some((*parameters, *keyword));
        }
    }
    None
}
