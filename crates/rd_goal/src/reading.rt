//! Goals as words: what a goal is read from.

ghost use Rattle.std.specs.Prelude.{◌≡◌, ◌<◌, ◌≤◌, ◌++◌, ◌||◌, ◌∷◌, List, [], codes, length};
ghost use Rattle.std.specs.Prelude.{slice_index, IfErr, IfOk, IsErrOf, OnOk};
ghost use Rattle.rd_goal.specs.Goals.{IsGoalOf, IsRowOf};
ghost use Rattle.rd_goal.specs.Reading.{HasFormula, IsAmid, IsJoined, IsLast, IsRead, ReadsOn};
ghost use Rattle.rd_goal.specs.Reading.{IsRefusal, IsSettled, IsTaken, IsWanting, IsWhyNot};
ghost use Rattle.rd_goal.specs.Reading.{parenthesis_in, part_of, strength_of, with_row, word_in};
ghost use Rattle.rd_goal.specs.declared.reading.NoGoal.TheVariants.{Ends};
ghost use Rattle.rd_goal.specs.declared.reading.Wanted.TheVariants.{Claim as ClaimWanted};
ghost use Rattle.rd_goal.specs.Written.{IsCutOff, IsGoalOfWords, IsWhyNoGoal, Sign, close_sign};
ghost use Rattle.rd_goal.specs.Written.{is_parenthesis, spaced};
ghost use Rattle.rd_text.specs.Words.{is_space, texts, words_of};

use crate::claim_words::claim;
use crate::goal::{Goal, GoalRow, MAX_ROWS};
use crate::words::{GoalReader, Joining};
use arrayvec::ArrayVec;
use rd_bytes::no_memory::NoMemory;
use rd_names::app::App;
use std::alloc::{AllocError, Global};
use std::marker::Model;
use thiserror::Error;

/// What a goal has at a place.
#[derive(Clone, Copy, Debug)]
pub enum Wanted {
    /// A claim, `not` or `(`.
    Claim,
    /// A number of at most 4,294,967,295.
    Number,
    /// A register, 0 to 7.
    Register,
    /// The index of a notification entry that each task has.
    Index,
    /// The number of an instruction of the task's script.
    Instruction,
    /// The name of a queue.
    Queue,
    /// The name of a queue set.
    QueueSet,
    /// The name of a stream buffer.
    Stream,
    /// The name of a message buffer.
    Message,
    /// The name of an event group.
    Group,
    /// The name of a task.
    Task,
    /// `=`, `<` or `>`.
    Comparison,
    /// What a phase is called.
    Phase,
    /// A place where a task waits.
    Place,
    /// `and`, `or`, `)`, or the end.
    Join,
}

/// Why words are no goal. Words go by number, the first one is 1; a parenthesis is a word.
#[derive(Debug, Drop, Error)]
pub enum NoGoal {
    /// A word isn't what stands there.
    #[error("another word is wanted there")]
    Wanted { what: Wanted, at: usize },
    /// The words end where something is wanted.
    #[error("the goal ends too early")]
    Ends { what: Wanted },
    /// The name is that of a stream buffer and of a message buffer.
    #[error("a stream buffer and a message buffer have this name")]
    Either { at: usize },
    /// A parenthesis is closed that isn't open.
    #[error("this parenthesis isn't open")]
    Unopened { at: usize },
    /// A parenthesis is open at the end.
    #[error("a parenthesis isn't closed")]
    Unclosed,
    /// It has more than 64 claims, `and`, `or`, `not` and parentheses.
    #[error("the goal is too long")]
    TooLong,
    /// There is no memory for it.
    #[error("there is no memory for the goal")]
    NoMemory,
}

impl From<AllocError> for NoGoal {
    ghost use Rattle.rd_goal.specs.declared.reading.NoGoal.TheVariants.{NoMemory as NoRoom};

    ghost from_gives = { λ _ why. why ≡ NoRoom };

    fn from(_error: AllocError) -> NoGoal {
        NoGoal::NoMemory
    }
}

impl From<NoMemory> for NoGoal {
    ghost use Rattle.rd_goal.specs.declared.reading.NoGoal.TheVariants.{NoMemory as NoRoom};

    ghost from_gives = { λ _ why. why ≡ NoRoom };

    fn from(_error: NoMemory) -> NoGoal {
        NoGoal::NoMemory
    }
}

// What waits for its right operand: an operator, or a parenthesis that is open.
#[derive(Clone, Copy, Default, PartialEq, Eq)]
enum PendingOperator {
    #[default]
    Open,
    Either,
    Both,
    Not,
}

// A goal that is being read: its rows so far, the rows that no other joins yet, and the operators
// that wait. (An operator that binds less than one before it waits for that one.)
#[derive(Drop)]
struct Draft<'r, 'a> {
    reader: GoalReader<'r, 'a>,
    goal: Goal,
    rows: ArrayVec<usize, MAX_ROWS>,
    pending: ArrayVec<PendingOperator, MAX_ROWS>,
}

impl<'r, 'a> Model for Draft<'r, 'a> {
    ghost use Rattle.rd_goal.specs.Goals.{IsGoalOf};
    ghost use Rattle.rd_goal.specs.Reading.{DraftView};

    ghost Value = { DraftView };

    ghost view = { λ d. record {
      words = d.reader;
      rows = d.goal;
      operands = d.rows.items;
      pending = d.pending.items;
    } };

    ghost invariant = { λ d. IsGoalOf d.reader.source.app.runs d.goal };
}

impl PendingOperator {
    // How much it binds: whatever binds as much or more is joined before it.
    fn strength(self) -> u8
        ensures { result ≡ strength_of self }
    {
        match self {
            PendingOperator::Open => 0,
            PendingOperator::Either => 1,
            PendingOperator::Both => 2,
            PendingOperator::Not => 3,
        }
    }
}

impl<'r, 'a> Draft<'r, 'a> {
    fn new(alloc: Global, reader: GoalReader<'r, 'a>) -> Draft<'r, 'a>
        ensures { result ≡ record {
          words = reader.entry;
          rows = [];
          operands = [];
          pending = [];
        } }
    {
        Draft {
            reader,
            goal: Goal::new(alloc),
            rows: ArrayVec::new(),
            pending: ArrayVec::new(),
        }
    }

    // Adds a row, which no other joins yet.
    fn add(&mut self, row: GoalRow) -> Result<(), NoGoal>
        requires { IsRowOf self.old.words.source.app.runs row }
        ensures added { OnOk result (self.new ≡ with_row self.old self.old.operands row) }
        ensures wrong { IfErr result (IsRefusal self.old.words.source) }
        ensures words { self.new.words ≡ self.old.words }
    {
        let number = self.goal.len();
        if number >= MAX_ROWS {
            return Err(NoGoal::TooLong);
        }
        self.goal.add(row)?;
        self.rows.try_push(number).map_err(|_| NoGoal::TooLong)
    }

    // Has an operator wait for its right operand, or for its parenthesis to be closed.
    fn pend(&mut self, operator: PendingOperator) -> Result<(), NoGoal>
        ensures pending { OnOk result (self.new
            ≡ record self.old { pending = self.old.pending ++ operator ∷ [] }) }
        ensures wrong { IfErr result (IsRefusal self.old.words.source) }
        ensures words { self.new.words ≡ self.old.words }
    {
        self.pending.try_push(operator).map_err(|_| NoGoal::TooLong)
    }

    // The last row that no other joins yet.
    fn operand(&mut self) -> usize
        ensures taken { IsTaken self.old self.new result }
        ensures words { self.new.words ≡ self.old.words }
    {
        self.rows.pop().unwrap_or(0)
    }

    // Joins the last rows by an operator.
    fn join(&mut self, operator: PendingOperator) -> Result<(), NoGoal>
        ensures joined { OnOk result (IsJoined operator self.old self.new) }
        ensures wrong { IfErr result (IsRefusal self.old.words.source) }
        ensures words { self.new.words ≡ self.old.words }
    {
        let other = self.operand();
        match operator {
            PendingOperator::Not => self.add(GoalRow::Not { row: other }),
            PendingOperator::Both => {
                let one = self.operand();
                self.add(GoalRow::Both { one, other })
            }
            PendingOperator::Either => {
                let one = self.operand();
                self.add(GoalRow::Either { one, other })
            }
            PendingOperator::Open => Err(NoGoal::Unclosed),
        }
    }

    // Joins by the last operators, as far as they bind so much or more. (Each turn adds a row:
    // there is room for no more turns.)
    fn settle(&mut self, strength: u8) -> Result<(), NoGoal>
        requires { 0 < strength }
        ensures settled { OnOk result ((signs : List Sign) → HasFormula strength self.old signs
            → IsSettled strength self.new signs) }
        ensures wrong { IfErr result (IsRefusal self.old.words.source) }
        ensures words { self.new.words ≡ self.old.words }
    {
        for _ in 0..MAX_ROWS {
            match self.pending.last().copied() {
                Some(operator) if operator.strength() >= strength => {
                    let _ = self.pending.pop();
                    self.join(operator)?;
                }
                Some(_) | None => return Ok(()),
            }
        }
        Err(NoGoal::TooLong)
    }

    // Closes a parenthesis.
    fn close(&mut self) -> Result<(), NoGoal>
        requires { IsLast self.old.words (codes ")") }
        ensures closed { OnOk result ((signs : List Sign) → HasFormula 3 self.old signs
            → HasFormula 3 self.new (signs ++ close_sign ∷ [])) }
        ensures wrong { IfErr result (IsRefusal self.old.words.source) }
        ensures words { self.new.words ≡ self.old.words }
    {
        self.settle(PendingOperator::Either.strength())?;
        let Some(_open) = self.pending.pop() else {
            return Err(self.reader.unopened());
        };
        Ok(())
    }

    // Reads what begins a formula, and answers whether another one is wanted behind it.
    #[tactic(auto, using(crate::proofs::WordLaws::why_refused))]
    fn begin(&mut self) -> Result<bool, NoGoal>
        ensures goes_on { IfOk result (λ is_wanted. (signs : List Sign)
            → IsWanting self.old signs → ReadsOn self.old self.new signs is_wanted) }
        ensures less { IfOk result (λ is_wanted.
            length self.new.words.ahead < length self.old.words.ahead) }
        ensures wrong { IfErr result (IsWhyNot self.old.words.source) }
        ensures ends { IsErrOf result (Ends ClaimWanted) → self.old.words.ahead ≡ [] }
        ensures source { self.new.words.source ≡ self.old.words.source }
    {
        if self.reader.takes(b"not") {
            self.pend(PendingOperator::Not)?;
            return Ok(true);
        }
        if self.reader.takes(b"(") {
            self.pend(PendingOperator::Open)?;
            return Ok(true);
        }
        let claim = claim(&mut self.reader)?;
        self.add(GoalRow::Says { claim })?;
        Ok(false)
    }

    // Reads what follows a formula, and answers whether another one is wanted behind it.
    #[tactic(auto, using(crate::proofs::WordLaws::why_refused))]
    fn go_on(&mut self) -> Result<bool, NoGoal>
        ensures goes_on { IfOk result (λ is_wanted. (signs : List Sign)
            → HasFormula 3 self.old signs → ReadsOn self.old self.new signs is_wanted) }
        ensures less { IfOk result (λ is_wanted.
            length self.new.words.ahead < length self.old.words.ahead) }
        ensures wrong { IfErr result (IsWhyNot self.old.words.source) }
        ensures ends { IsErrOf result (Ends ClaimWanted) → self.old.words.ahead ≡ [] }
        ensures source { self.new.words.source ≡ self.old.words.source }
    {
        match self.reader.joining()? {
            Joining::And => {
                self.settle(PendingOperator::Both.strength())?;
                self.pend(PendingOperator::Both)?;
                Ok(true)
            }
            Joining::Or => {
                self.settle(PendingOperator::Either.strength())?;
                self.pend(PendingOperator::Either)?;
                Ok(true)
            }
            Joining::Close => {
                self.close()?;
                Ok(false)
            }
        }
    }

    // Reads on, where a formula is wanted or one has ended, and answers whether another one is
    // wanted then.
    fn advance(&mut self, is_wanted: bool) -> Result<bool, NoGoal>
        ensures goes_on { IfOk result (λ wants_next. (signs : List Sign)
            → IsAmid is_wanted self.old signs → ReadsOn self.old self.new signs wants_next) }
        ensures less { IfOk result (λ wants_next.
            length self.new.words.ahead < length self.old.words.ahead) }
        ensures wrong { IfErr result (IsWhyNot self.old.words.source) }
        ensures ends { IsErrOf result (Ends ClaimWanted) → self.old.words.ahead ≡ [] }
        ensures source { self.new.words.source ≡ self.old.words.source }
    {
        if is_wanted {
            self.begin()
        } else {
            self.go_on()
        }
    }

    // The goal, where its last formula has ended.
    fn end(self) -> Result<Goal, NoGoal>
        ensures named { IfOk result (IsGoalOf self.entry.words.source.app.runs) }
        ensures read { IfOk result (λ goal. (signs : List Sign) → HasFormula 3 self.entry signs
            → IsRead signs goal) }
        ensures wrong { IfErr result (IsRefusal self.entry.words.source) }
    {
        let mut draft = self;
        draft.settle(PendingOperator::Either.strength())?;
        if draft.pending.is_empty() {
            Ok(draft.goal)
        } else {
            Err(NoGoal::Unclosed)
        }
    }
}

/// The goal that these words are in the application: claims, joined by `not`, `and` and `or`, of
/// which the first binds most and the last least, and by parentheses, each of which is a word. The
/// goal names what the application has. The claims are:
///
/// - a condition of the language: `count Q = N`, `bytes B`, `msgs M`, `bits G`, `reg K R`, `pc K`,
///   `note K I`, `tick`, each with `=`, `<` or `>`, and `phase K NAME`;
/// - `bits G & MASK = V`, `note K I & MASK = V`, `reg K R & MASK = V`, and `reg K R = reg K2 R2`;
/// - `at K N`, `waits K`, `waits K PLACE`, `runs K`, `ended K`, `failed K`, `failed`, `finished`,
///   `asleep`, as `Claim` says. PLACE is `recv Q`, `send Q`, `select S`, `read B`, `write B`, `note
///   I` or `group G`; `sread`, `swrite`, `mread` and `mwrite` say which kind of buffer it is.
///
/// An `Err` says why they are none. `Wanted`: the word with that number isn't what is wanted: no
/// name of such a thing, no number or none so small, none of the words that may stand there.
/// `Either`: that word names a stream buffer and a message buffer. `Unopened`: it is `)`, and
/// closes nothing. `Ends`: the words end too early; where a claim is wanted, there is no word, or
/// the last one is `(`, `not`, `and` or `or`. `Unclosed`, `TooLong` and `NoMemory` are as `NoGoal`
/// says.
pub fn read_goal(alloc: Global, app: &App, words: &[&[u8]]) -> Result<Goal, NoGoal>
    ensures written { IfOk result (IsGoalOfWords app.now (texts words.now)) }
    ensures named { IfOk result (IsGoalOf app.now.runs) }
    ensures wrong { IfErr result (IsWhyNoGoal app.now (texts words.now)) }
    ensures ends { IsErrOf result (Ends ClaimWanted) → IsCutOff (texts words.now) }
{
    let mut draft = Draft::new(alloc, GoalReader::new(app, words));
    let mut is_wanted = true;
    for _ in 0..words.len() {
        if draft.reader.is_over() {
            break;
        }
        is_wanted = draft.advance(is_wanted)?;
    }
    if is_wanted {
        return Err(NoGoal::Ends {
            what: Wanted::Claim,
        });
    }
    draft.end()
}

// Whether a byte ends a word.
fn ends_word(byte: u8) -> bool
    ensures { result ≡ is_space byte || is_parenthesis byte }
{
    byte == b' ' || byte == b'(' || byte == b')'
}

// Adds a part of a text as a word, where it isn't empty.
fn add_word<'a>(words: &mut Vec<&'a [u8]>, part: &'a [u8]) -> Result<(), AllocError>
    ensures { OnOk result (texts words.new.items
        ≡ texts words.old.items ++ word_in part.entry.now) }
{
    if part.is_empty() {
        return Ok(());
    }
    words.push(part)?;
    Ok(())
}

// Adds what stands between two places of a text as a word, and the parenthesis at the second one,
// where one is there.
fn add_words<'a>(
    words: &mut Vec<&'a [u8]>,
    text: &'a [u8],
    begun: usize,
    at: usize,
) -> Result<(), AllocError>
    requires order { begun ≤ at }
    requires within { at < length text.now }
    ensures { OnOk result (texts words.new.items
        ≡ (texts words.old.items ++ word_in (part_of text.entry.now begun at))
        ++ parenthesis_in (slice_index text.entry.now at)) }
{
    add_word(words, &text[begun..at])?;
    if text[at] != b' ' {
        words.push(&text[at..at + 1])?;
    }
    Ok(())
}

/// The words of a text: parentheses are words by themselves, and spaces part the others.
pub fn words_of<'a>(alloc: Global, text: &'a [u8]) -> Result<Vec<&'a [u8]>, AllocError>
    ensures { IfOk result (λ words. texts words.items ≡ words_of (spaced text.entry.now)) }
{
    let mut words = Vec::new(alloc);
    let mut begun = 0;
    for at in 0..text.len() {
        if ends_word(text[at]) {
            add_words(&mut words, text, begun, at)?;
            begun = at + 1;
        }
    }
    add_word(&mut words, &text[begun..])?;
    Ok(words)
}
