//! The words of a goal, looked up in an application one after another.

ghost use Rattle.std.specs.Prelude.{◌≡◌, ◌≢◌, ◌<◌, ◌∷◌, ℕ, List, [], codes, false, length, nat_eq};
ghost use Rattle.std.specs.Prelude.{is_some, not, true, IfErr, IfNone, IfOk, IfSome};
ghost use Rattle.rd_app.specs.declared.instr.TheConstants.{REGISTERS};
ghost use Rattle.rd_names.specs.Names.{names_of};
ghost use Rattle.rd_text.specs.Words.{texts};
ghost use Rattle.rd_text.specs.declared.kind.Kind.TheVariants as kind;
ghost use Rattle.rd_goal.specs.Reading.{IsLast, IsRefusal, Reads, is_name_next, is_next};
ghost use Rattle.rd_goal.specs.Reading.{is_operand_next, joining_word, unread};
ghost use Rattle.rd_goal.specs.declared.reading.NoGoal.TheVariants.{Ends};
ghost use Rattle.rd_goal.specs.Written.{IsNameOf, IsNoneBelow, IsNoneOf, IsNot, IsWrongAt};
ghost use Rattle.rd_goal.specs.Written.{Itself, Named, Numeral, comparison_word, joining_words};
ghost use Rattle.rd_goal.specs.Written.{phase_word};

use crate::reading::{NoGoal, Wanted};
use rd_app::instr::REGISTERS;
use rd_condition::condition::{Comparison, PhaseName};
use rd_names::app::App;
use rd_text::kind::Kind;
use rd_text::words::{name, number};
use std::marker::Model;

/// What stands behind a formula.
#[derive(Clone, Copy)]
pub(crate) enum Joining {
    /// `and`
    And,
    /// `or`
    Or,
    /// `)`
    Close,
}

/// Reads the words of a goal, which stands in this application.
#[derive(Drop)]
pub(crate) struct GoalReader<'r, 'a> {
    app: &'r App,
    words: &'r [&'a [u8]],
    // how many of the words are read
    read: usize,
}

impl<'r, 'a> Model for GoalReader<'r, 'a> {
    ghost use Rattle.std.specs.Prelude.{◌≤◌, drop, length};
    ghost use Rattle.rd_text.specs.Words.{texts};
    ghost use Rattle.rd_goal.specs.Reading.{WordsView};

    ghost Value = { WordsView };

    ghost view = { λ r. record {
      source = record { app = r.app.now; words = texts r.words.now };
      read = r.read;
      ahead = drop r.read (texts r.words.now);
    } };

    ghost invariant = { λ r. r.read ≤ length r.words.now };
}

// How amounts are compared that are compared by this word.
fn comparison_of(word: &[u8]) -> Option<Comparison>
    ensures said { IfSome result (λ comparison. word.now ≡ comparison_word comparison) }
    ensures other { IfNone result ((comparison : Comparison)
        → word.now ≢ comparison_word comparison) }
{
    match word {
        b"=" => Some(Comparison::Equal),
        b"<" => Some(Comparison::Less),
        b">" => Some(Comparison::Greater),
        _ => None,
    }
}

// What is called so of phases.
fn phase_of(word: &[u8]) -> Option<PhaseName>
    ensures said { IfSome result (λ name. word.now ≡ phase_word name) }
    ensures other { IfNone result ((name : PhaseName) → word.now ≢ phase_word name) }
{
    match word {
        b"run" => Some(PhaseName::Run),
        b"again" => Some(PhaseName::Again),
        b"given" => Some(PhaseName::Given),
        b"wait" => Some(PhaseName::Wait),
        b"ended" => Some(PhaseName::Ended),
        b"failed" => Some(PhaseName::Failed),
        _ => None,
    }
}

// What this word is behind a formula.
fn joining_of(word: &[u8]) -> Option<Joining>
    ensures said { IfSome result (λ joining. word.now ≡ joining_word joining) }
    ensures other { IfNone result (IsNoneOf joining_words word.now) }
{
    match word {
        b"and" => Some(Joining::And),
        b"or" => Some(Joining::Or),
        b")" => Some(Joining::Close),
        _ => None,
    }
}

impl<'r, 'a> GoalReader<'r, 'a> {
    /// Reads these words in this application.
    pub(crate) fn new(app: &'r App, words: &'r [&'a [u8]]) -> GoalReader<'r, 'a>
        ensures { result ≡ unread app.now (texts words.now) }
    {
        GoalReader {
            app,
            words,
            read: 0,
        }
    }

    /// The application.
    pub(crate) fn app(&self) -> &'r App
        ensures { result.now ≡ self.now.source.app }
    {
        self.app
    }

    /// Whether all words are read.
    pub(crate) fn is_over(&self) -> bool
        ensures { result ≡ nat_eq (length self.now.ahead) 0 }
    {
        self.read == self.words.len()
    }

    /// Whether the word that comes next is this one.
    pub(crate) fn is_ahead(&self, wanted: &[u8]) -> bool
        ensures { result ≡ is_next self.now.ahead wanted.now }
    {
        match self.words.get(self.read) {
            Some(word) => *word == wanted,
            None => false,
        }
    }

    /// Whether the word that comes next belongs to the claim that is being read: there is one, and
    /// it doesn't join the claim to others.
    pub(crate) fn is_at_operand(&self) -> bool
        ensures { result ≡ is_operand_next self.now.ahead }
    {
        !self.is_over() && !self.is_ahead(b"and") && !self.is_ahead(b"or") && !self.is_ahead(b")")
    }

    /// That word, which is read now, if there is such a one.
    pub(crate) fn operand(&mut self) -> Option<&'a [u8]>
        ensures operand { is_some result ≡ is_operand_next self.old.ahead }
        ensures read { IfSome result (λ word. self.old.ahead ≡ word.now ∷ self.new.ahead) }
        ensures last { IfSome result (λ word. IsLast self.new word.now) }
        ensures stays { IfNone result (self.new ≡ self.old) }
        ensures source { self.new.source ≡ self.old.source }
    {
        if !self.is_at_operand() {
            return None;
        }
        match self.words.get(self.read) {
            Some(word) => {
                self.read += 1;
                Some(*word)
            }
            None => None,
        }
    }

    /// Whether the word that comes next is the name of a stream buffer, and of no message buffer,
    /// or the other way round.
    pub(crate) fn names_stream(&self) -> Result<bool, NoGoal>
        ensures stream { IfOk result (λ is_stream.
            is_stream ≡ not (is_name_next kind.Message self.now.source.app self.now.ahead)) }
        ensures wrong { IfErr result (IsRefusal self.now.source) }
    {
        let Some(word) = self.words.get(self.read) else {
            return Ok(true);
        };
        let Some(name) = name(word) else {
            return Ok(true);
        };
        let is_stream = self.app.find(Kind::Stream, name).is_some();
        let is_message = self.app.find(Kind::Message, name).is_some();
        if is_stream && is_message {
            return Err(NoGoal::Either { at: self.read + 1 });
        }
        Ok(!is_message)
    }

    /// Reads the word that comes next, and answers whether it is this one; if not, it stays.
    pub(crate) fn takes(&mut self, wanted: &[u8]) -> bool
        ensures read { result ≡ true → self.old.ahead ≡ wanted.now ∷ self.new.ahead }
        ensures stays { result ≡ false → self.new ≡ self.old }
        ensures other { (rest : List (List ℕ)) → result ≡ false
            → self.old.ahead ≢ wanted.now ∷ rest }
        ensures source { self.new.source ≡ self.old.source }
    {
        match self.words.get(self.read) {
            Some(word) if *word == wanted => {
                self.read += 1;
                true
            }
            Some(_) | None => false,
        }
    }

    /// That something else was wanted than the word that was read last.
    pub(crate) fn wanted(&self, what: Wanted) -> NoGoal
        requires { IsWrongAt self.now.source.app self.now.source.words what self.now.read }
        ensures { IsRefusal self.now.source result }
    {
        NoGoal::Wanted {
            what,
            at: self.read,
        }
    }

    /// That the parenthesis that was read last closes none.
    pub(crate) fn unopened(&self) -> NoGoal
        requires { IsLast self.now (codes ")") }
        ensures { IsRefusal self.now.source result }
    {
        NoGoal::Unopened { at: self.read }
    }

    /// The next word, where something is wanted.
    pub(crate) fn next(&mut self, what: Wanted) -> Result<&'a [u8], NoGoal>
        ensures read { IfOk result (λ word. self.old.ahead ≡ word.now ∷ self.new.ahead) }
        ensures last { IfOk result (λ word. IsLast self.new word.now) }
        ensures ends { IfErr result (λ why. (why ≡ Ends what) × (self.old.ahead ≡ [])) }
        ensures wrong { what ≢ Wanted.Claim → IfErr result (IsRefusal self.old.source) }
        ensures source { self.new.source ≡ self.old.source }
    {
        match self.words.get(self.read) {
            Some(word) => {
                self.read += 1;
                Ok(*word)
            }
            None => Err(NoGoal::Ends { what }),
        }
    }

    /// The next word, as a number.
    pub(crate) fn number(&mut self) -> Result<u32, NoGoal>
        ensures read { IfOk result (λ number. Reads (Numeral number ∷ []) self.old self.new) }
        ensures wrong { IfErr result (IsRefusal self.old.source) }
        ensures source { self.new.source ≡ self.old.source }
    {
        let word = self.next(Wanted::Number)?;
        match number(word) {
            Some(number) => Ok(number),
            None => Err(self.wanted(Wanted::Number)),
        }
    }

    // The next word, as a number below a limit.
    fn below(&mut self, limit: usize, what: Wanted) -> Result<usize, NoGoal>
        requires inside { what ≢ Wanted.Claim }
        requires limit { (word : List ℕ) → IsNoneBelow limit word
            → IsNot self.old.source.app what word }
        ensures below { IfOk result (λ number. number < limit) }
        ensures read { IfOk result (λ number. Reads (Numeral number ∷ []) self.old self.new) }
        ensures wrong { IfErr result (IsRefusal self.old.source) }
        ensures source { self.new.source ≡ self.old.source }
    {
        let word = self.next(what)?;
        match number(word) {
            Some(number) if (number as usize) < limit => Ok(number as usize),
            _ => Err(self.wanted(what)),
        }
    }

    /// The next word, as a register.
    pub(crate) fn register(&mut self) -> Result<usize, NoGoal>
        ensures register { IfOk result (λ register. register < REGISTERS) }
        ensures read { IfOk result (λ register. Reads (Numeral register ∷ []) self.old self.new) }
        ensures wrong { IfErr result (IsRefusal self.old.source) }
        ensures source { self.new.source ≡ self.old.source }
    {
        self.below(REGISTERS, Wanted::Register)
    }

    /// The next word, as the index of a notification entry.
    pub(crate) fn index(&mut self) -> Result<usize, NoGoal>
        ensures index { IfOk result (λ index. index < self.old.source.app.runs.entries) }
        ensures read { IfOk result (λ index. Reads (Numeral index ∷ []) self.old self.new) }
        ensures wrong { IfErr result (IsRefusal self.old.source) }
        ensures source { self.new.source ≡ self.old.source }
    {
        let entries = self.app.program().entries();
        self.below(entries, Wanted::Index)
    }

    /// The next word, as the number of an instruction of the task's script.
    pub(crate) fn instruction(&mut self, task: usize) -> Result<usize, NoGoal>
        requires { task < length self.old.source.app.runs.tasks }
        ensures read { IfOk result (λ pc. Reads (Numeral pc ∷ []) self.old self.new) }
        ensures wrong { IfErr result (IsRefusal self.old.source) }
        ensures source { self.new.source ≡ self.old.source }
    {
        let instructions = self.app.code(task).len();
        self.below(instructions, Wanted::Instruction)
    }

    // The next word, as the number of the thing of that kind that it names.
    fn named(&mut self, kind: Kind, what: Wanted) -> Result<usize, NoGoal>
        requires inside { what ≢ Wanted.Claim }
        requires kind { (word : List ℕ) → ¬ IsNameOf self.old.source.app kind word
            → IsNot self.old.source.app what word }
        ensures named { IfOk result (λ number.
            number < length (names_of kind self.old.source.app.names)) }
        ensures read { IfOk result (λ number. Reads (Named kind number ∷ []) self.old self.new) }
        ensures wrong { IfErr result (IsRefusal self.old.source) }
        ensures source { self.new.source ≡ self.old.source }
    {
        let word = self.next(what)?;
        self.app.limits();
        let Some(name) = name(word) else {
            return Err(self.wanted(what));
        };
        match self.app.find(kind, name) {
            Some(number) => Ok(number),
            None => Err(self.wanted(what)),
        }
    }

    /// The next word, as a queue.
    pub(crate) fn queue(&mut self) -> Result<usize, NoGoal>
        ensures queue { IfOk result (λ queue.
            queue < length self.old.source.app.runs.objects.queues) }
        ensures read { IfOk result (λ queue.
            Reads (Named kind.Queue queue ∷ []) self.old self.new) }
        ensures wrong { IfErr result (IsRefusal self.old.source) }
        ensures source { self.new.source ≡ self.old.source }
    {
        self.app.limits();
        self.named(Kind::Queue, Wanted::Queue)
    }

    /// The next word, as a queue set.
    pub(crate) fn queue_set(&mut self) -> Result<usize, NoGoal>
        ensures queue_set { IfOk result (λ queue_set.
            queue_set < length self.old.source.app.runs.objects.queue_sets) }
        ensures read { IfOk result (λ queue_set.
            Reads (Named kind.QueueSet queue_set ∷ []) self.old self.new) }
        ensures wrong { IfErr result (IsRefusal self.old.source) }
        ensures source { self.new.source ≡ self.old.source }
    {
        self.app.limits();
        self.named(Kind::QueueSet, Wanted::QueueSet)
    }

    /// The next word, as a stream buffer.
    pub(crate) fn stream(&mut self) -> Result<usize, NoGoal>
        ensures stream { IfOk result (λ stream.
            stream < length self.old.source.app.runs.objects.streams) }
        ensures read { IfOk result (λ stream.
            Reads (Named kind.Stream stream ∷ []) self.old self.new) }
        ensures wrong { IfErr result (IsRefusal self.old.source) }
        ensures source { self.new.source ≡ self.old.source }
    {
        self.app.limits();
        self.named(Kind::Stream, Wanted::Stream)
    }

    /// The next word, as a message buffer.
    pub(crate) fn message(&mut self) -> Result<usize, NoGoal>
        ensures message { IfOk result (λ message.
            message < length self.old.source.app.runs.objects.messages) }
        ensures read { IfOk result (λ message.
            Reads (Named kind.Message message ∷ []) self.old self.new) }
        ensures wrong { IfErr result (IsRefusal self.old.source) }
        ensures source { self.new.source ≡ self.old.source }
    {
        self.app.limits();
        self.named(Kind::Message, Wanted::Message)
    }

    /// The next word, as an event group.
    pub(crate) fn group(&mut self) -> Result<usize, NoGoal>
        ensures group { IfOk result (λ group.
            group < length self.old.source.app.runs.objects.groups) }
        ensures read { IfOk result (λ group.
            Reads (Named kind.Group group ∷ []) self.old self.new) }
        ensures wrong { IfErr result (IsRefusal self.old.source) }
        ensures source { self.new.source ≡ self.old.source }
    {
        self.app.limits();
        self.named(Kind::Group, Wanted::Group)
    }

    /// The next word, as a task.
    pub(crate) fn task(&mut self) -> Result<usize, NoGoal>
        ensures task { IfOk result (λ task. task < length self.old.source.app.runs.tasks) }
        ensures read { IfOk result (λ task. Reads (Named kind.Task task ∷ []) self.old self.new) }
        ensures wrong { IfErr result (IsRefusal self.old.source) }
        ensures source { self.new.source ≡ self.old.source }
    {
        self.app.limits();
        self.named(Kind::Task, Wanted::Task)
    }

    /// The next word, as how amounts are compared.
    pub(crate) fn comparison(&mut self) -> Result<Comparison, NoGoal>
        ensures read { IfOk result (λ comparison.
            Reads (Itself (comparison_word comparison) ∷ []) self.old self.new) }
        ensures wrong { IfErr result (IsRefusal self.old.source) }
        ensures source { self.new.source ≡ self.old.source }
    {
        match comparison_of(self.next(Wanted::Comparison)?) {
            Some(comparison) => Ok(comparison),
            None => Err(self.wanted(Wanted::Comparison)),
        }
    }

    /// The next word, as what stands behind a formula.
    pub(crate) fn joining(&mut self) -> Result<Joining, NoGoal>
        ensures read { IfOk result (λ joining.
            Reads (Itself (joining_word joining) ∷ []) self.old self.new) }
        ensures last { IfOk result (λ joining. IsLast self.new (joining_word joining)) }
        ensures wrong { IfErr result (IsRefusal self.old.source) }
        ensures source { self.new.source ≡ self.old.source }
    {
        match joining_of(self.next(Wanted::Join)?) {
            Some(joining) => Ok(joining),
            None => Err(self.wanted(Wanted::Join)),
        }
    }

    /// The next word, as what a phase is called.
    pub(crate) fn phase(&mut self) -> Result<PhaseName, NoGoal>
        ensures read { IfOk result (λ name.
            Reads (Itself (phase_word name) ∷ []) self.old self.new) }
        ensures wrong { IfErr result (IsRefusal self.old.source) }
        ensures source { self.new.source ≡ self.old.source }
    {
        match phase_of(self.next(Wanted::Phase)?) {
            Some(name) => Ok(name),
            None => Err(self.wanted(Wanted::Phase)),
        }
    }
}
