//! The engine: an application, where searches of it begin, and what is asked for beside the goal.

ghost use Rattle.std.specs.Prelude.{◌≡◌, ◌⊎◌, ◌++◌, ◌∷◌, [], IfOk, None, OnErr, OnOk, string_bytes};
ghost use Rattle.rd_question.specs.EngineView.{LeadOn, MayCome, view_of};
ghost use Rattle.rd_question.specs.Questions.{IsQuestion};
ghost use Rattle.rd_start.specs.Requests.{IsOfAFile};
ghost use Rattle.rd_question.specs.Said.{BeginsElsewhere, HasOneMore, IsSet, IsWithinLimits};

use crate::asking::{application, respond};
use crate::engine_line::EngineSetting;
use crate::fault::ReachFault;
use crate::handler::{Said, handler_of};
use crate::options::Question;
use crate::planning::schedule_of;
use crate::query::Query;
use crate::start::{lines_of, start_of};
use crate::telling::AskedQuestion;
use rd_goal::reading::words_of;
use rd_names::app::App;
use rd_origin::origin::origin;
use std::alloc::{AllocError, AllocGlobal, Global};
use std::io::Write;
use std::marker::Model;
use std::rt::Files;

/// An application, the command lines that searches of it begin behind, and what is asked for beside
/// the goal: a question that has none.
#[derive(Drop)]
pub(crate) struct Engine<'a> {
    app: App,
    lines: String,
    question: Question<'a>,
}

impl<'a> Model for Engine<'a> {
    ghost use Rattle.std.specs.Prelude.{string_bytes};
    ghost use Rattle.rd_question.specs.EngineView.{EngineView, view_of};
    ghost use Rattle.rd_question.specs.Questions.{IsQuestion};

    ghost Value = { EngineView };

    ghost view = { λ e. view_of e.app (string_bytes e.lines) e.question };

    ghost invariant = { λ e. IsQuestion e.question };
}

// The same lines, of which the last has an end as well.
fn ended(lines: String) -> Result<String, AllocError>
    ensures same { IfOk result (λ ended. (string_bytes ended ≡ string_bytes lines)
        ⊎ (string_bytes ended ≡ string_bytes lines ++ 10 ∷ [])) }
    ensures none { string_bytes lines ≡ [] → IfOk result (λ ended. string_bytes ended ≡ []) }
{
    let mut lines = lines;
    if !lines.is_empty() && !lines.ends_with('\n') {
        lines.push_str("\n")?;
    }
    Ok(lines)
}

// The command lines of a file, or none where there is no path, and that they lead to a start.
fn lines_from<H: Files + AllocGlobal>(
    handle: &H,
    app: &App,
    path: Option<&str>,
) -> Result<String, ReachFault>
    ensures boot { path.entry ≡ None → IfOk result (λ lines. string_bytes lines ≡ []) }
    ensures leads { IfOk result (λ lines. LeadOn app.now (string_bytes lines)) }
{
    let lines = ended(lines_of(handle, path)?)?;
    let _start = start_of(handle.alloc(), app, path, lines.as_str())?;
    Ok(lines)
}

impl<'a> Engine<'a> {
    /// The engine that begins with what a question asks for, whose goal is passed over. `File` where
    /// there is no application in its file, `Lines` and `Start` where the command lines lead to no
    /// start, `Isr` where an interrupt is none that may come, `NoMemory` where there is none for it.
    pub(crate) fn new<H: Files + AllocGlobal>(
        handle: &H,
        question: Question<'a>,
    ) -> Result<Engine<'a>, ReachFault>
        requires { IsQuestion question }
        ensures asked { IfOk result (λ engine.
            engine ≡ view_of engine.app engine.lines question.entry) }
        ensures file { IfOk result (λ engine. IsOfAFile engine.app) }
        ensures boot { question.entry.from ≡ None → IfOk result (λ engine. engine.lines ≡ []) }
        ensures leads { IfOk result (λ engine. LeadOn engine.app engine.lines) }
        ensures isrs { IfOk result (λ engine. MayCome engine.app engine.isrs) }
    {
        let app = application(handle, question.file)?;
        let lines = lines_from(handle, &app, question.from)?;
        let _schedule = schedule_of(handle.alloc(), &app, &question)?;
        Ok(Engine {
            app,
            lines,
            question,
        })
    }

    /// From now on searches begin at boot.
    pub(crate) fn begin_at_boot(&mut self)
        ensures { self.new ≡ record self.old { lines = [] } }
    {
        self.lines.clear();
    }

    /// From now on searches begin behind the command lines of this file. `Lines` where the file has
    /// none, `Start` where one of them is no command or is refused, `NoMemory` where there is none to
    /// read them; nothing has changed then.
    pub(crate) fn begin_behind<H: Files + AllocGlobal>(
        &mut self,
        handle: &H,
        path: &str,
    ) -> Result<(), ReachFault>
        ensures begins { OnOk result (BeginsElsewhere self.old self.new) }
        ensures err { OnErr result (self.new ≡ self.old) }
    {
        self.lines = lines_from(handle, &self.app, Some(path))?;
        Ok(())
    }

    /// From now on searches begin behind one command line more, which comes last. `Command` where it
    /// is no command or is refused there, `NoMemory` where there is none for it; nothing has changed
    /// then.
    pub(crate) fn add_command(&mut self, alloc: Global, command: &str) -> Result<(), ReachFault>
        ensures added { OnOk result (self.new
            ≡ record self.old { lines = self.old.lines ++ (command.now ++ 10 ∷ []) }) }
        ensures leads { OnOk result (LeadOn self.new.app self.new.lines) }
        ensures err { OnErr result (self.new ≡ self.old) }
    {
        let lines = format!(in alloc; "{}{command}\n", self.lines)?;
        let _start = origin(alloc, &self.app, lines.as_str())?;
        self.lines = lines;
        Ok(())
    }

    // One interrupt more may come.
    fn add_isr(&mut self, alloc: Global, said: Said<'_>) -> Result<(), ReachFault>
        ensures added { OnOk result (HasOneMore said.entry self.old self.new) }
        ensures err { OnErr result (self.new ≡ self.old) }
    {
        let handler = handler_of(alloc, said, self.question.isrs.as_slice())?;
        self.question.isrs.push(handler)?;
        match schedule_of(alloc, &self.app, &self.question) {
            Ok(_schedule) => Ok(()),
            Err(fault) => {
                self.question.isrs.pop();
                Err(ReachFault::from(fault))
            }
        }
    }

    /// Makes a setting. `Isr` where an interrupt is none that may come, and `NoMemory` where there is
    /// none for it; nothing has changed then.
    pub(crate) fn set(
        &mut self,
        alloc: Global,
        setting: EngineSetting<'_>,
    ) -> Result<(), ReachFault>
        requires { IsWithinLimits setting }
        ensures made { OnOk result (IsSet setting.entry self.old self.new) }
        ensures err { OnErr result (self.new ≡ self.old) }
    {
        match setting {
            EngineSetting::Pace { pace } => {
                self.question.pace = pace;
                Ok(())
            }
            EngineSetting::Surprises { most } => {
                self.question.surprises = most;
                Ok(())
            }
            EngineSetting::Moves { most } => {
                self.question.moves = most;
                Ok(())
            }
            EngineSetting::States { most } => {
                self.question.states = most;
                Ok(())
            }
            EngineSetting::Memory { most } => {
                self.question.memory = most;
                Ok(())
            }
            EngineSetting::Exact { exact } => {
                self.question.exact = exact;
                Ok(())
            }
            EngineSetting::Isr { said } => self.add_isr(alloc, said),
            EngineSetting::NoIsrs => {
                self.question.isrs.clear();
                Ok(())
            }
        }
    }

    /// Answers what is asked of the goal of these words, and tells the answer, as `respond` does,
    /// whose refusals these are.
    pub(crate) fn ask<W: Write, E: Write>(
        &self,
        alloc: Global,
        query: Query,
        goal: &str,
        writer: &mut W,
        errors: &mut E,
    ) -> Result<(), ReachFault> {
        let words = words_of(alloc, goal.as_bytes())?;
        let asked = AskedQuestion {
            app: &self.app,
            lines: self.lines.as_str(),
            question: &self.question,
        };
        let _status = respond(alloc, &asked, query, words.as_slice(), writer, errors)?;
        Ok(())
    }
}
