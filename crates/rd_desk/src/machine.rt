//! The sequential debugger without its history: what each event makes of it, and what is replied.

ghost use Rattle.std.specs.Prelude.{◌≡◌, ◌↔◌, ◌+◌, ◌<◌, [], length, slice_set, true};
ghost use Rattle.std.specs.Prelude.{IfOk, IfSome, IsErr, IsSome, IsTrue, OnErr, Ok};
ghost use Rattle.rd_command.specs.Bindings.{IsBoundOf, IsViewOf, known_of};
ghost use Rattle.rd_command.specs.Keywords.{carrying};
ghost use Rattle.rd_command.specs.declared.binding.Bound.TheVariants as bound;
ghost use Rattle.rd_condition.specs.Conditions.{IsConditionOf};
ghost use Rattle.rd_moves.specs.Requests.{IsRequestOf};
ghost use Rattle.rd_timeline.specs.History.{state_after};
ghost use Rattle.rd_timeline.specs.Runs.{kept, may_make_moves};
ghost use Rattle.rd_desk.specs.Debugger.{freed, is_holder, opening, other_holder, own_watches};
ghost use Rattle.rd_desk.specs.Debugger.{target_of, watching};
ghost use Rattle.rd_desk.specs.DeskView.{LeadsBack};
ghost use Rattle.rd_desk.specs.HistoryView.{IsView};
ghost use Rattle.rd_desk.specs.Kept.{IsNarrow, IsShort};
ghost use Rattle.rd_desk.specs.Memory.{is_text, makes_moves, needs_memory, NeedsMemory};
ghost use Rattle.rd_desk.specs.Serving.{after_request, entered, held_by, left, overview_of};
ghost use Rattle.rd_desk.specs.Serving.{refused, reply_to_request, shown, view_of};
ghost use Rattle.rd_desk.specs.Serving.{IsAnswered, IsDone};
ghost use Rattle.rd_desk.specs.Sessions.{IsPresent, present_count, watch_count};
ghost use Rattle.rd_desk.specs.Views.{AreNamesOf, text_shown};

use crate::reply::DeskReply;
use crate::sessions::{MAX_JOINS, Sessions};
use crate::showing::{show, show_all_watches};
use crate::text::Text;
use rd_app::app::Program;
use rd_bytes::no_memory::NoMemory;
use rd_command::binding::Bound;
use rd_command::digits::{Digits, own};
use rd_command::order::Order;
use rd_command::view::{Overview, View};
use rd_condition::condition::Condition;
use rd_moves::carried::{Carried, Lent};
use rd_moves::moves::Move;
use rd_moves::request::{Request, Search};
use rd_names::app::App;
use rd_names::names::Names;
use rd_refusal::refusal::Refusal;
use rd_reply::reply::Reply as Short;
use rd_state::state::State;
use rd_timeline::timeline::Timeline;
use std::alloc::Global;
use std::marker::Model;

/// The sequential debugger without its history. It can't be dropped: it ends in `close`.
pub struct DeskMachine {
    alloc: Global,
    timeline: Timeline,
    names: Names,
    wheel: Option<u32>,
    sessions: Sessions,
}

impl Model for DeskMachine {
    ghost use Rattle.rd_desk.specs.Debugger.{MachineView};

    ghost Value = { MachineView };

    ghost use Rattle.rd_desk.specs.MachineInside.{machine_of, IsMachine};

    ghost view = { machine_of };

    ghost invariant = { IsMachine };
}

// A command was refused.
fn refused(refusal: Refusal) -> DeskReply
    ensures { result ≡ refused refusal }
{
    DeskReply::Told {
        told: Short::Refused { refusal },
    }
}

fn told(told: Short) -> DeskReply
    ensures { result ≡ DeskReply.Told told }
{
    DeskReply::Told { told }
}

// Another session that has the wheel, if one has.
fn other_holder(wheel: Option<u32>, who: u32) -> Option<u32>
    ensures { result ≡ other_holder wheel who }
{
    match wheel {
        Some(holder) if holder != who => Some(holder),
        _ => None,
    }
}

// Whether the session has the wheel.
fn is_holder(wheel: Option<u32>, who: u32) -> bool
    ensures { result ≡ is_holder wheel who }
{
    match wheel {
        Some(holder) => holder == who,
        None => false,
    }
}

// Who has the wheel once the session has given it or left.
fn freed(wheel: Option<u32>, who: u32) -> Option<u32>
    ensures { result ≡ freed wheel who }
{
    if is_holder(wheel, who) { None } else { wheel }
}

impl DeskMachine {
    /// A debugger at its opening, for so many moves. A refusal drops the application.
    pub fn new(alloc: Global, app: App, moves: u32) -> Result<DeskMachine, NoMemory>
        ensures { IfOk result (λ machine. machine ≡ record {
          debugger = opening app moves;
          log = [];
        }) }
    {
        app.limits();
        let sessions = Sessions::new(alloc)?;
        let (program, names) = app.split();
        let timeline = Timeline::new(alloc, program, moves as usize)?;
        Ok(DeskMachine {
            alloc,
            timeline,
            names,
            wheel: None,
            sessions,
        })
    }

    /// For contracts alone: the moves done, and not undone, give the target from the start, and the
    /// records that it holds, those of the last ones from the base on, lead back from it. There are
    /// as many names as things in it, and fewer than 4,294,967,296 moves, done and undone.
    pub fn by_invariant(&self)
        ensures leads { state_after self.now.debugger.app.runs self.now.debugger.moves.done
            ≡ Ok (target_of self.now.debugger) }
        ensures leads_back { LeadsBack self.now.debugger.app.runs self.now.debugger.moves
            (target_of self.now.debugger) self.now.log }
        ensures paired { AreNamesOf (target_of self.now.debugger) self.now.debugger.app.names }
        ensures few { IsShort
            (length self.now.debugger.moves.done + length self.now.debugger.moves.undone) }
    {
        self.timeline.by_invariant();
    }

    /// The target.
    pub fn target(&self) -> &State
        ensures { result.now ≡ target_of self.now.debugger }
    {
        self.timeline.by_invariant();
        self.timeline.target()
    }

    /// What runs.
    pub fn program(&self) -> &Program
        ensures { result.now ≡ self.now.debugger.app.runs }
    {
        self.timeline.app()
    }

    /// What it is called.
    pub fn names(&self) -> &Names
        ensures { result.now ≡ self.now.debugger.app.names }
    {
        &self.names
    }

    /// How many sessions have entered.
    pub fn joins(&self) -> usize
        ensures { result ≡ length self.now.debugger.sessions }
    {
        self.sessions.joins()
    }

    /// How many sessions are present.
    pub fn present(&self) -> usize
        ensures { result ≡ present_count self.now.debugger.sessions }
    {
        self.sessions.present()
    }

    /// Whether a session has entered, and not left.
    pub fn is_present(&self, who: u32) -> bool
        ensures { IsTrue result ↔ IsPresent self.now.debugger.sessions who }
    {
        self.sessions.is_present(who)
    }

    /// How many moves are done.
    pub fn done(&self) -> usize
        ensures { result ≡ length self.now.debugger.moves.done }
    {
        self.timeline.at()
    }

    /// How many moves are undone.
    pub fn undone(&self) -> usize
        ensures { result ≡ length self.now.debugger.moves.undone }
    {
        self.timeline.left()
    }

    /// How many moves have a record kept, by which they can be taken back: the last ones done.
    pub fn kept(&self) -> usize
        ensures { result ≡ kept self.now.debugger.moves }
    {
        self.timeline.by_invariant();
        self.timeline.kept()
    }

    /// The session that has the wheel, if one has.
    pub fn wheel(&self) -> Option<u32>
        ensures { result ≡ self.now.debugger.wheel }
    {
        self.wheel
    }

    /// How many watches the sessions that are present keep together.
    pub fn watch_count(&self) -> usize
        ensures { result ≡ watch_count self.now.debugger.sessions }
    {
        self.sessions.watch_count()
    }

    /// A session enters. The moves and their records stay. It takes no memory.
    pub fn enter(&mut self)
        requires { length self.old.debugger.sessions < MAX_JOINS }
        ensures entered { self.new.debugger ≡ entered self.old.debugger }
        ensures log { self.new.log ≡ self.old.log }
        ensures present { present_count self.new.debugger.sessions
            ≡ present_count self.old.debugger.sessions + 1 }
    {
        self.sessions.join();
    }

    /// A session leaves, and has no wheel and no watches any more. The moves and their records
    /// stay. It takes no memory.
    pub fn leave(&mut self, who: u32)
        requires { IsPresent self.old.debugger.sessions who }
        ensures left { self.new.debugger ≡ left self.old.debugger who }
        ensures log { self.new.log ≡ self.old.log }
        ensures present { present_count self.new.debugger.sessions + 1
            ≡ present_count self.old.debugger.sessions }
    {
        self.wheel = freed(self.wheel, who);
        self.sessions.leave(who);
    }

    // Asks the timeline.
    #[inline(never)]
    fn ask(&mut self, request: &Request<Lent<'_>>) -> Result<DeskReply, NoMemory>
        requires { IsRequestOf self.old.debugger.app.runs request.now }
        ensures after { IfOk result
            (λ reply. self.new.debugger ≡ after_request self.old.debugger request.now) }
        ensures reply { IfOk result
            (λ reply. reply ≡ reply_to_request self.old.debugger request.now) }
        ensures shown { IfOk result (λ reply. IsView reply → self.new.log ≡ self.old.log) }
        ensures no_memory { OnErr result (may_make_moves request.now ≡ true) }
        ensures err { OnErr result (self.new ≡ self.old) }
    {
        let answer = self.timeline.answer(request)?;
        Ok(told(Short::of(answer)))
    }

    // Asks the timeline for a move, with what it carries, whose bytes are read here and stand here
    // meanwhile.
    #[inline(never)]
    fn carry(&mut self, carried: &Carried<Digits<'_>>) -> Result<DeskReply, NoMemory>
        requires { IsRequestOf self.old.debugger.app.runs (carrying carried.now) }
        ensures after { IfOk result
            (λ reply. self.new.debugger ≡ after_request self.old.debugger (carrying carried.now)) }
        ensures reply { IfOk result
            (λ reply. reply ≡ reply_to_request self.old.debugger (carrying carried.now)) }
        ensures shown { IfOk result (λ reply. IsView reply → self.new.log ≡ self.old.log) }
        ensures err { OnErr result (self.new ≡ self.old) }
    {
        let carried = own(carried);
        let carried = Lent::new(&carried);
        self.ask(&Request::Go {
            action: Move::Carried { carried },
        })
    }

    // Asks the timeline to search for the condition of a watch.
    #[inline(never)]
    fn ask_by_watch(
        &mut self,
        who: u32,
        watch: usize,
        search: Search,
    ) -> Result<DeskReply, NoMemory>
        requires { IsPresent self.old.debugger.sessions who }
        ensures ok { IfOk result (IsDone self.old.debugger who (bound.AsksByWatch watch search)
            self.new.debugger) }
        ensures shown { IfOk result (λ reply. IsView reply → self.new.log ≡ self.old.log) }
        ensures no_memory { OnErr result (makes_moves search ≡ true) }
        ensures err { OnErr result (self.new ≡ self.old) }
    {
        match self.sessions.watches(who).condition(watch) {
            Some(condition) => self.ask(&search.request(condition)),
            None => Ok(refused(Refusal::NoWatch)),
        }
    }

    // The session takes the wheel, which no other has.
    #[inline(never)]
    fn take_wheel(&mut self, who: u32) -> DeskReply
        ensures done { IsDone self.old.debugger who bound.TakesWheel self.new.debugger result }
        ensures log { self.new.log ≡ self.old.log }
    {
        self.wheel = Some(who);
        told(Short::Wheel)
    }

    // The session gives the wheel, if it has it.
    #[inline(never)]
    fn give_wheel(&mut self, who: u32) -> DeskReply
        ensures done { IsDone self.old.debugger who bound.GivesWheel self.new.debugger result }
        ensures log { self.new.log ≡ self.old.log }
    {
        if is_holder(self.wheel, who) {
            self.wheel = None;
            told(Short::Wheel)
        } else {
            refused(Refusal::NotHolder)
        }
    }

    // Puts a watch, or none, at a number of the session.
    fn put_watch(&mut self, who: u32, number: usize, slot: Option<Condition>)
        requires there { IsPresent self.old.debugger.sessions who }
        requires number { number < length (own_watches self.old.debugger who) }
        requires named { IfSome slot (IsConditionOf self.old.debugger.app.runs) }
        ensures watching { self.new.debugger ≡ watching self.old.debugger who
            (slice_set (own_watches self.old.debugger who) number slot) }
        ensures log { self.new.log ≡ self.old.log }
    {
        let watches = self.sessions.watches(who).with(number, slot);
        self.sessions.set_watches(who, watches);
    }

    // The session keeps a condition, at the least number that is free.
    #[inline(never)]
    fn watch(&mut self, who: u32, condition: Condition) -> DeskReply
        requires there { IsPresent self.old.debugger.sessions who }
        requires named { IsConditionOf self.old.debugger.app.runs condition }
        ensures done { IsDone self.old.debugger who (bound.Keeps condition)
            self.new.debugger result }
        ensures log { self.new.log ≡ self.old.log }
    {
        match self.sessions.watches(who).free() {
            Some(number) => {
                self.put_watch(who, number, Some(condition));
                told(Short::Watch { number })
            }
            None => refused(Refusal::WatchesFull),
        }
    }

    // The session drops the watch with that number, if it has it.
    #[inline(never)]
    fn unwatch(&mut self, who: u32, number: usize) -> DeskReply
        requires { IsPresent self.old.debugger.sessions who }
        ensures done { IsDone self.old.debugger who (bound.Drops number) self.new.debugger result }
        ensures log { self.new.log ≡ self.old.log }
    {
        if self.sessions.watches(who).condition(number).is_some() {
            self.put_watch(who, number, None);
            told(Short::Watch { number })
        } else {
            refused(Refusal::NoWatch)
        }
    }

    // A view of the target.
    #[inline(never)]
    fn view(&self, view: View) -> Result<DeskReply, NoMemory>
        requires there { IsSome
            (text_shown self.now.debugger.app.names (target_of self.now.debugger) view) }
        requires named { IsViewOf self.now.debugger.app.names view }
        ensures { IfOk result (λ reply.
            IfSome (text_shown self.now.debugger.app.names (target_of self.now.debugger) view)
            (λ text. reply ≡ shown text)) }
    {
        self.by_invariant();
        let line = show(self.alloc, self.target(), self.names(), view)?;
        Ok(DeskReply::Shown {
            text: Text::new(line),
        })
    }

    // The view of the session's watches.
    #[inline(never)]
    fn watches(&self, who: u32) -> Result<DeskReply, NoMemory>
        requires { IsPresent self.now.debugger.sessions who }
        ensures { IfOk result
            (λ reply. reply ≡ overview_of self.now.debugger who Overview.Watches) }
    {
        self.timeline.by_invariant();
        let watches = self.sessions.watches(who);
        let text = show_all_watches(&self.timeline, self.alloc, watches)?;
        Ok(DeskReply::Shown { text })
    }

    // What the session is shown. Nothing changes.
    fn look(&self, who: u32, view: View) -> Result<DeskReply, NoMemory>
        requires there { IsPresent self.now.debugger.sessions who }
        requires named { IsViewOf self.now.debugger.app.names view }
        ensures ok { IfOk result (λ reply. reply ≡ view_of self.now.debugger who view) }
        ensures no_memory { OnErr result (is_text (view_of self.now.debugger who view) ≡ true) }
    {
        let of = match view {
            View::Thing { .. } | View::Cores => return self.view(view),
            View::Overview { of } => of,
        };
        match of {
            Overview::Moves => Ok(told(Short::Moves {
                done: self.timeline.at(),
                undone: self.timeline.left(),
                kept: self.kept(),
            })),
            Overview::Wheel => Ok(told(Short::Holder { holder: self.wheel })),
            Overview::Watches => self.watches(who),
        }
    }

    // Does what a command asks for.
    fn obey(&mut self, who: u32, bound: &Bound<'_>) -> Result<DeskReply, NoMemory>
        requires there { IsPresent self.old.debugger.sessions who }
        requires named { IsBoundOf self.old.debugger.app bound.now }
        ensures ok { IfOk result (IsDone self.old.debugger who bound.now self.new.debugger) }
        ensures shown { IfOk result (λ reply. IsView reply → self.new.log ≡ self.old.log) }
        ensures no_memory { IsErr result → needs_memory self.old.debugger who bound.now ≡ true }
        ensures err { OnErr result (self.new ≡ self.old) }
    {
        match bound {
            Bound::Asks { request } => match request.split() {
                Ok(request) => self.ask(request),
                Err(carried) => self.carry(carried),
            },
            Bound::AsksByWatch { watch, search } => self.ask_by_watch(who, *watch, *search),
            Bound::TakesWheel => Ok(self.take_wheel(who)),
            Bound::GivesWheel => Ok(self.give_wheel(who)),
            Bound::Keeps { condition } => Ok(self.watch(who, *condition)),
            Bound::Drops { number } => Ok(self.unwatch(who, *number)),
            Bound::Looks { view } => self.look(who, *view),
        }
    }

    // The other session that a command is refused for, if it is.
    fn held_by(&self, who: u32, order: &Order<'_, '_>) -> Option<u32>
        ensures { result ≡ held_by self.now.debugger who order.now.command }
    {
        if order.needs_wheel() {
            other_holder(self.wheel, who)
        } else {
            None
        }
    }

    /// Does what a session asks for, and answers what is replied. Refusals come in this order: that
    /// another session has the wheel, that what is named isn't there, that there is no such watch,
    /// that all watches are taken, that the session doesn't have the wheel that it would
    /// give, and then those of the timeline. They are replies, and change nothing. An `Err` says
    /// that there is no memory for the moves or the text that the command makes, and comes only
    /// where it makes some; then nothing has changed either. What is shown leaves the records of
    /// the moves too. The order was bound for this application.
    pub fn serve(&mut self, who: u32, order: &Order<'_, '_>) -> Result<DeskReply, NoMemory>
        requires there { IsPresent self.old.debugger.sessions who }
        requires application { order.now.known ≡ known_of self.old.debugger.app }
        ensures ok { IfOk result
            (IsAnswered self.old.debugger who order.now.command self.new.debugger) }
        ensures shown { IfOk result (λ reply. IsView reply → self.new.log ≡ self.old.log) }
        ensures narrow { IfOk result IsNarrow }
        ensures no_memory { IsErr result → NeedsMemory self.old.debugger who order.now.command }
        ensures err { OnErr result (self.new ≡ self.old) }
    {
        self.by_invariant();
        if let Some(holder) = self.held_by(who, order) {
            return Ok(refused(Refusal::Held { holder }));
        }
        let _ = &self.names;
        match order.bound() {
            Some(bound) => self.obey(who, bound),
            None => Ok(refused(Refusal::NoSuch)),
        }
    }

    /// Ends the debugger.
    pub fn close(self) {
        let DeskMachine {
            alloc: _,
            timeline,
            names: _names,
            wheel: _,
            sessions: _,
        } = self;
        timeline.close();
    }
}
