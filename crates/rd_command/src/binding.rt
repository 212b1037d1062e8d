//! Commands with what they name looked up in an application.

ghost use Rattle.std.specs.Prelude.{◌≡◌, ℕ, List, [], ◌∷◌, IfOk, is_some, option_map};
ghost use Rattle.std.specs.Result.{result_ok};
ghost use Rattle.rd_condition.specs.declared.condition.Condition as conditions;
ghost use Rattle.rd_condition.specs.declared.condition.Condition.TheVariants as condition;
ghost use Rattle.rd_command.specs.declared.keyword.CommandParameter.TheVariants as parameter;
ghost use Rattle.rd_command.specs.declared.keyword.RequestKeyword.TheVariants as asked;
ghost use Rattle.rd_names.specs.Apps.{AppView, AreAsMany};
ghost use Rattle.rd_command.specs.Bindings.{IsBoundOf, Takes, bound_by, bound_in, condition_made};
ghost use Rattle.rd_command.specs.Bindings.{has_all, known_of, made_by, made_of};
ghost use Rattle.rd_command.specs.Bindings.{next_condition};
ghost use Rattle.rd_command.specs.Commands.{Spells};
ghost use Rattle.rd_command.specs.Keywords.{amount_row, edit_row, interrupt_row, poke, raise};
ghost use Rattle.rd_command.specs.Keywords.{request_row, search_row, watch_row};

use crate::command::Command;
use crate::demand::Demand;
use crate::digits::Digits;
use crate::keyword::{
    AmountKeyword, CommandKeyword, ConditionKeyword, EditKeyword, InterruptKeyword, RequestKeyword,
    SearchKeyword,
};
use crate::known::Known;
use crate::reader::CommandReader;
use crate::view::View;
use rd_condition::condition::{Amount, Condition};
use rd_moves::carried::Carried;
use rd_moves::edit::Edit;
use rd_moves::interrupt::Interrupt;
use rd_moves::moves::Move;
use rd_moves::request::{Request, Search};
use rd_text::kind::Kind;
use thiserror::Error;

/// How many watches a session has at the most. They are numbered from 0.
pub const MAX_WATCHES: usize = 16;

/// What a command does, its names being numbers, and its cores, registers and notification entries
/// there. The number of a watch in place of a condition is 0 to 15. Whether the session has such a
/// watch is not asked here.
#[derive(Drop)]
pub enum Bound<'a> {
    /// It asks the timeline: moves are made, taken back or made again.
    Asks { request: Demand<'a> },
    /// It asks the timeline to search for the condition of the session's watch with that number.
    AsksByWatch { watch: usize, search: Search },
    /// Nobody but the session makes moves from now on.
    TakesWheel,
    /// Everybody may make moves again.
    GivesWheel,
    /// The session keeps the condition.
    Keeps { condition: Condition },
    /// The session drops its watch with this number.
    Drops { number: usize },
    /// It is shown something.
    Looks { view: View },
}

/// The application has no core, register, notification entry or name like this.
#[derive(Debug, Drop, Error)]
#[error("there is no such core, register, notification, object or task")]
pub struct Unknown;

// The condition that compares this amount, of the words after it.
fn read_compared(amount: Amount, reader: &mut CommandReader<'_, '_>) -> Result<Condition, Unknown>
    ensures { Takes (made_of conditions.Condition (parameter.Operator ∷ parameter.Number ∷ [])
        (λ operator bound. condition.Compares amount operator bound) reader.old) result reader.new }
{
    let comparison = reader.operator()?;
    let bound = reader.number()?;
    Ok(Condition::Compares {
        amount,
        comparison,
        bound,
    })
}

// The condition of such a keyword, of the words after it.
fn read_comparison(
    keyword: AmountKeyword,
    reader: &mut CommandReader<'_, '_>,
) -> Result<Condition, Unknown>
    ensures { Takes (condition_made (amount_row keyword) reader.old) result reader.new }
{
    match keyword {
        AmountKeyword::Items => {
            let queue = reader.named(Kind::Queue)?;
            read_compared(Amount::Items { queue }, reader)
        }
        AmountKeyword::Bytes => {
            let stream = reader.named(Kind::Stream)?;
            read_compared(Amount::Bytes { stream }, reader)
        }
        AmountKeyword::Messages => {
            let message = reader.named(Kind::Message)?;
            read_compared(Amount::Messages { message }, reader)
        }
        AmountKeyword::Bits => {
            let group = reader.named(Kind::Group)?;
            read_compared(Amount::Bits { group }, reader)
        }
        AmountKeyword::Register => {
            let task = reader.named(Kind::Task)?;
            let register = reader.register()?;
            read_compared(Amount::Register { task, register }, reader)
        }
        AmountKeyword::Pc => {
            let task = reader.named(Kind::Task)?;
            read_compared(Amount::Pc { task }, reader)
        }
        AmountKeyword::Value => {
            let task = reader.named(Kind::Task)?;
            let index = reader.index()?;
            read_compared(Amount::Value { task, index }, reader)
        }
        AmountKeyword::Tick => read_compared(Amount::Tick, reader),
    }
}

// The condition that the words begin with.
fn read_condition(reader: &mut CommandReader<'_, '_>) -> Result<Condition, Unknown>
    ensures { Takes (next_condition reader.old) result reader.new }
{
    match reader.condition_keyword()? {
        ConditionKeyword::Compares(keyword) => read_comparison(keyword, reader),
        ConditionKeyword::InPhase => Ok(Condition::InPhase {
            task: reader.named(Kind::Task)?,
            name: reader.phase()?,
        }),
    }
}

// The edit of such a keyword, of the words after it.
fn read_edit<'a>(
    keyword: EditKeyword,
    reader: &mut CommandReader<'_, 'a>,
) -> Result<Edit<Digits<'a>>, Unknown>
    ensures { option_map poke (result_ok result) ≡ made_by (edit_row keyword) reader.old }
{
    Ok(match keyword {
        EditKeyword::Register => Edit::Register {
            task: reader.named(Kind::Task)?,
            register: reader.register()?,
            value: reader.number()?,
        },
        EditKeyword::Data => Edit::Data {
            task: reader.named(Kind::Task)?,
            bytes: reader.data()?,
        },
        EditKeyword::Pc => Edit::Pc {
            task: reader.named(Kind::Task)?,
            pc: reader.number()? as usize,
        },
        EditKeyword::Value => Edit::Value {
            task: reader.named(Kind::Task)?,
            index: reader.index()?,
            value: reader.number()?,
        },
        EditKeyword::Bits => Edit::Bits {
            group: reader.named(Kind::Group)?,
            bits: reader.number()?,
        },
        EditKeyword::Item => Edit::Item {
            queue: reader.named(Kind::Queue)?,
            index: reader.number()? as usize,
            bytes: reader.data()?,
        },
        EditKeyword::Byte => Edit::Byte {
            stream: reader.named(Kind::Stream)?,
            index: reader.number()? as usize,
            value: reader.number()?,
        },
    })
}

// The interrupt of such a keyword, of the words after it.
fn read_interrupt<'a>(
    keyword: InterruptKeyword,
    reader: &mut CommandReader<'_, 'a>,
) -> Result<Interrupt<Digits<'a>>, Unknown>
    ensures { option_map raise (result_ok result) ≡ made_by (interrupt_row keyword) reader.old }
{
    Ok(match keyword {
        InterruptKeyword::Send => Interrupt::Send {
            queue: reader.named(Kind::Queue)?,
            bytes: reader.data()?,
        },
        InterruptKeyword::Notify => Interrupt::Notify {
            task: reader.named(Kind::Task)?,
            index: reader.index()?,
            value: reader.number()?,
            action: reader.action()?,
        },
    })
}

// The request `until`, of the words after that.
fn read_until<'a>(reader: &mut CommandReader<'_, 'a>) -> Result<Demand<'a>, Unknown>
    ensures { result_ok result ≡ made_by (request_row asked.Until) reader.old }
{
    let condition = read_condition(reader)?;
    let count = reader.count()?;
    Ok(Demand::bare(Request::Until { condition, count }))
}

// The request of such a keyword, of the words after it.
fn read_request<'a>(
    keyword: RequestKeyword,
    reader: &mut CommandReader<'_, 'a>,
) -> Result<Demand<'a>, Unknown>
    ensures { result_ok result ≡ made_by (request_row keyword) reader.old }
{
    match keyword {
        RequestKeyword::Step => {
            let core = reader.core()?;
            Ok(Demand::bare(Request::Go {
                action: Move::Core { core },
            }))
        }
        RequestKeyword::Tick => Ok(Demand::bare(Request::Go { action: Move::Tick })),
        RequestKeyword::Back => Ok(Demand::bare(Request::Back {
            count: reader.count()?,
        })),
        RequestKeyword::Forward => Ok(Demand::bare(Request::Forward {
            count: reader.count()?,
        })),
        RequestKeyword::Redo => Ok(Demand::bare(Request::Redo {
            count: reader.count()?,
        })),
        RequestKeyword::Until => read_until(reader),
        RequestKeyword::BackUntil => Ok(Demand::bare(Request::BackUntil {
            condition: read_condition(reader)?,
        })),
        RequestKeyword::Trim => Ok(Demand::bare(Request::Trim {
            keep: reader.number()? as usize,
        })),
        RequestKeyword::Poke(keyword) => {
            let edit = read_edit(keyword, reader)?;
            Ok(Demand::carrying(Carried::Edit { edit }))
        }
        RequestKeyword::Interrupt(keyword) => {
            let interrupt = read_interrupt(keyword, reader)?;
            Ok(Demand::carrying(Carried::Interrupt { interrupt }))
        }
    }
}

// The watch of such a keyword, and what is looked for by it, of the words after it.
fn read_search(
    keyword: SearchKeyword,
    reader: &mut CommandReader<'_, '_>,
) -> Result<(usize, Search), Unknown>
    ensures { result_ok result ≡ made_by (search_row keyword) reader.old }
{
    let watch = reader.watch()?;
    match keyword {
        SearchKeyword::Until => {
            let count = reader.count()?;
            Ok((watch, Search::Until { count }))
        }
        SearchKeyword::BackUntil => Ok((watch, Search::BackUntil)),
    }
}

// The condition that the session is to keep.
fn read_watch(reader: &mut CommandReader<'_, '_>) -> Result<Condition, Unknown>
    ensures { result_ok result ≡ made_by watch_row reader.old }
{
    read_condition(reader)
}

// What a command of this keyword does, of its operands.
fn read_bound<'a>(
    keyword: CommandKeyword,
    reader: &mut CommandReader<'_, 'a>,
) -> Result<Bound<'a>, Unknown>
    ensures { result_ok result ≡ bound_by keyword reader.old }
{
    match keyword {
        CommandKeyword::Ask(keyword) => Ok(Bound::Asks {
            request: read_request(keyword, reader)?,
        }),
        CommandKeyword::AskByWatch(keyword) => {
            let (watch, search) = read_search(keyword, reader)?;
            Ok(Bound::AsksByWatch { watch, search })
        }
        CommandKeyword::TakeWheel => Ok(Bound::TakesWheel),
        CommandKeyword::GiveWheel => Ok(Bound::GivesWheel),
        CommandKeyword::Watch => Ok(Bound::Keeps {
            condition: read_watch(reader)?,
        }),
        CommandKeyword::Unwatch => Ok(Bound::Drops {
            number: reader.number()? as usize,
        }),
        CommandKeyword::Show(kind) => {
            let number = reader.named(kind)?;
            Ok(Bound::Looks {
                view: View::Thing { kind, number },
            })
        }
        CommandKeyword::Cores => Ok(Bound::Looks { view: View::Cores }),
        CommandKeyword::Look(of) => Ok(Bound::Looks {
            view: View::Overview { of },
        }),
    }
}

/// Looks up what a command names: cores below the number of them, registers below 8, notification
/// entries below the number that each task has, and names of each kind, also inside a condition.
/// `Unknown` exactly where one of these isn't there.
pub fn bind<'a>(command: &Command<'_, 'a>, known: &Known) -> Result<Bound<'a>, Unknown>
    ensures bound { result_ok result ≡ bound_in known.now command.now }
    // What is bound is there, in every application with these names, cores and entries.
    ensures named { (app : AppView) → AreAsMany app.runs app.names
        → known_of app ≡ known.now → IfOk result (IsBoundOf app) }
    // A command that is spelled is bound exactly where all that it names is there.
    ensures exact { (words : List (List ℕ)) → Spells words command.now
        → is_some (result_ok result) ≡ has_all known.now command.now }
{
    let mut reader = CommandReader::new(known, command.operands());
    read_bound(command.keyword(), &mut reader)
}
