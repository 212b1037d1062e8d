//! The lines that were bound lately.

ghost use Rattle.std.specs.Prelude.{◌≡◌, ◌<◌, IfSome, slice_set};
ghost use Rattle.std.specs.Result.{result_ok};
ghost use Rattle.rd_command.specs.Bindings.{KnownView, bound_in};
ghost use Rattle.rd_command.specs.Recents.{IsRow};
ghost use Rattle.rd_command.specs.declared.recent.TheConstants.{ROWS};

use crate::binding::{Bound, Unknown};
use crate::command::Command;
use crate::known::Known;
use crate::order::Order;
use arrayvec::ArrayVec;
use std::array::from_fn;
use std::marker::Model;

// How many lines are kept at the most, and how many bytes one may have.
const ROWS: usize = 64;

const MAX_KEPT: usize = 40;

// Of so many lines that weren't found one is kept: to keep one takes a fifth of a line's time, which
// is lost where no line is said again.
const ONE_OF: u8 = 16;

// A line that is a command, with what this is bound to.
#[derive(Drop)]
struct RecentRow {
    line: ArrayVec<u8, MAX_KEPT>,
    needs_wheel: bool,
    bound: Result<Bound<'static>, Unknown>,
}

/// Lines that were bound lately, each with what it is bound to, so that who says one of them again
/// and again need not have it read each time. What is found of a line is what it is bound to; which
/// lines are found hangs on what was said before.
#[derive(Drop)]
pub struct Recent<'n> {
    known: &'n Known,
    rows: [Option<RecentRow>; ROWS],
    // how many lines weren't found, up to a multiple of 256
    read: u8,
}

impl<'n> Model for Recent<'n> {
    ghost use Rattle.rd_command.specs.Bindings.{KnownView};
    ghost use Rattle.rd_command.specs.Recents.{AreRows};

    ghost Value = { KnownView };

    ghost view = { λ r. r.known.now };

    ghost invariant = { λ r. AreRows r.known.now r.rows };
}

// Where a line is kept: any place is right.
fn place_of(line: &[u8]) -> usize
    ensures { result < ROWS }
{
    match line {
        [first, .., last] => {
            let others = line[line.len() / 2] as usize + *last as usize;
            (line.len() + 37 * *first as usize + 47 * others) % ROWS
        }
        _ => 0,
    }
}

// The same where it doesn't borrow of the line. (Who keeps and drops watches hardly does so again.)
fn lasting(bound: Bound<'_>) -> Option<Bound<'static>>
    ensures { IfSome result (λ lasting. lasting ≡ bound.entry) }
{
    match bound {
        Bound::Asks { request } => Some(Bound::Asks {
            request: request.lasting()?,
        }),
        Bound::AsksByWatch { watch, search } => Some(Bound::AsksByWatch { watch, search }),
        Bound::TakesWheel => Some(Bound::TakesWheel),
        Bound::GivesWheel => Some(Bound::GivesWheel),
        Bound::Looks { view } => Some(Bound::Looks { view }),
        Bound::Keeps { .. } | Bound::Drops { .. } => None,
    }
}

// Puts an item in the place of another. (Of any type: the borrow checker has no rule for writing an
// element whose type holds references.)
fn put<T: Drop>(items: &mut [T; ROWS], place: usize, item: T)
    requires { place < ROWS }
    ensures { items.new ≡ slice_set items.old place item }
{
    items[place] = item;
}

impl RecentRow {
    // The row of a command that is bound so, if it can be kept.
    fn of(command: &Command<'_, '_>, bound: Result<Bound<'_>, Unknown>) -> Option<RecentRow>
        ensures { IfSome result (λ row. (known : KnownView)
            → result_ok bound.entry ≡ bound_in known command.now → IsRow known row) }
    {
        let bound = match bound {
            Ok(bound) => Ok(lasting(bound)?),
            Err(unknown) => Err(unknown),
        };
        let line = ArrayVec::try_from(command.line()).ok()?;
        Some(RecentRow {
            line,
            needs_wheel: command.needs_wheel(),
            bound,
        })
    }
}

impl<'n> Recent<'n> {
    /// None yet, of this application.
    pub fn new(known: &'n Known) -> Recent<'n>
        ensures { result ≡ known.now }
    {
        Recent {
            known,
            rows: from_fn(|_| None),
            read: 0,
        }
    }

    /// What a line is bound to, if that is kept.
    #[inline(always)]
    pub fn find<'a>(&self, line: &'a [u8]) -> Option<Order<'_, 'a>>
        ensures line { IfSome result (λ order. order.line ≡ line.now) }
        ensures known { IfSome result (λ order. order.known ≡ self.now) }
    {
        let row = self.rows[place_of(line)].as_ref()?;
        if row.line.as_slice() == line {
            Some(Order::again(line, self.known, row.needs_wheel, &row.bound))
        } else {
            None
        }
    }

    /// Whether it's the turn of a line that wasn't found to be kept.
    #[inline(always)]
    pub fn is_turn(&mut self) -> bool
        ensures { self.new ≡ self.old }
    {
        self.read = self.read.wrapping_add(1);
        self.read % ONE_OF == 0
    }

    /// Keeps what a line is bound to, if it can be kept.
    pub fn keep<'a>(&mut self, command: &Command<'_, 'a>, bound: Result<Bound<'a>, Unknown>)
        requires { result_ok bound ≡ bound_in self.old command.now }
        ensures { self.new ≡ self.old }
    {
        if let Some(row) = RecentRow::of(command, bound) {
            put(&mut self.rows, place_of(command.line()), Some(row));
        }
    }
}
