//! The receipts that are handed in at the end, against the history.

ghost use Rattle.std.specs.Prelude.{◌≡◌, ◌↔◌, [], length, nat_eq, if◌then◌else◌, All, IsTrue};
ghost use Rattle.rd_hall.specs.SeatView.{IsSeries, next_place};
ghost use Rattle.rd_desk.specs.HistoryView.{IsEntered};
ghost use Rattle.rd_hall.specs.Account.{IsAccount, IsAccounted, Fits, AllFit};
ghost use Rattle.rd_hall.specs.Account.{receipts_of, count_of};

use crate::seat::Gone;
use crate::setup::Setup;
use rd_desk::history::History;
use std::marker::Model;
use thiserror::Error;

// Whether each receipt is the entry at its place.
fn are_entered<L: Setup>(history: &History, gone: &Gone<L>) -> bool
    ensures { IsTrue result ↔ All (IsEntered history.now.entries) gone.now.receipts }
{
    for index in 0..gone.len() {
        if !gone.is_entered(history, index) {
            return false;
        }
    }
    true
}

// The place behind a seat's receipts, where it is the session's.
fn next_behind<L: Setup>(gone: &Gone<L>, who: u32, next: usize) -> usize
    ensures { result
        ≡ (if nat_eq gone.now.who who then next_place next gone.now.receipts else next) }
{
    gone.by_invariant();
    if gone.who() == who { gone.next() } else { next }
}

// The place behind a session's receipts.
fn next_of<L: Setup>(gones: &[Gone<L>], who: u32) -> usize
    ensures { result ≡ next_place 0 (receipts_of who gones.now) }
{
    let mut next = 0;
    for gone in gones {
        next = next_behind(gone, who, next);
    }
    next
}

// Whether a seat that is handed in behind these fits.
fn fits<L: Setup>(history: &History, before: &[Gone<L>], gone: &Gone<L>) -> bool
    ensures { IsTrue result ↔ Fits history.now.entries before.now gone.now }
{
    gone.ends_in_leave()
        && are_entered(history, gone)
        && next_of(before, gone.who()) <= gone.first()
}

// Whether the seats have so many receipts.
fn is_count<L: Setup>(gones: &[Gone<L>], count: usize) -> bool
    ensures { IsTrue result ↔ (count_of gones.now ≡ count) }
{
    let mut left = count;
    for gone in gones {
        if gone.len() > left {
            return false;
        }
        left -= gone.len();
    }
    left == 0
}

// Whether all seats that are handed in fit.
fn all_fit<L: Setup>(history: &History, gones: &[Gone<L>]) -> bool
    ensures exact { IsTrue result ↔ AllFit history.now.entries [] gones.now }
    ensures series { IsTrue result
        → All (λ gone. IsSeries gone.who 0 gone.receipts) gones.now }
{
    for place in 0..gones.len() {
        gones[place].by_invariant();
        if !fits(history, &gones[..place], &gones[place]) {
            return false;
        }
    }
    true
}

/// Whether the receipts that are handed in are those of the history. It takes no memory.
pub(crate) fn is_account<L: Setup>(history: &History, gones: &[Gone<L>]) -> bool
    ensures exact { IsTrue result ↔ IsAccount history.now.entries gones.now }
    ensures accounted { IsTrue result → IsAccounted history.now.entries gones.now }
{
    all_fit(history, gones) && is_count(gones, history.len())
}

/// The receipts that were handed in aren't those of the history.
#[derive(Clone, Copy, Debug, PartialEq, Eq, Error)]
#[error("the receipts aren't those of the history")]
pub struct Broken;

/// A debugger that has ended: its history, and the sessions with their receipts.
#[derive(Drop)]
pub struct Closed<L: Setup> {
    pub(crate) history: History,
    pub(crate) gones: Vec<Gone<L>>,
}

impl<L: Setup> Model for Closed<L> {
    ghost use Rattle.rd_hall.specs.Account.{ClosedView};

    ghost Value = { ClosedView };

    ghost view = { λ c. record { history = c.history.entries; gones = c.gones.items } };
}

impl<L: Setup> Closed<L> {
    /// How many entries the history has.
    pub fn entries(&self) -> usize
        ensures { result ≡ length self.now.history }
    {
        self.history.len()
    }

    /// For tests alone: the history.
    pub fn history(&self) -> &History
        ensures { result.now.entries ≡ self.now.history }
    {
        &self.history
    }

    /// For tests alone: the sessions with their receipts, as they were handed in.
    pub fn gones(&self) -> &[Gone<L>]
        ensures { result.now ≡ self.now.gones }
    {
        self.gones.as_slice()
    }
}
