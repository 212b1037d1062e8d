//! The sessions of a debugger: who has entered, and who is present.

ghost use Rattle.std.specs.Prelude.{◌≡◌, ◌↔◌, ◌+◌, ◌<◌, ◌≤◌, [], length, IfOk, IsTrue};
ghost use Rattle.rd_command.specs.declared.binding.TheConstants.{MAX_WATCHES};
ghost use Rattle.rd_desk.specs.Sessions.{IsPresent, joined, kept_by, present_count};
ghost use Rattle.rd_desk.specs.Sessions.{watch_count, watches_of, with_watches, without};

use crate::watches::Watches;
use rd_bytes::no_memory::NoMemory;
use rd_condition::condition::Condition;
use std::alloc::Global;
use std::marker::Model;

/// How many sessions may enter.
pub const MAX_JOINS: usize = 64;

/// The sessions that have entered, numbered from 1. Those that are present have watches.
#[derive(Drop)]
pub struct Sessions {
    slots: Vec<Option<Watches>>,
    present: usize,
}

impl Model for Sessions {
    ghost use Rattle.rd_desk.specs.Sessions.{SessionsView};

    ghost Value = { SessionsView };

    ghost use Rattle.rd_desk.specs.SessionsInside.{IsSessions};

    ghost view = { λ s. s.slots.items };

    ghost invariant = { IsSessions };
}

// How many watches a session keeps, if it is present.
fn kept_by(slot: &Option<Watches>) -> usize
    ensures count { result ≡ kept_by slot.now }
    ensures within { result ≤ MAX_WATCHES }
{
    match slot {
        Some(watches) => watches.kept(),
        None => 0,
    }
}

impl Sessions {
    /// Nobody. All memory is taken here.
    pub fn new(alloc: Global) -> Result<Sessions, NoMemory>
        ensures { IfOk result (λ sessions. sessions ≡ []) }
    {
        Ok(Sessions {
            slots: Vec::with_capacity(alloc, MAX_JOINS)?,
            present: 0,
        })
    }

    /// How many have entered.
    pub fn joins(&self) -> usize
        ensures { result ≡ length self.now }
    {
        self.slots.len()
    }

    /// How many are present.
    pub fn present(&self) -> usize
        ensures { result ≡ present_count self.now }
    {
        self.present
    }

    /// Whether a session has entered, and not left.
    pub fn is_present(&self, who: u32) -> bool
        ensures { IsTrue result ↔ IsPresent self.now who }
    {
        if who == 0 {
            return false;
        }
        match self.slots.get(who as usize - 1) {
            Some(slot) => slot.is_some(),
            None => false,
        }
    }

    /// How many watches those that are present keep together.
    pub fn watch_count(&self) -> usize
        ensures { result ≡ watch_count self.now }
    {
        let mut count = 0;
        for slot in &self.slots {
            count += kept_by(slot);
        }
        count
    }

    /// A session enters. It takes no memory.
    pub fn join(&mut self)
        requires { length self.old < MAX_JOINS }
        ensures sessions { self.new ≡ joined self.old }
        ensures present { present_count self.new ≡ present_count self.old + 1 }
    {
        self.slots.push_reserved(Some(Watches::new()));
        self.present += 1;
    }

    /// A session leaves. It takes no memory.
    pub fn leave(&mut self, who: u32)
        requires { IsPresent self.old who }
        ensures sessions { self.new ≡ without self.old who }
        ensures present { present_count self.new + 1 ≡ present_count self.old }
    {
        self.slots[who as usize - 1] = None;
        self.present -= 1;
    }

    /// The watches of a session.
    pub fn watches(&self, who: u32) -> &Watches
        requires { IsPresent self.now who }
        ensures { result.now ≡ watches_of self.now who }
    {
        self.slots[who as usize - 1].as_ref().unwrap()
    }

    /// Gives a session other watches.
    pub fn set_watches(&mut self, who: u32, watches: Watches)
        requires { IsPresent self.old who }
        ensures { self.new ≡ with_watches self.old who watches }
    {
        self.slots[who as usize - 1] = Some(watches);
    }
}
