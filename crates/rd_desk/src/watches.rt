//! The watches of a session: conditions that it looks at again and again.

ghost use Rattle.std.specs.Prelude.{◌≡◌, ◌<◌, ◌≤◌, count_by, is_none, is_some, length, position};
ghost use Rattle.std.specs.Prelude.{slice_set};
ghost use Rattle.rd_command.specs.declared.binding.TheConstants.{MAX_WATCHES};
ghost use Rattle.rd_desk.specs.Sessions.{no_watches, watch_at};

use rd_command::binding::MAX_WATCHES;
use rd_condition::condition::Condition;
use std::marker::Model;

/// The watches of a session, by their numbers 0 to 15. Where there is none, the number is free.
#[derive(Drop)]
pub struct Watches {
    slots: [Option<Condition>; MAX_WATCHES],
}

impl Model for Watches {
    ghost use Rattle.std.specs.Prelude.{◌≡◌, length};
    ghost use Rattle.rd_desk.specs.Sessions.{WatchesView};

    ghost Value = { WatchesView };

    ghost view = { λ w. w.slots };

    ghost invariant = { λ w. length w.slots ≡ 16 };
}

impl Watches {
    /// No watches.
    pub fn new() -> Watches
        ensures { result ≡ no_watches }
    {
        Watches {
            slots: [None; MAX_WATCHES],
        }
    }

    /// How many numbers there are.
    pub fn numbers(&self) -> usize
        ensures { result ≡ length self.now }
    {
        // (each of them has a slot)
        let _ = &self.slots;
        MAX_WATCHES
    }

    /// How many watches there are.
    pub fn kept(&self) -> usize
        ensures count { result ≡ count_by is_some self.now }
        ensures within { result ≤ MAX_WATCHES }
    {
        self.slots.iter().filter(|slot| slot.is_some()).count()
    }

    /// The condition of the watch with that number, if there is one.
    pub fn condition(&self, number: usize) -> Option<Condition>
        ensures { result ≡ watch_at self.now number }
    {
        if number < MAX_WATCHES {
            self.slots[number]
        } else {
            None
        }
    }

    /// The least number that is free, if one is.
    pub fn free(&self) -> Option<usize>
        ensures { result ≡ position is_none self.now }
    {
        self.slots.iter().position(|slot| slot.is_none())
    }

    /// The watches with another one, or none, at that number.
    pub fn with(&self, number: usize, slot: Option<Condition>) -> Watches
        requires { number < length self.now }
        ensures { result ≡ slice_set self.now number slot }
    {
        let mut slots = self.slots;
        slots[number] = slot;
        Watches { slots }
    }
}
