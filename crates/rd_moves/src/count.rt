//! How many moves a command makes or takes back.

ghost use Rattle.std.specs.Prelude.{◌≡◌, ◌<◌, ◌≤◌};
ghost use Rattle.rd_moves.specs.Counts.{count_in};
ghost use Rattle.rd_moves.specs.declared.count.TheConstants.{MAX_COUNT};

use std::marker::Model;

/// How many moves a command makes or takes back at the most.
pub const MAX_COUNT: u32 = 1_000_000;

/// A number of moves: 1 to 1,000,000.
#[derive(Clone, Copy)]
pub struct Count {
    number: u32,
}

impl Model for Count {
    ghost use Rattle.std.specs.Prelude.{ℕ};
    ghost use Rattle.rd_moves.specs.Counts.{IsCount};

    ghost Value = { ℕ };

    ghost view = { λ c. c.number };

    ghost inverse = { λ number. record { number = number } };

    ghost invariant = { λ c. IsCount c.number };
}

impl Count {
    /// This number of moves. `None` exactly where it is 0 or more than 1,000,000.
    pub fn new(number: u32) -> Option<Count>
        ensures { result ≡ count_in number }
    {
        if (1..=MAX_COUNT).contains(&number) {
            Some(Count { number })
        } else {
            None
        }
    }

    /// The number, which is 1 to 1,000,000.
    pub fn get(self) -> usize
        ensures number { result ≡ self }
        ensures some { 0 < result }
        ensures few { result ≤ MAX_COUNT }
    {
        self.number as usize
    }
}

/// For contracts alone: how many moves a command makes or takes back at the most, as a number.
pub fn limit_of_counts()
    ensures { MAX_COUNT ≡ 1000000 }
{}
