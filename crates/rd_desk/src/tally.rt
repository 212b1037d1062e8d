//! How full a history is that has no free place.

ghost use Rattle.std.specs.Prelude.{◌≡◌, ◌+◌, ◌<◌};

use std::fmt;
use std::marker::Model;

/// How full a history is: fewer than two places of it are free. Entries and sessions that are
/// present, of which each has a place for its departure, leave fewer than two of the limit.
#[derive(Debug, Drop)]
pub struct Tally {
    entries: usize,
    present: usize,
    limit: usize,
}

impl Model for Tally {
    ghost use Rattle.std.specs.Prelude.{◌+◌, ◌<◌};
    ghost use Rattle.rd_desk.specs.TallyView.{TallyView};

    ghost Value = { TallyView };

    ghost view = { λ t. record { entries = t.entries; present = t.present; limit = t.limit } };

    ghost invariant = { λ t. t.limit < t.entries + t.present + 2 };
}

impl fmt::Display for Tally {
    fn fmt<W: fmt::Write>(&self, f: &mut fmt::Formatter<W>) -> fmt::Result {
        let (entries, present, limit) = (self.entries, self.present, self.limit);
        write!(
            f,
            "{entries} entries and {present} sessions of at most {limit}"
        )
    }
}

impl Tally {
    pub(crate) fn new(entries: usize, present: usize, limit: usize) -> Tally
        requires { limit < entries + present + 2 }
        ensures { result ≡ record { entries = entries; present = present; limit = limit } }
    {
        Tally {
            entries,
            present,
            limit,
        }
    }

    /// How many entries there are.
    pub fn entries(&self) -> usize
        ensures { result ≡ self.now.entries }
    {
        self.entries
    }

    /// How many sessions are present.
    pub fn present(&self) -> usize
        ensures { result ≡ self.now.present }
    {
        self.present
    }

    /// For tests alone: how many entries there may be.
    pub fn limit(&self) -> usize
        ensures { result ≡ self.now.limit }
    {
        self.limit
    }
}
