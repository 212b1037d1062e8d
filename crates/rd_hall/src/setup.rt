//! What a hall is set up for.

ghost use Rattle.std.specs.Prelude.{ℕ};
ghost use Rattle.rd_names.specs.Apps.{AppView};
ghost use Rattle.rd_hall.specs.Setups.{no_application};

use std::marker::Brand;
use std::sync::ledger::Ledger;

/// What a hall is set up for: its application, how many moves may be done at a time, and how many
/// entries the history may have. Contracts alone know it. Who opens a hall for `Brand` picks it.
pub trait Setup: Ledger {
    ghost app: { AppView };

    ghost most_moves: { ℕ };

    ghost most_entries: { ℕ };
}

impl Setup for Brand {
    ghost app = { no_application };

    ghost most_moves = { 0 };

    ghost most_entries = { 0 };
}
