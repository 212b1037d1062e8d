//! Names of one kind of thing, each with its number.

ghost use Rattle.std.specs.Prelude.{◌≡◌, ◌<◌, length, position, slice_get, Some, IfOk};
ghost use Rattle.std.specs.Str.{bytes_eq};
ghost use Rattle.rd_names.specs.NameSets.{names_among};
ghost use Rattle.rd_text.specs.Names.{AreDistinctNames};
ghost use Rattle.rd_text.specs.Words.{texts};

use indexmap::IndexSet;
use rd_text::words::is_name;
use std::alloc::{AllocError, Global};
use std::marker::Model;

/// The names of all things of one kind: each 1 to 16 characters of `a` to `z`, `0` to `9` and `_`,
/// the first a letter, and no two equal. A thing's number is its name's index.
pub struct NameSet {
    ordered: IndexSet<String>,
}

// (Written out, so that a drop of one is a call: no proof elsewhere has to look into its parts.)
impl Drop for NameSet {
    fn drop(self) {
        let NameSet { ordered: _ordered } = self;
    }
}

impl Model for NameSet {
    ghost use Rattle.std.specs.Prelude.{ℕ, List, map, string_bytes};
    ghost use Rattle.rd_text.specs.Names.{AreDistinctNames};

    ghost Value = { List (List ℕ) };

    ghost view = { λ s. map string_bytes s.ordered.keys };

    ghost invariant = { λ s. AreDistinctNames (map string_bytes s.ordered.keys) };
}

impl NameSet {
    /// These texts, in their order, but for one that is no name or stands before.
    pub fn new(alloc: Global, names: &[&str]) -> Result<NameSet, AllocError>
        ensures { IfOk result (λ made. made ≡ names_among (texts names.now)) }
    {
        let mut ordered = IndexSet::new(alloc);
        for name in names {
            if is_name(name.as_bytes()) {
                ordered.insert(String::from_str(alloc, name)?)?;
            }
        }
        Ok(NameSet { ordered })
    }

    /// For contracts alone: what holds of every set: its texts are names, no two of which are
    /// equal.
    pub fn by_invariant(&self)
        ensures { AreDistinctNames self.now }
    {
        let _ = &self.ordered;
    }

    /// How many names there are.
    pub fn count(&self) -> usize
        ensures { result ≡ length self.now }
    {
        self.ordered.len()
    }

    /// The number of the thing with that name, if there is one.
    pub fn find(&self, name: &str) -> Option<usize>
        ensures { result ≡ position (bytes_eq name.now) self.now }
    {
        self.ordered.get_index_of(name)
    }

    /// The name of the thing with that number.
    pub fn name(&self, number: usize) -> &str
        requires { number < length self.now }
        ensures { slice_get self.now number ≡ Some result.now }
    {
        match self.ordered.get_index(number) {
            Some(name) => name.as_str(),
            None => unreachable!(),
        }
    }

    // The names, in their order.
    fn texts(&self, alloc: Global) -> Result<Vec<&str>, AllocError>
        ensures { IfOk result (λ names. texts names.items ≡ self.now) }
    {
        let count = self.count();
        let mut names = Vec::with_capacity(alloc, count)?;
        for number in 0..count {
            names.push_reserved(self.name(number));
        }
        Ok(names)
    }

    /// The same names. An `Err` says that there is no memory for them.
    pub fn copy(&self, alloc: Global) -> Result<NameSet, AllocError>
        ensures { IfOk result (λ copy. copy ≡ self.now) }
    {
        self.by_invariant();
        NameSet::new(alloc, self.texts(alloc)?.as_slice())
    }
}
