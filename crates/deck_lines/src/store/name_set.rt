//! Numbered names.

ghost use Rattle.std.specs.Prelude.{◌≡◌, ◌<◌, [], Some, false, length, slice_get, MatchOption, OnOk};
ghost use Rattle.std.specs.List.{list_any};
ghost use Rattle.std.specs.Option.{option_copied};
ghost use Rattle.std.specs.Str.{bytes_eq};
ghost use Rattle.deck_lines.specs.Names.{key_number_names_with_name};

use indexmap::IndexSet;
use std::alloc::{AllocError, Global};
use std::marker::Model;
use units_io::HashSeed;

/// A set of names. Each name is numbered by how many names were added before it.
pub(crate) struct NameSet {
    names: IndexSet<Vec<u8>, HashSeed>,
    // An upper bound of the lengths of the names. Each front of a word is looked up as a prefix: a front that is longer
    // than all prefixes need not be hashed, so that a long word costs no more than its length.
    longest: usize,
}

// Written by hand, so that code that drops a set need not prove anything about its fields.
impl Drop for NameSet {
    fn drop(self) {
        let NameSet {
            names: _,
            longest: _,
        } = self;
    }
}

impl Model for NameSet {
    ghost use Rattle.std.specs.Prelude.{map};
    ghost use Rattle.indexmap.specs.IndexSet.{spare};
    ghost use Rattle.deck_lines.specs.NumberedNames.{AreKeyNamesUpTo, NumberedKeyNames};

    ghost Value = { NumberedKeyNames };

    ghost view = { λ s. record { names = map (λ name. name.items) s.names.keys; spare_names = spare s.names } };

    ghost invariant = { λ s. AreKeyNamesUpTo s.longest (map (λ name. name.items) s.names.keys) };
}

impl NameSet {
    /// Returns an empty set. `seed` is the hash seed of its table.
    pub fn new(alloc: Global, seed: HashSeed) -> NameSet
        ensures { result.names ≡ [] }
    {
        NameSet {
            names: IndexSet::with_hasher(alloc, seed),
            longest: 0,
        }
    }

    /// Returns the hash seed of the table.
    pub fn table_seed(&self) -> HashSeed {
        *self.names.hasher()
    }

    /// Returns the number of names.
    pub fn len(&self) -> usize
        ensures { result ≡ length self.now.names }
    {
        self.names.len()
    }

    /// Returns the number of a name, or `None` if the set does not have it.
    pub fn number_of(&self, name: &[u8]) -> Option<usize>
        ensures { MatchOption result
            (list_any (bytes_eq name.now) self.now.names ≡ false)
            (λ number. slice_get self.now.names number ≡ Some name.now) }
    {
        if self.longest < name.len() {
            return None;
        }
        self.names.get_index_of(name)
    }

    /// Returns the name with this number, or `None` if there is no such name.
    pub fn name(&self, number: usize) -> Option<&[u8]>
        ensures { option_copied result ≡ slice_get self.now.names number }
    {
        match self.names.get_index(number) {
            Some(name) => Some(name.as_slice()),
            None => None,
        }
    }

    /// Makes room for one more name.
    pub fn reserve_one(&mut self) -> Result<(), AllocError>
        ensures names { self.new.names ≡ self.old.names }
        ensures ok { OnOk result (0 < self.new.spare_names) }
    {
        self.names.reserve(1)
    }

    /// Gives a name the next number, unless it has a number, and returns its number. Allocates no memory.
    pub fn put(&mut self, name: Vec<u8>) -> usize
        requires { 0 < self.old.spare_names }
        ensures names { self.new.names ≡ key_number_names_with_name name.items self.old.names }
        ensures number { slice_get self.new.names result ≡ Some name.items }
    {
        self.longest = self.longest.max(name.len());
        match self.names.insert_full(name) {
            Ok((number, _)) => number,
            Err(_) => unreachable!(),
        }
    }
}
