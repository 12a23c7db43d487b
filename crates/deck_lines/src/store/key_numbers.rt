//! Numbered keys.

ghost use Rattle.std.specs.Prelude.{◌≡◌, ◌<◌, Some, false, length, slice_get, OnOk, MatchOption};
ghost use Rattle.std.specs.Option.{option_copied};
ghost use Rattle.def_entry.specs.Keys.{key};
ghost use Rattle.deck_lines.specs.Names.{is_key_numbered, key_number_names_of_kind, key_numbered, key_numbers_with_key};
ghost use Rattle.deck_lines.specs.Names.{no_key_number_names};
ghost use Rattle.deck_lines.specs.NumberedKeys.{key_number_names_in, spare_key_numbers_of_kind};

use super::name_set::NameSet;
use crate::key_number::KeyNumber;
use def_entry::{Key, Kind};
use std::alloc::{AllocError, Global};
use units_io::HashSeed;

/// Numbered keys, one table for each kind.
pub(crate) struct KeyNumbers {
    pub units: NameSet,
    pub prefixes: NameSet,
    pub functions: NameSet,
    pub lists: NameSet,
}

// Written by hand, so that code that drops the tables need not prove anything about their fields.
impl Drop for KeyNumbers {
    fn drop(self) {
        let KeyNumbers {
            units: _,
            prefixes: _,
            functions: _,
            lists: _,
        } = self;
    }
}

impl KeyNumbers {
    /// Returns empty tables. `seed` is their hash seed.
    pub fn new(alloc: Global, seed: HashSeed) -> KeyNumbers
        ensures { key_number_names_in result ≡ no_key_number_names }
    {
        KeyNumbers {
            units: NameSet::new(alloc, seed),
            prefixes: NameSet::new(alloc, seed),
            functions: NameSet::new(alloc, seed),
            lists: NameSet::new(alloc, seed),
        }
    }

    /// Returns the hash seed of the tables.
    pub fn table_seed(&self) -> HashSeed {
        self.units.table_seed()
    }

    /// Returns the number of a key, or `None` if it has no number.
    pub fn number_of(&self, kind: Kind, name: &[u8]) -> Option<KeyNumber>
        ensures { MatchOption result
            (is_key_numbered (key_number_names_in self.now) (key kind name.now) ≡ false)
            (λ n. key_numbered (key_number_names_in self.now) n ≡ Some (key kind name.now)) }
    {
        match self.of_kind(kind).number_of(name) {
            Some(number) => Some(KeyNumber { kind, number }),
            None => None,
        }
    }

    /// Returns the name of the key with this number, or `None` if there is no such key.
    pub fn name(&self, n: KeyNumber) -> Option<&[u8]>
        ensures { option_copied result
            ≡ slice_get (key_number_names_of_kind (key_number_names_in self.now) n.kind) n.number }
    {
        self.of_kind(n.kind).name(n.number)
    }

    /// Returns the number of keys of this kind that have a number.
    pub fn count(&self, kind: Kind) -> usize
        ensures { result ≡ length (key_number_names_of_kind (key_number_names_in self.now) kind) }
    {
        self.of_kind(kind).len()
    }

    /// Makes room for one more key of this kind.
    pub fn reserve_one(&mut self, kind: Kind) -> Result<(), AllocError>
        ensures names { key_number_names_in self.new ≡ key_number_names_in self.old }
        ensures ok { OnOk result (0 < spare_key_numbers_of_kind self.new kind) }
    {
        match kind {
            Kind::Unit => self.units.reserve_one(),
            Kind::Prefix => self.prefixes.reserve_one(),
            Kind::Func => self.functions.reserve_one(),
            Kind::List => self.lists.reserve_one(),
        }
    }

    /// Gives a key the next number of its kind, unless it has a number, and returns its number. Allocates no memory.
    pub fn put(&mut self, key: Key) -> KeyNumber
        requires { 0 < spare_key_numbers_of_kind self.old key.kind }
        ensures names { key_number_names_in self.new ≡ key_numbers_with_key (key_number_names_in self.old) key }
        ensures number { key_numbered (key_number_names_in self.new) result ≡ Some key }
    {
        let kind = key.kind;
        let name = key.into_name().into_bytes();
        let number = match kind {
            Kind::Unit => self.units.put(name),
            Kind::Prefix => self.prefixes.put(name),
            Kind::Func => self.functions.put(name),
            Kind::List => self.lists.put(name),
        };
        KeyNumber { kind, number }
    }

    // Returns the table of names of a kind.
    fn of_kind(&self, kind: Kind) -> &NameSet
        ensures { result.now.names ≡ key_number_names_of_kind (key_number_names_in self.now) kind }
    {
        match kind {
            Kind::Unit => &self.units,
            Kind::Prefix => &self.prefixes,
            Kind::Func => &self.functions,
            Kind::List => &self.lists,
        }
    }
}
