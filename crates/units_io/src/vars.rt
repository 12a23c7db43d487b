//! Names with their values.
ghost use Rattle.std.specs.Prelude.{◌≡◌, ◌-◌, ◌++◌, ◌∷◌, [], length, IfNone, IfOk, OnOk, OnErr, slice_get};
ghost use Rattle.std.specs.Prelude.{option_map, take};
ghost use Rattle.std.specs.Option.{option_copied};
ghost use Rattle.units_io.specs.NamedValues.{named_text, with_named_text, SetsNamedText, HasNoTextOfName};
ghost use Rattle.units_io.specs.NamedValues.{HasDistinctTextNames};

use crate::hash_seed::HashSeed;
use crate::text::Text;
use std::alloc::{AllocError, Global};
use std::collections::HashMap;
use std::marker::Model;

/// An ordered list of pairs of a name and its value, in which the names are distinct. A lookup uses no memory, and its
/// time does not depend on the number of pairs.
pub struct Vars {
    // The place of each name in `pairs`.
    places: HashMap<Vec<u8>, usize, HashSeed>,
    pairs: Vec<(Text, Text)>,
}

impl Drop for Vars {
    fn drop(self) {
        let Vars {
            places: _,
            pairs: _,
        } = self;
    }
}

impl Model for Vars {
    ghost use Rattle.units_io.specs.NamedValues.{NamedTexts, HasDistinctTextNames};
    ghost use Rattle.units_io.specs.NamePlaces.{AreNamePlaces, name_place};

    ghost Value = { NamedTexts };

    ghost view = { λ vars. vars.pairs.items };

    ghost invariant = { λ vars. HasDistinctTextNames vars.pairs.items
        × AreNamePlaces (name_place vars.places) vars.pairs.items };
}

impl Vars {
    /// Creates an empty list whose table uses the fixed seed.
    pub fn new(alloc: Global) -> Vars
        ensures { result ≡ [] }
    {
        Vars::with_seed(alloc, HashSeed::fixed_seed())
    }

    /// Creates an empty list whose table uses this seed.
    pub fn with_seed(alloc: Global, seed: HashSeed) -> Vars
        ensures { result ≡ [] }
    {
        Vars {
            places: HashMap::with_hasher(alloc, seed),
            pairs: Vec::new(alloc),
        }
    }

    /// Returns the seed of the table.
    pub fn table_seed(&self) -> HashSeed {
        *self.places.hasher()
    }

    /// Appends a pair whose name is new: `value` must return `None` for it. On an error nothing changes.
    pub fn push(&mut self, alloc: Global, item: (Text, Text)) -> Result<(), AllocError>
        requires { HasNoTextOfName self.old item.0 }
        ensures ok { OnOk result (self.new ≡ self.old ++ item ∷ []) }
        ensures err { OnErr result (self.new ≡ self.old) }
    {
        let name = Vec::from_slice(alloc, item.0.as_bytes())?;
        self.pairs.reserve(1)?;
        self.places.insert(name, self.pairs.len())?;
        self.pairs.push_reserved(item);
        Ok(())
    }

    /// Appends a copy of a pair whose name is new. On an error nothing changes.
    pub(crate) fn push_copy(
        &mut self,
        alloc: Global,
        name: &[u8],
        value: &[u8],
    ) -> Result<(), AllocError>
        requires { HasNoTextOfName self.old name.now }
        ensures ok { OnOk result (self.new ≡ self.old ++ (name.now, value.now) ∷ []) }
        ensures err { OnErr result (self.new ≡ self.old) }
    {
        let name = Text::from_bytes(alloc, name)?;
        let value = Text::from_bytes(alloc, value)?;
        self.push(alloc, (name, value))
    }

    /// Sets the value of a name: replaces the current value if the name has one, and appends a new pair otherwise. On
    /// an error nothing changes.
    pub fn set(&mut self, alloc: Global, name: Text, value: Text) -> Result<(), AllocError>
        ensures ok { OnOk result (self.new ≡ with_named_text self.old name value) }
        ensures values { OnOk result (SetsNamedText self.old self.new name value) }
        ensures err { OnErr result (self.new ≡ self.old) }
        ensures distinct { HasDistinctTextNames self.new }
    {
        match self.places.get(name.as_bytes()).copied() {
            Some(place) => {
                self.pairs[place] = (name, value);
                Ok(())
            }
            None => self.push(alloc, (name, value)),
        }
    }

    /// Drops the pairs from index `len` on. This uses no memory, and no time for the pairs before that index.
    pub fn truncate(&mut self, len: usize)
        ensures { self.new ≡ take len self.old }
    {
        while len < self.len() {
            self.remove_last();
        }
    }

    // Removes the last pair, if there is one.
    fn remove_last(&mut self)
        ensures { self.new ≡ take (length self.old - 1) self.old }
    {
        if let Some(pair) = self.pairs.pop() {
            self.places.remove(pair.0.as_bytes());
        }
    }

    /// Returns the number of pairs.
    pub fn len(&self) -> usize
        ensures len { result ≡ length self.now }
        ensures distinct { HasDistinctTextNames self.now }
    {
        self.pairs.len()
    }

    /// Returns the name and the value of the pair at index `i`, counted from 0, or `None` if `i` is out of bounds.
    pub fn get(&self, i: usize) -> Option<(&[u8], &Text)>
        ensures { option_map (λ pair. (pair.0.now, pair.1.now)) result ≡ slice_get self.now i }
    {
        let pair = self.pairs.get(i)?;
        Some((pair.0.as_bytes(), &pair.1))
    }

    /// Returns the value of the pair with this name, or `None` if no pair has it.
    pub fn value(&self, name: &[u8]) -> Option<&Text>
        ensures value { option_copied result ≡ named_text self.now name.now }
        ensures absent { IfNone result (HasNoTextOfName self.now name.now) }
    {
        let place = self.places.get(name).copied()?;
        Some(&self.pairs[place].1)
    }

    /// Returns a copy of the list that owns its memory and whose table uses the same seed.
    pub fn copy(&self, alloc: Global) -> Result<Vars, AllocError>
        ensures { IfOk result (λ copy. copy ≡ self.now) }
    {
        let mut copy = Vars::with_capacity(alloc, self.len(), self.table_seed())?;
        while let Some((name, value)) = self.get(copy.len()) {
            copy.push_copy(alloc, name, value.as_bytes())?;
        }
        Ok(copy)
    }

    // Creates an empty list with memory for this number of pairs, whose table uses this seed.
    fn with_capacity(alloc: Global, len: usize, seed: HashSeed) -> Result<Vars, AllocError>
        ensures { IfOk result (λ vars. vars ≡ []) }
    {
        let places = HashMap::with_capacity_and_hasher(alloc, len, seed)?;
        let pairs = Vec::with_capacity(alloc, len)?;
        Ok(Vars { places, pairs })
    }
}
