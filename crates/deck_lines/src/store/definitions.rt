//! The definitions of lines, by the numbers of keys.

ghost use Rattle.std.specs.Prelude.{◌≡◌, ◌++◌, ◌∷◌, ◌+◌, ◌<◌, [], ℕ, List, Option, Some, length, map, take, drop};
ghost use Rattle.std.specs.Prelude.{option_map, OnOk, ◌≤◌, vec_capacity, vec_len, IfOk};
ghost use Rattle.std.specs.Option.{option_copied};
ghost use Rattle.def_entry.specs.Entries as entries;
ghost use Rattle.def_entry.specs.LineViews.{seen_entry};
ghost use Rattle.def_entry.specs.declared.key.Key as key_spec;
ghost use Rattle.deck_lines.specs.StoredDefinitions.{AreStoreDefinitionsOf, HasRoomForStoreDefinition, IsStoreDefined};
ghost use Rattle.deck_lines.specs.StoredDefinitions.{keyed_store_definition, seen_store_definition};
ghost use Rattle.deck_lines.specs.StoredDefinitions.{key_numbered_definition, key_numbered_definitions};
ghost use Rattle.deck_lines.specs.Names.{KeyNumberNames, key_numbered, no_key_number_names};
ghost use Rattle.deck_lines.specs.NumberedKeys.{key_number_names_in};
ghost use Rattle.deck_lines.specs.Readings.{entry_in_store_line};
ghost use Rattle.deck_lines.specs.Renumberings.{AreKeyNumbersOfLines, key_number_names_after};
ghost use Rattle.deck_lines.specs.Stores.{key_numbers_by_definition, store_definition_at};
ghost use Rattle.deck_lines.specs.declared.line.DeckLine.{DeckLine};

use super::exchange::exchange;
use super::key_numbers::KeyNumbers;
use super::new_key_numbers::Renumbering;
use crate::key_number::KeyNumber;
use def_entry::{Key, What};
use gap_list::GapList;
use std::alloc::{AllocError, Global};
use std::mem;
use units_io::HashSeed;

/// The definition of a line: the number of its key, and the rest of the entry except its text, which is part of the
/// line.
pub struct Definition {
    pub key: KeyNumber,
    pub what: What,
}

// Written by hand, so that code that drops a definition need not prove anything about its contents.
impl Drop for Definition {
    fn drop(self) {
        let Definition { key: _, what: _ } = self;
    }
}

/// The definition of each line, and the keys that have numbers.
pub(crate) struct Definitions {
    pub of_lines: GapList<Option<Definition>>,
    pub keys: KeyNumbers,
}

// Written by hand, so that code that drops definitions need not prove anything about their contents.
impl Drop for Definitions {
    fn drop(self) {
        let Definitions {
            of_lines: _,
            keys: _,
        } = self;
    }
}

/// The definitions of lines that are to be inserted.
#[derive(Drop)]
pub struct PutDefinitions {
    pub of_lines: Vec<Option<Definition>>,
}

impl Definitions {
    /// Returns definitions of no lines, without numbered keys. `seed` is the hash seed of the tables of names.
    pub(crate) fn new(alloc: Global, seed: HashSeed) -> Definitions
        ensures lines { result.of_lines.listed ≡ [] }
        ensures names { key_number_names_in result.keys ≡ no_key_number_names }
    {
        Definitions {
            of_lines: GapList::new(alloc),
            keys: KeyNumbers::new(alloc, seed),
        }
    }

    /// Returns the definition of the line at `place`, or `None` if it defines nothing or there is no such line.
    pub(crate) fn at(&self, place: usize) -> Option<&Definition>
        ensures { (lines : List DeckLine) → AreStoreDefinitionsOf self.now (map entry_in_store_line lines)
            → option_map (seen_store_definition (key_number_names_in self.now.keys)) (option_copied result)
            ≡ option_map keyed_store_definition (store_definition_at lines place) }
    {
        match self.of_lines.get(place) {
            Some(Some(definition)) => Some(definition),
            Some(None) => None,
            None => None,
        }
    }

    /// Makes room for the definition of one more line.
    pub(crate) fn reserve_for(&mut self, definition: &Option<(Key, What)>) -> Result<(), AllocError>
        ensures lines { self.new.of_lines.listed ≡ self.old.of_lines.listed }
        ensures names { key_number_names_in self.new.keys ≡ key_number_names_in self.old.keys }
        ensures ok { OnOk result (HasRoomForStoreDefinition self.new definition.now) }
    {
        self.of_lines.reserve(1)?;
        match definition {
            Some((key, _)) => self.keys.reserve_one(key.kind),
            None => Ok(()),
        }
    }

    /// Appends the definition of one more line, and returns the number of its key. A new key gets the next number of
    /// its kind. Allocates no memory.
    pub(crate) fn put(&mut self, definition: Option<(Key, What)>) -> Option<KeyNumber>
        requires room { HasRoomForStoreDefinition self.old definition }
        ensures lines { (said : List (Option (key_spec.Key × entries.Entry))) (line : List ℕ)
            → AreStoreDefinitionsOf self.old said
            → AreStoreDefinitionsOf self.new (said ++ option_map (seen_entry line) definition ∷ []) }
        ensures names { (line : List ℕ)
            → key_number_names_in self.new.keys
            ≡ key_numbers_by_definition (key_number_names_in self.old.keys) (option_map (seen_entry line) definition) }
        ensures number { (line : List ℕ) → option_map (key_numbered (key_number_names_in self.new.keys)) result
            ≡ option_map (λ d. Some d.0) (option_map (seen_entry line) definition) }
    {
        match definition {
            Some((key, what)) => {
                let key = self.keys.put(key);
                self.of_lines.put(Some(Definition { key, what }));
                Some(key)
            }
            None => {
                self.of_lines.put(None);
                None
            }
        }
    }

    /// Keeps only the definitions of the first `len` lines.
    pub(crate) fn truncate(&mut self, len: usize)
        ensures lines { (said : List (Option (key_spec.Key × entries.Entry))) → AreStoreDefinitionsOf self.old said
            → AreStoreDefinitionsOf self.new (take len said) }
        ensures names { key_number_names_in self.new.keys ≡ key_number_names_in self.old.keys }
    {
        self.of_lines.truncate(len);
    }

    /// Removes the definition of the line at `place`.
    pub(crate) fn remove(&mut self, place: usize)
        requires { place < length self.old.of_lines.listed }
        ensures lines { (said : List (Option (key_spec.Key × entries.Entry))) → AreStoreDefinitionsOf self.old said
            → AreStoreDefinitionsOf self.new (take place said ++ drop (place + 1) said) }
        ensures names { key_number_names_in self.new.keys ≡ key_number_names_in self.old.keys }
    {
        self.of_lines.remove(place);
    }

    /// Makes room for replacing `cut` lines by `put` others, and returns an empty vector for the definitions that are
    /// removed.
    pub(crate) fn room_for(
        &mut self,
        alloc: Global,
        put: usize,
        cut: usize,
    ) -> Result<Vec<Option<Definition>>, AllocError>
        ensures lines { self.new.of_lines.listed ≡ self.old.of_lines.listed }
        ensures names { key_number_names_in self.new.keys ≡ key_number_names_in self.old.keys }
        ensures room { OnOk result (put ≤ self.new.of_lines.spare) }
        ensures gone { IfOk result (λ gone. (gone.items ≡ []) × (cut ≤ vec_capacity gone)) }
    {
        self.of_lines.reserve(put)?;
        Vec::with_capacity(alloc, cut)
    }

    /// Replaces the definitions of the `cut` lines from `at` on by `put`. Allocates no memory.
    pub(crate) fn exchange(
        &mut self,
        at: usize,
        cut: usize,
        mut put: Vec<Option<Definition>>,
        mut gone: Vec<Option<Definition>>,
    )
        requires places { at + cut ≤ length self.old.of_lines.listed }
        requires room { vec_len put ≤ self.old.of_lines.spare }
        requires hole { cut ≤ vec_capacity gone }
        requires empty { gone.items ≡ [] }
        ensures lines { (said by : List (Option (key_spec.Key × entries.Entry))) → AreStoreDefinitionsOf self.old said
            → IsStoreDefined (key_number_names_in self.old.keys) put.items by
            → AreStoreDefinitionsOf self.new (take at said ++ (by ++ drop (at + cut) said)) }
        ensures names { key_number_names_in self.new.keys ≡ key_number_names_in self.old.keys }
    {
        let mut items = self.take_items(*gone.allocator());
        exchange(&mut items, at, cut, &mut put, &mut gone);
        self.of_lines = GapList::from(items);
    }

    /// Gives new numbers to the keys that lines define, and forgets all other keys. Allocates no memory.
    pub(crate) fn renumber(&mut self, numbers: Renumbering)
        requires { length numbers.of_lines.items ≡ length self.old.of_lines.listed }
        ensures lines { (said : List (Option (key_spec.Key × entries.Entry))) → AreStoreDefinitionsOf self.old said
            → AreKeyNumbersOfLines (key_number_names_after numbers) numbers.of_lines.items said
            → AreStoreDefinitionsOf self.new said }
        ensures names { key_number_names_in self.new.keys ≡ key_number_names_after numbers }
    {
        let Renumbering { keys, of_lines } = numbers;
        let mut items = self.take_items(*of_lines.allocator());
        set_numbers(items.as_mut_slice(), of_lines.as_slice());
        self.of_lines = GapList::from(items);
        self.keys = keys;
    }

    // Returns the definitions of all lines, and leaves none.
    fn take_items(&mut self, alloc: Global) -> Vec<Option<Definition>>
        ensures items { result.items ≡ self.old.of_lines.listed }
        ensures room { self.old.of_lines.spare + vec_len result ≤ vec_capacity result }
        ensures names { key_number_names_in self.new.keys ≡ key_number_names_in self.old.keys }
    {
        mem::replace(&mut self.of_lines, GapList::new(alloc)).into_vec()
    }
}

// Gives the key of each definition the number at the same place.
fn set_numbers(definitions: &mut [Option<Definition>], numbers: &[Option<KeyNumber>])
    requires { length numbers.now ≡ length definitions.old }
    ensures { definitions.new ≡ key_numbered_definitions numbers.now definitions.old }
{
    for place in 0..definitions.len() {
        set_number(&mut definitions[place], numbers[place]);
    }
}

// Gives the key of a definition a number, if both are present.
fn set_number(definition: &mut Option<Definition>, number: Option<KeyNumber>)
    ensures { definition.new ≡ key_numbered_definition number definition.old }
{
    if let Some(definition) = definition {
        if let Some(number) = number {
            definition.key = number;
        }
    }
}

/// Returns the definition at `place`, or `None` if the line there defines nothing or there is no such line.
pub(crate) fn definition_in(definitions: &[Option<Definition>], place: usize) -> Option<&Definition>
    ensures { (names : KeyNumberNames) (lines : List DeckLine)
        → IsStoreDefined names definitions.now (map entry_in_store_line lines)
        → option_map (seen_store_definition names) (option_copied result)
        ≡ option_map keyed_store_definition (store_definition_at lines place) }
{
    match definitions.get(place) {
        Some(Some(definition)) => Some(definition),
        Some(None) => None,
        None => None,
    }
}
