//! The store of the lines of a deck.

ghost use Rattle.std.specs.Prelude.{◌≡◌, ◌++◌, ◌∷◌, ◌+◌, ◌<◌, [], Some, false, not, length, map, take, drop, slice_get};
ghost use Rattle.std.specs.Prelude.{option_map, OnOk, OnErr, IfOk, MatchOption, ◌≤◌, IfErr};
ghost use Rattle.std.specs.Option.{option_copied};
ghost use Rattle.def_entry.specs.Keys.{key};
ghost use Rattle.def_entry.specs.LineViews.{seen_entry};
ghost use Rattle.def_entry.specs.Views.{entry_view};
ghost use Rattle.deck_lines.specs.Exchanges.{IsStoreExchanged};
ghost use Rattle.deck_lines.specs.StoredDefinitions.{IsStoreDefined, keyed_store_definition, seen_store_definition};
ghost use Rattle.deck_lines.specs.Limits.{most_store_lines, pass_store_limit};
ghost use Rattle.deck_lines.specs.Loads.{store_with_lines};
ghost use Rattle.deck_lines.specs.Marks.{store_line_with_mark, store_line_without_mark};
ghost use Rattle.deck_lines.specs.Names.{AreKeyNumbersExtended, is_key_numbered, key_number_names_of_kind};
ghost use Rattle.deck_lines.specs.Names.{key_numbered};
ghost use Rattle.deck_lines.specs.KeyNumbering.{IsKeyNumbering};
ghost use Rattle.deck_lines.specs.Readings.{entry_in_store_line};
ghost use Rattle.deck_lines.specs.Renumberings.{IsKeyRenumbering};
ghost use Rattle.deck_lines.specs.Stores.{store_definition_at, store_with_line, store_without_lines};
ghost use Rattle.deck_lines.specs.declared.line.DeckLine as line_spec;

use super::definitions::{Definition, Definitions, PutDefinitions};
use super::line_list::LineList;
use super::new_key_numbers::Renumbering;
use super::reads::read_definitions;
use crate::key_number::KeyNumber;
use crate::line::{BorrowedLine, DeckLine, DeckLines};
use def_entry::{Entry, Key, Kind, What};
use def_lines::{Line, Lines};
use std::alloc::{AllocError, AllocFailed, Global};
use std::marker::Model;
use units_io::HashSeed;

/// The lines of a deck with their marks and definitions, and the numbers of the keys that they define or once defined:
/// a key keeps its number after the lines that defined it are removed, until `renumber`.
pub struct LineStore {
    lines: LineList,
    definitions: Definitions,
}

// Written by hand, so that code that drops a store need not prove anything about its fields.
impl Drop for LineStore {
    fn drop(self) {
        let LineStore {
            lines: _,
            definitions: _,
        } = self;
    }
}

impl Model for LineStore {
    ghost use Rattle.deck_lines.specs.NumberedKeys.{key_number_names_in};
    ghost use Rattle.deck_lines.specs.Stores.{LineStoreView};

    ghost Value = { LineStoreView };

    ghost use Rattle.deck_lines.specs.StoredDefinitions.{HoldsStoreDefinitions};

    ghost view = { λ s. record { lines = s.lines; names = key_number_names_in s.definitions.keys } };

    ghost invariant = { λ s. HoldsStoreDefinitions s.lines s.definitions };
}

impl LineStore {
    /// Returns a store without lines and numbered keys. `seed` is the hash seed of its tables of names.
    pub fn new(alloc: Global, seed: HashSeed) -> LineStore
        ensures { result ≡ store_without_lines }
    {
        LineStore {
            lines: LineList::new(alloc),
            definitions: Definitions::new(alloc, seed),
        }
    }

    /// Returns the hash seed of the tables of names.
    pub fn table_seed(&self) -> HashSeed {
        self.definitions.keys.table_seed()
    }

    /// Returns the number of lines.
    pub fn len(&self) -> usize
        ensures count { result ≡ length self.now.lines }
        ensures numbering { IsKeyNumbering self.now }
    {
        self.lines.len()
    }

    /// A lemma: the store has at most `MOST_LINES` lines.
    pub fn lines_few(&self)
        ensures { length self.now.lines ≤ most_store_lines }
    {
        let _ = self.lines();
    }

    /// Returns the lines without their marks.
    pub fn lines(&self) -> &Lines
        ensures lines { result.now ≡ map store_line_without_mark self.now.lines }
        ensures within { pass_store_limit self.now.lines ≡ false }
    {
        self.lines.lines()
    }

    /// Returns the line at `place` with its mark.
    pub fn line(&self, place: usize) -> BorrowedLine<'_>
        requires { place < length self.now.lines }
        ensures is { slice_get self.now.lines place
            ≡ Some (record { number = result.number; text = result.text.now; mark = result.mark }) }
        ensures within { pass_store_limit self.now.lines ≡ false }
    {
        self.lines.line(place)
    }

    /// Reports whether one more line with a text of `len` bytes is within the limits.
    pub fn has_room(&self, len: usize) -> bool
        ensures { (line : line_spec.DeckLine) → length line.text ≡ len
            → pass_store_limit (self.now.lines ++ line ∷ []) ≡ not result }
    {
        self.lines.has_room(len)
    }

    /// Appends a line with its mark and its definition, and returns the number of the key that it defines, or `None` if
    /// it defines nothing. On an error nothing changes.
    pub fn push(
        &mut self,
        alloc: Global,
        line: Line,
        mark: bool,
        definition: Option<(Key, What)>,
    ) -> Result<Option<KeyNumber>, AllocError>
        requires reads { option_map (seen_entry line.text) definition
            ≡ entry_in_store_line (store_line_with_mark mark line) }
        requires room { pass_store_limit (self.old.lines ++ store_line_with_mark mark line ∷ []) ≡ false }
        ensures ok { OnOk result (self.new ≡ store_with_line self.old (store_line_with_mark mark line)) }
        ensures number { IfOk result (λ n. option_map (key_numbered self.new.names) n
            ≡ option_map (λ d. Some d.0) (entry_in_store_line (store_line_with_mark mark line))) }
        ensures err { OnErr result (self.new ≡ self.old) }
    {
        self.definitions.reserve_for(&definition)?;
        self.lines.push(alloc, line, mark)?;
        Ok(self.definitions.put(definition))
    }

    /// Returns the entry that the line at `place` defines, or `None` if it defines nothing or there is no such line.
    pub fn entry(&self, place: usize) -> Option<Entry<'_>>
        ensures { option_map entry_view result ≡ option_map (λ d. d.1) (store_definition_at self.now.lines place) }
    {
        match self.definitions.at(place) {
            Some(definition) => Some(Entry {
                line: self.lines.line(place).text,
                what: &definition.what,
            }),
            None => None,
        }
    }

    /// Returns the number of the key that the line at `place` defines, or `None` if it defines nothing or there is no
    /// such line.
    pub fn key_number(&self, place: usize) -> Option<KeyNumber>
        ensures number { option_map (key_numbered self.now.names) result
            ≡ option_map (λ d. Some d.0) (store_definition_at self.now.lines place) }
        ensures numbering { IsKeyNumbering self.now }
    {
        match self.definitions.at(place) {
            Some(definition) => Some(definition.key),
            None => None,
        }
    }

    /// Returns the number of a key, or `None` if it has no number. Different keys have different numbers. Allocates no
    /// memory.
    pub fn number_of(&self, kind: Kind, name: &[u8]) -> Option<KeyNumber>
        ensures number { MatchOption result
            (is_key_numbered self.now.names (key kind name.now) ≡ false)
            (λ n. key_numbered self.now.names n ≡ Some (key kind name.now)) }
        ensures numbering { IsKeyNumbering self.now }
    {
        self.definitions.keys.number_of(kind, name)
    }

    /// Returns the name of the key with this number, or `None` if there is no such key.
    pub fn name(&self, n: KeyNumber) -> Option<&[u8]>
        ensures { option_copied result ≡ slice_get (key_number_names_of_kind self.now.names n.kind) n.number }
    {
        self.definitions.keys.name(n)
    }

    /// Returns the number of keys of a kind that have a number. Their numbers are those from 0 to one less than this
    /// count.
    pub fn name_count(&self, kind: Kind) -> usize
        ensures count { result ≡ length (key_number_names_of_kind self.now.names kind) }
        ensures numbering { IsKeyNumbering self.now }
    {
        self.definitions.keys.count(kind)
    }

    /// Returns the number of keys of all kinds that have a number.
    pub fn key_count(&self) -> usize {
        let keys = &self.definitions.keys;
        let units_and_prefixes = keys
            .count(Kind::Unit)
            .saturating_add(keys.count(Kind::Prefix));
        let functions_and_lists = keys
            .count(Kind::Func)
            .saturating_add(keys.count(Kind::List));
        units_and_prefixes.saturating_add(functions_and_lists)
    }

    /// Gives these numbers to the keys that lines define, and forgets all other keys. Allocates no memory.
    pub fn renumber(&mut self, numbers: Renumbering)
        requires { IsKeyRenumbering self.old.lines numbers }
        ensures { self.new ≡ store_with_lines store_without_lines self.old.lines }
    {
        self.definitions.renumber(numbers);
    }

    /// Keeps only the first `len` lines, or all lines if there are fewer. Keys keep their numbers. Allocates no memory.
    pub fn truncate(&mut self, len: usize)
        ensures lines { self.new.lines ≡ take len self.old.lines }
        ensures names { self.new.names ≡ self.old.names }
    {
        self.lines.truncate(len);
        self.definitions.truncate(len);
    }

    /// Removes the line at `place`. Keys keep their numbers. Allocates no memory.
    pub fn remove(&mut self, place: usize)
        requires { place < length self.old.lines }
        ensures lines { self.new.lines ≡ take place self.old.lines ++ drop (place + 1) self.old.lines }
        ensures names { self.new.names ≡ self.old.names }
    {
        self.lines.remove(place);
        self.definitions.remove(place);
    }

    /// Reads the definitions of lines that are to be inserted, and gives numbers to their keys. The lines of the store
    /// and the existing numbers of keys do not change, even on an error.
    pub fn read(&mut self, alloc: Global, lines: &[DeckLine]) -> Result<PutDefinitions, AllocError>
        ensures lines { self.new.lines ≡ self.old.lines }
        ensures extended { AreKeyNumbersExtended self.old.names self.new.names }
        ensures before { IsKeyNumbering self.old }
        ensures after { IsKeyNumbering self.new }
        ensures ok { IfOk result (λ put. IsStoreDefined self.new.names put.of_lines.items
            (map entry_in_store_line lines.now)) }
    {
        read_definitions(alloc, &mut self.definitions.keys, lines)
    }

    // Returns the definition of the line at `place`, or `None` if it defines nothing or there is no such line.
    pub(super) fn definition(&self, place: usize) -> Option<&Definition>
        ensures { option_map (seen_store_definition self.now.names) (option_copied result)
            ≡ option_map keyed_store_definition (store_definition_at self.now.lines place) }
    {
        self.definitions.at(place)
    }

    /// Replaces the `cut` lines from `at` on by `put`, whose definitions are `definitions`, and returns the replaced
    /// lines. Keys keep their numbers. If an allocation fails, the error hands `put` back and nothing changes.
    pub fn exchange(
        &mut self,
        alloc: Global,
        at: usize,
        cut: usize,
        put: DeckLines,
        definitions: PutDefinitions,
    ) -> Result<DeckLines, AllocFailed<DeckLines>>
        requires places { at + cut ≤ length self.old.lines }
        requires within { pass_store_limit (take at self.old.lines ++ (put ++ drop (at + cut) self.old.lines)) ≡ false }
        requires defined { IsStoreDefined self.old.names definitions.of_lines.items (map entry_in_store_line put) }
        ensures ok { OnOk result (IsStoreExchanged at cut put self.old.lines self.new.lines) }
        ensures gone { IfOk result (λ gone. gone ≡ take cut (drop at self.old.lines)) }
        ensures names { self.new.names ≡ self.old.names }
        ensures err { OnErr result (self.new ≡ self.old) }
        ensures back { IfErr result (λ refused. refused.value ≡ put) }
    {
        let Ok(room) = self.definitions.room_for(alloc, put.len(), cut) else {
            return Err(AllocFailed { value: put });
        };
        let gone = self.lines.exchange(alloc, at, cut, put)?;
        self.definitions
            .exchange(at, cut, definitions.of_lines, room);
        Ok(gone)
    }
}
