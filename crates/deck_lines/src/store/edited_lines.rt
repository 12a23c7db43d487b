//! The lines of a store as they will be after an edit.

ghost use Rattle.std.specs.Prelude.{◌≡◌, ◌≤◌, ◌<◌, ◌+◌, Some, false, length, map, slice_get, option_map};
ghost use Rattle.std.specs.Bool.{OnTrue};
ghost use Rattle.std.specs.Option.{option_copied};
ghost use Rattle.def_entry.specs.Views.{entry_view};
ghost use Rattle.deck_lines.specs.StoreEdits.{store_after, store_before, store_unedited};
ghost use Rattle.deck_lines.specs.StoredDefinitions.{IsStoreDefined, keyed_store_definition, seen_store_definition};
ghost use Rattle.deck_lines.specs.Limits.{pass_store_limit};
ghost use Rattle.deck_lines.specs.Names.{key_number_names_of_kind, key_numbered};
ghost use Rattle.deck_lines.specs.KeyNumbering.{IsKeyNumbering};
ghost use Rattle.deck_lines.specs.Origins.{exchanged_store_lines};
ghost use Rattle.deck_lines.specs.Readings.{entry_in_store_line};
ghost use Rattle.deck_lines.specs.Stores.{store_definition_at};

use super::definitions::{Definition, PutDefinitions, definition_in};
use super::line_store::LineStore;
use super::origins::{Origin, line_at, origin_of};
use crate::key_number::KeyNumber;
use crate::line::{BorrowedLine, DeckLine};
use def_entry::{Entry, Kind};
use std::marker::Model;

/// A view of a store in which some lines are replaced by others, before the store itself is changed.
#[derive(Drop)]
pub struct EditedLines<'a> {
    store: &'a LineStore,
    at: usize,
    cut: usize,
    put: &'a [DeckLine],
    definitions: &'a [Option<Definition>],
}

impl<'a> Model for EditedLines<'a> {
    ghost use Rattle.deck_lines.specs.StoreEdits.{AreStoreLinesPut, StoreEdit};
    ghost use Rattle.deck_lines.specs.Origins.{exchanged_store_lines};

    ghost Value = { StoreEdit };

    ghost view = { λ e. record {
      old_lines = e.store.now.lines;
      new_lines = exchanged_store_lines e.at e.cut e.put.now e.store.now.lines;
      names = e.store.now.names;
    } };

    ghost invariant = { λ e. AreStoreLinesPut e.store.now e.at e.cut e.put.now e.definitions.now };
}

impl<'a> EditedLines<'a> {
    /// Returns a view of the store without a change.
    pub fn without_change(store: &'a LineStore) -> EditedLines<'a>
        ensures is { result ≡ store_unedited store.now }
        ensures within { pass_store_limit store.now.lines ≡ false }
    {
        EditedLines {
            store,
            at: store.lines().len(),
            cut: 0,
            put: &[],
            definitions: &[],
        }
    }

    /// Returns a view in which the `cut` lines from `at` on are replaced by `put`.
    pub fn with_exchange(
        store: &'a LineStore,
        at: usize,
        cut: usize,
        put: &'a [DeckLine],
        definitions: &'a PutDefinitions,
    ) -> EditedLines<'a>
        requires places { at + cut ≤ length store.now.lines }
        requires defined { IsStoreDefined store.now.names definitions.now.of_lines.items
            (map entry_in_store_line put.now) }
        ensures { result ≡ record {
          old_lines = store.now.lines;
          new_lines = exchanged_store_lines at cut put.now store.now.lines;
          names = store.now.names;
        } }
    {
        EditedLines {
            store,
            at,
            cut,
            put,
            definitions: definitions.of_lines.as_slice(),
        }
    }

    /// Returns a view of the lines before the edit.
    pub fn before(&self) -> EditedLines<'_>
        ensures { result ≡ store_unedited (store_before self.now) }
    {
        EditedLines::without_change(self.store)
    }

    /// Returns the number of lines after the edit.
    pub fn len(&self) -> usize
        ensures { result ≡ length self.now.new_lines }
    {
        self.store.lines_few();
        self.store.len() - self.cut + self.put.len()
    }

    /// Returns the line at `place` after the edit.
    pub fn line(&self, place: usize) -> BorrowedLine<'_>
        requires { place < length self.now.new_lines }
        ensures { slice_get self.now.new_lines place
            ≡ Some (record { number = result.number; text = result.text.now; mark = result.mark }) }
    {
        line_at(self.store, self.at, self.cut, self.put, place)
    }

    /// Reports whether the edit keeps the line at place `before` and moves it to place `after`. No text is read.
    pub fn is_left(&self, before: usize, after: usize) -> bool
        ensures { OnTrue result (slice_get self.now.new_lines after ≡ slice_get self.now.old_lines before) }
    {
        match origin_of(self.store.len(), self.at, self.cut, self.put.len(), after) {
            Origin::Stored(place) => place == before,
            Origin::Put(_) => false,
            Origin::Past => false,
        }
    }

    /// Returns the entry that the line at `place` defines, or `None` if it defines nothing or there is no such line.
    pub fn entry(&self, place: usize) -> Option<Entry<'_>>
        ensures { option_map entry_view result ≡ option_map (λ d. d.1) (store_definition_at self.now.new_lines place) }
    {
        match self.definition(place) {
            Some(definition) => Some(Entry {
                line: self.line(place).text,
                what: &definition.what,
            }),
            None => None,
        }
    }

    /// Returns the number of the key that the line at `place` defines, or `None` if it defines nothing or there is no
    /// such line.
    pub fn key_number(&self, place: usize) -> Option<KeyNumber>
        ensures number { option_map (key_numbered self.now.names) result
            ≡ option_map (λ d. Some d.0) (store_definition_at self.now.new_lines place) }
        ensures numbering { IsKeyNumbering (store_after self.now) }
    {
        match self.definition(place) {
            Some(definition) => Some(definition.key),
            None => None,
        }
    }

    /// Returns the name of the key with this number, or `None` if there is no such key.
    pub fn name(&self, n: KeyNumber) -> Option<&[u8]>
        ensures { option_copied result ≡ slice_get (key_number_names_of_kind self.now.names n.kind) n.number }
    {
        self.store.name(n)
    }

    /// Returns the number of keys of a kind that have a number.
    pub fn name_count(&self, kind: Kind) -> usize
        ensures count { result ≡ length (key_number_names_of_kind self.now.names kind) }
        ensures before { IsKeyNumbering (store_before self.now) }
        ensures after { IsKeyNumbering (store_after self.now) }
    {
        self.store.name_count(kind)
    }

    // Returns the definition of the line at `place`, or `None` if it defines nothing or there is no such line.
    fn definition(&self, place: usize) -> Option<&Definition>
        ensures is { option_map (seen_store_definition self.now.names) (option_copied result)
            ≡ option_map keyed_store_definition (store_definition_at self.now.new_lines place) }
        ensures numbering { IsKeyNumbering (store_after self.now) }
    {
        match origin_of(self.store.len(), self.at, self.cut, self.put.len(), place) {
            Origin::Stored(place) => self.store.definition(place),
            Origin::Put(place) => definition_in(self.definitions, place),
            Origin::Past => None,
        }
    }
}
