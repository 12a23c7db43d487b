//! A deck with its entries, indexed by key.

ghost use Rattle.std.specs.Prelude.{◌≡◌, ◌≤◌, false, length, map, option_map, IfOk, OnOk};
ghost use Rattle.def_entry.specs.Keys as key_spec;
ghost use Rattle.def_entry.specs.Views.{entry_view};
ghost use Rattle.deck_lines.specs.ClosedBlocks.{AreBlocksClosed};
ghost use Rattle.deck_lines.specs.Limits.{most_store_lines, pass_store_limit};
ghost use Rattle.deck_lines.specs.Marks.{store_line_without_mark};
ghost use Rattle.deck.specs.KeyLists as lists;
ghost use Rattle.deck.specs.Tables as tables;

mod define;
mod defining_lines;
mod drop_last;
mod entry_hint;
mod file_append;
mod file_load;
mod key_removal;
mod keys;
mod lines_from;
mod placed_keys;
mod setting_change;
mod snapshot;
mod splice;
mod switch;
mod texts;
mod undefine;

use crate::places::{CoveredLines, LastPlaces};
use crate::settings::Settings;
use deck_lines::LineStore;
use def_entry::{Entry, Key, Kind};
use def_lines::Lines;
pub use keys::BorrowedKey;
use std::alloc::{AllocError, Global};
use std::marker::Model;
use units_io::Texts;

/// The lines of a deck, with the settings that decide which of them are active. The covered lines are found by the
/// first drop, and forgotten by an edit of more than one line.
pub struct Deck {
    store: LineStore,
    last: LastPlaces,
    covered_lines: Option<CoveredLines>,
    settings: Settings,
    notices: Texts,
}

// Written by hand, so that code that drops a deck need not prove anything about its fields.
impl Drop for Deck {
    fn drop(self) {
        let Deck {
            store: _,
            last: _,
            covered_lines: _,
            settings: _,
            notices: _,
        } = self;
    }
}

impl Model for Deck {
    ghost use Rattle.deck.specs.Decks.{DeckContents};
    ghost use Rattle.deck.specs.CoveredLines.{AreDeckPlaces};

    ghost Value = { DeckContents };

    ghost view = { λ d. record { lines = d.store.lines; settings = d.settings; notices = d.notices } };

    ghost invariant = { λ d. AreDeckPlaces d.store d.settings d.last d.covered_lines };
}

impl Deck {
    /// Builds the deck of these lines under these settings. The only error is running out of memory.
    pub(crate) fn from_parts(
        alloc: Global,
        store: LineStore,
        settings: Settings,
        notices: Texts,
    ) -> Result<Deck, AllocError>
        requires { AreBlocksClosed store.lines }
        ensures is { IfOk result (λ d. d ≡ record { lines = store.lines; settings = settings; notices = notices }) }
        ensures within { OnOk result (pass_store_limit store.lines ≡ false) }
    {
        let last = LastPlaces::under(alloc, &settings, &store)?;
        Ok(Deck {
            store,
            last,
            covered_lines: None,
            settings,
            notices,
        })
    }

    /// Returns the entry of the last active line of a key, or `None` if no active line defines it. Allocates no memory.
    pub fn entry(&self, kind: Kind, name: &[u8]) -> Option<Entry<'_>>
        ensures { option_map entry_view result
            ≡ tables.entry_at (tables.table_of_deck self.now) (key_spec.key kind name.now) }
    {
        let Some(place) = self.place_of(kind, name) else {
            return None;
        };
        self.store.entry(place)
    }

    /// Returns the number of keys of this kind that have an entry.
    pub fn key_count(&self, kind: Kind) -> usize
        ensures { result ≡ lists.deck_key_count (tables.table_of_deck self.now) kind }
    {
        self.last.count(kind)
    }

    /// Returns the place in `lines`, counted from 0, of the last active line of a key, or `None` if there is none.
    pub fn last_place(&self, key: &Key) -> Option<usize>
        ensures { result ≡ tables.last_definition_place self.now.settings self.now.lines key.now }
    {
        self.place_of(key.kind, key.name.as_bytes())
    }

    /// A lemma: a deck has at most 100,000 lines.
    pub fn lines_few(&self)
        ensures { length self.now.lines ≤ most_store_lines }
    {
        self.store.lines_few();
    }

    /// A lemma: the lines of a deck are closed and within the limits.
    pub fn lines_closed(&self)
        ensures closed { AreBlocksClosed self.now.lines }
        ensures within { pass_store_limit self.now.lines ≡ false }
    {
        let _ = self.lines();
    }

    /// Returns the lines without their marks.
    pub fn lines(&self) -> &Lines
        ensures is { result.now ≡ map store_line_without_mark self.now.lines }
        ensures closed { AreBlocksClosed self.now.lines }
        ensures within { pass_store_limit self.now.lines ≡ false }
    {
        self.store.lines()
    }

    /// Returns the notices of the last load or append.
    pub fn notices(&self) -> &Texts
        ensures { result.now ≡ self.now.notices }
    {
        &self.notices
    }

    /// Returns the settings.
    pub fn settings(&self) -> &Settings
        ensures { result.now ≡ self.now.settings }
    {
        &self.settings
    }

    /// Returns the place in `lines`, counted from 0, of the last active line of a key, or `None` if there is none.
    /// Allocates no memory.
    pub fn place_of(&self, kind: Kind, name: &[u8]) -> Option<usize>
        ensures { result ≡ tables.last_definition_place self.now.settings self.now.lines (key_spec.key kind name.now) }
    {
        let Some(number) = self.store.number_of(kind, name) else {
            return None;
        };
        self.last.get(number)
    }
}
