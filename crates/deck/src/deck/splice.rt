//! Replacing lines by others.

ghost use Rattle.std.specs.Prelude.{◌≡◌, ◌≤◌, ◌+◌, ◌↔◌, length, map, IfOk, IsTrue};
ghost use Rattle.deck_lines.specs.StoredDefinitions.{IsStoreDefined};
ghost use Rattle.deck_lines.specs.Readings.{entry_in_store_line};
ghost use Rattle.deck.specs.Changes.{IsDeckTableChange};
ghost use Rattle.deck.specs.LastPlaces.{AreLastDefinitionPlaces, IsDeckIndexed};
ghost use Rattle.deck.specs.Splices as splices;
ghost use Rattle.deck.specs.Tables.{active_definitions, table_of_deck_definitions};

use super::Deck;
use crate::places::{LastPlaces, keys_between};
use crate::settings::Settings;
use crate::splice::Splice;
use deck_lines::{EditedLines, LineStore, PutDefinitions, can_exchange};
use def_entry::Keys;
use std::alloc::{AllocError, Global};
use std::mem;

impl Deck {
    /// Returns whether a splice can be made: the lines that it removes exist, and the resulting lines are closed and
    /// within the limits. The only error is running out of memory. Makes one pass over the deck.
    pub fn can_splice(&self, alloc: Global, change: &Splice) -> Result<bool, AllocError>
        ensures { IfOk result (λ can. IsTrue can ↔ splices.CanSpliceDeck change.now self.now) }
    {
        let put = change.put.as_slice();
        can_exchange(alloc, &self.store, change.at, change.cut, put)
    }

    /// Replaces lines and settings, and returns the keys whose entries change and the splice that undoes this one. The
    /// notices stay. The only error is running out of memory; it hands the splice back, and the deck is unchanged.
    /// Makes one pass over the deck.
    pub fn splice(
        &mut self,
        alloc: Global,
        change: Splice,
    ) -> Result<(Keys, Splice), (Splice, AllocError)>
        requires { splices.CanSpliceDeck change self.old }
        ensures { splices.IsDeckSpliced change self.old self.new result }
    {
        let result = self.replace_lines(alloc, change);
        self.renumber_if_sparse(alloc);
        result
    }

    // Does the work of `splice`. All keys keep their numbers.
    fn replace_lines(
        &mut self,
        alloc: Global,
        change: Splice,
    ) -> Result<(Keys, Splice), (Splice, AllocError)>
        requires { splices.CanSpliceDeck change self.old }
        ensures { splices.IsDeckSpliced change self.old self.new result }
    {
        self.covered_lines = None;
        let Ok(changes) = find_changes(alloc, &mut self.store, &self.last, &self.settings, &change)
        else {
            return Err((change, AllocError));
        };
        let put_len = change.put.len();
        let gone = match self.store.exchange(
            alloc,
            change.at,
            change.cut,
            change.put,
            changes.definitions,
        ) {
            Ok(gone) => gone,
            Err(refused) => {
                let put = refused.value;
                return Err((Splice { put, ..change }, AllocError));
            }
        };
        self.last = changes.last;
        let settings = mem::replace(&mut self.settings, change.settings);
        let inverse = Splice {
            at: change.at,
            cut: put_len,
            put: gone,
            settings,
        };
        Ok((changes.keys, inverse))
    }
}

// The effects of a splice, computed before it is made: the definitions of its lines, the last places afterwards, and
// the keys whose entries change.
#[derive(Drop)]
struct SpliceChanges {
    definitions: PutDefinitions,
    last: LastPlaces,
    keys: Keys,
}

// Computes the effects of a splice. Keys of the lines to be put get numbers; nothing else changes.
fn find_changes(
    alloc: Global,
    store: &mut LineStore,
    last: &LastPlaces,
    settings: &Settings,
    change: &Splice,
) -> Result<SpliceChanges, AllocError>
    requires places { change.now.at + change.now.cut ≤ length store.old.lines }
    requires indexed { IsDeckIndexed store.old settings.now last.now }
    ensures lines { store.new.lines ≡ store.old.lines }
    ensures indexed { IsDeckIndexed store.new settings.now last.now }
    ensures defined { IfOk result (λ found.
        IsStoreDefined store.new.names found.definitions.of_lines.items (map entry_in_store_line change.now.put)) }
    ensures last { IfOk result (λ found. AreLastDefinitionPlaces store.new.names
        (active_definitions change.now.settings (splices.spliced_deck_lines change.now store.old.lines)) found.last) }
    ensures keys { IfOk result
        (λ found. IsDeckTableChange (table_of_deck_definitions (active_definitions settings.now store.old.lines))
        (table_of_deck_definitions
        (active_definitions change.now.settings (splices.spliced_deck_lines change.now store.old.lines))) found.keys) }
{
    let put = change.put.as_slice();
    let definitions = store.read(alloc, put)?;
    let edited = EditedLines::with_exchange(store, change.at, change.cut, put, &definitions);
    let now = LastPlaces::under_edited(alloc, &change.settings, &edited)?;
    let keys = keys_between(alloc, &edited, last, &now)?;
    Ok(SpliceChanges {
        definitions,
        last: now,
        keys,
    })
}
