//! Appending a definition to a deck.

ghost use Rattle.std.specs.Prelude.{◌≡◌, ◌<◌, ◌++◌, ◌∷◌, ◌⊎◌, [], Some, Err, not, false, length, IfOk, IfErr, IfSome};
ghost use Rattle.std.specs.Prelude.{OnErr, OnOk, option_map};
ghost use Rattle.def_lines.specs.Blanks.{trimmed_of_blanks};
ghost use Rattle.def_entry.specs.Keys as keys;
ghost use Rattle.def_entry.specs.LineViews.{seen_entry};
ghost use Rattle.def_entry.specs.Views.{entry_view};
ghost use Rattle.deck_lines.specs.ClosedBlocks.{AreBlocksClosed};
ghost use Rattle.deck_lines.specs.Limits.{pass_store_limit};
ghost use Rattle.deck_lines.specs.Marks.{plain_store_line, store_line_with_mark};
ghost use Rattle.deck_lines.specs.Names.{key_number_names_of_kind};
ghost use Rattle.deck_lines.specs.Readings.{entry_in_store_line};
ghost use Rattle.deck_lines.specs.Stores as stores;
ghost use Rattle.deck.specs.Changes.{IsEditChange};
ghost use Rattle.deck.specs.Decks.{DeckContents};
ghost use Rattle.deck.specs.Edits as edit;
ghost use Rattle.deck.specs.LastPlaces.{IsDeckIndexed, last_definition_places};
ghost use Rattle.deck.specs.Tables.{entry_at, last_definition_place, table_of_deck};
ghost use Rattle.deck.specs.LineRemoval as undefining;
ghost use Rattle.deck.specs.declared.fault.DeckFault.TheVariants.{OutOfMemory};
ghost use Rattle.deck.specs.declared.settings.Settings as settings_spec;

use super::Deck;
use crate::fault::DeckFault;
use crate::places::{LastPlaces, with_line};
use deck_lines::LineStore;
use def_entry::{Entry, EntryFault, Key, Keys, Kind, What, read_entry, same_text_law};
use def_lines::{Line, LineKind, classify, trim};
use std::alloc::{AllocError, Global};
use std::mem;
use units_io::Text;

// An entry, and the place of its line.
#[derive(Drop)]
struct PlacedEntry<'a> {
    place: usize,
    entry: Entry<'a>,
}

impl Deck {
    /// Appends a line that defines a key, trimmed and with the number 0, and returns the key if its entry changes.
    ///
    /// The error is `BadLine` if the line is neither a definition nor a unit list or has no entry, and otherwise
    /// `DeckFull` if one more line would pass a limit. The only other error is running out of memory. The cost depends
    /// only on the length of the line, not on the size of the deck.
    pub fn define(&mut self, alloc: Global, line: &[u8]) -> Result<Keys, DeckFault>
        ensures { edit.IsDeckEdit (edit.deck_after_defining (trimmed_of_blanks line.now) self.old) self.old self.new
            result }
    {
        match self.define_shadowing(alloc, line) {
            Ok((keys, _)) => Ok(keys),
            Err(fault) => Err(fault),
        }
    }

    /// Does the same as `define`, and also returns the place of the previous last active line of the key, if there was
    /// one.
    pub fn define_shadowing(
        &mut self,
        alloc: Global,
        line: &[u8],
    ) -> Result<(Keys, Option<usize>), DeckFault>
        ensures { undefining.IsDeckDefinedOver (edit.deck_after_defining (trimmed_of_blanks line.now) self.old)
            (trimmed_of_blanks line.now) self.old self.new result }
    {
        let line = trim(line);
        let (key, what) = read_definition(alloc, line)?;
        let over = self.changed_in_room(alloc, &key, Entry { line, what: &what })?;
        self.push_definition(alloc, line, key, what, over.1)?;
        Ok(over)
    }

    // Does the same as `changed_over`, or returns `DeckFull` if one more line would pass a limit.
    fn changed_in_room(
        &self,
        alloc: Global,
        key: &Key,
        entry: Entry<'_>,
    ) -> Result<(Keys, Option<usize>), DeckFault>
        ensures changed { IfOk result (λ over.
            entry_in_store_line (plain_store_line 0 entry.entry.line.now) ≡ Some (key.now, entry_view entry.entry)
            → IsEditChange self.now (edit.deck_with_line entry.entry.line.now self.now) over.0) }
        ensures place { IfOk result (λ over. over.1 ≡ last_definition_place self.now.settings self.now.lines key.now) }
        ensures within { OnOk result (pass_store_limit (edit.deck_with_line entry.entry.line.now self.now).lines
            ≡ false) }
        ensures err { IfErr result (λ fault. (fault ≡ OutOfMemory)
            ⊎ (edit.deck_within_limit (edit.deck_with_line entry.entry.line.now self.now) ≡ Err fault)) }
    {
        if !self.has_room(entry.line) {
            return Err(DeckFault::DeckFull);
        }
        Ok(self.changed_over(alloc, key, entry)?)
    }

    // Reports whether one more line with this text is within the limits.
    fn has_room(&self, text: &[u8]) -> bool
        ensures room { pass_store_limit (edit.deck_with_line text.now self.now).lines ≡ not result }
        ensures closed { AreBlocksClosed self.now.lines }
    {
        self.store.has_room(text.len())
    }

    // Returns the keys that change if a line is appended to the deck: its own key, unless the entry stays the same.
    // Also returns the place of the previous last active line of the key, if there was one, from the same lookup.
    fn changed_over(
        &self,
        alloc: Global,
        key: &Key,
        entry: Entry<'_>,
    ) -> Result<(Keys, Option<usize>), AllocError>
        ensures changed { IfOk result (λ over. AreBlocksClosed self.now.lines
            → entry_in_store_line (plain_store_line 0 entry.entry.line.now) ≡ Some (key.now, entry_view entry.entry)
            → IsEditChange self.now (edit.deck_with_line entry.entry.line.now self.now) over.0) }
        ensures place { IfOk result (λ over. over.1 ≡ last_definition_place self.now.settings self.now.lines key.now) }
    {
        same_text_law();
        let Some(old) = self.placed_entry(key.kind, key.name.as_bytes()) else {
            let keys = key_alone(alloc, key)?;
            return Ok((keys, None));
        };
        if old.entry.text() == entry.text() {
            return Ok((Keys::new(alloc), Some(old.place)));
        }
        let keys = key_alone(alloc, key)?;
        Ok((keys, Some(old.place)))
    }

    // Returns the results of `entry` and `place_of` from one lookup.
    fn placed_entry(&self, kind: Kind, name: &[u8]) -> Option<PlacedEntry<'_>>
        ensures entry { option_map (λ p. entry_view p.entry) result
            ≡ entry_at (table_of_deck self.now) (keys.key kind name.now) }
        ensures place { IfSome result (λ p. last_definition_place self.now.settings self.now.lines
            (keys.key kind name.now) ≡ Some p.place) }
    {
        let Some(place) = self.place_of(kind, name) else {
            return None;
        };
        match self.store.entry(place) {
            Some(entry) => Some(PlacedEntry { place, entry }),
            None => None,
        }
    }

    // Appends a line that defines a key and covers the line at the place `over`. On an error nothing changes.
    fn push_definition(
        &mut self,
        alloc: Global,
        text: &[u8],
        key: Key,
        what: What,
        over: Option<usize>,
    ) -> Result<(), AllocError>
        requires defines { entry_in_store_line (plain_store_line 0 text.now) ≡ Some (seen_entry text.now (key, what)) }
        requires within { pass_store_limit (edit.deck_with_line text.now self.old).lines ≡ false }
        requires covers { over ≡ last_definition_place self.old.settings self.old.lines key }
        ensures ok { OnOk result (self.new ≡ edit.deck_with_line text.now self.old) }
        ensures err { OnErr result (self.new ≡ self.old) }
    {
        let text = Text::from_bytes(alloc, text)?;
        let line = Line { number: 0, text };
        let covered = mem::replace(&mut self.covered_lines, None);
        put_definition(alloc, &mut self.store, &mut self.last, line, (key, what))?;
        self.covered_lines = with_line(covered, over);
        Ok(())
    }
}

// Returns a list of one key.
fn key_alone(alloc: Global, key: &Key) -> Result<Keys, AllocError>
    ensures { IfOk result (λ keys. keys ≡ key.now ∷ []) }
{
    let mut keys = Keys::new(alloc);
    let kind = key.kind;
    let name = key.name.copy(alloc)?;
    keys.push(alloc, Key { kind, name })?;
    Ok(keys)
}

// Appends a line that defines a key to the lines, and records its place in the last places.
fn put_definition(
    alloc: Global,
    store: &mut LineStore,
    last: &mut LastPlaces,
    line: Line,
    definition: (Key, What),
) -> Result<(), AllocError>
    requires defines { entry_in_store_line (store_line_with_mark false line) ≡ Some (seen_entry line.text definition) }
    requires within { pass_store_limit (store.old.lines ++ store_line_with_mark false line ∷ []) ≡ false }
    ensures ok { OnOk result (store.new ≡ stores.store_with_line store.old (store_line_with_mark false line)) }
    ensures err { OnErr result (store.new ≡ store.old) }
    ensures indexed { (settings : settings_spec.Settings) → IsDeckIndexed store.old settings last.old
        → IsDeckIndexed store.new settings last.new }
{
    let kind = definition.0.kind;
    last.make_room(kind, store.name_count(kind))?;
    put_in_room(alloc, store, last, line, definition)
}

// Does the work of `put_definition` if the last places have room for one more key.
fn put_in_room(
    alloc: Global,
    store: &mut LineStore,
    last: &mut LastPlaces,
    line: Line,
    definition: (Key, What),
) -> Result<(), AllocError>
    requires defines { entry_in_store_line (store_line_with_mark false line) ≡ Some (seen_entry line.text definition) }
    requires within { pass_store_limit (store.old.lines ++ store_line_with_mark false line ∷ []) ≡ false }
    requires room { length (key_number_names_of_kind store.old.names definition.0.kind)
        < length (last_definition_places last.old definition.0.kind) }
    ensures ok { OnOk result (store.new ≡ stores.store_with_line store.old (store_line_with_mark false line)) }
    ensures err { OnErr result (store.new ≡ store.old) }
    ensures indexed { (settings : settings_spec.Settings) → IsDeckIndexed store.old settings last.old
        → IsDeckIndexed store.new settings last.new }
{
    let place = store.len();
    store.push(alloc, line, false, Some(definition))?;
    let Some(number) = store.key_number(place) else {
        unreachable!()
    };
    last.put(number, place);
    Ok(())
}

// Returns the definition of a line, or the reason why an edit with this line is refused.
fn read_definition(alloc: Global, line: &[u8]) -> Result<(Key, What), DeckFault>
    ensures entry { IfOk result
        (λ found. entry_in_store_line (plain_store_line 0 line.now) ≡ Some (seen_entry line.now found)) }
    ensures ok { OnOk result ((d : DeckContents) → edit.deck_after_defining line.now d
        ≡ edit.deck_within_limit (edit.deck_with_line line.now d)) }
    ensures err { IfErr result (λ fault. (fault ≡ OutOfMemory)
        ⊎ ((d : DeckContents) → edit.deck_after_defining line.now d ≡ Err fault)) }
{
    match classify(line) {
        LineKind::Definition | LineKind::UnitList => match read_entry(alloc, line) {
            Ok(found) => Ok(found),
            Err(EntryFault::OutOfMemory) => Err(DeckFault::OutOfMemory),
            Err(fault) => Err(DeckFault::BadLine(fault)),
        },
        _ => Err(DeckFault::BadLine(EntryFault::BadForm)),
    }
}
