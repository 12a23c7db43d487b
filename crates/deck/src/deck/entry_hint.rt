//! Lookup of entries with a hint for their place.

ghost use Rattle.std.specs.Prelude.{◌≡◌, Some, option_map};
ghost use Rattle.std.specs.Bool.{OnTrue};
ghost use Rattle.def_entry.specs.Keys as keys;
ghost use Rattle.def_entry.specs.Views.{entry_view};
ghost use Rattle.deck_lines.specs.Names.{key_numbered};
ghost use Rattle.deck.specs.Tables as tables;

use super::Deck;
use deck_lines::{KeyNumber, LineStore};
use def_entry::{Entry, Kind};

impl Deck {
    /// Returns the same as `entry`. If the last active line of the key is at the place `near`, for example because the
    /// caller has looked up the place before, the entry is found at once; otherwise the key is looked up. Allocates no
    /// memory.
    // Inlined, so that a caller that does not use the text of the entry does not pay for it.
    #[inline(always)]
    pub fn entry_with_hint(&self, near: usize, kind: Kind, name: &[u8]) -> Option<Entry<'_>>
        ensures { option_map entry_view result
            ≡ tables.entry_at (tables.table_of_deck self.now) (keys.key kind name.now) }
    {
        if self.is_last_place(near, kind, name) {
            return self.store.entry(near);
        }
        self.entry(kind, name)
    }

    // Reports whether the line at `place` defines the key and `place` is the last place of the key.
    fn is_last_place(&self, place: usize, kind: Kind, name: &[u8]) -> bool
        ensures { OnTrue result (tables.last_definition_place self.now.settings self.now.lines (keys.key kind name.now)
            ≡ Some place) }
    {
        let Some(number) = self.store.key_number(place) else {
            return false;
        };
        if !is_number_of(&self.store, number, kind, name) {
            return false;
        }
        self.last.get(number) == Some(place)
    }
}

// Returns true only if `number` is the number of this key.
fn is_number_of(store: &LineStore, number: KeyNumber, kind: Kind, name: &[u8]) -> bool
    ensures { OnTrue result (key_numbered store.now.names number ≡ Some (keys.key kind name.now)) }
{
    match store.name(number) {
        Some(own) => number.kind == kind && own == name,
        None => false,
    }
}
