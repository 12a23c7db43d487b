//! The keys of a deck.

ghost use Rattle.std.specs.Prelude.{◌≡◌, ◌++◌, ◌∷◌, [], map, option_map, IfOk, OnOk};
ghost use Rattle.deck.specs.SubstringKeys.{deck_keys_holding_text};
ghost use Rattle.deck.specs.KeyLists.{deck_table_keys};
ghost use Rattle.deck.specs.PlacedKeys.{borrowed_deck_key, deck_key_at_place, deck_keys_at_places, placed_deck_key};
ghost use Rattle.deck.specs.Tables.{table_of_deck};

use super::Deck;
use super::placed_keys::PlacedKey;
use def_entry::{Key, Keys, Kind};
use std::alloc::{AllocError, Global};
use units_io::Text;

/// A key with a borrowed name.
#[derive(Clone, Copy, Debug, PartialEq, Eq)]
pub struct BorrowedKey<'a> {
    /// The kind of the key.
    pub kind: Kind,
    /// Its name. The name of a prefix does not include its `-`.
    pub name: &'a [u8],
}

impl Deck {
    /// Returns all keys that have an entry, each once, ordered by the bytes of their names, and for equal names with
    /// units before prefixes, functions and lists. The only error is running out of memory.
    pub fn keys(&self, alloc: Global) -> Result<Keys, AllocError>
        ensures { IfOk result (λ keys. keys ≡ deck_table_keys (table_of_deck self.now)) }
    {
        let placed = self.placed_keys(alloc)?;
        copied_keys(alloc, placed.as_slice())
    }

    /// Returns the places in `lines`, counted from 0, of the last active lines of all keys that have an entry, in the
    /// order of `keys`; `key_at` borrows the key of each. The only error is running out of memory.
    pub fn key_places(&self, alloc: Global) -> Result<Vec<usize>, AllocError>
        ensures { IfOk result (λ places. deck_keys_at_places self.now.lines places.items
            ≡ deck_table_keys (table_of_deck self.now)) }
    {
        let placed = self.placed_keys(alloc)?;
        let places = places_of(alloc, placed.as_slice())?;
        Ok(places)
    }

    /// Returns the places of `key_places` for the keys whose names contain a text. Only these keys are sorted. The only
    /// error is running out of memory.
    pub fn key_places_holding(&self, alloc: Global, text: &[u8]) -> Result<Vec<usize>, AllocError>
        ensures { IfOk result (λ places. deck_keys_at_places self.now.lines places.items
            ≡ deck_keys_holding_text text.now (table_of_deck self.now)) }
    {
        let placed = self.placed_keys_holding(alloc, text)?;
        let places = places_of(alloc, placed.as_slice())?;
        Ok(places)
    }

    /// Borrows the key that the line at `place` in `lines`, counted from 0, defines, or returns `None` if it defines
    /// none. Allocates no memory.
    pub fn key_at(&self, place: usize) -> Option<BorrowedKey<'_>>
        ensures { option_map borrowed_deck_key result ≡ deck_key_at_place self.now.lines place }
    {
        let Some(number) = self.store.key_number(place) else {
            return None;
        };
        let Some(name) = self.store.name(number) else {
            return None;
        };
        Some(BorrowedKey {
            kind: number.kind,
            name,
        })
    }
}

// Returns copies of keys.
fn copied_keys(alloc: Global, placed: &[PlacedKey<'_>]) -> Result<Keys, AllocError>
    ensures { IfOk result (λ keys. keys ≡ map placed_deck_key placed.now) }
{
    let mut keys = Keys::new(alloc);
    for key in placed {
        push_copy(alloc, &mut keys, key)?;
    }
    Ok(keys)
}

// Appends a copy of a key to other keys.
fn push_copy(alloc: Global, keys: &mut Keys, key: &PlacedKey<'_>) -> Result<(), AllocError>
    ensures { OnOk result (keys.new ≡ keys.old ++ placed_deck_key key.now ∷ []) }
{
    let kind = key.kind;
    let name = Text::from_bytes(alloc, key.name)?;
    keys.push(alloc, Key { kind, name })
}

// Returns the places of keys.
fn places_of(alloc: Global, placed: &[PlacedKey<'_>]) -> Result<Vec<usize>, AllocError>
    ensures { IfOk result (λ places. places.items ≡ map (λ k. k.place) placed.now) }
{
    let mut places = Vec::with_capacity(alloc, placed.len())?;
    for key in placed {
        places.push(key.place)?;
    }
    Ok(places)
}
