//! The keys of a deck with their places.

ghost use Rattle.std.specs.Prelude.{◌≡◌, ◌++◌, [], All, map, IfOk, OnOk};
ghost use Rattle.std.specs.List.Sorted.{IsPermutation, IsSortedByKey};
ghost use Rattle.def_entry.specs.KeyOrder.{KeyOrderLaw, key_cmp, key_order_number};
ghost use Rattle.deck_lines.specs.Names.{key_number_names_of_kind, key_numbered};
ghost use Rattle.deck_lines.specs.KeyNumbering.{IsKeyNumbering};
ghost use Rattle.deck.specs.SubstringKeys.{deck_keys_holding_text, is_deck_number_holding_text};
ghost use Rattle.deck.specs.KeyLists.{deck_table_keys};
ghost use Rattle.deck.specs.Numbers.{deck_key_if, deck_keys_where};
ghost use Rattle.deck.specs.PlacedKeys.{AreKeysInDefinitionPlaces, IsKeyInDefinitionPlace, deck_keys_of_all_kinds};
ghost use Rattle.deck.specs.PlacedKeys.{placed_deck_key};
ghost use Rattle.deck.specs.Tables.{table_of_deck};

use super::Deck;
use crate::places::LastPlaces;
use crate::substring_search::holds;
use deck_lines::{KeyNumber, LineStore};
use def_entry::{Kind, key_order_law};
use memchr::memmem::Finder;
use std::alloc::{AllocError, Global};
use std::cmp::Ordering;

/// A key with the place of its last active line.
#[derive(Clone, Copy)]
pub(super) struct PlacedKey<'a> {
    pub(super) kind: Kind,
    pub(super) name: &'a [u8],
    pub(super) place: usize,
}

impl Deck {
    /// Returns all keys that have an entry, each once, ordered by the bytes of their names, and for equal names with
    /// units before prefixes, functions and lists.
    pub(super) fn placed_keys(&self, alloc: Global) -> Result<Vec<PlacedKey<'_>>, AllocError>
        ensures keys { IfOk result (λ keys. map placed_deck_key keys.items ≡ deck_table_keys (table_of_deck self.now)) }
        ensures in_place { IfOk result (λ keys. All (IsKeyInDefinitionPlace self.now.lines) keys.items) }
    {
        let keys = self.placed_keys_holding(alloc, &[])?;
        Ok(keys)
    }

    /// Returns the keys of `placed_keys` whose names contain a text, in the same order. Only these keys are sorted.
    pub(super) fn placed_keys_holding(
        &self,
        alloc: Global,
        text: &[u8],
    ) -> Result<Vec<PlacedKey<'_>>, AllocError>
        ensures keys { IfOk result
            (λ keys. map placed_deck_key keys.items ≡ deck_keys_holding_text text.now (table_of_deck self.now)) }
        ensures in_place { IfOk result (λ keys. All (IsKeyInDefinitionPlace self.now.lines) keys.items) }
    {
        key_order_law();
        let finder = Finder::new(text);
        let mut keys = Vec::new(alloc);
        push_all_placed(&mut keys, &self.store, &self.last, &finder)?;
        Ok(in_order(keys))
    }
}

// Appends the keys of all kinds that have a last place and whose names contain the text of a finder to an empty list,
// kind by kind.
fn push_all_placed<'a>(
    keys: &mut Vec<PlacedKey<'a>>,
    store: &'a LineStore,
    last: &LastPlaces,
    finder: &Finder<'_>,
) -> Result<(), AllocError>
    requires places { AreKeysInDefinitionPlaces store.now last.now }
    requires none { keys.old.items ≡ [] }
    ensures numbering { IsKeyNumbering store.now }
    ensures in_place { OnOk result (All (IsKeyInDefinitionPlace store.now.lines) keys.new.items) }
    ensures keys { OnOk result (map placed_deck_key keys.new.items
        ≡ deck_keys_of_all_kinds (is_deck_number_holding_text store.now.names last.now finder.now) store.now.names) }
{
    push_placed(keys, store, last, finder, Kind::Unit)?;
    push_placed(keys, store, last, finder, Kind::Prefix)?;
    push_placed(keys, store, last, finder, Kind::Func)?;
    push_placed(keys, store, last, finder, Kind::List)?;
    Ok(())
}

// Appends the keys of a kind that have a last place and whose names contain the text of a finder to some keys.
fn push_placed<'a>(
    keys: &mut Vec<PlacedKey<'a>>,
    store: &'a LineStore,
    last: &LastPlaces,
    finder: &Finder<'_>,
    kind: Kind,
) -> Result<(), AllocError>
    requires places { AreKeysInDefinitionPlaces store.now last.now }
    requires placed { All (IsKeyInDefinitionPlace store.now.lines) keys.old.items }
    ensures numbering { IsKeyNumbering store.now }
    ensures in_place { OnOk result (All (IsKeyInDefinitionPlace store.now.lines) keys.new.items) }
    ensures keys { OnOk result (map placed_deck_key keys.new.items ≡ map placed_deck_key keys.old.items
        ++ deck_keys_where (is_deck_number_holding_text store.now.names last.now finder.now) kind 0
        (key_number_names_of_kind store.now.names kind)) }
{
    for number in 0..store.name_count(kind) {
        push_if_placed(keys, store, last, finder, KeyNumber { kind, number })?;
    }
    Ok(())
}

// Appends the key with this number to some keys, if it has a last place and its name contains the text of the finder.
fn push_if_placed<'a>(
    keys: &mut Vec<PlacedKey<'a>>,
    store: &'a LineStore,
    last: &LastPlaces,
    finder: &Finder<'_>,
    n: KeyNumber,
) -> Result<(), AllocError>
    requires places { AreKeysInDefinitionPlaces store.now last.now }
    requires placed { All (IsKeyInDefinitionPlace store.now.lines) keys.old.items }
    ensures in_place { OnOk result (All (IsKeyInDefinitionPlace store.now.lines) keys.new.items) }
    ensures keys { OnOk result (map placed_deck_key keys.new.items ≡ map placed_deck_key keys.old.items
        ++ deck_key_if (is_deck_number_holding_text store.now.names last.now finder.now n)
        (key_numbered store.now.names n)) }
{
    let Some(place) = last.get(n) else {
        return Ok(());
    };
    let Some(name) = store.name(n) else {
        return Ok(());
    };
    if !holds(name, finder) {
        return Ok(());
    }
    let kind = n.kind;
    keys.push(PlacedKey { kind, name, place })?;
    Ok(())
}

// Sorts the keys.
fn in_order(mut keys: Vec<PlacedKey<'_>>) -> Vec<PlacedKey<'_>>
    ensures same { IsPermutation keys.entry.items result.items }
    ensures sorted { KeyOrderLaw → IsSortedByKey placed_deck_key key_cmp result.items }
{
    keys.sort_unstable_by(|a, b| compare(a, b));
    keys
}

// Compares two keys.
fn compare(a: &PlacedKey<'_>, b: &PlacedKey<'_>) -> Ordering
    ensures { result ≡ key_cmp (placed_deck_key a.now) (placed_deck_key b.now) }
{
    a.name.cmp(b.name).then(rank(a.kind).cmp(&rank(b.kind)))
}

// Returns the rank of a kind in the order of kinds.
fn rank(kind: Kind) -> u8
    ensures { result ≡ key_order_number kind }
{
    match kind {
        Kind::Unit => 0,
        Kind::Prefix => 1,
        Kind::Func => 2,
        Kind::List => 3,
    }
}
