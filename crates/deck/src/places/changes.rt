//! The keys that an edit changes.

ghost use Rattle.std.specs.Prelude.{◌≡◌, ◌++◌, IfOk, OnOk, not, option_map};
ghost use Rattle.std.specs.Bool.{OnTrue};
ghost use Rattle.def_entry.specs.Views.{entry_view};
ghost use Rattle.deck_lines.specs.StoreEdits.{store_after, store_before};
ghost use Rattle.deck_lines.specs.Names.{key_number_names_of_kind, key_numbered};
ghost use Rattle.deck_lines.specs.KeyNumbering.{IsKeyNumbering};
ghost use Rattle.deck.specs.Changes.{IsDeckTableChange, is_same_deck_entry};
ghost use Rattle.deck.specs.LastPlaces.{AreLastDefinitionPlaces};
ghost use Rattle.deck.specs.Numbers.{AreDefinitionsInPlace, deck_entry_at_place, deck_key_if, deck_keys_where};
ghost use Rattle.deck.specs.Numbers.{is_entry_changed_by_edit};
ghost use Rattle.deck.specs.Tables.{DeckDefinitions, table_of_deck_definitions};

use super::last_places::LastPlaces;
use deck_lines::{EditedLines, KeyNumber, LineStore};
use def_entry::{Entry, Key, Keys, Kind, same_text_law};
use std::alloc::{AllocError, Global};
use units_io::Text;

/// Returns the keys whose entries differ between two sets of last places in these lines.
pub(super) fn changed_keys(
    alloc: Global,
    store: &LineStore,
    before: &LastPlaces,
    after: &LastPlaces,
) -> Result<Keys, AllocError>
    ensures { IfOk result (λ keys. (ds es : DeckDefinitions) → AreDefinitionsInPlace store.now.lines ds
        → AreDefinitionsInPlace store.now.lines es
        → AreLastDefinitionPlaces store.now.names ds before.now → AreLastDefinitionPlaces store.now.names es after.now
        → IsDeckTableChange (table_of_deck_definitions ds) (table_of_deck_definitions es) keys) }
{
    keys_between(alloc, &EditedLines::without_change(store), before, after)
}

/// Returns the keys whose entries differ between the last places before an edit and those after it.
pub(crate) fn keys_between(
    alloc: Global,
    edited: &EditedLines<'_>,
    before: &LastPlaces,
    after: &LastPlaces,
) -> Result<Keys, AllocError>
    ensures { IfOk result (λ keys. (ds es : DeckDefinitions)
        → AreDefinitionsInPlace edited.now.old_lines ds → AreDefinitionsInPlace edited.now.new_lines es
        → AreLastDefinitionPlaces edited.now.names ds before.now → AreLastDefinitionPlaces edited.now.names es after.now
        → IsDeckTableChange (table_of_deck_definitions ds) (table_of_deck_definitions es) keys) }
{
    same_text_law();
    let mut keys = Keys::new(alloc);
    push_changed(alloc, &mut keys, edited, before, after, Kind::Unit)?;
    push_changed(alloc, &mut keys, edited, before, after, Kind::Prefix)?;
    push_changed(alloc, &mut keys, edited, before, after, Kind::Func)?;
    push_changed(alloc, &mut keys, edited, before, after, Kind::List)?;
    Ok(keys)
}

/// Returns the key with this number if the entries at two places differ, and otherwise an empty list.
pub(crate) fn changed_key(
    alloc: Global,
    store: &LineStore,
    n: KeyNumber,
    before: Option<usize>,
    after: Option<usize>,
) -> Result<Keys, AllocError>
    ensures { IfOk result (λ keys. keys ≡ deck_key_if
        (not (is_same_deck_entry (deck_entry_at_place store.now.lines before)
        (deck_entry_at_place store.now.lines after))) (key_numbered store.now.names n)) }
{
    let mut keys = Keys::new(alloc);
    let edited = EditedLines::without_change(store);
    push_between(alloc, &mut keys, &edited, n, before, after)?;
    Ok(keys)
}

// Appends the keys of a kind whose entries differ to some keys.
fn push_changed(
    alloc: Global,
    keys: &mut Keys,
    edited: &EditedLines<'_>,
    before: &LastPlaces,
    after: &LastPlaces,
    kind: Kind,
) -> Result<(), AllocError>
    ensures numbering_before { IsKeyNumbering (store_before edited.now) }
    ensures numbering_after { IsKeyNumbering (store_after edited.now) }
    ensures keys { OnOk result (keys.new ≡ keys.old
        ++ deck_keys_where (is_entry_changed_by_edit edited.now before.now after.now) kind 0
        (key_number_names_of_kind edited.now.names kind)) }
{
    for number in 0..edited.name_count(kind) {
        push_if_changed(
            alloc,
            keys,
            edited,
            before,
            after,
            KeyNumber { kind, number },
        )?;
    }
    Ok(())
}

// Appends the key with this number to some keys, if its entries differ.
fn push_if_changed(
    alloc: Global,
    keys: &mut Keys,
    edited: &EditedLines<'_>,
    before: &LastPlaces,
    after: &LastPlaces,
    n: KeyNumber,
) -> Result<(), AllocError>
    ensures { OnOk result (keys.new ≡ keys.old
        ++ deck_key_if (is_entry_changed_by_edit edited.now before.now after.now n) (key_numbered edited.now.names n)) }
{
    push_between(alloc, keys, edited, n, before.get(n), after.get(n))
}

// Appends the key with this number to some keys, if the entries at a place before the edit and at a place after it
// differ.
fn push_between(
    alloc: Global,
    keys: &mut Keys,
    edited: &EditedLines<'_>,
    n: KeyNumber,
    before: Option<usize>,
    after: Option<usize>,
) -> Result<(), AllocError>
    ensures { OnOk result (keys.new ≡ keys.old ++ deck_key_if
        (not (is_same_deck_entry (deck_entry_at_place edited.now.old_lines before)
        (deck_entry_at_place edited.now.new_lines after))) (key_numbered edited.now.names n)) }
{
    if !is_changed(edited, before, after) {
        return Ok(());
    }
    let Some(name) = edited.name(n) else {
        return Ok(());
    };
    let kind = n.kind;
    let name = Text::from_bytes(alloc, name)?;
    keys.push(alloc, Key { kind, name })
}

// Reports whether the entries at a place before the edit and at a place after it have different texts, or only one of
// them exists.
fn is_changed(edited: &EditedLines<'_>, before: Option<usize>, after: Option<usize>) -> bool
    ensures { result ≡ not (is_same_deck_entry (deck_entry_at_place edited.now.old_lines before)
        (deck_entry_at_place edited.now.new_lines after)) }
{
    if is_one_line(edited, before, after) {
        return false;
    }
    let unedited = edited.before();
    match (entry_at(&unedited, before), entry_at(edited, after)) {
        (Some(old), Some(new)) => old.text() != new.text(),
        (None, None) => false,
        _ => true,
    }
}

// Returns true only if the same line is at both places, so that no text has to be compared.
fn is_one_line(edited: &EditedLines<'_>, before: Option<usize>, after: Option<usize>) -> bool
    ensures { OnTrue result (deck_entry_at_place edited.now.new_lines after
        ≡ deck_entry_at_place edited.now.old_lines before) }
{
    match (before, after) {
        (Some(before), Some(after)) => edited.is_left(before, after),
        _ => false,
    }
}

// Returns the entry at a place, if there is one.
fn entry_at<'a>(edited: &'a EditedLines<'_>, place: Option<usize>) -> Option<Entry<'a>>
    ensures { option_map entry_view result ≡ deck_entry_at_place edited.now.new_lines place }
{
    match place {
        Some(place) => edited.entry(place),
        None => None,
    }
}
