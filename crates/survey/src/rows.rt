//! The rows of reports.

ghost use Rattle.std.specs.Prelude.{◌≡◌, ◌++◌, IfOk, OnOk};
ghost use Rattle.def_entry.specs.Keys.{key_text};
ghost use Rattle.deck.specs.PlacedKeys.{borrowed_deck_key, deck_key_at_place};
ghost use Rattle.deck.specs.Tables as tables;
ghost use Rattle.survey.specs.Places.{search_hits_of_key};
ghost use Rattle.survey.specs.Rows as spec;

use crate::keys::put_key;
use deck::{BorrowedKey, Deck};
use std::alloc::AllocError;
use units_io::Text;

/// Appends the row of the key that the line at `place` defines, if it defines one.
pub(crate) fn put_row_there(text: &mut Vec<u8>, deck: &Deck, place: usize) -> Result<(), AllocError>
    ensures { OnOk result (text.new.items ≡ text.old.items
        ++ search_hits_of_key (spec.search_hit_row_of_key (tables.table_of_deck deck.now))
        (deck_key_at_place deck.now.lines place)) }
{
    match deck.key_at(place) {
        Some(key) => put_key_row(text, deck, place, key),
        None => Ok(()),
    }
}

// Appends the row of a key, if it has an entry. Finding the entry is fast if `near` is the place of the last active
// line of the key.
fn put_key_row(
    text: &mut Vec<u8>,
    deck: &Deck,
    near: usize,
    key: BorrowedKey<'_>,
) -> Result<(), AllocError>
    ensures { OnOk result (text.new.items
        ≡ text.old.items ++ spec.search_hit_row_of_key (tables.table_of_deck deck.now) (borrowed_deck_key key.entry)) }
{
    match deck.entry_with_hint(near, key.kind, key.name) {
        Some(entry) => put_row(text, key, entry.text()),
        None => Ok(()),
    }
}

// Appends a row.
fn put_row(text: &mut Vec<u8>, key: BorrowedKey<'_>, entry: &[u8]) -> Result<(), AllocError>
    ensures { OnOk result (text.new.items ≡ text.old.items
        ++ spec.search_hit_row (key_text (borrowed_deck_key key.entry)) entry.now) }
{
    text.extend_from_slice(b"\t".as_slice())?;
    put_key(text, key.kind, key.name)?;
    text.extend_from_slice(b"\t".as_slice())?;
    text.extend_from_slice(entry)?;
    text.extend_from_slice(b"\n".as_slice())?;
    Ok(())
}

/// Returns the rows, or a line that says that there are none.
pub(crate) fn rows_or_none(rows: Vec<u8>) -> Result<Text, AllocError>
    ensures { IfOk result (λ text. text ≡ spec.search_hit_rows_or_none rows.items) }
{
    let mut rows = rows;
    if rows.is_empty() {
        rows.extend_from_slice(b"no matching names\n".as_slice())?;
    }
    Ok(Text::from(rows))
}
