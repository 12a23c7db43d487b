//! The report of a search.

ghost use Rattle.std.specs.Prelude.{◌≡◌, ◌++◌, IfOk, OnOk};
ghost use Rattle.std.specs.List.{flat_map};
ghost use Rattle.deck.specs.PlacedKeys.{deck_keys_at_places};
ghost use Rattle.deck.specs.Tables as tables;
ghost use Rattle.survey.specs.Rows.{search_hit_row_of_key};
ghost use Rattle.survey.specs.Searches as spec;

use crate::rows::{put_row_there, rows_or_none};
use deck::Deck;
use live_table::LiveTable;
use std::alloc::{AllocError, Global};
use units_io::Text;

/// Returns a row for each key whose name contains the text, in the order of keys, or one line that says that there is
/// none. The only error is running out of memory.
pub fn search_report(alloc: Global, table: &LiveTable, text: &[u8]) -> Result<Text, AllocError>
    ensures { IfOk result (λ report. report ≡ spec.search_report (tables.table_of_deck table.now.deck) text.now) }
{
    let deck = table.deck();
    let places = deck.key_places_holding(alloc, text)?;
    let mut rows = Vec::new(alloc);
    put_rows(&mut rows, deck, places.as_slice())?;
    rows_or_none(rows)
}

// Appends the row of each key at `places`.
fn put_rows(rows: &mut Vec<u8>, deck: &Deck, places: &[usize]) -> Result<(), AllocError>
    ensures { OnOk result (rows.new.items ≡ rows.old.items
        ++ flat_map (search_hit_row_of_key (tables.table_of_deck deck.now))
        (deck_keys_at_places deck.now.lines places.now)) }
{
    for place in places {
        put_row_there(rows, deck, *place)?;
    }
    Ok(())
}
