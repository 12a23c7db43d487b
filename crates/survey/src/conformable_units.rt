//! The report of the units that conform to a quantity.

ghost use Rattle.std.specs.Prelude.{◌≡◌, ◌++◌, [], IfErr, IfOk, OnOk, if◌then◌else◌};
ghost use Rattle.std.specs.List.{flat_map};
ghost use Rattle.std.specs.Option.{option_map};
ghost use Rattle.def_entry.specs.declared.key.Kind.TheVariants as kinds;
ghost use Rattle.deck.specs.KeyLists.{deck_keys_of_kind};
ghost use Rattle.deck.specs.PlacedKeys.{deck_key_at_place, deck_keys_at_places};
ghost use Rattle.deck.specs.Tables as tables;
ghost use Rattle.expr_tree.specs.Syntax.{Word};
ghost use Rattle.expr_tree.specs.Trees.{syntax};
ghost use Rattle.live_table.specs.Calls.{AreLiveQueries};
ghost use Rattle.live_table.specs.TableView.{IsRightLiveView};
ghost use Rattle.survey.specs.Conformable as spec;
ghost use Rattle.survey.specs.Places.{conformable_unit_at_place, search_hits_of_key};
ghost use Rattle.survey.specs.Rows.{search_hit_row_of_key};

use crate::rows::{put_row_there, rows_or_none};
use deck::Deck;
use def_entry::Kind;
use expr_tree::Tree;
use live_table::LiveTable;
use quantity::Quantity;
use std::alloc::{AllocError, Global};
use std::sync::ledger::Ledger;
use units_io::{Steps, Text};

/// A search for the units whose values conform to `from`, among those whose lines are at these places.
#[derive(Clone, Copy)]
pub(crate) struct UnitSearch<'a> {
    pub(crate) from: &'a Quantity,
    pub(crate) places: &'a [usize],
}

/// Returns a row for each unit whose value conforms to `from`, in the order of keys, or one line that says that there
/// is none. Queries each unit. Does not change the deck. The only error is running out of memory.
pub fn conformable_report<L: Ledger>(
    alloc: Global,
    table: &mut LiveTable,
    from: &Quantity,
    steps: &mut Steps<L>,
) -> Result<Text, AllocError>
    ensures report { IfOk result
        (λ text. text ≡ spec.conformable_report (tables.table_of_deck table.old.deck) from.now) }
    ensures queries { AreLiveQueries (spec.conformable_queries (tables.table_of_deck table.old.deck)) result
        table.old table.new steps.old steps.new }
    ensures deck { table.new.deck ≡ table.old.deck }
{
    let places = table.deck().key_places(alloc)?;
    let mut rows = Vec::new(alloc);
    let search = UnitSearch {
        from,
        places: places.as_slice(),
    };
    search.put_rows(alloc, &mut rows, table, steps)?;
    rows_or_none(rows)
}

impl UnitSearch<'_> {
    // Appends a row for each unit whose value conforms.
    fn put_rows<L: Ledger>(
        &self,
        alloc: Global,
        rows: &mut Vec<u8>,
        table: &mut LiveTable,
        steps: &mut Steps<L>,
    ) -> Result<(), AllocError>
        requires { IsRightLiveView table.old }
        ensures rows { OnOk result (rows.new.items ≡ rows.old.items
            ++ flat_map (spec.conforming_row (tables.table_of_deck table.old.deck) self.now.from.now)
            (deck_keys_of_kind kinds.Unit (deck_keys_at_places table.old.deck.lines self.now.places.now))) }
        ensures queries { AreLiveQueries
            (spec.unit_queries (tables.table_of_deck table.old.deck)
            (deck_keys_at_places table.old.deck.lines self.now.places.now))
            result table.old table.new steps.old steps.new }
        ensures deck { table.new.deck ≡ table.old.deck }
    {
        for place in self.places {
            self.put_row_at(alloc, rows, table, *place, steps)?;
        }
        Ok(())
    }

    // Appends the row of the unit at `place`, if there is one and its value conforms.
    fn put_row_at<L: Ledger>(
        &self,
        alloc: Global,
        rows: &mut Vec<u8>,
        table: &mut LiveTable,
        place: usize,
        steps: &mut Steps<L>,
    ) -> Result<(), AllocError>
        requires { IsRightLiveView table.old }
        ensures rows { OnOk result (rows.new.items ≡ rows.old.items
            ++ search_hits_of_key (spec.conforming_row (tables.table_of_deck table.old.deck) self.now.from.now)
            (conformable_unit_at_place table.old.deck place)) }
        ensures queries { AreLiveQueries
            (search_hits_of_key (λ k. (spec.value_of_unit (tables.table_of_deck table.old.deck) k).events)
            (conformable_unit_at_place table.old.deck place)) result table.old table.new steps.old steps.new }
        ensures deck { table.new.deck ≡ table.old.deck }
    {
        let Some(word) = unit_word(alloc, table.deck(), place)? else {
            return Ok(());
        };
        let found = table.value_if_any(alloc, &word, steps);
        put_if_conforming(rows, table.deck(), place, self.from, &found)
    }
}

// Returns the word of the unit that the line at `place` defines, or `None` if it defines no unit.
fn unit_word(alloc: Global, deck: &Deck, place: usize) -> Result<Option<Tree>, AllocError>
    ensures { IfOk result (λ word. option_map syntax word
        ≡ option_map (λ k. Word k.name) (conformable_unit_at_place deck.now place)) }
{
    let Some(key) = deck.key_at(place) else {
        return Ok(None);
    };
    match key.kind {
        Kind::Unit => Ok(Some(Tree::Word(Text::from_bytes(alloc, key.name)?))),
        _ => Ok(None),
    }
}

// Appends the row of the key at `place` if its value `found` conforms to `from`. The only error is running out of
// memory, here or in `found`.
fn put_if_conforming(
    rows: &mut Vec<u8>,
    deck: &Deck,
    place: usize,
    from: &Quantity,
    found: &Result<Option<Quantity>, AllocError>,
) -> Result<(), AllocError>
    ensures row { OnOk result (IfOk found.now (λ value. rows.new.items ≡ rows.old.items
        ++ (if spec.is_conformable_value from.now value
        then search_hits_of_key (search_hit_row_of_key (tables.table_of_deck deck.now))
        (deck_key_at_place deck.now.lines place) else []))) }
    ensures memory { OnOk result (IfErr found.now (λ _. ⊥)) }
{
    match found {
        Ok(Some(x)) => put_row_if(rows, x.conforms(from), deck, place),
        Ok(None) => Ok(()),
        Err(_) => Err(AllocError),
    }
}

// Appends the row of the key at `place`, if it is wanted.
fn put_row_if(rows: &mut Vec<u8>, wanted: bool, deck: &Deck, place: usize) -> Result<(), AllocError>
    ensures { OnOk result (rows.new.items ≡ rows.old.items
        ++ (if wanted then search_hits_of_key (search_hit_row_of_key (tables.table_of_deck deck.now))
        (deck_key_at_place deck.now.lines place) else [])) }
{
    if !wanted {
        return Ok(());
    }
    put_row_there(rows, deck, place)
}
