//! New numbers for the keys that lines define.

ghost use Rattle.std.specs.Prelude.{◌≡◌, [], Some, length, map, option_map, IfOk, OnOk};
ghost use Rattle.deck_lines.specs.Loads.{key_numbers_by_definitions};
ghost use Rattle.deck_lines.specs.Names.{AreKeyNumbersOneToOne, key_number_names_of_kind, key_numbered};
ghost use Rattle.deck_lines.specs.Names.{no_key_number_names};
ghost use Rattle.deck_lines.specs.NumberedKeys.{key_number_names_in};
ghost use Rattle.deck_lines.specs.Readings.{entry_in_store_line};
ghost use Rattle.deck_lines.specs.Renumberings.{AreKeyNumbersOfLines, IsKeyRenumbering, key_number_names_after};
ghost use Rattle.deck_lines.specs.Stores.{key_numbers_by_definition, store_definition_at};

use super::key_numbers::KeyNumbers;
use super::line_store::LineStore;
use crate::key_number::KeyNumber;
use def_entry::{Key, Kind};
use std::alloc::{AllocError, Global};
use units_io::Text;

/// New numbers for the keys that the lines of a store define, and for no other keys. They have no effect until they are
/// passed to `LineStore::renumber`.
#[derive(Drop)]
pub struct Renumbering {
    pub(crate) keys: KeyNumbers,
    pub(crate) of_lines: Vec<Option<KeyNumber>>,
}

impl Renumbering {
    /// Returns the numbers that keys would get if the lines of `store` were put into an empty store. Makes one pass
    /// over the definitions, and reads no line. The only error is running out of memory.
    pub fn of_store(alloc: Global, store: &LineStore) -> Result<Renumbering, AllocError>
        ensures { IfOk result (λ r. IsKeyRenumbering store.now.lines r) }
    {
        let mut of_lines = Vec::with_capacity(alloc, store.len())?;
        let mut keys = KeyNumbers::new(alloc, store.table_seed());
        number_lines(alloc, store, &mut keys, &mut of_lines)?;
        Ok(Renumbering { keys, of_lines })
    }

    /// Returns the number of keys of a kind that have a number.
    pub fn name_count(&self, kind: Kind) -> usize
        ensures { result ≡ length (key_number_names_of_kind (key_number_names_after self.now) kind) }
    {
        self.keys.count(kind)
    }
}

// Numbers the keys that the lines define, and lists the number of each line.
fn number_lines(
    alloc: Global,
    store: &LineStore,
    keys: &mut KeyNumbers,
    of_lines: &mut Vec<Option<KeyNumber>>,
) -> Result<(), AllocError>
    requires no_names { key_number_names_in keys.old ≡ no_key_number_names }
    requires no_numbers { of_lines.old.items ≡ [] }
    ensures names { OnOk result (key_number_names_in keys.new
        ≡ key_numbers_by_definitions no_key_number_names store.now.lines) }
    ensures each { OnOk result (AreKeyNumbersOfLines (key_number_names_in keys.new) of_lines.new.items
        (map entry_in_store_line store.now.lines)) }
    ensures unique { OnOk result (AreKeyNumbersOneToOne (key_number_names_in keys.new)) }
{
    for place in 0..store.len() {
        let number = number_line(alloc, store, keys, place)?;
        of_lines.push(number)?;
    }
    Ok(())
}

// Gives the next number of its kind to the key that a line defines, unless it has a number, and returns its number, or
// `None` if the line defines nothing.
fn number_line(
    alloc: Global,
    store: &LineStore,
    keys: &mut KeyNumbers,
    place: usize,
) -> Result<Option<KeyNumber>, AllocError>
    ensures names { OnOk result (key_number_names_in keys.new
        ≡ key_numbers_by_definition (key_number_names_in keys.old) (store_definition_at store.now.lines place)) }
    ensures number { IfOk result (λ n. option_map (key_numbered (key_number_names_in keys.new)) n
        ≡ option_map (λ d. Some d.0) (store_definition_at store.now.lines place)) }
{
    let Some(number) = store.key_number(place) else {
        return Ok(None);
    };
    let Some(name) = store.name(number) else {
        unreachable!()
    };
    let kind = number.kind;
    let name = Text::from_bytes(alloc, name)?;
    keys.reserve_one(kind)?;
    Ok(Some(keys.put(Key { kind, name })))
}
