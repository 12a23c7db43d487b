//! Reads the definitions of lines that are to be put into a store.

ghost use Rattle.std.specs.Prelude.{◌≡◌, Some, map, option_map, IfOk};
ghost use Rattle.def_entry.specs.Views.{entry_definition_view};
ghost use Rattle.deck_lines.specs.StoredDefinitions.{IsStoreDefined, keyed_store_definition, seen_store_definition};
ghost use Rattle.deck_lines.specs.Names.{AreKeyNumbersExtended, AreKeyNumbersOneToOne};
ghost use Rattle.deck_lines.specs.NumberedKeys.{key_number_names_in};
ghost use Rattle.deck_lines.specs.Readings.{entry_in_store_line};

use super::definitions::{Definition, PutDefinitions};
use super::key_numbers::KeyNumbers;
use crate::line::DeckLine;
use crate::line_meaning::{Reading, read_line};
use def_entry::{Key, What};
use std::alloc::{AllocError, Global};

/// Returns the definitions of lines. Keys without a number get the next number of their kind. The only error is running
/// out of memory.
pub(crate) fn read_definitions(
    alloc: Global,
    keys: &mut KeyNumbers,
    lines: &[DeckLine],
) -> Result<PutDefinitions, AllocError>
    ensures extended { AreKeyNumbersExtended (key_number_names_in keys.old) (key_number_names_in keys.new) }
    ensures unique { AreKeyNumbersOneToOne (key_number_names_in keys.old)
        → AreKeyNumbersOneToOne (key_number_names_in keys.new) }
    ensures ok { IfOk result (λ put. IsStoreDefined (key_number_names_in keys.new) put.of_lines.items
        (map entry_in_store_line lines.now)) }
{
    let mut definitions = Vec::new(alloc);
    for line in lines {
        let definition = definition_of(alloc, keys, line)?;
        definitions.push(definition)?;
    }
    Ok(PutDefinitions {
        of_lines: definitions,
    })
}

// Returns the definition of a line, or `None` if it defines nothing.
#[tactic(auto, unfolding(crate::specs::Readings::entry_in_store_line))]
fn definition_of(
    alloc: Global,
    keys: &mut KeyNumbers,
    line: &DeckLine,
) -> Result<Option<Definition>, AllocError>
    ensures extended { AreKeyNumbersExtended (key_number_names_in keys.old) (key_number_names_in keys.new) }
    ensures unique { AreKeyNumbersOneToOne (key_number_names_in keys.old)
        → AreKeyNumbersOneToOne (key_number_names_in keys.new) }
    ensures ok { IfOk result (λ d. option_map (seen_store_definition (key_number_names_in keys.new)) d
        ≡ option_map keyed_store_definition (entry_in_store_line line.now)) }
{
    if line.mark {
        return Ok(None);
    }
    match read_line(alloc, line.text.as_bytes())? {
        Reading::Defines(key, what) => Ok(Some(number_definition(keys, key, what)?)),
        Reading::Stands(_) => Ok(None),
        Reading::Includes(_) => Ok(None),
        Reading::Faulty(_) => Ok(None),
    }
}

// Returns a definition with the number of its key. A key without a number gets the next number of its kind.
fn number_definition(keys: &mut KeyNumbers, key: Key, what: What) -> Result<Definition, AllocError>
    ensures extended { AreKeyNumbersExtended (key_number_names_in keys.old) (key_number_names_in keys.new) }
    ensures unique { AreKeyNumbersOneToOne (key_number_names_in keys.old)
        → AreKeyNumbersOneToOne (key_number_names_in keys.new) }
    ensures ok { IfOk result (λ d. seen_store_definition (key_number_names_in keys.new) d
        ≡ (Some key, entry_definition_view what)) }
{
    keys.reserve_one(key.kind)?;
    let key = keys.put(key);
    Ok(Definition { key, what })
}
