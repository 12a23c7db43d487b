//! The readings of words.

ghost use Rattle.std.specs.Prelude.{◌≡◌, ◌++◌, ◌∷◌, [], IfOk, OnOk, codes, flat_map, length, if◌then◌else◌};
ghost use Rattle.def_entry.specs.Keys.{key};
ghost use Rattle.def_entry.specs.Tables.{is_entry_present};
ghost use Rattle.def_entry.specs.declared.key.Kind.TheVariants as kinds;
ghost use Rattle.deck.specs.Tables.{table_of_deck};
ghost use Rattle.name_lookup.specs.Candidates as lookup;
ghost use Rattle.name_lookup.specs.Plurals.{has_plural_ending, stem_without_end};
ghost use Rattle.value_sources.specs.Readings as spec;

mod endings;
mod laws;
mod reading;

use deck::Deck;
use def_entry::Kind;
use endings::{PluralEnding, without_ending};
pub use laws::{first_reading_law, reading_examples_law};
pub use reading::Reading;
use std::alloc::{AllocError, Global};
use units_io::Text;

/// Returns all readings of `word` in `deck` as a plural or with a prefix, in the order in which lookup prefers them.
/// Fails only if memory runs out.
pub fn word_readings(alloc: Global, deck: &Deck, word: &[u8]) -> Result<Vec<Reading>, AllocError>
    ensures { IfOk result (λ readings. spec.readings_keys readings.items
        ≡ spec.readings (table_of_deck deck.now) word.now) }
{
    let mut readings = Vec::new(alloc);
    let s = PluralEnding {
        letters: b"s",
        more: 2,
    };
    let es = PluralEnding {
        letters: b"es",
        more: 3,
    };
    put_without(alloc, deck, &mut readings, word, &s)?;
    put_without(alloc, deck, &mut readings, word, &es)?;
    put_with_y(alloc, deck, &mut readings, word)?;
    put_with_prefixes(alloc, deck, &mut readings, word)?;
    Ok(readings)
}

// Appends the readings of the singular, which is the word without an ending, if it ends so and is long enough.
#[tactic(auto, using(crate::proofs::PresentReadings::singular_there, crate::proofs::PresentReadings::singular_absent))]
fn put_without(
    alloc: Global,
    deck: &Deck,
    readings: &mut Vec<Reading>,
    word: &[u8],
    ending: &PluralEnding<'_>,
) -> Result<(), AllocError>
    ensures { OnOk result (spec.readings_keys readings.new.items ≡ spec.readings_keys readings.old.items
        ++ spec.readings_present (table_of_deck deck.now) (flat_map lookup.singular_candidates
        (if has_plural_ending ending.now.more ending.now.letters.now word.now
        then stem_without_end (length ending.now.letters.now) word.now ∷ [] else []))) }
{
    match without_ending(word, ending) {
        Some(singular) => put_singular(alloc, deck, readings, singular),
        None => Ok(()),
    }
}

// Appends the readings of the singular with `y` in place of `ies`, if the word ends in `ies` and has more than 4 bytes.
#[tactic(auto, using(crate::proofs::PresentReadings::singular_there, crate::proofs::PresentReadings::singular_absent))]
fn put_with_y(
    alloc: Global,
    deck: &Deck,
    readings: &mut Vec<Reading>,
    word: &[u8],
) -> Result<(), AllocError>
    ensures { OnOk result (spec.readings_keys readings.new.items ≡ spec.readings_keys readings.old.items
        ++ spec.readings_present (table_of_deck deck.now) (flat_map lookup.singular_candidates
        (if has_plural_ending 4 (codes "ies") word.now then (stem_without_end 3 word.now ++ codes "y") ∷ [] else []))) }
{
    let ies = PluralEnding {
        letters: b"ies",
        more: 4,
    };
    let Some(front) = without_ending(word, &ies) else {
        return Ok(());
    };
    let mut singular = Vec::from_slice(alloc, front)?;
    singular.extend_from_slice(b"y")?;
    put_singular(alloc, deck, readings, singular.as_slice())
}

// Appends the readings of a singular: as a unit, and with prefixes.
#[tactic(auto, using(crate::proofs::PresentReadings::onto))]
fn put_singular(
    alloc: Global,
    deck: &Deck,
    readings: &mut Vec<Reading>,
    word: &[u8],
) -> Result<(), AllocError>
    ensures { OnOk result (spec.readings_keys readings.new.items ≡ spec.readings_keys readings.old.items
        ++ spec.readings_present (table_of_deck deck.now) (lookup.singular_candidates word.now)) }
{
    put_unit(alloc, deck, readings, word)?;
    put_with_prefixes(alloc, deck, readings, word)
}

// Appends the unit with this name, if it is present.
fn put_unit(
    alloc: Global,
    deck: &Deck,
    readings: &mut Vec<Reading>,
    word: &[u8],
) -> Result<(), AllocError>
    ensures { OnOk result (spec.readings_keys readings.new.items ≡ spec.readings_keys readings.old.items
        ++ spec.readings_present (table_of_deck deck.now) ((key kinds.Unit word.now ∷ []) ∷ [])) }
{
    if !has_key(deck, Kind::Unit, word) {
        return Ok(());
    }
    let unit = Text::from_bytes(alloc, word)?;
    push_reading(readings, Reading::Unit(unit))
}

// Appends the readings of a word that begin with a prefix, the longest prefix first.
fn put_with_prefixes(
    alloc: Global,
    deck: &Deck,
    readings: &mut Vec<Reading>,
    word: &[u8],
) -> Result<(), AllocError>
    ensures { OnOk result (spec.readings_keys readings.new.items ≡ spec.readings_keys readings.old.items
        ++ spec.readings_present (table_of_deck deck.now) (lookup.prefix_candidates word.now)) }
{
    let mut len = word.len();
    while len > 0 {
        let (front, rest) = word.split_at(len);
        put_with_prefix(alloc, deck, readings, front, rest)?;
        len -= 1;
    }
    Ok(())
}

// Appends the reading of a word split into two parts, if the first is a prefix and the second is empty or a unit.
fn put_with_prefix(
    alloc: Global,
    deck: &Deck,
    readings: &mut Vec<Reading>,
    front: &[u8],
    rest: &[u8],
) -> Result<(), AllocError>
    ensures { OnOk result (spec.readings_keys readings.new.items ≡ spec.readings_keys readings.old.items
        ++ spec.readings_present (table_of_deck deck.now) (lookup.prefix_candidate front.now rest.now ∷ [])) }
{
    if !has_key(deck, Kind::Prefix, front) {
        return Ok(());
    }
    if rest.is_empty() {
        let prefix = Text::from_bytes(alloc, front)?;
        return push_reading(readings, Reading::Prefix(prefix));
    }
    if !has_key(deck, Kind::Unit, rest) {
        return Ok(());
    }
    let prefix = Text::from_bytes(alloc, front)?;
    let unit = Text::from_bytes(alloc, rest)?;
    push_reading(readings, Reading::PrefixedUnit(prefix, unit))
}

// Returns whether a key has an entry.
fn has_key(deck: &Deck, kind: Kind, name: &[u8]) -> bool
    ensures { result ≡ is_entry_present (table_of_deck deck.now) (key kind name.now) }
{
    deck.entry(kind, name).is_some()
}

// Appends a reading.
fn push_reading(readings: &mut Vec<Reading>, reading: Reading) -> Result<(), AllocError>
    ensures { OnOk result (spec.readings_keys readings.new.items
        ≡ spec.readings_keys readings.old.items ++ spec.reading_keys reading ∷ []) }
{
    readings.push(reading)?;
    Ok(())
}
