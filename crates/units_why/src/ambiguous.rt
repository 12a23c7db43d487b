//! Words of definitions that are read as a plural or with a prefix, and that have other possible readings.

use crate::entries::{entry_words, what_at};
use crate::evaluator::Evaluator;
use crate::finding::{Finding, LineFinding, Severity, push_finding};
use crate::mark::Mark;
use crate::reading::{put_reading, reading_value};
use crate::writer::Writer;
use deck::Deck;
use def_entry::{Kind, What};
use expr_tree::{WordKind, WordUse};
use quantity::Quantity;
use std::alloc::{AllocError, Global};
use std::sync::ledger::Ledger;
use units_io::Text;
use value_sources::{Reading, word_readings};

// A word of a definition with two or more readings.
struct AmbiguousWord {
    place: usize,
    word: Text,
    readings: Vec<Reading>,
}

// Written by hand, so that code that drops an ambiguous word need not prove anything about its contents.
impl Drop for AmbiguousWord {
    fn drop(self) {
        let AmbiguousWord {
            place: _,
            word: _,
            readings: _,
        } = self;
    }
}

/// Appends a finding for each word of the definitions at the places `keys` that has another reading with different
/// dimensions.
pub(crate) fn put_ambiguous<L: Ledger>(
    evaluator: &mut Evaluator<L>,
    keys: &[usize],
    findings: &mut Vec<LineFinding>,
) -> Result<(), AllocError> {
    let words = ambiguous_words(evaluator.alloc, evaluator.deck(), keys)?;
    for word in words.as_slice() {
        put_if_unlike(evaluator, word, findings)?;
    }
    Ok(())
}

// Appends a finding for a word if one of its readings does not conform to the preferred one.
fn put_if_unlike<L: Ledger>(
    evaluator: &mut Evaluator<L>,
    word: &AmbiguousWord,
    findings: &mut Vec<LineFinding>,
) -> Result<(), AllocError> {
    match unlike_reading(evaluator, word.readings.as_slice())? {
        Some(other) => {
            let finding = ambiguous_finding(evaluator.alloc, word, other)?;
            push_finding(findings, word.place, finding)
        }
        None => Ok(()),
    }
}

fn ambiguous_words(
    alloc: Global,
    deck: &Deck,
    keys: &[usize],
) -> Result<Vec<AmbiguousWord>, AllocError> {
    let mut found = Vec::new(alloc);
    for place in keys {
        if let Some(what) = what_at(deck, *place) {
            put_ambiguous_words(alloc, deck, *place, what, &mut found)?;
        }
    }
    Ok(found)
}

// Appends the words of the definition at a place that have two or more readings.
fn put_ambiguous_words(
    alloc: Global,
    deck: &Deck,
    place: usize,
    what: &What,
    found: &mut Vec<AmbiguousWord>,
) -> Result<(), AllocError> {
    let words = entry_words(alloc, what)?;
    for word in words.as_slice() {
        if is_read_by_rules(deck, word) {
            put_if_ambiguous(alloc, deck, place, word.text(), found)?;
        }
    }
    Ok(())
}

// Returns whether a word is not the name of a unit, a function or a prefix, and not a call of an inverse.
fn is_read_by_rules(deck: &Deck, word: &WordUse<'_>) -> bool {
    if matches!(word.kind(), WordKind::Inverse) {
        return false;
    }
    for kind in [Kind::Unit, Kind::Func, Kind::Prefix] {
        if deck.place_of(kind, word.text()).is_some() {
            return false;
        }
    }
    true
}

// Appends a word if it has two or more readings.
fn put_if_ambiguous(
    alloc: Global,
    deck: &Deck,
    place: usize,
    text: &[u8],
    found: &mut Vec<AmbiguousWord>,
) -> Result<(), AllocError> {
    let readings = word_readings(alloc, deck, text)?;
    if readings.len() < 2 {
        return Ok(());
    }
    let word = Text::from_bytes(alloc, text)?;
    Ok(found.push(AmbiguousWord {
        place,
        word,
        readings,
    })?)
}

// Returns the first reading that does not conform to the preferred one, which is at the front.
fn unlike_reading<'a, L: Ledger>(
    evaluator: &mut Evaluator<L>,
    readings: &'a [Reading],
) -> Result<Option<&'a Reading>, AllocError> {
    let Some((first, others)) = readings.split_first() else {
        return Ok(None);
    };
    let Some(meant) = reading_value(evaluator, first)? else {
        return Ok(None);
    };
    for reading in others {
        if is_unlike(evaluator, reading, &meant)? {
            return Ok(Some(reading));
        }
    }
    Ok(None)
}

// Returns whether a reading has a value that does not conform to another one. A prefix alone does not count.
fn is_unlike<L: Ledger>(
    evaluator: &mut Evaluator<L>,
    reading: &Reading,
    meant: &Quantity,
) -> Result<bool, AllocError> {
    if matches!(reading, Reading::Prefix(_)) {
        return Ok(false);
    }
    match reading_value(evaluator, reading)? {
        Some(value) => Ok(!value.conforms(meant)),
        None => Ok(false),
    }
}

fn ambiguous_finding(
    alloc: Global,
    word: &AmbiguousWord,
    other: &Reading,
) -> Result<Finding, AllocError> {
    let text = word.word.as_bytes();
    let mut message = Writer::new(alloc);
    message.put(text);
    message.put(b" is read as ");
    if let Some(first) = word.readings.as_slice().first() {
        put_reading(&mut message, first, text.len());
    }
    message.put(b", not as ");
    put_reading(&mut message, other, text.len());
    Ok(Finding {
        severity: Severity::Warning,
        message: message.into_text()?,
        mark: Mark::Word(word.word.copy(alloc)?),
    })
}
