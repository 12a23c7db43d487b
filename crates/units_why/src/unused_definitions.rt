//! Definitions that no other definition uses.

use crate::entries::{entry_words, key_at, what_at};
use crate::evaluator::Evaluator;
use crate::finding::{Finding, LineFinding, Severity, push_finding};
use crate::mark::Mark;
use deck::Deck;
use def_entry::{Kind, What};
use expr_tree::{WordKind, WordUse};
use std::alloc::{AllocError, Global};
use std::sync::ledger::Ledger;
use units_io::Text;
use value_sources::{Reading, word_readings};

// For each line of a deck, whether another definition uses the definition on it.
struct Uses {
    is_used: Vec<bool>,
}

// Written by hand, so that code that drops uses need not prove anything about their contents.
impl Drop for Uses {
    fn drop(self) {
        let Uses { is_used: _ } = self;
    }
}

/// Appends a finding for each definition at the places `keys` that no other definition uses, except units of measure
/// and lists: a unit of measure is for the user, and no definition can use a list.
pub(crate) fn put_unused<L: Ledger>(
    evaluator: &mut Evaluator<L>,
    keys: &[usize],
    findings: &mut Vec<LineFinding>,
) -> Result<(), AllocError> {
    let alloc = evaluator.alloc;
    let uses = Uses::of(alloc, evaluator.deck(), keys)?;
    for place in keys {
        if !uses.is_used_at(*place) && !is_for_readers(evaluator, *place)? {
            push_finding(findings, *place, unused_finding(alloc)?)?;
        }
    }
    Ok(())
}

fn unused_finding(alloc: Global) -> Result<Finding, AllocError> {
    Ok(Finding {
        severity: Severity::Information,
        message: Text::from_bytes(alloc, b"no other definition uses it")?,
        mark: Mark::Name,
    })
}

// Returns whether the line at a place defines a list, a unit whose value is not a number, or no key.
fn is_for_readers<L: Ledger>(
    evaluator: &mut Evaluator<L>,
    place: usize,
) -> Result<bool, AllocError> {
    let Some(key) = key_at(evaluator.alloc, evaluator.deck(), place)? else {
        return Ok(true);
    };
    match key.kind {
        Kind::List => Ok(true),
        Kind::Prefix | Kind::Func => Ok(false),
        Kind::Unit => is_unit_of_measure(evaluator, &key.name, place),
    }
}

// Returns whether the value of a unit, which the line at a place defines, is not a number.
fn is_unit_of_measure<L: Ledger>(
    evaluator: &mut Evaluator<L>,
    unit: &Text,
    place: usize,
) -> Result<bool, AllocError> {
    if let Some(What::Primitive | What::Dimensionless) = what_at(evaluator.deck(), place) {
        return Ok(true);
    }
    match evaluator.word_value(unit)? {
        Some(value) => Ok(!value.is_number()),
        None => Ok(true),
    }
}

impl Uses {
    // Collects the uses in the definitions at the places `keys`.
    fn of(alloc: Global, deck: &Deck, keys: &[usize]) -> Result<Uses, AllocError> {
        let mut is_used = Vec::new(alloc);
        is_used.resize(deck.lines().len(), false)?;
        let mut uses = Uses { is_used };
        for place in keys {
            if let Some(what) = what_at(deck, *place) {
                uses.take_words(alloc, deck, *place, what)?;
            }
        }
        Ok(uses)
    }

    // Records the uses in the definition at `place`.
    fn take_words(
        &mut self,
        alloc: Global,
        deck: &Deck,
        place: usize,
        what: &What,
    ) -> Result<(), AllocError> {
        let words = entry_words(alloc, what)?;
        for word in words.as_slice() {
            if !self.take_name(deck, place, word) {
                self.take_first_reading(alloc, deck, place, word)?;
            }
        }
        Ok(())
    }

    fn is_used_at(&self, place: usize) -> bool {
        self.is_used.get(place).copied().unwrap_or(false)
    }

    // Records that the definition at `place` uses the key that a word names, and returns whether there is one.
    fn take_name(&mut self, deck: &Deck, place: usize, word: &WordUse<'_>) -> bool {
        let (first, second) = match word.kind() {
            WordKind::Plain => (Kind::Unit, Kind::Func),
            WordKind::Call => (Kind::Func, Kind::Unit),
            WordKind::Inverse => (Kind::Func, Kind::Func),
        };
        let text = word.text();
        self.take(deck, place, first, text) || self.take(deck, place, second, text)
    }

    // Records the uses by a word that names no key: its first reading counts.
    fn take_first_reading(
        &mut self,
        alloc: Global,
        deck: &Deck,
        place: usize,
        word: &WordUse<'_>,
    ) -> Result<(), AllocError> {
        if matches!(word.kind(), WordKind::Inverse) {
            return Ok(());
        }
        let readings = word_readings(alloc, deck, word.text())?;
        if let Some(reading) = readings.as_slice().first() {
            self.take_reading(deck, place, reading);
        }
        Ok(())
    }

    fn take_reading(&mut self, deck: &Deck, place: usize, reading: &Reading) {
        match reading {
            Reading::Unit(unit) => {
                self.take(deck, place, Kind::Unit, unit.as_bytes());
            }
            Reading::Prefix(prefix) => {
                self.take(deck, place, Kind::Prefix, prefix.as_bytes());
            }
            Reading::PrefixedUnit(prefix, unit) => {
                self.take(deck, place, Kind::Prefix, prefix.as_bytes());
                self.take(deck, place, Kind::Unit, unit.as_bytes());
            }
        }
    }

    // Records that the definition at `place` uses a key, and returns whether the key exists.
    fn take(&mut self, deck: &Deck, place: usize, kind: Kind, name: &[u8]) -> bool {
        let Some(used) = deck.place_of(kind, name) else {
            return false;
        };
        if used != place && used < self.is_used.len() {
            self.is_used[used] = true;
        }
        true
    }
}
