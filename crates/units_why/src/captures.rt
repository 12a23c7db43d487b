//! Units whose names could be read as plurals or with prefixes.

ghost use Rattle.reply.specs.Options.{AreReplyOptionsPrintable};

use crate::evaluator::Evaluator;
use crate::finding::{Finding, LineFinding, Severity, push_finding};
use crate::mark::Mark;
use crate::reading::{put_reading, reading_value};
use crate::writer::Writer;
use deck::Deck;
use def_entry::Kind;
use quantity::Quantity;
use reply::Options;
use std::alloc::AllocError;
use std::sync::ledger::Ledger;
use units_io::Text;
use value_sources::{Reading, word_readings};

/// Appends a finding for each unit at the places `keys` that hides a reading with a different value.
pub(crate) fn put_captures<L: Ledger>(
    evaluator: &mut Evaluator<L>,
    options: &Options,
    keys: &[usize],
    findings: &mut Vec<LineFinding>,
) -> Result<(), AllocError>
    requires { AreReplyOptionsPrintable options.now }
{
    for place in keys {
        if let Some(unit) = unit_at(evaluator.deck(), *place) {
            let unit = Text::from_bytes(evaluator.alloc, unit)?;
            if let Some(finding) = capture_finding(evaluator, options, &unit)? {
                push_finding(findings, *place, finding)?;
            }
        }
    }
    Ok(())
}

// Returns the unit that the line at a place defines.
fn unit_at(deck: &Deck, place: usize) -> Option<&[u8]> {
    let key = deck.key_at(place)?;
    match key.kind {
        Kind::Unit => Some(key.name),
        Kind::Prefix | Kind::Func | Kind::List => None,
    }
}

fn capture_finding<L: Ledger>(
    evaluator: &mut Evaluator<L>,
    options: &Options,
    unit: &Text,
) -> Result<Option<Finding>, AllocError>
    requires { AreReplyOptionsPrintable options.now }
{
    let readings = word_readings(evaluator.alloc, evaluator.deck(), unit.as_bytes())?;
    let Some(hidden) = first_with_unit(readings.as_slice()) else {
        return Ok(None);
    };
    let Some(value) = hidden_value(evaluator, unit, hidden)? else {
        return Ok(None);
    };
    let mut message = Writer::new(evaluator.alloc);
    message.put(b"hides ");
    put_reading(&mut message, hidden, unit.as_bytes().len());
    message.put(b" = ");
    message.put_value(options, &value);
    Ok(Some(Finding {
        severity: Severity::Information,
        message: message.into_text()?,
        mark: Mark::Name,
    }))
}

// Returns the value of a reading that a unit hides, if the unit has a different value.
fn hidden_value<L: Ledger>(
    evaluator: &mut Evaluator<L>,
    unit: &Text,
    hidden: &Reading,
) -> Result<Option<Quantity>, AllocError> {
    let Some(own) = evaluator.word_value(unit)? else {
        return Ok(None);
    };
    let Some(other) = reading_value(evaluator, hidden)? else {
        return Ok(None);
    };
    Ok(if is_same(&own, &other) {
        None
    } else {
        Some(other)
    })
}

// Returns the first reading that is not a prefix alone.
fn first_with_unit(readings: &[Reading]) -> Option<&Reading> {
    for reading in readings {
        match reading {
            Reading::Unit(_) | Reading::PrefixedUnit(_, _) => return Some(reading),
            Reading::Prefix(_) => {}
        }
    }
    None
}

// Returns whether two values are equal.
fn is_same(one: &Quantity, other: &Quantity) -> bool {
    one.conforms(other) && one.value() == other.value()
}
