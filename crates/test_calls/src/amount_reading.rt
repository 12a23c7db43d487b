//! Quantities, lists of units and points in lines.

use crate::lines::CallFault;
use crate::reading::read_fraction;
use def_entry::cut_at;
use frac128::Frac;
use quantity::{Quantity, QuantityFault};
use std::alloc::Global;
use units_io::List;

// Splits a text at the first `mark` into the parts before and after it. If there is no mark, the second part is empty.
pub(crate) fn parted(text: &[u8], mark: u8) -> (&[u8], &[u8]) {
    cut_at(text, mark).unwrap_or((text, b""))
}

// Reads quantities separated by `;`.
pub(crate) fn read_units(alloc: Global, text: &[u8]) -> Result<List<Quantity>, CallFault> {
    let mut units = List::new(alloc);
    for unit in text.split(|byte| *byte == b';') {
        units.push(alloc, read_quantity(alloc, unit)?)?;
    }
    Ok(units)
}

// Reads points separated by `;`. Each is an x, a space and a y.
pub(crate) fn read_points(alloc: Global, text: &[u8]) -> Result<List<(Frac, Frac)>, CallFault> {
    let mut points = List::new(alloc);
    if text.is_empty() {
        return Ok(points);
    }
    for point in text.split(|byte| *byte == b';') {
        let (x, y) = parted(point, b' ');
        points.push(alloc, (read_fraction(x)?, read_fraction(y)?))?;
    }
    Ok(points)
}

// Reads a quantity: a fraction followed by names such as `m`, `m^2` or `m^1|2`, separated by spaces.
pub(crate) fn read_quantity(alloc: Global, text: &[u8]) -> Result<Quantity, CallFault> {
    let (number, mut rest) = parted(text, b' ');
    let mut x = Quantity::number(alloc, read_fraction(number)?);
    for _ in 0..text.len() {
        if rest.is_empty() {
            break;
        }
        let (word, words) = parted(rest, b' ');
        x = known(x.times(alloc, &read_power(alloc, word)?))?;
        rest = words;
    }
    Ok(x)
}

// Reads a name with its exponent.
fn read_power(alloc: Global, word: &[u8]) -> Result<Quantity, CallFault> {
    let (name, power) = parted(word, b'^');
    let name = Quantity::one(alloc, name)?;
    if power.is_empty() {
        return Ok(name);
    }
    let power = Quantity::number(alloc, read_fraction(power)?);
    known(name.into_power(alloc, &power))
}

// Returns the result of a step. A fault of the step makes the call bad.
fn known(answer: Result<Quantity, QuantityFault>) -> Result<Quantity, CallFault> {
    match answer {
        Ok(x) => Ok(x),
        Err(QuantityFault::OutOfMemory) => Err(CallFault::OutOfMemory),
        Err(_) => Err(CallFault::BadCall),
    }
}
