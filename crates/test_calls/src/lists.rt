//! The answers to calls that count units.

use crate::amount_reading::{read_quantity, read_units};
use crate::lines::{AnswerWriter, CallFault};
use crate::numbers::put_exact;
use frac128::Frac;
use quantity::Quantity;
use std::alloc::Global;
use unit_list::{SplitFault, split};

// Appends the counts of units in a quantity.
pub(crate) fn put_split(
    alloc: Global,
    round: bool,
    text: &[u8],
    units: &[u8],
    out: &mut AnswerWriter,
) -> Result<(), CallFault> {
    let units = read_units(alloc, units)?;
    let x = read_quantity(alloc, text)?;
    put_counts_in(alloc, &x, units.as_slice(), round, out);
    Ok(())
}

// Appends the counts of units in a quantity, or why there are none.
fn put_counts_in(
    alloc: Global,
    x: &Quantity,
    units: &[Quantity],
    round: bool,
    out: &mut AnswerWriter,
) {
    if units.is_empty() {
        return out.put(b"no unit");
    }
    match split(alloc, x, units, round) {
        Ok(split) => put_counts(alloc, split.counts.as_slice(), out),
        Err(fault) => put_split_fault(fault, out),
    }
}

// Appends counts, each after a space.
fn put_counts(alloc: Global, counts: &[Frac], out: &mut AnswerWriter) {
    out.put(b"counts");
    for count in counts {
        out.put(b" ");
        put_exact(alloc, count, out);
    }
}

// Appends the fault of a split with the place of the unit, counted from 0.
fn put_split_fault(fault: SplitFault, out: &mut AnswerWriter) {
    match fault {
        SplitFault::NotConformable(place) => put_place(b"not conformable: ", place, out),
        SplitFault::ListUnitNotPositive(place) => put_place(b"not positive: ", place, out),
        SplitFault::Number(fault) => out.put(fault.text()),
        SplitFault::OutOfMemory => out.leave_out(),
    }
}

// Appends a fault and the place of its unit.
fn put_place(fault: &[u8], place: usize, out: &mut AnswerWriter) {
    out.put(fault);
    out.put_number(place);
}
