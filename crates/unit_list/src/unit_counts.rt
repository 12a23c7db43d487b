//! Splitting a quantity into counts of units.

ghost use Rattle.std.specs.Prelude.{◌≡◌, ◌<◌, length, All, IfOk, OnOk};
ghost use Rattle.unit_list.specs.Amounts.{AreGivenCounts, HasUnitDenominator, IsSplit, numbers_of_units};
ghost use Rattle.unit_list.specs.Amounts.{unit_counts_in};
ghost use Rattle.unit_list.specs.Counts.{IsSplitIntoUnits};
ghost use Rattle.unit_list.specs.Splits as spec;

use crate::counts::{Fracs, Split};
use crate::fault::SplitFault;
use crate::laws::split_law;
use crate::part::part_of;
use crate::sign::{is_negative, magnitude, negated_if};
use crate::unit_rounding::rounded_if;
use crate::units::unit_fault;
use frac128::Frac;
use quantity::Quantity;
use std::alloc::Global;

/// Returns the counts of the units in a quantity. For each unit but the last, the count is the greatest whole number
/// of it, by magnitude, in what the earlier units leave. The last unit gets the remainder. A quantity below 0 has the
/// counts of its magnitude, each negated. If `round` is set, the magnitude is first rounded to the nearest whole
/// multiple of the last unit, and a tie goes to the even multiple. The faults are `NotConformable` with the index of
/// the first unit that has other exponents, then `ListUnitNotPositive` with the index of the first unit whose number
/// is not above 0, then `Number` with the fault of the first operation that fails.
pub fn split(
    alloc: Global,
    q: &Quantity,
    units: &[Quantity],
    round: bool,
) -> Result<Split, SplitFault>
    requires { 0 < length units.now }
    ensures computed { IsSplit result (unit_counts_in round q.now units.now) }
    ensures counted { IfOk result
        (λ split. IsSplitIntoUnits round q.now.value (numbers_of_units units.now) split.counts) }
{
    if let Some(fault) = unit_fault(q, units) {
        return Err(fault);
    }
    let number = q.value();
    let last = units[units.len() - 1].value();
    let amount = rounded_if(round, &last, &magnitude(&number))?;
    let counts = counts_of(alloc, is_negative(&number), &amount, units)?;
    split_law();
    Ok(Split { counts })
}

// Returns the counts of the units in an amount that is not below 0, each negated if `negative` is set.
fn counts_of(
    alloc: Global,
    negative: bool,
    amount: &Frac,
    units: &[Quantity],
) -> Result<Fracs, SplitFault>
    requires { 0 < length units.now }
    ensures counts { AreGivenCounts result
        (spec.signed_unit_counts negative (spec.counts_of_units amount.now (numbers_of_units units.now))) }
    ensures denominators { OnOk result (All HasUnitDenominator units.now) }
{
    let last = units.len() - 1;
    let mut rest = *amount;
    let mut counts = Fracs::new(alloc);
    for i in 0..last {
        let part = part_of(&rest, &units[i].value())?;
        counts.push(alloc, negated_if(negative, &part.count))?;
        rest = part.rest;
    }
    let count = rest.div(&units[last].value())?;
    counts.push(alloc, negated_if(negative, &count))?;
    Ok(counts)
}
