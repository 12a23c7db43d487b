//! Conversions between quantities that are already known.

ghost use Rattle.std.specs.Prelude.{◌<◌, length};
ghost use Rattle.unit_list.specs.Amounts.{unit_counts_in};
ghost use Rattle.reply.specs.Calls as call;
ghost use Rattle.reply.specs.Conversions as spec;

use crate::conversion::Conversion;
use crate::failure::Failure;
use crate::fault::ReplyFault;
use crate::ratio::{ratio_of, reciprocal_ratio};
use quantity::Quantity;
use std::alloc::Global;
use unit_list::{SplitFault, split};
use units_io::Text;

/// Expresses one quantity in terms of another: `Linear` if they conform; else `Reciprocal` if they are reciprocal and
/// `strict` is off; else `NonConforming`, the only case in which `y` is copied.
pub(crate) fn compare_quantities(
    alloc: Global,
    strict: bool,
    x: Quantity,
    y: &Quantity,
) -> Result<Conversion, Failure>
    ensures { call.IsInquiryWithoutQueriesAnswered call.inquiry_identity (spec.conversion_between strict x y.now)
        result }
{
    if x.conforms(y) {
        return Ok(Conversion::Linear(ratio_of(&x.value(), &y.value())?));
    }
    if x.is_reciprocal(y) && !strict {
        return Ok(Conversion::Reciprocal(reciprocal_ratio(&x.value(), &y.value())?));
    }
    Ok(Conversion::NonConforming(x, y.copy(alloc)?))
}

/// Splits a quantity into counts of the units of a list.
pub(crate) fn count_units(
    alloc: Global,
    round: bool,
    list: Text,
    x: Quantity,
    mut units: Vec<Quantity>,
) -> Result<Conversion, Failure>
    requires { 0 < length units.items }
    ensures { call.IsInquiryWithoutQueriesAnswered call.inquiry_identity
        (spec.split_conversion x list units.items (unit_counts_in round x units.items)) result }
{
    match split(alloc, &x, units.as_slice(), round) {
        Ok(split) => Ok(Conversion::Split(list, split.counts)),
        Err(SplitFault::NotConformable(place)) => Ok(Conversion::NonConforming(
            x,
            units.swap_remove(place),
        )),
        Err(SplitFault::ListUnitNotPositive(place)) => Err(Failure::Fault(ReplyFault::List(place))),
        Err(SplitFault::Number(fault)) => Err(Failure::from(fault)),
        Err(SplitFault::OutOfMemory) => Err(Failure::OutOfMemory),
    }
}
