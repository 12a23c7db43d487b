//! Checks whether units can split a quantity.

ghost use Rattle.std.specs.Prelude.{◌≡◌, position};
ghost use Rattle.frac128.specs.Sign as sign;
ghost use Rattle.unit_list.specs.Amounts as spec;

use crate::fault::SplitFault;
use quantity::Quantity;

// Returns the fault of the first unit that does not conform or, if all conform, of the first unit whose number is not
// above 0.
pub(crate) fn unit_fault(q: &Quantity, units: &[Quantity]) -> Option<SplitFault>
    ensures { result ≡ spec.unit_list_fault q.now units.now }
{
    if let Some(place) = first_unlike(q, units) {
        return Some(SplitFault::NotConformable(place));
    }
    first_not_positive(units).map(SplitFault::ListUnitNotPositive)
}

// Returns the index of the first unit that does not conform.
fn first_unlike(q: &Quantity, units: &[Quantity]) -> Option<usize>
    ensures { result ≡ position (spec.is_unlike_unit q.now) units.now }
{
    units.iter().position(|unit| !q.conforms(unit))
}

// Returns the index of the first unit whose number is not above 0.
fn first_not_positive(units: &[Quantity]) -> Option<usize>
    ensures { result ≡ position spec.is_unit_not_positive units.now }
{
    units.iter().position(|unit| !is_positive(unit))
}

// Reports whether the number is above 0.
fn is_positive(unit: &Quantity) -> bool
    ensures { result ≡ sign.is_positive_fraction unit.now.value }
{
    unit.value().num() > 0
}
