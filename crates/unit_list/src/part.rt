//! One unit of a split.

ghost use Rattle.std.specs.Prelude.{◌≡◌};
ghost use Rattle.unit_list.specs.Splits as spec;

use frac128::{Frac, FracFault};

// The count of a unit in a number, and the remainder of the number.
#[derive(Clone, Copy)]
pub(crate) struct Part {
    pub(crate) count: Frac,
    pub(crate) rest: Frac,
}

// Returns the greatest whole count of the unit in x, and the remainder of x.
pub(crate) fn part_of(x: &Frac, unit: &Frac) -> Result<Part, FracFault>
    ensures { result ≡ spec.part_by_unit x.now unit.now }
{
    let count = x.div(unit)?.floor();
    let taken = count.mul(unit)?;
    let rest = x.sub(&taken)?;
    Ok(Part { count, rest })
}
