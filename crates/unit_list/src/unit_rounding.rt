//! Rounding to whole multiples of a unit.

ghost use Rattle.std.specs.Prelude.{◌≡◌, ◌<◌, ◌%◌, ◌+◌, ◌/◌, ◌≤ℤ◌, pos, unsigned_abs};
ghost use Rattle.frac128.specs.Fraction.{whole_fraction};
ghost use Rattle.unit_list.specs.Splits as spec;

use crate::sign::magnitude;
use frac128::{Frac, FracFault};
use std::cmp::Ordering;

// Returns the number or, if `round` is set, the whole multiple of the unit that is nearest to it.
pub(crate) fn rounded_if(round: bool, unit: &Frac, x: &Frac) -> Result<Frac, FracFault>
    ensures { result ≡ spec.rounded_to_unit_if round unit.now x.now }
{
    if round { rounded_to(unit, x) } else { Ok(*x) }
}

// Returns the whole multiple of the unit that is nearest to x.
fn rounded_to(unit: &Frac, x: &Frac) -> Result<Frac, FracFault>
    ensures { result ≡ spec.rounded_to_unit unit.now x.now }
{
    nearest_to(&x.div(unit)?).mul(unit)
}

// Returns the whole number nearest to the magnitude of x. A tie goes to the even number.
fn nearest_to(x: &Frac) -> Frac
    ensures { result ≡ whole_fraction (pos (spec.nearest_unit_count x.now)) }
{
    let x = magnitude(x);
    let low = x.floor();
    let rest = x.num().unsigned_abs() % x.den().unsigned_abs();
    match (2 * rest).cmp(&x.den().unsigned_abs()) {
        Ordering::Less => low,
        Ordering::Equal if low.num() % 2 == 0 => low,
        _ => ceiling(&x),
    }
}

// Returns the next whole number above a fraction that is not below 0 and not whole.
fn ceiling(x: &Frac) -> Frac
    requires plain { pos 0 ≤ℤ x.now.num }
    requires part { 0 < unsigned_abs x.now.num % x.now.den }
    ensures { result ≡ whole_fraction (pos (unsigned_abs x.now.num / x.now.den + 1)) }
{
    x.negate().floor().negate()
}
