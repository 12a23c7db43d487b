//! Lookups and comparisons in lists of powers.

ghost use Rattle.std.specs.Prelude.{◌≡◌, ◌&&◌, pos, nat_eq, unwrap_or};
ghost use Rattle.std.specs.Cmp.Lexicographic.{pointwise, slice_cmp};
ghost use Rattle.std.specs.FinMap as map;
ghost use Rattle.std.specs.Ordering.{nat_cmp};
ghost use Rattle.frac128.specs.Fraction.{whole_fraction};
ghost use Rattle.quantity.specs.Amount.{are_equal_exponents, powers_match};
ghost use Rattle.quantity.specs.Factors as spec;
ghost use Rattle.quantity.specs.Stores.{remaining_powers};

use crate::exponent::Exponent;
use crate::factor::Factor;
use crate::power::Power;
use crate::walk::{Entry, Walk};

// Returns the exponent of a name, or 0 if the name is absent.
pub(crate) fn exponent_in(powers: Walk<'_>, name: &[u8]) -> Exponent
    ensures { result ≡ unwrap_or (map.find (slice_cmp nat_cmp) name.now (remaining_powers powers.entry))
        (whole_fraction (pos 0)) }
{
    let mut powers = powers;
    while let Some(power) = powers.next() {
        if name == power.name.as_bytes() {
            return power.exponent;
        }
    }
    Exponent::zero()
}

// Reports whether two lists have the same names in the same order, and each exponent on the left is the exponent on
// the right as the factor uses it.
pub(crate) fn same_lists(left: &[Power], right: &[Power], factor: Factor) -> bool
    ensures { result ≡ powers_match (spec.exponent_in factor) left.now right.now }
{
    let (mut left, mut right) = (left, right);
    loop {
        match (left.split_first(), right.split_first()) {
            (None, None) => return true,
            (Some((l, ls)), Some((r, rs))) => {
                if l.name() != r.name() || l.exponent() != factor.exponent(r.exponent()) {
                    return false;
                }
                left = ls;
                right = rs;
            }
            _ => return false,
        }
    }
}

// Reports the same as `same_lists`, for two walks.
pub(crate) fn same_powers(left: Walk<'_>, right: Walk<'_>, factor: Factor) -> bool
    ensures { result ≡ powers_match (spec.exponent_in factor) (remaining_powers left.entry)
        (remaining_powers right.entry) }
{
    let (mut left, mut right) = (left, right);
    loop {
        match (left.next(), right.next()) {
            (None, None) => return true,
            (Some(power), Some(other)) => {
                if !same_power(&power, &other, factor) {
                    return false;
                }
            }
            _ => return false,
        }
    }
}

// Reports whether two powers have the same name, and the left exponent is the right one as the factor uses it.
fn same_power(left: &Entry<'_>, right: &Entry<'_>, factor: Factor) -> bool
    ensures { result ≡ (pointwise nat_eq left.now.name.now right.now.name.now
        && are_equal_exponents left.now.exponent (spec.exponent_in factor right.now.exponent)) }
{
    left.name.as_bytes() == right.name.as_bytes()
        && left.exponent == factor.exponent(right.exponent)
}
