//! Decimals with a given number of digits.

ghost use Rattle.std.specs.Prelude.{◌≡◌, ◌<◌, ◌≤◌, ◌^◌, pos, negsuc, ◌<ℤ◌, ◌≤ℤ◌};
ghost use Rattle.frac128.specs.Nearest as nearest_spec;
ghost use Rattle.digits_print.specs.Nearest.{HasDigits};
ghost use Rattle.digits_print.specs.RatioRounding as spec;

use std::cmp::Ordering;
use std::marker::Model;

// The maximum number of significant digits of a printed number.
pub(crate) const MOST_DIGITS: u32 = 36;

// A coefficient times ten to the power of the scale.
#[derive(Clone, Copy)]
pub(crate) struct Decimal {
    pub(crate) coefficient: u128,
    pub(crate) scale: i32,
}

impl Model for Decimal {
    ghost use Rattle.frac128.specs.Decimals.{NumeralDecimal};

    ghost Value = { NumeralDecimal };

    ghost view = { λ x. record { coefficient = x.coefficient; scale = x.scale } };

    ghost inverse = { λ x. record { coefficient = x.coefficient; scale = x.scale } };
}

impl Decimal {
    // Returns the number at this scale, rounded by the comparison of the part cut off with one half.
    pub(crate) fn round_number(number: u128, cut: Ordering, scale: i32, digits: u32) -> Decimal
        requires some { 0 < digits }
        requires most { digits ≤ MOST_DIGITS }
        requires fits { HasDigits digits number }
        requires low { negsuc 99 <ℤ scale }
        requires high { scale <ℤ pos 100 }
        ensures value { result ≡ spec.rounding_carry digits (nearest_spec.whole_by_fraction_part number cut) scale }
        ensures fits { HasDigits digits result.coefficient }
        ensures low { negsuc 99 <ℤ result.scale }
        ensures high { result.scale ≤ℤ pos 100 }
    {
        let limit = power_of_ten(digits);
        let nearest = by_half(number, cut);
        if nearest == limit {
            Decimal {
                coefficient: power_of_ten(digits - 1),
                scale: scale + 1,
            }
        } else {
            Decimal {
                coefficient: nearest,
                scale,
            }
        }
    }
}

// Returns the number or its successor. A half rounds to the even number.
fn by_half(number: u128, cut: Ordering) -> u128
    requires { number < 10 ^ MOST_DIGITS }
    ensures { result ≡ nearest_spec.whole_by_fraction_part number cut }
{
    match cut {
        Ordering::Less => number,
        Ordering::Equal => number + number % 2,
        Ordering::Greater => number + 1,
    }
}

// Returns ten to this power, which fits in 128 bits.
pub(crate) fn power_of_ten(power: u32) -> u128
    requires { power ≤ MOST_DIGITS }
    ensures value { result ≡ 10 ^ power }
    ensures fits { result ≤ 10 ^ MOST_DIGITS }
{
    10u128.pow(power)
}
