//! Rounding a ratio to a given number of significant digits.

ghost use Rattle.std.specs.Prelude.{◌≡◌, ◌<◌, ◌≤◌, ◌+◌, ◌*◌, ◌/◌, ◌^◌, pos, negsuc, ◌<ℤ◌, ◌≤ℤ◌};
ghost use Rattle.std.specs.Ordering.{nat_cmp};
ghost use Rattle.digits_print.specs.Nearest.{HasDigits};
ghost use Rattle.digits_print.specs.RatioRounding as spec;

use crate::decimal::{Decimal, MOST_DIGITS, power_of_ten};
use crate::tenfold::ten_times;
use std::cmp::Ordering;

// Returns a ratio above 0, rounded to this many significant digits.
pub(crate) fn round_ratio(top: u128, bottom: u128, digits: u32) -> Decimal
    requires some { 0 < digits }
    requires most { digits ≤ MOST_DIGITS }
    requires top { 0 < top }
    requires bottom { 0 < bottom }
    requires fits { bottom ≤ 2 ^ 127 }
    ensures value { result ≡ spec.digits_rounding digits top bottom }
    ensures fits { HasDigits digits result.coefficient }
    ensures low { negsuc 99 <ℤ result.scale }
    ensures high { result.scale ≤ℤ pos 100 }
{
    if top / bottom < power_of_ten(digits) {
        round_with_more_digits(top, bottom, digits)
    } else {
        round_with_fewer_digits(top, bottom, digits)
    }
}

// Rounds a ratio whose whole part has at most this many digits, by adding digits after the point.
fn round_with_more_digits(top: u128, bottom: u128, digits: u32) -> Decimal
    requires some { 0 < digits }
    requires most { digits ≤ MOST_DIGITS }
    requires top { 0 < top }
    requires bottom { 0 < bottom }
    requires fits { bottom ≤ 2 ^ 127 }
    requires low { top / bottom < 10 ^ digits }
    ensures value { result ≡ spec.digits_rounding digits top bottom }
    ensures fits { HasDigits digits result.coefficient }
    ensures low { negsuc 99 <ℤ result.scale }
    ensures high { result.scale ≤ℤ pos 100 }
{
    let least = power_of_ten(digits - 1);
    let mut number = top / bottom;
    let mut rest = top % bottom;
    let mut places = 0u32;
    while number < least {
        let next = ten_times(rest, bottom);
        number = number * 10 + next.whole;
        rest = next.rest;
        places += 1;
    }
    Decimal::round_number(number, (rest * 2).cmp(&bottom), -(places as i32), digits)
}

// Rounds a ratio whose whole part has more digits, by cutting off the digits after the first ones.
fn round_with_fewer_digits(top: u128, bottom: u128, digits: u32) -> Decimal
    requires some { 0 < digits }
    requires most { digits ≤ MOST_DIGITS }
    requires bottom { 0 < bottom }
    requires high { 10 ^ digits ≤ top / bottom }
    ensures value { result ≡ spec.digits_rounding digits top bottom }
    ensures fits { HasDigits digits result.coefficient }
    ensures low { negsuc 99 <ℤ result.scale }
    ensures high { result.scale ≤ℤ pos 100 }
{
    let whole = top / bottom;
    let limit = power_of_ten(digits);
    let mut unit = 10;
    let mut places = 1u32;
    while whole / unit >= limit {
        unit *= 10;
        places += 1;
    }
    let cut = compared_with_half(whole % unit, top % bottom, bottom, unit);
    Decimal::round_number(whole / unit, cut, places as i32, digits)
}

// Compares a whole number plus a fraction over `bottom` with half of the unit.
fn compared_with_half(whole: u128, part: u128, bottom: u128, unit: u128) -> Ordering
    requires part { part < bottom }
    requires even { 2 * (unit / 2) ≡ unit }
    ensures { result ≡ nat_cmp (2 * (whole * bottom + part)) (bottom * unit) }
{
    whole.cmp(&(unit / 2)).then(part.cmp(&0))
}
