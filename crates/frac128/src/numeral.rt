//! Decimal numerals as a coefficient and a power of ten, and their values.

ghost use Rattle.std.specs.Prelude.{◌≡◌, ◌+◌, ◌<◌, ◌≤◌, ◌*◌, ◌^◌, pos, unsigned_abs, SomeIff};
ghost use Rattle.frac128.specs.Decimals.{fraction_of_decimal};
ghost use Rattle.frac128.specs.Fraction.{largest_fraction_part};
ghost use Rattle.frac128.specs.Steps.{ratio};

use crate::fault::FracFault;
use crate::fraction::Frac;
use std::marker::Model;

/// Why bytes are not read as a numeral.
#[derive(Clone, Copy, Debug, PartialEq, Eq)]
pub enum NumeralFault {
    /// The bytes are no numeral.
    NotNumeral,
    /// The digits without the zeros at both ends exceed the largest numerator, or the exponent is
    /// outside -9,999..9,999.
    TooLong,
}

/// A decimal number: a coefficient times ten to a power.
// Three words, since expressions hold many: two for the coefficient and one for the scale, which
// is below 0 if the first word is below 0.
#[derive(Clone, Copy, Debug, PartialEq, Eq)]
pub struct Numeral {
    high: i64,
    low: u64,
    tens: u64,
}

impl Model for Numeral {
    ghost use Rattle.std.specs.Prelude.{◌≤◌, ◌<◌, ◌+◌, ◌*◌, ◌/◌, ◌%◌, ◌^◌};
    ghost use Rattle.std.proofs.lemmas.Nat.{mod_low};
    ghost use Rattle.frac128.specs.Decimals.{NumeralDecimal};
    ghost use Rattle.frac128.specs.Fraction.{largest_fraction_part};
    ghost use Rattle.frac128.specs.Words.{numeral_high_word_is_rebuilt, numeral_word_distance, numeral_word_with_sign};
    ghost use Rattle.frac128.specs.Words.{sign_keeps_numeral_word_distance};

    ghost Value = { NumeralDecimal };

    ghost view = { λ x. record {
      coefficient = numeral_word_distance x.high * 2 ^ 64 + x.low;
      scale = numeral_word_with_sign x.high x.tens;
    } };

    ghost invariant = { λ x. (x.low < 2 ^ 64)
        × (numeral_word_distance x.high * 2 ^ 64 + x.low ≤ largest_fraction_part) };

    ghost inverse = { λ x. record {
      high = numeral_word_with_sign x.scale (x.coefficient / 2 ^ 64);
      low = x.coefficient % 2 ^ 64;
      tens = numeral_word_distance x.scale;
    } };

    ghost inverse_ok = { λ x h i. record {
      high = numeral_high_word_is_rebuilt x.high x.tens x.low h.0 i;
      low = mod_low (numeral_word_distance x.high) 64 x.low h.0 i;
      tens = sign_keeps_numeral_word_distance x.high x.tens i;
    } };
}

impl Numeral {
    // The coefficient times ten to the scale.
    pub(crate) fn new(coefficient: u128, scale: i128) -> Numeral
        requires coefficient { coefficient ≤ largest_fraction_part }
        requires scale { unsigned_abs scale < 2 ^ 64 }
        ensures { result ≡ record { coefficient = coefficient; scale = scale } }
    {
        let high = (coefficient >> 64) as i64;
        let low = (coefficient % (1 << 64)) as u64;
        if scale < 0 {
            Numeral {
                high: -1 - high,
                low,
                tens: (-1 - scale) as u64,
            }
        } else {
            Numeral {
                high,
                low,
                tens: scale as u64,
            }
        }
    }

    /// Returns the coefficient, which is multiplied by the power of ten.
    pub fn coefficient(&self) -> u128
        ensures is { result ≡ self.now.coefficient }
        ensures fits { result ≤ largest_fraction_part }
    {
        let high = if self.high < 0 {
            -1 - self.high
        } else {
            self.high
        };
        (high as u128) * (1 << 64) + u128::from(self.low)
    }

    /// Returns the exponent of the power of ten.
    pub fn scale(&self) -> i128
        ensures { result ≡ self.now.scale }
    {
        if self.high < 0 {
            -1 - i128::from(self.tens)
        } else {
            i128::from(self.tens)
        }
    }

    /// Returns the value, or `Overflow` if it does not fit.
    pub fn value(&self) -> Result<Frac, FracFault>
        ensures { result ≡ fraction_of_decimal self.now }
    {
        let coefficient = self.coefficient();
        if coefficient == 0 {
            return Ok(Frac::whole(0));
        }
        let scale = self.scale();
        let power = scale.unsigned_abs();
        if scale >= 0 {
            scaled_up(coefficient, power)
        } else {
            scaled_down(coefficient, power)
        }
    }
}

// A number above 0 times ten to a power.
fn scaled_up(n: u128, power: u128) -> Result<Frac, FracFault>
    requires some { 0 < n }
    requires fits { n ≤ largest_fraction_part }
    ensures { result ≡ ratio (pos (n * 10 ^ power)) (pos 1) }
{
    // Most numerals are whole numbers.
    if power == 0 {
        return Ok(Frac::whole(n as i128));
    }
    match power_of_ten(power) {
        Some(factor) => Frac::whole(n as i128).mul(&Frac::whole(factor)),
        None => Err(FracFault::Overflow),
    }
}

// A number above 0 over ten to a power.
fn scaled_down(n: u128, power: u128) -> Result<Frac, FracFault>
    requires some { 0 < n }
    requires fits { n ≤ largest_fraction_part }
    ensures { result ≡ ratio (pos n) (pos (10 ^ power)) }
{
    match power_of_ten(power) {
        Some(divisor) => Frac::new(n as i128, divisor),
        None => scaled_down_twice(n, power - 38),
    }
}

// A number above 0 over the largest power of ten and over another one. If that is out of range
// too, the denominator does not fit even in lowest terms.
fn scaled_down_twice(n: u128, power: u128) -> Result<Frac, FracFault>
    requires some { 0 < n }
    requires fits { n ≤ largest_fraction_part }
    ensures { result ≡ ratio (pos n) (pos (10 ^ (38 + power))) }
{
    let Some(divisor) = power_of_ten(power) else {
        return Err(FracFault::Overflow);
    };
    Frac::new(n as i128, LARGEST_POWER)?.div(&Frac::whole(divisor))
}

// The largest power of ten that is in range.
const LARGEST_POWER: i128 = 100_000_000_000_000_000_000_000_000_000_000_000_000;

// Ten to a power, or `None` if it is out of range.
fn power_of_ten(power: u128) -> Option<i128>
    ensures { SomeIff result (power ≤ 38) (pos (10 ^ power)) }
{
    if power <= 38 {
        Some(10u128.pow(power as u32) as i128)
    } else {
        None
    }
}
