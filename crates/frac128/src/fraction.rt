//! Fractions in lowest terms.

ghost use Rattle.std.specs.Prelude.{◌≡◌, ◌<◌, ◌≤◌, ◌↔◌, pos, int_lt, unsigned_abs, IsTrue};
ghost use Rattle.std.specs.Int.{IsGcd};
ghost use Rattle.frac128.specs.Divisors as spec;
ghost use Rattle.frac128.specs.Fraction.{IsFrac, IsReducedFraction, largest_fraction_part, opposite_fraction};
ghost use Rattle.frac128.specs.Fraction.{whole_fraction};
ghost use Rattle.frac128.specs.Sign as sign;
ghost use Rattle.frac128.specs.Steps.{fraction_or_overflow, ratio};

use crate::divisors::{gcd, quotient};
use crate::fault::FracFault;
use crate::sign::{differ, with_sign};
use std::marker::Model;

// The largest numerator and denominator.
pub(crate) const MOST: u128 = (1 << 127) - 1;

/// A fraction in lowest terms, whose numerator and denominator have at most 127 bits.
#[derive(Clone, Copy, Debug, PartialEq, Eq)]
pub struct Frac {
    num: i128,
    den: u128,
}

impl Model for Frac {
    ghost use Rattle.frac128.specs.Fraction.{Fraction, IsFrac};

    ghost Value = { Fraction };

    ghost view = { λ x. record { num = x.num; den = x.den } };

    ghost invariant = { λ x. IsFrac (record { num = x.num; den = x.den }) };

    ghost inverse = { λ x. record { num = x.num; den = x.den } };
}

impl Frac {
    /// Returns n over d in lowest terms: `DivisionByZero` if d is 0, and else `Overflow` if the
    /// reduced fraction does not fit.
    pub fn new(n: i128, d: i128) -> Result<Frac, FracFault>
        ensures { result ≡ ratio n d }
    {
        if d == 0 {
            return Err(FracFault::DivisionByZero);
        }
        let top = n.unsigned_abs();
        let bottom = d.unsigned_abs();
        Frac::reduce_by(differ(n < 0, d < 0), top, bottom, gcd(top, bottom))
    }

    /// Returns the numerator, which has the fraction's sign.
    pub fn num(&self) -> i128
        ensures { result ≡ self.now.num }
    {
        self.num
    }

    /// Returns the denominator, which is at least 1. The fraction is in lowest terms and fits.
    pub fn den(&self) -> i128
        ensures value { result ≡ pos self.now.den }
        ensures kept { IsFrac self.now }
    {
        self.den as i128
    }

    /// Whether the fraction is 0.
    pub fn is_zero(&self) -> bool
        ensures { IsTrue result ↔ (self.now.num ≡ pos 0) }
    {
        self.num == 0
    }

    /// Returns the fraction with the opposite sign.
    pub fn negate(&self) -> Frac
        ensures { result ≡ opposite_fraction self.now }
    {
        Frac {
            num: -self.num,
            den: self.den,
        }
    }

    // Whether the fraction is below 0.
    pub(crate) fn is_negative(&self) -> bool
        ensures { result ≡ int_lt self.now.num (pos 0) }
    {
        self.num < 0
    }

    // The magnitude of the numerator.
    pub(crate) fn top(&self) -> u128
        ensures is { result ≡ unsigned_abs self.now.num }
        ensures lowest { IsGcd result self.now.den 1 }
        ensures fits { result ≤ largest_fraction_part }
    {
        self.num.unsigned_abs()
    }

    // The denominator, by its magnitude.
    pub(crate) fn bottom(&self) -> u128
        ensures is { result ≡ self.now.den }
        ensures reduced { IsReducedFraction self.now }
        ensures some { 0 < result }
        ensures fits { result ≤ largest_fraction_part }
    {
        self.den
    }

    // The whole number as a fraction.
    pub(crate) fn whole(n: i128) -> Frac
        requires { unsigned_abs n ≤ largest_fraction_part }
        ensures { result ≡ whole_fraction n }
    {
        Frac { num: n, den: 1 }
    }

    // The fraction with this sign and these magnitudes, which are in lowest terms.
    pub(crate) fn of_lowest_terms(
        negative: bool,
        top: u128,
        bottom: u128,
    ) -> Result<Frac, FracFault>
        requires some { 0 < bottom }
        requires lowest { IsGcd top bottom 1 }
        ensures { result ≡ fraction_or_overflow (record { num = sign.signed_numerator negative top; den = bottom }) }
    {
        if top > MOST || bottom > MOST {
            return Err(FracFault::Overflow);
        }
        let num = with_sign(negative, top);
        Ok(Frac { num, den: bottom })
    }

    // The number of this sign and magnitude over another one, reduced by their greatest common divisor.
    pub(crate) fn reduce_by(
        negative: bool,
        top: u128,
        bottom: u128,
        divisor: u128,
    ) -> Result<Frac, FracFault>
        requires some { 0 < bottom }
        requires divisor { divisor ≡ spec.gcd top bottom }
        ensures { result ≡ ratio (sign.signed_numerator negative top) (pos bottom) }
    {
        Frac::of_lowest_terms(negative, quotient(top, divisor), quotient(bottom, divisor))
    }
}
