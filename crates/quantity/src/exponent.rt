//! Exponents of names.

ghost use Rattle.std.specs.Prelude.{◌≡◌, ◌<◌, ◌≤◌, ◌*◌, ◌*ℤ◌, pos, unsigned_abs};
ghost use Rattle.frac128.specs.Fraction as fraction_spec;
ghost use Rattle.frac128.specs.Steps.{lowest_terms};
ghost use Rattle.frac128.specs.Sign as sign;
ghost use Rattle.quantity.specs.Exponents.{IsExponent, exponent_product, exponent_sum};
ghost use Rattle.quantity.specs.Merges.{as_exponent};

use crate::degree::Degree;
use frac128::{Frac, reduced_law};
use std::marker::Model;

// The maximum magnitude of the numerator of an exponent.
const MOST_NUM: u128 = 32_767;

// The maximum denominator of an exponent.
const MOST_DEN: u128 = 60;

/// The exponent of a name: a fraction in lowest terms with a numerator from -32,767 to 32,767 and a denominator from 1
/// to 60.
#[derive(Clone, Copy, PartialEq, Eq)]
pub struct Exponent {
    /// The numerator, which has the sign of the exponent.
    pub num: i32,
    /// The denominator.
    pub den: u32,
}

impl Model for Exponent {
    ghost use Rattle.frac128.specs.Fraction.{Fraction};
    ghost use Rattle.quantity.specs.Exponents.{IsExponent};

    ghost Value = { Fraction };

    ghost view = { λ e. record { num = e.num; den = e.den } };

    ghost invariant = { λ e. IsExponent (record { num = e.num; den = e.den }) };

    ghost inverse = { λ e. record { num = e.num; den = e.den } };
}

impl Exponent {
    // Returns the exponent of a name that is absent.
    pub(crate) fn zero() -> Exponent
        ensures { result ≡ fraction_spec.whole_fraction (pos 0) }
    {
        Exponent { num: 0, den: 1 }
    }

    // Returns the exponent of a name on its own.
    pub(crate) fn one() -> Exponent
        ensures { result ≡ fraction_spec.whole_fraction (pos 1) }
    {
        Exponent { num: 1, den: 1 }
    }

    pub(crate) fn is_zero(&self) -> bool
        ensures value { result ≡ sign.is_zero_fraction self.now }
        ensures kept { IsExponent self.now }
    {
        self.num.unsigned_abs() == 0
    }

    pub(crate) fn negate(&self) -> Exponent
        ensures { result ≡ fraction_spec.opposite_fraction self.now }
    {
        Exponent {
            num: -self.num,
            den: self.den,
        }
    }

    // Returns the sum, or `None` if it is out of range.
    pub(crate) fn add(&self, other: &Exponent) -> Option<Exponent>
        ensures { result ≡ as_exponent (exponent_sum self.now other.now) }
    {
        let left = widen(self.num, other.den);
        let right = widen(other.num, self.den);
        lowest(left + right, self.den * other.den)
    }

    // Returns the product with the exponent of a power, or `None` if it is out of range.
    pub(crate) fn times(&self, degree: &Degree) -> Option<Exponent>
        ensures { result ≡ as_exponent (exponent_product self.now degree.now) }
    {
        lowest(self.num * degree.num(), self.den * degree.den())
    }
}

// Returns the numerator of an exponent for a denominator that is `times` times as large.
fn widen(num: i32, times: u32) -> i32
    requires num { unsigned_abs num ≤ 32767 }
    requires times { times ≤ 60 }
    ensures value { result ≡ num *ℤ pos times }
    ensures bound { unsigned_abs result ≤ 32767 * 60 }
{
    num * times as i32
}

// Returns num / den in lowest terms, or `None` if it is out of range.
fn lowest(num: i32, den: u32) -> Option<Exponent>
    requires { 0 < den }
    ensures { result ≡ as_exponent (lowest_terms num den) }
{
    if den == 1 {
        reduced_law();
        return whole(num);
    }
    match Frac::new(i128::from(num), i128::from(den)) {
        Ok(fraction) => to_exponent(&fraction),
        Err(_) => None,
    }
}

// Returns the whole number as an exponent, or `None` if it is out of range.
fn whole(num: i32) -> Option<Exponent>
    ensures { result ≡ as_exponent (fraction_spec.whole_fraction num) }
{
    if u128::from(num.unsigned_abs()) <= MOST_NUM {
        Some(Exponent { num, den: 1 })
    } else {
        None
    }
}

// Returns the fraction as an exponent, or `None` if it is out of range.
fn to_exponent(fraction: &Frac) -> Option<Exponent>
    ensures { result ≡ as_exponent fraction.now }
{
    let (num, den) = (fraction.num(), fraction.den());
    if num.unsigned_abs() <= MOST_NUM && den.unsigned_abs() <= MOST_DEN {
        Some(Exponent {
            num: num as i32,
            den: den as u32,
        })
    } else {
        None
    }
}
