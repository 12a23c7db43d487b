//! Exponents of powers.

ghost use Rattle.std.specs.Prelude.{◌≡◌, ◌<◌, ◌≤◌, unsigned_abs};
ghost use Rattle.quantity.specs.Degrees.{as_power_degree};

use frac128::Frac;
use std::marker::Model;

// The maximum magnitude of the numerator and of the denominator.
const MOST: u128 = 32_767;

/// The exponent of a power: a fraction whose numerator and denominator have magnitudes of at most 32,767.
#[derive(Clone, Copy)]
pub(crate) struct Degree {
    num: i32,
    den: u32,
}

impl Model for Degree {
    ghost use Rattle.frac128.specs.Fraction.{Fraction};
    ghost use Rattle.quantity.specs.Degrees.{IsPowerDegree};

    ghost Value = { Fraction };

    ghost view = { λ d. record { num = d.num; den = d.den } };

    ghost invariant = { λ d. IsPowerDegree (record { num = d.num; den = d.den }) };

    ghost inverse = { λ d. record { num = d.num; den = d.den } };
}

impl Degree {
    // Returns the fraction as the exponent of a power, or `None` if it is out of range.
    pub(crate) fn of(x: &Frac) -> Option<Degree>
        ensures { result ≡ as_power_degree x.now }
    {
        let (num, den) = (x.num(), x.den());
        if num.unsigned_abs() <= MOST && den.unsigned_abs() <= MOST {
            Some(Degree {
                num: num as i32,
                den: den as u32,
            })
        } else {
            None
        }
    }

    // Returns the numerator.
    pub(crate) fn num(&self) -> i32
        ensures value { result ≡ self.now.num }
        ensures bound { unsigned_abs result ≤ 32767 }
    {
        self.num
    }

    // The denominator is not 0.
    pub(crate) fn denominator_facts(&self)
        ensures { 0 < self.now.den }
    {
        let _ = &self.den;
    }

    // Returns the denominator.
    pub(crate) fn den(&self) -> u32
        ensures value { result ≡ self.now.den }
        ensures some { 0 < result }
        ensures bound { result ≤ 32767 }
    {
        self.den
    }
}
