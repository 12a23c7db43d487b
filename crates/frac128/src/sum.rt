//! Sums and differences, over the least common multiple of the denominators.

ghost use Rattle.std.specs.Prelude.{◌≡◌, ◌*◌, ◌+ℤ◌, ◌<ℤ◌, ◌≤◌, pos, unsigned_abs};
ghost use Rattle.frac128.specs.Divisors as spec;
ghost use Rattle.frac128.specs.Fraction.{largest_fraction_part};
ghost use Rattle.frac128.specs.Sign as sign;
ghost use Rattle.frac128.specs.Sums.{fraction_difference, fraction_sum, fraction_sum_over, numerator_or_overflow};

use crate::divisors::{gcd, quotient};
use crate::fault::FracFault;
use crate::fraction::{Frac, MOST};
use crate::sign::with_sign;

impl Frac {
    /// Returns the sum, or `Overflow` if the least common multiple of the denominators, one of the
    /// numerators over it or their sum is out of range, even if the reduced sum would fit.
    pub fn add(&self, other: &Frac) -> Result<Frac, FracFault>
        ensures { result ≡ fraction_sum self.now other.now }
    {
        let (a, b) = (self.top(), self.bottom());
        let (c, d) = (other.top(), other.bottom());
        let shared = gcd(b, d);
        let (ours, theirs) = (quotient(b, shared), quotient(d, shared));
        let multiple = product(false, ours, d)?;
        let left = product(self.is_negative(), a, theirs)?;
        let right = product(other.is_negative(), c, ours)?;
        Frac::sum_over(multiple, left, right, shared)
    }

    /// Returns the difference, or `Overflow` if the least common multiple of the denominators, one
    /// of the numerators over it or their difference is out of range.
    pub fn sub(&self, other: &Frac) -> Result<Frac, FracFault>
        ensures { result ≡ fraction_difference self.now other.now }
    {
        self.add(&other.negate())
    }

    // The sum of two numerators over a denominator. The factors that the sum shares with the
    // denominator are shared with the smaller number `shared` too.
    fn sum_over(multiple: i128, left: i128, right: i128, shared: u128) -> Result<Frac, FracFault>
        requires some { pos 0 <ℤ multiple }
        requires multiple { unsigned_abs multiple ≤ largest_fraction_part }
        requires left { unsigned_abs left ≤ largest_fraction_part }
        requires right { unsigned_abs right ≤ largest_fraction_part }
        requires shared { spec.gcd (unsigned_abs (left +ℤ right)) shared
            ≡ spec.gcd (unsigned_abs (left +ℤ right)) (unsigned_abs multiple) }
        ensures { result ≡ fraction_sum_over (unsigned_abs multiple) (left +ℤ right) }
    {
        match left.checked_add(right) {
            Some(sum) if sum != i128::MIN => {
                let (top, bottom) = (sum.unsigned_abs(), multiple.unsigned_abs());
                Frac::reduce_by(sum < 0, top, bottom, gcd(top, shared))
            }
            _ => Err(FracFault::Overflow),
        }
    }
}

// The product with this sign, or `Overflow` if it is out of range.
fn product(negative: bool, a: u128, b: u128) -> Result<i128, FracFault>
    ensures { result ≡ numerator_or_overflow (sign.signed_numerator negative (a * b)) }
{
    match a.checked_mul(b) {
        Some(size) if size <= MOST => Ok(with_sign(negative, size)),
        _ => Err(FracFault::Overflow),
    }
}
