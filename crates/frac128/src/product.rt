//! Products and quotients, reduced crosswise before the multiplication.

ghost use Rattle.std.specs.Prelude.{◌≡◌, ◌<◌, ◌*◌, ◌/◌, ◌^◌, IfSome, IfNone, SomeIff};
ghost use Rattle.std.specs.Int.{IsGcd};
ghost use Rattle.frac128.specs.Divisors.{HasWideLowestTerms, IsLowestTerms};
ghost use Rattle.frac128.specs.Steps.{fraction_product, fraction_quotient};

use crate::divisors::{gcd, quotient};
use crate::fault::FracFault;
use crate::fraction::Frac;
use crate::sign::differ;

impl Frac {
    /// Returns the product, or `Overflow` if it does not fit in lowest terms.
    pub fn mul(&self, other: &Frac) -> Result<Frac, FracFault>
        ensures { result ≡ fraction_product self.now other.now }
    {
        let negative = differ(self.is_negative(), other.is_negative());
        match lowest_product(self.top(), self.bottom(), other.top(), other.bottom()) {
            Some((top, bottom)) => Frac::of_lowest_terms(negative, top, bottom),
            None => Err(FracFault::Overflow),
        }
    }

    /// Returns the quotient: `DivisionByZero` if the other fraction is 0, and else `Overflow` if
    /// the quotient does not fit in lowest terms.
    pub fn div(&self, other: &Frac) -> Result<Frac, FracFault>
        ensures { result ≡ fraction_quotient self.now other.now }
    {
        if other.is_zero() {
            return Err(FracFault::DivisionByZero);
        }
        let negative = differ(self.is_negative(), other.is_negative());
        match lowest_product(self.top(), self.bottom(), other.bottom(), other.top()) {
            Some((top, bottom)) => Frac::of_lowest_terms(negative, top, bottom),
            None => Err(FracFault::Overflow),
        }
    }
}

// The numerator and the denominator of the product of a / b and c / d in lowest terms, or `None`
// if one of them has more than 128 bits.
fn lowest_product(a: u128, b: u128, c: u128, d: u128) -> Option<(u128, u128)>
    requires some_b { 0 < b }
    requires some_d { 0 < d }
    requires lowest_ab { IsGcd a b 1 }
    requires lowest_cd { IsGcd c d 1 }
    ensures found { IfSome result (λ x. IsLowestTerms (a * c) (b * d) x.0 x.1) }
    ensures wide { IfNone result (HasWideLowestTerms (a * c) (b * d)) }
{
    if b == 1 && d == 1 {
        return whole_product(a, c);
    }
    let left = gcd(a, d);
    let right = gcd(c, b);
    let top = reduced_product(a, left, c, right)?;
    let bottom = reduced_product(b, right, d, left)?;
    Some((top, bottom))
}

// The product of two whole numbers, which needs no reduction.
fn whole_product(a: u128, c: u128) -> Option<(u128, u128)>
    ensures found { IfSome result (λ x. IsLowestTerms (a * c) 1 x.0 x.1) }
    ensures wide { IfNone result (HasWideLowestTerms (a * c) 1) }
{
    Some((a.checked_mul(c)?, 1))
}

// The product of two quotients, or `None` if it has more than 128 bits.
fn reduced_product(a: u128, left: u128, c: u128, right: u128) -> Option<u128>
    requires left { 0 < left }
    requires right { 0 < right }
    ensures { SomeIff result (a / left * (c / right) < 2 ^ 128) (a / left * (c / right)) }
{
    quotient(a, left).checked_mul(quotient(c, right))
}
