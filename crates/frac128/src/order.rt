//! The order of fractions, exact at full width.

ghost use Rattle.std.specs.Prelude.{◌≡◌, ◌<◌, ◌*◌};
ghost use Rattle.std.specs.Ordering.{nat_cmp};
ghost use Rattle.frac128.specs.Fraction.{IsReducedFraction};
ghost use Rattle.frac128.specs.Order.{fraction_order};

use crate::fraction::Frac;
use std::cmp::Ordering;

impl Frac {
    /// Compares the values of two fractions in lowest terms.
    pub fn cmp(&self, other: &Frac) -> Ordering
        ensures order { result ≡ fraction_order self.now other.now }
        ensures reduced { IsReducedFraction self.now × IsReducedFraction other.now }
    {
        let (a, b) = (self.top(), self.bottom());
        let (c, d) = (other.top(), other.bottom());
        match (self.is_negative(), other.is_negative()) {
            (false, false) => compare_ratios(a, b, c, d),
            (true, true) => compare_ratios(c, d, a, b),
            (true, false) => Ordering::Less,
            (false, true) => Ordering::Greater,
        }
    }
}

// Compares a / b with c / d, by the cross products if both fit, which is fast.
fn compare_ratios(a: u128, b: u128, c: u128, d: u128) -> Ordering
    requires some_b { 0 < b }
    requires some_d { 0 < d }
    ensures { result ≡ nat_cmp (a * d) (c * b) }
{
    match (a.checked_mul(d), c.checked_mul(b)) {
        (Some(left), Some(right)) => left.cmp(&right),
        _ => compare_by_quotients(a, b, c, d),
    }
}

// Compares a / b with c / d by their whole parts, and if these are equal by their fractional parts,
// inverted.
fn compare_by_quotients(a: u128, b: u128, c: u128, d: u128) -> Ordering
    requires some_b { 0 < b }
    requires some_d { 0 < d }
    ensures { result ≡ nat_cmp (a * d) (c * b) }
{
    let (mut a, mut b, mut c, mut d) = (a, b, c, d);
    loop {
        let left = a / b;
        let right = c / d;
        if left != right {
            return left.cmp(&right);
        }
        let left_rest = a % b;
        let right_rest = c % d;
        if left_rest == 0 || right_rest == 0 {
            return left_rest.cmp(&right_rest);
        }
        a = d;
        c = b;
        b = right_rest;
        d = left_rest;
    }
}
