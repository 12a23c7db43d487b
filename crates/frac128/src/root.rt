//! Exact roots.

ghost use Rattle.std.specs.Prelude.{◌≡◌, ◌<◌, ◌≤◌, ◌^◌, ℕ, MatchOption};
ghost use Rattle.frac128.specs.Fraction.{largest_fraction_part};
ghost use Rattle.frac128.specs.Roots.{IsFractionRootAnswer, fraction_root};

use crate::fault::FracFault;
use crate::fraction::Frac;

impl Frac {
    /// Returns the fraction whose power to q is this one, not below 0 if q is even, or
    /// `NoExactRoot` if there is no such fraction.
    pub fn root(&self, q: u32) -> Result<Frac, FracFault>
        requires { 0 < q }
        ensures exact { IsFractionRootAnswer self.now q result }
        ensures computed { result ≡ fraction_root self.now q }
    {
        // The fraction is in lowest terms.
        self.den();
        self.root_by_parts(q)
    }

    // The root, from the roots of the numerator and the denominator.
    fn root_by_parts(&self, q: u32) -> Result<Frac, FracFault>
        requires { 0 < q }
        ensures { IsFractionRootAnswer self.now q result }
    {
        let negative = self.is_negative();
        if negative && q % 2 == 0 {
            return Err(FracFault::NoExactRoot);
        }
        match (whole_root(self.top(), q), whole_root(self.bottom(), q)) {
            (Some(top), Some(bottom)) => Frac::of_lowest_terms(negative, top, bottom),
            _ => Err(FracFault::NoExactRoot),
        }
    }
}

// The whole number whose power to q is n, or `None`. It bisects the numbers between one whose
// power is below n and one whose power is above n.
fn whole_root(n: u128, q: u32) -> Option<u128>
    requires some { 0 < q }
    requires fits { n ≤ largest_fraction_part }
    ensures { MatchOption result ((m : ℕ) → m ^ q ≡ n → ⊥) (λ r. r ^ q ≡ n) }
{
    if q == 1 || n < 2 {
        return Some(n);
    }
    let mut low: u128 = 1;
    let mut high: u128 = 1 << (n.ilog2() / q + 1);
    while high - low > 1 {
        let middle = low + (high - low) / 2;
        match middle.checked_pow(q) {
            Some(power) if power == n => return Some(middle),
            Some(power) if power < n => low = middle,
            _ => high = middle,
        }
    }
    None
}
