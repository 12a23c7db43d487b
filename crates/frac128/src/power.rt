//! Whole powers.

ghost use Rattle.std.specs.Prelude.{◌≡◌, ◌<◌};
ghost use Rattle.std.specs.Int.{IsGcd};
ghost use Rattle.frac128.specs.Powers.{fraction_power, power_fraction};
ghost use Rattle.frac128.specs.Sign as spec;
ghost use Rattle.frac128.specs.Steps.{fraction_or_overflow};

use crate::fault::FracFault;
use crate::fraction::Frac;

impl Frac {
    /// Returns the power, which is 1 if k is 0: `DivisionByZero` if the fraction is 0 and k is
    /// below 0, and else `Overflow` if the power does not fit. It multiplies one by one and stops
    /// at the first product of more than 128 bits, after at most 128 products whatever k is.
    pub fn pow(&self, k: i32) -> Result<Frac, FracFault>
        ensures { result ≡ fraction_power self.now k }
    {
        let (top, bottom) = (self.top(), self.bottom());
        let times = k.unsigned_abs();
        if k >= 0 {
            Frac::raise_parts(self.is_negative(), top, bottom, times)
        } else if top == 0 {
            Err(FracFault::DivisionByZero)
        } else {
            Frac::raise_parts(self.is_negative(), bottom, top, times)
        }
    }

    // A fraction in lowest terms to a power.
    fn raise_parts(negative: bool, top: u128, bottom: u128, times: u32) -> Result<Frac, FracFault>
        requires some { 0 < bottom }
        requires lowest { IsGcd top bottom 1 }
        ensures { result
            ≡ fraction_or_overflow (power_fraction (record { num = spec.signed_numerator negative top; den = bottom })
            times) }
    {
        let negative = negative && times % 2 == 1;
        match (top.checked_pow(times), bottom.checked_pow(times)) {
            (Some(top), Some(bottom)) => Frac::of_lowest_terms(negative, top, bottom),
            _ => Err(FracFault::Overflow),
        }
    }
}
