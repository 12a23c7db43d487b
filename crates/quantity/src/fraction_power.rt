//! Powers with a fraction as exponent.

ghost use Rattle.std.specs.Prelude.{◌≡◌};
ghost use Rattle.quantity.specs.Answers.{IsQuantityAnswer, quantity_from};
ghost use Rattle.quantity.specs.Powers as spec;

use crate::degree::Degree;
use crate::fault::QuantityFault;
use crate::quantity::Quantity;
use frac128::{Frac, FracFault};
use std::alloc::Global;

impl Quantity {
    /// Returns the power whose exponent is the number of `by`. If p/q is that number in lowest terms, the result is
    /// the power p of the root q, and each exponent is multiplied by p/q.
    ///
    /// The errors, in the order in which they are checked: `ExponentNotNumber` if `by` has exponents; `ExponentRange`
    /// if p or q has a magnitude above 32,767; `Number`, with `NoExactRoot` if the number has no root q, or with the
    /// fault of the power p of the root; `ExponentRange` if the product of an exponent and p/q is out of range.
    pub fn pow(&self, alloc: Global, by: &Quantity) -> Result<Quantity, QuantityFault>
        ensures { IsQuantityAnswer result (spec.quantity_power self.now by.now) }
    {
        self.copy(alloc)?.into_power(alloc, by)
    }

    /// Same as `pow`, but takes ownership of the quantity and copies nothing of it.
    pub fn into_power(self, alloc: Global, by: &Quantity) -> Result<Quantity, QuantityFault>
        ensures { IsQuantityAnswer result (spec.quantity_power self by.now) }
    {
        if !by.is_number() {
            return Err(QuantityFault::ExponentNotNumber);
        }
        match Degree::of(&by.value) {
            Some(degree) => self.raised_to(alloc, &degree),
            None => Err(QuantityFault::ExponentRange),
        }
    }

    // Returns the power with this exponent.
    fn raised_to(self, alloc: Global, degree: &Degree) -> Result<Quantity, QuantityFault>
        ensures { IsQuantityAnswer result (quantity_from (spec.quantity_number_power self.value degree.now)
            (spec.power_exponents self.exponents degree.now)) }
    {
        let value = power_of_root(&self.value, degree)?;
        let powers = self.into_powers().into_power(alloc, degree)?;
        Ok(Quantity { value, powers })
    }
}

// Returns the power of the root of a number.
fn power_of_root(x: &Frac, degree: &Degree) -> Result<Frac, FracFault>
    ensures { result ≡ spec.quantity_number_power x.now degree.now }
{
    x.root(degree.den())?.pow(degree.num())
}
