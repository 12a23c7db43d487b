//! Sums and differences.

ghost use Rattle.quantity.specs.Answers.{IsQuantityAnswer};
ghost use Rattle.quantity.specs.Sums.{conforming_quantity_step, quantity_difference, quantity_sum};

use crate::fault::QuantityFault;
use crate::quantity::Quantity;
use frac128::{Frac, FracFault};
use std::alloc::Global;

impl Quantity {
    /// Returns the sum. The error is `NotConformable` with both quantities if their exponents differ, and otherwise
    /// `Number` if the sum of the numbers overflows.
    pub fn add(&self, alloc: Global, other: &Quantity) -> Result<Quantity, QuantityFault>
        ensures { IsQuantityAnswer result (quantity_sum self.now other.now) }
    {
        self.copy(alloc)?.plus(alloc, other)
    }

    /// Returns the difference. The error is `NotConformable` with both quantities if their exponents differ, and
    /// otherwise `Number` if the difference of the numbers overflows.
    pub fn sub(&self, alloc: Global, other: &Quantity) -> Result<Quantity, QuantityFault>
        ensures { IsQuantityAnswer result (quantity_difference self.now other.now) }
    {
        self.copy(alloc)?.minus(alloc, other)
    }

    /// Same as `add`, but takes ownership of the quantity and copies nothing of it.
    pub fn plus(self, alloc: Global, other: &Quantity) -> Result<Quantity, QuantityFault>
        ensures { IsQuantityAnswer result (quantity_sum self other.now) }
    {
        let sum = self.value.add(&other.value);
        self.with_number(alloc, other, sum)
    }

    /// Same as `sub`, but takes ownership of the quantity and copies nothing of it.
    pub fn minus(self, alloc: Global, other: &Quantity) -> Result<Quantity, QuantityFault>
        ensures { IsQuantityAnswer result (quantity_difference self other.now) }
    {
        let difference = self.value.sub(&other.value);
        self.with_number(alloc, other, difference)
    }

    // Returns the quantity with the result of an operation on both numbers, if the two quantities conform.
    fn with_number(
        self,
        alloc: Global,
        other: &Quantity,
        number: Result<Frac, FracFault>,
    ) -> Result<Quantity, QuantityFault>
        ensures { IsQuantityAnswer result (conforming_quantity_step number self other.now) }
    {
        if !self.conforms(other) {
            let other = other.copy(alloc)?;
            return Err(QuantityFault::NotConformable(self, other));
        }
        let value = number?;
        Ok(Quantity {
            value,
            powers: self.into_powers(),
        })
    }
}
