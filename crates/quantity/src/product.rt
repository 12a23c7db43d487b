//! Products and quotients.

ghost use Rattle.quantity.specs.Answers.{IsQuantityAnswer, IsQuantityStepOnNumbers};
ghost use Rattle.quantity.specs.Products.{plain_quantity, quantity_product, quantity_quotient};

use crate::factor::Factor;
use crate::fault::QuantityFault;
use crate::quantity::Quantity;
use frac128::{Frac, FracFault};
use std::alloc::Global;

impl Quantity {
    /// Returns the product, whose exponents are the sums of the exponents of both quantities. The error is `Number` if
    /// the product of the numbers overflows, and otherwise `ExponentRange` if a sum of two exponents is out of range.
    pub fn mul(&self, alloc: Global, other: &Quantity) -> Result<Quantity, QuantityFault>
        ensures { IsQuantityAnswer result (quantity_product self.now other.now) }
    {
        self.copy(alloc)?.times(alloc, other)
    }

    /// Returns the quotient, whose exponents are the differences of the exponents of both quantities. The error is
    /// `Number` if the number of the other quantity is 0 or the quotient of the numbers overflows, and otherwise
    /// `ExponentRange` if a difference of two exponents is out of range.
    pub fn div(&self, alloc: Global, other: &Quantity) -> Result<Quantity, QuantityFault>
        ensures { IsQuantityAnswer result (quantity_quotient self.now other.now) }
    {
        self.copy(alloc)?.over(alloc, other)
    }

    /// Same as `mul`, but takes ownership of `self` and copies nothing of it.
    pub fn times(self, alloc: Global, other: &Quantity) -> Result<Quantity, QuantityFault>
        ensures { IsQuantityAnswer result (quantity_product self other.now) }
    {
        let value = self.value.mul(&other.value)?;
        let powers = self
            .into_powers()
            .times(alloc, &other.powers, Factor::Plain)?;
        Ok(Quantity { value, powers })
    }

    /// Same as `div`, but takes ownership of `self` and copies nothing of it.
    pub fn over(self, alloc: Global, other: &Quantity) -> Result<Quantity, QuantityFault>
        ensures { IsQuantityAnswer result (quantity_quotient self other.now) }
    {
        let value = self.value.div(&other.value)?;
        let powers = self
            .into_powers()
            .times(alloc, &other.powers, Factor::Inverse)?;
        Ok(Quantity { value, powers })
    }

    /// Same as `mul`, but takes ownership of both quantities. It copies no name if `self` is a number.
    pub fn times_all(self, alloc: Global, other: Quantity) -> Result<Quantity, QuantityFault>
        ensures { IsQuantityAnswer result (quantity_product self other) }
    {
        let value = self.value.mul(&other.value)?;
        let powers = self.into_powers().times_all(alloc, other.into_powers())?;
        Ok(Quantity { value, powers })
    }

    /// Returns the product with a number. The exponents do not change. The error is that of the product of the
    /// numbers.
    pub fn times_number(self, x: &Frac) -> Result<Quantity, FracFault>
        ensures { IsQuantityStepOnNumbers result (quantity_product self (plain_quantity x.now)) }
    {
        self.powers.number_facts();
        let value = self.value.mul(x)?;
        Ok(Quantity {
            value,
            powers: self.into_powers(),
        })
    }

    /// Returns the quotient by a number. The exponents do not change. The error is that of the quotient of the
    /// numbers.
    pub fn over_number(self, x: &Frac) -> Result<Quantity, FracFault>
        ensures { IsQuantityStepOnNumbers result (quantity_quotient self (plain_quantity x.now)) }
    {
        self.powers.number_facts();
        let value = self.value.div(x)?;
        Ok(Quantity {
            value,
            powers: self.into_powers(),
        })
    }
}
