//! Laws of the definitions that the contracts cite.

ghost use Rattle.quantity.specs.Amount.{ConformingExponentsLaw};
ghost use Rattle.quantity.specs.Examples.{QuantityExamplesLaw};
ghost use Rattle.quantity.specs.Exponents.{SameExponentsLaw};
ghost use Rattle.quantity.specs.Products.{ProductExponentsLaw};
ghost use Rattle.quantity.specs.OperationFaults.{QuantityMemoryLaw};

use frac128::reduced_law;

/// If two quantities have the same exponent for each name, their maps are equal.
pub fn same_exponents_law()
    ensures { SameExponentsLaw }
{}

/// Quantities conform if and only if each name has the same exponent in both, and they are reciprocal if and only if
/// the exponents of each name differ exactly in sign.
pub fn conform_law()
    ensures { ConformingExponentsLaw }
{}

/// The exponents of a product are the sums of the exponents of its factors, and those of a quotient the differences.
pub fn product_law()
    ensures { ProductExponentsLaw }
{
    reduced_law();
}

/// No operation results in an out-of-memory fault.
pub fn quantity_memory_law()
    ensures { QuantityMemoryLaw }
{}

/// Some powers and some texts equal those that were found by hand.
pub fn examples_law()
    ensures { QuantityExamplesLaw }
{}
