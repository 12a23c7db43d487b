//! Checks whether two quantities conform.

ghost use Rattle.std.specs.Prelude.{◌≡◌, ◌↔◌, List, ℕ, IsTrue};
ghost use Rattle.frac128.specs.Fraction.{opposite_fraction};
ghost use Rattle.quantity.specs.Amount.{are_reciprocal_exponents, exponents_conform};
ghost use Rattle.quantity.specs.Exponents.{exponent_of};

use crate::quantity::Quantity;

impl Quantity {
    /// Reports whether the exponents are equal, that is, whether each name has the same exponent in both quantities.
    pub fn conforms(&self, other: &Quantity) -> bool
        ensures value { result ≡ exponents_conform self.now.exponents other.now.exponents }
        ensures equal { IsTrue result ↔ (self.now.exponents ≡ other.now.exponents) }
        ensures same { IsTrue result ↔ ((name : List ℕ)
            → exponent_of self.now.exponents name ≡ exponent_of other.now.exponents name) }
    {
        self.powers.conform(&other.powers)
    }

    /// Reports whether each exponent is the negative of the exponent that its name has in the other quantity.
    pub fn is_reciprocal(&self, other: &Quantity) -> bool
        ensures value { result ≡ are_reciprocal_exponents self.now.exponents other.now.exponents }
        ensures opposite { IsTrue result ↔ ((name : List ℕ)
            → exponent_of self.now.exponents name ≡ opposite_fraction (exponent_of other.now.exponents name)) }
    {
        self.powers.are_reciprocal(&other.powers)
    }
}
