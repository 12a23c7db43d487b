//! Numbers with the exponents of names.

ghost use Rattle.std.specs.Prelude.{◌≡◌, pos, IfOk};
ghost use Rattle.std.specs.FinMap as map;
ghost use Rattle.frac128.specs.Fraction.{IsFrac, opposite_fraction, whole_fraction};
ghost use Rattle.quantity.specs.Amount as spec;
ghost use Rattle.quantity.specs.Exponents.{AreExponents, exponent_of};

use crate::exponent::Exponent;
use crate::powers::Powers;
use frac128::Frac;
use std::alloc::{AllocError, Global};
use std::marker::Model;

/// A fraction with the exponents of primitive names. Contracts see the fraction and a finite map from the bytes of
/// each name to its exponent, which is never 0.
pub struct Quantity {
    pub(crate) value: Frac,
    pub(crate) powers: Powers,
}

// Written by hand, so that code that drops a quantity need not prove anything about its contents.
impl Drop for Quantity {
    fn drop(self) {
        let Quantity {
            value: _,
            powers: _,
        } = self;
    }
}

impl Model for Quantity {
    ghost use Rattle.quantity.specs.Amount.{Amount, quantity_code};

    ghost Value = { Amount };

    ghost coded = { quantity_code };

    ghost view = { λ q. record { value = q.value; exponents = q.powers } };
}

impl Quantity {
    /// Creates a quantity from a number, without exponents.
    pub fn number(alloc: Global, x: Frac) -> Quantity
        ensures { result ≡ record { value = x; exponents = map.empty } }
    {
        Quantity {
            value: x,
            powers: Powers::new(alloc),
        }
    }

    /// Returns the number 1.
    pub fn unity(alloc: Global) -> Quantity
        ensures { result ≡ record { value = whole_fraction (pos 1); exponents = map.empty } }
    {
        Quantity::number(alloc, one())
    }

    /// Returns one unit of a primitive: the number 1 with the exponent 1 of its name. Fails only if memory runs out.
    pub fn one(alloc: Global, name: &[u8]) -> Result<Quantity, AllocError>
        ensures { IfOk result (λ q. q ≡ record {
          value = whole_fraction (pos 1);
          exponents = map.insert map.empty name.now (whole_fraction (pos 1));
        }) }
    {
        Ok(Quantity {
            value: one(),
            powers: Powers::one(alloc, name)?,
        })
    }

    /// Returns a copy of the quantity. Fails only if memory runs out.
    pub fn copy(&self, alloc: Global) -> Result<Quantity, AllocError>
        ensures { IfOk result (λ q. q ≡ self.now) }
    {
        Ok(Quantity {
            value: self.value,
            powers: self.powers.copy(alloc)?,
        })
    }

    /// Returns the quantity with the sign of its number changed. Fails only if memory runs out.
    pub fn negate(&self, alloc: Global) -> Result<Quantity, AllocError>
        ensures { IfOk result (λ q. q ≡ record self.now { value = opposite_fraction self.now.value }) }
    {
        Ok(self.copy(alloc)?.into_negative())
    }

    /// Same as `negate`, but takes ownership of the quantity and copies nothing of it.
    pub fn into_negative(self) -> Quantity
        ensures { result ≡ record self { value = opposite_fraction self.value } }
    {
        let Quantity { value, powers } = self;
        Quantity {
            value: value.negate(),
            powers,
        }
    }

    // Converts the quantity into its powers without copying.
    pub(crate) fn into_powers(self) -> Powers
        ensures { result ≡ self.exponents }
    {
        let Quantity { value: _, powers } = self;
        powers
    }

    /// Returns the number, which is in lowest terms and fits.
    pub fn value(&self) -> Frac
        ensures value { result ≡ self.now.value }
        ensures kept { IsFrac self.now.value }
    {
        value_facts(&self.value);
        self.value
    }

    /// Returns the exponent of a name, or 0/1 if the name is absent.
    pub fn exponent(&self, name: &[u8]) -> Exponent
        ensures { result ≡ exponent_of self.now.exponents name.now }
    {
        self.powers.exponent(name)
    }

    /// States the facts about the exponents that the laws of quantities require: no exponent is 0, and each is in
    /// lowest terms, with a numerator from -32,767 to 32,767 and a denominator of at most 60. The call does nothing.
    pub fn exponent_facts(&self)
        ensures { AreExponents self.now.exponents }
    {
        self.powers.facts();
    }

    /// Reports whether no name has an exponent.
    pub fn is_number(&self) -> bool
        ensures { result ≡ spec.has_no_exponents self.now }
    {
        self.powers.is_empty()
    }
}

// A fraction is in lowest terms and fits.
fn value_facts(x: &Frac)
    ensures { IsFrac x.now }
{
    x.den();
}

// Returns the number 1.
fn one() -> Frac
    ensures { result ≡ whole_fraction (pos 1) }
{
    Frac::new(1, 1).unwrap()
}
