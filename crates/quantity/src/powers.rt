//! The exponents of a quantity, in the byte order of their names.

ghost use Rattle.std.specs.Prelude.{◌≡◌, ◌==◌, ◌++◌, ◌↔◌, ℕ, List, pos, IfOk, IsTrue, OnOk, Some};
ghost use Rattle.std.specs.FinMap as map;
ghost use Rattle.frac128.specs.Fraction.{opposite_fraction, whole_fraction};
ghost use Rattle.quantity.specs.Amount.{are_reciprocal_exponents, exponents_conform};
ghost use Rattle.quantity.specs.Answers.{AreExpectedExponents};
ghost use Rattle.quantity.specs.Exponents.{AreExponents, exponent_of};
ghost use Rattle.quantity.specs.Factors.{exponents_with};
ghost use Rattle.quantity.specs.Powers.{power_exponents};
ghost use Rattle.quantity.specs.Products.{product_exponents, quotient_exponents};
ghost use Rattle.quantity.specs.Text.{powers_text};

use crate::degree::Degree;
use crate::exponent::Exponent;
use crate::factor::Factor;
use crate::fault::ExponentFault;
use crate::power::Power;
use crate::power_lookup::exponent_in;
use crate::store::Store;
use frac128::reduced_law;
use std::alloc::{AllocError, Global};
use std::marker::Model;

/// Names with nonzero exponents.
pub(crate) struct Powers {
    store: Store,
}

// Implemented by hand, so that a function that drops a quantity has nothing to prove about the ways in which the
// powers are stored.
impl Drop for Powers {
    fn drop(self) {
        let Powers { store: _ } = self;
    }
}

impl Model for Powers {
    ghost use Rattle.quantity.specs.Amount.{exponents_code};
    ghost use Rattle.quantity.specs.Exponents.{Exponents};
    ghost use Rattle.quantity.specs.Merges.{ArePowersInOrder, exponents_in};
    ghost use Rattle.quantity.specs.Stores.{stored_powers};

    ghost Value = { Exponents };

    ghost coded = { exponents_code };

    ghost view = { λ powers. exponents_in (stored_powers powers.store) };

    ghost invariant = { λ powers. ArePowersInOrder (stored_powers powers.store) };
}

impl Powers {
    pub(crate) fn new(alloc: Global) -> Powers
        ensures { result ≡ map.empty }
    {
        Powers {
            store: Store::new(alloc),
        }
    }

    // Creates the exponents of a single name with the exponent 1.
    pub(crate) fn one(alloc: Global, name: &[u8]) -> Result<Powers, AllocError>
        ensures { IfOk result (λ powers. powers ≡ map.insert map.empty name.now (whole_fraction (pos 1))) }
    {
        let power = Power::of(alloc, name)?;
        let store = Store::of(alloc, power)?;
        Ok(Powers { store })
    }

    // Returns a copy of the map.
    pub(crate) fn copy(&self, alloc: Global) -> Result<Powers, AllocError>
        ensures { IfOk result (λ powers. powers ≡ self.now) }
    {
        let store = self.store.copy_powers(alloc, Factor::Plain)?;
        Ok(Powers { store })
    }

    pub(crate) fn is_empty(&self) -> bool
        ensures { result ≡ (map.len self.now == 0) }
    {
        self.store.is_empty()
    }

    // Returns the exponent of a name, or 0 if the name is absent.
    pub(crate) fn exponent(&self, name: &[u8]) -> Exponent
        ensures { result ≡ exponent_of self.now name.now }
    {
        exponent_in(self.store.walk(), name)
    }

    // No exponent is 0, and each is in range.
    pub(crate) fn facts(&self)
        ensures { AreExponents self.now }
    {
        self.store.walk();
    }

    // Reports whether two maps are equal.
    pub(crate) fn conform(&self, other: &Powers) -> bool
        ensures value { result ≡ exponents_conform self.now other.now }
        ensures equal { IsTrue result ↔ (self.now ≡ other.now) }
        ensures same { IsTrue result ↔ ((name : List ℕ)
            → exponent_of self.now name ≡ exponent_of other.now name) }
    {
        self.store.matches(&other.store, Factor::Plain)
    }

    // Reports whether each exponent is the negative of the exponent that its name has in the other map.
    pub(crate) fn are_reciprocal(&self, other: &Powers) -> bool
        ensures value { result ≡ are_reciprocal_exponents self.now other.now }
        ensures opposite { IsTrue result ↔ ((name : List ℕ)
            → exponent_of self.now name ≡ opposite_fraction (exponent_of other.now name)) }
    {
        self.store.matches(&other.store, Factor::Inverse)
    }

    // Returns the exponents of the product with a factor.
    pub(crate) fn times(
        self,
        alloc: Global,
        other: &Powers,
        factor: Factor,
    ) -> Result<Powers, ExponentFault>
        ensures { AreExpectedExponents result (exponents_with factor self other.now) }
    {
        reduced_law();
        let Powers { store: own } = self;
        let store = own.merge_store(alloc, &other.store, factor)?;
        Ok(Powers { store })
    }

    // Returns the exponents of the product. It takes ownership of the exponents of both factors.
    pub(crate) fn times_all(self, alloc: Global, other: Powers) -> Result<Powers, ExponentFault>
        ensures { AreExpectedExponents result (product_exponents self other) }
    {
        if self.is_empty() {
            other.number_facts();
            return Ok(other);
        }
        self.times(alloc, &other, Factor::Plain)
    }

    // Multiplying by a quantity without exponents, on either side, or dividing by one does not change the exponents.
    pub(crate) fn number_facts(&self)
        ensures product { product_exponents self.now map.empty ≡ Some self.now }
        ensures factor { product_exponents map.empty self.now ≡ Some self.now }
        ensures quotient { quotient_exponents self.now map.empty ≡ Some self.now }
    {
        reduced_law();
        let _ = &self.store;
    }

    // Returns the exponents of a power.
    pub(crate) fn into_power(self, alloc: Global, degree: &Degree) -> Result<Powers, ExponentFault>
        ensures { AreExpectedExponents result (power_exponents self degree.now) }
    {
        reduced_law();
        degree.denominator_facts();
        let Powers { store: own } = self;
        let store = own.scale_powers(alloc, degree)?;
        Ok(Powers { store })
    }

    // Appends the names to a text: those with positive exponents and, after a slash, those with negative ones.
    pub(crate) fn put_text(&self, alloc: Global, text: &mut Vec<u8>) -> Result<(), AllocError>
        ensures { OnOk result (text.new.items ≡ text.old.items ++ powers_text self.now) }
    {
        self.store.put_text(alloc, text)
    }
}
