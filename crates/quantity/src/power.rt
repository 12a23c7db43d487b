//! A name with its exponent.

ghost use Rattle.std.specs.Prelude.{◌≡◌, pos, IfOk};
ghost use Rattle.frac128.specs.Fraction.{whole_fraction};

use crate::exponent::Exponent;
use crate::name::Name;
use smallvec::SmallVec;
use std::alloc::{AllocError, Global};
use std::default::MadeWith;
use std::marker::Model;

/// Powers in the byte order of their names.
pub(crate) type PowerList = SmallVec<Power, INLINE_POWERS>;

// The number of powers that a list holds without an allocation. Each operation moves a list, so room for more powers
// costs more than the allocations that it saves.
const INLINE_POWERS: usize = 1;

/// A name with its exponent, which contracts see as a pair.
#[derive(Drop)]
pub(crate) struct Power {
    name: Name,
    exponent: Exponent,
}

impl Model for Power {
    ghost use Rattle.std.specs.Prelude.{List, ℕ};
    ghost use Rattle.frac128.specs.Fraction.{Fraction};
    ghost use Rattle.quantity.specs.Amount.{unit_power_code};

    ghost Value = { List ℕ × Fraction };

    ghost coded = { unit_power_code };

    ghost view = { λ p. (p.name, p.exponent) };
}

// A small vector fills its unused places with this value.
impl MadeWith<Global> for Power {
    fn made_with(alloc: Global) -> Power {
        Power {
            name: Name::empty(alloc),
            exponent: Exponent::one(),
        }
    }
}

impl Power {
    // Creates a power from a name and its exponent.
    pub(crate) fn new(name: Name, exponent: Exponent) -> Power
        ensures { result ≡ (name, exponent) }
    {
        Power { name, exponent }
    }

    pub(crate) fn name(&self) -> &Name
        ensures { result.now ≡ self.now.0 }
    {
        &self.name
    }

    pub(crate) fn exponent(&self) -> Exponent
        ensures { result ≡ self.now.1 }
    {
        self.exponent
    }

    // Returns the power with this exponent instead of its own.
    pub(crate) fn with_exponent(self, exponent: Exponent) -> Power
        ensures { result ≡ (self.0, exponent) }
    {
        Power {
            name: self.name,
            exponent,
        }
    }

    // Sets the exponent.
    pub(crate) fn put_exponent(&mut self, exponent: Exponent)
        ensures { self.new ≡ (self.old.0, exponent) }
    {
        self.exponent = exponent;
    }

    // Returns a copy of the name with this exponent.
    pub(crate) fn with(&self, alloc: Global, exponent: Exponent) -> Result<Power, AllocError>
        ensures { IfOk result (λ power. power ≡ (self.now.0, exponent)) }
    {
        Ok(Power {
            name: self.name.copy(alloc)?,
            exponent,
        })
    }

    // Creates a power of a name with the exponent 1.
    pub(crate) fn of(alloc: Global, name: &[u8]) -> Result<Power, AllocError>
        ensures { IfOk result (λ power. power ≡ (name.now, whole_fraction (pos 1))) }
    {
        Ok(Power {
            name: Name::of(alloc, name)?,
            exponent: Exponent::one(),
        })
    }
}
