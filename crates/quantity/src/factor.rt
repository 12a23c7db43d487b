//! The way in which the second of two factors is used.

ghost use Rattle.std.specs.Prelude.{◌≡◌};
ghost use Rattle.quantity.specs.Factors.{exponent_in};

use crate::exponent::Exponent;

/// The way in which the second of two factors is used: as it is, or inverted.
#[derive(Clone, Copy)]
pub(crate) enum Factor {
    Plain,
    Inverse,
}

impl Factor {
    // Returns an exponent of the factor, negated if the factor is inverted.
    pub(crate) fn exponent(self, exponent: Exponent) -> Exponent
        ensures { result ≡ exponent_in self exponent }
    {
        match self {
            Factor::Plain => exponent,
            Factor::Inverse => exponent.negate(),
        }
    }
}
