//! The magnitude and the sign of a number.

ghost use Rattle.std.specs.Prelude.{◌≡◌};
ghost use Rattle.frac128.specs.Sign as spec;

use frac128::Frac;

// Reports whether the number is below 0.
pub(crate) fn is_negative(x: &Frac) -> bool
    ensures { result ≡ spec.is_negative_fraction x.now }
{
    x.num() < 0
}

// Returns the number without its sign.
pub(crate) fn magnitude(x: &Frac) -> Frac
    ensures { result ≡ spec.fraction_magnitude x.now }
{
    negated_if(is_negative(x), x)
}

// Returns the number, negated if `negative` is set.
pub(crate) fn negated_if(negative: bool, x: &Frac) -> Frac
    ensures { result ≡ spec.fraction_negated_if negative x.now }
{
    if negative { x.negate() } else { *x }
}
