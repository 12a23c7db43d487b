//! Numbers by sign and magnitude.

ghost use Rattle.std.specs.Prelude.{◌≡◌, ◌≤◌};
ghost use Rattle.frac128.specs.Fraction.{largest_fraction_part};
ghost use Rattle.frac128.specs.Sign as spec;

// Whether two signs differ.
pub(crate) fn differ(a: bool, b: bool) -> bool
    ensures { result ≡ spec.fraction_signs_differ a b }
{
    a != b
}

// The number of this sign and magnitude.
pub(crate) fn with_sign(negative: bool, magnitude: u128) -> i128
    requires { magnitude ≤ largest_fraction_part }
    ensures { result ≡ spec.signed_numerator negative magnitude }
{
    if negative {
        -(magnitude as i128)
    } else {
        magnitude as i128
    }
}
