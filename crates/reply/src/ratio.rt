//! How often one number goes into another.

ghost use Rattle.std.specs.Prelude.{◌≡◌, pos};
ghost use Rattle.frac128.specs.Fraction.{whole_fraction};
ghost use Rattle.reply.specs.Ratios as spec;

use frac128::{Frac, FracFault};

/// How often the target goes into the source (`forward`), and the source into the target (`back`), which is `None` if
/// the source is 0.
#[derive(Clone, Copy)]
pub(crate) struct Ratio {
    pub(crate) forward: Frac,
    pub(crate) back: Option<Frac>,
}

/// Returns from/to and to/from. Fails if a quotient has no value.
pub(crate) fn ratio_of(from: &Frac, to: &Frac) -> Result<Ratio, FracFault>
    ensures { result ≡ spec.conversion_ratio from.now to.now }
{
    let forward = from.div(to)?;
    let back = backward(from, to)?;
    Ok(Ratio { forward, back })
}

// Returns to/from, or `None` if `from` is 0.
fn backward(from: &Frac, to: &Frac) -> Result<Option<Frac>, FracFault>
    ensures { result ≡ spec.inverse_conversion_ratio from.now to.now }
{
    if from.is_zero() {
        return Ok(None);
    }
    let back = to.div(from)?;
    Ok(Some(back))
}

/// Returns the ratio of 1/from and `to`. Fails if a quotient has no value.
pub(crate) fn reciprocal_ratio(from: &Frac, to: &Frac) -> Result<Ratio, FracFault>
    ensures { result ≡ spec.reciprocal_conversion_ratio from.now to.now }
{
    let inverse = one().div(from)?;
    ratio_of(&inverse, to)
}

fn one() -> Frac
    ensures { result ≡ whole_fraction (pos 1) }
{
    Frac::new(1, 1).unwrap()
}
