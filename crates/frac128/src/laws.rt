//! Laws of the definitions that the contracts cite.

ghost use Rattle.frac128.specs.Decimals.{DigitNumeralLaw, NumeralLaw};
ghost use Rattle.frac128.specs.Divisors.{GcdLaw, LcmLaw};
ghost use Rattle.frac128.specs.Exact.{ExactFractionStepsLaw};
ghost use Rattle.frac128.specs.Floor.{FractionFloorLaw};
ghost use Rattle.frac128.specs.Nearest.{FractionNearestWholeLaw};
ghost use Rattle.frac128.specs.Order.{FractionComparisonLaw, FractionOrderLaw};
ghost use Rattle.frac128.specs.Roots.{FractionRootLaw, UniqueFractionRootLaw};
ghost use Rattle.frac128.specs.Steps.{ReducedFractionLaw};

/// The greatest common divisor divides both numbers, and every common divisor divides it.
pub fn gcd_law()
    ensures { GcdLaw }
{}

/// The least common multiple is a multiple of both numbers, and every other common multiple is a
/// multiple of it.
pub fn lcm_law()
    ensures { LcmLaw }
{}

/// A quotient in lowest terms is reduced, and is the only reduced fraction of its value.
pub fn reduced_law()
    ensures { ReducedFractionLaw }
{}

/// Sums, differences, products and quotients have the values of the exact ones.
pub fn steps_law()
    ensures { ExactFractionStepsLaw }
{}

/// Fractions are compared by their values.
pub fn compared_law()
    ensures { FractionComparisonLaw }
{}

/// The order is total, and reduced fractions that compare as equal are equal.
pub fn order_law()
    ensures { FractionOrderLaw }
{}

/// No fraction has two roots of one degree.
pub fn root_law()
    ensures { UniqueFractionRootLaw }
{}

/// The root that is computed from the roots of the numerator and the denominator is the fraction
/// whose power is the given one. If it computes none, no fraction is a root.
pub fn root_of_law()
    ensures { FractionRootLaw }
{}

/// Digits alone are a numeral, and its value is the whole number that they write.
pub fn digits_law()
    ensures { DigitNumeralLaw }
{}

/// The whole part is the greatest whole number that is at most the fraction.
pub fn floor_law()
    ensures { FractionFloorLaw }
{}

/// Rounding by the remainder gives the nearest whole number, and of two the even one.
pub fn nearest_whole_law()
    ensures { FractionNearestWholeLaw }
{}

/// The value of a numeral is the number of all its digits, times ten to the exponent less the places.
pub fn numeral_law()
    ensures { NumeralLaw }
{}
