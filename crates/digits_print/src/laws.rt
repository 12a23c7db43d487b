//! Laws of the definitions that the contracts cite.

ghost use Rattle.digits_print.specs.Back.{DigitsReadBackLaw};
ghost use Rattle.digits_print.specs.Exact.{ExactPrintLaw};
ghost use Rattle.digits_print.specs.RatioRounding.{NearestDecimalLaw};

use frac128::{digits_law, nearest_whole_law, reduced_law};

/// The exact text of a fraction reads as that fraction, by the numerals of `read_numeral` and their values.
pub fn exact_law()
    ensures { ExactPrintLaw }
{
    reduced_law();
    back_law();
}

/// A rounded number is the nearest number with this many significant digits, and the only such number.
pub fn nearest_law()
    ensures { NearestDecimalLaw }
{
    nearest_whole_law();
}

/// The digits of a whole number read as that number.
pub fn back_law()
    ensures { DigitsReadBackLaw }
{
    digits_law();
}
