//! The text of a fraction with a given number of significant digits.

ghost use Rattle.std.specs.Prelude.{◌≡◌, ◌≤◌, IfOk};
ghost use Rattle.digits_print.specs.Digits.{IsDigitsText, digits_text};

use crate::decimal::MOST_DIGITS;
use crate::laws::nearest_law;
use crate::layout::put_decimal;
use crate::ratio_rounding::round_ratio;
use frac128::Frac;
use std::alloc::{AllocError, Global};
use units_io::Text;

/// Returns the number with this many significant digits that is nearest to the fraction, without trailing zeros. Of
/// two equally near numbers it is the one whose last digit is even or, if both last digits are odd (9 and 10), the
/// greater one. If the power of ten of the first digit is below -4 or at least `digits`, the notation is scientific,
/// such as `1e+02`. Zero is `0`. Fails only if memory runs out.
pub fn print_digits(alloc: Global, x: &Frac, digits: u8) -> Result<Text, AllocError>
    requires some { 1 ≤ digits }
    requires most { digits ≤ 36 }
    ensures nearest { IfOk result (λ text. IsDigitsText x.now digits text) }
    ensures computed { IfOk result (λ text. text ≡ digits_text x.now digits) }
{
    // The rounded number is the nearest decimal, since the denominator is above 0.
    nearest_law();
    x.den();
    rounded_text(alloc, x, digits)
}

// Returns the text of the rounded number.
fn rounded_text(alloc: Global, x: &Frac, digits: u8) -> Result<Text, AllocError>
    requires some { 1 ≤ digits }
    requires most { digits ≤ 36 }
    ensures { IfOk result (λ text. text ≡ digits_text x.now digits) }
{
    let mut text = Vec::new(alloc);
    if x.is_zero() {
        text.push(b'0')?;
        return Ok(Text::from(text));
    }
    if x.num() < 0 {
        text.push(b'-')?;
    }
    let count = u32::from(digits);
    let nearest = round_ratio(x.num().unsigned_abs(), x.den().unsigned_abs(), count);
    put_decimal(alloc, &mut text, nearest, count)?;
    Ok(Text::from(text))
}
