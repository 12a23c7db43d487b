//! The text of a decimal.

ghost use Rattle.std.specs.Prelude.{◌≡◌, ◌<◌, ◌≤◌, ◌++◌, pos, negsuc, ◌<ℤ◌, ◌≤ℤ◌, length, OnOk};
ghost use Rattle.digits_print.specs.Nearest.{HasDigits};
ghost use Rattle.digits_print.specs.Layout as spec;

use crate::decimal::{Decimal, MOST_DIGITS};
use std::alloc::{AllocError, Global};

// The minimum power of ten of the first digit in plain notation.
const LEAST_PLAIN_POWER: i32 = -4;

// Appends a decimal with this many digits to the text.
pub(crate) fn put_decimal(
    alloc: Global,
    text: &mut Vec<u8>,
    x: Decimal,
    digits: u32,
) -> Result<(), AllocError>
    requires some { 0 < digits }
    requires most { digits ≤ MOST_DIGITS }
    requires fits { HasDigits digits x.coefficient }
    requires low { negsuc 99 <ℤ x.scale }
    requires high { x.scale ≤ℤ pos 100 }
    ensures { OnOk result (text.new.items ≡ text.old.items ++ spec.decimal_text digits x) }
{
    let numeral = x.coefficient.to_string(alloc)?;
    let power = x.scale + (digits as i32 - 1);
    put_layout(alloc, text, numeral.as_bytes(), power, digits)
}

// Appends the digits, the first of which has this power of ten. The notation is plain if the power is at least -4 and
// below the number of digits.
fn put_layout(
    alloc: Global,
    text: &mut Vec<u8>,
    numeral: &[u8],
    power: i32,
    digits: u32,
) -> Result<(), AllocError>
    requires some { 0 < digits }
    requires enough { digits ≤ length numeral.now }
    ensures { OnOk result (text.new.items ≡ text.old.items ++ spec.print_layout digits numeral.now power) }
{
    let size = power.unsigned_abs();
    if power < LEAST_PLAIN_POWER {
        put_scientific(alloc, text, numeral, power)
    } else if power < 0 {
        put_below_one(text, numeral, size as usize - 1)
    } else if size < digits {
        put_plain(text, numeral, size as usize + 1)
    } else {
        put_scientific(alloc, text, numeral, power)
    }
}

// Appends the digits in plain notation, with `before` digits before the point.
fn put_plain(text: &mut Vec<u8>, digits: &[u8], before: usize) -> Result<(), AllocError>
    requires { before ≤ length digits.now }
    ensures { OnOk result (text.new.items ≡ text.old.items ++ spec.plain_print_layout digits.now before) }
{
    let (whole, rest) = digits.split_at(before);
    text.extend_from_slice(whole)?;
    put_fraction(text, rest)
}

// Appends a number below 1 in plain notation, with `zeros` zeros between the point and the first digit.
fn put_below_one(text: &mut Vec<u8>, digits: &[u8], zeros: usize) -> Result<(), AllocError>
    requires { zeros < 4 }
    ensures { OnOk result (text.new.items ≡ text.old.items ++ spec.print_layout_below_one digits.now zeros) }
{
    text.extend_from_slice(b"0.".as_slice())?;
    text.resize(text.len() + zeros, b'0')?;
    text.extend_from_slice(without_end_zeros(digits))
}

// Appends the digits in scientific notation, with the power of ten of the first digit.
fn put_scientific(
    alloc: Global,
    text: &mut Vec<u8>,
    digits: &[u8],
    power: i32,
) -> Result<(), AllocError>
    requires { 1 ≤ length digits.now }
    ensures { OnOk result (text.new.items ≡ text.old.items ++ spec.scientific_print_layout digits.now power) }
{
    put_plain(text, digits, 1)?;
    put_exponent(alloc, text, power)
}

// Appends a point and the digits after it, or nothing if all of them are zeros.
fn put_fraction(text: &mut Vec<u8>, digits: &[u8]) -> Result<(), AllocError>
    ensures { OnOk result (text.new.items ≡ text.old.items ++ spec.printed_fraction_digits digits.now) }
{
    let kept = without_end_zeros(digits);
    if kept.is_empty() {
        return Ok(());
    }
    text.push(b'.')?;
    text.extend_from_slice(kept)
}

// Appends the exponent with its mark and sign.
fn put_exponent(alloc: Global, text: &mut Vec<u8>, power: i32) -> Result<(), AllocError>
    ensures { OnOk result (text.new.items ≡ text.old.items ++ spec.printed_exponent_suffix power) }
{
    if power < 0 {
        text.extend_from_slice(b"e-".as_slice())?;
    } else {
        text.extend_from_slice(b"e+".as_slice())?;
    }
    put_two_digits(alloc, text, power.unsigned_abs())
}

// Appends a number with at least two digits.
fn put_two_digits(alloc: Global, text: &mut Vec<u8>, n: u32) -> Result<(), AllocError>
    ensures { OnOk result (text.new.items ≡ text.old.items ++ spec.two_digits n) }
{
    if n < 10 {
        text.push(b'0')?;
    }
    let numeral = n.to_string(alloc)?;
    text.extend_from_slice(numeral.as_bytes())
}

// Returns the digits without trailing zeros.
fn without_end_zeros(digits: &[u8]) -> &[u8]
    ensures { result.now ≡ spec.digits_without_end_zeros digits.now }
{
    let mut end = digits.len();
    while end > 0 && digits[end - 1] == b'0' {
        end -= 1;
    }
    &digits[..end]
}
