//! Reading numerals.

ghost use Rattle.std.specs.Prelude.{◌≡◌, ◌<◌, ◌≤◌, ◌+◌, ◌*◌, ◌^◌, true, length, take, SomeIff};
ghost use Rattle.std.specs.List.{list_all, list_any};
ghost use Rattle.frac128.specs.Decimals as spec;
ghost use Rattle.frac128.specs.Fraction.{largest_fraction_part};
ghost use Rattle.frac128.specs.Numerals as numerals;

use crate::fraction::MOST;
use crate::numeral::{Numeral, NumeralFault};
use crate::numeral_syntax::{numeral_len, staged_len, whole_len};

// The largest exponent.
const MOST_EXPONENT: u32 = 9_999;

// A number below this can take another digit.
const SMALL: u128 = 1 << 120;

/// Reads a numeral: `NotNumeral` if the bytes are no numeral, and else `TooLong` if its digits
/// without the zeros at both ends exceed the largest numerator, or if its exponent is outside
/// -9,999..9,999.
pub fn read_numeral(bytes: &[u8]) -> Result<Numeral, NumeralFault>
    ensures { result ≡ spec.numeral_reading bytes.now }
{
    if !is_numeral(bytes) {
        return Err(NumeralFault::NotNumeral);
    }
    read_spelled(bytes)
}

/// Reads the longest numeral at the front of `bytes`. Returns its length in bytes and the numeral
/// or `TooLong`, or 0 and `NotNumeral` if there is none.
pub fn read_longest(bytes: &[u8]) -> (usize, Result<Numeral, NumeralFault>)
    ensures len { result.0 ≡ numerals.longest_numeral_len bytes.now }
    ensures within { result.0 ≤ length bytes.now }
    ensures numeral { result.1 ≡ spec.numeral_reading (take (numerals.longest_numeral_len bytes.now) bytes.now) }
{
    let digits = whole_len(bytes);
    if digits > 0 {
        return (digits, read_digits(&bytes[..digits]));
    }
    let len = staged_len(bytes);
    if len == 0 {
        return (0, Err(NumeralFault::NotNumeral));
    }
    (len, read_spelled(&bytes[..len]))
}

// Reads a run of digits, which is a numeral without a point and an exponent.
fn read_digits(bytes: &[u8]) -> Result<Numeral, NumeralFault>
    requires some { 0 < length bytes.now }
    requires digits { list_all numerals.is_numeral_digit bytes.now ≡ true }
    ensures { result ≡ spec.numeral_reading bytes.now }
{
    let Some((coefficient, zeros)) = significant(bytes) else {
        return Err(NumeralFault::TooLong);
    };
    if coefficient == 0 {
        return Ok(Numeral::new(0, 0));
    }
    Ok(Numeral::new(coefficient, zeros as i128))
}

// Reads bytes that are a numeral.
fn read_spelled(bytes: &[u8]) -> Result<Numeral, NumeralFault>
    requires { numerals.is_numeral bytes.now ≡ true }
    ensures { result ≡ spec.numeral_reading bytes.now }
{
    let (mantissa, text) = bytes.split_at(mark_place(bytes));
    let Some((coefficient, zeros)) = significant(mantissa) else {
        return Err(NumeralFault::TooLong);
    };
    let Some(power) = exponent(text) else {
        return Err(NumeralFault::TooLong);
    };
    if coefficient == 0 {
        return Ok(Numeral::new(0, 0));
    }
    let scale = power - places(mantissa) as i128 + zeros as i128;
    Ok(Numeral::new(coefficient, scale))
}

// Whether all of the bytes are one numeral.
fn is_numeral(bytes: &[u8]) -> bool
    ensures { result ≡ numerals.is_numeral bytes.now }
{
    !bytes.is_empty() && numeral_len(bytes) == bytes.len()
}

// The index of the first `e` or `E`, or the length if there is none.
fn mark_place(bytes: &[u8]) -> usize
    ensures { result ≡ length (numerals.prefix_until numerals.is_numeral_exponent_mark bytes.now) }
{
    for (i, &byte) in bytes.iter().enumerate() {
        if byte == b'E' || byte == b'e' {
            return i;
        }
    }
    bytes.len()
}

// The number of bytes after the point, or 0 if there is no point.
fn places(bytes: &[u8]) -> usize
    ensures is { result ≡ spec.numeral_decimal_places bytes.now }
    ensures within { result ≤ length bytes.now }
    ensures fits { length bytes.now < 2 ^ 63 }
{
    let len = bytes.len();
    for (i, &byte) in bytes.iter().enumerate() {
        if byte == b'.' {
            return len - i - 1;
        }
    }
    0
}

// The number that all digits write without the zeros at their end, and the count of these zeros,
// or `None` if the number is too large.
fn significant(bytes: &[u8]) -> Option<(u128, usize)>
    ensures { result ≡ spec.short_numeral_coefficient bytes.now }
{
    let mut number = 0;
    let mut zeros = 0;
    for &byte in bytes {
        if byte == b'0' {
            zeros += 1;
        } else if byte.is_ascii_digit() {
            number = append_digit(number, zeros, byte - b'0')?;
            zeros = 0;
        }
    }
    Some((number, zeros))
}

// The number with some zeros and a digit appended, or `None` if that is too large.
fn append_digit(number: u128, zeros: usize, digit: u8) -> Option<u128>
    requires { digit < 10 }
    ensures { SomeIff result
        (number * 10 ^ (zeros + 1) + digit ≤ largest_fraction_part)
        (number * 10 ^ (zeros + 1) + digit) }
{
    if number == 0 {
        return Some(u128::from(digit));
    }
    // The usual case needs no power.
    if zeros == 0 && number < SMALL {
        return Some(number * 10 + u128::from(digit));
    }
    if zeros > 37 {
        return None;
    }
    let shifted = number.checked_mul(10u128.pow(zeros as u32 + 1))?;
    let more = shifted.checked_add(u128::from(digit))?;
    if more <= MOST { Some(more) } else { None }
}

// The exponent that the bytes from the mark on write, or `None` if it is too large.
fn exponent(text: &[u8]) -> Option<i128>
    ensures { SomeIff result (spec.numeral_exponent_size text.now ≤ spec.most_numeral_exponent)
        (spec.numeral_exponent text.now) }
{
    let size = exponent_size(text)?;
    if has_minus(text) {
        Some(-i128::from(size))
    } else {
        Some(i128::from(size))
    }
}

// Whether a minus is among the bytes.
fn has_minus(bytes: &[u8]) -> bool
    ensures { result ≡ list_any numerals.is_numeral_minus bytes.now }
{
    bytes.iter().any(|byte| *byte == b'-')
}

// The number that the digits among the bytes write, or `None` if it is too large.
fn exponent_size(bytes: &[u8]) -> Option<u32>
    ensures { SomeIff result
        (spec.numeral_exponent_size bytes.now ≤ spec.most_numeral_exponent)
        (spec.numeral_exponent_size bytes.now) }
{
    let mut number = 0;
    for &byte in bytes {
        if byte.is_ascii_digit() {
            number = number * 10 + u32::from(byte - b'0');
            if number > MOST_EXPONENT {
                return None;
            }
        }
    }
    Some(number)
}
