//! Numbers in lines.

ghost use Rattle.std.specs.Prelude.{◌≤◌};

use crate::lines::CallFault;
use def_entry::cut_at;
use frac128::Frac;
use std::str;
use std::str::FromStr;

// The number of significant digits to print.
#[derive(Clone, Copy)]
pub(crate) struct DigitCount {
    pub(crate) value: u8,
    ghost some: { 1 ≤ value },
    ghost most: { value ≤ 36 },
}

// Reads a number of digits from 1 to 36.
pub(crate) fn read_count(text: &[u8]) -> Result<DigitCount, CallFault> {
    match read_whole(text)? {
        value @ 1..=36 => Ok(DigitCount { value }),
        _ => Err(CallFault::BadCall),
    }
}

// Reads a fraction `n` or `n|d`, if it fits.
pub(crate) fn read_fraction(text: &[u8]) -> Result<Frac, CallFault> {
    let (n, d) = cut_at(text, b'|').unwrap_or((text, b"1"));
    match Frac::new(read_whole(n)?, read_whole(d)?) {
        Ok(x) => Ok(x),
        Err(_) => Err(CallFault::BadCall),
    }
}

// Reads an integer, if it fits its type.
pub(crate) fn read_whole<T: FromStr>(text: &[u8]) -> Result<T, CallFault>
where
    T::Err: Drop,
{
    match str::from_utf8(text) {
        Ok(text) => text.parse().ok().ok_or(CallFault::BadCall),
        Err(_) => Err(CallFault::BadCall),
    }
}
