//! Numbers in decimal.

use crate::writer::Writer;

// The count of digits of the largest number.
const MOST_DIGITS: usize = 20;

// Room for a byte, the digits and two more bytes.
const MOST_BYTES: usize = 23;

/// Appends a number.
pub(crate) fn put_number(out: &mut Writer, number: usize) {
    let mut text = [b'0'; MOST_BYTES];
    let first = write_digits(&mut text, number);
    out.put(text.get(first..MOST_DIGITS + 1).unwrap_or(b""));
}

/// Appends a byte, a number and two more bytes. One longer text is appended faster than three short ones.
pub(crate) fn put_number_between(out: &mut Writer, before: u8, number: usize, after: [u8; 2]) {
    let mut text = [b'0'; MOST_BYTES];
    let start = write_digits(&mut text, number).saturating_sub(1);
    if start < MOST_BYTES {
        text[start] = before;
    }
    text[MOST_DIGITS + 1] = after[0];
    text[MOST_DIGITS + 2] = after[1];
    out.put(text.get(start..).unwrap_or(b""));
}

// Writes a number so that two bytes are left after it, and returns the place of its first digit.
fn write_digits(text: &mut [u8; MOST_BYTES], number: usize) -> usize {
    let mut first = MOST_DIGITS;
    let mut rest = number;
    // Two digits at a time, from the last ones.
    for count in 0..MOST_DIGITS / 2 {
        first = MOST_DIGITS - 1 - 2 * count;
        let pair = (rest % 100) as u8;
        text[first] = b'0'.wrapping_add(pair / 10);
        text[first + 1] = b'0'.wrapping_add(pair % 10);
        rest /= 100;
        if rest == 0 {
            break;
        }
    }
    match text.get(first) {
        Some(b'0') => first.saturating_add(1),
        _ => first,
    }
}
