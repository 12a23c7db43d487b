//! Characters that a terminal obeys instead of showing them.

use crate::text_part::part_of;
use crate::writer::Writer;
use std::str;

/// Returns the first character of a text, or its first byte if that is not UTF-8, and the rest.
pub(crate) fn cut_character(text: &[u8]) -> (&[u8], &[u8]) {
    let Some(first) = text.first() else {
        return (text, text);
    };
    let sequence = part_of(text, 0, sequence_len(*first));
    let len = if is_utf8(sequence) {
        sequence.len().max(1)
    } else {
        1
    };
    (part_of(text, 0, len), part_of(text, len, text.len()))
}

// Returns the number of bytes of a character that begins with this byte. A byte that begins none is alone.
fn sequence_len(first: u8) -> usize {
    match first {
        0xc2..=0xdf => 2,
        0xe0..=0xef => 3,
        0xf0..=0xf4 => 4,
        _ => 1,
    }
}

/// Returns whether a text is UTF-8.
pub(crate) fn is_utf8(text: &[u8]) -> bool {
    match str::from_utf8(text) {
        Ok(_) => true,
        Err(_) => false,
    }
}

/// Returns the two bytes of the code point of a control character or a mark of direction, or `None` for any other
/// character.
pub(crate) fn hidden_code(character: &[u8]) -> Option<[u8; 2]> {
    match character {
        [byte] if *byte < b' ' || *byte == 0x7f => Some([0, *byte]),
        [0xc2, last] if *last < 0xa0 => Some([0, *last]),
        [0xd8, 0x9c] => Some([0x06, 0x1c]),
        [0xe2, 0x80, last] if matches!(*last, 0x8e | 0x8f | 0xaa..=0xae) => Some([
            0x20,
            *last & 0x7f,
        ]),
        [0xe2, 0x81, last] if matches!(*last, 0xa6..=0xa9) => Some([0x20, (*last & 0x3f) | 0x40]),
        _ => None,
    }
}

/// Appends the code point of a character: `\u` and four hexadecimal digits.
pub(crate) fn put_code(out: &mut Writer, code: [u8; 2]) {
    out.put(b"\\u");
    for byte in code {
        put_hex(out, byte);
    }
}

/// Appends a byte as two hexadecimal digits.
pub(crate) fn put_hex(out: &mut Writer, byte: u8) {
    out.put_byte(hex_digit(byte / 16));
    out.put_byte(hex_digit(byte % 16));
}

// Returns the hexadecimal digit of a number below 16.
fn hex_digit(n: u8) -> u8 {
    match n {
        0..=9 => b'0' + n,
        10..=15 => b'a' + (n - 10),
        _ => b'0',
    }
}
