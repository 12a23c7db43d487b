//! JSON output.

use crate::decimal::put_number;
use crate::hidden::{cut_character, hidden_code, is_utf8, put_code, put_hex};
use crate::writer::Writer;

/// How a string shows a text.
#[derive(Clone, Copy)]
pub(crate) enum Encoding {
    /// By its characters. Control characters and marks of direction are escaped, and each byte that is not UTF-8 becomes
    /// U+FFFD.
    Characters,
    /// By its bytes, each as two hexadecimal digits.
    Bytes,
}

/// Appends a string that shows a text.
pub(crate) fn put_string(out: &mut Writer, encoding: Encoding, text: &[u8]) {
    out.put_byte(b'"');
    match encoding {
        Encoding::Characters => put_characters(out, text),
        Encoding::Bytes => put_bytes(out, text),
    }
    out.put_byte(b'"');
}

fn put_characters(out: &mut Writer, text: &[u8]) {
    let mut rest = text;
    for _ in 0..text.len() {
        if rest.is_empty() {
            break;
        }
        let (character, after) = cut_character(rest);
        put_character(out, character);
        rest = after;
    }
}

fn put_character(out: &mut Writer, character: &[u8]) {
    if let Some(code) = hidden_code(character) {
        return put_code(out, code);
    }
    match character {
        [b'"' | b'\\'] => {
            out.put_byte(b'\\');
            out.put(character);
        }
        [byte] if !byte.is_ascii() => out.put(b"\\ufffd"),
        _ => out.put(character),
    }
}

/// Appends the opening brace of an object and its first member, whose value is a string.
pub(crate) fn put_first_member(out: &mut Writer, name: &[u8], text: &[u8]) {
    out.put(b"{\"");
    put_string_member(out, name, text);
}

/// Appends a comma and a member whose value is a string.
pub(crate) fn put_text_member(out: &mut Writer, name: &[u8], text: &[u8]) {
    out.put(b",\"");
    put_string_member(out, name, text);
}

fn put_bytes(out: &mut Writer, text: &[u8]) {
    for byte in text {
        put_hex(out, *byte);
    }
}

// Appends a member after its first quote. If its text is not UTF-8, a second member has the bytes.
fn put_string_member(out: &mut Writer, name: &[u8], text: &[u8]) {
    out.put(name);
    out.put(b"\":");
    put_string(out, Encoding::Characters, text);
    if !is_utf8(text) {
        out.put(b",\"");
        out.put(name);
        out.put(b"_hex\":");
        put_string(out, Encoding::Bytes, text);
    }
}

/// Appends a comma and a member whose value is a number.
pub(crate) fn put_number_member(out: &mut Writer, name: &[u8], number: usize) {
    put_name(out, name);
    put_number(out, number);
}

/// Appends a comma and a member whose value is true or false.
pub(crate) fn put_flag_member(out: &mut Writer, name: &[u8], flag: bool) {
    put_name(out, name);
    out.put(if flag {
        b"true".as_slice()
    } else {
        b"false".as_slice()
    });
}

/// Appends a comma and the name of a member.
pub(crate) fn put_name(out: &mut Writer, name: &[u8]) {
    out.put(b",\"");
    out.put(name);
    out.put(b"\":");
}
