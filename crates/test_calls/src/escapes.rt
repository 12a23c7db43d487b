//! Texts with escapes, so that any bytes fit into a line.

use crate::lines::{AnswerWriter, CallFault};
use std::alloc::Global;
use units_io::List;

// The escapes: the byte after `\`, and the byte that is meant.
const ESCAPES: &[(u8, u8)] = &[
    (b'n', b'\n'),
    (b't', b'\t'),
    (b'r', b'\r'),
    (b'0', b'\0'),
    (b'\\', b'\\'),
    (b'"', b'"'),
];

// Reads the bytes of a text with escapes.
pub(crate) fn read_escaped(alloc: Global, text: &[u8]) -> Result<Vec<u8>, CallFault> {
    let mut bytes = List::new(alloc);
    let mut is_escape = false;
    for byte in text {
        if is_escape {
            bytes.push(alloc, byte_of_escape(*byte)?)?;
            is_escape = false;
        } else if *byte == b'\\' {
            is_escape = true;
        } else {
            bytes.push(alloc, *byte)?;
        }
    }
    if is_escape {
        return Err(CallFault::BadCall);
    }
    Ok(bytes.into_vec())
}

// Returns the byte that an escape means.
fn byte_of_escape(name: u8) -> Result<u8, CallFault> {
    for (escape, byte) in ESCAPES {
        if *escape == name {
            return Ok(*byte);
        }
    }
    Err(CallFault::BadCall)
}

// Appends bytes as a text with escapes, in quotes.
pub(crate) fn put_quoted(bytes: &[u8], out: &mut AnswerWriter) {
    out.put(b"\"");
    for byte in bytes {
        match escape_of(*byte) {
            Some(escape) => out.put(&[b'\\', escape]),
            None => out.put(&[*byte]),
        }
    }
    out.put(b"\"");
}

// Returns the escape that means this byte, if there is one.
fn escape_of(meant: u8) -> Option<u8> {
    for (escape, byte) in ESCAPES {
        if *byte == meant {
            return Some(*escape);
        }
    }
    None
}
