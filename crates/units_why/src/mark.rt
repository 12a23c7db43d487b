//! The part of a definition's line that a finding is about.

use def_lines::split_word;
use std::alloc::{AllocError, Global};
use std::str;
use units_io::Text;

/// The part of a definition's line that is at fault.
#[derive(Drop)]
pub(crate) enum Mark {
    /// The name that the line defines.
    Name,
    /// This word after the name, or the name if the word does not occur.
    Word(Text),
    /// The byte at this place, counted from 0, in the definition of a unit or a prefix.
    Byte(usize),
}

/// Returns the mark for a message about a key or about a line without effect: the word that is unknown, refused, called
/// wrongly or not found, the next name of a cycle, or the place of a syntax error.
pub(crate) fn mark_of(alloc: Global, key: &[u8], message: &[u8]) -> Result<Mark, AllocError> {
    if let Some(digits) = message.strip_prefix(b"syntax error at ".as_slice()) {
        return Ok(byte_mark(digits));
    }
    let Some(len) = message.iter().position(|byte| *byte == b':') else {
        return Ok(Mark::Name);
    };
    let (what, rest) = message.split_at(len);
    let Some(rest) = rest.strip_prefix(b": ".as_slice()) else {
        return Ok(Mark::Name);
    };
    match word_in(what, rest, key) {
        Some(word) => Ok(Mark::Word(Text::from_bytes(alloc, word)?)),
        None => Ok(Mark::Name),
    }
}

fn byte_mark(digits: &[u8]) -> Mark {
    let Ok(digits) = str::from_utf8(digits) else {
        return Mark::Name;
    };
    match digits.parse::<usize>() {
        Ok(place) => Mark::Byte(place),
        Err(_) => Mark::Name,
    }
}

// Returns the word at fault in the rest of a message. A fault in the definition of another key has no such word, nor
// does a sum of unlike units.
fn word_in<'a>(what: &[u8], rest: &'a [u8], key: &[u8]) -> Option<&'a [u8]> {
    if what == b"sum of unlike units".as_slice() {
        return None;
    }
    let (word, after) = split_word(rest);
    if what == b"cycle".as_slice() {
        let (_, after) = split_word(after);
        let (next, _) = split_word(after);
        return Some(name_in(next));
    }
    if after.is_empty() || after.strip_prefix(b"in ".as_slice()) == Some(key) {
        Some(word)
    } else {
        None
    }
}

// Returns the name in the text of a key.
fn name_in(key: &[u8]) -> &[u8] {
    let key = key.strip_suffix(b"-".as_slice()).unwrap_or(key);
    key.strip_suffix(b"()".as_slice()).unwrap_or(key)
}
