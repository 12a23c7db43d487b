//! The lines that a splice inserts and those that it cuts out.

use super::fault::CallFault;
use super::words::{read_number, split_at_space};
use deck_lines::{DeckLine, DeckLines};
use std::alloc::{AllocError, Global};
use units_io::Text;

// A replacement of lines by other lines.
#[derive(Drop)]
pub(crate) struct Change {
    // The place of the first line to cut out.
    pub(crate) at: usize,
    // The number of lines to cut out.
    pub(crate) cut: usize,
    // The lines to insert, each with the number 0.
    pub(crate) put: DeckLines,
}

// Reads a place, the number of lines to cut out there, and the lines to insert there, which are separated by `;`. A
// `~` precedes each line that has the mark.
pub(crate) fn read_change(alloc: Global, text: &[u8]) -> Result<Change, CallFault> {
    let (at, text) = split_at_space(text);
    let (cut, lines) = split_at_space(text);
    let at = read_number(at)?;
    let cut = read_number(cut)?;
    let put = read_lines(alloc, lines)?;
    Ok(Change { at, cut, put })
}

// Reads the lines to insert.
fn read_lines(alloc: Global, lines: &[u8]) -> Result<DeckLines, AllocError> {
    let mut put = DeckLines::new(alloc);
    for text in lines.split(|byte| *byte == b';') {
        if !text.is_empty() {
            put.push(alloc, read_line(alloc, text)?)?;
        }
    }
    Ok(put)
}

// Reads a line. It has the mark if its text begins with `~`.
fn read_line(alloc: Global, text: &[u8]) -> Result<DeckLine, AllocError> {
    let (text, mark) = match text.strip_prefix(b"~".as_slice()) {
        Some(rest) => (rest, true),
        None => (text, false),
    };
    let text = Text::from_bytes(alloc, text)?;
    Ok(DeckLine {
        number: 0,
        text,
        mark,
    })
}
