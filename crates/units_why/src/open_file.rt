//! A file that contains findings.

use crate::definitions::BUILT_IN_NAME;
use crate::places::Places;
use deck::built_in_text;
use std::alloc::{AllocError, Global};
use units_io::{FetchFault, Files, Text};

/// A file whose lines are looked up in ascending order.
#[derive(Drop)]
pub(crate) struct OpenFile {
    number: usize,
    text: Text,
    // The place in the text after the first `lines` lines.
    at: usize,
    lines: usize,
}

impl OpenFile {
    /// Returns the state in which no file is open.
    pub(crate) fn none(alloc: Global) -> OpenFile {
        OpenFile {
            number: usize::MAX,
            text: Text::from(Vec::new(alloc)),
            at: 0,
            lines: 0,
        }
    }

    /// Opens the file with this number and name, unless it is already open, and returns whether it was opened. A file
    /// that cannot be read counts as empty.
    pub(crate) fn open<F: Files>(
        &mut self,
        alloc: Global,
        files: &mut F,
        places: Places<'_>,
        number: usize,
        name: &[u8],
    ) -> Result<bool, AllocError> {
        if self.number == number {
            return Ok(false);
        }
        self.text = text_of(alloc, files, places, name)?;
        self.number = number;
        self.at = 0;
        self.lines = 0;
        Ok(true)
    }

    /// Returns the whole text.
    pub(crate) fn text(&self) -> &[u8] {
        self.text.as_bytes()
    }

    /// Returns the text from the line with this number on. Returns an empty text if there is no such line, or if the
    /// line is before the last one that was looked up.
    pub(crate) fn text_from(&mut self, line: usize) -> &[u8] {
        if line <= self.lines {
            return b"".as_slice();
        }
        for _ in 0..line - self.lines - 1 {
            if !self.skip_line() {
                return b"".as_slice();
            }
        }
        self.rest()
    }

    // Returns the text from the current place on.
    fn rest(&self) -> &[u8] {
        let bytes = self.text.as_bytes();
        if self.at < bytes.len() {
            &bytes[self.at..]
        } else {
            b"".as_slice()
        }
    }

    // Skips a line, and returns whether there was one.
    fn skip_line(&mut self) -> bool {
        let Some(len) = self.rest().iter().position(|byte| *byte == b'\n') else {
            return false;
        };
        self.at = self.at.saturating_add(len).saturating_add(1);
        self.lines = self.lines.saturating_add(1);
        true
    }
}

// Returns the text of a file, or an empty text if it cannot be read.
fn text_of<F: Files>(
    alloc: Global,
    files: &mut F,
    places: Places<'_>,
    name: &[u8],
) -> Result<Text, AllocError> {
    if places.are_built_in && name == BUILT_IN_NAME {
        return Text::from_bytes(alloc, built_in_text());
    }
    match files.fetch(alloc, name) {
        Ok(text) => Ok(text),
        Err(FetchFault::OutOfMemory) => Err(AllocError),
        Err(_) => Text::from_bytes(alloc, b""),
    }
}
