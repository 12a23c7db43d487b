//! The text of all answers, which is written in pieces.

use def_entry::{Key, put_key};
use std::alloc::{AllocError, Global};
use units_io::Text;

// The text of all answers, which is written in pieces. A piece that memory is too short for is left out, and the end
// reports it.
#[derive(Drop)]
pub(crate) struct AnswerWriter {
    alloc: Global,
    text: Vec<u8>,
    // Whether a piece was left out.
    is_incomplete: bool,
}

impl AnswerWriter {
    // Returns an empty text.
    pub(crate) fn new(alloc: Global) -> AnswerWriter {
        AnswerWriter {
            alloc,
            text: Vec::new(alloc),
            is_incomplete: false,
        }
    }

    // Appends a piece.
    pub(crate) fn put(&mut self, piece: &[u8]) {
        let written = self.text.extend_from_slice(piece);
        self.note(written);
    }

    // Appends a piece and a line feed.
    pub(crate) fn put_line(&mut self, piece: &[u8]) {
        self.put(piece);
        self.put(b"\n");
    }

    // Appends a number.
    pub(crate) fn put_number<N: ToString + Copy>(&mut self, number: N) {
        match number.to_string(self.alloc) {
            Ok(digits) => self.put(digits.as_bytes()),
            Err(AllocError) => self.leave_out(),
        }
    }

    // Appends a number and the text that follows it.
    pub(crate) fn put_count(&mut self, count: usize, what: &[u8]) {
        self.put_number(count);
        self.put(what);
    }

    // Appends the text of a key.
    pub(crate) fn put_key(&mut self, key: &Key) {
        let written = put_key(&mut self.text, key);
        self.note(written);
    }

    // Appends a text that another function returned.
    pub(crate) fn put_text(&mut self, text: Result<Text, AllocError>) {
        match text {
            Ok(text) => self.put(text.as_bytes()),
            Err(AllocError) => self.leave_out(),
        }
    }

    // Returns the text, for a function that appends to it. Its result is for `note`.
    pub(crate) fn text_mut(&mut self) -> &mut Vec<u8> {
        &mut self.text
    }

    // Records whether a piece was written.
    pub(crate) fn note(&mut self, written: Result<(), AllocError>) {
        if written.is_err() {
            self.leave_out();
        }
    }

    // Records that memory was too short for a piece.
    pub(crate) fn leave_out(&mut self) {
        self.is_incomplete = true;
    }

    // Returns the text, if no piece was left out.
    pub(crate) fn into_text(self) -> Result<Vec<u8>, AllocError> {
        if self.is_incomplete {
            return Err(AllocError);
        }
        Ok(self.text)
    }
}
