//! Output in blocks.

use crate::hidden::{cut_character, hidden_code, put_hex};
use crate::status::Status;
use crate::writer::Writer;
use std::alloc::{AllocError, Global};
use units_io::{Failed, Sink, Text, put_all};

// The least count of bytes of a block.
const BLOCK: usize = 65536;

/// The reasons why an answer ends early.
#[derive(Clone, Copy)]
pub(crate) enum OutputFault {
    /// The answer could not be written.
    WriteFailed,
    /// Memory ran out.
    OutOfMemory,
}

impl OutputFault {
    /// Returns the status of the run.
    pub(crate) fn status(self) -> Status {
        match self {
            OutputFault::WriteFailed => Status::WriteFault,
            OutputFault::OutOfMemory => Status::NoMemory,
        }
    }
}

impl From<AllocError> for OutputFault {
    fn from(_: AllocError) -> Self {
        OutputFault::OutOfMemory
    }
}

impl From<Failed> for OutputFault {
    fn from(_: Failed) -> Self {
        OutputFault::WriteFailed
    }
}

/// An output, and whether it is a terminal. A terminal obeys the control characters and the marks of direction in names
/// and paths, so it gets them escaped.
#[derive(Drop)]
pub(crate) struct Output<O: Sink> {
    pub(crate) sink: O,
    pub(crate) is_terminal: bool,
}

impl<O: Sink> Output<O> {
    /// Writes whole lines.
    pub(crate) fn put(&mut self, alloc: Global, lines: &[u8]) -> Result<(), OutputFault> {
        if self.is_terminal {
            let shown = shown_text(alloc, lines)?;
            return Ok(put_all(&mut self.sink, shown.as_bytes())?);
        }
        Ok(put_all(&mut self.sink, lines)?)
    }

    /// Writes whole lines and clears them, if they are at least a block. So the memory for an answer does not grow with
    /// its length.
    pub(crate) fn put_block(
        &mut self,
        alloc: Global,
        lines: &mut Vec<u8>,
    ) -> Result<(), OutputFault> {
        if lines.len() >= BLOCK {
            self.put(alloc, lines.as_slice())?;
            lines.clear();
        }
        Ok(())
    }
}

// Returns lines in which each control character but the tab, each mark of direction and each byte that is not UTF-8 is
// escaped.
fn shown_text(alloc: Global, lines: &[u8]) -> Result<Text, AllocError> {
    let mut out = Writer::new(alloc);
    let mut rest = lines;
    for _ in 0..lines.len() {
        if rest.is_empty() {
            break;
        }
        let (character, after) = cut_character(rest);
        put_shown(&mut out, character);
        rest = after;
    }
    out.into_text()
}

// Appends a character, or its bytes if it is hidden.
fn put_shown(out: &mut Writer, character: &[u8]) {
    if is_shown(character) {
        return out.put(character);
    }
    for byte in character {
        out.put(b"\\x");
        put_hex(out, *byte);
    }
}

fn is_shown(character: &[u8]) -> bool {
    match character {
        [b'\t' | b'\n'] => true,
        [byte] if !byte.is_ascii() => false,
        _ => hidden_code(character).is_none(),
    }
}
