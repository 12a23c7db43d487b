//! The units that comments name.
//!
//! A comment `#: UNIT` on the line of a definition names the unit to which the definition should conform. Such a
//! comment on a line of its own applies to the following definitions without a comment of their own, up to the next
//! blank line. If a line has two of these comments, the last one counts. A unit ends at the next `#`.

use crate::text_part::{cut_line, part_of};
use def_lines::{clean, trim};
use memchr::memmem::Finder;
use std::alloc::{AllocError, Global};
use units_io::{Text, is_blank};

/// The units that the comments of a file name, by the line numbers of the definitions.
pub(crate) struct UnitNotes {
    notes: Vec<UnitNote>,
    // The index of the first note that was not skipped.
    next: usize,
}

// Written by hand, so that code that drops unit notes need not prove anything about their contents.
impl Drop for UnitNotes {
    fn drop(self) {
        let UnitNotes { notes: _, next: _ } = self;
    }
}

struct UnitNote {
    line: usize,
    unit: Text,
}

// Written by hand, so that code that drops a unit note need not prove anything about its contents.
impl Drop for UnitNote {
    fn drop(self) {
        let UnitNote { line: _, unit: _ } = self;
    }
}

// The state of reading the lines of a file. A unit that is not set is empty.
#[derive(Clone, Copy)]
struct Reading<'a> {
    // The number of the last physical line, and that of the first physical line of its logical line.
    number: usize,
    start: usize,
    is_continued: bool,
    has_content: bool,
    has_comment: bool,
    own: &'a [u8],
    shared: &'a [u8],
}

impl UnitNotes {
    /// Returns an empty set of notes.
    pub(crate) fn none(alloc: Global) -> UnitNotes {
        UnitNotes {
            notes: Vec::new(alloc),
            next: 0,
        }
    }

    /// Reads the notes in the text of a file.
    pub(crate) fn read_notes(alloc: Global, text: &[u8]) -> Result<UnitNotes, AllocError> {
        let mut notes = UnitNotes::none(alloc);
        if Finder::new(b"#:").find(text).is_none() {
            return Ok(notes);
        }
        let mut reading = Reading {
            number: 0,
            start: 0,
            is_continued: false,
            has_content: false,
            has_comment: false,
            own: b"".as_slice(),
            shared: b"".as_slice(),
        };
        let mut rest = text;
        for _ in 0..text.len() {
            if rest.is_empty() {
                break;
            }
            let (line, below) = cut_line(rest);
            reading = reading.after_line(line);
            if !reading.is_continued {
                reading = notes.take(alloc, reading)?;
            }
            rest = below;
        }
        if reading.is_continued {
            notes.take(alloc, reading)?;
        }
        Ok(notes)
    }

    /// Returns the unit that comments name for the definition whose first line has this number. The numbers passed to
    /// successive calls must increase.
    pub(crate) fn unit_at(&mut self, line: usize) -> Option<&[u8]> {
        for place in self.next..self.notes.len() {
            if self.notes[place].line >= line {
                break;
            }
            self.next = place.saturating_add(1);
        }
        match self.notes.get(self.next) {
            Some(note) if note.line == line => Some(note.unit.as_bytes()),
            _ => None,
        }
    }

    // Records the unit of a complete logical line, if it has content. A line with only comments changes the shared
    // unit, and a blank line clears it.
    fn take<'a>(&mut self, alloc: Global, reading: Reading<'a>) -> Result<Reading<'a>, AllocError> {
        let unit = if reading.own.is_empty() {
            reading.shared
        } else {
            reading.own
        };
        let mut reading = reading;
        if reading.has_content {
            if !unit.is_empty() {
                let unit = Text::from_bytes(alloc, unit)?;
                let line = reading.start;
                self.notes.push(UnitNote { line, unit })?;
            }
        } else if reading.has_comment {
            reading.shared = unit;
        } else {
            reading.shared = b"".as_slice();
        }
        Ok(reading)
    }
}

impl<'a> Reading<'a> {
    // Returns the state after one more physical line.
    fn after_line(self, line: &'a [u8]) -> Reading<'a> {
        let mut reading = self;
        reading.number = self.number.saturating_add(1);
        if !self.is_continued {
            reading.start = reading.number;
            reading.has_content = false;
            reading.has_comment = false;
            reading.own = b"".as_slice();
        }
        let comment = comment_of(line);
        if !comment.is_empty() {
            reading.has_comment = true;
            reading.own = unit_in(comment).unwrap_or(reading.own);
        }
        let content = clean(line);
        let joined = content.strip_suffix(b"\\".as_slice());
        reading.is_continued = joined.is_some();
        if joined
            .unwrap_or(content)
            .iter()
            .any(|byte| !is_blank(*byte))
        {
            reading.has_content = true;
        }
        reading
    }
}

// Returns the comment of a physical line, including its `#`.
fn comment_of(line: &[u8]) -> &[u8] {
    let line = line.strip_suffix(b"\r".as_slice()).unwrap_or(line);
    match line.iter().position(|byte| *byte == b'#') {
        Some(start) => part_of(line, start, line.len()),
        None => b"".as_slice(),
    }
}

// Returns the unit of the last `#:` in a comment. It may be empty.
fn unit_in(comment: &[u8]) -> Option<&[u8]> {
    let mut unit = None;
    let mut rest = comment;
    for _ in 0..comment.len() {
        let Some(start) = rest.iter().position(|byte| *byte == b'#') else {
            break;
        };
        rest = part_of(rest, start.saturating_add(1), rest.len());
        if let Some(text) = rest.strip_prefix(b":".as_slice()) {
            let end = text.iter().position(|byte| *byte == b'#');
            unit = Some(trim(part_of(text, 0, end.unwrap_or(text.len()))));
        }
    }
    unit
}
