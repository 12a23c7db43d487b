//! The report on a definition file.

ghost use Rattle.std.specs.Prelude.{◌≡◌, true};
ghost use Rattle.def_lines.specs.Kinds.{kind_of_line};
ghost use Rattle.def_entry.specs.EntryReading.{has_entry};

use crate::entry_text::put_entry;
use crate::lines::{AnswerWriter, put_entry_refusal};
use def_entry::{EntryFault, read_entry};
use def_lines::{LineKind, Lines, classify, split_lines};
use std::alloc::{AllocError, Global};
use units_io::LONGEST_FILE;

// How many rows of each kind a report has.
#[derive(Clone, Copy)]
struct RowCounts {
    entries: usize,
    refusals: usize,
}

// Returns the report on a file.
pub(crate) fn report_on(alloc: Global, bytes: &[u8]) -> Result<Vec<u8>, AllocError> {
    let mut out = AnswerWriter::new(alloc);
    put_report(alloc, bytes, &mut out);
    out.into_text()
}

// Appends the report on a file: a row for each definition and list, and the numbers of these rows and of refusals. If
// the file is too long, the report is a message about this.
fn put_report(alloc: Global, bytes: &[u8], out: &mut AnswerWriter) {
    if bytes.len() > LONGEST_FILE {
        return out.put(b"file too long\n");
    }
    match split_lines(alloc, bytes) {
        Ok(lines) => put_rows(alloc, &lines, out),
        Err(AllocError) => out.leave_out(),
    }
}

// Appends the rows of lines and their numbers.
fn put_rows(alloc: Global, lines: &Lines, out: &mut AnswerWriter) {
    let mut counts = RowCounts {
        entries: 0,
        refusals: 0,
    };
    for place in 0..lines.len() {
        let Some(line) = lines.get(place) else {
            break;
        };
        counts.put_line(alloc, line.number, line.text.as_bytes(), out);
    }
    out.put_count(counts.entries, b" lines, ");
    out.put_count(counts.refusals, b" refused\n");
}

impl RowCounts {
    // Appends the row of a line if it is a definition or a list.
    fn put_line(&mut self, alloc: Global, number: u32, line: &[u8], out: &mut AnswerWriter) {
        match classify(line) {
            LineKind::Definition | LineKind::UnitList => self.put_row(alloc, number, line, out),
            _ => (),
        }
    }

    // Appends the row of a definition or a list: its line number, and its entry or the reason why it is refused.
    fn put_row(&mut self, alloc: Global, number: u32, line: &[u8], out: &mut AnswerWriter)
        requires { has_entry (kind_of_line line.now) ≡ true }
    {
        self.entries = self.entries.saturating_add(1);
        out.put_count(number as usize, b": ");
        match read_entry(alloc, line) {
            Ok((key, what)) => put_entry(alloc, out, &key, &what, line),
            Err(fault) => self.put_refusal(alloc, fault, out),
        }
        out.put(b"\n");
    }

    // Appends the reason why a line is refused.
    fn put_refusal(&mut self, alloc: Global, fault: EntryFault, out: &mut AnswerWriter) {
        self.refusals = self.refusals.saturating_add(1);
        out.put(b"refused: ");
        put_entry_refusal(alloc, fault, out);
    }
}
