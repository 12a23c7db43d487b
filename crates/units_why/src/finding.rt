//! Findings in definitions, and their output formats.

use crate::decimal::{put_number, put_number_between};
use crate::json::{put_first_member, put_number_member, put_text_member};
use crate::mark::Mark;
use crate::writer::Writer;
use std::alloc::AllocError;
use units_io::Text;

/// The severity of a finding.
#[derive(Clone, Copy, Drop)]
pub(crate) enum Severity {
    /// A definition has no value, or a line has no effect.
    Error,
    /// A definition has a value or an effect that is probably not the intended one.
    Warning,
    /// A definition may be as intended.
    Information,
}

impl Severity {
    fn word(self) -> &'static [u8] {
        match self {
            Severity::Error => b"error",
            Severity::Warning => b"warning",
            Severity::Information => b"information",
        }
    }
}

/// The place of a finding, which is the place of its mark.
#[derive(Clone, Copy)]
pub(crate) struct Spot<'a> {
    pub(crate) file: &'a [u8],
    pub(crate) line: usize,
    /// The start and the end of the part at fault, in bytes from 1.
    pub(crate) column: usize,
    pub(crate) end: usize,
}

/// A finding about a line.
pub(crate) struct Finding {
    pub(crate) severity: Severity,
    pub(crate) message: Text,
    /// The part of the line that is at fault.
    pub(crate) mark: Mark,
}

// Written by hand, so that code that drops a finding need not prove anything about its contents.
impl Drop for Finding {
    fn drop(self) {
        let Finding {
            severity: _,
            message: _,
            mark: _,
        } = self;
    }
}

/// A finding with its line in the deck.
pub(crate) struct LineFinding {
    pub(crate) place: usize,
    pub(crate) finding: Finding,
}

// Written by hand, so that code that drops a line finding need not prove anything about its contents.
impl Drop for LineFinding {
    fn drop(self) {
        let LineFinding {
            place: _,
            finding: _,
        } = self;
    }
}

/// A finding with its place, and the text of the key that its line defines, which is empty if there is none.
#[derive(Clone, Copy)]
pub(crate) struct FindingView<'a> {
    pub(crate) spot: Option<Spot<'a>>,
    pub(crate) key: &'a [u8],
    pub(crate) finding: &'a Finding,
}

/// Appends a finding about the line at `place`.
pub(crate) fn push_finding(
    findings: &mut Vec<LineFinding>,
    place: usize,
    finding: Finding,
) -> Result<(), AllocError> {
    Ok(findings.push(LineFinding { place, finding })?)
}

/// Appends `FILE:LINE:COLUMN: KEY: message`, without the place or the key if there is none.
pub(crate) fn put_finding_text(out: &mut Writer, view: FindingView<'_>) {
    if let Some(spot) = view.spot {
        put_spot(out, spot);
    }
    if !view.key.is_empty() {
        out.put(view.key);
        out.put(b": ");
    }
    out.put(view.finding.message.as_bytes());
    out.put_byte(b'\n');
}

fn put_spot(out: &mut Writer, spot: Spot<'_>) {
    out.put(spot.file);
    out.put_byte(b':');
    put_number(out, spot.line);
    put_number_between(out, b':', spot.column, [b':', b' ']);
}

/// Appends a finding as a JSON object on a line of its own.
pub(crate) fn put_finding_json(out: &mut Writer, view: FindingView<'_>) {
    put_first_member(out, b"severity", view.finding.severity.word());
    if let Some(spot) = view.spot {
        put_spot_members(out, spot);
    }
    if !view.key.is_empty() {
        put_text_member(out, b"key", view.key);
    }
    put_text_member(out, b"message", view.finding.message.as_bytes());
    out.put(b"}\n");
}

fn put_spot_members(out: &mut Writer, spot: Spot<'_>) {
    put_text_member(out, b"file", spot.file);
    put_number_member(out, b"line", spot.line);
    put_number_member(out, b"column", spot.column);
    put_number_member(out, b"end", spot.end);
}
