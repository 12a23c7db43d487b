//! Writes findings with their places, in order.

use crate::entries::key_text_at;
use crate::finding::{FindingView, LineFinding, Spot, put_finding_json, put_finding_text};
use crate::open_file::OpenFile;
use crate::places::Places;
use crate::span::{Span, span_of};
use crate::writer::Writer;
use std::alloc::{AllocError, Global};
use units_io::Files;

/// A report: the places of its findings, and whether it is JSON.
#[derive(Clone, Copy)]
pub(crate) struct Report<'a> {
    pub(crate) alloc: Global,
    pub(crate) places: Places<'a>,
    pub(crate) json: bool,
}

impl Report<'_> {
    /// Appends a finding.
    pub(crate) fn put(self, out: &mut Writer, view: FindingView<'_>) {
        if self.json {
            put_finding_json(out, view);
        } else {
            put_finding_text(out, view);
        }
    }
}

/// Appends findings in the order of the files and their lines.
pub(crate) fn put_findings<F: Files>(
    report: Report<'_>,
    files: &mut F,
    findings: &[LineFinding],
    out: &mut Writer,
) -> Result<(), AllocError> {
    let order = order_of(report, findings)?;
    let mut open = OpenFile::none(report.alloc);
    for (number, _, index) in order.as_slice() {
        if let Some(found) = findings.get(*index) {
            let spot = open.spot_of(report, files, *number, found)?;
            put_line_finding(report, out, spot, found)?;
        }
    }
    Ok(())
}

// Returns the file number, the place and the index of each finding, sorted.
fn order_of(
    report: Report<'_>,
    findings: &[LineFinding],
) -> Result<Vec<(usize, usize, usize)>, AllocError> {
    let mut order = Vec::new(report.alloc);
    for index in 0..findings.len() {
        let place = findings[index].place;
        order.push((report.places.file_number(place), place, index))?;
    }
    order.sort_unstable();
    Ok(order)
}

impl OpenFile {
    // Opens the file with this number, which contains a finding, and returns the spot of the finding.
    fn spot_of<'a, F: Files>(
        &mut self,
        report: Report<'a>,
        files: &mut F,
        number: usize,
        found: &LineFinding,
    ) -> Result<Option<Spot<'a>>, AllocError> {
        let Some(line) = report.places.line(found.place) else {
            return Ok(None);
        };
        self.open(report.alloc, files, report.places, number, line.file)?;
        let span = span_of(self.text_from(line.number), &found.finding.mark);
        Ok(Some(spot_in(line.file, line.number, span)))
    }
}

/// Returns the spot of a mark, given its span relative to `line`.
pub(crate) fn spot_in(file: &[u8], line: usize, span: Span) -> Spot<'_> {
    Spot {
        file,
        line: line.saturating_add(span.below),
        column: span.start.saturating_add(1),
        end: span.end.saturating_add(1),
    }
}

fn put_line_finding(
    report: Report<'_>,
    out: &mut Writer,
    spot: Option<Spot<'_>>,
    found: &LineFinding,
) -> Result<(), AllocError> {
    let key = key_text_at(report.alloc, report.places.deck, found.place)?;
    let view = FindingView {
        spot,
        key: key.as_bytes(),
        finding: &found.finding,
    };
    report.put(out, view);
    Ok(())
}
