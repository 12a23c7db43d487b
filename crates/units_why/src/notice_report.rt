//! Writes the notices of the load as findings.

use crate::finding::FindingView;
use crate::notice::{Notice, notice_finding, read_notice};
use crate::open_file::OpenFile;
use crate::report::{Report, spot_in};
use crate::span::{Span, span_of};
use crate::writer::Writer;
use std::alloc::{AllocError, Global};
use std::cmp::Ordering;
use units_io::{Files, Text};

// A notice and its index.
#[derive(Clone, Copy)]
struct NumberedNotice<'a> {
    notice: Notice<'a>,
    index: usize,
}

// The open file of a notice, and the number of the file.
#[derive(Drop)]
struct NoticeFile<'a> {
    open: OpenFile,
    number: usize,
    name: &'a [u8],
}

/// Appends the notices of the load, in the order in which they were reported.
pub(crate) fn put_notices<F: Files>(
    report: Report<'_>,
    files: &mut F,
    out: &mut Writer,
) -> Result<(), AllocError> {
    let notices = report.places.deck.notices().as_slice();
    let spans = notice_spans(report, files, notices)?;
    for index in 0..notices.len() {
        put_notice(report, out, notices[index].as_bytes(), spans.get(index))?;
    }
    Ok(())
}

// Appends a notice. Its place is unknown if its text contains none.
fn put_notice(
    report: Report<'_>,
    out: &mut Writer,
    text: &[u8],
    span: Option<&Span>,
) -> Result<(), AllocError> {
    let (message, spot) = match (read_notice(text), span) {
        (Some(notice), Some(span)) => {
            let spot = spot_in(notice.file, notice.line, *span);
            (notice.message, Some(spot))
        }
        _ => (text, None),
    };
    let finding = notice_finding(report.alloc, message)?;
    let view = FindingView {
        spot,
        key: b"".as_slice(),
        finding: &finding,
    };
    report.put(out, view);
    Ok(())
}

// Returns the span of the error for each notice. Reads each file once.
fn notice_spans<F: Files>(
    report: Report<'_>,
    files: &mut F,
    notices: &[Text],
) -> Result<Vec<Span>, AllocError> {
    let mut spans = Vec::new(report.alloc);
    spans.resize(notices.len(), Span::nowhere())?;
    let order = order_of(report.alloc, notices)?;
    let mut file = NoticeFile {
        open: OpenFile::none(report.alloc),
        number: 0,
        name: b"".as_slice(),
    };
    for each in order.as_slice() {
        let span = file.span_of(report, files, each.notice)?;
        if each.index < spans.len() {
            spans[each.index] = span;
        }
    }
    Ok(spans)
}

// Returns the notices with places, in the order of the files and their lines.
fn order_of(alloc: Global, notices: &[Text]) -> Result<Vec<NumberedNotice<'_>>, AllocError> {
    let mut order = Vec::new(alloc);
    for index in 0..notices.len() {
        if let Some(notice) = read_notice(notices[index].as_bytes()) {
            order.push(NumberedNotice { notice, index })?;
        }
    }
    order.sort_unstable_by(|a, b| compare(a, b));
    Ok(order)
}

fn compare(one: &NumberedNotice<'_>, other: &NumberedNotice<'_>) -> Ordering {
    let files = one.notice.file.cmp(other.notice.file);
    files
        .then(one.notice.line.cmp(&other.notice.line))
        .then(one.index.cmp(&other.index))
}

impl<'a> NoticeFile<'a> {
    // Opens the file of a notice, unless it is the same as that of the last one, and returns the span of the error.
    fn span_of<F: Files>(
        &mut self,
        report: Report<'_>,
        files: &mut F,
        notice: Notice<'a>,
    ) -> Result<Span, AllocError> {
        if notice.file != self.name {
            self.number = self.number.saturating_add(1);
            self.name = notice.file;
        }
        let open = &mut self.open;
        open.open(report.alloc, files, report.places, self.number, self.name)?;
        let finding = notice_finding(report.alloc, notice.message)?;
        Ok(span_of(open.text_from(notice.line), &finding.mark))
    }
}
