//! Finds the segment of a table of points that contains a number.

use def_entry::cut_at;
use def_lines::{cut_word, trim, trim_front};
use frac128::{Frac, read_numeral};
use piecewise::{Points, PointsFault, TableFault};
use std::alloc::{AllocError, Global};
use units_io::Text;

/// Two neighbouring points of a table, as they are written there.
pub(crate) struct Segment {
    pub(crate) left: Point,
    pub(crate) right: Point,
}

// Written by hand, so that code that drops a segment need not prove anything about its contents.
impl Drop for Segment {
    fn drop(self) {
        let Segment { left: _, right: _ } = self;
    }
}

/// A point of a table.
pub(crate) struct Point {
    pub(crate) x: Text,
    pub(crate) y: Text,
}

// Written by hand, so that code that drops a point need not prove anything about its contents.
impl Drop for Point {
    fn drop(self) {
        let Point { x: _, y: _ } = self;
    }
}

// The words of a point, and their numbers.
#[derive(Clone, Copy, Drop)]
struct WrittenPoint<'a> {
    x: &'a [u8],
    y: &'a [u8],
    at: (Frac, Frac),
}

// The coordinate that is searched.
#[derive(Clone, Copy)]
enum Axis {
    X,
    Y,
}

/// Returns the first segment in the text of a table whose x coordinates enclose `x`.
pub(crate) fn segment_at(
    alloc: Global,
    text: &[u8],
    x: &Frac,
) -> Result<Option<Segment>, AllocError> {
    segment_by(alloc, text, Axis::X, x)
}

/// Returns the first segment in the text of a table whose y coordinates enclose `y`.
pub(crate) fn segment_back(
    alloc: Global,
    text: &[u8],
    y: &Frac,
) -> Result<Option<Segment>, AllocError> {
    segment_by(alloc, text, Axis::Y, y)
}

fn segment_by(
    alloc: Global,
    text: &[u8],
    axis: Axis,
    number: &Frac,
) -> Result<Option<Segment>, AllocError> {
    let Some((_, list)) = cut_at(text, b']') else {
        return Ok(None);
    };
    let mut rest = without_no_error(trim_front(list));
    let mut before = None;
    // Each point has at least one byte.
    for _ in 0..list.len() {
        let Some((point, after)) = first_point(rest) else {
            return Ok(None);
        };
        if let Some(left) = &before {
            if holds(alloc, left, &point, axis, number)? {
                return Ok(Some(copied_segment(alloc, left, &point)?));
            }
        }
        before = Some(point);
        rest = after;
    }
    Ok(None)
}

fn without_no_error(text: &[u8]) -> &[u8] {
    text.strip_prefix(b"noerror".as_slice()).unwrap_or(text)
}

// Returns the first point of a list and the text after it.
fn first_point(text: &[u8]) -> Option<(WrittenPoint<'_>, &[u8])> {
    let text = trim_front(text);
    let text = trim_front(text.strip_prefix(b",".as_slice()).unwrap_or(text));
    let (x, after) = first_number(text);
    let (y, after) = first_number(trim_front(after));
    let at = (number_of(x)?, number_of(y)?);
    Some((WrittenPoint { x, y, at }, after))
}

// Returns the first word, without a comma at its end, and the text after it.
fn first_number(text: &[u8]) -> (&[u8], &[u8]) {
    let (word, after) = cut_word(text);
    match cut_at(word, b',') {
        Some((number, _)) => text.split_at(number.len().min(text.len())),
        None => (trim(word), after),
    }
}

// Returns the number of a word: an optional sign, then a numeral or two numerals with `|` between them.
fn number_of(word: &[u8]) -> Option<Frac> {
    let (is_negative, digits) = match word.split_first()? {
        (b'-', digits) => (true, digits),
        (b'+', digits) => (false, digits),
        _ => (false, word),
    };
    let number = match cut_at(digits, b'|') {
        Some((top, bottom)) => numeral(top)?.div(&numeral(bottom)?).ok()?,
        None => numeral(digits)?,
    };
    Some(if is_negative { number.negate() } else { number })
}

fn numeral(digits: &[u8]) -> Option<Frac> {
    read_numeral(digits).ok()?.value().ok()
}

// Returns whether a segment contains a number: whether a table of its two points alone has a value there.
fn holds(
    alloc: Global,
    left: &WrittenPoint<'_>,
    right: &WrittenPoint<'_>,
    axis: Axis,
    number: &Frac,
) -> Result<bool, AllocError> {
    let points = match Points::new(alloc, &[left.at, right.at]) {
        Ok(points) => points,
        Err(PointsFault::OutOfMemory) => return Err(AllocError),
        Err(PointsFault::BadPoints) => return Ok(false),
    };
    let found = match axis {
        Axis::X => points.at(number),
        Axis::Y => points.back(number),
    };
    match found {
        Err(TableFault::OutsideTable) => Ok(false),
        _ => Ok(true),
    }
}

fn copied_segment(
    alloc: Global,
    left: &WrittenPoint<'_>,
    right: &WrittenPoint<'_>,
) -> Result<Segment, AllocError> {
    Ok(Segment {
        left: copied_point(alloc, left)?,
        right: copied_point(alloc, right)?,
    })
}

fn copied_point(alloc: Global, written: &WrittenPoint<'_>) -> Result<Point, AllocError> {
    Ok(Point {
        x: Text::from_bytes(alloc, written.x)?,
        y: Text::from_bytes(alloc, written.y)?,
    })
}
