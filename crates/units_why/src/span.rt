//! Locates marks in lines.

use crate::mark::Mark;
use crate::text_part::{cut_line, part_of};
use def_lines::clean;
use units_io::{is_blank, prefix_len};

// The bytes of expressions that end a word.
const SIGNS: &[u8] = b"+-*/|^;~#()[]";

/// A range of bytes in a line, counted from 0.
#[derive(Clone, Copy)]
pub(crate) struct Span {
    /// The number of lines between the first line and this one.
    pub(crate) below: usize,
    pub(crate) start: usize,
    pub(crate) end: usize,
}

impl Span {
    /// Returns an empty range at the start of a line.
    pub(crate) fn nowhere() -> Span {
        span_in_line(0, 0)
    }
}

/// Returns the place of `mark` in a text that begins with the line of the definition. Falls back to the place of the
/// name if the word does not occur, or if the byte is not in the first line.
pub(crate) fn span_of(text: &[u8], mark: &Mark) -> Span {
    let (line, _) = cut_line(text);
    let line = clean(line);
    let name = name_span(line);
    let found = match mark {
        Mark::Name => None,
        Mark::Word(word) => word_span(text, name.end, word.as_bytes()),
        Mark::Byte(place) => byte_span(line, name.end, *place),
    };
    found.unwrap_or(name)
}

// Returns the place of the name that a line defines, or of the word of its directive.
fn name_span(line: &[u8]) -> Span {
    let start = after_blanks(line, 0);
    if let Some(rest) = part_of(line, start, line.len()).strip_prefix(b"!".as_slice()) {
        let directive = after_blanks(rest, 0);
        let end = word_end(rest, directive);
        let mark = start.saturating_add(1);
        if part_of(rest, directive, end) != b"unitlist".as_slice() {
            return span_in_line(start, mark.saturating_add(end));
        }
        let name = after_blanks(rest, end);
        return span_in_line(
            mark.saturating_add(name),
            mark.saturating_add(word_end(rest, name)),
        );
    }
    let start = if part_of(line, start, line.len()).starts_with(b"+".as_slice()) {
        after_blanks(line, start.saturating_add(1))
    } else {
        start
    };
    span_in_line(start, name_end(line, start))
}

fn span_in_line(start: usize, end: usize) -> Span {
    Span {
        below: 0,
        start,
        end,
    }
}

// Returns the first place at or after `from` without a blank.
fn after_blanks(line: &[u8], from: usize) -> usize {
    let rest = part_of(line, from, line.len());
    from.saturating_add(prefix_len(rest, |byte| is_blank(byte)))
}

// Returns the end of the word that begins at `from`.
fn word_end(line: &[u8], from: usize) -> usize {
    let rest = part_of(line, from, line.len());
    from.saturating_add(prefix_len(rest, |byte| !is_blank(byte)))
}

// Returns the end of the name that begins at `from`.
fn name_end(line: &[u8], from: usize) -> usize {
    let rest = part_of(line, from, line.len());
    let len = prefix_len(rest, |byte| {
        !is_blank(byte) && byte != b'(' && byte != b'['
    });
    from.saturating_add(len)
}

// Returns the place of a byte in the definition of a unit or a prefix whose name ends at `name_end`.
fn byte_span(line: &[u8], name_end: usize, place: usize) -> Option<Span> {
    let rest = part_of(line, name_end, line.len());
    if rest.starts_with(b"(".as_slice()) || rest.starts_with(b"[".as_slice()) {
        return None;
    }
    let start = after_blanks(line, name_end).saturating_add(place);
    if start <= line.len() {
        Some(span_in_line(start, start.saturating_add(1)))
    } else {
        None
    }
}

// Returns the first place of a word at or after `from` in the line, or in the lines that continue it.
fn word_span(text: &[u8], from: usize, word: &[u8]) -> Option<Span> {
    let mut rest = text;
    let mut from = from;
    for below in 0..text.len() {
        let (line, after) = cut_line(rest);
        let line = clean(line);
        let code = line.strip_suffix(b"\\".as_slice()).unwrap_or(line);
        if let Some(start) = place_of_word(code, from, word) {
            return Some(Span {
                below,
                start,
                end: start.saturating_add(word.len()),
            });
        }
        if line.last() != Some(&b'\\') {
            return None;
        }
        rest = after;
        from = 0;
    }
    None
}

// Returns the first place of a word at or after `from`.
fn place_of_word(line: &[u8], from: usize, word: &[u8]) -> Option<usize> {
    let mut start = from;
    for at in from..line.len() {
        if is_word_byte(line[at]) {
            continue;
        }
        if let Some(place) = place_in_run(part_of(line, start, at), word) {
            return Some(start.saturating_add(place));
        }
        start = at.saturating_add(1);
    }
    let place = place_in_run(part_of(line, start, line.len()), word)?;
    Some(start.saturating_add(place))
}

// Returns the place of a word in a run of word bytes: alone or after a numeral, and with or without the digit of a
// power.
fn place_in_run(run: &[u8], word: &[u8]) -> Option<usize> {
    let numeral = prefix_len(run, |byte| byte.is_ascii_digit() || byte == b'.');
    for start in [0, numeral] {
        if is_word_with_power(part_of(run, start, run.len()), word) {
            return Some(start);
        }
    }
    None
}

fn is_word_with_power(text: &[u8], word: &[u8]) -> bool {
    match text.strip_prefix(word) {
        Some([]) => true,
        Some([digit]) => digit.is_ascii_digit(),
        _ => false,
    }
}

// Returns whether a byte may be in a word of an expression.
fn is_word_byte(byte: u8) -> bool {
    let is_sign = SIGNS.iter().any(|sign| *sign == byte);
    !is_sign && !is_blank(byte) && !byte.is_ascii_control()
}
