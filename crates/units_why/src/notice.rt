//! Conversion of the notices of a deck to findings.

use crate::finding::{Finding, Severity};
use crate::mark::mark_of;
use std::alloc::{AllocError, Global};
use std::str;
use units_io::{Text, prefix_len};

/// The parts of a notice `FILE:LINE: MESSAGE`.
#[derive(Clone, Copy)]
pub(crate) struct Notice<'a> {
    pub(crate) file: &'a [u8],
    pub(crate) line: usize,
    pub(crate) message: &'a [u8],
}

/// Splits a notice at the first `:LINE: ` into its parts. Returns `None` if the text contains no `:LINE: `.
pub(crate) fn read_notice(text: &[u8]) -> Option<Notice<'_>> {
    for at in 0..text.len() {
        let (file, rest) = text.split_at(at);
        if let Some((line, message)) = read_line_number(rest) {
            return Some(Notice {
                file,
                line,
                message,
            });
        }
    }
    None
}

// Returns the number and the rest of a text that begins with `:NUMBER: `.
fn read_line_number(text: &[u8]) -> Option<(usize, &[u8])> {
    let (mark, digits) = text.split_first()?;
    if *mark != b':' {
        return None;
    }
    let (number, rest) = digits.split_at(prefix_len(digits, |byte| byte.is_ascii_digit()));
    let number = str::from_utf8(number).ok()?.parse::<usize>().ok()?;
    let message = rest.strip_prefix(b": ".as_slice())?;
    Some((number, message))
}

/// Returns the finding for a line that has no effect.
pub(crate) fn notice_finding(alloc: Global, message: &[u8]) -> Result<Finding, AllocError> {
    Ok(Finding {
        severity: Severity::Error,
        message: Text::from_bytes(alloc, message)?,
        mark: mark_of(alloc, b"", message)?,
    })
}
