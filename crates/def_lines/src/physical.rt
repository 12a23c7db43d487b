//! The physical lines of a file.

ghost use Rattle.std.specs.Prelude.{◌≡◌, ◌==◌, ◌≤◌, ◌<◌, ◌∷◌, length, true, false, MatchOption};
ghost use Rattle.std.specs.List as lists;
ghost use Rattle.def_lines.specs.Lines as spec;

use crate::blanks::{trim_end, trim_front};
use memchr::memchr;
use units_io::prefix_len;

// Returns the first physical line and the bytes after it.
pub(crate) fn next_line(bytes: &[u8]) -> (&[u8], &[u8])
    requires { 0 < length bytes.now }
    ensures lines { spec.physical_lines bytes.now ≡ result.0.now ∷ spec.physical_lines result.1.now }
    ensures shorter { length result.1.now < length bytes.now }
{
    let (line, rest) = bytes.split_at(place_of(bytes, b'\n'));
    match rest.split_first() {
        Some((_, behind)) => (line, behind),
        None => (line, rest),
    }
}

/// Returns a physical line without its final carriage return, then without `#` and the text after it, then without its
/// trailing blanks.
pub fn clean(line: &[u8]) -> &[u8]
    ensures { result.now ≡ spec.without_comment line.now }
{
    let line = strip_last(line, b'\r').unwrap_or(line);
    trim_end(&line[..place_of(line, b'#')])
}

/// Returns the content of a line on its own: without a final carriage return, then without `#` and the text after it,
/// then without outer blanks.
#[tactic(auto, unfolding(crate::specs::Lines::line_content))]
pub fn line_content(line: &[u8]) -> &[u8]
    ensures { result.now ≡ spec.line_content line.now }
{
    trim_front(clean(line))
}

// Returns the text without its last byte if that byte is this one, and `None` otherwise.
pub(crate) fn strip_last(text: &[u8], byte: u8) -> Option<&[u8]>
    ensures { MatchOption result
        (spec.line_ends_with byte text.now ≡ false)
        (λ rest. (spec.line_ends_with byte text.now ≡ true) × (rest.now ≡ spec.line_without_last_byte text.now)) }
{
    match text.split_last() {
        Some((last, rest)) if *last == byte => Some(rest),
        _ => None,
    }
}

// Returns the number of leading line feeds.
pub(crate) fn line_feed_count(bytes: &[u8]) -> usize
    ensures is { result ≡ lists.prefix_len (λ b. b == 10) bytes.now }
    ensures within { result ≤ length bytes.now }
{
    prefix_len(bytes, |byte| byte == b'\n')
}

// Returns the index of the first such byte, or the length if there is none.
fn place_of(text: &[u8], byte: u8) -> usize
    ensures is { result ≡ lists.position_or_len (λ b. b == byte) text.now }
    ensures within { result ≤ length text.now }
{
    memchr(byte, text).unwrap_or(text.len())
}
