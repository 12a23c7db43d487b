//! Parts of texts.

/// Returns the bytes from `start` to `end`, or an empty slice if these are not places in `text`.
pub(crate) fn part_of(text: &[u8], start: usize, end: usize) -> &[u8] {
    if start <= end && end <= text.len() {
        &text[start..end]
    } else {
        b"".as_slice()
    }
}

/// Returns the first line of a text, and the text after its line feed.
pub(crate) fn cut_line(text: &[u8]) -> (&[u8], &[u8]) {
    let Some(len) = text.iter().position(|byte| *byte == b'\n') else {
        return (text, b"".as_slice());
    };
    let (line, rest) = text.split_at(len);
    (line, part_of(rest, 1, rest.len()))
}
