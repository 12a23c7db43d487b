//! Blanks at the ends of a text.
ghost use Rattle.std.specs.Prelude.{◌≡◌, ◌≤◌, length, take};
ghost use Rattle.std.specs.List as lists;
ghost use Rattle.units_io.specs.Blanks as blanks;
ghost use Rattle.def_lines.specs.Blanks.{after_blanks, before_blanks, trimmed_of_blanks};

use units_io::{is_blank, prefix_len};

/// Returns the text without the blanks at both ends.
pub fn trim(text: &[u8]) -> &[u8]
    ensures { result.now ≡ trimmed_of_blanks text.now }
{
    trim_front(trim_end(text))
}

/// Returns the text without leading blanks.
#[tactic(auto, using(crate::proofs::TrimmedTexts::leading_blanks_are_passed_over))]
pub fn trim_front(text: &[u8]) -> &[u8]
    ensures { result.now ≡ after_blanks text.now }
{
    let (_, rest) = text.split_at(blank_len(text));
    rest
}

// Returns the number of leading blanks.
fn blank_len(text: &[u8]) -> usize
    ensures is { result ≡ lists.prefix_len blanks.is_blank_text_byte text.now }
    ensures within { result ≤ length text.now }
{
    prefix_len(text, |byte| is_blank(byte))
}

// Returns the text without trailing blanks.
pub(crate) fn trim_end(text: &[u8]) -> &[u8]
    ensures { result.now ≡ before_blanks text.now }
{
    &text[..kept_len(text)]
}

// Returns the length of the text without its trailing blanks.
pub(crate) fn kept_len(text: &[u8]) -> usize
    ensures is { take result text.now ≡ before_blanks text.now }
    ensures within { result ≤ length text.now }
{
    let mut len = text.len();
    while len > 0 && is_blank(text[len - 1]) {
        len -= 1;
    }
    len
}
