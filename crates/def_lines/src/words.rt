//! The words of a text, which are separated by blanks.

ghost use Rattle.std.specs.Prelude.{◌≡◌, ◌≤◌, length};
ghost use Rattle.std.specs.List.{list_any, position_or_len};
ghost use Rattle.units_io.specs.Blanks as blanks;
ghost use Rattle.def_lines.specs.Words as spec;

use crate::blanks::{trim, trim_front};
use units_io::{is_blank, prefix_len};

/// Returns the text before the first blank, or all of it if there is none, and the text after that, trimmed.
pub fn split_word(text: &[u8]) -> (&[u8], &[u8])
    ensures word { result.0.now ≡ spec.first_word_before_blank text.now }
    ensures behind { result.1.now ≡ spec.after_word_trimmed_of_blanks text.now }
{
    let (word, behind) = text.split_at(word_len(text));
    (word, trim(behind))
}

/// Returns the text before the first blank, or all of it if there is none, and the text after that, without leading
/// blanks.
pub fn cut_word(text: &[u8]) -> (&[u8], &[u8])
    ensures word { result.0.now ≡ spec.first_word_before_blank text.now }
    ensures behind { result.1.now ≡ spec.after_word_and_blanks text.now }
{
    let (word, behind) = text.split_at(word_len(text));
    (word, trim_front(behind))
}

/// Reports whether the value is one of the words of a text.
pub fn listed(values: &[u8], value: &[u8]) -> bool
    ensures { result ≡ spec.is_listed values.now value.now }
{
    let mut rest = trim_front(values);
    while !rest.is_empty() {
        let (word, behind) = cut_word(rest);
        if word == value {
            return true;
        }
        rest = behind;
    }
    false
}

// Reports whether the text is a single word.
pub(crate) fn is_word(text: &[u8]) -> bool
    ensures { result ≡ spec.is_word text.now }
{
    !text.is_empty() && !has_blank(text)
}

// Reports whether the bytes contain a blank.
fn has_blank(text: &[u8]) -> bool
    ensures { result ≡ list_any blanks.is_blank_text_byte text.now }
{
    text.iter().any(|byte| is_blank(*byte))
}

// Returns the index of the first blank, or the length if there is none.
fn word_len(text: &[u8]) -> usize
    ensures is { result ≡ position_or_len blanks.is_blank_text_byte text.now }
    ensures within { result ≤ length text.now }
{
    prefix_len(text, |byte| !is_blank(byte))
}
