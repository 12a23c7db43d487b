//! The head of a line: the kind of its key, its name, and the text after the name.

ghost use Rattle.std.specs.Prelude.{◌≡◌, ◌≤◌, length};
ghost use Rattle.std.specs.List.{position_or_len};
ghost use Rattle.def_entry.specs.Headings as spec;
ghost use Rattle.def_entry.specs.LineViews.{seen_heading};

use crate::key::Kind;
use def_lines::{split_word, trim, trim_front};
use units_io::{is_blank, prefix_len};

// The kind of the key of a line, its name, and the text of its entry.
#[derive(Clone, Copy)]
pub(crate) struct Heading<'a> {
    pub kind: Kind,
    pub name: &'a [u8],
    pub text: &'a [u8],
}

// Returns the head of a line. One leading `+` and the blanks after it are ignored.
#[tactic(auto, unfolding(crate::specs::Headings::heading_of_line))]
pub(crate) fn heading_in(line: &[u8]) -> Heading<'_>
    ensures { seen_heading result ≡ spec.heading_of_line line.now }
{
    match line.split_first() {
        Some((b'!', directive)) => list_heading(directive),
        Some((b'+', behind)) => definition_heading(trim_front(behind)),
        _ => definition_heading(line),
    }
}

// Returns the head of a line that defines a list, given the text after its `!`.
fn list_heading(directive: &[u8]) -> Heading<'_>
    ensures { seen_heading result ≡ spec.list_heading directive.now }
{
    let (_, rest) = split_word(trim_front(directive));
    let (name, text) = split_word(rest);
    Heading {
        kind: Kind::List,
        name,
        text,
    }
}

// Returns the head of a line that defines a unit, a prefix or a function.
fn definition_heading(line: &[u8]) -> Heading<'_>
    ensures { seen_heading result ≡ spec.definition_heading line.now }
{
    let (head, behind) = line.split_at(head_len(line));
    heading_of(head, behind)
}

// Returns the heading, given the head and the text after it.
fn heading_of<'a>(head: &'a [u8], behind: &'a [u8]) -> Heading<'a>
    ensures { seen_heading result ≡ spec.heading_of head.now behind.now }
{
    let text = trim(behind);
    if ends_in_minus(head) && stands_apart(behind) {
        return Heading {
            kind: Kind::Prefix,
            name: &head[..head.len() - 1],
            text,
        };
    }
    let kind = if is_opened(behind) {
        Kind::Func
    } else {
        Kind::Unit
    };
    Heading {
        kind,
        name: head,
        text,
    }
}

// Returns the index of the first blank, `(` or `[`, or the length if there is none.
fn head_len(line: &[u8]) -> usize
    ensures is { result ≡ position_or_len spec.ends_head line.now }
    ensures within { result ≤ length line.now }
{
    prefix_len(line, |byte| !ends_head(byte))
}

// Reports whether the byte is a blank, `(` or `[`.
fn ends_head(byte: u8) -> bool
    ensures { result ≡ spec.ends_head byte }
{
    is_blank(byte) || is_opening(byte)
}

// Reports whether the byte is `(` or `[`.
fn is_opening(byte: u8) -> bool
    ensures { result ≡ spec.is_opening byte }
{
    byte == b'(' || byte == b'['
}

// Reports whether the last byte is `-`.
fn ends_in_minus(head: &[u8]) -> bool
    ensures { result ≡ spec.ends_in_minus head.now }
{
    !head.is_empty() && head[head.len() - 1] == b'-'
}

// Reports whether the text is empty or starts with a blank.
pub(crate) fn stands_apart(text: &[u8]) -> bool
    ensures { result ≡ spec.stands_apart text.now }
{
    match text.split_first() {
        Some((first, _)) => is_blank(*first),
        None => true,
    }
}

// Reports whether the text starts with `(` or `[`.
fn is_opened(text: &[u8]) -> bool
    ensures { result ≡ spec.begins_with_entry_bracket text.now }
{
    match text.split_first() {
        Some((first, _)) => is_opening(*first),
        None => false,
    }
}
