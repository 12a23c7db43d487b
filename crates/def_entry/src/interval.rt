//! Intervals of numbers.

ghost use Rattle.std.specs.Prelude.{◌≡◌, ◌<◌, length, option_map, IfSome};
ghost use Rattle.std.specs.List.{position};
ghost use Rattle.def_entry.specs.Intervals as spec;
ghost use Rattle.def_entry.specs.LineViews.{seen_entry_part_and_rest, seen_option_closing};

use crate::cuts::cut_at;
use crate::entry::{Bound, Span};
use crate::number::number;
use def_lines::trim;

// The parts of a text with a closing bracket: the text before the bracket, whether the bracket is `]`, and the text
// after it.
#[derive(Clone, Copy)]
struct Closing<'a> {
    before: &'a [u8],
    is_square: bool,
    behind: &'a [u8],
}

// Returns the interval at the front and the text after it.
#[tactic(auto, unfolding(crate::specs::Intervals::interval_at))]
pub(crate) fn interval_at(text: &[u8]) -> Option<(Span, &[u8])>
    ensures { option_map seen_entry_part_and_rest result ≡ spec.interval_at text.now }
{
    let (low_closed, inside) = read_opening(text)?;
    let (low, behind) = cut_at(inside, b',')?;
    let end = read_closing(behind)?;
    let low = bound_in(low_closed, trim(low))?;
    let high = bound_in(end.is_square, trim(end.before))?;
    Some((Span { low, high }, end.behind))
}

// Returns whether the bracket at the front is `[`, and the text after it.
fn read_opening(text: &[u8]) -> Option<(bool, &[u8])>
    ensures { option_map seen_entry_part_and_rest result ≡ spec.option_opening_bracket text.now }
{
    match text.split_first()? {
        (b'[', behind) => Some((true, behind)),
        (b'(', behind) => Some((false, behind)),
        _ => None,
    }
}

// Returns the text before the first `]` or `)`, whether that bracket is `]`, and the text after it.
fn read_closing(text: &[u8]) -> Option<Closing<'_>>
    ensures { option_map seen_option_closing result ≡ spec.option_closing_bracket text.now }
{
    match closing_place(text) {
        Some(place) => Some(Closing {
            before: &text[..place],
            is_square: text[place] == b']',
            behind: &text[place + 1..],
        }),
        None => None,
    }
}

// Returns the index of the first `]` or `)`.
fn closing_place(text: &[u8]) -> Option<usize>
    ensures is { result ≡ position spec.is_closing text.now }
    ensures within { IfSome result (λ place. place < length text.now) }
{
    text.iter().position(|byte| is_closing(*byte))
}

// Reports whether the byte is `]` or `)`.
fn is_closing(byte: u8) -> bool
    ensures { result ≡ spec.is_closing byte }
{
    byte == b']' || byte == b')'
}

// Returns the bound, which is absent if the text is empty. Returns `None` if the text is neither empty nor a number.
fn bound_in(closed: bool, text: &[u8]) -> Option<Option<Bound>>
    ensures { result ≡ spec.bound_in closed text.now }
{
    if text.is_empty() {
        return Some(None);
    }
    let at = number(text)?;
    Some(Some(Bound { at, closed }))
}
