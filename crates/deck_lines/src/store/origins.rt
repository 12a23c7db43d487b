//! The origin of each line after an exchange.

ghost use Rattle.std.specs.Prelude.{◌≡◌, ◌≤◌, ◌<◌, ◌+◌, List, Some, length, slice_get};
ghost use Rattle.deck_lines.specs.Origins.{exchanged_store_lines, store_line_from_origin};
ghost use Rattle.deck_lines.specs.declared.line.DeckLine as line_spec;

use super::line_store::LineStore;
use crate::line::{BorrowedLine, DeckLine};

/// The origin of a line after an exchange.
#[derive(Clone, Copy)]
pub(crate) enum Origin {
    /// It was at this place of the store before.
    Stored(usize),
    /// It is at this place among the inserted lines.
    Put(usize),
    /// The place is past the last line.
    Past,
}

/// Returns the origin of the line at `place` after the `cut` lines from `at` on, of `count` lines, were replaced by
/// `put` others.
pub(crate) fn origin_of(count: usize, at: usize, cut: usize, put: usize, place: usize) -> Origin
    requires { at + cut ≤ count }
    ensures { (lines others : List line_spec.DeckLine) → length lines ≡ count → length others ≡ put
        → slice_get (exchanged_store_lines at cut others lines) place ≡ store_line_from_origin lines others result }
{
    if place < at {
        return Origin::Stored(place);
    }
    let past_front = place - at;
    if past_front < put {
        return Origin::Put(past_front);
    }
    let past_put = past_front - put;
    if count - (at + cut) <= past_put {
        return Origin::Past;
    }
    Origin::Stored(at + cut + past_put)
}

/// Returns the line at `place` as if the `cut` lines from `at` on were replaced by `put`.
pub(crate) fn line_at<'a>(
    store: &'a LineStore,
    at: usize,
    cut: usize,
    put: &'a [DeckLine],
    place: usize,
) -> BorrowedLine<'a>
    requires places { at + cut ≤ length store.now.lines }
    requires inside { place < length (exchanged_store_lines at cut put.now store.now.lines) }
    ensures { slice_get (exchanged_store_lines at cut put.now store.now.lines) place
        ≡ Some (record { number = result.number; text = result.text.now; mark = result.mark }) }
{
    match origin_of(store.len(), at, cut, put.len(), place) {
        Origin::Stored(place) => store.line(place),
        Origin::Put(place) => put[place].borrow_line(),
        Origin::Past => unreachable!(),
    }
}
