//! The points of a table.

ghost use Rattle.std.specs.Prelude.{◌≡◌, ◌≤◌, ◌++◌, length, option_map};
ghost use Rattle.def_lines.specs.Words.{words_between_blanks};
ghost use Rattle.def_entry.specs.Outcomes.{GivesEntry, or_entry_fault};
ghost use Rattle.def_entry.specs.PointLists as spec;
ghost use Rattle.def_entry.specs.EntryReading.{point_pairs_in};

use crate::cuts::cut_at;
use crate::fault::EntryFault;
use crate::number::number;
use crate::options::{Choice, begins_with_no_error};
use def_lines::{cut_word, trim_front};
use frac128::Frac;
use piecewise::{Points, PointsFault};
use std::alloc::Global;

// The maximum number of points of a table.
const MOST_POINTS: usize = 1_000;

// Returns the table of a list of points.
pub(crate) fn table_points(alloc: Global, text: &[u8]) -> Result<Points, EntryFault>
    ensures { GivesEntry (λ points. points) result (point_pairs_in text.now) }
{
    let points = points_of(alloc, text)?;
    match Points::new(alloc, &points) {
        Ok(table) => Ok(table),
        Err(PointsFault::BadPoints) => Err(EntryFault::BadTable),
        Err(PointsFault::OutOfMemory) => Err(EntryFault::OutOfMemory),
    }
}

// Returns the points of a list, whose pairs may be separated by commas. The error is `BadTable` if there are more
// points than a table can have. No more points are read or stored than are needed to detect that.
fn points_of(alloc: Global, text: &[u8]) -> Result<Vec<(Frac, Frac)>, EntryFault>
    ensures { GivesEntry (λ points. points.items) result
        (or_entry_fault EntryFault.BadTable (spec.within_point_pair_limit (spec.points_of text.now))) }
{
    let mut points = Vec::new(alloc);
    let mut rest = behind_no_error(trim_front(text));
    while let Some((part, behind)) = cut_at(rest, b',') {
        push_some_pairs(&mut points, part)?;
        rest = behind;
    }
    push_pairs(&mut points, rest)?;
    Ok(points)
}

// Returns the text without a leading `noerror`.
fn behind_no_error(text: &[u8]) -> &[u8]
    ensures { result.now ≡ spec.behind_no_error text.now }
{
    if begins_with_no_error(text) {
        Choice::NoError.behind(text)
    } else {
        text
    }
}

// Appends the pairs of numbers in a text, of which there must be at least one, to the points.
fn push_some_pairs(points: &mut Vec<(Frac, Frac)>, text: &[u8]) -> Result<(), EntryFault>
    requires { length points.old.items ≤ spec.most_point_pairs }
    ensures { GivesEntry (λ done. points.new.items) result
        (or_entry_fault EntryFault.BadTable
        (spec.within_point_pair_limit (option_map (λ pairs. points.old.items ++ pairs)
        (spec.some_point_pairs (words_between_blanks text.now))))) }
{
    if trim_front(text).is_empty() {
        return Err(EntryFault::BadTable);
    }
    push_pairs(points, text)
}

// Appends the pairs of numbers in a text to the points, up to the maximum number of points of a table.
fn push_pairs(points: &mut Vec<(Frac, Frac)>, text: &[u8]) -> Result<(), EntryFault>
    requires { length points.old.items ≤ spec.most_point_pairs }
    ensures { GivesEntry (λ done. points.new.items) result
        (or_entry_fault EntryFault.BadTable
        (spec.within_point_pair_limit (option_map (λ pairs. points.old.items ++ pairs)
        (spec.point_pairs_of_words (words_between_blanks text.now))))) }
{
    let mut rest = trim_front(text);
    while !rest.is_empty() {
        if points.len() >= MOST_POINTS {
            return Err(EntryFault::BadTable);
        }
        let (x, behind) = cut_word(rest);
        let (y, behind) = cut_word(behind);
        let x = number(x).ok_or(EntryFault::BadTable)?;
        let y = number(y).ok_or(EntryFault::BadTable)?;
        points.push((x, y))?;
        rest = behind;
    }
    Ok(())
}
