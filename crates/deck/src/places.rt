//! The places of the last active lines of keys.

mod changes;
mod covered_lines;
mod covered_pass;
mod key_places;
mod kind_places;
mod last_places;
mod pass;
mod place_changes;

pub(crate) use changes::{changed_key, keys_between};
pub(crate) use covered_lines::{CoveredLines, first_lines, with_line, without_line};
pub(crate) use covered_pass::find_covered_lines;
pub(crate) use last_places::LastPlaces;
pub(crate) use place_changes::{PlaceChanges, find_place_changes};
