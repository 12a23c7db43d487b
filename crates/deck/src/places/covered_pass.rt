//! The pass over the lines of a deck that finds the covered lines.

ghost use Rattle.std.specs.Prelude.{◌≡◌, ◌++◌, Some, IfOk, length, true};
ghost use Rattle.def_entry.specs.Entries as entries;
ghost use Rattle.def_entry.specs.declared.key.Key as key_spec;
ghost use Rattle.deck_lines.specs.Stores.{store_definition_at};
ghost use Rattle.deck.specs.CoveredLines.{MayCoverDefinitions};
ghost use Rattle.deck.specs.LastPlaces.{AreLastDefinitionPlaces, HasDefinitionPlaceRoom};
ghost use Rattle.deck.specs.Tables.{DeckDefinitions, active_definitions, active_definitions_among};
ghost use Rattle.deck.specs.Tables.{definition_of_active_line, definition_place_of};

use super::covered_lines::CoveredLines;
use super::last_places::LastPlaces;
use super::pass::{note_line, with_room};
use crate::force::active_flags;
use crate::settings::Settings;
use deck_lines::{EditedLines, LineStore};
use std::alloc::{AllocError, Global};

/// Returns the place that each line covers under these settings. Makes one pass over the lines.
pub(crate) fn find_covered_lines(
    alloc: Global,
    store: &LineStore,
    settings: &Settings,
) -> Result<CoveredLines, AllocError>
    ensures { IfOk result (λ covered. MayCoverDefinitions (length store.now.lines)
        (active_definitions settings.now store.now.lines) (Some covered)) }
{
    let flags = active_flags(alloc, store, settings)?;
    covered_lines_among(alloc, &EditedLines::without_change(store), flags.as_slice())
}

// Returns the place that each line covers among the lines whose flag is true.
fn covered_lines_among(
    alloc: Global,
    edited: &EditedLines<'_>,
    flags: &[bool],
) -> Result<CoveredLines, AllocError>
    requires { length flags.now ≡ length edited.now.new_lines }
    ensures { IfOk result (λ covered. MayCoverDefinitions (length edited.now.new_lines)
        (active_definitions_among flags.now edited.now.new_lines) (Some covered)) }
{
    let mut last = with_room(alloc, edited)?;
    let mut covered = CoveredLines::new(alloc);
    for place in 0..flags.len() {
        let over = covered_place(edited, &last, flags[place], place);
        covered.push(over)?;
        note_line(edited, &mut last, flags[place], place);
    }
    Ok(covered)
}

// Returns the last place of the key that the line at `place` defines, if the line is active.
fn covered_place(
    edited: &EditedLines<'_>,
    last: &LastPlaces,
    active: bool,
    place: usize,
) -> Option<usize>
    ensures { (ds : DeckDefinitions) (k : key_spec.Key) (e : entries.Entry)
        → AreLastDefinitionPlaces edited.now.names ds last.now
        → active ≡ true → store_definition_at edited.now.new_lines place ≡ Some (k, e) → result
        ≡ definition_place_of ds k }
{
    if !active {
        return None;
    }
    match edited.key_number(place) {
        Some(n) => last.get(n),
        None => None,
    }
}
