//! The lines that active lines cover.

ghost use Rattle.std.specs.Prelude.{◌≡◌, ◌<◌, ◌+◌, ◌++◌, ◌∷◌, [], Option, ℕ, IfOk, IfSome, OnOk, length, map};
ghost use Rattle.std.specs.Prelude.{option_map, Some, slice_get, take};
ghost use Rattle.std.specs.List.{remove};
ghost use Rattle.def_entry.specs.Entries as entries;
ghost use Rattle.def_entry.specs.declared.key.Key as key_spec;
ghost use Rattle.gap_list.specs.Gaps.{place_without_gaps, without_gap};
ghost use Rattle.deck.specs.CoveredLines.{AreDefinitionPlacesBelow, MayCoverDefinitions};
ghost use Rattle.deck.specs.Tables.{DeckDefinitions, definition_place_of};

use super::kind_places::place_of;
use gap_list::{GapList, Gaps};
use std::alloc::{AllocError, Global};
use std::marker::Model;

/// For each line that is active and defines a key, the place of the last active line of the key before it. The places
/// are stored as slots, so that the removal of a line changes none of them.
pub(crate) struct CoveredLines {
    slots: GapList<Option<usize>>,
    gaps: Gaps,
}

// Written by hand, so that code that drops covered lines need not prove anything about their slots.
impl Drop for CoveredLines {
    fn drop(self) {
        let CoveredLines { slots: _, gaps: _ } = self;
    }
}

impl Model for CoveredLines {
    ghost use Rattle.std.specs.Prelude.{ℕ, List, Option, map, option_map};
    ghost use Rattle.gap_list.specs.Gaps.{place_without_gaps};

    ghost Value = { List (Option ℕ) };

    ghost view = { λ c. map (option_map (place_without_gaps c.gaps)) c.slots.listed };
}

impl CoveredLines {
    /// Returns the covered places of no lines.
    pub(crate) fn new(alloc: Global) -> CoveredLines
        ensures { result ≡ [] }
    {
        CoveredLines {
            slots: GapList::new(alloc),
            gaps: Gaps::new(alloc),
        }
    }

    /// Returns the place that the line at `place` covers, if there is one.
    pub(crate) fn get(&self, place: usize) -> Option<usize>
        ensures { (covered : Option ℕ) → slice_get self.now place ≡ Some covered → result ≡ covered }
    {
        match self.slots.get(place) {
            Some(slot) => place_of(&self.gaps, *slot),
            None => None,
        }
    }

    /// Appends the place that one more line covers. The only error is running out of memory.
    pub(crate) fn push(&mut self, place: Option<usize>) -> Result<(), AllocError>
        ensures { OnOk result (self.new ≡ self.old ++ place ∷ []) }
    {
        let slot = slot_of(&self.gaps, place)?;
        self.slots.push(slot)?;
        Ok(())
    }

    /// Keeps only the places that the first `len` lines cover.
    pub(crate) fn truncate(&mut self, len: usize)
        ensures { self.new ≡ take len self.old }
    {
        self.slots.truncate(len);
    }

    // Removes the line at `place`, which no line covers. The only error is running out of memory.
    fn remove(&mut self, place: usize) -> Result<(), AllocError>
        requires { place < length self.old }
        ensures { OnOk result (self.new ≡ map (option_map (without_gap place)) (remove self.old place)) }
    {
        self.gaps.add(place)?;
        self.slots.remove(place);
        Ok(())
    }

    // Reports whether there are so many gaps that the covered places should be found again.
    fn has_many_gaps(&self) -> bool {
        self.gaps.are_many(self.slots.len())
    }
}

// Returns the slot of a place, if there is one. The error is a slot with too large a number.
fn slot_of(gaps: &Gaps, place: Option<usize>) -> Result<Option<usize>, AllocError>
    ensures { IfOk result (λ slot. option_map (place_without_gaps gaps.now) slot ≡ place) }
{
    let Some(place) = place else {
        return Ok(None);
    };
    match gaps.slot_of(place) {
        Some(slot) => Ok(Some(slot)),
        None => Err(AllocError),
    }
}

/// Removes the line at `place`, which no line covers. Returns `None` without memory, and once in many removals; then
/// one pass over the lines finds the covered places again.
pub(crate) fn without_line(mut covered: CoveredLines, place: usize) -> Option<CoveredLines>
    requires { place < length covered }
    ensures { IfSome result (λ left. left ≡ map (option_map (without_gap place)) (remove covered place)) }
{
    if covered.has_many_gaps() {
        return None;
    }
    match covered.remove(place) {
        Ok(()) => Some(covered),
        Err(_) => None,
    }
}

/// Appends the place that one more line covers, if the others are known. Returns `None` without memory.
pub(crate) fn with_line(covered: Option<CoveredLines>, place: Option<usize>) -> Option<CoveredLines>
    ensures { (count : ℕ) (ds : DeckDefinitions) (k : key_spec.Key) (e : entries.Entry)
        → MayCoverDefinitions count ds covered
        → place ≡ definition_place_of ds k → MayCoverDefinitions (count + 1) ((k, (count, e)) ∷ ds) result }
{
    let Some(mut lines) = covered else {
        return None;
    };
    match lines.push(place) {
        Ok(()) => Some(lines),
        Err(_) => None,
    }
}

/// Keeps only the places that the first `len` lines cover, if they are known.
pub(crate) fn first_lines(covered: Option<CoveredLines>, len: usize) -> Option<CoveredLines>
    ensures { (count : ℕ) (ds : DeckDefinitions) → len < count → AreDefinitionPlacesBelow len ds
        → MayCoverDefinitions count ds covered → MayCoverDefinitions len ds result }
{
    let Some(mut lines) = covered else {
        return None;
    };
    lines.truncate(len);
    Some(lines)
}
