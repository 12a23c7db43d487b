//! The last places of keys.

ghost use Rattle.std.specs.Prelude.{◌≡◌, ◌<◌, [], Some, map, length, set, option_map, OnOk, if◌then◌else◌};
ghost use Rattle.gap_list.specs.Gaps.{place_without_gaps, without_gap};
ghost use Rattle.def_entry.specs.declared.key.Kind as key_kind;
ghost use Rattle.def_entry.specs.SameKeys.{is_same_key_kind};
ghost use Rattle.deck.specs.KindPlaces as kind_spec;
ghost use Rattle.deck.specs.LastPlaces as spec;

use super::key_places::KeyPlaces;
use super::kind_places::place_of;
use deck_lines::KeyNumber;
use def_entry::Kind;
use gap_list::Gaps;
use std::alloc::{AllocError, Global};

/// The places of the last active lines of keys, indexed by the numbers of the keys. Each is stored as a slot: a slot
/// stays if lines before it are removed, and is a place less the gaps before it.
pub(crate) struct LastPlaces {
    pub slots: KeyPlaces,
    pub gaps: Gaps,
}

// Written by hand, so that code that drops last places need not prove anything about their tables.
impl Drop for LastPlaces {
    fn drop(self) {
        let LastPlaces { slots: _, gaps: _ } = self;
    }
}

impl LastPlaces {
    /// Returns empty tables of places.
    pub(crate) fn new(alloc: Global) -> LastPlaces
        ensures { (kind : key_kind.Kind) → spec.last_definition_places result kind ≡ [] }
    {
        LastPlaces {
            slots: KeyPlaces::new(alloc),
            gaps: Gaps::new(alloc),
        }
    }

    /// Returns the place of the key with this number, if it has one.
    pub(crate) fn get(&self, n: KeyNumber) -> Option<usize>
        ensures { result ≡ spec.last_definition_place_at self.now n }
    {
        place_of(&self.gaps, self.slots.get(n))
    }

    /// Returns the number of keys of a kind that have a place.
    pub(crate) fn count(&self, kind: Kind) -> usize
        ensures { result ≡ kind_spec.definition_place_count (spec.last_definition_places self.now kind) }
    {
        self.slots.count(kind)
    }

    /// Makes room for the place of the key with this number. All places stay.
    pub(crate) fn make_room(&mut self, kind: Kind, number: usize) -> Result<(), AllocError>
        ensures same { (k : key_kind.Kind)
            → kind_spec.HasSameDefinitionPlaces (spec.last_definition_places self.old k)
            (spec.last_definition_places self.new k) }
        ensures others { (k : key_kind.Kind) → spec.last_definition_places self.new k
            ≡ (if is_same_key_kind k kind then spec.last_definition_places self.new k else spec.last_definition_places
            self.old k) }
        ensures ok { OnOk result (number < length (spec.last_definition_places self.new kind)) }
    {
        self.slots.make_room(kind, number)
    }

    /// Sets the place of the key with this number. Allocates no memory.
    pub(crate) fn put(&mut self, n: KeyNumber, place: usize)
        requires { n.number < length (spec.last_definition_places self.old n.kind) }
        ensures { (kind : key_kind.Kind) → spec.last_definition_places self.new kind
            ≡ (if is_same_key_kind kind n.kind
            then set (spec.last_definition_places self.old kind) n.number (Some place)
            else spec.last_definition_places self.old kind) }
    {
        self.restore(n, Some(place));
    }

    /// Sets or removes the place of the key with this number. Allocates no memory.
    pub(crate) fn restore(&mut self, n: KeyNumber, place: Option<usize>)
        requires { n.number < length (spec.last_definition_places self.old n.kind) }
        ensures { (kind : key_kind.Kind) → spec.last_definition_places self.new kind
            ≡ (if is_same_key_kind kind n.kind
            then set (spec.last_definition_places self.old kind) n.number place
            else spec.last_definition_places self.old kind) }
    {
        let slot = self.slot_of(place);
        self.slots.restore(n, slot);
    }

    /// Updates the places for the removal of the line at `gap`. The cost does not depend on the number of keys, except
    /// that one call in many goes over all places, and so does a call without memory for one more gap.
    pub(crate) fn close_gap(&mut self, gap: usize)
        ensures { (kind : key_kind.Kind) → spec.last_definition_places self.new kind
            ≡ map (option_map (without_gap gap)) (spec.last_definition_places self.old kind) }
    {
        self.fill_many_gaps();
        match self.gaps.add(gap) {
            Ok(()) => {}
            Err(_) => {
                self.fill_gaps();
                self.slots.close_gap(gap);
            }
        }
    }

    // Fills the gaps if there are many.
    fn fill_many_gaps(&mut self)
        ensures { (kind : key_kind.Kind) → spec.last_definition_places self.new kind
            ≡ spec.last_definition_places self.old kind }
    {
        if self.gaps.are_many(self.slots.len()) {
            self.fill_gaps();
        }
    }

    // Replaces all slots by places, so that no gap is left.
    fn fill_gaps(&mut self)
        ensures places { (kind : key_kind.Kind) → spec.last_definition_places self.new kind
            ≡ spec.last_definition_places self.old kind }
        ensures none { self.new.gaps ≡ [] }
    {
        self.slots.fill_gaps(&self.gaps);
        self.gaps.clear();
    }

    // Returns the slot of a place, if there is one. If the number of the slot would be too large, fills the gaps.
    fn slot_of(&mut self, place: Option<usize>) -> Option<usize>
        ensures places { (kind : key_kind.Kind) → spec.last_definition_places self.new kind
            ≡ spec.last_definition_places self.old kind }
        ensures slot { option_map (place_without_gaps self.new.gaps) result ≡ place }
    {
        let Some(place) = place else {
            return None;
        };
        if let Some(slot) = self.gaps.slot_of(place) {
            return Some(slot);
        }
        self.fill_gaps();
        Some(place)
    }
}
