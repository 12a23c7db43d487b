//! The places of keys of all kinds.

ghost use Rattle.std.specs.Prelude.{◌≡◌, ◌<◌, [], map, length, set, option_map, OnOk, if◌then◌else◌};
ghost use Rattle.gap_list.specs.Gaps.{place_without_gaps, without_gap};
ghost use Rattle.def_entry.specs.declared.key.Kind as key_kind;
ghost use Rattle.def_entry.specs.SameKeys.{is_same_key_kind};
ghost use Rattle.deck.specs.KindPlaces as kind_spec;
ghost use Rattle.deck.specs.LastPlaces as spec;

use super::kind_places::KindPlaces;
use deck_lines::KeyNumber;
use def_entry::Kind;
use gap_list::Gaps;
use std::alloc::{AllocError, Global};

/// A place for each key that has one, indexed by the kinds and numbers of the keys.
#[derive(Drop)]
pub(crate) struct KeyPlaces {
    pub units: KindPlaces,
    pub prefixes: KindPlaces,
    pub functions: KindPlaces,
    pub lists: KindPlaces,
}

impl KeyPlaces {
    /// Returns empty tables of places.
    pub(crate) fn new(alloc: Global) -> KeyPlaces
        ensures { (kind : key_kind.Kind) → spec.definition_places_of_kind result kind ≡ [] }
    {
        KeyPlaces {
            units: KindPlaces::new(alloc),
            prefixes: KindPlaces::new(alloc),
            functions: KindPlaces::new(alloc),
            lists: KindPlaces::new(alloc),
        }
    }

    /// Returns the place of the key with this number, if it has one.
    pub(crate) fn get(&self, n: KeyNumber) -> Option<usize>
        ensures { result ≡ kind_spec.definition_place_in (spec.definition_places_of_kind self.now n.kind) n.number }
    {
        self.of_kind(n.kind).get(n.number)
    }

    /// Returns the number of keys of a kind that have a place.
    pub(crate) fn count(&self, kind: Kind) -> usize
        ensures { result ≡ kind_spec.definition_place_count (spec.definition_places_of_kind self.now kind) }
    {
        self.of_kind(kind).count()
    }

    /// Returns the number of keys for which there is room.
    pub(crate) fn len(&self) -> usize {
        let units_and_prefixes = self.units.len().saturating_add(self.prefixes.len());
        let functions_and_lists = self.functions.len().saturating_add(self.lists.len());
        units_and_prefixes.saturating_add(functions_and_lists)
    }

    /// Makes room for the place of the key with this number. All places stay.
    pub(crate) fn make_room(&mut self, kind: Kind, number: usize) -> Result<(), AllocError>
        ensures same { (k : key_kind.Kind)
            → kind_spec.HasSameDefinitionPlaces (spec.definition_places_of_kind self.old k)
            (spec.definition_places_of_kind self.new k) }
        ensures others { (k : key_kind.Kind) → spec.definition_places_of_kind self.new k
            ≡ (if is_same_key_kind k kind then spec.definition_places_of_kind self.new k else
            spec.definition_places_of_kind self.old k) }
        ensures ok { OnOk result (number < length (spec.definition_places_of_kind self.new kind)) }
    {
        match kind {
            Kind::Unit => self.units.make_room(number),
            Kind::Prefix => self.prefixes.make_room(number),
            Kind::Func => self.functions.make_room(number),
            Kind::List => self.lists.make_room(number),
        }
    }

    /// Sets or removes the place of the key with this number. Allocates no memory.
    pub(crate) fn restore(&mut self, n: KeyNumber, place: Option<usize>)
        requires { n.number < length (spec.definition_places_of_kind self.old n.kind) }
        ensures { (kind : key_kind.Kind) → spec.definition_places_of_kind self.new kind
            ≡ (if is_same_key_kind kind n.kind
            then set (spec.definition_places_of_kind self.old kind) n.number place
            else spec.definition_places_of_kind self.old kind) }
    {
        match n.kind {
            Kind::Unit => self.units.restore(n.number, place),
            Kind::Prefix => self.prefixes.restore(n.number, place),
            Kind::Func => self.functions.restore(n.number, place),
            Kind::List => self.lists.restore(n.number, place),
        }
    }

    /// Moves all places for the removal of the item at `gap`.
    pub(crate) fn close_gap(&mut self, gap: usize)
        ensures { (kind : key_kind.Kind) → spec.definition_places_of_kind self.new kind
            ≡ map (option_map (without_gap gap)) (spec.definition_places_of_kind self.old kind) }
    {
        self.units.close_gap(gap);
        self.prefixes.close_gap(gap);
        self.functions.close_gap(gap);
        self.lists.close_gap(gap);
    }

    /// Replaces slots by places.
    pub(crate) fn fill_gaps(&mut self, gaps: &Gaps)
        ensures { (kind : key_kind.Kind) → spec.definition_places_of_kind self.new kind
            ≡ map (option_map (place_without_gaps gaps.now)) (spec.definition_places_of_kind self.old kind) }
    {
        self.units.fill_gaps(gaps);
        self.prefixes.fill_gaps(gaps);
        self.functions.fill_gaps(gaps);
        self.lists.fill_gaps(gaps);
    }

    // Returns the places of the keys of a kind.
    fn of_kind(&self, kind: Kind) -> &KindPlaces
        ensures { result.now ≡ spec.definition_places_of_kind self.now kind }
    {
        match kind {
            Kind::Unit => &self.units,
            Kind::Prefix => &self.prefixes,
            Kind::Func => &self.functions,
            Kind::List => &self.lists,
        }
    }
}
