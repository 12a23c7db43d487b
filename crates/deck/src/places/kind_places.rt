//! The places of the keys of one kind.

ghost use Rattle.std.specs.Prelude.{◌≡◌, ◌<◌, [], None, Some, length, map, option_map, set, OnOk};
ghost use Rattle.gap_list.specs.Gaps.{place_without_gaps, without_gap};
ghost use Rattle.deck.specs.KindPlaces as spec;

use gap_list::Gaps;
use std::alloc::{AllocError, Global};
use std::marker::Model;

/// The places of the keys of one kind, indexed by the numbers of the keys, and how many keys have a place.
#[derive(Drop)]
pub(crate) struct KindPlaces {
    places: Vec<Option<usize>>,
    count: usize,
}

impl Model for KindPlaces {
    ghost use Rattle.std.specs.Prelude.{◌≡◌, ℕ, List, Option};
    ghost use Rattle.deck.specs.KindPlaces.{definition_place_count};

    ghost Value = { List (Option ℕ) };

    ghost view = { λ p. p.places.items };

    ghost invariant = { λ p. p.count ≡ definition_place_count p.places.items };
}

impl KindPlaces {
    /// Returns an empty table of places.
    pub(crate) fn new(alloc: Global) -> KindPlaces
        ensures { result ≡ [] }
    {
        KindPlaces {
            places: Vec::new(alloc),
            count: 0,
        }
    }

    /// Returns the place of the key with this number, if it has one.
    pub(crate) fn get(&self, number: usize) -> Option<usize>
        ensures { result ≡ spec.definition_place_in self.now number }
    {
        match self.places.get(number) {
            Some(place) => *place,
            None => None,
        }
    }

    /// Returns the number of keys for whose places there is room.
    pub(crate) fn len(&self) -> usize
        ensures { result ≡ length self.now }
    {
        self.places.len()
    }

    /// Returns the number of keys that have a place.
    pub(crate) fn count(&self) -> usize
        ensures { result ≡ spec.definition_place_count self.now }
    {
        self.count
    }

    /// Makes room for the place of the key with this number. All places stay.
    pub(crate) fn make_room(&mut self, number: usize) -> Result<(), AllocError>
        ensures same { spec.HasSameDefinitionPlaces self.old self.new }
        ensures ok { OnOk result (number < length self.new) }
    {
        while self.places.len() <= number {
            self.places.push(None)?;
        }
        Ok(())
    }

    /// Sets the place of the key with this number. Allocates no memory.
    pub(crate) fn put(&mut self, number: usize, place: usize)
        requires { number < length self.old }
        ensures { self.new ≡ set self.old number (Some place) }
    {
        if self.places[number].is_none() {
            self.count += 1;
        }
        self.places[number] = Some(place);
    }

    /// Sets or removes the place of the key with this number. Allocates no memory.
    pub(crate) fn restore(&mut self, number: usize, place: Option<usize>)
        requires { number < length self.old }
        ensures { self.new ≡ set self.old number place }
    {
        match place {
            Some(place) => self.put(number, place),
            None => self.forget(number),
        }
    }

    /// Moves all places for the removal of the item at `gap`.
    pub(crate) fn close_gap(&mut self, gap: usize)
        ensures { self.new ≡ map (option_map (without_gap gap)) self.old }
    {
        for number in 0..self.len() {
            let place = place_past_gap(gap, self.get(number));
            self.restore(number, place);
        }
    }

    /// Replaces slots by places.
    pub(crate) fn fill_gaps(&mut self, gaps: &Gaps)
        ensures { self.new ≡ map (option_map (place_without_gaps gaps.now)) self.old }
    {
        for number in 0..self.len() {
            let place = place_of(gaps, self.get(number));
            self.restore(number, place);
        }
    }

    // Removes the place of the key with this number.
    fn forget(&mut self, number: usize)
        requires { number < length self.old }
        ensures { self.new ≡ set self.old number None }
    {
        if self.places[number].is_some() {
            self.count -= 1;
        }
        self.places[number] = None;
    }
}

// Returns a place after the removal of the item at `gap`.
fn place_past_gap(gap: usize, place: Option<usize>) -> Option<usize>
    ensures { result ≡ option_map (without_gap gap) place }
{
    let Some(place) = place else {
        return None;
    };
    if gap < place {
        return Some(place - 1);
    }
    Some(place)
}

/// Returns the place of a slot, if there is one.
pub(crate) fn place_of(gaps: &Gaps, slot: Option<usize>) -> Option<usize>
    ensures { result ≡ option_map (place_without_gaps gaps.now) slot }
{
    match slot {
        Some(slot) => Some(gaps.place_of(slot)),
        None => None,
    }
}
