//! The stack of waiting places, linked through the places themselves.

ghost use Rattle.std.specs.Prelude.{◌≡◌, ℕ, ◌+◌, ◌<◌, ◌≤◌, length, slice_index_or, MatchOption, true, false, ◌⊎◌, ◌↔◌};
ghost use Rattle.edge_links.specs.Owners.{LinkPlaceWaits, link_owners_with_waits};
ghost use Rattle.edge_links.specs.WaitingStack.{waiting_link_count};

use crate::rings::Rings;
use crate::slots::Place;

impl Rings {
    // Adds a place to the waiting ones, unless it is waiting already.
    pub(crate) fn wait(&mut self, place: Place)
        requires { place < length self.old.users }
        ensures rest { self.new ≡ record self.old { waits = self.new.waits } }
        ensures waits { (x : ℕ) → LinkPlaceWaits self.new x ↔ (LinkPlaceWaits self.old x ⊎ (x ≡ place)) }
        ensures one { waiting_link_count self.new.waits ≤ waiting_link_count self.old.waits + 1 }
    {
        if !self.slots.waits(place) {
            self.push_waiting(place);
        }
    }

    // Adds a place that is not waiting to the waiting ones.
    fn push_waiting(&mut self, place: Place)
        requires there { place < length self.old.users }
        requires new { slice_index_or self.old.waits place false ≡ false }
        ensures { self.new ≡ link_owners_with_waits self.old place true }
    {
        self.slots.set_behind(place, self.last_waiting);
        self.slots.set_waits(place, true);
        self.last_waiting = Some(place);
    }

    // Removes one of the waiting places and returns it.
    pub(crate) fn pop_waiting(&mut self) -> Option<Place>
        ensures { MatchOption result
            (((x : ℕ) → slice_index_or self.old.waits x false ≡ false) × (self.new ≡ self.old))
            (λ x. (x < length self.old.users) × LinkPlaceWaits self.old x
            × (self.new ≡ link_owners_with_waits self.old x false)) }
    {
        match self.last_waiting {
            None => None,
            Some(place) => {
                self.last_waiting = self.slots.behind(place);
                self.slots.set_waits(place, false);
                Some(place)
            }
        }
    }
}
