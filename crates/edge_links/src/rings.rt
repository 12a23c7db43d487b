//! Places in rings, addressed by index.

ghost use Rattle.std.specs.Prelude.{◌≡◌, ℕ, ◌+◌, ◌^◌, ◌<◌, length, slice_index, MatchOption, IfOk, OnErr};
ghost use Rattle.edge_links.specs.Owners.{no_link_owners, link_owners_of_side, link_owners_with_owner};
ghost use Rattle.edge_links.specs.Owners.{link_owners_with_head};
ghost use Rattle.edge_links.specs.Rings.{AreLinkRingMembers};

use crate::slots::{Place, Seat, Side, Slots};
use std::alloc::{AllocError, Global};
use std::marker::Model;

// A list of places, each owned on either side by the head of its ring. A head owns itself. The waiting places form a
// stack.
#[derive(Drop)]
pub(crate) struct Rings {
    pub(crate) slots: Slots,
    pub(crate) last_waiting: Option<Place>,
}

impl Model for Rings {
    ghost use Rattle.edge_links.specs.Owners.{LinkOwners, link_owners};
    ghost use Rattle.edge_links.specs.RingInvariants.{AreLinked};

    ghost Value = { LinkOwners };

    ghost view = { λ r. link_owners r.slots };

    ghost invariant = { λ r. AreLinked r.slots r.last_waiting };
}

impl Rings {
    // Creates a list without places.
    pub(crate) fn new(alloc: Global) -> Rings
        ensures { result ≡ no_link_owners }
    {
        Rings {
            slots: Slots::new(alloc),
            last_waiting: None,
        }
    }

    // Returns the number of places.
    pub(crate) fn len(&self) -> usize
        ensures { result ≡ length self.now.users }
    {
        self.slots.len()
    }

    // Adds a place, which is a head that owns only itself. On an error nothing changes.
    pub(crate) fn add_head(&mut self, name: u32) -> Result<Place, AllocError>
        ensures ok { IfOk result (λ place. (place ≡ length self.old.users) × (place + 1 < 2 ^ 64)
            × (self.new ≡ link_owners_with_head self.old place name)) }
        ensures err { OnErr result (self.new ≡ self.old) }
    {
        self.slots.push(name)
    }

    // Returns a place that the head owns, other than the head itself.
    pub(crate) fn first(&self, side: Side, head: Place) -> Option<Place>
        requires there { head < length (link_owners_of_side side self.now) }
        requires head { slice_index (link_owners_of_side side self.now) head ≡ head }
        ensures { MatchOption result
            ((p : ℕ) → p < length (link_owners_of_side side self.now)
            → slice_index (link_owners_of_side side self.now) p ≡ head → p ≡ head)
            (λ p. (p < length (link_owners_of_side side self.now))
            × (slice_index (link_owners_of_side side self.now) p ≡ head) × (p ≡ head → ⊥)) }
    {
        let place = self.slots.seat(side, head).next;
        if place == head { None } else { Some(place) }
    }

    // Returns the head that owns a place.
    pub(crate) fn owner(&self, side: Side, place: Place) -> Place
        requires { place < length (link_owners_of_side side self.now) }
        ensures { result ≡ slice_index (link_owners_of_side side self.now) place }
    {
        self.slots.seat(side, place).owner
    }

    // Returns the name of a place.
    pub(crate) fn name(&self, place: Place) -> u32
        requires { place < length self.now.users }
        ensures { result ≡ slice_index self.now.names place }
    {
        self.slots.name(place)
    }

    // Moves a place to another owner. It allocates no memory.
    pub(crate) fn move_to(&mut self, side: Side, place: Place, head: Place)
        requires there { (place < length (link_owners_of_side side self.old))
            × (head < length (link_owners_of_side side self.old)) }
        requires place { slice_index (link_owners_of_side side self.old) place ≡ place → ⊥ }
        requires head { slice_index (link_owners_of_side side self.old) head ≡ head }
        ensures { self.new ≡ link_owners_with_owner side self.old place head }
    {
        self.leave(side, place);
        self.join(side, place, head);
    }

    // Removes a place from its ring. The place becomes a head that owns only itself.
    fn leave(&mut self, side: Side, place: Place)
        requires there { place < length (link_owners_of_side side self.old) }
        requires place { slice_index (link_owners_of_side side self.old) place ≡ place → ⊥ }
        ensures owner { self.new ≡ link_owners_with_owner side self.old place place }
        ensures alone { (p : ℕ) → p < length (link_owners_of_side side self.new)
            → slice_index (link_owners_of_side side self.new) p ≡ place → p ≡ place }
    {
        let seat = self.slots.seat(side, place);
        self.slots.set_next(side, seat.prev, seat.next);
        self.slots.set_prev(side, seat.next, seat.prev);
        let alone = Seat {
            next: place,
            prev: place,
            owner: place,
        };
        self.slots.set_seat(side, place, alone);
    }

    // Moves a head that owns only itself into the ring of another head. It allocates no memory.
    pub(crate) fn join(&mut self, side: Side, place: Place, head: Place)
        requires there { (place < length (link_owners_of_side side self.old))
            × (head < length (link_owners_of_side side self.old)) }
        requires other { place ≡ head → ⊥ }
        requires alone { (p : ℕ) → p < length (link_owners_of_side side self.old)
            → slice_index (link_owners_of_side side self.old) p ≡ place → p ≡ place }
        requires place { slice_index (link_owners_of_side side self.old) place ≡ place }
        requires head { slice_index (link_owners_of_side side self.old) head ≡ head }
        ensures { self.new ≡ link_owners_with_owner side self.old place head }
    {
        let first = self.slots.seat(side, head).next;
        let behind_head = Seat {
            next: first,
            prev: head,
            owner: head,
        };
        self.slots.set_seat(side, place, behind_head);
        self.slots.set_prev(side, first, place);
        self.slots.set_next(side, head, place);
    }

    // Returns the places that the head owns, without the head, each once.
    pub(crate) fn members(
        &self,
        alloc: Global,
        side: Side,
        head: Place,
    ) -> Result<Vec<Place>, AllocError>
        requires there { head < length (link_owners_of_side side self.now) }
        requires head { slice_index (link_owners_of_side side self.now) head ≡ head }
        ensures { IfOk result (λ places. AreLinkRingMembers (link_owners_of_side side self.now) head places.items) }
    {
        let mut places = Vec::new(alloc);
        let mut place = self.slots.seat(side, head).prev;
        while place != head {
            places.push(place)?;
            place = self.slots.seat(side, place).prev;
        }
        Ok(places)
    }
}
