//! The lowest layer: one vector with the data of each place.

ghost use Rattle.std.specs.Prelude.{◌≡◌, ◌+◌, ◌^◌, ◌<◌, length, slice_index, slice_index_or, IfOk, OnErr, false, None};
ghost use Rattle.edge_links.specs.Columns.{link_ring_of_side, no_link_columns, link_columns_with_next};
ghost use Rattle.edge_links.specs.Columns.{link_columns_with_next_place, link_columns_with_prev};
ghost use Rattle.edge_links.specs.Columns.{link_columns_with_seat, link_columns_with_slot, link_columns_with_waits};

use std::alloc::{AllocError, Global};
use std::marker::Model;

// The two rings of a place: that of its user and that of its key.
#[derive(Clone, Copy, Drop)]
pub(crate) enum Side {
    User,
    Key,
}

// The number of a place. It is half as wide as an index, since a table has many places but never that many.
pub(crate) type Place = u32;

// The position of a place in a ring: its neighbours, and the head that owns it.
#[derive(Clone, Copy, Drop)]
pub(crate) struct Seat {
    pub(crate) next: Place,
    pub(crate) prev: Place,
    pub(crate) owner: Place,
}

// The data of a place. A waiting place links to the one that began to wait before it.
#[derive(Drop)]
struct Slot {
    user: Seat,
    key: Seat,
    behind: Option<Place>,
    name: u32,
    waits: bool,
}

// The data of each place.
#[derive(Drop)]
pub(crate) struct Slots {
    slots: Vec<Slot>,
}

impl Model for Slots {
    ghost use Rattle.edge_links.specs.Columns.{LinkColumns, link_columns};

    ghost Value = { LinkColumns };

    ghost view = { λ s. link_columns s.slots.items };
}

impl Slots {
    // Creates a vector without places.
    pub(crate) fn new(alloc: Global) -> Slots
        ensures { result ≡ no_link_columns }
    {
        Slots {
            slots: Vec::new(alloc),
        }
    }

    // Returns the number of places.
    pub(crate) fn len(&self) -> usize
        ensures { result ≡ length self.now.names }
    {
        self.slots.len()
    }

    // Adds a place, which is alone in both rings. On an error nothing changes.
    pub(crate) fn push(&mut self, name: u32) -> Result<Place, AllocError>
        ensures ok { IfOk result (λ place. (place ≡ length self.old.names) × (place + 1 < 2 ^ 64)
            × (self.new ≡ link_columns_with_slot self.old place name)) }
        ensures err { OnErr result (self.new ≡ self.old) }
    {
        let place = place_of(self.slots.len())?;
        let alone = Seat {
            next: place,
            prev: place,
            owner: place,
        };
        self.slots.push(Slot {
            user: alone,
            key: alone,
            behind: None,
            name,
            waits: false,
        })?;
        Ok(place)
    }

    // Returns the position of a place in its ring.
    pub(crate) fn seat(&self, side: Side, place: Place) -> Seat
        requires { place < length self.now.names }
        ensures next { result.next ≡ slice_index (link_ring_of_side side self.now).next place }
        ensures prev { result.prev ≡ slice_index (link_ring_of_side side self.now).prev place }
        ensures owner { result.owner ≡ slice_index (link_ring_of_side side self.now).owner place }
    {
        match side {
            Side::User => self.slots[place as usize].user,
            Side::Key => self.slots[place as usize].key,
        }
    }

    // Returns the name of a place.
    pub(crate) fn name(&self, place: Place) -> u32
        requires { place < length self.now.names }
        ensures { result ≡ slice_index self.now.names place }
    {
        self.slots[place as usize].name
    }

    // Reports whether a place is waiting.
    pub(crate) fn waits(&self, place: Place) -> bool
        requires { place < length self.now.names }
        ensures { result ≡ slice_index_or self.now.waits place false }
    {
        self.slots[place as usize].waits
    }

    // Returns the place that began to wait before this one.
    pub(crate) fn behind(&self, place: Place) -> Option<Place>
        requires { place < length self.now.names }
        ensures { result ≡ slice_index_or self.now.behind place None }
    {
        self.slots[place as usize].behind
    }

    pub(crate) fn set_next(&mut self, side: Side, place: Place, next: Place)
        requires { place < length self.old.names }
        ensures { self.new ≡ link_columns_with_next side self.old place next }
    {
        match side {
            Side::User => self.slots[place as usize].user.next = next,
            Side::Key => self.slots[place as usize].key.next = next,
        }
    }

    pub(crate) fn set_prev(&mut self, side: Side, place: Place, prev: Place)
        requires { place < length self.old.names }
        ensures { self.new ≡ link_columns_with_prev side self.old place prev }
    {
        match side {
            Side::User => self.slots[place as usize].user.prev = prev,
            Side::Key => self.slots[place as usize].key.prev = prev,
        }
    }

    pub(crate) fn set_seat(&mut self, side: Side, place: Place, seat: Seat)
        requires { place < length self.old.names }
        ensures { self.new ≡ link_columns_with_seat side self.old place seat }
    {
        match side {
            Side::User => self.slots[place as usize].user = seat,
            Side::Key => self.slots[place as usize].key = seat,
        }
    }

    pub(crate) fn set_waits(&mut self, place: Place, waits: bool)
        requires { place < length self.old.names }
        ensures { self.new ≡ link_columns_with_waits self.old place waits }
    {
        self.slots[place as usize].waits = waits;
    }

    pub(crate) fn set_behind(&mut self, place: Place, behind: Option<Place>)
        requires { place < length self.old.names }
        ensures { self.new ≡ link_columns_with_next_place self.old place behind }
    {
        self.slots[place as usize].behind = behind;
    }
}

// Converts an index into the number of a place. Fails with an out-of-memory error if the index is too large.
pub(crate) fn place_of(index: usize) -> Result<Place, AllocError>
    ensures { IfOk result (λ place. (place ≡ index) × (place + 1 < 2 ^ 64)) }
{
    match u32::try_from(index) {
        Ok(place) => Ok(place),
        Err(_) => Err(AllocError),
    }
}
