//! Places: heads, edges, and free ones.

ghost use Rattle.std.specs.Prelude.{◌≡◌, ℕ, ◌+◌, ◌-◌, ◌<◌, length, slice_index, MatchOption, IfOk, OnOk, OnErr};
ghost use Rattle.edge_links.specs.Changes.{AreLinksBegun, IsLinkPlaceFilled, link_owners_with_both};
ghost use Rattle.edge_links.specs.Owners.{AreLinkEdges, link_owned_count, link_owners_with_head, no_link_owners};
ghost use Rattle.edge_links.specs.Rings.{AreLinkRingMembers};

use crate::rings::Rings;
use crate::slots::{Place, Side};
use std::alloc::{AllocError, Global};
use std::marker::Model;

// A list of places. Each place is a head, an edge from one head to another, or free. An edge is in two rings, that of
// its user and that of its key, and a free place is in the two rings of place 0.
#[derive(Drop)]
pub(crate) struct Places {
    pub(crate) rings: Rings,
    spare: usize,
}

impl Model for Places {
    ghost use Rattle.edge_links.specs.Owners.{LinkOwners, AreLinkPlaces};

    ghost Value = { LinkOwners };

    ghost view = { λ p. p.rings };

    ghost invariant = { λ p. AreLinkPlaces p.rings p.spare };
}

impl Places {
    // Creates a list without places.
    pub(crate) fn new(alloc: Global) -> Places
        ensures { result ≡ no_link_owners }
    {
        Places {
            rings: Rings::new(alloc),
            spare: 0,
        }
    }

    // Ensures that place 0 exists, to which the free places belong. On an error nothing changes.
    pub(crate) fn begin(&mut self) -> Result<(), AllocError>
        ensures some { OnOk result (0 < length self.new.users) }
        ensures begun { AreLinksBegun self.old self.new }
    {
        if self.rings.len() == 0 {
            self.rings.add_head(0)?;
        }
        Ok(())
    }

    // Returns the number of free places.
    pub(crate) fn spare(&self) -> usize
        ensures { result ≡ link_owned_count 0 self.now.users - 1 }
    {
        self.spare
    }

    // Adds a place, which is a head that owns only itself. On an error nothing changes.
    pub(crate) fn add_head(&mut self, name: u32) -> Result<Place, AllocError>
        ensures was { AreLinkEdges self.old.users self.old.keys }
        ensures ok { IfOk result (λ p. (p ≡ length self.old.users)
            × (self.new ≡ link_owners_with_head self.old p name)) }
        ensures err { OnErr result (self.new ≡ self.old) }
    {
        self.rings.add_head(name)
    }

    // Turns a head that owns only itself into a free place. It allocates no memory.
    pub(crate) fn add_free(&mut self, place: Place)
        requires there { (place < length self.old.users) × (place ≡ 0 → ⊥) }
        requires alone { (p : ℕ) → p < length self.old.users
            → (slice_index self.old.users p ≡ place → p ≡ place) × (slice_index self.old.keys p ≡ place → p ≡ place) }
        requires head { slice_index self.old.users place ≡ place }
        ensures { self.new ≡ link_owners_with_both self.old place 0 0 }
    {
        self.rings.join(Side::User, place, 0);
        self.rings.join(Side::Key, place, 0);
        self.spare += 1;
    }

    // Turns a free place into an edge. It allocates no memory.
    pub(crate) fn fill(&mut self, user: Place, key: Place)
        requires there { (user < length self.old.users) × (key < length self.old.users) }
        requires some { (user ≡ 0 → ⊥) × (key ≡ 0 → ⊥) }
        requires heads { (slice_index self.old.users user ≡ user) × (slice_index self.old.users key ≡ key) }
        requires room { 1 < link_owned_count 0 self.old.users }
        ensures edges { AreLinkEdges self.old.users self.old.keys }
        ensures filled { IsLinkPlaceFilled self.old user key self.new }
        ensures spare { link_owned_count 0 self.new.users + 1 ≡ link_owned_count 0 self.old.users }
    {
        if let Some(place) = self.rings.first(Side::User, 0) {
            self.rings.move_to(Side::User, place, user);
            self.rings.move_to(Side::Key, place, key);
            self.spare -= 1;
        }
    }

    // Removes an edge, which becomes a free place. It allocates no memory.
    pub(crate) fn free(&mut self, place: Place)
        requires there { place < length self.old.users }
        requires edge { (slice_index self.old.users place ≡ place → ⊥) × (slice_index self.old.users place ≡ 0 → ⊥) }
        ensures { self.new ≡ link_owners_with_both self.old place 0 0 }
    {
        self.rings.move_to(Side::User, place, 0);
        self.rings.move_to(Side::Key, place, 0);
        self.spare += 1;
    }

    // Returns the name of a place.
    pub(crate) fn name(&self, place: Place) -> u32
        requires { place < length self.now.users }
        ensures { result ≡ slice_index self.now.names place }
    {
        self.rings.name(place)
    }

    // Returns the user of an edge.
    pub(crate) fn user_of(&self, place: Place) -> Place
        requires { place < length self.now.users }
        ensures { (result ≡ slice_index self.now.users place) × (result < length self.now.users)
            × (slice_index self.now.users result ≡ result) }
    {
        self.rings.owner(Side::User, place)
    }

    // Returns the edges to a key, each once.
    pub(crate) fn edges_into(&self, alloc: Global, key: Place) -> Result<Vec<Place>, AllocError>
        requires there { key < length self.now.users }
        requires head { slice_index self.now.users key ≡ key }
        ensures edges { AreLinkEdges self.now.users self.now.keys }
        ensures members { IfOk result (λ places. AreLinkRingMembers self.now.keys key places.items) }
    {
        self.rings.members(alloc, Side::Key, key)
    }

    // Returns a place that the user owns, other than the user itself.
    pub(crate) fn first_of(&self, user: Place) -> Option<Place>
        requires there { user < length self.now.users }
        requires head { slice_index self.now.users user ≡ user }
        ensures edges { AreLinkEdges self.now.users self.now.keys }
        ensures first { MatchOption result
            ((p : ℕ) → p < length self.now.users → slice_index self.now.users p ≡ user → p ≡ user)
            (λ p. (p < length self.now.users) × (slice_index self.now.users p ≡ user) × (p ≡ user → ⊥)) }
    {
        self.rings.first(Side::User, user)
    }

    // Returns a place that the key owns, other than the key itself.
    pub(crate) fn first_into(&self, key: Place) -> Option<Place>
        requires there { key < length self.now.users }
        requires head { slice_index self.now.users key ≡ key }
        ensures edges { AreLinkEdges self.now.users self.now.keys }
        ensures first { MatchOption result
            ((p : ℕ) → p < length self.now.users → slice_index self.now.keys p ≡ key → p ≡ key)
            (λ p. (p < length self.now.users) × (slice_index self.now.keys p ≡ key) × (p ≡ key → ⊥)
            × (slice_index self.now.users p ≡ p → ⊥)) }
    {
        self.rings.first(Side::Key, key)
    }
}
