//! Removing the edges that lead to a place.

ghost use Rattle.std.specs.Prelude.{◌≡◌, ◌⊎◌, ◌↔◌, ℕ, ◌+◌, ◌<◌, ◌≤◌, false, length};
ghost use Rattle.std.specs.Prelude.{MatchOption, slice_index, slice_index_or};
ghost use Rattle.edge_links.specs.Changes.{AreLinkPlacesParted, AreWaitingLinksPaid, HasLinkKey, HasLinkUser};
ghost use Rattle.edge_links.specs.Changes.{IsLinkPlaceFreed};
ghost use Rattle.edge_links.specs.Once.{ClearsPlaceMarksOnce};
ghost use Rattle.edge_links.specs.Owners.{AreLinkEdges, IsLinkHead, LinkPlaceWaits, link_owners_with_waits};
ghost use Rattle.edge_links.specs.PlaceReach.{IsAffectedLinkPlace, IsLinkOfAffected};
ghost use Rattle.edge_links.specs.WaitingStack.{waiting_link_count};

use crate::marks::Marks;
use crate::places::Places;
use crate::slots::Place;

impl Places {
    // Clears the names of a key and of all places that lead to it, and removes the edges of which these are the users.
    // It allocates no memory.
    pub(crate) fn unsettle<K: Marks>(&mut self, key: Place, marks: &mut K)
        requires there { IsLinkHead self.old key }
        requires idle { (x : ℕ) → slice_index_or self.old.waits x false ≡ false }
        ensures edges { AreLinkEdges self.old.users self.old.keys }
        ensures size { length self.new.users ≡ length self.old.users }
        ensures names { self.new.names ≡ self.old.names }
        ensures cut { AreLinkPlacesParted (IsLinkOfAffected self.old key) self.old self.new }
        ensures cleared { (x : ℕ) → IsLinkHead self.old x → IsAffectedLinkPlace self.old key x
            → K.is_marked marks.new (slice_index self.old.names x) ≡ false }
        ensures kept { (m : ℕ)
            → ((x : ℕ) → IsLinkHead self.old x → IsAffectedLinkPlace self.old key x → slice_index self.old.names x ≡ m
            → ⊥) → K.is_marked marks.new m ≡ K.is_marked marks.old m }
        ensures rest { K.stays marks.old marks.new }
        ensures once { ClearsPlaceMarksOnce K.is_call self.old.names
            (λ x. IsLinkHead self.old x × IsAffectedLinkPlace self.old key x) marks.old marks.new }
        ensures idle { (x : ℕ) → slice_index_or self.new.waits x false ≡ false }
    {
        self.wait(key);
        while let Some(place) = self.take() {
            marks.clear(self.name(place) as usize);
            self.cut_users(place);
            self.cut_keys(place);
        }
    }

    // Adds a place to the waiting ones.
    fn wait(&mut self, place: Place)
        requires { place < length self.old.users }
        ensures was { AreLinkEdges self.old.users self.old.keys }
        ensures rest { self.new ≡ record self.old { waits = self.new.waits } }
        ensures waits { (x : ℕ) → LinkPlaceWaits self.new x ↔ (LinkPlaceWaits self.old x ⊎ (x ≡ place)) }
        ensures one { waiting_link_count self.new.waits ≤ waiting_link_count self.old.waits + 1 }
    {
        self.rings.wait(place);
    }

    // Removes one of the waiting places and returns it.
    fn take(&mut self) -> Option<Place>
        ensures edges { AreLinkEdges self.new.users self.new.keys }
        ensures taken { MatchOption result
            (((x : ℕ) → slice_index_or self.old.waits x false ≡ false) × (self.new ≡ self.old))
            (λ x. (x < length self.old.users) × LinkPlaceWaits self.old x
            × (self.new ≡ link_owners_with_waits self.old x false)) }
    {
        self.rings.pop_waiting()
    }

    // Removes the edges of a user.
    fn cut_users(&mut self, user: Place)
        requires there { (user < length self.old.users) × (user ≡ 0 → ⊥) }
        requires head { slice_index self.old.users user ≡ user }
        ensures size { length self.new.users ≡ length self.old.users }
        ensures names { self.new.names ≡ self.old.names }
        ensures cut { IsLinkPlaceFreed (HasLinkUser self.old user) self.old self.new }
        ensures waits { self.new.waits ≡ self.old.waits }
        ensures paid { AreWaitingLinksPaid self.old self.new }
    {
        while let Some(place) = self.first_of(user) {
            self.free(place);
        }
    }

    // Removes the edges to a key, and adds their users to the waiting places.
    fn cut_keys(&mut self, key: Place)
        requires there { (key < length self.old.users) × (key ≡ 0 → ⊥) }
        requires head { slice_index self.old.users key ≡ key }
        ensures size { length self.new.users ≡ length self.old.users }
        ensures names { self.new.names ≡ self.old.names }
        ensures cut { IsLinkPlaceFreed (HasLinkKey self.old key) self.old self.new }
        ensures waits { (x : ℕ) → LinkPlaceWaits self.new x
            ↔ (LinkPlaceWaits self.old x ⊎ ((p : ℕ) × (p < length self.old.users) × HasLinkKey self.old key p
            × (slice_index self.old.users p ≡ x))) }
        ensures paid { AreWaitingLinksPaid self.old self.new }
    {
        while let Some(place) = self.first_into(key) {
            let user = self.user_of(place);
            self.free(place);
            self.wait(user);
        }
    }
}
