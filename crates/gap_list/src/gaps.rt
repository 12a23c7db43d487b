//! The gaps of a list: the slots whose items were removed.

ghost use Rattle.std.specs.Prelude.{◌≡◌, ◌≤◌, ◌+◌, ◌^◌, [], length, OnOk, OnErr, IfNone, IfSome, vec_capacity};
ghost use Rattle.gap_list.specs.Fillings.{AreSlotItemsMoved};
ghost use Rattle.gap_list.specs.Gaps as spec;

use crate::merges::merged_gaps;
use crate::moves::move_items;
use crate::searches::{count_before, count_before_sum, count_below};
use std::alloc::{AllocError, Global};
use std::marker::Model;

// The maximum number of recent gaps. Adding a gap moves at most this many, and each merge copies all gaps once.
const MOST_RECENT: usize = 1024;

/// The slots of a list whose items were removed. The place of an item is the number of its slot less the number of gaps
/// before it. The gaps are in two layers, each in increasing order, so that a new one moves few others: `recent` has
/// the gaps of the list that is left without the slots `merged`.
#[derive(Drop)]
pub struct Gaps {
    merged: Vec<usize>,
    recent: Vec<usize>,
}

impl Model for Gaps {
    ghost use Rattle.std.specs.Prelude.{ℕ, List};
    ghost use Rattle.gap_list.specs.Gaps.{AreGapsIncreasing, gaps_with_more};

    ghost Value = { List ℕ };

    ghost view = { λ g. gaps_with_more g.merged.items g.recent.items };

    ghost invariant = { λ g. AreGapsIncreasing 0 g.merged.items × AreGapsIncreasing 0 g.recent.items };
}

impl Gaps {
    /// Returns no gaps.
    pub fn new(alloc: Global) -> Gaps
        ensures { result ≡ [] }
    {
        Gaps {
            merged: Vec::new(alloc),
            recent: Vec::new(alloc),
        }
    }

    /// Returns the number of gaps.
    pub fn len(&self) -> usize
        ensures { result ≡ length self.now }
    {
        self.merged.len() + self.recent.len()
    }

    /// Reports whether the gaps of a list with this many slots should be filled: they are more than half of the slots.
    /// So each removal pays for at most one move of a later pass, and a list has at most twice the slots that it needs.
    pub fn are_many(&self, slots: usize) -> bool {
        self.len() > slots / 2
    }

    /// Returns the slot of the item at `place`, or `None` if its number is too large.
    pub fn slot_of(&self, place: usize) -> Option<usize>
        ensures slot { IfSome result (λ slot. slot ≡ spec.slot_at self.now place) }
        ensures none { IfNone result (2 ^ 64 ≤ place + length self.now) }
    {
        let in_recent = count_before(self.recent.as_slice(), place);
        let Some(left) = place.checked_add(in_recent) else {
            return None;
        };
        let in_merged = count_before(self.merged.as_slice(), left);
        let Some(slot) = left.checked_add(in_merged) else {
            return None;
        };
        Some(slot)
    }

    /// Returns the place of the item in `slot`.
    pub fn place_of(&self, slot: usize) -> usize
        ensures { result ≡ spec.place_without_gaps self.now slot }
    {
        let left = slot - count_below(self.merged.as_slice(), slot);
        left - count_below(self.recent.as_slice(), left)
    }

    /// Makes the slot of the item at `place` a gap. On an error nothing changes.
    pub fn add(&mut self, place: usize) -> Result<(), AllocError>
        ensures ok { OnOk result (self.new ≡ spec.with_gap place self.old) }
        ensures err { OnErr result (self.new ≡ self.old) }
    {
        self.merge_many()?;
        self.add_recent(place)
    }

    /// Keeps only the gaps before the item at `place`.
    pub fn truncate(&mut self, place: usize)
        ensures { self.new ≡ spec.gaps_before place self.old }
    {
        let in_recent = count_before(self.recent.as_slice(), place);
        let in_merged = count_before_sum(self.merged.as_slice(), place, in_recent);
        self.recent.truncate(in_recent);
        self.merged.truncate(in_merged);
    }

    /// Forgets all gaps.
    pub fn clear(&mut self)
        ensures { self.new ≡ [] }
    {
        self.merged.clear();
        self.recent.clear();
    }

    /// Moves the first `len` items of a list with these gaps to the slots with the numbers of their places.
    pub(crate) fn move_items<T: Drop>(&self, slots: &mut Vec<T>, len: usize)
        requires { len + length self.now ≤ length slots.old.items }
        ensures slots { length slots.new.items ≡ length slots.old.items }
        ensures capacity { vec_capacity slots.new ≡ vec_capacity slots.old }
        ensures moved { AreSlotItemsMoved self.now 0 len slots.old.items slots.new.items }
    {
        move_items(slots, self.merged.as_slice(), self.recent.as_slice(), len);
    }

    // Merges the recent gaps with the others if they are many.
    fn merge_many(&mut self) -> Result<(), AllocError>
        ensures { self.new ≡ self.old }
    {
        if self.recent.len() < MOST_RECENT {
            return Ok(());
        }
        let alloc = *self.merged.allocator();
        let merged = merged_gaps(alloc, self.merged.as_slice(), self.recent.as_slice())?;
        self.merged = merged;
        self.recent.clear();
        Ok(())
    }

    // Makes the slot of the item at `place` a recent gap. On an error nothing changes.
    fn add_recent(&mut self, place: usize) -> Result<(), AllocError>
        ensures ok { OnOk result (self.new ≡ spec.with_gap place self.old) }
        ensures err { OnErr result (self.new ≡ self.old) }
    {
        let count = count_before(self.recent.as_slice(), place);
        let Some(gap) = place.checked_add(count) else {
            return Err(AllocError);
        };
        self.recent.insert(count, gap)?;
        Ok(())
    }
}
