//! Lists with gaps.

ghost use Rattle.std.specs.Prelude.{◌≡◌, ◌≤◌, ◌<◌, ◌+◌, ◌++◌, ◌∷◌, [], length, take, drop, slice_get, OnOk, OnErr};
ghost use Rattle.std.specs.Prelude.{vec_capacity, vec_len};
ghost use Rattle.std.specs.Option.{option_copied};

use crate::filling::{fill_gaps, fill_many_gaps};
use crate::gaps::Gaps;
use crate::slots::{item_in, put_last, remove_item};
use std::alloc::{AllocError, Global};
use std::marker::Model;

/// A list from which an item is removed without moving the others: its slot becomes a gap. The removed item is dropped
/// when the gaps are filled, which happens once there are many.
#[derive(Drop)]
pub struct GapList<T> {
    slots: Vec<T>,
    gaps: Gaps,
}

impl<T> Model for GapList<T> {
    ghost use Rattle.std.specs.Prelude.{◌-◌, vec_capacity, vec_len, length};
    ghost use Rattle.gap_list.specs.GapItems.{GapItems, gap_items_code};
    ghost use Rattle.gap_list.specs.Gaps.{AreGaps, items_without_gaps};

    ghost Value = { GapItems T };

    ghost coded = { gap_items_code T.code };

    ghost view = { λ l. record {
      listed = items_without_gaps l.gaps l.slots.items;
      spare = vec_capacity l.slots - vec_len l.slots;
    } };

    ghost invariant = { λ l. AreGaps 0 (length l.slots.items) l.gaps };
}

impl<T> GapList<T> {
    /// Returns an empty list.
    pub fn new(alloc: Global) -> GapList<T>
        ensures { result.listed ≡ [] }
    {
        GapList {
            slots: Vec::new(alloc),
            gaps: Gaps::new(alloc),
        }
    }

    /// Returns the number of items.
    pub fn len(&self) -> usize
        ensures { result ≡ length self.now.listed }
    {
        self.slots.len() - self.gaps.len()
    }

    /// Returns the item at a place, counted from 0, or `None` if there is no such place. The cost grows with the
    /// logarithm of the number of gaps.
    pub fn get(&self, place: usize) -> Option<&T>
        ensures { option_copied result ≡ slice_get self.now.listed place }
    {
        match self.gaps.slot_of(place) {
            Some(slot) => item_in(&self.slots, slot),
            None => None,
        }
    }
}

impl<T: Drop> GapList<T> {
    /// Makes room for more items.
    pub fn reserve(&mut self, additional: usize) -> Result<(), AllocError>
        ensures items { self.new.listed ≡ self.old.listed }
        ensures ok { OnOk result (additional ≤ self.new.spare) }
    {
        self.slots.reserve(additional)
    }

    /// Appends an item. On an error nothing changes.
    pub fn push(&mut self, item: T) -> Result<(), AllocError>
        ensures ok { OnOk result (self.new.listed ≡ self.old.listed ++ item ∷ []) }
        ensures err { OnErr result (self.new.listed ≡ self.old.listed) }
    {
        self.slots.push(item)?;
        Ok(())
    }

    /// Appends an item to a list with room for it. Allocates no memory.
    pub fn put(&mut self, item: T)
        requires { 0 < self.old.spare }
        ensures { self.new.listed ≡ self.old.listed ++ item ∷ [] }
    {
        put_last(&mut self.slots, item);
    }

    /// Keeps only the first `len` items, or all items if there are fewer.
    pub fn truncate(&mut self, len: usize)
        ensures { self.new.listed ≡ take len self.old.listed }
    {
        if self.len() <= len {
            return;
        }
        if let Some(slot) = self.gaps.slot_of(len) {
            self.gaps.truncate(len);
            self.slots.truncate(slot);
        }
    }

    /// Removes the item at a place. No item moves, except when the gaps are filled.
    pub fn remove(&mut self, place: usize)
        requires { place < length self.old.listed }
        ensures { self.new.listed ≡ take place self.old.listed ++ drop (place + 1) self.old.listed }
    {
        if place == self.len() - 1 {
            self.truncate(place);
            return;
        }
        fill_many_gaps(&mut self.slots, &mut self.gaps);
        remove_item(&mut self.slots, &mut self.gaps, place);
    }

    /// Converts the list into a vector with the same room. The gaps are filled.
    pub fn into_vec(self) -> Vec<T>
        ensures items { result.items ≡ self.listed }
        ensures room { self.spare + vec_len result ≤ vec_capacity result }
    {
        let GapList {
            mut slots,
            mut gaps,
        } = self;
        fill_gaps(&mut slots, &mut gaps);
        slots
    }
}

/// Takes ownership of the items without copying.
impl<T> From<Vec<T>> for GapList<T> {
    ghost from_gives = { λ items list. list.listed ≡ items.items };

    fn from(items: Vec<T>) -> Self {
        let gaps = Gaps::new(*items.allocator());
        GapList { slots: items, gaps }
    }
}
