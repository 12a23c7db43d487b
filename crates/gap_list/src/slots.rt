//! Reading and changing the slots of a list with gaps.

ghost use Rattle.std.specs.Prelude.{◌≡◌, ◌≤◌, ◌<◌, ◌+◌, ◌++◌, ◌∷◌, [], length, slice_get, vec_capacity, vec_len};
ghost use Rattle.std.specs.List.{remove};
ghost use Rattle.std.specs.Option.{option_copied};
ghost use Rattle.gap_list.specs.Gaps.{AreGaps, items_without_gaps};

use crate::filling::fill_gaps;
use crate::gaps::Gaps;

/// Returns the item in a slot, or `None` if there is no such slot.
pub(crate) fn item_in<T>(slots: &Vec<T>, slot: usize) -> Option<&T>
    ensures { option_copied result ≡ slice_get slots.now.items slot }
{
    slots.get(slot)
}

/// Appends an item to slots with room for it. Allocates no memory.
pub(crate) fn put_last<T: Drop>(slots: &mut Vec<T>, item: T)
    requires { vec_len slots.old + 1 ≤ vec_capacity slots.old }
    ensures { slots.new.items ≡ slots.old.items ++ item ∷ [] }
{
    let _ = slots.push(item);
}

/// Removes the item at `place`. Its slot becomes a gap; without memory for one more gap, all gaps are filled.
pub(crate) fn remove_item<T: Drop>(slots: &mut Vec<T>, gaps: &mut Gaps, place: usize)
    requires gaps { AreGaps 0 (length slots.old.items) gaps.old }
    requires place { place < length (items_without_gaps gaps.old slots.old.items) }
    ensures gaps { AreGaps 0 (length slots.new.items) gaps.new }
    ensures items { items_without_gaps gaps.new slots.new.items
        ≡ remove (items_without_gaps gaps.old slots.old.items) place }
{
    match gaps.add(place) {
        Ok(()) => {}
        Err(_) => {
            fill_gaps(slots, gaps);
            let _ = slots.remove(place);
        }
    }
}
