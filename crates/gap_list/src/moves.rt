//! Moving items over the gaps before them.

ghost use Rattle.std.specs.Prelude.{◌≡◌, ◌≤◌, ◌+◌, length, vec_capacity};
ghost use Rattle.gap_list.specs.Fillings.{AreSlotItemsMoved};
ghost use Rattle.gap_list.specs.Gaps.{AreGapsIncreasing, gaps_with_more};

use crate::searches::count_from;

/// Moves the first `len` items to the slots with the numbers of their places. The gaps are in two layers.
pub(crate) fn move_items<T: Drop>(
    slots: &mut Vec<T>,
    merged: &[usize],
    recent: &[usize],
    len: usize,
)
    requires merged { AreGapsIncreasing 0 merged.now }
    requires recent { AreGapsIncreasing 0 recent.now }
    requires slots { len + length merged.now + length recent.now ≤ length slots.old.items }
    ensures slots { length slots.new.items ≡ length slots.old.items }
    ensures capacity { vec_capacity slots.new ≡ vec_capacity slots.old }
    ensures moved { AreSlotItemsMoved (gaps_with_more merged.now recent.now) 0 len slots.old.items slots.new.items }
{
    let mut in_recent = 0;
    let mut in_merged = 0;
    for place in 0..len {
        in_recent = count_from(recent, in_recent, place);
        in_merged = count_from(merged, in_merged, place + in_recent);
        slots.swap(place, place + in_recent + in_merged);
    }
}
