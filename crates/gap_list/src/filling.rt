//! Moving items into the gaps before them.

ghost use Rattle.std.specs.Prelude.{◌≡◌, [], length, vec_capacity};
ghost use Rattle.gap_list.specs.Gaps.{AreGaps, items_without_gaps};

use crate::gaps::Gaps;

/// Moves the items to the front and drops the removed ones, so that no gap is left. Allocates no
/// memory.
pub(crate) fn fill_gaps<T: Drop>(slots: &mut Vec<T>, gaps: &mut Gaps)
    requires { AreGaps 0 (length slots.old.items) gaps.old }
    ensures items { slots.new.items ≡ items_without_gaps gaps.old slots.old.items }
    ensures none { gaps.new ≡ [] }
    ensures capacity { vec_capacity slots.new ≡ vec_capacity slots.old }
{
    if gaps.len() == 0 {
        return;
    }
    let len = slots.len() - gaps.len();
    gaps.move_items(slots, len);
    slots.truncate(len);
    gaps.clear();
}

/// Fills the gaps if there are many.
pub(crate) fn fill_many_gaps<T: Drop>(slots: &mut Vec<T>, gaps: &mut Gaps)
    requires { AreGaps 0 (length slots.old.items) gaps.old }
    ensures gaps { AreGaps 0 (length slots.new.items) gaps.new }
    ensures items { items_without_gaps gaps.new slots.new.items ≡ items_without_gaps gaps.old slots.old.items }
{
    if gaps.are_many(slots.len()) {
        fill_gaps(slots, gaps);
    }
}
