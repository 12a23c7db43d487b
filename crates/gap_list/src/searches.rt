//! Searches for the gaps before an item or a slot.

ghost use Rattle.std.specs.Prelude.{◌≡◌, ◌≤◌, ◌+◌, length, drop, take};
ghost use Rattle.gap_list.specs.Gaps.{AreGapsIncreasing, gaps_before, place_without_gaps};
ghost use Rattle.gap_list.specs.Searches.{AreGapsBefore};

/// Returns the number of gaps before the item at `place`, of which the first `known` are known to be before it. The
/// cost grows with the number of the others.
pub(crate) fn count_from(gaps: &[usize], known: usize, place: usize) -> usize
    requires up { AreGapsIncreasing 0 gaps.now }
    requires within { known ≤ length gaps.now }
    requires before { AreGapsBefore place known gaps.now }
    ensures more { known ≤ result }
    ensures within { result ≤ length gaps.now }
    ensures before { AreGapsBefore place result gaps.now }
    ensures after { AreGapsIncreasing (place + result + 1) (drop result gaps.now) }
{
    let mut count = known;
    while count < gaps.len() && gaps[count] - count <= place {
        count += 1;
    }
    count
}

/// Returns the number of gaps before the item at `place`. The cost grows with the logarithm of the number of gaps.
pub(crate) fn count_before(gaps: &[usize], place: usize) -> usize
    requires { AreGapsIncreasing 0 gaps.now }
    ensures within { result ≤ length gaps.now }
    ensures before { AreGapsBefore place result gaps.now }
    ensures after { AreGapsIncreasing (place + result + 1) (drop result gaps.now) }
{
    let mut low = 0;
    let mut high = gaps.len();
    while low < high {
        let middle = low + (high - low) / 2;
        if gaps[middle] - middle <= place {
            low = middle + 1;
        } else {
            high = middle;
        }
    }
    low
}

/// Returns the number of gaps before the item at the place `place + more`, which may be too large for a number.
pub(crate) fn count_before_sum(gaps: &[usize], place: usize, more: usize) -> usize
    requires { AreGapsIncreasing 0 gaps.now }
    ensures { take result gaps.now ≡ gaps_before (place + more) gaps.now }
{
    let Some(sum) = place.checked_add(more) else {
        return gaps.len();
    };
    count_before(gaps, sum)
}

/// Returns the number of gaps before `slot`. The cost grows with the logarithm of the number of gaps.
pub(crate) fn count_below(gaps: &[usize], slot: usize) -> usize
    requires { AreGapsIncreasing 0 gaps.now }
    ensures { place_without_gaps gaps.now slot + result ≡ slot }
{
    let mut low = 0;
    let mut high = gaps.len();
    while low < high {
        let middle = low + (high - low) / 2;
        if gaps[middle] < slot {
            low = middle + 1;
        } else {
            high = middle;
        }
    }
    low
}
