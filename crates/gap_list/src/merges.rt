//! Merging two layers of gaps.

ghost use Rattle.std.specs.Prelude.{◌≡◌, IfOk};
ghost use Rattle.gap_list.specs.Gaps.{AreGapsIncreasing, gaps_with_more};

use std::alloc::{AllocError, Global};

/// Returns the gaps of both layers in one vector.
pub(crate) fn merged_gaps(
    alloc: Global,
    merged: &[usize],
    recent: &[usize],
) -> Result<Vec<usize>, AllocError>
    requires merged { AreGapsIncreasing 0 merged.now }
    requires recent { AreGapsIncreasing 0 recent.now }
    ensures { IfOk result (λ gaps. gaps.items ≡ gaps_with_more merged.now recent.now) }
{
    let mut gaps = Vec::with_capacity(alloc, merged.len() + recent.len())?;
    let mut passed = 0;
    let mut next = 0;
    while next < recent.len() {
        let place = recent[next];
        if passed < merged.len() && merged[passed] - passed <= place {
            gaps.push(merged[passed])?;
            passed += 1;
        } else {
            let Some(slot) = place.checked_add(passed) else {
                return Err(AllocError);
            };
            gaps.push(slot)?;
            next += 1;
        }
    }
    gaps.extend_from_slice(&merged[passed..])?;
    Ok(gaps)
}
