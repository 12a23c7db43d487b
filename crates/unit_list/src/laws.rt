//! Laws of the definitions that the contracts cite.

ghost use Rattle.unit_list.specs.Counts.{UniqueSplitLaw, UnitSplitLaw};

use frac128::{lcm_law, reduced_law};

/// The counts of units add up to the number that was split and have its sign. Each count but the last is the greatest
/// whole number that leaves a remainder of at least 0.
pub fn split_law()
    ensures { UnitSplitLaw }
{
    lcm_law();
    reduced_law();
}

/// The counts of a split are the only ones with these properties.
pub fn unique_law()
    ensures { UniqueSplitLaw }
{
    reduced_law();
}
