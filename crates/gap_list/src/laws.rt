//! Laws of lists with gaps.

ghost use Rattle.gap_list.specs.Laws.{GapExamplesLaw, GapLaw};

/// An item is found in its slot, each slot leads back to its place, and one more gap removes one item.
pub fn gap_law()
    ensures { GapLaw }
{}

/// The examples of a list with two gaps hold.
pub fn gap_examples_law()
    ensures { GapExamplesLaw }
{}
