//! Laws of the definitions that the contracts cite.

ghost use Rattle.name_walk.specs.ClosedLaws.{ClosedGraphNameLaw};
ghost use Rattle.name_walk.specs.FaultLaws.{WalkStepsFaultLaw};
ghost use Rattle.name_walk.specs.FindingsLaws.{WalkFindingsLaw};
ghost use Rattle.name_walk.specs.Paths.{NamePathLaw};
ghost use Rattle.name_walk.specs.SettledLaws.{SettledGraphLaw};

/// The empty list of names is a path, a path can be extended by each name that is not on it, and no path has more
/// names than the graph.
pub fn path_law()
    ensures { NamePathLaw }
{}

/// The fault of some steps is the first of the faults of each of them, and this determines it uniquely.
pub fn fault_law()
    ensures { WalkStepsFaultLaw }
{}

/// A name is closed exactly if it has no fault, whatever the path that leads to it. Every name that a closed name
/// reaches is closed, and a closed name does not reach itself.
pub fn closed_law()
    ensures { ClosedGraphNameLaw }
{}

/// Every name that a settled name reaches is settled. This stays true when the names that a query newly closes are
/// settled too, and when names that are not settled change.
pub fn settled_law()
    ensures { SettledGraphLaw }
{}

/// Findings stay right as long as the steps of their names do not change, even if more names are settled.
pub fn findings_law()
    ensures { WalkFindingsLaw }
{}
