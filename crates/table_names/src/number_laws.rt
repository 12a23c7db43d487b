//! Laws of numbered names, and of a walk over the numbered names of a table.

ghost use Rattle.table_names.specs.EdgeLaws.{AffectedNumberedNamesLaw};
ghost use Rattle.table_names.specs.NumberedFaultLaws.{NumberedNameFaultLaw};
ghost use Rattle.table_names.specs.LookupLaws.{FewNumberedTargetsLaw};
ghost use Rattle.table_names.specs.RankLaws.{NumberedNameRankLaw};
ghost use Rattle.table_names.specs.SettlingLaws.{NumberedNameSettlingLaw};

use def_entry::same_keys_law;

/// The first fault of numbered names is the name fault.
pub fn numbered_fault_law()
    ensures { NumberedNameFaultLaw }
{
    same_keys_law();
    name_walk::fault_law();
    name_walk::path_law();
    crate::laws::fault_law();
    crate::laws::path_law();
}

/// The numbers that a walk newly closes are those of the names that the query newly settles.
pub fn settling_law()
    ensures { NumberedNameSettlingLaw }
{
    same_keys_law();
    crate::laws::closed_law();
}

/// A word has no target, one target, or a prefix and a unit as targets.
pub fn few_targets_law()
    ensures { FewNumberedTargetsLaw }
{}

/// The rank of the meaning of a key is at most the number of entries of the table.
pub fn rank_law()
    ensures { NumberedNameRankLaw }
{}

/// A change of keys affects the same names by the edges between numbers as by the words of names.
pub fn affected_numbers_law()
    ensures { AffectedNumberedNamesLaw }
{}
