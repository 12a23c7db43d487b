//! Laws of name faults, of the meanings of names and the keys that they reach, and of the keys that edits affect.

ghost use Rattle.table_names.specs.AffectedKeys.{AffectedTableNameLaw};
ghost use Rattle.table_names.specs.ClosedLaws.{ClosedWordLaw};
ghost use Rattle.table_names.specs.Edits.{UnaffectedTableNameLaw};
ghost use Rattle.table_names.specs.Examples.{NameFaultExamplesLaw};
ghost use Rattle.table_names.specs.FaultLaws.{NameFaultPathLaw, WordsNameFaultLaw};
ghost use Rattle.table_names.specs.FunctionExamples.{FunctionMeaningExamplesLaw};
ghost use Rattle.table_names.specs.Kinds.{MeaningKindLaw};
ghost use Rattle.table_names.specs.Leads.{TableNameLookupLaw};
ghost use Rattle.table_names.specs.Meanings.{ClosedMeaningLaw};
ghost use Rattle.table_names.specs.MeetsLaws.{MeetsLaw};
ghost use Rattle.table_names.specs.Reach.{TableNameReachLaw};
ghost use Rattle.table_names.specs.StandsForLaws.{StandsForLaw};

/// A name stands for at most one meaning. In a table that fits kinds it stands for one exactly if it has no name
/// fault, and that meaning is the computed one.
pub fn stands_for_law()
    ensures { StandsForLaw }
{}

/// Words meet at most one name fault, and none exactly if they are clean. That fault is the computed one.
pub fn meets_law()
    ensures { MeetsLaw }
{}

/// The lookup of a word in a table is the result of the plan of `find_targets` among the keys of its entries.
pub fn lookup_law()
    ensures { TableNameLookupLaw }
{}

/// The fault of words is the first of the faults of each of them, and this determines it uniquely.
pub fn fault_law()
    ensures { WordsNameFaultLaw }
{}

/// The empty list of keys is a path, a path can be extended by each present key that is not on it, and no path is
/// longer than the table.
pub fn path_law()
    ensures { NameFaultPathLaw }
{}

/// The keys that closed words and keys reach have no name fault either, and are on no cycle.
pub fn closed_law()
    ensures { ClosedWordLaw }
{}

/// A closed key stands for the meaning of its entry, in which each word stands for the meaning of its targets.
pub fn closed_meaning_law()
    ensures { ClosedMeaningLaw }
{}

/// The meanings of closed keys and words fit the kinds of the keys.
pub fn kind_law()
    ensures { MeaningKindLaw }
{}

/// `reach` lists exactly the keys that closed words reach.
pub fn reach_law()
    ensures { TableNameReachLaw }
{}

/// `is_affected` computes whether an edit affects a closed key, and each key that reaches an affected key is affected.
pub fn affected_law()
    ensures { AffectedTableNameLaw }
{}

/// An edit does not change anything about the closed keys that it does not affect.
pub fn unaffected_law()
    ensures { UnaffectedTableNameLaw }
{}

/// The examples with functions hold: some functions have the ranks and name faults that were worked out by hand.
pub fn function_examples_law()
    ensures { FunctionMeaningExamplesLaw }
{}

/// The examples hold: a small table has the faults, meanings and affected keys that were worked out by hand.
pub fn examples_law()
    ensures { NameFaultExamplesLaw }
{}
