//! Laws of lookup.

ghost use Rattle.name_lookup.specs.Examples.{LookupExamplesLaw};
ghost use Rattle.name_lookup.specs.Laws.{CandidatesLaw, LookupTargetsLaw, SameLookupLaw};

/// The search for a word finds its first candidate whose keys are all present.
pub fn candidates_law()
    ensures { CandidatesLaw }
{}

/// Each target is a key that was looked at and is present.
pub fn targets_are_present()
    ensures { LookupTargetsLaw }
{}

/// If two tables agree on the keys that a lookup looked at, then the lookup has the same targets and looks at the same
/// keys in both tables.
pub fn same_answers()
    ensures { SameLookupLaw }
{}

/// The examples hold: some words have the singulars, candidates and targets that were worked out by hand.
pub fn examples_law()
    ensures { LookupExamplesLaw }
{}
