//! Laws of reports.

ghost use Rattle.survey.specs.Examples.{SurveyExamplesLaw};
ghost use Rattle.survey.specs.PrefixFaults.{CheckedPrefixLaw};

/// If a name fault of the body of a prefix is reported as one of the prefix, it is the fault of the prefix itself.
pub fn prefix_law()
    ensures { CheckedPrefixLaw }
{}

/// The reports on a small table equal those worked out by hand.
pub fn examples_law()
    ensures { SurveyExamplesLaw }
{}
