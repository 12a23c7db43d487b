//! Laws of rows, of values and of failed steps.

ghost use Rattle.value_sources.specs.Examples.{SourceExamplesLaw};
ghost use Rattle.value_sources.specs.Laws.{SourceRowsLaw};
ghost use Rattle.value_sources.specs.StepExamples.{FailedStepExamplesLaw};
ghost use Rattle.value_sources.specs.StepFaults.{FailedStepLaw};
ghost use Rattle.value_sources.specs.Uses.{SourceUsesLaw};
ghost use Rattle.value_sources.specs.Values.{SourceValueLaw};

use table_names::{closed_law, closed_meaning_law, kind_law};

/// An expression has exactly one list of rows, and the keys that they visit are exactly those that it reaches, each
/// once.
pub fn rows_law()
    ensures { SourceRowsLaw }
{}

/// The words of an entry are those of its trees, tree after tree.
pub fn uses_law()
    ensures { SourceUsesLaw }
{}

/// A small table has the rows that were found by hand.
pub fn examples_law()
    ensures { SourceExamplesLaw }
{}

/// The value of the expression that `value_tree` returns is the outcome of the key.
pub fn value_law()
    ensures { SourceValueLaw }
{
    closed_law();
    closed_meaning_law();
}

/// If an expression has a value fault, that fault is the fault of its failed step, if there is one.
pub fn failed_step_law()
    ensures { FailedStepLaw }
{
    closed_law();
    kind_law();
}

/// An expression has the calls, and another the failed step, that were found by hand.
pub fn step_examples_law()
    ensures { FailedStepExamplesLaw }
{}
