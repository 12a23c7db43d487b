//! Laws of watches. The functions do nothing: the contract of each is the law.

ghost use Rattle.watch.specs.Changes.{WatchReportLaw};
ghost use Rattle.watch.specs.Costs.{WatchCostLaw};
ghost use Rattle.watch.specs.Edits.{WatchEditLaw};
ghost use Rattle.watch.specs.Examples.{WatchExamplesLaw};

/// A watch is reported exactly if the bytes of its reply differ, under its own number and in the order of the watches.
/// Nothing is reported if no bytes differ.
pub fn report_law()
    ensures { WatchReportLaw }
{}

/// If each stored reply is that of the table before an edit, the report made from the stored replies is the report made
/// from the replies in the tables before and after the edit. The queries for watches are the queries for their
/// conversions.
pub fn edit_law()
    ensures { WatchEditLaw }
{}

/// Queries of settled names settle nothing and take no step.
pub fn cost_law()
    ensures { WatchCostLaw }
{}

/// The reports of a few changes.
pub fn examples_law()
    ensures { WatchExamplesLaw }
{}
