//! Laws of stored outcomes.

ghost use Rattle.live_table.specs.CachedNames.{CachedNamesLaw};
ghost use Rattle.live_table.specs.CachingCalls.{CachingCallsLaw};
ghost use Rattle.live_table.specs.CallLists.{LiveCallsLaw, LiveDeckKindsLaw, PossibleLiveEditsLaw};
ghost use Rattle.live_table.specs.EventExamples.{LiveEventExamples};
ghost use Rattle.live_table.specs.KeptLists.{CachedListLaw};
ghost use Rattle.live_table.specs.KeptNames.{CachedAfterEventsLaw};
ghost use Rattle.live_table.specs.New.{NewlySettledLaw};
ghost use Rattle.live_table.specs.Right.{RightCachedOutcomesLaw};
ghost use Rattle.live_table.specs.Runs.{LiveEventRunLaw, LiveEventStepsLaw, SettledCountLaw};
ghost use Rattle.live_table.specs.States.{LiveEventOrderLaw};

use deck::{changes_are_computed, table_keys_law};

/// After any queries and edits each stored outcome is that of the present table.
pub fn right_law()
    ensures { RightCachedOutcomesLaw }
{}

/// The state after a list of events and then another is the state after their concatenation.
pub fn order_law()
    ensures { LiveEventOrderLaw }
{}

/// Runs of events compose, even if the last one was cut off.
pub fn run_law()
    ensures { LiveEventRunLaw }
{}

/// The state after events does not depend on the steps that were counted before.
pub fn steps_law()
    ensures { LiveEventStepsLaw }
{}

/// The state after a query, in terms of the names that are new.
pub fn new_law()
    ensures { NewlySettledLaw }
{}

/// After any queries and edits the stored names are exactly those that the queries reached and no later edit affected,
/// each with its outcome in the present table.
pub fn kept_law()
    ensures { CachedAfterEventsLaw }
{}

/// The state after queries and edits is determined by the names whose outcomes are cached after each of them.
pub fn cached_names_law()
    ensures { CachedNamesLaw }
{}

/// Events never lower the count of newly settled names.
pub fn count_law()
    ensures { SettledCountLaw }
{}

/// Each entry of the table of a deck fits the kind of its key.
pub fn deck_kinds_law()
    ensures { LiveDeckKindsLaw }
{}

/// An edit from any deck to any other is a possible event.
pub fn edits_can_be_law()
    ensures { PossibleLiveEditsLaw }
{
    changes_are_computed();
}

/// After any list of calls each stored outcome is right. If memory sufficed for all calls, the stored names are exactly
/// those that the queries reached and no later edit affected.
pub fn call_list_law()
    ensures { LiveCallsLaw }
{
    edits_can_be_law();
    table_keys_law();
}

/// If memory sufficed for a call, its clauses say no more and no less than which names are cached after it, with which
/// outcomes and counts.
pub fn caching_calls_law()
    ensures { CachingCallsLaw }
{
    edits_can_be_law();
    table_keys_law();
}

/// The stored names are a list that can be computed.
pub fn kept_list_law()
    ensures { CachedListLaw }
{}

/// The names that are stored after a few queries and edits.
pub fn event_examples()
    ensures { LiveEventExamples }
{}
