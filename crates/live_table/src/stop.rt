//! The places where queries stop.

ghost use Rattle.std.specs.Prelude.{◌≡◌, ◌⊎◌, ◌∷◌, [], Some, IfOk};
ghost use Rattle.deck.specs.Tables.{table_of_deck};
ghost use Rattle.name_walk.specs.Findings.{IsFaultyWalkStep};
ghost use Rattle.live_table.specs.QueryEffects.{live_query_fault};
ghost use Rattle.live_table.specs.declared.fault.QueryFault.{QueryFault};
ghost use Rattle.live_table.specs.declared.fault.QueryFault.TheVariants as query_fault;
ghost use Rattle.live_table.specs.KnownFaults.{AreExploredFaultsKnown};
ghost use Rattle.live_table.specs.Sound.{AreSoundNodes};
ghost use Rattle.live_table.specs.Stops.{IsLiveStopFault};
ghost use Rattle.live_table.specs.TableContents.{node_lists};

use crate::dead_end::DeadEnd;
use crate::explored_names::Explored;
use crate::fault::QueryFault;
use crate::fault_names::named_fault;
use crate::nodes::Nodes;
use deck::Deck;
use name_walk::Step;
use std::alloc::{AllocError, Global};
use table_names::NameFault;

/// The place where a query stops before its names are settled. The fault is not named yet: a caller that only needs to
/// know whether there is one does not pay for its text.
pub(crate) enum Stop {
    /// At a word of the query that leads nowhere.
    At(DeadEnd),
    /// At a step to a name that has a fault.
    Below(Step),
    /// Memory ran out.
    OutOfMemory,
}

// Written by hand, so that code that drops a stop need not prove anything about its contents.
impl Drop for Stop {
    fn drop(self) {
        match self {
            Stop::At(_) | Stop::Below(_) | Stop::OutOfMemory => (),
        }
    }
}

impl From<AllocError> for Stop {
    ghost use Rattle.std.specs.Prelude.{◌≡◌};
    ghost use Rattle.live_table.specs.declared.stop.Stop.TheVariants.{OutOfMemory};

    ghost from_gives = { λ _ stop. stop ≡ OutOfMemory };

    fn from(_error: AllocError) -> Stop {
        Stop::OutOfMemory
    }
}

/// Returns the fault of a query that stops there, or `OutOfMemory` if memory ran out.
pub(crate) fn fault_of_stop(
    alloc: Global,
    deck: &Deck,
    nodes: &Nodes,
    explored: &Explored,
    stop: &Stop,
) -> QueryFault
    requires nodes { AreSoundNodes (table_of_deck deck.now) (node_lists nodes.now) }
    requires faults { AreExploredFaultsKnown (node_lists nodes.now) explored.now.names explored.now.findings }
    requires named { (q : QueryFault)
        × IsLiveStopFault (table_of_deck deck.now) (node_lists nodes.now) explored.now.dead_ends.items
        explored.now.findings.faults stop.now q }
    ensures { (q : QueryFault)
        → IsLiveStopFault (table_of_deck deck.now) (node_lists nodes.now) explored.now.dead_ends.items
        explored.now.findings.faults stop.now q → (result ≡ query_fault.OutOfMemory) ⊎ (result ≡ q) }
{
    match named_stop(alloc, deck, nodes, explored, stop) {
        Ok(fault) => QueryFault::Name(fault),
        Err(_) => QueryFault::OutOfMemory,
    }
}

// Returns the name fault of a query that stops there. The only error is lack of memory.
fn named_stop(
    alloc: Global,
    deck: &Deck,
    nodes: &Nodes,
    explored: &Explored,
    stop: &Stop,
) -> Result<NameFault, AllocError>
    requires nodes { AreSoundNodes (table_of_deck deck.now) (node_lists nodes.now) }
    requires faults { AreExploredFaultsKnown (node_lists nodes.now) explored.now.names explored.now.findings }
    requires named { (q : QueryFault)
        × IsLiveStopFault (table_of_deck deck.now) (node_lists nodes.now) explored.now.dead_ends.items
        explored.now.findings.faults stop.now q }
    ensures { IfOk result (λ f. (q : QueryFault) → IsLiveStopFault (table_of_deck deck.now) (node_lists nodes.now)
        explored.now.dead_ends.items explored.now.findings.faults stop.now q → q ≡ query_fault.Name f) }
{
    match stop {
        Stop::At(end) => end.fault(alloc, None),
        Stop::Below(step) => fault_below(alloc, deck, nodes, explored, *step),
        Stop::OutOfMemory => Err(AllocError),
    }
}

// Returns the fault of a step to a name that has one.
fn fault_below(
    alloc: Global,
    deck: &Deck,
    nodes: &Nodes,
    explored: &Explored,
    step: Step,
) -> Result<NameFault, AllocError>
    requires nodes { AreSoundNodes (table_of_deck deck.now) (node_lists nodes.now) }
    requires faults { AreExploredFaultsKnown (node_lists nodes.now) explored.now.names explored.now.findings }
    requires known { IsFaultyWalkStep explored.now.findings.faults step }
    ensures { IfOk result (λ f. live_query_fault (table_of_deck deck.now)
        (node_lists nodes.now) explored.now.dead_ends.items (step ∷ []) ≡ Some f) }
{
    let fault = explored.findings.fault(alloc, step)?;
    let dead_ends = explored.dead_ends.as_slice();
    named_fault(alloc, &nodes.keys, dead_ends, &fault)
}
