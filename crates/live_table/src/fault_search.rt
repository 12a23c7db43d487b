//! Searching for the first fault of a query.

ghost use Rattle.std.specs.Prelude.{◌≡◌, IfOk};
ghost use Rattle.deck.specs.Tables.{table_of_deck};
ghost use Rattle.table_names.specs.NumberedNames.{LeadToKnownNumbers};
ghost use Rattle.name_walk.specs.Findings.{IsFirstFaultyWalkStep};
ghost use Rattle.live_table.specs.Exploration.{AreAllExplored, WereExplored, is_known_to_exploration};
ghost use Rattle.live_table.specs.KnownFaults.{AreExploredFaultsKnown, IsFirstExploredFault};
ghost use Rattle.live_table.specs.Sound.{AreSoundNodes};
ghost use Rattle.live_table.specs.TableContents.{node_lists};

use crate::explored_names::Explored;
use crate::nodes::Nodes;
use crate::worklist::Worklist;
use deck::Deck;
use name_walk::{Step, WalkGraph, Walker, findings_law};
use std::alloc::{AllocError, Global};

/// Returns the first step of a query that has a fault. If there is none, returns `None`, and the walker has the order
/// of the names that the query newly closes. Until the first fault is found, a single walk suffices and nothing is
/// remembered. The only error is lack of memory.
pub(crate) fn first_faulty(
    alloc: Global,
    deck: &Deck,
    nodes: &Nodes,
    explored: &mut Explored,
    walker: &mut Walker,
    worklist: &Worklist,
    query: &[Step],
) -> Result<Option<Step>, AllocError>
    requires all { AreAllExplored (table_of_deck deck.now) (node_lists nodes.now) explored.old.names worklist.now
        explored.old.dead_ends.items }
    requires nodes { AreSoundNodes (table_of_deck deck.now) (node_lists nodes.now) }
    requires faults { AreExploredFaultsKnown (node_lists nodes.now) explored.old.names explored.old.findings }
    requires known { LeadToKnownNumbers
        (is_known_to_exploration nodes.now.settled.items explored.old.names worklist.now) query.now }
    ensures explored { WereExplored (table_of_deck deck.now) (node_lists nodes.now) explored.new.names
        explored.new.dead_ends.items }
    ensures faults { AreExploredFaultsKnown (node_lists nodes.now) explored.new.names explored.new.findings }
    ensures dead_ends { explored.new.dead_ends.items ≡ explored.old.dead_ends.items }
    ensures found { IfOk result (IsFirstExploredFault (node_lists nodes.now) query.now walker.new
        explored.new.findings.faults) }
{
    let net = WalkGraph {
        steps: &nodes.steps,
        settled: &nodes.settled,
    };
    if explored.findings.is_empty() && walker.walk(alloc, &net, query)?.is_none() {
        return Ok(None);
    }
    if let Some(step) = find_faulty(alloc, deck, nodes, explored, worklist, query)? {
        return Ok(Some(step));
    }
    walker.walk(alloc, &net, query)?;
    Ok(None)
}

/// Returns the first step of a query that has a fault, or `None` if there is none. For each name below the query it is
/// remembered whether the name has a fault: no search visits it again until the next edit. The only error is lack of
/// memory.
pub(crate) fn find_faulty(
    alloc: Global,
    deck: &Deck,
    nodes: &Nodes,
    explored: &mut Explored,
    worklist: &Worklist,
    query: &[Step],
) -> Result<Option<Step>, AllocError>
    requires all { AreAllExplored (table_of_deck deck.now) (node_lists nodes.now) explored.old.names worklist.now
        explored.old.dead_ends.items }
    requires nodes { AreSoundNodes (table_of_deck deck.now) (node_lists nodes.now) }
    requires faults { AreExploredFaultsKnown (node_lists nodes.now) explored.old.names explored.old.findings }
    requires known { LeadToKnownNumbers
        (is_known_to_exploration nodes.now.settled.items explored.old.names worklist.now) query.now }
    ensures explored { WereExplored (table_of_deck deck.now) (node_lists nodes.now) explored.new.names
        explored.new.dead_ends.items }
    ensures faults { AreExploredFaultsKnown (node_lists nodes.now) explored.new.names explored.new.findings }
    ensures dead_ends { explored.new.dead_ends.items ≡ explored.old.dead_ends.items }
    ensures found { IfOk result
        (IsFirstFaultyWalkStep (node_lists nodes.now).graph query.now explored.new.findings.faults) }
{
    findings_law();
    explored.put_all(alloc, worklist, nodes.keys.len())?;
    let net = WalkGraph {
        steps: &nodes.steps,
        settled: &nodes.settled,
    };
    explored.findings.find(alloc, &net, query)
}
