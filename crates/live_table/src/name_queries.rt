//! Queries of names.

ghost use Rattle.std.specs.Prelude.{◌≡◌, ◌⊎◌, true, OnOk};
ghost use Rattle.def_entry.specs.Keys as key_spec;
ghost use Rattle.def_entry.specs.Tables.{is_entry_present};
ghost use Rattle.deck.specs.Tables.{table_of_deck};
ghost use Rattle.table_names.specs.Faults.{name_fault};
ghost use Rattle.table_names.specs.NumberedNames.{LeadToKnownNumbers};
ghost use Rattle.live_table.specs.QueryEffects.{IsLiveKeyQuery, IsLiveQueryAnswered, IsLiveQueryEffect};
ghost use Rattle.live_table.specs.TableEdges.{IsLive};
ghost use Rattle.live_table.specs.Exploration.{AreAllExplored, WereExplored, is_known_to_exploration};
ghost use Rattle.live_table.specs.FoundDefinitions.{AreNodeDefinitionsFound};
ghost use Rattle.live_table.specs.KnownFaults.{AreExploredFaultsKnown};
ghost use Rattle.live_table.specs.Sound.{AreSoundNodes};
ghost use Rattle.live_table.specs.States.{AsksWords};
ghost use Rattle.live_table.specs.TableContents.{live_view_of_nodes, node_lists};
ghost use Rattle.live_table.specs.Stops.{HoldsOfNamedLiveResult, IsCutLiveStop};
ghost use Rattle.live_table.specs.declared.stop.Stop.TheVariants.{OutOfMemory};
ghost use Rattle.live_table.specs.EvalInvariants.{AreSettledWords};

use crate::dead_end::DeadEnd;
use crate::exploration::explore;
use crate::explored_names::Explored;
use crate::fault_search::{find_faulty, first_faulty};
use crate::late_edges::LateEdges;
use crate::nodes::Nodes;
use crate::numbered_keys::put_key;
use crate::query_words::{QuerySteps, query_steps};
use crate::scratch::Scratch;
use crate::settlement::settle;
use crate::stop::Stop;
use crate::worklist::Worklist;
use deck::Deck;
use def_entry::{Kind, What};
use expr_tree::Words;
use name_walk::{Step, StepList, findings_law};
use std::alloc::Global;
use std::sync::ledger::Ledger;
use table_names::{numbered_fault_law, settling_law};
use units_io::Steps;

/// Queries the names of words. Either the words have a name fault, or the names that they reach are settled and the
/// result is their steps. A fault is not named yet: the `Stop` says where it was met. If memory runs out, some of the
/// names may be settled.
pub(crate) fn ask_words<L: Ledger>(
    alloc: Global,
    deck: &Deck,
    nodes: &mut Nodes,
    edges: &mut LateEdges,
    explored: &mut Explored,
    scratch: &mut Scratch,
    reductions: &mut u64,
    words: &Words<'_>,
    steps: &mut Steps<L>,
) -> Result<StepList, Stop>
    requires live { IsLive deck.now (node_lists nodes.old) edges.old reductions.old }
    requires explored { WereExplored (table_of_deck deck.now) (node_lists nodes.old) explored.old.names
        explored.old.dead_ends.items }
    requires faults { AreExploredFaultsKnown (node_lists nodes.old) explored.old.names explored.old.findings }
    ensures live { IsLive deck.now (node_lists nodes.new) edges.new reductions.new }
    ensures explored { WereExplored (table_of_deck deck.now) (node_lists nodes.new) explored.new.names
        explored.new.dead_ends.items }
    ensures faults { AreExploredFaultsKnown (node_lists nodes.new) explored.new.names explored.new.findings }
    ensures asked { HoldsOfNamedLiveResult (table_of_deck deck.now) (node_lists nodes.new) explored.new.dead_ends.items
        explored.new.findings.faults result (λ answer. IsLiveQueryEffect (AsksWords words.now)
        (name_fault (table_of_deck deck.now) words.now)
        (λ query. AreSettledWords (table_of_deck deck.now) (node_lists nodes.new) words.now query) answer
        (live_view_of_nodes deck.now (node_lists nodes.old) reductions.old)
        (live_view_of_nodes deck.now (node_lists nodes.new) reductions.new)
        steps.old steps.new) }
{
    numbered_fault_law();
    settling_law();
    findings_law();
    let names = &explored.names;
    let worklist = &mut scratch.worklist;
    let tried = &mut scratch.tried;
    worklist.clear();
    let query = query_steps(alloc, deck, nodes, names, worklist, tried, words)?;
    let found = explore(
        alloc,
        deck,
        nodes,
        names,
        worklist,
        &mut explored.dead_ends,
        tried,
    )?;
    let QuerySteps { steps: list, end } = query;
    let targets = list.as_slice();
    if let Some(end) = end {
        return Err(cut_stop(
            alloc,
            deck,
            nodes,
            explored,
            &scratch.worklist,
            targets,
            end,
        ));
    }
    settle_query(
        alloc, deck, nodes, edges, explored, scratch, reductions, targets, &found, steps,
    )?;
    Ok(list)
}

/// Queries a key that has an entry, as `ask_words` queries words, and returns its number.
pub(crate) fn ask_key<L: Ledger>(
    alloc: Global,
    deck: &Deck,
    nodes: &mut Nodes,
    edges: &mut LateEdges,
    explored: &mut Explored,
    scratch: &mut Scratch,
    reductions: &mut u64,
    kind: Kind,
    name: &[u8],
    steps: &mut Steps<L>,
) -> Result<usize, Stop>
    requires live { IsLive deck.now (node_lists nodes.old) edges.old reductions.old }
    requires explored { WereExplored (table_of_deck deck.now) (node_lists nodes.old) explored.old.names
        explored.old.dead_ends.items }
    requires faults { AreExploredFaultsKnown (node_lists nodes.old) explored.old.names explored.old.findings }
    requires present { is_entry_present (table_of_deck deck.now) (key_spec.key kind name.now) ≡ true }
    ensures live { IsLive deck.now (node_lists nodes.new) edges.new reductions.new }
    ensures explored { WereExplored (table_of_deck deck.now) (node_lists nodes.new) explored.new.names
        explored.new.dead_ends.items }
    ensures faults { AreExploredFaultsKnown (node_lists nodes.new) explored.new.names explored.new.findings }
    ensures asked { HoldsOfNamedLiveResult (table_of_deck deck.now) (node_lists nodes.new) explored.new.dead_ends.items
        explored.new.findings.faults result
        (λ answer. IsLiveKeyQuery (key_spec.key kind name.now) (node_lists nodes.new)
        answer (live_view_of_nodes deck.now (node_lists nodes.old) reductions.old)
        (live_view_of_nodes deck.now (node_lists nodes.new) reductions.new)
        steps.old steps.new) }
{
    numbered_fault_law();
    settling_law();
    findings_law();
    let names = &explored.names;
    let worklist = &mut scratch.worklist;
    let tried = &mut scratch.tried;
    worklist.clear();
    let n = put_key(alloc, deck, nodes, names, worklist, kind, name)?;
    let found = explore(
        alloc,
        deck,
        nodes,
        names,
        worklist,
        &mut explored.dead_ends,
        tried,
    )?;
    let query = [Step::To(n)];
    settle_query(
        alloc, deck, nodes, edges, explored, scratch, reductions, &query, &found, steps,
    )?;
    Ok(n)
}

// Settles the names that a query newly closes. If the query has a name fault, the explored names are remembered
// instead. All names below the query are explored, and `found` holds the definitions of the names on the agenda, in its
// order.
fn settle_query<'a, L: Ledger>(
    alloc: Global,
    deck: &'a Deck,
    nodes: &mut Nodes,
    edges: &mut LateEdges,
    explored: &mut Explored,
    scratch: &mut Scratch,
    reductions: &mut u64,
    query: &[Step],
    found: &[&'a What],
    steps: &mut Steps<L>,
) -> Result<(), Stop>
    requires live { IsLive deck.now (node_lists nodes.old) edges.old reductions.old }
    requires all { AreAllExplored (table_of_deck deck.now) (node_lists nodes.old) explored.old.names
        scratch.old.worklist explored.old.dead_ends.items }
    requires faults { AreExploredFaultsKnown (node_lists nodes.old) explored.old.names explored.old.findings }
    requires known { LeadToKnownNumbers
        (is_known_to_exploration nodes.old.settled.items explored.old.names scratch.old.worklist) query.now }
    requires found { AreNodeDefinitionsFound (table_of_deck deck.now) nodes.old.keys scratch.old.worklist found.now }
    ensures live { IsLive deck.now (node_lists nodes.new) edges.new reductions.new }
    ensures explored { WereExplored (table_of_deck deck.now) (node_lists nodes.new) explored.new.names
        explored.new.dead_ends.items }
    ensures faults { AreExploredFaultsKnown (node_lists nodes.new) explored.new.names explored.new.findings }
    ensures keys { OnOk result (nodes.new.keys ≡ nodes.old.keys) }
    ensures answered { HoldsOfNamedLiveResult (table_of_deck deck.now)
        (node_lists nodes.new) explored.new.dead_ends.items
        explored.new.findings.faults result
        (λ answer. IsLiveQueryAnswered (table_of_deck deck.now) (node_lists nodes.old)
        explored.old.dead_ends.items query.now answer
        (live_view_of_nodes deck.now (node_lists nodes.old) reductions.old)
        (live_view_of_nodes deck.now (node_lists nodes.new) reductions.new)
        steps.old steps.new) }
{
    numbered_fault_law();
    findings_law();
    let walker = &mut scratch.walker;
    let worklist = &scratch.worklist;
    if let Some(step) = first_faulty(alloc, deck, nodes, explored, walker, worklist, query)? {
        return Err(Stop::Below(step));
    }
    let order = walker.order();
    settle(
        alloc, deck, nodes, edges, reductions, order, worklist, found, steps,
    )?;
    Ok(())
}

// Returns the stop of a query that is cut before a word that leads nowhere: the first of the preceding steps that has a
// fault, or else that word. If memory runs out, the stop says so.
fn cut_stop(
    alloc: Global,
    deck: &Deck,
    nodes: &Nodes,
    explored: &mut Explored,
    worklist: &Worklist,
    query: &[Step],
    end: DeadEnd,
) -> Stop
    requires all { AreAllExplored (table_of_deck deck.now) (node_lists nodes.now) explored.old.names worklist.now
        explored.old.dead_ends.items }
    requires nodes { AreSoundNodes (table_of_deck deck.now) (node_lists nodes.now) }
    requires faults { AreExploredFaultsKnown (node_lists nodes.now) explored.old.names explored.old.findings }
    requires known { LeadToKnownNumbers
        (is_known_to_exploration nodes.now.settled.items explored.old.names worklist.now) query.now }
    ensures explored { WereExplored (table_of_deck deck.now) (node_lists nodes.now) explored.new.names
        explored.new.dead_ends.items }
    ensures faults { AreExploredFaultsKnown (node_lists nodes.now) explored.new.names explored.new.findings }
    ensures dead_ends { explored.new.dead_ends.items ≡ explored.old.dead_ends.items }
    ensures stop { (result ≡ OutOfMemory) ⊎ IsCutLiveStop (table_of_deck deck.now) (node_lists nodes.now)
        explored.old.dead_ends.items explored.new.findings.faults query.now end result }
{
    match find_faulty(alloc, deck, nodes, explored, worklist, query) {
        Ok(Some(step)) => Stop::Below(step),
        Ok(None) => Stop::At(end),
        Err(_) => Stop::OutOfMemory,
    }
}
