//! Invalidation of the outcomes that an edit affects.

ghost use Rattle.std.specs.Prelude.{◌≡◌, ◌<◌, ◌∷◌, [], ℕ};
ghost use Rattle.deck.specs.Changes.{IsEditChange};
ghost use Rattle.deck.specs.Decks.{DeckContents};
ghost use Rattle.deck.specs.Tables.{table_of_deck};
ghost use Rattle.edge_links.specs.Reach.{AreMarksCleared};
ghost use Rattle.edge_links.specs.AffectedNames.{ForgetsNameEdges, IsAffectedByEdges};
ghost use Rattle.name_walk.specs.Findings.{AreNoWalkFindings};
ghost use Rattle.live_table.specs.Calls.{IsAcceptedLiveEdit};
ghost use Rattle.live_table.specs.TableEdges.{IsLive, is_flagged_settled};
ghost use Rattle.live_table.specs.Exploration.{WereExplored};
ghost use Rattle.live_table.specs.Forgotten.{AreForgotten, CanForget};
ghost use Rattle.live_table.specs.OutcomesLeft.{AreSettledNumbersLeft};
ghost use Rattle.live_table.specs.KnownFaults.{AreExploredFaultsKnown};
ghost use Rattle.live_table.specs.TableContents.{live_view_of_nodes, node_lists};

use crate::deck_table::DeckTable;
use crate::explored_names::Explored;
use crate::late_edges::LateEdges;
use crate::nodes::Nodes;
use crate::stored_outcomes::Kept;
use deck::{Deck, changes_are_computed};
use def_entry::{Key, Keys};
use edge_links::NameEdges;
use name_lookup::Present;
use name_walk::findings_law;
use std::alloc::Global;
use std::mem;

/// Forgets the outcomes that a change of keys of the deck affects. A table that was live over the previous deck is live
/// over this one, and its visible state follows the edit. It allocates no memory.
pub(crate) fn forget_changed(
    alloc: Global,
    deck: &Deck,
    nodes: &mut Nodes,
    edges: &mut LateEdges,
    explored: &mut Explored,
    keys: &Keys,
)
    requires can { CanForget (node_lists nodes.old) edges.old.made }
    requires all { edges.old.waiting.items ≡ [] }
    ensures live { (before : DeckContents) (reductions : ℕ) → IsLive before (node_lists nodes.old) edges.old reductions
        → IsEditChange before deck.now keys.now → IsLive deck.now (node_lists nodes.new) edges.new reductions }
    ensures edit { (before : DeckContents) (reductions : ℕ) → IsLive before (node_lists nodes.old) edges.old reductions
        → IsEditChange before deck.now keys.now
        → IsAcceptedLiveEdit (live_view_of_nodes before (node_lists nodes.old) reductions)
        (live_view_of_nodes deck.now (node_lists nodes.new) reductions) }
    ensures explored { WereExplored (table_of_deck deck.now) (node_lists nodes.new) explored.new.names
        explored.new.dead_ends.items }
    ensures faults { AreExploredFaultsKnown (node_lists nodes.new) explored.new.names explored.new.findings }
{
    findings_law();
    changes_are_computed();
    forget(
        alloc,
        deck,
        nodes,
        &mut edges.made,
        explored,
        keys.as_slice(),
    );
}

// Forgets the settled names that a change of keys affects, and all names that were explored without being settled, and
// looks up again where each of these keys has its entry, if it has one.
fn forget(
    alloc: Global,
    deck: &Deck,
    nodes: &mut Nodes,
    edges: &mut NameEdges,
    explored: &mut Explored,
    keys: &[Key],
)
    requires { CanForget (node_lists nodes.old) edges.old }
    ensures forgotten { AreForgotten (table_of_deck deck.now) keys.now (node_lists nodes.old) (node_lists nodes.new)
        edges.old edges.new }
    ensures names { explored.new.names ≡ [] }
    ensures dead_ends { explored.new.dead_ends.items ≡ [] }
    ensures findings { AreNoWalkFindings explored.new.findings }
{
    explored.clear(alloc);
    for key in keys {
        forget_key(alloc, deck, nodes, edges, key);
    }
}

// Forgets the settled names that a change of one key affects, and looks up its entry again. A key without a number was
// never looked at.
fn forget_key(alloc: Global, deck: &Deck, nodes: &mut Nodes, edges: &mut NameEdges, key: &Key)
    requires { CanForget (node_lists nodes.old) edges.old }
    ensures { AreForgotten (table_of_deck deck.now) (key.now ∷ []) (node_lists nodes.old)
        (node_lists nodes.new) edges.old edges.new }
{
    let Some(n) = nodes.keys.number_of(key.kind, key.name.as_bytes()) else {
        return;
    };
    nodes.note(n, DeckTable(deck).find(key.kind, key.name.as_bytes()));
    if n < edges.names() {
        forget_number(alloc, nodes, edges, n);
    }
}

// Forgets the settled names that a change of the key with number `n` affects.
fn forget_number(alloc: Global, nodes: &mut Nodes, edges: &mut NameEdges, n: usize)
    requires { n < edges.old.names }
    ensures edges { ForgetsNameEdges (IsAffectedByEdges edges.old n) edges.old edges.new }
    ensures marks { AreMarksCleared (IsAffectedByEdges edges.old n) (is_flagged_settled nodes.old.settled.items)
        (is_flagged_settled nodes.new.settled.items) }
    ensures left { AreSettledNumbersLeft nodes.old.settled.items nodes.new.settled.items nodes.old.settled_count
        nodes.new.settled_count nodes.old.outcomes.items nodes.new.outcomes.items }
    ensures rest { node_lists nodes.new ≡ record (node_lists nodes.old) {
      settled_flags = nodes.new.settled.items;
      count = nodes.new.settled_count;
      outcomes = nodes.new.outcomes.items;
    } }
{
    let kept = Kept {
        settled: mem::replace(&mut nodes.settled, Vec::new(alloc)),
        count: nodes.settled_count,
        outcomes: mem::replace(&mut nodes.outcomes, Vec::new(alloc)),
    };
    let kept = edges.forget(n, kept);
    nodes.settled = kept.settled;
    nodes.settled_count = kept.count;
    nodes.outcomes = kept.outcomes;
}
