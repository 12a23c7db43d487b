//! Creates the edges of settled names when an edit needs them.

ghost use Rattle.std.specs.Prelude.{◌≡◌, ◌⊎◌, ◌↔◌, ◌<◌, ◌∷◌, [], ℕ, List, OnErr, OnOk, Contains};
ghost use Rattle.name_walk.specs.ClosedNames.{IsSettledInGraph};
ghost use Rattle.live_table.specs.TableEdges.{HasLateSettledEdges};
ghost use Rattle.live_table.specs.Sound.{IsSoundLiveTable};
ghost use Rattle.live_table.specs.TableContents.{node_lists};

use crate::late_edges::LateEdges;
use crate::nodes::Nodes;
use crate::surroundings::steps_of;
use crate::worklist::Worklist;
use deck::Deck;
use edge_links::{NameEdges, linking_law};
use name_walk::Step;
use std::alloc::{AllocError, Global};

/// Creates the edges of the names that wait for them. If memory runs out, the names without edges go on waiting.
pub(crate) fn link_waiting(
    alloc: Global,
    deck: &Deck,
    nodes: &Nodes,
    edges: &mut LateEdges,
) -> Result<(), AllocError>
    requires sound { (reductions : ℕ) × IsSoundLiveTable deck.now (node_lists nodes.now) reductions }
    requires edges { HasLateSettledEdges deck.now (node_lists nodes.now) edges.old.waiting.items edges.old.made }
    ensures edges { HasLateSettledEdges deck.now (node_lists nodes.now) edges.new.waiting.items edges.new.made }
    ensures all { OnOk result (edges.new.waiting.items ≡ []) }
{
    while let Some(n) = edges.waiting.front() {
        link(alloc, deck, nodes, &mut edges.made, &mut edges.targets, *n)?;
        edges.waiting.pop_front();
    }
    Ok(())
}

// Adds the edges of the first waiting name: to each name to which its words lead, which are gathered in `targets`, and
// to each other key at which they look. If memory runs out, no edge is added.
fn link(
    alloc: Global,
    deck: &Deck,
    nodes: &Nodes,
    made: &mut NameEdges,
    targets: &mut Worklist,
    n: usize,
) -> Result<(), AllocError>
    requires sound { (reductions : ℕ) × IsSoundLiveTable deck.now (node_lists nodes.now) reductions }
    requires settled { IsSettledInGraph (node_lists nodes.now).settled_flags n }
    ensures ok { OnOk result ((rest : List ℕ) → HasLateSettledEdges deck.now (node_lists nodes.now) (n ∷ rest) made.old
        → HasLateSettledEdges deck.now (node_lists nodes.now) rest made.new) }
    ensures err { OnErr result
        ((waiting : List ℕ) → HasLateSettledEdges deck.now (node_lists nodes.now) waiting made.old
        → HasLateSettledEdges deck.now (node_lists nodes.now) waiting made.new) }
{
    linking_law();
    let count = nodes.keys.len();
    gather_targets(targets, steps_of(nodes, n), count)?;
    made.cover(alloc, count)?;
    made.link(alloc, n, targets.as_slice(), &nodes.looks[n])?;
    Ok(())
}

// Gathers the distinct names to which steps lead. They are below `end`.
fn gather_targets(targets: &mut Worklist, steps: &[Step], end: usize) -> Result<(), AllocError>
    requires { (m : ℕ) → Contains steps.now (Step.To m) → m < end }
    ensures { OnOk result ((m : ℕ) → Contains targets.new m ↔ Contains steps.now (Step.To m)) }
{
    targets.clear();
    for step in steps {
        gather_target(targets, *step, end)?;
    }
    Ok(())
}

// Gathers the name to which a step leads, if any.
fn gather_target(targets: &mut Worklist, step: Step, end: usize) -> Result<(), AllocError>
    requires { (m : ℕ) → step ≡ Step.To m → m < end }
    ensures { OnOk result ((m : ℕ) → Contains targets.new m ↔ (Contains targets.old m ⊎ (step ≡ Step.To m))) }
{
    match step {
        Step::To(n) => {
            targets.put(n, end)?;
            Ok(())
        }
        Step::Nowhere(_) => Ok(()),
    }
}
