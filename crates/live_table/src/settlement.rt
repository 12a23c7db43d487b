//! Computes the outcomes of names in the order of a walk.

ghost use Rattle.std.specs.Prelude.{◌≡◌, ◌+◌, ◌^◌, ◌<◌, ◌∷◌, [], ℕ, map, true, IfOk, OnErr, OnOk, Some, length};
ghost use Rattle.std.specs.Prelude.{slice_get, Contains};
ghost use Rattle.def_entry.specs.Tables.{is_entry_present};
ghost use Rattle.def_entry.specs.Views.{entry_definition_view};
ghost use Rattle.live_table.specs.declared.callee.Callee.{Callee};
ghost use Rattle.deck.specs.Tables.{table_of_deck};
ghost use Rattle.tree_eval.specs.Entries.{rank_of_meaning};
ghost use Rattle.table_names.specs.Meanings as names;
ghost use Rattle.live_table.specs.QueryEffects.{AreSettledBy, live_view_with_settled};
ghost use Rattle.live_table.specs.Due.{AreDueToBeSettled, IsDueToBeSettled, nodes_with_settled_outcome};
ghost use Rattle.live_table.specs.TableEdges.{HasLateSettledEdges};
ghost use Rattle.live_table.specs.Exploration.{StayExplored};
ghost use Rattle.live_table.specs.FoundDefinitions.{AreNodeDefinitionsFound, HasLiveEntry};
ghost use Rattle.live_table.specs.KnownFaults.{AreMoreNamesSettled};
ghost use Rattle.live_table.specs.Ranks as ranks;
ghost use Rattle.live_table.specs.Sound.{IsSoundLiveTable};
ghost use Rattle.live_table.specs.TableContents.{live_view_of_nodes, node_key_at, node_lists};

use crate::callee::Callee;
use crate::late_edges::LateEdges;
use crate::nodes::Nodes;
use crate::surroundings::{Asked, Surroundings, entry, steps_of};
use crate::worklist::Worklist;
use deck::{Deck, tables_are_of_lines};
use def_entry::What;
use name_walk::Step;
use std::alloc::{AllocError, Global};
use std::sync::ledger::Ledger;
use tree_eval::{Outcome, reduce};
use units_io::Steps;

/// Settles the names of a walk, targets before users, each with one step. Their edges are not created yet. `found`
/// holds the definitions of the names on the agenda, in its order.
pub(crate) fn settle<'a, L: Ledger>(
    alloc: Global,
    deck: &'a Deck,
    nodes: &mut Nodes,
    edges: &mut LateEdges,
    reductions: &mut u64,
    order: &[usize],
    worklist: &Worklist,
    found: &[&'a What],
    steps: &mut Steps<L>,
) -> Result<(), AllocError>
    requires sound { IsSoundLiveTable deck.now (node_lists nodes.old) reductions.old }
    requires edges { HasLateSettledEdges deck.now (node_lists nodes.old) edges.old.waiting.items edges.old.made }
    requires order { AreDueToBeSettled (table_of_deck deck.now) (node_lists nodes.old) order.now }
    requires found { AreNodeDefinitionsFound (table_of_deck deck.now) nodes.old.keys worklist.now found.now }
    ensures sound { IsSoundLiveTable deck.now (node_lists nodes.new) reductions.new }
    ensures edges { HasLateSettledEdges deck.now (node_lists nodes.new) edges.new.waiting.items edges.new.made }
    ensures explored { StayExplored (table_of_deck deck.now) (node_lists nodes.old) (node_lists nodes.new) }
    ensures later { AreMoreNamesSettled (node_lists nodes.old) (node_lists nodes.new) }
    ensures settled { AreSettledBy (map (node_key_at nodes.old.keys) order.now) result
        (live_view_of_nodes deck.now (node_lists nodes.old) reductions.old)
        (live_view_of_nodes deck.now (node_lists nodes.new) reductions.new)
        steps.old steps.new }
    ensures keys { OnOk result (nodes.new.keys ≡ nodes.old.keys) }
{
    for n in order {
        let what = what_of(deck, nodes, worklist, found, *n);
        settle_one(alloc, deck, nodes, edges, reductions, *n, what, steps)?;
    }
    Ok(())
}

// Returns the definition of a name. A name that was explored before is not on the agenda.
fn what_of<'a>(
    deck: &'a Deck,
    nodes: &Nodes,
    worklist: &Worklist,
    found: &[&'a What],
    n: usize,
) -> &'a What
    requires found { AreNodeDefinitionsFound (table_of_deck deck.now) nodes.now.keys worklist.now found.now }
    requires within { n < length nodes.now.keys }
    requires present { is_entry_present (table_of_deck deck.now) (node_key_at nodes.now.keys n) ≡ true }
    ensures { HasLiveEntry (table_of_deck deck.now) (node_key_at nodes.now.keys n) (entry_definition_view result.now) }
{
    let Some(place) = worklist.place_of(n) else {
        return entry(deck, nodes, n).what;
    };
    match found.get(place) {
        Some(what) => what,
        None => entry(deck, nodes, n).what,
    }
}

// Settles a name, given its definition, with one step. If memory runs out, the name is unchanged.
fn settle_one<L: Ledger>(
    alloc: Global,
    deck: &Deck,
    nodes: &mut Nodes,
    edges: &mut LateEdges,
    reductions: &mut u64,
    n: usize,
    what: &What,
    steps: &mut Steps<L>,
) -> Result<(), AllocError>
    requires sound { IsSoundLiveTable deck.now (node_lists nodes.old) reductions.old }
    requires edges { HasLateSettledEdges deck.now (node_lists nodes.old) edges.old.waiting.items edges.old.made }
    requires due { IsDueToBeSettled (table_of_deck deck.now) (node_lists nodes.old) n }
    requires what { HasLiveEntry (table_of_deck deck.now) (node_key_at nodes.old.keys n)
        (entry_definition_view what.now) }
    ensures sound { IsSoundLiveTable deck.now (node_lists nodes.new) reductions.new }
    ensures edges { HasLateSettledEdges deck.now (node_lists nodes.new) edges.new.waiting.items edges.new.made }
    ensures explored { StayExplored (table_of_deck deck.now) (node_lists nodes.old) (node_lists nodes.new) }
    ensures later { AreMoreNamesSettled (node_lists nodes.old) (node_lists nodes.new) }
    ensures nodes { OnOk result
        ((o : Outcome) × (c : Callee)
        × (node_lists nodes.new ≡ nodes_with_settled_outcome n o c (node_lists nodes.old))) }
    ensures ok { OnOk result (live_view_of_nodes deck.now (node_lists nodes.new) reductions.new
        ≡ live_view_with_settled (live_view_of_nodes deck.now (node_lists nodes.old) reductions.old)
        (node_key_at nodes.old.keys n ∷ [])) }
    ensures err { OnErr result (live_view_of_nodes deck.now (node_lists nodes.new) reductions.new
        ≡ live_view_of_nodes deck.now (node_lists nodes.old) reductions.old) }
    ensures steps { steps.new ≡ steps.old + 1 }
{
    let outcome = outcome_of(alloc, deck, nodes, n, what, steps)?;
    let rank = rank_of(deck, nodes, n, &outcome);
    edges.waiting.push_back(n)?;
    store_outcome(nodes, n, outcome, rank);
    *reductions = reductions.saturating_add(1);
    Ok(())
}

// Stores the outcome and the rank of a name and marks it as settled.
fn store_outcome(nodes: &mut Nodes, n: usize, outcome: Outcome, rank: u32)
    requires callees { n < length (node_lists nodes.old).callees }
    requires outcomes { n < length (node_lists nodes.old).outcomes }
    requires settled { n < length (node_lists nodes.old).settled_flags }
    requires room { (node_lists nodes.old).count + 1 < 2 ^ 64 }
    ensures { (c : Callee) → slice_get (node_lists nodes.old).callees n ≡ Some c
        → node_lists nodes.new ≡ nodes_with_settled_outcome n outcome (ranks.node_callee_with_rank rank c)
        (node_lists nodes.old) }
{
    let starts = nodes.callees[n].starts;
    nodes.callees[n] = Callee { rank, starts };
    nodes.outcomes[n] = Some(outcome);
    nodes.settled[n] = true;
    nodes.settled_count += 1;
}

// Computes the outcome of a name, given its definition, in one step.
fn outcome_of<'a, L: Ledger>(
    alloc: Global,
    deck: &'a Deck,
    nodes: &'a Nodes,
    n: usize,
    what: &What,
    steps: &mut Steps<L>,
) -> Result<Outcome, AllocError>
    requires sound { (reductions : ℕ) × IsSoundLiveTable deck.now (node_lists nodes.now) reductions }
    requires due { IsDueToBeSettled (table_of_deck deck.now) (node_lists nodes.now) n }
    requires what { HasLiveEntry (table_of_deck deck.now) (node_key_at nodes.now.keys n)
        (entry_definition_view what.now) }
    ensures outcome { IfOk result (λ o. o ≡ names.outcome (table_of_deck deck.now) (node_key_at nodes.now.keys n)) }
    ensures steps { steps.new ≡ steps.old + 1 }
{
    let surroundings = Surroundings {
        deck,
        nodes,
        asked: Asked::Name(n),
    };
    reduce(alloc, &surroundings, n, nodes.keys.name(n), what, steps)
}

// Returns the rank of a name with this outcome.
fn rank_of(deck: &Deck, nodes: &Nodes, n: usize, outcome: &Outcome) -> u32
    requires sound { (reductions : ℕ) × IsSoundLiveTable deck.now (node_lists nodes.now) reductions }
    requires due { IsDueToBeSettled (table_of_deck deck.now) (node_lists nodes.now) n }
    requires outcome { outcome.now ≡ names.outcome (table_of_deck deck.now) (node_key_at nodes.now.keys n) }
    ensures { result ≡ rank_of_meaning (names.key_meaning (table_of_deck deck.now) (node_key_at nodes.now.keys n)) }
{
    // No deck has so many lines that a rank would not fit.
    tables_are_of_lines();
    deck.lines_few();
    match outcome {
        Outcome::Callable => greatest_rank(&nodes.callees, steps_of(nodes, n)) + 1,
        _ => 0,
    }
}

// Returns the greatest rank of the names to which the steps lead, or 0 if there are none.
fn greatest_rank(callees: &[Callee], steps: &[Step]) -> u32
    requires { (m : ℕ) → Contains steps.now (Step.To m) → m < length callees.now }
    ensures { result ≡ ranks.greatest_node_step_rank callees.now steps.now }
{
    let mut greatest = 0;
    for step in steps {
        greatest = step_rank(callees, *step).max(greatest);
    }
    greatest
}

// Returns the rank of the name to which a step leads, or 0 if it leads nowhere.
fn step_rank(callees: &[Callee], step: Step) -> u32
    requires { (m : ℕ) → step ≡ Step.To m → m < length callees.now }
    ensures { result ≡ ranks.node_step_rank callees.now step }
{
    match step {
        Step::To(n) => callees[n].rank,
        Step::Nowhere(_) => 0,
    }
}
