//! Assigns numbers and steps to all names below a query.

ghost use Rattle.std.specs.Prelude.{◌≡◌, ◌<◌, ℕ, IfOk, Contains, length};
ghost use Rattle.def_entry.specs.Views.{entry_definition_view};
ghost use Rattle.deck.specs.Tables.{table_of_deck};
ghost use Rattle.live_table.specs.Exploration.{AreAllExplored, AreNodesGrown, AreOtherNodesSame};
ghost use Rattle.live_table.specs.Exploration.{HasOwnExplorationSteps, IsExplorationAgenda, WereExplored};
ghost use Rattle.live_table.specs.Exploration.{nodes_with_steps};
ghost use Rattle.live_table.specs.KnownFaults.{HaveSameNodeSteps};
ghost use Rattle.live_table.specs.FoundDefinitions.{AreNodeDefinitionsFound, HasLiveEntry};
ghost use Rattle.live_table.specs.Sound.{AreSoundNodes};
ghost use Rattle.live_table.specs.TableContents.{node_key_at, node_lists};

use crate::callee::PartStarts;
use crate::dead_end::DeadEnd;
use crate::entry_words::write_entry_words;
use crate::nodes::Nodes;
use crate::surroundings::entry;
use crate::tried_keys::TriedKeys;
use crate::word_steps::put_words;
use crate::worklist::Worklist;
use deck::Deck;
use def_entry::{Kind, What};
use expr_tree::Words;
use name_walk::StepList;
use std::alloc::{AllocError, Global};

// Few queries process so many names.
const MANY: usize = 1024;

/// Numbers all names that the names on the agenda reach, except those that are settled or were explored, and computes
/// their steps in the present table. Afterwards all of them are on the agenda. Returns their definitions, in the order
/// of the agenda. The only error is lack of memory.
pub(crate) fn explore<'a>(
    alloc: Global,
    deck: &'a Deck,
    nodes: &mut Nodes,
    explored: &Worklist,
    worklist: &mut Worklist,
    dead_ends: &mut Vec<DeadEnd>,
    tried: &mut TriedKeys,
) -> Result<Vec<&'a What>, AllocError>
    requires nodes { AreSoundNodes (table_of_deck deck.now) (node_lists nodes.old) }
    requires listed { IsExplorationAgenda (table_of_deck deck.now) (node_lists nodes.old) explored.now worklist.old }
    requires before { WereExplored (table_of_deck deck.now) (node_lists nodes.old) explored.now dead_ends.old.items }
    ensures grown { AreNodesGrown (table_of_deck deck.now) (node_lists nodes.old) (node_lists nodes.new) explored.now
        worklist.old worklist.new dead_ends.old.items dead_ends.new.items }
    ensures before { WereExplored (table_of_deck deck.now) (node_lists nodes.new) explored.now dead_ends.new.items }
    ensures stay { HaveSameNodeSteps explored.now (node_lists nodes.old) (node_lists nodes.new) }
    ensures all { IfOk result
        (λ _. AreAllExplored (table_of_deck deck.now) (node_lists nodes.new) explored.now worklist.new
        dead_ends.new.items) }
    ensures found { IfOk result
        (λ found. AreNodeDefinitionsFound (table_of_deck deck.now) nodes.new.keys worklist.new found.items) }
{
    let mut words = Words::new(alloc);
    let mut found = Vec::new(alloc);
    let mut place = 0;
    while let Some(n) = worklist.get(place) {
        make_room(deck, nodes, place)?;
        let what = entry(deck, nodes, n).what;
        found.push(what)?;
        explore_name(
            alloc, deck, nodes, explored, worklist, dead_ends, tried, &mut words, n, what,
        )?;
        place += 1;
    }
    Ok(found)
}

// Computes the steps and the looks of a name on the agenda from its definition. Its words overwrite those of the
// previous name.
fn explore_name<'a>(
    alloc: Global,
    deck: &Deck,
    nodes: &mut Nodes,
    explored: &Worklist,
    worklist: &mut Worklist,
    dead_ends: &mut Vec<DeadEnd>,
    tried: &mut TriedKeys,
    words: &mut Words<'a>,
    n: usize,
    what: &'a What,
) -> Result<(), AllocError>
    requires nodes { AreSoundNodes (table_of_deck deck.now) (node_lists nodes.old) }
    requires listed { IsExplorationAgenda (table_of_deck deck.now) (node_lists nodes.old) explored.now worklist.old }
    requires name { Contains worklist.old n }
    requires what { HasLiveEntry (table_of_deck deck.now) (node_key_at nodes.old.keys n)
        (entry_definition_view what.now) }
    ensures grown { AreNodesGrown (table_of_deck deck.now) (node_lists nodes.old) (node_lists nodes.new) explored.now
        worklist.old worklist.new dead_ends.old.items dead_ends.new.items }
    ensures same { AreOtherNodesSame (λ m. m ≡ n → ⊥) (node_lists nodes.old) (node_lists nodes.new) }
    ensures written { IfOk result
        (λ _. HasOwnExplorationSteps (table_of_deck deck.now) (node_lists nodes.new) explored.now worklist.new
        dead_ends.new.items n) }
{
    let starts = write_entry_words(alloc, words, what)?;
    let steps = put_words(
        alloc, deck, nodes, explored, worklist, dead_ends, tried, words,
    )?;
    let looks = nodes.gathered.to_vec(alloc)?;
    store_steps(nodes, n, starts, steps, looks);
    Ok(())
}

// Stores the starts of the trees of a name, the steps of its words, and its looks.
fn store_steps(nodes: &mut Nodes, n: usize, starts: PartStarts, steps: StepList, looks: Vec<usize>)
    requires callee_there { n < length (node_lists nodes.old).callees }
    requires steps_there { n < length (node_lists nodes.old).graph }
    requires looks_there { n < length (node_lists nodes.old).looks }
    ensures { (rank : ℕ) × (node_lists nodes.new
        ≡ nodes_with_steps n (record { rank = rank; starts = starts }) steps looks (node_lists nodes.old)) }
{
    nodes.callees[n].starts = starts;
    nodes.steps[n] = steps;
    nodes.looks[n] = looks;
}

// Makes room for all names of the deck at once after a query has processed many names, since it may well process all of
// them. This avoids copying the names again and again as they grow in number.
fn make_room(deck: &Deck, nodes: &mut Nodes, gone: usize) -> Result<(), AllocError>
    ensures { node_lists nodes.new ≡ node_lists nodes.old }
{
    if gone != MANY {
        return Ok(());
    }
    let units = deck.key_count(Kind::Unit);
    let prefixes = deck.key_count(Kind::Prefix);
    let functions = deck.key_count(Kind::Func);
    nodes.make_room(units.saturating_add(prefixes).saturating_add(functions))
}
