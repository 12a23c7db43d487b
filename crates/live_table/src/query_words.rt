//! The words of a query.

ghost use Rattle.std.specs.Prelude.{◌≡◌, List, Some, IfOk};
ghost use Rattle.deck.specs.Tables.{table_of_deck};
ghost use Rattle.live_table.specs.declared.dead_end.DeadEnd.{DeadEnd};
ghost use Rattle.live_table.specs.Exploration.{AreNodesAdded, IsExplorationAgenda};
ghost use Rattle.live_table.specs.QueryWords.{AreExploredQuerySteps};
ghost use Rattle.live_table.specs.Sound.{AreSoundNodes};
ghost use Rattle.live_table.specs.WordTargets.{is_refused_node_destination};
ghost use Rattle.live_table.specs.TableContents.{node_lists};

use crate::dead_end::DeadEnd;
use crate::nodes::Nodes;
use crate::tried_keys::TriedKeys;
use crate::word_steps::{push_steps, step_list_for, target_steps};
use crate::word_targets::{Destination, query_destination};
use crate::worklist::Worklist;
use deck::Deck;
use expr_tree::{WordUse, Words};
use name_walk::StepList;
use std::alloc::{AllocError, Global};

/// The steps of the words of a query before the first one that leads nowhere, and that word, if any.
#[derive(Drop)]
pub(crate) struct QuerySteps {
    pub(crate) steps: StepList,
    pub(crate) end: Option<DeadEnd>,
}

/// Returns the steps of the words of a query, two for each, up to the first word that leads nowhere; the words after it
/// are not looked up. A target without a number gets one, and is put on the agenda if it is not known; no other key
/// that is tried gets a number. The only error is lack of memory.
pub(crate) fn query_steps(
    alloc: Global,
    deck: &Deck,
    nodes: &mut Nodes,
    explored: &Worklist,
    worklist: &mut Worklist,
    tried: &mut TriedKeys,
    words: &Words<'_>,
) -> Result<QuerySteps, AllocError>
    requires nodes { AreSoundNodes (table_of_deck deck.now) (node_lists nodes.old) }
    requires listed { IsExplorationAgenda (table_of_deck deck.now) (node_lists nodes.old) explored.now worklist.old }
    ensures added { (ends : List DeadEnd)
        → AreNodesAdded (table_of_deck deck.now) (node_lists nodes.old) (node_lists nodes.new)
        explored.now worklist.old worklist.new ends ends }
    ensures steps { IfOk result
        (λ query. AreExploredQuerySteps (table_of_deck deck.now) (node_lists nodes.new) explored.now worklist.new
        words.now query.steps query.end) }
{
    let mut steps = step_list_for(alloc, words)?;
    for u in words.as_slice() {
        let destination = query_destination(alloc, deck, nodes, tried, u)?;
        let Some(word) = target_steps(nodes, explored, worklist, destination)? else {
            return cut_before(alloc, steps, u, destination);
        };
        push_steps(&mut steps, word)?;
    }
    Ok(QuerySteps { steps, end: None })
}

// Returns the steps of a query that is cut before a word that leads nowhere. The only error is lack of memory.
fn cut_before(
    alloc: Global,
    steps: StepList,
    u: &WordUse<'_>,
    destination: Destination,
) -> Result<QuerySteps, AllocError>
    ensures { IfOk result (λ query. query ≡ record {
      steps = steps;
      end = Some (record
          { text = u.now.text; is_refused = is_refused_node_destination destination });
    }) }
{
    let end = Some(DeadEnd::new(alloc, u, destination)?);
    Ok(QuerySteps { steps, end })
}
