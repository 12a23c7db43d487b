//! Assigns numbers to the keys that the lookup of a word tried.

ghost use Rattle.std.specs.Prelude.{◌≡◌, ◌<◌, ◌≤◌, ◌-◌, ℕ, List, IfOk, length, take};
ghost use Rattle.deck.specs.Tables.{table_of_deck};
ghost use Rattle.name_lookup.specs.Targets.{last_lookup_keys, lookup_target_count};
ghost use Rattle.live_table.specs.declared.dead_end.DeadEnd.{DeadEnd};
ghost use Rattle.live_table.specs.Exploration.{AreNodesAdded, IsExplorationAgenda};
ghost use Rattle.live_table.specs.WordTargets.{AreNodeNumbersGathered, LeadsToNodeKeys};
ghost use Rattle.live_table.specs.Sound.{AreSoundNodes};
ghost use Rattle.live_table.specs.TableContents.{node_key_at, node_lists};

use crate::deck_table::DeckTable;
use crate::nodes::Nodes;
use crate::numbered_keys::number;
use crate::tried_keys::TriedKeys;
use crate::word_targets::Destination;
use deck::Deck;
use name_lookup::Targets;
use std::alloc::{AllocError, Global};

/// Gives numbers to the keys that were tried before the targets, and gathers them. The only error is lack of memory.
pub(crate) fn gather_others(
    alloc: Global,
    deck: &Deck,
    nodes: &mut Nodes,
    tried: &TriedKeys,
    targets: Targets,
) -> Result<(), AllocError>
    requires { AreSoundNodes (table_of_deck deck.now) (node_lists nodes.old) }
    ensures added { (before list : List ℕ) (ends : List DeadEnd)
        → IsExplorationAgenda (table_of_deck deck.now) (node_lists nodes.old) before list
        → AreNodesAdded (table_of_deck deck.now) (node_lists nodes.old) (node_lists nodes.new) before list list ends
        ends }
    ensures gathered { IfOk result (λ _. AreNodeNumbersGathered nodes.new.keys
        (take (length tried.now - lookup_target_count targets) tried.now)
        nodes.old.gathered nodes.new.gathered) }
{
    for place in 0..tried.len().saturating_sub(targets.count()) {
        let n = number_at(alloc, deck, nodes, tried, place)?;
        nodes.gathered.put(n, nodes.keys.len())?;
    }
    Ok(())
}

/// Gives numbers to the targets among the keys that were tried, and returns the destination of the word by number. The
/// only error is lack of memory.
pub(crate) fn number_targets(
    alloc: Global,
    deck: &Deck,
    nodes: &mut Nodes,
    tried: &TriedKeys,
    targets: Targets,
) -> Result<Destination, AllocError>
    requires nodes { AreSoundNodes (table_of_deck deck.now) (node_lists nodes.old) }
    requires enough { lookup_target_count targets ≤ length tried.now }
    ensures added { (before list : List ℕ) (ends : List DeadEnd)
        → IsExplorationAgenda (table_of_deck deck.now) (node_lists nodes.old) before list
        → AreNodesAdded (table_of_deck deck.now) (node_lists nodes.old) (node_lists nodes.new) before list list ends
        ends }
    ensures gathered { nodes.new.gathered ≡ nodes.old.gathered }
    ensures destination { IfOk result
        (LeadsToNodeKeys nodes.new.keys (last_lookup_keys (lookup_target_count targets) tried.now)) }
{
    match targets {
        Targets::Nowhere => Ok(Destination::Nowhere),
        Targets::Last => {
            let n = number_at(alloc, deck, nodes, tried, tried.len() - 1)?;
            Ok(Destination::One(n))
        }
        Targets::LastTwo => {
            let n = number_at(alloc, deck, nodes, tried, tried.len() - 2)?;
            let m = number_at(alloc, deck, nodes, tried, tried.len() - 1)?;
            Ok(Destination::Two(n, m))
        }
    }
}

// Returns the number of the key that was tried at a place, a new one if it has none.
fn number_at(
    alloc: Global,
    deck: &Deck,
    nodes: &mut Nodes,
    tried: &TriedKeys,
    place: usize,
) -> Result<usize, AllocError>
    requires nodes { AreSoundNodes (table_of_deck deck.now) (node_lists nodes.old) }
    requires within { place < length tried.now }
    ensures added { (before list : List ℕ) (ends : List DeadEnd)
        → IsExplorationAgenda (table_of_deck deck.now) (node_lists nodes.old) before list
        → AreNodesAdded (table_of_deck deck.now) (node_lists nodes.old) (node_lists nodes.new) before list list ends
        ends }
    ensures gathered { nodes.new.gathered ≡ nodes.old.gathered }
    ensures number { IfOk result (λ n. (n < length nodes.new.keys)
        × (node_key_at tried.now place ≡ node_key_at nodes.new.keys n)) }
{
    number(
        alloc,
        &DeckTable(deck),
        nodes,
        tried.kind(place),
        tried.name(place),
    )
}
