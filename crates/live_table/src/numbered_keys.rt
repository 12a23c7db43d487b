//! Assigns numbers to keys.

ghost use Rattle.std.specs.Prelude.{◌≡◌, ◌<◌, true, List, IfOk, length};
ghost use Rattle.def_entry.specs.Keys as keys;
ghost use Rattle.def_entry.specs.Tables.{EntryTable, is_entry_present};
ghost use Rattle.deck.specs.Tables.{table_of_deck};
ghost use Rattle.live_table.specs.declared.dead_end.DeadEnd.{DeadEnd};
ghost use Rattle.live_table.specs.Exploration.{AreNodesAdded, IsExplorationAgenda, IsExplorationGrowth};
ghost use Rattle.live_table.specs.Exploration.{IsKnownToExploration};
ghost use Rattle.live_table.specs.KeyNumbers.{AreNodesFlagged, IsNodeExtension};
ghost use Rattle.live_table.specs.Sound.{AreSoundNodes};
ghost use Rattle.live_table.specs.TableContents.{node_key_at, node_lists};

use crate::deck_table::DeckTable;
use crate::nodes::Nodes;
use crate::worklist::Worklist;
use deck::Deck;
use def_entry::Kind;
use name_lookup::Present;
use std::alloc::{AllocError, Global};

/// Returns the number of a key that has an entry, a new one if it has none. If the name is not settled and was not
/// explored, the number is put on the agenda. The only error is lack of memory.
pub(crate) fn put_key(
    alloc: Global,
    deck: &Deck,
    nodes: &mut Nodes,
    explored: &Worklist,
    worklist: &mut Worklist,
    kind: Kind,
    name: &[u8],
) -> Result<usize, AllocError>
    requires nodes { AreSoundNodes (table_of_deck deck.now) (node_lists nodes.old) }
    requires listed { IsExplorationAgenda (table_of_deck deck.now) (node_lists nodes.old) explored.now worklist.old }
    requires present { is_entry_present (table_of_deck deck.now) (keys.key kind name.now) ≡ true }
    ensures added { (ends : List DeadEnd)
        → AreNodesAdded (table_of_deck deck.now) (node_lists nodes.old) (node_lists nodes.new) explored.now worklist.old
        worklist.new ends ends }
    ensures target { IfOk result (λ n. (keys.key kind name.now ≡ node_key_at nodes.new.keys n)
        × IsKnownToExploration (node_lists nodes.new) explored.now worklist.new n) }
{
    let n = number(alloc, &DeckTable(deck), nodes, kind, name)?;
    put_target(nodes, explored, worklist, n)?;
    Ok(n)
}

/// Puts the number of a key that has an entry on the agenda if the name is not settled and was not explored. The only
/// error is lack of memory.
pub(crate) fn put_target(
    nodes: &Nodes,
    explored: &Worklist,
    worklist: &mut Worklist,
    n: usize,
) -> Result<(), AllocError>
    requires nodes { (table : EntryTable) × AreSoundNodes table (node_lists nodes.now) }
    requires within { n < length nodes.now.keys }
    ensures added { (table : EntryTable) (ends : List DeadEnd) → AreSoundNodes table (node_lists nodes.now)
        → IsExplorationAgenda table (node_lists nodes.now) explored.now worklist.old
        → is_entry_present table (node_key_at nodes.now.keys n) ≡ true
        → AreNodesAdded table (node_lists nodes.now) (node_lists nodes.now) explored.now worklist.old worklist.new ends
        ends }
    ensures more { IsExplorationGrowth worklist.old worklist.new }
    ensures known { IfOk result (λ _. IsKnownToExploration (node_lists nodes.now) explored.now worklist.new n) }
{
    if nodes.settled[n] || explored.has(n) {
        return Ok(());
    }
    worklist.put(n, nodes.keys.len())?;
    Ok(())
}

/// Returns the number of a key, a new one if it has none. The table is queried for the place of the key only if the
/// number is new.
pub(crate) fn number<P: Present>(
    alloc: Global,
    table: &P,
    nodes: &mut Nodes,
    kind: Kind,
    name: &[u8],
) -> Result<usize, AllocError>
    requires { AreNodesFlagged (P.keys table.now) nodes.old }
    ensures flagged { AreNodesFlagged (P.keys table.now) nodes.new }
    ensures kept { IsNodeExtension (P.keys table.now) nodes.old nodes.new }
    ensures more { IsExplorationGrowth nodes.old.keys nodes.new.keys }
    ensures number { IfOk result (λ n. (n < length nodes.new.keys)
        × (keys.key kind name.now ≡ node_key_at nodes.new.keys n)) }
{
    let n = nodes.add(alloc, table, kind, name)?;
    Ok(n)
}
