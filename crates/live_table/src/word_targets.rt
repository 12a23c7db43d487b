//! The targets of a word.

ghost use Rattle.std.specs.Prelude.{◌≡◌, ℕ, List, IfOk};
ghost use Rattle.deck.specs.Tables.{table_of_deck};
ghost use Rattle.live_table.specs.declared.dead_end.DeadEnd.{DeadEnd};
ghost use Rattle.live_table.specs.Exploration.{AreNodesAdded, IsExplorationAgenda};
ghost use Rattle.live_table.specs.WordTargets.{IsLiveQueryDestination, IsNodeDestination};
ghost use Rattle.live_table.specs.Sound.{AreSoundNodes};
ghost use Rattle.live_table.specs.TableContents.{node_lists};

use crate::deck_table::DeckTable;
use crate::nodes::Nodes;
use crate::tried_keys::TriedKeys;
use crate::tried_numbers::{gather_others, number_targets};
use deck::Deck;
use expr_tree::{WordUse, is_refused};
use name_lookup::find_targets;
use std::alloc::{AllocError, Global};
use table_names::lookup_law;

/// The targets of a word.
#[derive(Clone, Copy, Drop)]
pub(crate) enum Destination {
    /// The word is a refused name.
    Refused,
    /// The word has no target.
    Nowhere,
    /// A unit, a prefix or a function, by number.
    One(usize),
    /// A prefix and a unit, by number.
    Two(usize, usize),
}

/// Returns the destination of a word of an entry in the table of a deck. If it has targets, each key that its lookup
/// tries gets a number, and the keys that are not targets are gathered. A word that leads nowhere gives no key a
/// number. The only error is lack of memory.
pub(crate) fn destination_of(
    alloc: Global,
    deck: &Deck,
    nodes: &mut Nodes,
    tried: &mut TriedKeys,
    u: &WordUse<'_>,
) -> Result<Destination, AllocError>
    requires { AreSoundNodes (table_of_deck deck.now) (node_lists nodes.old) }
    ensures added { (before list : List ℕ) (ends : List DeadEnd)
        → IsExplorationAgenda (table_of_deck deck.now) (node_lists nodes.old) before list
        → AreNodesAdded (table_of_deck deck.now) (node_lists nodes.old) (node_lists nodes.new) before list list ends
        ends }
    ensures destination { IfOk result (λ destination. IsNodeDestination (table_of_deck deck.now) nodes.new.keys u.now
        nodes.old.gathered nodes.new.gathered destination) }
{
    if is_refused(u.text()) {
        return Ok(Destination::Refused);
    }
    lookup_law();
    tried.clear();
    let targets = find_targets(alloc, &DeckTable(deck), tried, u.text(), u.kind())?;
    if targets.count() == 0 {
        return Ok(Destination::Nowhere);
    }
    gather_others(alloc, deck, nodes, tried, targets)?;
    number_targets(alloc, deck, nodes, tried, targets)
}

/// Returns the destination of a word of a query in the table of a deck. Its targets get numbers, and no other key does.
/// The only error is lack of memory.
pub(crate) fn query_destination(
    alloc: Global,
    deck: &Deck,
    nodes: &mut Nodes,
    tried: &mut TriedKeys,
    u: &WordUse<'_>,
) -> Result<Destination, AllocError>
    requires { AreSoundNodes (table_of_deck deck.now) (node_lists nodes.old) }
    ensures added { (before list : List ℕ) (ends : List DeadEnd)
        → IsExplorationAgenda (table_of_deck deck.now) (node_lists nodes.old) before list
        → AreNodesAdded (table_of_deck deck.now) (node_lists nodes.old) (node_lists nodes.new) before list list ends
        ends }
    ensures destination { IfOk result (IsLiveQueryDestination (table_of_deck deck.now) nodes.new.keys u.now) }
{
    if is_refused(u.text()) {
        return Ok(Destination::Refused);
    }
    lookup_law();
    tried.clear();
    let targets = find_targets(alloc, &DeckTable(deck), tried, u.text(), u.kind())?;
    number_targets(alloc, deck, nodes, tried, targets)
}
