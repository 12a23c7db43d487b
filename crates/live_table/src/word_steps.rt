//! Computes the steps of words.

ghost use Rattle.std.specs.Prelude.{◌≡◌, ◌<◌, ◌++◌, ◌∷◌, [], ℕ, List, true, IfOk, OnOk, length, Contains};
ghost use Rattle.def_entry.specs.Tables.{EntryTable, is_entry_present};
ghost use Rattle.deck.specs.Tables.{table_of_deck};
ghost use Rattle.live_table.specs.declared.dead_end.DeadEnd as dead_end_spec;
ghost use Rattle.live_table.specs.Exploration.{AreExplorationSteps, AreExplorationStepsAfter, AreNodesAdded};
ghost use Rattle.live_table.specs.Exploration.{IsExplorationAgenda, IsExplorationGrowth, IsKnownToExploration};
ghost use Rattle.live_table.specs.WordTargets.{is_refused_node_destination, destination_node_numbers};
ghost use Rattle.live_table.specs.WordTargets.{node_steps_of_destination};
ghost use Rattle.live_table.specs.Looks.{AllNodeStepsLead, AreNodeLooks, AreNodeLooksAdded};
ghost use Rattle.live_table.specs.Sound.{AreSoundNodes};
ghost use Rattle.live_table.specs.TableContents.{node_key_at, node_lists};

use crate::dead_end::DeadEnd;
use crate::nodes::Nodes;
use crate::numbered_keys::put_target;
use crate::tried_keys::TriedKeys;
use crate::word_targets::{Destination, destination_of};
use crate::worklist::Worklist;
use deck::Deck;
use expr_tree::{WordUse, Words};
use name_walk::{Step, StepList};
use std::alloc::{AllocError, Global};

/// Returns the steps of the words of an entry, two for each. If a word has targets, each key that its lookup tries gets
/// a number, the targets that are not settled go on the agenda, and the other keys are gathered. The only error is lack
/// of memory.
pub(crate) fn put_words(
    alloc: Global,
    deck: &Deck,
    nodes: &mut Nodes,
    explored: &Worklist,
    worklist: &mut Worklist,
    dead_ends: &mut Vec<DeadEnd>,
    tried: &mut TriedKeys,
    words: &Words<'_>,
) -> Result<StepList, AllocError>
    requires nodes { AreSoundNodes (table_of_deck deck.now) (node_lists nodes.old) }
    requires listed { IsExplorationAgenda (table_of_deck deck.now) (node_lists nodes.old) explored.now worklist.old }
    ensures added { AreNodesAdded (table_of_deck deck.now) (node_lists nodes.old) (node_lists nodes.new)
        explored.now worklist.old worklist.new dead_ends.old.items dead_ends.new.items }
    ensures written { IfOk result
        (λ steps. AreExplorationSteps (table_of_deck deck.now) (node_lists nodes.new) explored.now worklist.new
        dead_ends.new.items words.now steps) }
    ensures looks { IfOk result (λ steps. AllNodeStepsLead steps
        → AreNodeLooks (table_of_deck deck.now) nodes.new.keys words.now steps nodes.new.gathered) }
{
    nodes.gathered.clear();
    let mut steps = step_list_for(alloc, words)?;
    for u in words.as_slice() {
        put_word(
            alloc, deck, nodes, explored, worklist, dead_ends, tried, u, &mut steps,
        )?;
    }
    Ok(steps)
}

// Appends the steps of one word.
fn put_word(
    alloc: Global,
    deck: &Deck,
    nodes: &mut Nodes,
    explored: &Worklist,
    worklist: &mut Worklist,
    dead_ends: &mut Vec<DeadEnd>,
    tried: &mut TriedKeys,
    u: &WordUse<'_>,
    steps: &mut StepList,
) -> Result<(), AllocError>
    requires nodes { AreSoundNodes (table_of_deck deck.now) (node_lists nodes.old) }
    requires listed { IsExplorationAgenda (table_of_deck deck.now) (node_lists nodes.old) explored.now worklist.old }
    ensures added { AreNodesAdded (table_of_deck deck.now) (node_lists nodes.old) (node_lists nodes.new)
        explored.now worklist.old worklist.new dead_ends.old.items dead_ends.new.items }
    ensures written { IfOk result
        (λ _. AreExplorationStepsAfter (table_of_deck deck.now) (node_lists nodes.new) explored.now
        worklist.new dead_ends.new.items nodes.old.gathered nodes.new.gathered u.now steps.old steps.new) }
{
    let word = word_steps(alloc, deck, nodes, explored, worklist, dead_ends, tried, u)?;
    push_steps(steps, word)
}

/// Returns an empty list with room for the steps of all words. The only error is lack of memory.
pub(crate) fn step_list_for(alloc: Global, words: &Words<'_>) -> Result<StepList, AllocError>
    ensures { IfOk result (λ steps. steps ≡ []) }
{
    StepList::with_capacity(alloc, words.len().saturating_mul(2))
}

/// Appends the two steps of a word. The only error is lack of memory.
pub(crate) fn push_steps(steps: &mut StepList, word: WordSteps) -> Result<(), AllocError>
    ensures { OnOk result (steps.new ≡ steps.old ++ word.first ∷ word.second ∷ []) }
{
    steps.push(word.first)?;
    steps.push(word.second)
}

/// The two steps of a word.
#[derive(Clone, Copy, Drop)]
pub(crate) struct WordSteps {
    pub(crate) first: Step,
    pub(crate) second: Step,
}

// Returns the steps of one word.
fn word_steps(
    alloc: Global,
    deck: &Deck,
    nodes: &mut Nodes,
    explored: &Worklist,
    worklist: &mut Worklist,
    dead_ends: &mut Vec<DeadEnd>,
    tried: &mut TriedKeys,
    u: &WordUse<'_>,
) -> Result<WordSteps, AllocError>
    requires nodes { AreSoundNodes (table_of_deck deck.now) (node_lists nodes.old) }
    requires listed { IsExplorationAgenda (table_of_deck deck.now) (node_lists nodes.old) explored.now worklist.old }
    ensures added { AreNodesAdded (table_of_deck deck.now) (node_lists nodes.old) (node_lists nodes.new)
        explored.now worklist.old worklist.new dead_ends.old.items dead_ends.new.items }
    ensures written { IfOk result
        (λ steps. AreExplorationSteps (table_of_deck deck.now) (node_lists nodes.new) explored.now worklist.new
        dead_ends.new.items (u.now ∷ []) (steps.first ∷ steps.second ∷ [])) }
    ensures looks { IfOk result (λ steps. AllNodeStepsLead (steps.first ∷ steps.second ∷ [])
        → AreNodeLooksAdded (table_of_deck deck.now) nodes.new.keys u.now (steps.first ∷ steps.second ∷ [])
        nodes.old.gathered nodes.new.gathered) }
{
    let destination = destination_of(alloc, deck, nodes, tried, u)?;
    match target_steps(nodes, explored, worklist, destination)? {
        Some(steps) => Ok(steps),
        None => put_dead_end(alloc, u, destination, dead_ends),
    }
}

/// Returns the steps to the targets of a word and puts the targets that are not known on the agenda. Returns `None` if
/// the word has no target. The only error is lack of memory.
pub(crate) fn target_steps(
    nodes: &Nodes,
    explored: &Worklist,
    worklist: &mut Worklist,
    destination: Destination,
) -> Result<Option<WordSteps>, AllocError>
    requires nodes { (table : EntryTable) × AreSoundNodes table (node_lists nodes.now) }
    requires within { (m : ℕ) → Contains (destination_node_numbers destination) m → m < length nodes.now.keys }
    ensures added { (table : EntryTable) (ends : List dead_end_spec.DeadEnd)
        → AreSoundNodes table (node_lists nodes.now)
        → IsExplorationAgenda table (node_lists nodes.now) explored.now worklist.old
        → ((m : ℕ) → Contains (destination_node_numbers destination) m
        → is_entry_present table (node_key_at nodes.now.keys m) ≡ true)
        → AreNodesAdded table (node_lists nodes.now) (node_lists nodes.now) explored.now worklist.old worklist.new ends
        ends }
    ensures known { IfOk result (λ _. (m : ℕ) → Contains (destination_node_numbers destination) m
        → IsKnownToExploration (node_lists nodes.now) explored.now worklist.new m) }
    ensures steps { IfOk result (λ steps. steps ≡ node_steps_of_destination destination) }
{
    match destination {
        Destination::Refused | Destination::Nowhere => Ok(None),
        Destination::One(n) => {
            put_target(nodes, explored, worklist, n)?;
            Ok(Some(WordSteps {
                first: Step::To(n),
                second: Step::To(n),
            }))
        }
        Destination::Two(n, m) => {
            put_target(nodes, explored, worklist, n)?;
            put_target(nodes, explored, worklist, m)?;
            Ok(Some(WordSteps {
                first: Step::To(n),
                second: Step::To(m),
            }))
        }
    }
}

// Stores a word that leads nowhere and returns its steps.
fn put_dead_end(
    alloc: Global,
    u: &WordUse<'_>,
    destination: Destination,
    dead_ends: &mut Vec<DeadEnd>,
) -> Result<WordSteps, AllocError>
    ensures more { IsExplorationGrowth dead_ends.old.items dead_ends.new.items }
    ensures put { IfOk result (λ _. dead_ends.new.items
        ≡ dead_ends.old.items
        ++ record { text = u.now.text; is_refused = is_refused_node_destination destination } ∷ []) }
    ensures first { IfOk result (λ steps. steps.first ≡ Step.Nowhere (length dead_ends.old.items)) }
    ensures second { IfOk result (λ steps. steps.second ≡ Step.Nowhere (length dead_ends.old.items)) }
{
    let step = Step::Nowhere(dead_ends.len());
    dead_ends.push(DeadEnd::new(alloc, u, destination)?)?;
    Ok(WordSteps {
        first: step,
        second: step,
    })
}
