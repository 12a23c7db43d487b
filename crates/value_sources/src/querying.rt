//! Queries of a table by the search for a failed step.

ghost use Rattle.std.specs.Prelude.{◌≡◌, IfOk};
ghost use Rattle.deck.specs.Tables.{table_of_deck};
ghost use Rattle.expr_tree.specs.Trees.{syntax};
ghost use Rattle.value_sources.specs.FailedSteps as spec;

use crate::lookup::Lookup;
use crate::word_keys::Destination;
use def_entry::Kind;
use expr_tree::{Tree, WordKind, WordUse};
use live_table::{LiveTable, TriedKeys};
use quantity::Quantity;
use std::alloc::{AllocError, Global};
use std::sync::ledger::Ledger;
use units_io::{Steps, Text};

/// Returns the value of an expression, if it has one. The only error is lack of memory.
#[tactic(auto, unfolding(crate::specs::FailedSteps::source_value_of_tree))]
pub(crate) fn value<L: Ledger>(
    alloc: Global,
    live: &mut LiveTable,
    tree: &Tree,
    steps: &mut Steps<L>,
) -> Result<Option<Quantity>, AllocError>
    ensures deck { live.new.deck ≡ live.old.deck }
    ensures value { IfOk result
        (λ value. value ≡ spec.source_value_of_tree (table_of_deck live.old.deck) (syntax tree.now)) }
{
    live.value_if_any(alloc, tree, steps)
}

/// Returns whether a word that is used in this way is a function. The only error is lack of memory.
#[tactic(auto, unfolding(crate::specs::FailedSteps::is_source_function_word))]
pub(crate) fn is_function(
    alloc: Global,
    live: &LiveTable,
    word: &Text,
    kind: WordKind,
) -> Result<bool, AllocError>
    ensures { IfOk result (λ flag. flag ≡ spec.is_source_function_word (table_of_deck live.now.deck) (record {
      text = word.now;
      kind = kind;
    })) }
{
    let lookup = Lookup {
        alloc,
        deck: live.deck(),
    };
    let mut tried = TriedKeys::new(alloc);
    let word = WordUse::new(word.as_bytes(), kind);
    match lookup.keys_of_word(&mut tried, &word)? {
        Destination::One(key) => Ok(is_function_kind(key.kind)),
        Destination::Nowhere | Destination::Two(_, _) => Ok(false),
    }
}

// Returns whether keys of this kind are functions.
fn is_function_kind(kind: Kind) -> bool
    ensures { result ≡ spec.is_source_function_kind kind }
{
    match kind {
        Kind::Func => true,
        Kind::Unit | Kind::Prefix | Kind::List => false,
    }
}
