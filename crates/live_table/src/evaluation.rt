//! Evaluation of expressions and inverses whose names are settled.

ghost use Rattle.std.specs.Prelude.{◌≡◌, ℕ, None};
ghost use Rattle.expr_tree.specs.Trees.{syntax};
ghost use Rattle.expr_tree.specs.Words.{words_in};
ghost use Rattle.def_entry.specs.declared.key.Kind.TheVariants as kind;
ghost use Rattle.name_walk.specs.ClosedNames.{IsSettledInGraph};
ghost use Rattle.deck.specs.Tables.{table_of_deck};
ghost use Rattle.tree_eval.specs.Answers as eval_spec;
ghost use Rattle.tree_eval.specs.Steps.{ValueOrFault};
ghost use Rattle.tree_eval.specs.Value.{value};
ghost use Rattle.table_names.specs.Meanings.{expansion, key_meaning};
ghost use Rattle.live_table.specs.Answers.{IsLiveQueryResult, live_answer_of_value, live_inverse_value};
ghost use Rattle.live_table.specs.Sound.{IsSoundLiveTable};
ghost use Rattle.live_table.specs.TableContents.{node_key_at, node_lists};
ghost use Rattle.live_table.specs.EvalInvariants.{AreSettledWords};

use crate::fault::QueryFault;
use crate::nodes::Nodes;
use crate::surroundings::{Asked, Surroundings};
use deck::Deck;
use expr_tree::{Tree, Words};
use name_walk::Step;
use quantity::Quantity;
use std::alloc::Global;
use tree_eval::{EvalFault, Holder, eval, unapply};

/// Returns the value of a tree, given its words and their steps, or its first fault.
pub(crate) fn evaluate_tree<'a, 'w>(
    alloc: Global,
    deck: &'a Deck,
    nodes: &'a Nodes,
    tree: &Tree,
    words: &'a Words<'w>,
    query: &'a [Step],
) -> Result<Quantity, QueryFault>
    requires sound { (reductions : ℕ) × IsSoundLiveTable deck.now (node_lists nodes.now) reductions }
    requires words { words.now ≡ words_in (syntax tree.now) }
    requires settled { AreSettledWords (table_of_deck deck.now) (node_lists nodes.now) words.now query.now }
    ensures { IsLiveQueryResult result
        (live_answer_of_value None (value (expansion (table_of_deck deck.now) (syntax tree.now)) None)) }
{
    let surroundings = Surroundings {
        deck,
        nodes,
        asked: Asked::Expression(words, query),
    };
    query_result(eval(alloc, &surroundings, Holder::Query, tree, None))
}

/// Returns the inverse of the settled function with number `n` at a value, or its first fault.
pub(crate) fn evaluate_inverse<'a>(
    alloc: Global,
    deck: &'a Deck,
    nodes: &'a Nodes,
    n: usize,
    value: &Quantity,
) -> Result<Quantity, QueryFault>
    requires sound { (reductions : ℕ) × IsSoundLiveTable deck.now (node_lists nodes.now) reductions }
    requires settled { IsSettledInGraph (node_lists nodes.now).settled_flags n }
    requires function { (node_key_at nodes.now.keys n).kind ≡ kind.Func }
    ensures { IsLiveQueryResult result
        (live_answer_of_value None
        (live_inverse_value (key_meaning (table_of_deck deck.now) (node_key_at nodes.now.keys n)) value.now)) }
{
    let surroundings = Surroundings {
        deck,
        nodes,
        asked: Asked::Name(n),
    };
    query_result(unapply(alloc, &surroundings, n, value))
}

// Converts the result of an evaluation into the result of a query.
fn query_result(value_or_fault: Result<Quantity, EvalFault>) -> Result<Quantity, QueryFault>
    ensures { (expected : ValueOrFault) → eval_spec.IsEvalResult value_or_fault expected
        → IsLiveQueryResult result (live_answer_of_value None expected) }
{
    match value_or_fault {
        Ok(q) => Ok(q),
        Err(EvalFault::Value(fault)) => Err(QueryFault::Value(fault.into_fault())),
        Err(EvalFault::OutOfMemory) => Err(QueryFault::OutOfMemory),
    }
}
