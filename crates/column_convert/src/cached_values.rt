//! The values of FROM and TO, which are queried once for many rows.

ghost use Rattle.std.specs.Prelude.{◌≡◌, ◌≤◌, ◌-◌, ◌^◌, [], ◌∷◌, IfOk, IfSome, Ok};
ghost use Rattle.deck.specs.Tables as tables;
ghost use Rattle.expr_tree.specs.Trees.{syntax};
ghost use Rattle.expr_tree.specs.Words.{words_in};
ghost use Rattle.live_table.specs.Answers.{live_table_answer};
ghost use Rattle.live_table.specs.Calls.{AreLiveQueries};
ghost use Rattle.live_table.specs.States.{AsksWords};
ghost use Rattle.column_convert.specs.CachedValues as spec;
ghost use Rattle.column_convert.specs.CellValues.{value_of_cell_product};

use crate::plain::{PlainTrees, plain_trees};
use crate::signed_number::Signed;
use expr_tree::Tree;
use live_table::{LiveTable, QueryFault};
use quantity::{Quantity, QuantityFault};
use reply::Question;
use std::alloc::{AllocError, Global};
use std::sync::ledger::Ledger;
use units_io::Steps;

/// The values of FROM and TO.
#[derive(Drop)]
pub(crate) struct Known {
    pub(crate) from_value: Quantity,
    pub(crate) to_value: Quantity,
}

/// Queries the values of FROM and TO, as far as the conversion of this number does. Returns `None` if that conversion
/// makes other queries, or if FROM, TO or the product has a fault. The only error is running out of memory.
pub(crate) fn ask_values<L: Ledger>(
    alloc: Global,
    table: &mut LiveTable,
    question: &Question<'_>,
    n: &Signed,
    steps: &mut Steps<L>,
) -> Result<Option<Known>, AllocError>
    ensures known { IfOk result (λ known. IfSome known (λ known.
        spec.AreColumnValuesKnown table.new question.now.from.now question.now.to.now known)) }
    ensures asked { spec.AreCellQueriesOfNumberBegun n.now question.now.from.now question.now.to.now result
        table.old table.new steps.old steps.new }
    ensures deck { table.new.deck ≡ table.old.deck }
{
    // The cached outcomes are right, even if no query is made.
    table.outcomes_are_right();
    match plain_trees(alloc, table.deck(), question.from, question.to)? {
        Some(trees) => trees.ask_both(alloc, table, question, n, steps),
        None => Ok(None),
    }
}

impl PlainTrees {
    // Queries the values of FROM and TO, of which these are the trees.
    fn ask_both<L: Ledger>(
        &self,
        alloc: Global,
        table: &mut LiveTable,
        question: &Question<'_>,
        n: &Signed,
        steps: &mut Steps<L>,
    ) -> Result<Option<Known>, AllocError>
        requires { spec.AreColumnTextsPlain (tables.table_of_deck table.old.deck) question.now.from.now
            question.now.to.now (syntax self.now.from_tree) (syntax self.now.to_tree) }
        ensures known { IfOk result (λ known. IfSome known (λ known.
            spec.AreColumnValuesKnown table.new question.now.from.now question.now.to.now known)) }
        ensures asked { spec.AreCellQueriesOfNumberBegun n.now question.now.from.now question.now.to.now result
            table.old table.new steps.old steps.new }
        ensures deck { table.new.deck ≡ table.old.deck }
    {
        let Some(from_value) = ask(alloc, table, &self.from_tree, steps)? else {
            return Ok(None);
        };
        if product(alloc, n, &from_value)?.is_none() {
            return Ok(None);
        }
        let Some(to_value) = ask(alloc, table, &self.to_tree, steps)? else {
            return Ok(None);
        };
        Ok(Some(Known {
            from_value,
            to_value,
        }))
    }
}

// Returns the value of a tree, or `None` if it has a fault.
fn ask<L: Ledger>(
    alloc: Global,
    table: &mut LiveTable,
    tree: &Tree,
    steps: &mut Steps<L>,
) -> Result<Option<Quantity>, AllocError>
    ensures value { IfOk result (λ value. IfSome value (λ x.
        live_table_answer (tables.table_of_deck table.old.deck) (syntax tree.now) ≡ Ok x)) }
    ensures query { AreLiveQueries (AsksWords (words_in (syntax tree.now)) ∷ []) result
        table.old table.new steps.old steps.new }
    ensures few { table.new.reductions ≤ 2 ^ 64 - 1 }
    ensures deck { table.new.deck ≡ table.old.deck }
{
    let value = table.value(alloc, tree, steps);
    // So few names were settled that their count does not overflow.
    table.counts();
    match value {
        Ok(value) => Ok(Some(value)),
        Err(QueryFault::Name(_)) => Ok(None),
        Err(QueryFault::Value(_)) => Ok(None),
        Err(QueryFault::OutOfMemory) => Err(AllocError),
    }
}

/// Returns the product of a number and the value of an expression, or `None` if the number or the product has a fault.
/// The only error is running out of memory.
pub(crate) fn product(
    alloc: Global,
    n: &Signed,
    x: &Quantity,
) -> Result<Option<Quantity>, AllocError>
    ensures { IfOk result (λ p. IfSome p (λ p. value_of_cell_product n.now.negative n.now.numeral (Ok x.now) ≡ Ok p)) }
{
    let Ok(value) = n.numeral.value() else {
        return Ok(None);
    };
    let number = with_sign(n.negative, Quantity::number(alloc, value));
    match number.times(alloc, x) {
        Ok(product) => Ok(Some(product)),
        Err(QuantityFault::OutOfMemory) => Err(AllocError),
        Err(_) => Ok(None),
    }
}

// Returns the quantity, or its negation if `negative`.
fn with_sign(negative: bool, x: Quantity) -> Quantity
    ensures { result ≡ spec.signed_cell_value negative x }
{
    if negative { x.into_negative() } else { x }
}
