//! Evaluation of texts.

ghost use Rattle.std.specs.Prelude.{◌≡◌, ◌++◌, ◌∷◌, [], OnOk};
ghost use Rattle.deck.specs.Tables as tables;
ghost use Rattle.expr_tree.specs.Trees.{syntax};
ghost use Rattle.reply.specs.Calls as call;
ghost use Rattle.reply.specs.Inquiries as spec;
ghost use Rattle.reply.specs.Targets.{conversion_target_parts};
ghost use Rattle.reply.specs.Trees as trees;

use crate::failure::Failure;
use crate::fault::ReplyFault;
use crate::parts::cut_part;
use expr_tree::{ParseFault, Tree, parse_expr};
use live_table::{LiveTable, QueryFault};
use quantity::Quantity;
use std::alloc::{AllocError, Global};
use std::sync::ledger::Ledger;
use units_io::Steps;

// Parses a text.
fn tree_in(alloc: Global, text: &[u8]) -> Result<Tree, Failure>
    ensures { call.IsInquiryWithoutQueriesAnswered syntax (trees.inquiry_tree text.now) result }
{
    match parse_expr(alloc, text, None) {
        Ok(tree) => Ok(tree),
        Err(ParseFault::OutOfMemory) => Err(Failure::OutOfMemory),
        Err(fault) => Err(Failure::Fault(ReplyFault::Parse(fault))),
    }
}

/// Returns the trees of the parts of a list. Fails with the first fault.
pub(crate) fn part_trees(alloc: Global, list: &[u8]) -> Result<Vec<Tree>, Failure>
    ensures { call.IsInquiryWithoutQueriesAnswered (λ trees. call.inquiry_syntaxes trees.items)
        (trees.inquiry_trees (conversion_target_parts list.now)) result }
{
    let mut trees = Vec::new(alloc);
    let mut rest = Some(list);
    while let Some(text) = rest {
        let (part, behind) = cut_part(text);
        let tree = tree_in(alloc, part)?;
        trees.push(tree)?;
        rest = behind;
    }
    Ok(trees)
}

// Evaluates a tree.
fn evaluate_tree<L: Ledger>(
    alloc: Global,
    table: &mut LiveTable,
    tree: &Tree,
    steps: &mut Steps<L>,
) -> Result<Quantity, QueryFault>
    ensures deck { table.new.deck ≡ table.old.deck }
    ensures inquired { call.IsInquiryAnswered call.inquiry_identity
        (spec.tree_value (tables.table_of_deck table.old.deck) (syntax tree.now))
        (call.inquiry_result result) table.old table.new steps.old steps.new }
{
    table.value(alloc, tree, steps)
}

/// Returns the values of trees, in order, or fails with the first fault. It queries each tree up to that one, and does
/// not change the deck.
pub fn evaluate_texts<L: Ledger>(
    alloc: Global,
    table: &mut LiveTable,
    trees: &[Tree],
    steps: &mut Steps<L>,
) -> Result<Vec<Quantity>, QueryFault>
    ensures deck { table.new.deck ≡ table.old.deck }
    ensures inquired { call.IsInquiryAnswered (λ values. values.items)
        (spec.values_of_trees (tables.table_of_deck table.old.deck) (call.inquiry_syntaxes trees.now))
        (call.inquiry_result result) table.old table.new steps.old steps.new }
{
    // The cached outcomes are right even if nothing is queried.
    table.outcomes_are_right();
    let mut values = Vec::new(alloc);
    for tree in trees {
        let value = evaluate_tree(alloc, table, tree, steps)?;
        put_value(&mut values, value)?;
    }
    Ok(values)
}

// Appends a value.
fn put_value(values: &mut Vec<Quantity>, value: Quantity) -> Result<(), AllocError>
    ensures { OnOk result (values.new.items ≡ values.old.items ++ value ∷ []) }
{
    values.push(value)?;
    Ok(())
}

/// Returns the value of a text.
pub(crate) fn evaluate_text<L: Ledger>(
    alloc: Global,
    table: &mut LiveTable,
    text: &[u8],
    steps: &mut Steps<L>,
) -> Result<Quantity, Failure>
    ensures deck { table.new.deck ≡ table.old.deck }
    ensures inquired { call.IsInquiryAnswered call.inquiry_identity
        (spec.value_of_text (tables.table_of_deck table.old.deck) text.now) result
        table.old table.new steps.old steps.new }
{
    // The cached outcomes are right even if nothing is queried.
    table.outcomes_are_right();
    let tree = tree_in(alloc, text)?;
    let value = evaluate_tree(alloc, table, &tree, steps)?;
    Ok(value)
}
