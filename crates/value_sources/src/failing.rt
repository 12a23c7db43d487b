//! The search for the step at which an expression has no value.

ghost use Rattle.std.specs.Prelude.{◌≡◌, IfOk, Some};
ghost use Rattle.deck.specs.Tables.{table_of_deck};
ghost use Rattle.expr_tree.specs.Trees.{factors_syntax, members_syntax, syntax, syntax_of_factors, syntax_of_terms};
ghost use Rattle.expr_tree.specs.Trees.{syntax_of_trees, terms_syntax};
ghost use Rattle.expr_tree.specs.Syntax as tree_of;
ghost use Rattle.value_sources.specs.FailedSteps as spec;
ghost use Rattle.value_sources.specs.Joinings.{IsFailedStepProgress};

use crate::failure::FailedStep;
use crate::joining::{Progress, join, quotient_step, step_of_scale, step_of_sign};
use crate::querying::{is_function, value};
use expr_tree::{Factors, Terms, Tree, Trees, WordKind, view_law};
use live_table::LiveTable;
use std::alloc::{AllocError, Global};
use std::sync::ledger::Ledger;
use tree_eval::Step;
use units_io::{Steps, Text};

/// Returns the step at which an expression without a value fails: the first step from left to right that has no value
/// although its operands have values. Returns `None` if there is no such step, because a word has no value or a numeral
/// is out of range. The only error is lack of memory.
#[cycle(fail)]
pub fn failed_step<L: Ledger>(
    alloc: Global,
    live: &mut LiveTable,
    tree: &Tree,
    steps: &mut Steps<L>,
) -> Result<Option<FailedStep>, AllocError>
    ensures deck { live.new.deck ≡ live.old.deck }
    ensures step { IfOk result (λ step. step ≡ spec.failed_step (table_of_deck live.old.deck) (syntax tree.now)) }
{
    view_law();
    match tree {
        Tree::Number(_) | Tree::Word(_) | Tree::Argument => Ok(None),
        Tree::Bar(quotient) => Ok(quotient_step(alloc, quotient)),
        Tree::Call(word, operand) => {
            if is_function(alloc, live, word, WordKind::Call)? {
                return called_step(alloc, live, word, operand, steps);
            }
            product_step(alloc, live, word, operand, steps)
        }
        Tree::Inverse(word, operand) => {
            if is_function(alloc, live, word, WordKind::Inverse)? {
                return inverted_step(alloc, live, word, operand, steps);
            }
            product_step(alloc, live, word, operand, steps)
        }
        Tree::Root(kind, operand) => match reach(alloc, live, operand, steps)? {
            Progress::Value(value) => Ok(Some(FailedStep::Rooted(*kind, value))),
            Progress::End(step) => Ok(step),
        },
        Tree::Group(operand) => failed_step(alloc, live, operand, steps),
        Tree::Negate(operand) => failed_step(alloc, live, operand, steps),
        Tree::Power(base, exponent) => power_step(alloc, live, base, exponent, steps),
        Tree::Juxtaposed(trees) => member_step(alloc, live, trees, steps),
        Tree::Product(product) => factor_step(alloc, live, product, steps),
        Tree::Sum(sum) => term_step(alloc, live, sum, steps),
    }
}

// Returns the value of a member, or else the end of the search in it.
#[cycle(fail)]
fn reach<L: Ledger>(
    alloc: Global,
    live: &mut LiveTable,
    tree: &Tree,
    steps: &mut Steps<L>,
) -> Result<Progress, AllocError>
    ensures deck { live.new.deck ≡ live.old.deck }
    ensures reached { IfOk result (λ reached. IsFailedStepProgress
        (spec.source_value_of_tree (table_of_deck live.old.deck) (syntax tree.now))
        (spec.failed_step (table_of_deck live.old.deck) (syntax tree.now)) reached) }
{
    match value(alloc, live, tree, steps)? {
        Some(value) => Ok(Progress::Value(value)),
        None => Ok(Progress::End(failed_step(alloc, live, tree, steps)?)),
    }
}

// Returns the failed step of a call of a function.
#[cycle(fail)]
fn called_step<L: Ledger>(
    alloc: Global,
    live: &mut LiveTable,
    word: &Text,
    operand: &Tree,
    steps: &mut Steps<L>,
) -> Result<Option<FailedStep>, AllocError>
    ensures deck { live.new.deck ≡ live.old.deck }
    ensures step { IfOk result (λ step. step ≡ spec.failed_step_after
        (spec.source_value_of_tree (table_of_deck live.old.deck) (syntax operand.now))
        (spec.failed_step (table_of_deck live.old.deck) (syntax operand.now))
        (λ v. Some (FailedStep.Called word.now v))) }
{
    match reach(alloc, live, operand, steps)? {
        Progress::Value(value) => Ok(Some(FailedStep::Called(word.copy(alloc)?, value))),
        Progress::End(step) => Ok(step),
    }
}

// Returns the failed step of an inverse of a function.
#[cycle(fail)]
fn inverted_step<L: Ledger>(
    alloc: Global,
    live: &mut LiveTable,
    word: &Text,
    operand: &Tree,
    steps: &mut Steps<L>,
) -> Result<Option<FailedStep>, AllocError>
    ensures deck { live.new.deck ≡ live.old.deck }
    ensures step { IfOk result (λ step. step ≡ spec.failed_step_after
        (spec.source_value_of_tree (table_of_deck live.old.deck) (syntax operand.now))
        (spec.failed_step (table_of_deck live.old.deck) (syntax operand.now))
        (λ v. Some (FailedStep.Inverted word.now v))) }
{
    match reach(alloc, live, operand, steps)? {
        Progress::Value(value) => Ok(Some(FailedStep::Inverted(word.copy(alloc)?, value))),
        Progress::End(step) => Ok(step),
    }
}

// Returns the failed step of the product of a word that is no function and the operand after it.
#[cycle(fail)]
fn product_step<L: Ledger>(
    alloc: Global,
    live: &mut LiveTable,
    word: &Text,
    operand: &Tree,
    steps: &mut Steps<L>,
) -> Result<Option<FailedStep>, AllocError>
    ensures deck { live.new.deck ≡ live.old.deck }
    ensures step { IfOk result (λ step. step ≡ spec.failed_step_of_product
        (spec.source_value_of_tree (table_of_deck live.old.deck) (tree_of.Word word.now))
        (spec.source_value_of_tree (table_of_deck live.old.deck) (syntax operand.now))
        (spec.failed_step (table_of_deck live.old.deck) (syntax operand.now))) }
{
    view_law();
    let word = Tree::Word(word.copy(alloc)?);
    let Some(left) = value(alloc, live, &word, steps)? else {
        return Ok(None);
    };
    match reach(alloc, live, operand, steps)? {
        Progress::Value(right) => Ok(Some(FailedStep::Joined(Step::Multiply, left, right))),
        Progress::End(step) => Ok(step),
    }
}

// Returns the failed step of a power.
#[cycle(fail)]
fn power_step<L: Ledger>(
    alloc: Global,
    live: &mut LiveTable,
    base: &Tree,
    exponent: &Tree,
    steps: &mut Steps<L>,
) -> Result<Option<FailedStep>, AllocError>
    ensures deck { live.new.deck ≡ live.old.deck }
    ensures step { IfOk result (λ step. step ≡ spec.failed_step (table_of_deck live.old.deck)
        (tree_of.Power (syntax base.now) (syntax exponent.now))) }
{
    let left = match reach(alloc, live, base, steps)? {
        Progress::Value(left) => left,
        Progress::End(step) => return Ok(step),
    };
    match reach(alloc, live, exponent, steps)? {
        Progress::Value(right) => Ok(Some(FailedStep::Raised(left, right))),
        Progress::End(step) => Ok(step),
    }
}

// Returns the failed step of operands side by side.
#[cycle(fail)]
fn member_step<L: Ledger>(
    alloc: Global,
    live: &mut LiveTable,
    trees: &Trees,
    steps: &mut Steps<L>,
) -> Result<Option<FailedStep>, AllocError>
    ensures deck { live.new.deck ≡ live.old.deck }
    ensures step { IfOk result (λ step. step ≡ spec.failed_step (table_of_deck live.old.deck)
        (tree_of.Juxtaposed (members_syntax (syntax_of_trees trees.now)))) }
{
    let mut running = None;
    for tree in trees.as_slice() {
        let member = reach(alloc, live, tree, steps)?;
        match join(alloc, Step::Multiply, running, member)? {
            Progress::Value(value) => running = Some(value),
            Progress::End(step) => return Ok(step),
        }
    }
    Ok(None)
}

// Returns the failed step of a product.
#[cycle(fail)]
fn factor_step<L: Ledger>(
    alloc: Global,
    live: &mut LiveTable,
    product: &Factors,
    steps: &mut Steps<L>,
) -> Result<Option<FailedStep>, AllocError>
    ensures deck { live.new.deck ≡ live.old.deck }
    ensures step { IfOk result (λ step. step ≡ spec.failed_step (table_of_deck live.old.deck)
        (tree_of.Product (factors_syntax (syntax_of_factors product.now)))) }
{
    let mut running = None;
    for factor in product.as_slice() {
        let member = reach(alloc, live, &factor.1, steps)?;
        match join(alloc, step_of_scale(factor.0), running, member)? {
            Progress::Value(value) => running = Some(value),
            Progress::End(step) => return Ok(step),
        }
    }
    Ok(None)
}

// Returns the failed step of a sum.
#[cycle(fail)]
fn term_step<L: Ledger>(
    alloc: Global,
    live: &mut LiveTable,
    sum: &Terms,
    steps: &mut Steps<L>,
) -> Result<Option<FailedStep>, AllocError>
    ensures deck { live.new.deck ≡ live.old.deck }
    ensures step { IfOk result (λ step. step ≡ spec.failed_step (table_of_deck live.old.deck)
        (tree_of.Sum (terms_syntax (syntax_of_terms sum.now)))) }
{
    let mut running = None;
    for term in sum.as_slice() {
        let member = reach(alloc, live, &term.1, steps)?;
        match join(alloc, step_of_sign(term.0), running, member)? {
            Progress::Value(value) => running = Some(value),
            Progress::End(step) => return Ok(step),
        }
    }
    Ok(None)
}
