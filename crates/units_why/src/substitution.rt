//! Evaluates the expressions of a function at an argument.

use crate::evaluator::Evaluator;
use expr_tree::{Factors, Terms, Tree, Trees, parse_expr, view_law};
use quantity::{Quantity, Style};
use std::alloc::{AllocError, Global};
use std::sync::ledger::Ledger;
use units_io::Text;

/// Returns the value of an expression of a function at an argument: the value of the expression in which the argument
/// is replaced by its value. `None` if that expression has no value.
pub(crate) fn value_at<L: Ledger>(
    evaluator: &mut Evaluator<L>,
    body: &Tree,
    argument: &Quantity,
) -> Result<Option<Quantity>, AllocError> {
    let alloc = evaluator.alloc;
    let text = argument.show(alloc, Style::Exact)?;
    let Ok(value) = parse_expr(alloc, text.as_bytes(), None) else {
        return Ok(None);
    };
    let tree = substitute_tree(alloc, body, &value)?;
    evaluator.value_if_any(&tree)
}

// Copies a tree with the argument replaced by a value.
#[cycle(substitute)]
fn substitute_tree(alloc: Global, tree: &Tree, value: &Tree) -> Result<Tree, AllocError> {
    view_law();
    match tree {
        Tree::Number(_) | Tree::Bar(_) | Tree::Word(_) => tree.copy(alloc),
        Tree::Argument => group_of(alloc, value),
        Tree::Call(word, operand) => {
            let operand = substitute_box(alloc, operand, value)?;
            call_of(alloc, word, operand)
        }
        Tree::Inverse(word, operand) => {
            let operand = substitute_box(alloc, operand, value)?;
            inverse_of(alloc, word, operand)
        }
        Tree::Root(kind, operand) => Ok(Tree::Root(*kind, substitute_box(alloc, operand, value)?)),
        Tree::Group(operand) => Ok(Tree::Group(substitute_box(alloc, operand, value)?)),
        Tree::Negate(operand) => Ok(Tree::Negate(substitute_box(alloc, operand, value)?)),
        Tree::Power(base, exponent) => {
            let base = substitute_box(alloc, base, value)?;
            Ok(Tree::Power(base, substitute_box(alloc, exponent, value)?))
        }
        Tree::Juxtaposed(trees) => Ok(Tree::Juxtaposed(trees_with(alloc, trees, value)?)),
        Tree::Product(product) => Ok(Tree::Product(factors_with(alloc, product, value)?)),
        Tree::Sum(sum) => Ok(Tree::Sum(terms_with(alloc, sum, value)?)),
    }
}

// Copies a tree into parentheses.
fn group_of(alloc: Global, tree: &Tree) -> Result<Tree, AllocError> {
    let copy = tree.copy(alloc)?;
    Ok(Tree::Group(Box::new(alloc, copy)?))
}

fn call_of(alloc: Global, word: &Text, operand: Box<Tree>) -> Result<Tree, AllocError> {
    let word = Box::new(alloc, word.copy(alloc)?)?;
    Ok(Tree::Call(word, operand))
}

fn inverse_of(alloc: Global, word: &Text, operand: Box<Tree>) -> Result<Tree, AllocError> {
    let word = Box::new(alloc, word.copy(alloc)?)?;
    Ok(Tree::Inverse(word, operand))
}

#[cycle(substitute)]
fn substitute_box(alloc: Global, tree: &Tree, value: &Tree) -> Result<Box<Tree>, AllocError> {
    let tree = substitute_tree(alloc, tree, value)?;
    Ok(Box::new(alloc, tree)?)
}

#[cycle(substitute)]
fn trees_with(alloc: Global, trees: &Trees, value: &Tree) -> Result<Trees, AllocError> {
    let mut copies = Trees::new(alloc);
    for tree in trees.as_slice() {
        copies.push(alloc, substitute_tree(alloc, tree, value)?)?;
    }
    Ok(copies)
}

#[cycle(substitute)]
fn factors_with(alloc: Global, product: &Factors, value: &Tree) -> Result<Factors, AllocError> {
    let mut copies = Factors::new(alloc);
    for factor in product.as_slice() {
        copies.push(alloc, (factor.0, substitute_tree(alloc, &factor.1, value)?))?;
    }
    Ok(copies)
}

#[cycle(substitute)]
fn terms_with(alloc: Global, sum: &Terms, value: &Tree) -> Result<Terms, AllocError> {
    let mut copies = Terms::new(alloc);
    for term in sum.as_slice() {
        copies.push(alloc, (term.0, substitute_tree(alloc, &term.1, value)?))?;
    }
    Ok(copies)
}
