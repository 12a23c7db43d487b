//! The calls of an expression.

ghost use Rattle.std.specs.Prelude.{◌≡◌, ◌++◌, ◌∷◌, [], IfOk, OnOk, map};
ghost use Rattle.expr_tree.specs.Trees.{factors_syntax, members_syntax, syntax, syntax_of_factors, syntax_of_terms};
ghost use Rattle.expr_tree.specs.Trees.{syntax_of_trees, terms_syntax};
ghost use Rattle.value_sources.specs.Calls as spec;

use expr_tree::{Factors, Terms, Tree, Trees, view_law};
use std::alloc::{AllocError, Global};

/// Returns copies of the calls of an expression in the order of their words, with the calls inside other calls. A call
/// is a word before an operand in parentheses, which may also be a unit that multiplies the operand. The only error is
/// lack of memory.
pub fn calls(alloc: Global, tree: &Tree) -> Result<Vec<Tree>, AllocError>
    ensures { IfOk result (λ calls. map syntax calls.items ≡ spec.calls_in (syntax tree.now)) }
{
    let mut calls = Vec::new(alloc);
    put_calls(alloc, &mut calls, tree)?;
    Ok(calls)
}

// Appends the calls of a tree.
#[cycle(put)]
fn put_calls(alloc: Global, calls: &mut Vec<Tree>, tree: &Tree) -> Result<(), AllocError>
    ensures { OnOk result (map syntax calls.new.items
        ≡ map syntax calls.old.items ++ spec.calls_in (syntax tree.now)) }
{
    view_law();
    match tree {
        Tree::Number(_) | Tree::Bar(_) | Tree::Word(_) | Tree::Argument => Ok(()),
        Tree::Call(_, operand) => {
            put_call(alloc, calls, tree)?;
            put_calls(alloc, calls, operand)
        }
        Tree::Inverse(_, operand) => {
            put_call(alloc, calls, tree)?;
            put_calls(alloc, calls, operand)
        }
        Tree::Root(_, operand) => put_calls(alloc, calls, operand),
        Tree::Group(operand) => put_calls(alloc, calls, operand),
        Tree::Negate(operand) => put_calls(alloc, calls, operand),
        Tree::Power(base, exponent) => {
            put_calls(alloc, calls, base)?;
            put_calls(alloc, calls, exponent)
        }
        Tree::Juxtaposed(trees) => put_member_calls(alloc, calls, trees),
        Tree::Product(product) => put_factor_calls(alloc, calls, product),
        Tree::Sum(sum) => put_term_calls(alloc, calls, sum),
    }
}

// Appends a copy of a call.
fn put_call(alloc: Global, calls: &mut Vec<Tree>, call: &Tree) -> Result<(), AllocError>
    ensures { OnOk result (map syntax calls.new.items ≡ map syntax calls.old.items ++ syntax call.now ∷ []) }
{
    let call = call.copy(alloc)?;
    calls.push(call)?;
    Ok(())
}

// Appends the calls of operands side by side.
#[cycle(put)]
fn put_member_calls(alloc: Global, calls: &mut Vec<Tree>, trees: &Trees) -> Result<(), AllocError>
    ensures { OnOk result (map syntax calls.new.items
        ≡ map syntax calls.old.items ++ spec.calls_in_members (members_syntax (syntax_of_trees trees.now))) }
{
    for tree in trees.as_slice() {
        put_calls(alloc, calls, tree)?;
    }
    Ok(())
}

// Appends the calls of a product.
#[cycle(put)]
fn put_factor_calls(
    alloc: Global,
    calls: &mut Vec<Tree>,
    product: &Factors,
) -> Result<(), AllocError>
    ensures { OnOk result (map syntax calls.new.items
        ≡ map syntax calls.old.items ++ spec.calls_in_factors (factors_syntax (syntax_of_factors product.now))) }
{
    for factor in product.as_slice() {
        put_calls(alloc, calls, &factor.1)?;
    }
    Ok(())
}

// Appends the calls of a sum.
#[cycle(put)]
fn put_term_calls(alloc: Global, calls: &mut Vec<Tree>, sum: &Terms) -> Result<(), AllocError>
    ensures { OnOk result (map syntax calls.new.items
        ≡ map syntax calls.old.items ++ spec.calls_in_terms (terms_syntax (syntax_of_terms sum.now))) }
{
    for term in sum.as_slice() {
        put_calls(alloc, calls, &term.1)?;
    }
    Ok(())
}
