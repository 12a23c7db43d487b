//! Builds trees from their parts.

ghost use Rattle.std.specs.Prelude.{◌≡◌, IfOk};
ghost use Rattle.std.specs.Option.{option_copied};
ghost use Rattle.expr_tree.specs.Grammar as grammar;
ghost use Rattle.expr_tree.specs.Syntax as tree;
ghost use Rattle.expr_tree.specs.Trees.{syntax};

use crate::operator::{RootKind, Sign};
use crate::tree::{Quotient, Tree, Trees};
use frac128::Numeral;
use std::alloc::{AllocError, Global};
use units_io::Text;

// Returns the fraction of two numerals.
pub(crate) fn bar_tree(alloc: Global, top: Numeral, bottom: Numeral) -> Result<Tree, AllocError>
    ensures { IfOk result (λ e. syntax e ≡ tree.Bar top bottom) }
{
    Ok(Tree::Bar(Box::new(alloc, Quotient { top, bottom })?))
}

// Returns the tree in a box.
fn tree_in_box(alloc: Global, tree: Tree) -> Result<Box<Tree>, AllocError>
    ensures { IfOk result (λ boxed. boxed.value ≡ tree) }
{
    Ok(Box::new(alloc, tree)?)
}

// Returns the bytes of a word in a box.
fn word_in_box(alloc: Global, word: &[u8]) -> Result<Box<Text>, AllocError>
    ensures { IfOk result (λ boxed. boxed.value ≡ word.now) }
{
    let text = Text::from_bytes(alloc, word)?;
    Ok(Box::new(alloc, text)?)
}

// Whether the word is the binder.
fn is_binder(binder: Option<&[u8]>, word: &[u8]) -> bool
    ensures { result ≡ grammar.is_binder (option_copied binder.entry) word.now }
{
    match binder {
        Some(binder) => binder == word,
        None => false,
    }
}

// Returns the tree of a word: the argument if the word is the binder.
pub(crate) fn word_tree(
    alloc: Global,
    word: &[u8],
    binder: Option<&[u8]>,
) -> Result<Tree, AllocError>
    ensures { IfOk result (λ e. syntax e ≡ grammar.word_syntax (option_copied binder.entry) word.now) }
{
    if is_binder(binder, word) {
        return Ok(Tree::Argument);
    }
    Ok(Tree::Word(Text::from_bytes(alloc, word)?))
}

// Returns the juxtaposition of a fraction and a word.
pub(crate) fn fraction_word_tree(
    alloc: Global,
    top: Numeral,
    bottom: Numeral,
    word: &[u8],
    binder: Option<&[u8]>,
) -> Result<Tree, AllocError>
    ensures { IfOk result (λ e. syntax e
        ≡ grammar.juxtaposition_syntax (tree.Bar top bottom)
        (tree.Member (grammar.word_syntax (option_copied binder.entry) word.now) tree.NoMember)) }
{
    let scale = bar_tree(alloc, top, bottom)?;
    scaled_tree(alloc, scale, word, binder)
}

// Returns the juxtaposition of a tree and a word.
pub(crate) fn scaled_tree(
    alloc: Global,
    scale: Tree,
    word: &[u8],
    binder: Option<&[u8]>,
) -> Result<Tree, AllocError>
    ensures { IfOk result (λ e. syntax e
        ≡ grammar.juxtaposition_syntax (syntax scale)
        (tree.Member (grammar.word_syntax (option_copied binder.entry) word.now) tree.NoMember)) }
{
    let word = word_tree(alloc, word, binder)?;
    juxtaposed_tree(alloc, scale, word)
}

// Returns the juxtaposition of two trees.
fn juxtaposed_tree(alloc: Global, left: Tree, right: Tree) -> Result<Tree, AllocError>
    ensures { IfOk result (λ e. syntax e
        ≡ tree.Juxtaposed (tree.Member (syntax left) (tree.Member (syntax right) tree.NoMember))) }
{
    let mut members = Trees::new(alloc);
    members.push(alloc, left)?;
    members.push(alloc, right)?;
    Ok(Tree::Juxtaposed(members))
}

// Returns the tree of a word before an operand in parentheses: a product if the word is the binder, else a call.
pub(crate) fn call_tree(
    alloc: Global,
    word: &[u8],
    operand: Tree,
    binder: Option<&[u8]>,
) -> Result<Tree, AllocError>
    ensures { IfOk result (λ e. syntax e ≡ grammar.call_syntax (option_copied binder.entry) word.now (syntax operand)) }
{
    if is_binder(binder, word) {
        return product_with_argument(alloc, operand);
    }
    let operand = tree_in_box(alloc, operand)?;
    Ok(Tree::Call(word_in_box(alloc, word)?, operand))
}

// Returns the argument times the operand.
fn product_with_argument(alloc: Global, operand: Tree) -> Result<Tree, AllocError>
    ensures { IfOk result (λ e. syntax e ≡ grammar.argument_times_syntax (syntax operand)) }
{
    let product = juxtaposed_tree(alloc, Tree::Argument, operand)?;
    group_tree(alloc, product)
}

// Returns the inverse of a function at its operand.
pub(crate) fn inverse_tree(alloc: Global, word: &[u8], operand: Tree) -> Result<Tree, AllocError>
    ensures { IfOk result (λ e. syntax e ≡ tree.Inverse word.now (syntax operand)) }
{
    let operand = tree_in_box(alloc, operand)?;
    Ok(Tree::Inverse(word_in_box(alloc, word)?, operand))
}

// Returns the power of a base and an exponent.
pub(crate) fn power_tree(alloc: Global, base: Tree, exponent: Tree) -> Result<Tree, AllocError>
    ensures { IfOk result (λ e. syntax e ≡ tree.Power (syntax base) (syntax exponent)) }
{
    let base = tree_in_box(alloc, base)?;
    Ok(Tree::Power(base, tree_in_box(alloc, exponent)?))
}

// Returns the power of a word and a numeral.
pub(crate) fn raised_word_tree(
    alloc: Global,
    word: &[u8],
    exponent: Numeral,
    binder: Option<&[u8]>,
) -> Result<Tree, AllocError>
    ensures { IfOk result (λ e. syntax e
        ≡ tree.Power (grammar.word_syntax (option_copied binder.entry) word.now) (tree.Number exponent)) }
{
    let base = word_tree(alloc, word, binder)?;
    power_tree(alloc, base, Tree::Number(exponent))
}

// Returns the root of a radicand.
pub(crate) fn root_tree(alloc: Global, kind: RootKind, radicand: Tree) -> Result<Tree, AllocError>
    ensures { IfOk result (λ e. syntax e ≡ tree.Root kind (syntax radicand)) }
{
    Ok(Tree::Root(kind, tree_in_box(alloc, radicand)?))
}

// Returns an expression in parentheses.
pub(crate) fn group_tree(alloc: Global, sum: Tree) -> Result<Tree, AllocError>
    ensures { IfOk result (λ e. syntax e ≡ tree.Group (syntax sum)) }
{
    Ok(Tree::Group(tree_in_box(alloc, sum)?))
}

// Returns the operand with a sign before it.
pub(crate) fn signed_tree(alloc: Global, sign: Sign, operand: Tree) -> Result<Tree, AllocError>
    ensures { IfOk result (λ e. syntax e ≡ grammar.signed_syntax sign (syntax operand)) }
{
    match sign {
        Sign::Plus => Ok(operand),
        Sign::Minus => Ok(Tree::Negate(tree_in_box(alloc, operand)?)),
    }
}
