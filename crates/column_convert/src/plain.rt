//! FROM and TO as trees, if neither is a function and TO is not a list.

ghost use Rattle.std.specs.Prelude.{◌≡◌, IfOk, IfSome, IsTrue, codes};
ghost use Rattle.deck.specs.Tables as tables;
ghost use Rattle.expr_tree.specs.Trees.{syntax};
ghost use Rattle.column_convert.specs.CachedValues as spec;
ghost use Rattle.column_convert.specs.Products.{signed_cell_text};

use crate::cell::product_text;
use deck::Deck;
use def_entry::Kind;
use def_lines::trim;
use expr_tree::{ParseFault, Tree, parse_expr};
use reply::has_semicolon;
use std::alloc::{AllocError, Global};

/// The trees of FROM and TO.
#[derive(Drop)]
pub(crate) struct PlainTrees {
    pub(crate) from_tree: Tree,
    pub(crate) to_tree: Tree,
}

/// Returns the trees of FROM and TO, or `None` if either is a function or is not an expression, if TO is a list, or if
/// a number times FROM is not an expression. The only error is running out of memory.
pub(crate) fn plain_trees(
    alloc: Global,
    deck: &Deck,
    from: &[u8],
    to: &[u8],
) -> Result<Option<PlainTrees>, AllocError>
    ensures { IfOk result (λ trees. IfSome trees
        (λ trees. spec.AreColumnTextsPlain (tables.table_of_deck deck.now) from.now to.now
        (syntax trees.from_tree) (syntax trees.to_tree))) }
{
    let to = trim(to);
    if !are_plain(deck, from, to) {
        return Ok(None);
    }
    if !has_products(alloc, from)? {
        return Ok(None);
    }
    let Some(from_tree) = tree_in(alloc, from)? else {
        return Ok(None);
    };
    let Some(to_tree) = tree_in(alloc, to)? else {
        return Ok(None);
    };
    Ok(Some(PlainTrees { from_tree, to_tree }))
}

// Returns whether neither text is a function and TO is not a list.
fn are_plain(deck: &Deck, from: &[u8], to: &[u8]) -> bool
    ensures { result ≡ spec.are_column_texts_plain (tables.table_of_deck deck.now) from.now to.now }
{
    if deck.entry(Kind::Func, from).is_some() {
        return false;
    }
    if deck.entry(Kind::Func, to).is_some() {
        return false;
    }
    if deck.entry(Kind::List, to).is_some() {
        return false;
    }
    !has_semicolon(to)
}

// Returns whether a positive and a negative number times FROM are expressions.
fn has_products(alloc: Global, from: &[u8]) -> Result<bool, AllocError>
    ensures { IfOk result (λ has. IsTrue has → spec.HasCellProducts from.now) }
{
    if !has_product(alloc, false, from)? {
        return Ok(false);
    }
    has_product(alloc, true, from)
}

// Returns whether 1 or -1 times FROM is an expression.
fn has_product(alloc: Global, negative: bool, from: &[u8]) -> Result<bool, AllocError>
    ensures { IfOk result (λ has. IsTrue has → spec.HasCellProduct negative from.now) }
{
    let text = product_text(alloc, one(negative), from)?;
    let tree = tree_in(alloc, text.as_bytes())?;
    Ok(tree.is_some())
}

// 1 or -1.
fn one(negative: bool) -> &'static [u8]
    ensures { result.now ≡ signed_cell_text negative (codes "1") }
{
    if negative {
        b"-1".as_slice()
    } else {
        b"1".as_slice()
    }
}

// Returns the tree of a text, or `None` if it is not an expression.
fn tree_in(alloc: Global, text: &[u8]) -> Result<Option<Tree>, AllocError>
    ensures { IfOk result (λ tree. IfSome tree (λ tree. spec.IsColumnTextParsedAs text.now (syntax tree))) }
{
    match parse_expr(alloc, text, None) {
        Ok(tree) => Ok(Some(tree)),
        Err(ParseFault::OutOfMemory) => Err(AllocError),
        Err(_) => Ok(None),
    }
}
