//! Collects the words of a tree.

ghost use Rattle.std.specs.Prelude.{◌≡◌, ◌++◌, ◌∷◌, [], IfOk};
ghost use Rattle.expr_tree.specs.Trees.{factors_syntax, members_syntax, syntax, syntax_of_factors, syntax_of_terms};
ghost use Rattle.expr_tree.specs.Trees.{syntax_of_trees, terms_syntax};
ghost use Rattle.expr_tree.specs.Words.{words_in, words_in_factors, words_in_members, words_in_terms};

use crate::tree::{Factors, Terms, Tree, Trees};
use crate::word_list::{WordKind, WordUse, Words};
use std::alloc::{AllocError, Global};
use units_io::Text;

/// Returns the words of the tree from left to right. They borrow the bytes of the tree. Fails only if out of memory.
pub fn words<'a>(alloc: Global, tree: &'a Tree) -> Result<Words<'a>, AllocError>
    ensures { IfOk result (λ words. words ≡ words_in (syntax tree.now)) }
{
    let mut words = Words::new(alloc);
    put_words(alloc, &mut words, tree)?;
    Ok(words)
}

/// Appends the words of the tree to the list, from left to right. Fails only if out of memory.
#[cycle(put)]
#[tactic(auto, using(crate::proofs::Says::says))]
pub fn put_words<'a>(alloc: Global, words: &mut Words<'a>, tree: &'a Tree) -> Result<(), AllocError>
    ensures { IfOk result (λ _. words.new ≡ words.old ++ words_in (syntax tree.now)) }
{
    match tree {
        Tree::Number(_) | Tree::Bar(_) | Tree::Argument => Ok(()),
        Tree::Word(word) => put_word(alloc, words, word, WordKind::Plain),
        Tree::Call(word, operand) => {
            put_word(alloc, words, word, WordKind::Call)?;
            put_words(alloc, words, operand)
        }
        Tree::Inverse(word, operand) => {
            put_word(alloc, words, word, WordKind::Inverse)?;
            put_words(alloc, words, operand)
        }
        Tree::Root(_, operand) | Tree::Group(operand) | Tree::Negate(operand) => {
            put_words(alloc, words, operand)
        }
        Tree::Power(base, exponent) => {
            put_words(alloc, words, base)?;
            put_words(alloc, words, exponent)
        }
        Tree::Juxtaposed(members) => put_members(alloc, words, members),
        Tree::Product(members) => put_factors(alloc, words, members),
        Tree::Sum(members) => put_terms(alloc, words, members),
    }
}

// Appends a word.
fn put_word<'a>(
    alloc: Global,
    words: &mut Words<'a>,
    word: &'a Text,
    kind: WordKind,
) -> Result<(), AllocError>
    ensures { IfOk result (λ _. words.new ≡ words.old ++ record { text = word.now; kind = kind } ∷ []) }
{
    words.push(alloc, WordUse::new(word.as_bytes(), kind))
}

// Appends the words of a list of trees.
#[cycle(put)]
#[tactic(auto, using(crate::proofs::Says::member_words))]
fn put_members<'a>(alloc: Global, words: &mut Words<'a>, trees: &'a Trees) -> Result<(), AllocError>
    ensures { IfOk result (λ _. words.new ≡ words.old
        ++ words_in_members (members_syntax (syntax_of_trees trees.now))) }
{
    for tree in &trees.items {
        put_words(alloc, words, tree)?;
    }
    Ok(())
}

// Appends the words of the members of a product.
#[cycle(put)]
#[tactic(auto, using(crate::proofs::Says::factor_words))]
fn put_factors<'a>(
    alloc: Global,
    words: &mut Words<'a>,
    members: &'a Factors,
) -> Result<(), AllocError>
    ensures { IfOk result (λ _. words.new ≡ words.old
        ++ words_in_factors (factors_syntax (syntax_of_factors members.now))) }
{
    for member in &members.items {
        put_words(alloc, words, &member.1)?;
    }
    Ok(())
}

// Appends the words of the members of a sum.
#[cycle(put)]
#[tactic(auto, using(crate::proofs::Says::term_words))]
fn put_terms<'a>(alloc: Global, words: &mut Words<'a>, members: &'a Terms) -> Result<(), AllocError>
    ensures { IfOk result (λ _. words.new ≡ words.old ++ words_in_terms (terms_syntax (syntax_of_terms members.now))) }
{
    for member in &members.items {
        put_words(alloc, words, &member.1)?;
    }
    Ok(())
}
