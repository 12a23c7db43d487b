//! Recursive descent over tokens that are already known to fit. Each rule of the grammar has a function, which returns
//! the tree at a place and the place after it. Calls nest as deep as the tokens do.

ghost use Rattle.std.specs.Prelude.{◌≡◌, ◌+◌, ◌<◌, ◌≤◌, ◌∷◌, true, IfOk, Some, map};
ghost use Rattle.std.specs.Option.{option_copied};
ghost use Rattle.expr_tree.specs.Front.{AtomTreeAt, ExponentTreeAt, IsSumInParens, IsTreeReadAt, JuxtapositionTreeAt};
ghost use Rattle.expr_tree.specs.Front.{PowerTreeAt, ProductTreeAt, SumTreeAt, tokens_begin_operand, tokens_from};
ghost use Rattle.expr_tree.specs.TokenReading.{tree_of_token_list};
ghost use Rattle.expr_tree.specs.Rules.{WantsHead, WantsOperand, tokens_fit};
ghost use Rattle.expr_tree.specs.TokenViews.{token_view};
ghost use Rattle.expr_tree.specs.Tokens.{Tilde};
ghost use Rattle.expr_tree.specs.Trees.{syntax};

use crate::ahead::{denominator_at, has_caret, has_operand, scale_at, sign_at};
use crate::operator::{Scale, Sign};
use crate::token::Token;
use crate::tree::{Factors, Terms, Tree, Trees};
use crate::tree_building::{
    bar_tree, call_tree, fraction_word_tree, group_tree, inverse_tree, power_tree,
    raised_word_tree, root_tree, scaled_tree, signed_tree, word_tree,
};
use std::alloc::{AllocError, Global};

// Returns the tree of the tokens. Most expressions are a word, a numeral, or a numeral or fraction before a word.
// Their trees are made without the descent.
pub(crate) fn tree_of_tokens(
    alloc: Global,
    tokens: &[Token],
    binder: Option<&[u8]>,
) -> Result<Tree, AllocError>
    requires { tokens_fit WantsOperand 0 (map token_view tokens.now) ≡ true }
    ensures { IfOk result (λ e. tree_of_token_list (option_copied binder.entry) (map token_view tokens.now)
        ≡ Some (syntax e)) }
{
    match tokens {
        [only] => match only {
            Token::Word(word) => word_tree(alloc, word, binder),
            Token::Numeral(n) => Ok(Tree::Number(*n)),
            _ => tree_of_sum(alloc, tokens, binder),
        },
        [scale, last] => match (scale, last) {
            (Token::Numeral(n), Token::Word(word)) => {
                scaled_tree(alloc, Tree::Number(*n), word, binder)
            }
            _ => tree_of_sum(alloc, tokens, binder),
        },
        [top, bar, bottom, last] => match (top, bar, bottom, last) {
            (Token::Numeral(n), Token::Bar, Token::Numeral(d), Token::Word(word)) => {
                fraction_word_tree(alloc, *n, *d, word, binder)
            }
            _ => tree_of_sum(alloc, tokens, binder),
        },
        _ => tree_of_sum(alloc, tokens, binder),
    }
}

// Returns the tree of the tokens by recursive descent.
fn tree_of_sum(alloc: Global, tokens: &[Token], binder: Option<&[u8]>) -> Result<Tree, AllocError>
    requires { tokens_fit WantsOperand 0 (map token_view tokens.now) ≡ true }
    ensures { IfOk result (λ e. tree_of_token_list (option_copied binder.entry) (map token_view tokens.now)
        ≡ Some (syntax e)) }
{
    let (tree, _) = sum_at(alloc, tokens, 0, 0, binder)?;
    Ok(tree)
}

#[cycle(rules)]
fn sum_at(
    alloc: Global,
    tokens: &[Token],
    at: usize,
    opened: usize,
    binder: Option<&[u8]>,
) -> Result<(Tree, usize), AllocError>
    requires deep { opened ≤ at }
    requires fit { tokens_fit WantsOperand opened (tokens_from tokens.now at) ≡ true }
    ensures { IsTreeReadAt (SumTreeAt (option_copied binder.entry) opened) tokens.now at result }
{
    let (first, mut next) = product_at(alloc, tokens, at, opened, binder)?;
    if sign_at(tokens, next).is_none() {
        return Ok((first, next));
    }
    let mut terms = Terms::new(alloc);
    terms.push(alloc, (Sign::Plus, first))?;
    while let Some(sign) = sign_at(tokens, next) {
        let (member, after) = product_at(alloc, tokens, next + 1, opened, binder)?;
        terms.push(alloc, (sign, member))?;
        next = after;
    }
    Ok((Tree::Sum(terms), next))
}

#[cycle(rules)]
fn product_at(
    alloc: Global,
    tokens: &[Token],
    at: usize,
    opened: usize,
    binder: Option<&[u8]>,
) -> Result<(Tree, usize), AllocError>
    requires deep { opened ≤ at }
    requires fit { tokens_fit WantsOperand opened (tokens_from tokens.now at) ≡ true }
    ensures { IsTreeReadAt (ProductTreeAt (option_copied binder.entry) opened) tokens.now at result }
{
    let (first, mut next) = juxtaposition_at(alloc, tokens, at, opened, binder)?;
    if scale_at(tokens, next).is_none() {
        return Ok((first, next));
    }
    let mut factors = Factors::new(alloc);
    factors.push(alloc, (Scale::Multiply, first))?;
    while let Some(scale) = scale_at(tokens, next) {
        let (member, after) = juxtaposition_at(alloc, tokens, next + 1, opened, binder)?;
        factors.push(alloc, (scale, member))?;
        next = after;
    }
    Ok((Tree::Product(factors), next))
}

#[cycle(rules)]
fn juxtaposition_at(
    alloc: Global,
    tokens: &[Token],
    at: usize,
    opened: usize,
    binder: Option<&[u8]>,
) -> Result<(Tree, usize), AllocError>
    requires deep { opened ≤ at }
    requires fit { tokens_fit WantsOperand opened (tokens_from tokens.now at) ≡ true }
    ensures { IsTreeReadAt (JuxtapositionTreeAt (option_copied binder.entry) opened) tokens.now at result }
{
    match sign_at(tokens, at) {
        Some(sign) => {
            let (operand, next) = juxtaposition_at(alloc, tokens, at + 1, opened, binder)?;
            Ok((signed_tree(alloc, sign, operand)?, next))
        }
        None => powers_at(alloc, tokens, at, opened, binder),
    }
}

// Reads a juxtaposition that has no sign before it.
#[cycle(rules)]
fn powers_at(
    alloc: Global,
    tokens: &[Token],
    at: usize,
    opened: usize,
    binder: Option<&[u8]>,
) -> Result<(Tree, usize), AllocError>
    requires deep { opened ≤ at }
    requires fit { tokens_fit WantsOperand opened (tokens_from tokens.now at) ≡ true }
    requires begun { tokens_begin_operand (tokens_from tokens.now at) ≡ true }
    ensures { IsTreeReadAt (JuxtapositionTreeAt (option_copied binder.entry) opened) tokens.now at result }
{
    let (first, mut next) = power_at(alloc, tokens, at, opened, binder)?;
    if !has_operand(tokens, next) {
        return Ok((first, next));
    }
    let mut members = Trees::new(alloc);
    members.push(alloc, first)?;
    while has_operand(tokens, next) {
        let (member, after) = power_at(alloc, tokens, next, opened, binder)?;
        members.push(alloc, member)?;
        next = after;
    }
    Ok((Tree::Juxtaposed(members), next))
}

#[cycle(rules)]
fn power_at(
    alloc: Global,
    tokens: &[Token],
    at: usize,
    opened: usize,
    binder: Option<&[u8]>,
) -> Result<(Tree, usize), AllocError>
    requires deep { opened ≤ at }
    requires fit { tokens_fit WantsOperand opened (tokens_from tokens.now at) ≡ true }
    requires begun { tokens_begin_operand (tokens_from tokens.now at) ≡ true }
    ensures { IsTreeReadAt (PowerTreeAt (option_copied binder.entry) opened) tokens.now at result }
{
    let (base, next) = atom_at(alloc, tokens, at, opened, binder)?;
    if !has_caret(tokens, next) {
        return Ok((base, next));
    }
    let (exponent, end) = exponent_at(alloc, tokens, next + 1, opened, binder)?;
    Ok((power_tree(alloc, base, exponent)?, end))
}

#[cycle(rules)]
fn exponent_at(
    alloc: Global,
    tokens: &[Token],
    at: usize,
    opened: usize,
    binder: Option<&[u8]>,
) -> Result<(Tree, usize), AllocError>
    requires deep { opened ≤ at }
    requires fit { tokens_fit WantsOperand opened (tokens_from tokens.now at) ≡ true }
    ensures { IsTreeReadAt (ExponentTreeAt (option_copied binder.entry) opened) tokens.now at result }
{
    match sign_at(tokens, at) {
        Some(sign) => {
            let (operand, next) = exponent_at(alloc, tokens, at + 1, opened, binder)?;
            Ok((signed_tree(alloc, sign, operand)?, next))
        }
        None => power_at(alloc, tokens, at, opened, binder),
    }
}

#[cycle(rules)]
fn atom_at(
    alloc: Global,
    tokens: &[Token],
    at: usize,
    opened: usize,
    binder: Option<&[u8]>,
) -> Result<(Tree, usize), AllocError>
    requires deep { opened ≤ at }
    requires fit { tokens_fit WantsOperand opened (tokens_from tokens.now at) ≡ true }
    requires begun { tokens_begin_operand (tokens_from tokens.now at) ≡ true }
    ensures { IsTreeReadAt (AtomTreeAt (option_copied binder.entry) opened) tokens.now at result }
{
    match tokens[at] {
        Token::Numeral(n) => match denominator_at(tokens, at + 1) {
            Some(denominator) => Ok((bar_tree(alloc, n, denominator)?, at + 3)),
            None => Ok((Tree::Number(n), at + 1)),
        },
        Token::Word(word) => Ok((word_tree(alloc, word, binder)?, at + 1)),
        Token::WordWithPower(word, digit) => {
            let tree = raised_word_tree(alloc, word, digit.numeral(), binder)?;
            Ok((tree, at + 1))
        }
        Token::Head(word) => {
            let (operand, next) = closed_sum_at(alloc, tokens, at + 1, opened, binder)?;
            Ok((call_tree(alloc, word, operand, binder)?, next))
        }
        Token::Tilde => inverse_at(alloc, tokens, at + 1, opened, binder),
        Token::Root(kind) => {
            let (radicand, next) = closed_sum_at(alloc, tokens, at + 2, opened, binder)?;
            Ok((root_tree(alloc, kind, radicand)?, next))
        }
        Token::Open => {
            let (sum, next) = closed_sum_at(alloc, tokens, at + 1, opened, binder)?;
            Ok((group_tree(alloc, sum)?, next))
        }
        _ => unreachable!(),
    }
}

// Reads the rest of an atom that begins with a `~`, at the place after the `~`.
#[cycle(rules)]
fn inverse_at(
    alloc: Global,
    tokens: &[Token],
    at: usize,
    opened: usize,
    binder: Option<&[u8]>,
) -> Result<(Tree, usize), AllocError>
    requires deep { opened < at }
    requires fit { tokens_fit WantsHead opened (tokens_from tokens.now at) ≡ true }
    ensures { IsTreeReadAt (λ ts. AtomTreeAt (option_copied binder.entry) opened (Tilde ∷ ts)) tokens.now at result }
{
    match tokens[at] {
        Token::Head(word) => {
            let (operand, next) = closed_sum_at(alloc, tokens, at + 1, opened, binder)?;
            Ok((inverse_tree(alloc, word, operand)?, next))
        }
        _ => unreachable!(),
    }
}

// Reads a sum and the `)` after it.
#[cycle(rules)]
fn closed_sum_at(
    alloc: Global,
    tokens: &[Token],
    at: usize,
    opened: usize,
    binder: Option<&[u8]>,
) -> Result<(Tree, usize), AllocError>
    requires deep { opened < at }
    requires fit { tokens_fit WantsOperand (opened + 1) (tokens_from tokens.now at) ≡ true }
    ensures { IsTreeReadAt (IsSumInParens (option_copied binder.entry) opened) tokens.now at result }
{
    let (sum, next) = sum_at(alloc, tokens, at, opened + 1, binder)?;
    Ok((sum, next + 1))
}
