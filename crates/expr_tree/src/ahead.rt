//! Looks at the token at a place without consuming it.

ghost use Rattle.std.specs.Prelude.{◌≡◌};
ghost use Rattle.expr_tree.specs.Front.{first_token_denominator, first_token_is_caret, first_token_scale};
ghost use Rattle.expr_tree.specs.Front.{first_token_sign, tokens_begin_operand, tokens_from};

use crate::operator::{Scale, Sign};
use crate::token::Token;
use frac128::Numeral;

// Returns the `+` or `-` at `at`, if one is there.
pub(crate) fn sign_at(tokens: &[Token], at: usize) -> Option<Sign>
    ensures { result ≡ first_token_sign (tokens_from tokens.now at) }
{
    match tokens.get(at) {
        Some(Token::Plus) => Some(Sign::Plus),
        Some(Token::Minus) => Some(Sign::Minus),
        _ => None,
    }
}

// Returns the `*` or `/` at `at`, if one is there.
pub(crate) fn scale_at(tokens: &[Token], at: usize) -> Option<Scale>
    ensures { result ≡ first_token_scale (tokens_from tokens.now at) }
{
    match tokens.get(at) {
        Some(Token::Star) => Some(Scale::Multiply),
        Some(Token::Slash) => Some(Scale::Divide),
        _ => None,
    }
}

// Whether the token at `at` is a `^`.
pub(crate) fn has_caret(tokens: &[Token], at: usize) -> bool
    ensures { result ≡ first_token_is_caret (tokens_from tokens.now at) }
{
    matches!(tokens.get(at), Some(Token::Caret))
}

// Whether the token at `at` can begin an operand.
pub(crate) fn has_operand(tokens: &[Token], at: usize) -> bool
    ensures { result ≡ tokens_begin_operand (tokens_from tokens.now at) }
{
    match tokens.get(at) {
        Some(token) => token.begins_operand(),
        None => false,
    }
}

// Returns the numeral after the `|` at `at`, if both tokens are there.
pub(crate) fn denominator_at(tokens: &[Token], at: usize) -> Option<Numeral>
    ensures { result ≡ first_token_denominator (tokens_from tokens.now at) }
{
    if !matches!(tokens.get(at), Some(Token::Bar)) {
        return None;
    }
    match tokens.get(at + 1) {
        Some(Token::Numeral(n)) => Some(*n),
        _ => None,
    }
}
