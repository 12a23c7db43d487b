//! Scans a text into tokens, or finds its first fault.

ghost use Rattle.std.specs.Prelude.{◌≡◌, ◌⊎◌, IfOk, IfErr, None, Some, map, true};
ghost use Rattle.expr_tree.specs.Faults.{first_parse_fault};
ghost use Rattle.expr_tree.specs.Lexemes as spec;
ghost use Rattle.expr_tree.specs.Rules.{WantsOperand, tokens_fit};
ghost use Rattle.expr_tree.specs.TokenViews.{token_view};

use crate::fault::ParseFault;
use crate::lexeme::{Lexeme, Piece};
use crate::token::Token;
use crate::token_state::Standing;
use std::alloc::Global;

// The initial capacity for tokens. Most expressions have fewer.
const USUAL_TOKENS: usize = 8;

// Returns the tokens of a text, each of which is allowed at its place, or the first fault of the text.
pub(crate) fn scan(alloc: Global, text: &[u8]) -> Result<Vec<Token<'_>>, ParseFault>
    ensures tokens { IfOk result (λ tokens. map token_view tokens.items ≡ spec.tokens text.now) }
    ensures faultless { IfOk result (λ tokens. first_parse_fault text.now ≡ None) }
    ensures fits { IfOk result (λ tokens. tokens_fit WantsOperand 0 (map token_view tokens.items) ≡ true) }
    ensures fault { IfErr result
        (λ fault. (fault ≡ ParseFault.OutOfMemory) ⊎ (first_parse_fault text.now ≡ Some fault)) }
{
    let mut tokens = Vec::with_capacity(alloc, USUAL_TOKENS)?;
    let mut standing = Standing::new();
    let mut after_numeral = false;
    let mut at = 0;
    while at < text.len() {
        let piece = Piece::first(&text[at..], after_numeral);
        if let Some(fault) = standing.fault(&piece.lexeme, at) {
            return Err(fault);
        }
        after_numeral = piece.lexeme.is_numeral();
        at += piece.len;
        if let Lexeme::Whole(token) = piece.lexeme {
            standing = standing.then(&token);
            if tokens.push(token).is_err() {
                return Err(ParseFault::OutOfMemory);
            }
        }
    }
    if standing.may_end() {
        Ok(tokens)
    } else {
        Err(ParseFault::Syntax(text.len()))
    }
}
