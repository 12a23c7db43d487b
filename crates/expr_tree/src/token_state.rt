//! The state after the tokens so far, and the fault of a next token that is not allowed.

ghost use Rattle.std.specs.Prelude.{◌≡◌, ◌<◌, ◌^◌};
ghost use Rattle.expr_tree.specs.Faults.{lexeme_fault};
ghost use Rattle.expr_tree.specs.Rules as spec;
ghost use Rattle.expr_tree.specs.TokenViews.{seen_lexeme, token_view};

use crate::fault::ParseFault;
use crate::lexeme::Lexeme;
use crate::rules::{After, closes, opens};
use crate::token::Token;

// The greatest depth of a token.
const DEEPEST: usize = 64;

// The state after the tokens so far, how many parentheses are open, and how deep the next token is nested.
#[derive(Clone, Copy)]
pub(crate) struct Standing {
    pub(crate) last: After,
    pub(crate) opened: usize,
    pub(crate) depth: usize,
}

impl Standing {
    // Returns the state before the first token.
    pub(crate) fn new() -> Standing
        ensures { result ≡ record { last = After.WantsOperand; opened = 0; depth = 0 } }
    {
        Standing {
            last: After::WantsOperand,
            opened: 0,
            depth: 0,
        }
    }

    // Returns the fault of the next lexeme, if it has one. `place` is its byte offset.
    pub(crate) fn fault(&self, lexeme: &Lexeme, place: usize) -> Option<ParseFault>
        ensures { result ≡ lexeme_fault self.now.last self.now.opened self.now.depth place (seen_lexeme lexeme.now) }
    {
        match lexeme {
            Lexeme::Blank => None,
            Lexeme::Malformed => Some(ParseFault::Syntax(place)),
            Lexeme::TooLong => {
                if self.last.may_take_numeral() {
                    Some(ParseFault::NumeralTooLong)
                } else {
                    Some(ParseFault::Syntax(place))
                }
            }
            Lexeme::Whole(token) => {
                if !self.last.may(self.opened, token) {
                    Some(ParseFault::Syntax(place))
                } else if self.depth > DEEPEST {
                    Some(ParseFault::NestedTooDeep)
                } else {
                    None
                }
            }
        }
    }

    // Returns the state after one more token.
    pub(crate) fn then(&self, token: &Token) -> Standing
        requires opened { self.now.opened < 2 ^ 32 }
        requires depth { self.now.depth < 2 ^ 32 }
        ensures { result ≡ record {
          last = spec.state_after_token (token_view token.now) self.now.last;
          opened = spec.open_parens_after (token_view token.now) self.now.opened;
          depth = spec.depth_after_token (token_view token.now) self.now.last self.now.depth;
        } }
    {
        let closes = closes(token);
        Standing {
            last: self.last.then(token),
            opened: adjust_count(opens(token), closes, self.opened),
            depth: adjust_count(self.last.deepens(token), closes, self.depth),
        }
    }

    // Whether the tokens may end.
    pub(crate) fn may_end(&self) -> bool
        ensures { result ≡ spec.may_end_tokens self.now.last self.now.opened }
    {
        self.last.has_ended() && self.opened == 0
    }
}

// Returns `n + 1` for more, `n - 1` (at least 0) for less, and otherwise `n`.
fn adjust_count(more: bool, less: bool, n: usize) -> usize
    requires { n < 2 ^ 32 }
    ensures { result ≡ spec.token_count_after more less n }
{
    if more {
        n + 1
    } else if less {
        n.saturating_sub(1)
    } else {
        n
    }
}
