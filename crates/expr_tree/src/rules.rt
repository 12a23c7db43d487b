//! Rules for which token may follow which.

ghost use Rattle.std.specs.Prelude.{◌≡◌};
ghost use Rattle.expr_tree.specs.Rules as spec;
ghost use Rattle.expr_tree.specs.Faults.{takes_numeral_token};
ghost use Rattle.expr_tree.specs.TokenViews.{token_view};

use crate::token::Token;

// The state after some tokens, which decides what the next token may be.
#[derive(Clone, Copy)]
pub(crate) enum After {
    // There is no token yet, or the last is an operator, a `(` or a head.
    WantsOperand,
    // The last token is a `~`.
    WantsHead,
    // The last token is `sqrt` or `cuberoot`.
    WantsOpen,
    // The last token is a `|`.
    WantsNumeral,
    // The last token is a numeral with no `|` before it.
    EndsNumeral,
    // The last token is another one that ends an operand.
    EndsOperand,
}

impl After {
    // Returns the state after one more token.
    pub(crate) fn then(self, token: &Token) -> After
        ensures { result ≡ spec.state_after_token (token_view token.now) self }
    {
        match token {
            Token::Numeral(_) => match self {
                After::WantsNumeral => After::EndsOperand,
                _ => After::EndsNumeral,
            },
            Token::Word(_) | Token::WordWithPower(_, _) | Token::Close => After::EndsOperand,
            Token::Tilde => After::WantsHead,
            Token::Root(_) => After::WantsOpen,
            Token::Bar => After::WantsNumeral,
            Token::Head(_)
            | Token::Plus
            | Token::Minus
            | Token::Star
            | Token::Slash
            | Token::Caret
            | Token::Open => After::WantsOperand,
        }
    }

    // Whether a token may follow if `opened` parentheses are open.
    pub(crate) fn may(self, opened: usize, token: &Token) -> bool
        ensures { result ≡ spec.may self opened (token_view token.now) }
    {
        match token {
            Token::Numeral(_) => !matches!(self, After::WantsHead | After::WantsOpen),
            Token::Head(_) => !matches!(self, After::WantsOpen | After::WantsNumeral),
            Token::Open => !matches!(self, After::WantsHead | After::WantsNumeral),
            Token::Word(_) | Token::WordWithPower(_, _) | Token::Root(_) | Token::Tilde => {
                matches!(self, After::WantsOperand) || self.has_ended()
            }
            Token::Plus | Token::Minus => matches!(self, After::WantsOperand) || self.has_ended(),
            Token::Star | Token::Slash | Token::Caret => self.has_ended(),
            Token::Bar => matches!(self, After::EndsNumeral),
            Token::Close => self.has_ended() && opened > 0,
        }
    }

    // Whether a numeral may follow.
    pub(crate) fn may_take_numeral(self) -> bool
        ensures { result ≡ takes_numeral_token self }
    {
        !matches!(self, After::WantsHead | After::WantsOpen)
    }

    // Whether an operand has ended.
    pub(crate) fn has_ended(self) -> bool
        ensures { result ≡ spec.operand_tokens_have_ended self }
    {
        matches!(self, After::EndsNumeral | After::EndsOperand)
    }

    // Whether the tokens after `token` are nested one level deeper than it.
    pub(crate) fn deepens(self, token: &Token) -> bool
        ensures { result ≡ spec.deepens (token_view token.now) self }
    {
        match token {
            Token::Caret | Token::Head(_) | Token::Open => true,
            Token::Plus | Token::Minus => !self.has_ended(),
            _ => false,
        }
    }
}

// Whether a token opens a parenthesis.
pub(crate) fn opens(token: &Token) -> bool
    ensures { result ≡ spec.opens (token_view token.now) }
{
    matches!(token, Token::Head(_) | Token::Open)
}

// Whether a token closes a parenthesis.
pub(crate) fn closes(token: &Token) -> bool
    ensures { result ≡ spec.closes_paren (token_view token.now) }
{
    matches!(token, Token::Close)
}
