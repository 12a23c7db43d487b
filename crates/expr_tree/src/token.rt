//! The tokens of expressions.

ghost use Rattle.std.specs.Prelude.{◌≡◌};
ghost use Rattle.expr_tree.specs.Lexemes.{is_numeral_token};
ghost use Rattle.expr_tree.specs.Rules.{begins_operand};
ghost use Rattle.expr_tree.specs.TokenViews.{token_view};

use crate::operator::RootKind;
use crate::power_digit::PowerDigit;
use frac128::Numeral;

// A token. Its word, if it has one, borrows from the text.
#[derive(Clone, Copy)]
pub(crate) enum Token<'a> {
    Numeral(Numeral),
    Word(&'a [u8]),
    WordWithPower(&'a [u8], PowerDigit),
    Head(&'a [u8]),
    Root(RootKind),
    Plus,
    Minus,
    Star,
    Slash,
    Bar,
    Caret,
    Tilde,
    Open,
    Close,
}

impl Token<'_> {
    // Whether an operand may begin with the token.
    pub(crate) fn begins_operand(&self) -> bool
        ensures { result ≡ begins_operand (token_view self.now) }
    {
        matches!(
            self,
            Token::Numeral(_)
                | Token::Word(_)
                | Token::WordWithPower(_, _)
                | Token::Head(_)
                | Token::Root(_)
                | Token::Tilde
                | Token::Open
        )
    }

    // Whether the token is a numeral.
    pub(crate) fn is_numeral(&self) -> bool
        ensures { result ≡ is_numeral_token (token_view self.now) }
    {
        matches!(self, Token::Numeral(_))
    }
}
