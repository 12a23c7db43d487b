//! The words of an expression, each with the way it is used.

ghost use Rattle.std.specs.Prelude.{◌≡◌};

use std::marker::Model;
use units_io::List;

/// How a word is used in an expression.
#[derive(Clone, Copy, Drop)]
pub enum WordKind {
    /// By itself.
    Plain,
    /// Directly before an operand in parentheses.
    Call,
    /// After a `~` and directly before an operand in parentheses.
    Inverse,
}

/// A word of an expression. It borrows its bytes.
#[derive(Drop)]
pub struct WordUse<'a> {
    text: &'a [u8],
    kind: WordKind,
}

impl<'a> Model for WordUse<'a> {
    ghost use Rattle.expr_tree.specs.WordUses as spec;

    ghost Value = { spec.WordUse };

    ghost view = { λ word. record { text = word.text.now; kind = word.kind } };
}

impl<'a> WordUse<'a> {
    /// Returns the word with these bytes and this use.
    pub fn new(text: &'a [u8], kind: WordKind) -> WordUse<'a>
        ensures { result ≡ record { text = text.now; kind = kind } }
    {
        WordUse { text, kind }
    }

    /// Returns the bytes of the word.
    pub fn text(&self) -> &'a [u8]
        ensures { result.now ≡ self.now.text }
    {
        self.text
    }

    /// Returns how the word is used.
    pub fn kind(&self) -> WordKind
        ensures { result ≡ self.now.kind }
    {
        self.kind
    }
}

/// A list of words, in order.
pub type Words<'a> = List<WordUse<'a>>;
