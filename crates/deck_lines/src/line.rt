//! The lines and blocks of a deck.

ghost use Rattle.std.specs.Prelude.{◌≡◌};
ghost use Rattle.deck_lines.specs.Blocks as spec;

use units_io::{List, Text};

/// A line of a deck. A line with the mark has no effect.
#[derive(Drop)]
pub struct DeckLine {
    /// The number of its first physical line in its file, counted from 1, or 0.
    pub number: u32,
    /// Its text, without blanks at the ends.
    pub text: Text,
    /// Whether the line has no effect, as its notice says.
    pub mark: bool,
}

/// A line of a deck, borrowed.
#[derive(Clone, Copy)]
pub struct BorrowedLine<'a> {
    pub number: u32,
    pub text: &'a [u8],
    pub mark: bool,
}

impl DeckLine {
    /// Borrows the line, without a copy.
    pub fn borrow_line(&self) -> BorrowedLine<'_>
        ensures { self.now ≡ record { number = result.number; text = result.text.now; mark = result.mark } }
    {
        BorrowedLine {
            number: self.number,
            text: self.text.as_bytes(),
            mark: self.mark,
        }
    }
}

/// Lines of a deck, in order.
pub type DeckLines = List<DeckLine>;

/// The kind of line that closes a block.
#[derive(Clone, Copy, Debug, PartialEq, Eq)]
pub enum Ending {
    /// `!endlocale`.
    ByLocale,
    /// `!endvar`.
    ByVar,
    /// `!endutf8`.
    ByUtf8,
}

/// Reports whether two endings are equal.
pub(crate) fn same_ending(ending: Ending, other: Ending) -> bool
    ensures { result ≡ spec.same_block_ending ending other }
{
    matches!(
        (ending, other),
        (Ending::ByLocale, Ending::ByLocale)
            | (Ending::ByVar, Ending::ByVar)
            | (Ending::ByUtf8, Ending::ByUtf8)
    )
}

/// The effect of a line on the open blocks.
#[derive(Clone, Copy, Debug, PartialEq, Eq)]
pub enum Role {
    /// It opens a block that this ending closes.
    Opens(Ending),
    /// It closes a block with this ending.
    Closes(Ending),
    /// It does neither.
    Inside,
}

/// An open block: its ending, and the number of the line that opened it.
#[derive(Clone, Copy)]
pub struct Block {
    pub ending: Ending,
    pub number: u32,
}
