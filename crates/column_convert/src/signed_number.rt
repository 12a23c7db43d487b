//! Numbers in cells.

ghost use Rattle.std.specs.Prelude.{◌≡◌, IfSome};
ghost use Rattle.column_convert.specs.Cells as cells;
ghost use Rattle.column_convert.specs.CachedValues.{IsCellNumber};
ghost use Rattle.column_convert.specs.Products.{signed_cell_text};

use frac128::{Numeral, read_numeral};

/// A numeral, perhaps with a minus sign before it.
#[derive(Clone, Copy)]
pub(crate) struct Signed {
    pub(crate) negative: bool,
    pub(crate) numeral: Numeral,
}

/// A number as it is written in a field: its text, and the text as a number.
#[derive(Clone, Copy)]
pub(crate) struct WrittenNumber<'a> {
    pub(crate) text: &'a [u8],
    pub(crate) signed: Signed,
}

impl Signed {
    /// Reads a text as a number. Returns `None` if it is not one, or if its numeral is past the limits.
    pub(crate) fn read_signed(text: &[u8]) -> Option<Signed>
        ensures { IfSome result (λ n. IsCellNumber text.now n) }
    {
        match read_numeral(behind_minus(text)) {
            Ok(numeral) => Some(Signed {
                negative: has_minus(text),
                numeral,
            }),
            Err(_) => None,
        }
    }
}

/// Returns the text after a minus sign at its front, or the whole text if it has none there.
pub(crate) fn behind_minus(text: &[u8]) -> &[u8]
    ensures { result.now ≡ cells.cell_text_after_minus text.now }
{
    let Some((first, rest)) = text.split_first() else {
        return text;
    };
    if *first == b'-' { rest } else { text }
}

// Returns whether a text begins with a minus sign.
fn has_minus(text: &[u8]) -> bool
    ensures { text.now ≡ signed_cell_text result (cells.cell_text_after_minus text.now) }
{
    let Some((first, _)) = text.split_first() else {
        return false;
    };
    *first == b'-'
}
