//! One row.

ghost use Rattle.std.specs.Prelude.{◌≡◌};
ghost use Rattle.column_convert.specs.Blocks as spec;

use crate::block::Block;
use units_io::Text;

/// A row as it is written.
#[derive(Drop)]
pub struct ColumnRow {
    /// The bytes of the row, with its line feed.
    pub text: Text,
    /// Whether the cell of the row is an error.
    pub refused: bool,
}

// Returns the row of a block of at most one row.
pub(crate) fn only_row(block: Block) -> Option<ColumnRow>
    ensures { result ≡ spec.only_row_of_block block }
{
    let Block {
        text,
        rows,
        refused,
    } = block;
    match rows {
        0 => None,
        _ => Some(ColumnRow { text, refused }),
    }
}
