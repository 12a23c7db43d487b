//! Rows in blocks.

use units_io::Text;

/// Rows as they are written, one after another.
#[derive(Drop)]
pub struct Block {
    /// The bytes of the rows, each with its line feed.
    pub text: Text,
    /// The number of rows.
    pub rows: usize,
    /// Whether a cell of these rows is an error.
    pub refused: bool,
}
