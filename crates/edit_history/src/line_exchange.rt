//! Exchanges of lines.

use deck_lines::DeckLines;
use std::alloc::Global;

/// An exchange of lines: the `cut` lines from place `at` on are replaced by the lines `put`.
#[derive(Drop)]
pub struct LineExchange {
    pub at: usize,
    pub cut: usize,
    pub put: DeckLines,
}

impl LineExchange {
    /// Returns the exchange that replaces no line by none. Allocates no memory.
    pub fn none(alloc: Global) -> LineExchange {
        LineExchange {
            at: 0,
            cut: 0,
            put: DeckLines::new(alloc),
        }
    }
}
