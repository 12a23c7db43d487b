//! Copying lines out of a deck.

ghost use Rattle.std.specs.Prelude.{◌≡◌, ◌≤◌, ◌+◌, length, IfOk};
ghost use Rattle.deck.specs.Splices as splices;

use super::Deck;
use deck_lines::{BorrowedLine, DeckLine, DeckLines};
use std::alloc::{AllocError, Global};
use units_io::Text;

impl Deck {
    /// Returns copies of the `count` lines from `at` on, with their marks. The only error is running out of memory.
    pub fn lines_from(
        &self,
        alloc: Global,
        at: usize,
        count: usize,
    ) -> Result<DeckLines, AllocError>
        requires { at + count ≤ length self.now.lines }
        ensures { IfOk result (λ lines. lines ≡ splices.lines_from_deck_place at count self.now.lines) }
    {
        self.store.lines_few();
        let mut copies = DeckLines::new(alloc);
        for place in at..at + count {
            let BorrowedLine { number, text, mark } = self.store.line(place);
            let text = Text::from_bytes(alloc, text)?;
            copies.push(alloc, DeckLine { number, text, mark })?;
        }
        Ok(copies)
    }
}
