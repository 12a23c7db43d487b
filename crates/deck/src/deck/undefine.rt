//! Removing the last line.

ghost use Rattle.std.specs.Prelude.{◌≡◌, IfOk, OnErr};
ghost use Rattle.deck.specs.LineRemoval as spec;

use super::Deck;
use crate::places::{changed_key, first_lines};
use def_entry::{Keys, same_text_law};
use std::alloc::{AllocError, Global};
use std::mem;
use units_io::Text;

impl Deck {
    /// Removes the last line, which defines a key, and returns that key if its entry changes, and the text of the line.
    /// `uncovered` is the place of the last active line of the key before it, if there is one.
    ///
    /// The only error is running out of memory; then nothing changes. The cost depends on that line and on the line
    /// that it covered, not on the size of the deck, except that one call in many makes one pass over the deck.
    pub fn undefine(
        &mut self,
        alloc: Global,
        uncovered: Option<usize>,
    ) -> Result<(Keys, Text), AllocError>
        requires { spec.CanUndefineDeckLine uncovered self.old }
        ensures ok { IfOk result (λ done. spec.IsDeckLineRemoved self.old self.new done) }
        ensures err { OnErr result (self.new ≡ self.old) }
    {
        let result = self.take_out_line(alloc, uncovered);
        self.renumber_if_sparse(alloc);
        result
    }

    // Does the work of `undefine`. The key keeps its number.
    fn take_out_line(
        &mut self,
        alloc: Global,
        uncovered: Option<usize>,
    ) -> Result<(Keys, Text), AllocError>
        requires { spec.CanUndefineDeckLine uncovered self.old }
        ensures ok { IfOk result (λ done. spec.IsDeckLineRemoved self.old self.new done) }
        ensures err { OnErr result (self.new ≡ self.old) }
    {
        same_text_law();
        let place = self.store.len() - 1;
        let Some(number) = self.store.key_number(place) else {
            unreachable!()
        };
        let text = Text::from_bytes(alloc, self.store.line(place).text)?;
        let keys = changed_key(alloc, &self.store, number, Some(place), uncovered)?;
        self.store.truncate(place);
        self.last.restore(number, uncovered);
        self.covered_lines = first_lines(mem::replace(&mut self.covered_lines, None), place);
        Ok((keys, text))
    }
}
