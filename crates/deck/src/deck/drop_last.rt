//! Removing the last line of a key.

ghost use Rattle.std.specs.Prelude.{◌≡◌, None, Some, IfOk, length};
ghost use Rattle.deck.specs.CoveredLines.{MayCoverDefinitions};
ghost use Rattle.deck.specs.Edits as edit;
ghost use Rattle.deck.specs.Tables.{active_definitions};

use super::Deck;
use crate::fault::DeckFault;
use crate::places::{CoveredLines, changed_key, find_covered_lines, without_line};
use crate::settings::Settings;
use deck_lines::LineStore;
use def_entry::{Key, Keys, same_text_law};
use std::alloc::{AllocError, Global};
use std::mem;

impl Deck {
    /// Removes the last active line of a key, which uncovers the previous one, and returns the key if its entry
    /// changes.
    ///
    /// The error is `NoSuchKey` if no active line defines the key. The only other error is running out of memory. The
    /// cost grows with the logarithm of the number of lines, except that the first drop after an edit of several lines
    /// makes one pass over them, and so does one drop in many.
    pub fn drop_last(&mut self, alloc: Global, key: &Key) -> Result<Keys, DeckFault>
        ensures { edit.IsDeckEdit (edit.deck_after_dropping key.now self.old) self.old self.new result }
    {
        let result = self.take_out_last(alloc, key);
        self.renumber_if_sparse(alloc);
        result
    }

    // Does the work of `drop_last`. The key keeps its number.
    fn take_out_last(&mut self, alloc: Global, key: &Key) -> Result<Keys, DeckFault>
        ensures { edit.IsDeckEdit (edit.deck_after_dropping key.now self.old) self.old self.new result }
    {
        same_text_law();
        let Some(place) = self.last_place(key) else {
            return Err(DeckFault::NoSuchKey);
        };
        let Some(number) = self.store.key_number(place) else {
            unreachable!()
        };
        let covered = take_covered_lines(
            alloc,
            &mut self.covered_lines,
            &self.store,
            &self.settings,
        )?;
        let uncovered = covered.get(place);
        let keys = changed_key(alloc, &self.store, number, Some(place), uncovered)?;
        self.last.restore(number, uncovered);
        self.last.close_gap(place);
        self.store.remove(place);
        self.covered_lines = without_line(covered, place);
        Ok(keys)
    }
}

// Returns the covered lines, and leaves none. If they are not known, makes one pass over the lines.
fn take_covered_lines(
    alloc: Global,
    covered: &mut Option<CoveredLines>,
    store: &LineStore,
    settings: &Settings,
) -> Result<CoveredLines, AllocError>
    requires { MayCoverDefinitions (length store.now.lines) (active_definitions settings.now store.now.lines)
        covered.old }
    ensures none { covered.new ≡ None }
    ensures covered { IfOk result (λ lines. MayCoverDefinitions (length store.now.lines)
        (active_definitions settings.now store.now.lines) (Some lines)) }
{
    match mem::replace(covered, None) {
        Some(lines) => Ok(lines),
        None => find_covered_lines(alloc, store, settings),
    }
}
