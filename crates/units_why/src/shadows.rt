//! Lines that later lines of the same key replace.

use deck::Deck;
use def_entry::Kind;
use std::alloc::{AllocError, Global};

/// For each line in force of a deck, the earlier active lines that define the same key. All of them are found in one
/// pass over the deck.
pub(crate) struct Shadows {
    // For each line in force, the first line that it replaces, and for each replaced line, the next one.
    next: Vec<Option<usize>>,
    active: Vec<bool>,
}

// Written by hand, so that code that drops shadows need not prove anything about their contents.
impl Drop for Shadows {
    fn drop(self) {
        let Shadows { next: _, active: _ } = self;
    }
}

impl Shadows {
    /// Finds the replaced lines of a deck. There are none if it has no more lines than keys.
    pub(crate) fn of(alloc: Global, deck: &Deck) -> Result<Shadows, AllocError> {
        if has_one_line_per_key(deck) {
            return Ok(Shadows {
                next: Vec::new(alloc),
                active: Vec::new(alloc),
            });
        }
        let active = deck.active_lines(alloc)?;
        let mut next = Vec::new(alloc);
        next.resize(active.len(), None)?;
        let count = active.len();
        let mut shadows = Shadows { next, active };
        if !shadows.has_any(deck) {
            return Ok(shadows);
        }
        for done in 0..count {
            let place = count - 1 - done;
            if let Some(last) = shadows.line_in_force(deck, place) {
                shadows.link(place, last);
            }
        }
        Ok(shadows)
    }

    // Returns whether more active lines define keys than there are keys.
    fn has_any(&self, deck: &Deck) -> bool {
        let mut lines = 0usize;
        for place in 0..self.active.len() {
            if self.active[place] && deck.key_at(place).is_some() {
                lines = lines.saturating_add(1);
            }
        }
        lines > key_count(deck)
    }

    /// Returns the line in force of the key of an active line, if that is a different line.
    pub(crate) fn line_in_force(&self, deck: &Deck, place: usize) -> Option<usize> {
        if !self.active.get(place).copied().unwrap_or(false) {
            return None;
        }
        let key = deck.key_at(place)?;
        let last = deck.place_of(key.kind, key.name)?;
        if last == place { None } else { Some(last) }
    }

    // Inserts a line in front of the other lines that `last` replaces.
    fn link(&mut self, place: usize, last: usize) {
        let first = self.after(last);
        self.set(place, first);
        self.set(last, Some(place));
    }

    /// Returns the first line that a line replaces, or the next one after a replaced line.
    pub(crate) fn after(&self, place: usize) -> Option<usize> {
        match self.next.get(place) {
            Some(next) => *next,
            None => None,
        }
    }

    fn set(&mut self, place: usize, next: Option<usize>) {
        if place < self.next.len() {
            self.next[place] = next;
        }
    }
}

/// Returns true only if each line of a deck defines a key that no other line defines. Costs no pass over the lines.
pub(crate) fn has_one_line_per_key(deck: &Deck) -> bool {
    deck.lines().len() <= key_count(deck)
}

// Counts the keys that have an entry.
fn key_count(deck: &Deck) -> usize {
    let mut count = 0usize;
    for kind in [Kind::Unit, Kind::Prefix, Kind::Func, Kind::List] {
        count = count.saturating_add(deck.key_count(kind));
    }
    count
}
