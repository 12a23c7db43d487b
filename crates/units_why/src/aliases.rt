//! The functions that aliases lead to.

use crate::entries::what_at;
use deck::Deck;
use def_entry::{Kind, What};
use std::alloc::{AllocError, Global};

/// For each line of a deck, the line of the function that its aliases lead to, if it is known. Each line is followed
/// only once.
pub(crate) struct Aliases {
    ends: Vec<Option<usize>>,
}

// Written by hand, so that code that drops aliases need not prove anything about their contents.
impl Drop for Aliases {
    fn drop(self) {
        let Aliases { ends: _ } = self;
    }
}

impl Aliases {
    /// Returns the state in which no line is resolved.
    pub(crate) fn new(alloc: Global, deck: &Deck) -> Result<Aliases, AllocError> {
        let mut ends = Vec::new(alloc);
        ends.resize(deck.lines().len(), None)?;
        Ok(Aliases { ends })
    }

    /// Returns the line that the line at `place` leads to by aliases. A line that is not an alias leads to itself. The
    /// result is an alias if the aliases form a cycle or the last one names no function.
    pub(crate) fn end(
        &mut self,
        alloc: Global,
        deck: &Deck,
        place: usize,
    ) -> Result<usize, AllocError> {
        let mut passed = Vec::new(alloc);
        let mut at = place;
        for _ in 0..self.ends.len() {
            if let Some(end) = self.known_end(at) {
                at = end;
                break;
            }
            let Some(next) = alias_target(deck, at) else {
                break;
            };
            passed.push(at)?;
            at = next;
        }
        for place in passed.as_slice() {
            self.set(*place, at);
        }
        Ok(at)
    }

    fn known_end(&self, place: usize) -> Option<usize> {
        match self.ends.get(place) {
            Some(end) => *end,
            None => None,
        }
    }

    fn set(&mut self, place: usize, end: usize) {
        if place < self.ends.len() {
            self.ends[place] = Some(end);
        }
    }
}

// Returns the line of the function that an alias names.
fn alias_target(deck: &Deck, place: usize) -> Option<usize> {
    match what_at(deck, place)? {
        What::Alias(target) => deck.place_of(Kind::Func, target.as_bytes()),
        _ => None,
    }
}
