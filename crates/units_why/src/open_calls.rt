//! The calls in the expressions above a row.

use crate::entries::what_at;
use crate::path::Path;
use deck::{BorrowedKey, Deck};
use def_entry::{Kind, What};
use expr_tree::{Tree, WordKind};
use std::alloc::{AllocError, Global};
use value_sources::{Resolution, Site, StoredMention, calls};

/// The calls, not yet shown, of the expression and of the definitions above the next row, outermost first. A definition
/// without calls has no level.
pub(crate) struct OpenCalls {
    levels: Vec<Level>,
}

// Written by hand, so that code that drops open calls need not prove anything about their contents.
impl Drop for OpenCalls {
    fn drop(self) {
        let OpenCalls { levels: _ } = self;
    }
}

// The calls of an expression, and the depth of its words. The next call is the last one.
struct Level {
    depth: usize,
    calls: Vec<Tree>,
}

// Written by hand, so that code that drops a level need not prove anything about its contents.
impl Drop for Level {
    fn drop(self) {
        let Level { depth: _, calls: _ } = self;
    }
}

impl OpenCalls {
    /// Creates a list without calls.
    pub(crate) fn none(alloc: Global) -> OpenCalls {
        OpenCalls {
            levels: Vec::new(alloc),
        }
    }

    /// Collects the calls of an expression.
    pub(crate) fn new(alloc: Global, tree: &Tree) -> Result<OpenCalls, AllocError> {
        let mut levels = Vec::new(alloc);
        levels.push(Level {
            depth: 0,
            calls: reversed_calls(alloc, tree)?,
        })?;
        Ok(OpenCalls { levels })
    }

    /// Returns the call that the word of a row begins, if that word is a function. The words of the rows must be passed
    /// in order, each with the path above it.
    pub(crate) fn next_call(
        &mut self,
        alloc: Global,
        deck: &Deck,
        path: &Path,
        mention: &StoredMention,
    ) -> Result<Option<Tree>, AllocError> {
        let depth = mention.depth();
        self.leave(depth);
        if !begins_call(mention) {
            return Ok(None);
        }
        if !self.is_open(depth) {
            let calls = calls_above(alloc, deck, path)?;
            self.levels.push(Level { depth, calls })?;
        }
        let call = self.pop();
        Ok(if is_function(mention.key(deck)) {
            call
        } else {
            None
        })
    }

    // Removes the levels whose words are deeper.
    fn leave(&mut self, depth: usize) {
        for _ in 0..self.levels.len() {
            match self.levels.last() {
                Some(level) if level.depth > depth => {}
                _ => break,
            }
            let _ = self.levels.pop();
        }
    }

    // Returns whether the words of the last level are at this depth.
    fn is_open(&self, depth: usize) -> bool {
        match self.levels.last() {
            Some(level) => level.depth == depth,
            None => false,
        }
    }

    fn pop(&mut self) -> Option<Tree> {
        let last = self.levels.len().checked_sub(1)?;
        self.levels[last].calls.pop()
    }
}

// Returns whether a word comes before an operand in parentheses. If it is a prefix and a unit, only the mention of the
// prefix begins the call.
fn begins_call(mention: &StoredMention) -> bool {
    match (mention.site(), mention.word_kind(), mention.resolution()) {
        (Site::Expression | Site::Body, WordKind::Call | WordKind::Inverse, resolution) => {
            !matches!(resolution, Resolution::PrefixedUnit)
        }
        _ => false,
    }
}

fn is_function(key: Option<BorrowedKey<'_>>) -> bool {
    match key {
        Some(key) => matches!(key.kind, Kind::Func),
        None => false,
    }
}

// Returns the calls of the definition of the row above, the last one first.
fn calls_above(alloc: Global, deck: &Deck, path: &Path) -> Result<Vec<Tree>, AllocError> {
    match tree_above(deck, path) {
        Some(tree) => reversed_calls(alloc, tree),
        None => Ok(Vec::new(alloc)),
    }
}

// Returns the expression of the definition of the row above.
fn tree_above<'a>(deck: &'a Deck, path: &Path) -> Option<&'a Tree> {
    match what_at(deck, path.parent()?)? {
        What::Body(tree) => Some(tree),
        _ => None,
    }
}

// Returns the calls of an expression, the last one first.
fn reversed_calls(alloc: Global, tree: &Tree) -> Result<Vec<Tree>, AllocError> {
    let mut calls = calls(alloc, tree)?;
    calls.reverse();
    Ok(calls)
}
