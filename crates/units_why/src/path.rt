//! The path of rows above a row.

use std::alloc::{AllocError, Global};

/// The rows above the next row, each by the place of its definition in the deck. Each line of the deck has a mark:
/// whether one of these rows has its definition.
pub(crate) struct Path {
    rows: Vec<Option<usize>>,
    open: Vec<bool>,
}

// Written by hand, so that code that drops a path need not prove anything about its contents.
impl Drop for Path {
    fn drop(self) {
        let Path { rows: _, open: _ } = self;
    }
}

impl Path {
    /// Returns an empty path over a deck with this many lines.
    pub(crate) fn new(alloc: Global, lines: usize) -> Result<Path, AllocError> {
        let mut open = Vec::new(alloc);
        open.resize(lines, false)?;
        Ok(Path {
            rows: Vec::new(alloc),
            open,
        })
    }

    /// Removes the rows that are not above a row at this depth.
    pub(crate) fn leave(&mut self, depth: usize) {
        for _ in depth..self.rows.len() {
            if let Some(left) = self.rows.pop() {
                self.set_open(left, false);
            }
        }
    }

    /// Appends a row whose definition is at `place`.
    pub(crate) fn enter(&mut self, place: Option<usize>) -> Result<(), AllocError> {
        self.rows.push(place)?;
        self.set_open(place, true);
        Ok(())
    }

    /// Returns the place of the definition directly above the next row.
    pub(crate) fn parent(&self) -> Option<usize> {
        match self.rows.last() {
            Some(place) => *place,
            None => None,
        }
    }

    /// Returns whether the definition at this place is on the path.
    pub(crate) fn is_open(&self, place: usize) -> bool {
        self.open.get(place).copied().unwrap_or(false)
    }

    fn set_open(&mut self, place: Option<usize>, is_open: bool) {
        if let Some(place) = place {
            if place < self.open.len() {
                self.open[place] = is_open;
            }
        }
    }
}
