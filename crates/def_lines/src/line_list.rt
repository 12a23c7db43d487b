//! Lists of lines.

ghost use Rattle.std.specs.Prelude.{◌≡◌, ◌++◌, ◌∷◌, ◌+◌, ◌<◌, [], length, take, drop, slice_get, OnOk, OnErr};
ghost use Rattle.std.specs.Option.{option_copied};

use crate::line::Line;
use gap_list::GapList;
use std::alloc::{AllocError, Global};
use std::marker::Model;

/// An ordered list of lines, from which a line is removed without moving the others.
pub struct Lines {
    list: GapList<Line>,
}

// Written by hand, so that code that drops a list of lines need not prove anything about its contents.
impl Drop for Lines {
    fn drop(self) {
        let Lines { list: _ } = self;
    }
}

impl Model for Lines {
    ghost use Rattle.std.specs.Prelude.{List};
    ghost use Rattle.def_lines.specs.declared.line.Line.{Line};

    ghost Value = { List Line };

    ghost view = { λ lines. lines.list.listed };
}

impl Lines {
    /// Creates an empty list.
    pub fn new(alloc: Global) -> Lines
        ensures { result ≡ [] }
    {
        Lines {
            list: GapList::new(alloc),
        }
    }

    /// Returns the number of lines.
    pub fn len(&self) -> usize
        ensures { result ≡ length self.now }
    {
        self.list.len()
    }

    /// Returns the line at index `i`, counted from 0, or `None` if `i` is out of bounds.
    pub fn get(&self, i: usize) -> Option<&Line>
        ensures { option_copied result ≡ slice_get self.now i }
    {
        self.list.get(i)
    }

    /// Appends a line. On an error nothing changes.
    pub fn push(&mut self, _alloc: Global, line: Line) -> Result<(), AllocError>
        ensures ok { OnOk result (self.new ≡ self.old ++ line ∷ []) }
        ensures err { OnErr result (self.new ≡ self.old) }
    {
        self.list.push(line)
    }

    /// Keeps only the first `len` lines, or all lines if there are fewer.
    pub fn truncate(&mut self, len: usize)
        ensures { self.new ≡ take len self.old }
    {
        self.list.truncate(len);
    }

    /// Removes the line at index `i`. The other lines do not move, except once in many removals.
    pub fn remove(&mut self, i: usize)
        requires { i < length self.old }
        ensures { self.new ≡ take i self.old ++ drop (i + 1) self.old }
    {
        self.list.remove(i);
    }

    /// Converts the list into a vector without copying.
    pub fn into_vec(self) -> Vec<Line>
        ensures { result.items ≡ self }
    {
        let Lines { list } = self;
        list.into_vec()
    }
}

/// Takes ownership of the lines without copying.
impl From<Vec<Line>> for Lines {
    ghost from_gives = { λ items lines. lines ≡ items.items };

    fn from(items: Vec<Line>) -> Self {
        Lines {
            list: GapList::from(items),
        }
    }
}
