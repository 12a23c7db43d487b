//! Entries: the definitions that lines give to their keys.

ghost use Rattle.std.specs.Prelude.{◌≡◌, IfOk};
ghost use Rattle.def_entry.specs.Views.{entry_view};

use crate::line_head::heading_in;
use expr_tree::{Tree, Trees};
use frac128::Frac;
use piecewise::Points;
use std::alloc::{AllocError, Global};
use units_io::Text;

/// The definition that a line gives to its key. The text of an entry is part of its line, which is the only copy of
/// it.
#[derive(Clone, Copy)]
pub struct Entry<'a> {
    /// The line.
    pub line: &'a [u8],
    /// The definition.
    pub what: &'a What,
}

impl<'a> Entry<'a> {
    /// Returns the trimmed text of the line after the name, or after the `-` that follows the name of a prefix.
    pub fn text(self) -> &'a [u8]
        ensures { result.now ≡ (entry_view self.entry).text }
    {
        heading_in(self.line).text
    }

    /// Returns an equal entry, which borrows the same line.
    pub fn copy(&self, _alloc: Global) -> Result<Entry<'a>, AllocError>
        ensures { IfOk result (λ copy. entry_view copy ≡ entry_view self.now) }
    {
        Ok(*self)
    }
}

/// The meaning of a key.
pub enum What {
    /// A unit that no other unit defines.
    Primitive,
    /// A primitive unit that counts as 1.
    Dimensionless,
    /// An expression, for a unit or a prefix.
    Body(Tree),
    /// A function by expressions.
    Function(Box<FunctionDef>),
    /// An alias of the function with this name.
    Alias(Text),
    /// A function by a table of points.
    Table(Box<TableDef>),
    /// The units into which a quantity is split, in order.
    ListOf(Trees),
}

// Written by hand, so that code that drops a meaning need not prove anything about each kind of it.
impl Drop for What {
    fn drop(self) {
        match self {
            What::Primitive
            | What::Dimensionless
            | What::Body(_)
            | What::Function(_)
            | What::Alias(_)
            | What::Table(_)
            | What::ListOf(_) => (),
        }
    }
}

/// A function by expressions.
pub struct FunctionDef {
    /// The unit of the argument.
    pub in_unit: Option<Tree>,
    /// The unit of the result.
    pub out_unit: Option<Tree>,
    /// The numbers that the function accepts, in its in unit.
    pub domain: Option<Span>,
    /// The numbers that the function returns, in its out unit.
    pub range: Option<Span>,
    /// The result in terms of the argument.
    pub forward: Tree,
    /// The argument in terms of the result.
    pub inverse: Option<Tree>,
}

// Written by hand, so that code that drops a function need not prove anything about its contents.
impl Drop for FunctionDef {
    fn drop(self) {
        let FunctionDef {
            in_unit: _,
            out_unit: _,
            domain: _,
            range: _,
            forward: _,
            inverse: _,
        } = self;
    }
}

/// An interval of numbers.
#[derive(Clone, Copy, Debug, PartialEq, Eq, Drop)]
pub struct Span {
    /// The lower end, or `None` if the interval has none.
    pub low: Option<Bound>,
    /// The upper end, or `None` if the interval has none.
    pub high: Option<Bound>,
}

/// An end of an interval.
#[derive(Clone, Copy, Debug, PartialEq, Eq, Drop)]
pub struct Bound {
    /// The number at which the interval ends.
    pub at: Frac,
    /// Whether that number belongs to the interval.
    pub closed: bool,
}

/// A function by a table of points.
pub struct TableDef {
    /// The unit of the results.
    pub unit: Tree,
    /// The points. Their results are numbers in the unit.
    pub points: Points,
}

// Written by hand, so that code that drops a table need not prove anything about its contents.
impl Drop for TableDef {
    fn drop(self) {
        let TableDef { unit: _, points: _ } = self;
    }
}
