//! The parts of a unit list.

ghost use Rattle.std.specs.List.{slice_split};
ghost use Rattle.expr_tree.specs.Trees.{syntax_of_trees};
ghost use Rattle.def_entry.specs.Outcomes.{GivesEntry};
ghost use Rattle.def_entry.specs.EntryReading.{entry_trees, is_entry_semicolon};

use crate::cuts::cut_at;
use crate::expression::tree_of;
use crate::fault::EntryFault;
use def_lines::trim;
use expr_tree::Trees;
use std::alloc::Global;

// Returns the trees of the parts, which are separated by `;`, from left to right.
pub(crate) fn part_trees(alloc: Global, text: &[u8]) -> Result<Trees, EntryFault>
    ensures { GivesEntry syntax_of_trees result (entry_trees (slice_split is_entry_semicolon text.now)) }
{
    let mut trees = Trees::new(alloc);
    let mut rest = text;
    while let Some((part, behind)) = cut_at(rest, b';') {
        let tree = tree_of(alloc, trim(part), None)?;
        trees.push(alloc, tree)?;
        rest = behind;
    }
    let last = tree_of(alloc, trim(rest), None)?;
    trees.push(alloc, last)?;
    Ok(trees)
}
