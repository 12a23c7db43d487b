//! The expressions in a line.

ghost use Rattle.std.specs.Option.{option_copied};
ghost use Rattle.expr_tree.specs.Trees.{syntax};
ghost use Rattle.def_entry.specs.Outcomes.{GivesEntry, entry_tree};

use crate::fault::EntryFault;
use expr_tree::{ParseFault, Tree, parse_expr};
use std::alloc::Global;

// Returns the tree of an expression, with or without a binder.
pub(crate) fn tree_of(alloc: Global, text: &[u8], binder: Option<&[u8]>) -> Result<Tree, EntryFault>
    ensures { GivesEntry syntax result (entry_tree (option_copied binder.entry) text.now) }
{
    match parse_expr(alloc, text, binder) {
        Ok(tree) => Ok(tree),
        Err(ParseFault::OutOfMemory) => Err(EntryFault::OutOfMemory),
        Err(fault) => Err(EntryFault::Parse(fault)),
    }
}
