//! Copies of definitions.

ghost use Rattle.std.specs.Prelude.{◌≡◌, IfOk, option_map};
ghost use Rattle.expr_tree.specs.Trees.{syntax};
ghost use Rattle.def_entry.specs.Views.{entry_definition_view, function_entry_view, table_entry_view};

use crate::entry::{FunctionDef, TableDef, What};
use expr_tree::Tree;
use std::alloc::{AllocError, Global};

impl What {
    /// Returns a copy of the definition. Fails only if memory runs out.
    pub fn copy(&self, alloc: Global) -> Result<What, AllocError>
        ensures { IfOk result (λ what. entry_definition_view what ≡ entry_definition_view self.now) }
    {
        match self {
            What::Primitive => Ok(What::Primitive),
            What::Dimensionless => Ok(What::Dimensionless),
            What::Body(tree) => Ok(What::Body(tree.copy(alloc)?)),
            What::Function(function) => {
                let function = function.copy(alloc)?;
                Ok(What::Function(Box::new(alloc, function)?))
            }
            What::Alias(target) => Ok(What::Alias(target.copy(alloc)?)),
            What::Table(table) => {
                let table = table.copy(alloc)?;
                Ok(What::Table(Box::new(alloc, table)?))
            }
            What::ListOf(parts) => Ok(What::ListOf(parts.copy(alloc)?)),
        }
    }
}

impl FunctionDef {
    // Returns a copy of the function.
    fn copy(&self, alloc: Global) -> Result<FunctionDef, AllocError>
        ensures { IfOk result (λ function. function_entry_view function ≡ function_entry_view self.now) }
    {
        let in_unit = copied_tree(alloc, &self.in_unit)?;
        let out_unit = copied_tree(alloc, &self.out_unit)?;
        let forward = self.forward.copy(alloc)?;
        let inverse = copied_tree(alloc, &self.inverse)?;
        Ok(FunctionDef {
            in_unit,
            out_unit,
            domain: self.domain,
            range: self.range,
            forward,
            inverse,
        })
    }
}

impl TableDef {
    // Returns a copy of the table.
    fn copy(&self, alloc: Global) -> Result<TableDef, AllocError>
        ensures { IfOk result (λ table. table_entry_view table ≡ table_entry_view self.now) }
    {
        let unit = self.unit.copy(alloc)?;
        let points = self.points.copy(alloc)?;
        Ok(TableDef { unit, points })
    }
}

// Returns a copy of the tree, if there is one.
fn copied_tree(alloc: Global, tree: &Option<Tree>) -> Result<Option<Tree>, AllocError>
    ensures { IfOk result (λ copy. option_map syntax copy ≡ option_map syntax tree.now) }
{
    match tree {
        Some(tree) => Ok(Some(tree.copy(alloc)?)),
        None => Ok(None),
    }
}
