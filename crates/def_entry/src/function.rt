//! Functions by expressions.

ghost use Rattle.std.specs.Prelude.{option_map};
ghost use Rattle.std.specs.Option.{option_copied};
ghost use Rattle.def_entry.specs.Outcomes.{GivesEntry};
ghost use Rattle.def_entry.specs.EntryReading as spec;
ghost use Rattle.def_entry.specs.LineViews.{seen_entry_form, seen_entry_tree, seen_entry_trees, seen_option_units};
ghost use Rattle.def_entry.specs.Views.{entry_definition_view};

use crate::entry::{FunctionDef, What};
use crate::expression::tree_of;
use crate::fault::EntryFault;
use crate::form::Form;
use crate::options::Units;
use expr_tree::Tree;
use std::alloc::Global;

// Returns the function of a form. In its forward expression the parameter denotes the argument.
pub(crate) fn function_of(
    alloc: Global,
    name: &[u8],
    parameter: &[u8],
    form: &Form,
) -> Result<What, EntryFault>
    ensures { GivesEntry entry_definition_view result
        (spec.function_of name.now parameter.now (seen_entry_form form.now)) }
{
    let (in_unit, out_unit) = unit_trees(alloc, form.options.units)?;
    let forward = tree_of(alloc, form.forward, Some(parameter))?;
    let inverse = inverse_tree(alloc, name, form.inverse)?;
    let function = FunctionDef {
        in_unit,
        out_unit,
        domain: form.options.domain,
        range: form.options.range,
        forward,
        inverse,
    };
    Ok(What::Function(Box::new(alloc, function)?))
}

// Returns the in unit and the out unit, if the line has that option.
fn unit_trees(
    alloc: Global,
    units: Option<Units>,
) -> Result<(Option<Tree>, Option<Tree>), EntryFault>
    ensures { GivesEntry seen_entry_trees result (spec.option_units_in (option_map seen_option_units units.entry)) }
{
    let Some(units) = units else {
        return Ok((None, None));
    };
    let in_unit = unit_tree(alloc, units.in_unit)?;
    let out_unit = unit_tree(alloc, units.out_unit)?;
    Ok((in_unit, out_unit))
}

// Returns a unit of a function, or `None` if its text is empty.
fn unit_tree(alloc: Global, text: &[u8]) -> Result<Option<Tree>, EntryFault>
    ensures { GivesEntry seen_entry_tree result (spec.unit_tree text.now) }
{
    if text.is_empty() {
        return Ok(None);
    }
    Ok(Some(tree_of(alloc, text, None)?))
}

// Returns the inverse, in which the name of the function denotes its argument.
fn inverse_tree(alloc: Global, name: &[u8], text: Option<&[u8]>) -> Result<Option<Tree>, EntryFault>
    ensures { GivesEntry seen_entry_tree result (spec.inverse_body_in name.now (option_copied text.entry)) }
{
    match text {
        Some(text) => Ok(Some(tree_of(alloc, text, Some(name))?)),
        None => Ok(None),
    }
}
