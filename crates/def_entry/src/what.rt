//! The definitions in lines.

ghost use Rattle.std.specs.Prelude.{◌≡◌};
ghost use Rattle.std.specs.Option.{option_copied};
ghost use Rattle.def_entry.specs.Outcomes as outcomes;
ghost use Rattle.def_entry.specs.EntryReading as spec;
ghost use Rattle.def_entry.specs.LineViews.{seen_entry_text, seen_heading};
ghost use Rattle.def_entry.specs.Views.{entry_definition_view};

use crate::cuts::cut_at;
use crate::entry::{TableDef, What};
use crate::expression::tree_of;
use crate::fault::EntryFault;
use crate::form::{form_of, some_text};
use crate::function::function_of;
use crate::key::Kind;
use crate::line_head::Heading;
use crate::list::part_trees;
use crate::point_list::table_points;
use def_lines::trim;
use expr_tree::is_name;
use std::alloc::Global;
use units_io::Text;

// Returns the definition in a line, given its heading.
#[tactic(auto, unfolding(crate::specs::EntryReading::what_of))]
pub(crate) fn what_of(alloc: Global, heading: &Heading) -> Result<What, EntryFault>
    ensures { outcomes.GivesEntry entry_definition_view result (spec.what_of (seen_heading heading.now)) }
{
    check_heading(alloc, heading)?;
    let (name, text) = (heading.name, heading.text);
    match heading.kind {
        Kind::Unit => unit_of(alloc, text),
        Kind::Prefix => body_of(alloc, text),
        Kind::Func => func_of(alloc, name, text),
        Kind::List => list_of(alloc, text),
    }
}

// Checks that the name of a heading is valid. A list without a name is a bad form.
fn check_heading(alloc: Global, heading: &Heading) -> Result<(), EntryFault>
    ensures { outcomes.GivesEntry (λ done. heading.now.name.now) result
        (spec.heading_name_in heading.now.kind heading.now.name.now) }
{
    match heading.kind {
        Kind::List if heading.name.is_empty() => Err(EntryFault::BadForm),
        _ => check_name(alloc, heading.name),
    }
}

// Checks that a word is a valid name.
pub(crate) fn check_name(alloc: Global, word: &[u8]) -> Result<(), EntryFault>
    ensures { outcomes.GivesEntry (λ done. word.now) result (outcomes.name_or_entry_fault word.now) }
{
    if is_name(word) {
        return Ok(());
    }
    Err(EntryFault::BadName(Text::from_bytes(alloc, word)?))
}

// Returns the text, or the fault of a bad form if it is empty.
fn require_text(text: &[u8]) -> Result<&[u8], EntryFault>
    ensures { outcomes.GivesEntry seen_entry_text result (spec.nonempty_entry_text text.now) }
{
    some_text(text).ok_or(EntryFault::BadForm)
}

// Returns the definition of a unit.
fn unit_of(alloc: Global, text: &[u8]) -> Result<What, EntryFault>
    ensures { outcomes.GivesEntry entry_definition_view result (spec.unit_body_in text.now) }
{
    if text == b"!".as_slice() {
        return Ok(What::Primitive);
    }
    if text == b"!dimensionless".as_slice() {
        return Ok(What::Dimensionless);
    }
    body_of(alloc, text)
}

// Returns the definition of a unit or a prefix by an expression.
fn body_of(alloc: Global, text: &[u8]) -> Result<What, EntryFault>
    ensures { outcomes.GivesEntry entry_definition_view result (spec.body_in text.now) }
{
    let body = require_text(text)?;
    Ok(What::Body(tree_of(alloc, body, None)?))
}

// Returns a function, whose text starts with `(`, or a table, whose text starts with `[`.
fn func_of(alloc: Global, name: &[u8], text: &[u8]) -> Result<What, EntryFault>
    ensures { outcomes.GivesEntry entry_definition_view result (spec.function_or_table_entry_in name.now text.now) }
{
    let Some((bracket, inside)) = text.split_first() else {
        return Err(EntryFault::BadForm);
    };
    if *bracket == b'(' {
        let (parameter, behind) = cut_at(inside, b')').ok_or(EntryFault::BadForm)?;
        call_of(alloc, name, trim(parameter), behind)
    } else {
        let (unit, behind) = cut_at(inside, b']').ok_or(EntryFault::BadForm)?;
        table_of(alloc, trim(unit), behind)
    }
}

// Returns a function, given its parameter, which is empty for an alias, and the text after it.
fn call_of(alloc: Global, name: &[u8], parameter: &[u8], behind: &[u8]) -> Result<What, EntryFault>
    ensures { outcomes.GivesEntry entry_definition_view result
        (spec.function_or_alias_in name.now parameter.now behind.now) }
{
    if parameter.is_empty() {
        return alias_of(alloc, behind);
    }
    check_name(alloc, parameter)?;
    match form_of(behind) {
        Some(form) => function_of(alloc, name, parameter, &form),
        None => Err(EntryFault::BadForm),
    }
}

// Returns an alias of another function.
fn alias_of(alloc: Global, text: &[u8]) -> Result<What, EntryFault>
    ensures { outcomes.GivesEntry entry_definition_view result (spec.alias_in text.now) }
{
    let target = require_text(without_call(trim(text)))?;
    check_name(alloc, target)?;
    Ok(What::Alias(Text::from_bytes(alloc, target)?))
}

// Returns the text without a final `()`.
fn without_call(text: &[u8]) -> &[u8]
    ensures { result.now ≡ spec.without_call text.now }
{
    if text.ends_with(b"()") {
        &text[..text.len() - 2]
    } else {
        text
    }
}

// Returns a table, given its unit and the text after it.
fn table_of(alloc: Global, text: &[u8], behind: &[u8]) -> Result<What, EntryFault>
    ensures { outcomes.GivesEntry entry_definition_view result (spec.table_entry_in text.now behind.now) }
{
    let unit = require_text(text)?;
    let points = table_points(alloc, behind)?;
    let unit = tree_of(alloc, unit, None)?;
    Ok(What::Table(Box::new(alloc, TableDef { unit, points })?))
}

// Returns a list, whose parts are separated by `;`.
fn list_of(alloc: Global, text: &[u8]) -> Result<What, EntryFault>
    ensures { outcomes.GivesEntry entry_definition_view result (spec.list_entry_in text.now) }
{
    let parts = require_text(text)?;
    Ok(What::ListOf(part_trees(alloc, parts)?))
}
