//! Definitions that do not conform to the units in their comments.

ghost use Rattle.reply.specs.Options.{AreReplyOptionsPrintable};

use crate::aliases::Aliases;
use crate::definitions::Definitions;
use crate::entries::{key_at, what_at};
use crate::evaluator::{Evaluated, Evaluator};
use crate::finding::{Finding, LineFinding, Severity, push_finding};
use crate::mark::Mark;
use crate::open_file::OpenFile;
use crate::places::Places;
use crate::unit_notes::UnitNotes;
use crate::writer::Writer;
use deck::Deck;
use def_entry::{Kind, What, parse_fault_text};
use expr_tree::{ParseFault, Tree, parse_expr};
use quantity::Quantity;
use reply::Options;
use std::alloc::{AllocError, Global};
use std::sync::ledger::Ledger;
use units_io::{Files, Text};
use value_sources::value_tree;

// A definition whose comment names a unit.
struct NotedUnit {
    place: usize,
    unit: Text,
}

// Written by hand, so that code that drops a noted unit need not prove anything about its contents.
impl Drop for NotedUnit {
    fn drop(self) {
        let NotedUnit { place: _, unit: _ } = self;
    }
}

/// Appends a finding for each definition at the places `keys` whose value does not conform to the unit in its comment,
/// or whose comment names a unit without a value.
pub(crate) fn put_unmet<F: Files, L: Ledger>(
    definitions: &mut Definitions<L>,
    options: &Options,
    keys: &[usize],
    files: &mut F,
    findings: &mut Vec<LineFinding>,
) -> Result<(), AllocError>
    requires { AreReplyOptionsPrintable options.now }
{
    let alloc = definitions.evaluator.alloc;
    let noted = noted_units(alloc, Places::of(definitions), keys, files)?;
    if noted.is_empty() {
        return Ok(());
    }
    let evaluator = &mut definitions.evaluator;
    let mut aliases = Aliases::new(alloc, evaluator.deck())?;
    for noted in noted.as_slice() {
        let end = aliases.end(alloc, evaluator.deck(), noted.place)?;
        if let Some(message) = unmet_message(evaluator, options, &noted.unit, end)? {
            push_finding(findings, noted.place, unmet_finding(message))?;
        }
    }
    Ok(())
}

fn unmet_finding(message: Text) -> Finding {
    Finding {
        severity: Severity::Warning,
        message,
        mark: Mark::Name,
    }
}

// Returns the units that the comments of the definitions at the places `keys` name, in the order of the files and their
// lines.
fn noted_units<F: Files>(
    alloc: Global,
    places: Places<'_>,
    keys: &[usize],
    files: &mut F,
) -> Result<Vec<NotedUnit>, AllocError> {
    let order = order_of(alloc, places, keys)?;
    let mut file = NotedFile {
        open: OpenFile::none(alloc),
        notes: UnitNotes::none(alloc),
    };
    let mut noted = Vec::new(alloc);
    for (number, place) in order.as_slice() {
        if let Some(line) = places.line(*place) {
            file.open(alloc, files, places, *number, line.file)?;
            if let Some(unit) = file.notes.unit_at(line.number) {
                push_noted(alloc, &mut noted, *place, unit)?;
            }
        }
    }
    Ok(noted)
}

// Returns the file number and the place of each definition, sorted.
fn order_of(
    alloc: Global,
    places: Places<'_>,
    keys: &[usize],
) -> Result<Vec<(usize, usize)>, AllocError> {
    let mut order = Vec::new(alloc);
    for place in keys {
        order.push((places.file_number(*place), *place))?;
    }
    order.sort_unstable();
    Ok(order)
}

fn push_noted(
    alloc: Global,
    noted: &mut Vec<NotedUnit>,
    place: usize,
    unit: &[u8],
) -> Result<(), AllocError> {
    let unit = Text::from_bytes(alloc, unit)?;
    Ok(noted.push(NotedUnit { place, unit })?)
}

// An open file and the units that its comments name.
struct NotedFile {
    open: OpenFile,
    notes: UnitNotes,
}

// Written by hand, so that code that drops a noted file need not prove anything about its contents.
impl Drop for NotedFile {
    fn drop(self) {
        let NotedFile { open: _, notes: _ } = self;
    }
}

impl NotedFile {
    // Opens the file with this number and name, unless it is already open, and reads its notes.
    fn open<F: Files>(
        &mut self,
        alloc: Global,
        files: &mut F,
        places: Places<'_>,
        number: usize,
        name: &[u8],
    ) -> Result<(), AllocError> {
        if self.open.open(alloc, files, places, number, name)? {
            self.notes = UnitNotes::read_notes(alloc, self.open.text())?;
        }
        Ok(())
    }
}

// Returns an expression that conforms to the result of the definition at a place, or `None` if the result is not
// declared: for a function without a result unit, or an alias that leads to no function.
fn result_tree(alloc: Global, deck: &Deck, place: usize) -> Result<Option<Tree>, AllocError> {
    let Some(key) = key_at(alloc, deck, place)? else {
        return Ok(None);
    };
    match key.kind {
        Kind::Unit => return Ok(Some(Tree::Word(key.into_name()))),
        Kind::Prefix => return value_tree(alloc, deck, &key),
        Kind::Func | Kind::List => {}
    }
    match what_at(deck, place) {
        Some(What::Function(function)) => copy_if(alloc, function.out_unit.as_ref()),
        Some(What::Table(table)) => copy_if(alloc, Some(&table.unit)),
        Some(What::ListOf(parts)) => copy_if(alloc, parts.get(0)),
        _ => Ok(None),
    }
}

fn copy_if(alloc: Global, tree: Option<&Tree>) -> Result<Option<Tree>, AllocError> {
    match tree {
        Some(tree) => Ok(Some(tree.copy(alloc)?)),
        None => Ok(None),
    }
}

// Returns the fault of the definition whose aliases end at a place if its result does not conform to a unit. A result
// without a value is reported elsewhere.
fn unmet_message<L: Ledger>(
    evaluator: &mut Evaluator<L>,
    options: &Options,
    unit: &Text,
    end: usize,
) -> Result<Option<Text>, AllocError>
    requires { AreReplyOptionsPrintable options.now }
{
    let Some(tree) = result_tree(evaluator.alloc, evaluator.deck(), end)? else {
        return Ok(None);
    };
    match unit_value(evaluator, options, unit)? {
        Evaluated::Value(wanted) => unlike_message(evaluator, options, unit, &wanted, &tree),
        Evaluated::Fault(fault) => Ok(Some(unit_fault(evaluator.alloc, unit, &fault)?)),
    }
}

// Returns the value of a unit in a comment, or its fault.
fn unit_value<L: Ledger>(
    evaluator: &mut Evaluator<L>,
    options: &Options,
    unit: &Text,
) -> Result<Evaluated, AllocError>
    requires { AreReplyOptionsPrintable options.now }
{
    let alloc = evaluator.alloc;
    match parse_expr(alloc, unit.as_bytes(), None) {
        Ok(unit) => evaluator.evaluate(options, &unit),
        Err(ParseFault::OutOfMemory) => Err(AllocError),
        Err(fault) => Ok(Evaluated::Fault(parse_fault_text(alloc, fault)?)),
    }
}

// Returns the message about an expression whose value does not conform to that of a unit.
fn unlike_message<L: Ledger>(
    evaluator: &mut Evaluator<L>,
    options: &Options,
    unit: &Text,
    wanted: &Quantity,
    tree: &Tree,
) -> Result<Option<Text>, AllocError>
    requires { AreReplyOptionsPrintable options.now }
{
    match evaluator.value_if_any(tree)? {
        Some(found) if !found.conforms(wanted) => {
            let mut message = Writer::new(evaluator.alloc);
            message.put_value(options, &found);
            message.put(b" does not conform to ");
            message.put(unit.as_bytes());
            Ok(Some(message.into_text()?))
        }
        _ => Ok(None),
    }
}

// Returns the message about a unit in a comment that has no value.
fn unit_fault(alloc: Global, unit: &Text, fault: &Text) -> Result<Text, AllocError> {
    let mut message = Writer::new(alloc);
    message.put(b"the unit of its comment, ");
    message.put(unit.as_bytes());
    message.put(b", has no value: ");
    message.put(fault.as_bytes());
    message.into_text()
}
