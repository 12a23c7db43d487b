//! Converting fields to cells.

ghost use Rattle.std.specs.Prelude.{◌≡◌, ◌++◌, IfOk, OnOk, codes};
ghost use Rattle.def_lines.specs.Blanks.{trimmed_of_blanks};
ghost use Rattle.deck.specs.Tables as tables;
ghost use Rattle.live_table.specs.Calls.{AreLiveQueries};
ghost use Rattle.reply.specs.Options.{AreReplyOptionsPrintable};
ghost use Rattle.column_convert.specs.Cells as spec;
ghost use Rattle.column_convert.specs.CachedValues.{IsCellNumber, IsCellRecallRight};
ghost use Rattle.column_convert.specs.Products as products;

use crate::memory::Memory;
use crate::signed_number::{Signed, WrittenNumber, behind_minus};
use deck::Deck;
use def_entry::{Kind, cut_at};
use def_lines::trim;
use frac128::{NumeralFault, read_numeral};
use live_table::LiveTable;
use reply::{Options, Question, Reply, convert_reply};
use std::alloc::{AllocError, Global};
use std::sync::ledger::Ledger;
use units_io::{Steps, Text};

/// The cell that replaces a field.
#[derive(Drop)]
pub(crate) struct Cell {
    pub(crate) text: Text,
    pub(crate) refused: bool,
}

impl Memory {
    /// Converts a field to a cell, with the values remembered between fields. The only error is running out of memory.
    pub(crate) fn convert_cell<L: Ledger>(
        &mut self,
        alloc: Global,
        table: &mut LiveTable,
        question: &Question<'_>,
        field: &[u8],
        steps: &mut Steps<L>,
    ) -> Result<Cell, AllocError>
        requires printable { AreReplyOptionsPrintable question.now.options.now }
        requires known { IsCellRecallRight table.old (trimmed_of_blanks question.now.from.now) question.now.to.now
            self.old }
        ensures cell { IfOk result
            (λ cell. cell ≡ spec.cell (tables.table_of_deck table.old.deck) question.now.options.now
            question.now.from.now question.now.to.now field.now) }
        ensures queries { AreLiveQueries
            (spec.cell_queries (tables.table_of_deck table.old.deck) question.now.options.now
            question.now.from.now question.now.to.now field.now) result table.old table.new steps.old steps.new }
        ensures known { OnOk result
            (IsCellRecallRight table.new (trimmed_of_blanks question.now.from.now) question.now.to.now self.new) }
        ensures deck { table.new.deck ≡ table.old.deck }
    {
        // The cached outcomes are right, even if no query is made.
        table.outcomes_are_right();
        let from = trim(question.from);
        let question = Question { from, ..*question };
        let text = trim(field);
        if let Some(signed) = Signed::read_signed(text) {
            let number = WrittenNumber { text, signed };
            return self.signed_cell(alloc, table, &question, &number, steps);
        }
        if is_number(text) {
            self.forget();
            return number_cell(alloc, table, &question, text, steps);
        }
        not_a_number(alloc)
    }

    // Converts a number whose numeral is within the limits.
    fn signed_cell<L: Ledger>(
        &mut self,
        alloc: Global,
        table: &mut LiveTable,
        question: &Question<'_>,
        number: &WrittenNumber<'_>,
        steps: &mut Steps<L>,
    ) -> Result<Cell, AllocError>
        requires printable { AreReplyOptionsPrintable question.now.options.now }
        requires known { IsCellRecallRight table.old question.now.from.now question.now.to.now self.old }
        requires signed { IsCellNumber number.now.text.now number.now.signed }
        ensures cell { IfOk result
            (λ cell. cell ≡ spec.cell_of_reply (spec.number_reply (tables.table_of_deck table.old.deck)
            question.now.options.now question.now.from.now question.now.to.now number.now.text.now)) }
        ensures queries { AreLiveQueries
            (spec.number_queries (tables.table_of_deck table.old.deck) question.now.options.now
            question.now.from.now question.now.to.now number.now.text.now)
            result table.old table.new steps.old steps.new }
        ensures known { OnOk result (IsCellRecallRight table.new question.now.from.now question.now.to.now self.new) }
        ensures deck { table.new.deck ≡ table.old.deck }
    {
        self.recall(alloc, table, question, &number.signed, steps)?;
        if let Some(cell) = self.cell(alloc, question, number)? {
            return Ok(cell);
        }
        self.forget();
        number_cell(alloc, table, question, number.text, steps)
    }
}

// Converts a number.
fn number_cell<L: Ledger>(
    alloc: Global,
    table: &mut LiveTable,
    question: &Question<'_>,
    number: &[u8],
    steps: &mut Steps<L>,
) -> Result<Cell, AllocError>
    requires { AreReplyOptionsPrintable question.now.options.now }
    ensures cell { IfOk result
        (λ cell. cell ≡ spec.cell_of_reply (spec.number_reply (tables.table_of_deck table.old.deck)
        question.now.options.now question.now.from.now question.now.to.now number.now)) }
    ensures queries { AreLiveQueries (spec.number_queries (tables.table_of_deck table.old.deck) question.now.options.now
        question.now.from.now question.now.to.now number.now) result table.old table.new steps.old steps.new }
    ensures deck { table.new.deck ≡ table.old.deck }
{
    // The cached outcomes are right, even if no query is made.
    table.outcomes_are_right();
    let asked = asked_text(alloc, table.deck(), question.from, number)?;
    let reply = convert_reply(
        alloc,
        table,
        &cell_options(question.options),
        asked.as_bytes(),
        question.to,
        steps,
    )?;
    cell_of(alloc, &reply)
}

// Returns whether a text is a numeral, perhaps with a minus sign before it.
fn is_number(text: &[u8]) -> bool
    ensures { result ≡ spec.is_signed_cell_numeral text.now }
{
    !matches!(
        read_numeral(behind_minus(text)),
        Err(NumeralFault::NotNumeral)
    )
}

// Returns the text to convert for a number: the call of the function FROM with the number, if FROM names a function, or
// else the number times FROM.
fn asked_text(alloc: Global, deck: &Deck, from: &[u8], number: &[u8]) -> Result<Text, AllocError>
    ensures { IfOk result (λ text. text
        ≡ spec.cell_conversion_text (tables.table_of_deck deck.now) from.now number.now) }
{
    if deck.entry(Kind::Func, from).is_some() {
        call_text(alloc, from, number)
    } else {
        product_text(alloc, number, from)
    }
}

// Returns the text of a call of a function with a number.
fn call_text(alloc: Global, name: &[u8], number: &[u8]) -> Result<Text, AllocError>
    ensures { IfOk result (λ text. text ≡ name.now ++ (codes "(" ++ (number.now ++ codes ")"))) }
{
    let mut text = Vec::new(alloc);
    text.extend_from_slice(name)?;
    text.extend_from_slice(b"(".as_slice())?;
    text.extend_from_slice(number)?;
    text.extend_from_slice(b")".as_slice())?;
    Ok(Text::from(text))
}

/// Returns the text of a number times FROM. The only error is running out of memory.
pub(crate) fn product_text(alloc: Global, number: &[u8], from: &[u8]) -> Result<Text, AllocError>
    ensures { IfOk result (λ text. text ≡ products.cell_product_text number.now from.now) }
{
    let mut text = Vec::new(alloc);
    text.extend_from_slice(b"(".as_slice())?;
    text.extend_from_slice(number)?;
    text.extend_from_slice(b") (".as_slice())?;
    text.extend_from_slice(from)?;
    text.extend_from_slice(b")".as_slice())?;
    Ok(Text::from(text))
}

/// Returns the options of the reply in a cell.
pub(crate) fn cell_options(options: &Options) -> Options
    requires { AreReplyOptionsPrintable options.now }
    ensures is { result ≡ spec.cell_options options.now }
    ensures printable { AreReplyOptionsPrintable result }
{
    Options {
        digits: options.digits,
        exact: options.exact,
        strict: true,
        one_line: true,
        compact: true,
        quiet: true,
        round: options.round,
        verbose: false,
    }
}

// Returns the cell of a field that is not a number.
fn not_a_number(alloc: Global) -> Result<Cell, AllocError>
    ensures { IfOk result (λ cell. cell ≡ spec.cell_not_a_number) }
{
    let text = Text::from_bytes(alloc, b"error: not a number")?;
    Ok(Cell {
        text,
        refused: true,
    })
}

/// Returns the cell with the first line of a reply. The only error is running out of memory.
pub(crate) fn cell_of(alloc: Global, reply: &Reply) -> Result<Cell, AllocError>
    ensures { IfOk result (λ cell. cell ≡ spec.cell_of_reply reply.now) }
{
    let mut text = Vec::from_slice(alloc, error_front(reply.refused))?;
    text.extend_from_slice(first_line(reply.text.as_bytes()))?;
    Ok(Cell {
        text: Text::from(text),
        refused: reply.refused,
    })
}

// Returns the text before a refused reply, which is empty for other replies.
fn error_front(refused: bool) -> &'static [u8]
    ensures { result.now ≡ spec.cell_error_front refused }
{
    if refused {
        b"error: ".as_slice()
    } else {
        b"".as_slice()
    }
}

// Returns the text up to the first line feed, or the whole text if it has none.
fn first_line(text: &[u8]) -> &[u8]
    ensures { result.now ≡ spec.first_cell_line text.now }
{
    match cut_at(text, b'\n') {
        Some((line, _)) => line,
        None => text,
    }
}
