//! Answers to conversions of one column of a text of records.

ghost use Rattle.std.specs.Prelude.{◌≡◌, ◌<◌, ◌≤◌, IfOk};
ghost use Rattle.column_convert.specs.Blocks.{block_of_rows};
ghost use Rattle.column_convert.specs.Inputs.{column_input_of_text};
ghost use Rattle.column_convert.specs.Rows.{rows};
ghost use Rattle.deck.specs.Tables as tables;
ghost use Rattle.edited_table.specs.Answers as spec;
ghost use Rattle.edited_table.specs.TableValue.{c_definitions_of, c_query_table};
ghost use Rattle.reply.specs.Options.{AreReplyOptionsPrintable};

use crate::answer::Answer;
use crate::edited_table::EditedTable;
use crate::status::Status;
use column_convert::{Block, Columns};
use live_table::LiveTable;
use reply::Question;
use std::alloc::{AllocError, Global};
use std::marker::Brand;
use std::sync::ledger::{Blank, Ledger};
use units_io::{Steps, Text};

/// A column of a text of records, and how its fields are converted.
#[derive(Clone, Copy)]
pub struct Column<'a> {
    /// The units that the fields are converted from and to, and the options for their replies.
    pub question: Question<'a>,
    /// The number of the column, from 1.
    pub number: usize,
    /// Whether the first record is a header, which is copied unchanged.
    pub has_header: bool,
}

/// Converts a column of a text of records and returns the answer.
pub fn answer_column(
    alloc: Global,
    content: &mut EditedTable,
    column: &Column<'_>,
    text: &[u8],
) -> Result<Answer, AllocError>
    requires printable { AreReplyOptionsPrintable column.now.question.options.now }
    requires number { 1 ≤ column.now.number }
    ensures answer { IfOk result (λ answer. answer ≡ spec.c_rows_answer
        (rows (c_query_table content.old) column.now.question.options.now column.now.question.from.now
        column.now.question.to.now (column_input_of_text text.now column.now.number column.now.has_header))) }
    ensures unedited { c_definitions_of content.new ≡ c_definitions_of content.old }
{
    let blank = Blank::new(1);
    let block = counted_column::<Brand>(alloc, &mut content.table, column, text, blank)?;
    Ok(Answer {
        status: rows_status(block.refused),
        text: block.text,
    })
}

// Converts a column with a step counter that nobody reads.
fn counted_column<L: Ledger>(
    alloc: Global,
    table: &mut LiveTable,
    column: &Column<'_>,
    text: &[u8],
    blank: Blank,
) -> Result<Block, AllocError>
    requires name { blank.name ≡ L.name }
    requires parts { blank.parts ≡ L.parts }
    requires some { 0 < blank.parts }
    requires printable { AreReplyOptionsPrintable column.now.question.options.now }
    requires number { 1 ≤ column.now.number }
    ensures block { IfOk result (λ block. block ≡ block_of_rows
        (rows (tables.table_of_deck table.old.deck) column.now.question.options.now column.now.question.from.now
        column.now.question.to.now (column_input_of_text text.now column.now.number column.now.has_header))) }
    ensures deck { table.new.deck ≡ table.old.deck }
{
    // A text has at most one record per byte, plus an empty last one.
    let Some(most) = text.len().checked_add(1) else {
        return Err(AllocError);
    };
    let mut columns = read_columns(alloc, column, text)?;
    let mut steps: Steps<L> = Steps::new(blank);
    columns.next_rows(alloc, table, &column.question, most, &mut steps)
}

// Returns the records of a copy of `text`.
fn read_columns(alloc: Global, column: &Column<'_>, text: &[u8]) -> Result<Columns, AllocError>
    requires { 1 ≤ column.now.number }
    ensures { IfOk result (λ columns.
        columns ≡ column_input_of_text text.now column.now.number column.now.has_header) }
{
    let input = Text::from_bytes(alloc, text)?;
    Columns::new(alloc, input, column.number, column.has_header)
}

// Returns the status of rows, given whether a cell is an error.
fn rows_status(refused: bool) -> Status
    ensures { result ≡ spec.rows_status refused }
{
    if refused {
        Status::CellError
    } else {
        Status::Done
    }
}
