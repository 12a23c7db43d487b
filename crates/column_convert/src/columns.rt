//! A column of a text of records.

ghost use Rattle.std.specs.Prelude.{◌≡◌, ◌≤◌, ◌||◌, IfOk, OnOk, Some};
ghost use Rattle.deck.specs.Tables as tables;
ghost use Rattle.live_table.specs.Calls.{AreLiveQueries};
ghost use Rattle.reply.specs.Options.{AreReplyOptionsPrintable};
ghost use Rattle.column_convert.specs.Blocks.{block_of_rows, column_input_after, first_records};
ghost use Rattle.column_convert.specs.Inputs.{column_input_of_text, rest_of_column_input};
ghost use Rattle.column_convert.specs.Drafts.{IsRowDraftReady};
ghost use Rattle.column_convert.specs.Rows as spec;
ghost use Rattle.column_convert.specs.RecordWriter.{IsNextRowWritten, record_writer_text};

use crate::block::Block;
use crate::column_row::{ColumnRow, only_row};
use crate::draft::Draft;
use crate::memory::Memory;
use crate::record_writer::{finish_writer, new_writer};
use crate::records::Records;
use crate::row::ColumnRecord;
use csv::ByteRecord;
use live_table::LiveTable;
use reply::{Options, Question};
use std::alloc::{AllocError, Global};
use std::marker::Model;
use std::sync::ledger::Ledger;
use units_io::{Steps, Text};

/// A text of records, of which one column is converted. Contracts see the records left to give, the place of the
/// column, and whether the next record is the header.
#[derive(Drop)]
pub struct Columns {
    records: Records,
    // the record that was read last; its memory is reused
    last: ByteRecord,
    place: usize,
    headed: bool,
}

impl Model for Columns {
    ghost use Rattle.column_convert.specs.Inputs.{ColumnInput, column_input_code};

    ghost Value = { ColumnInput };

    ghost coded = { column_input_code };

    ghost view = { λ c. record { records = c.records; place = c.place; has_header = c.headed } };
}

impl Columns {
    /// Returns the records of a text, with the number of a column, counted from 1, and whether the first record is a
    /// header. Does not copy the text. The only error is running out of memory.
    pub fn new(
        alloc: Global,
        input: Text,
        column: usize,
        header: bool,
    ) -> Result<Columns, AllocError>
        requires { 1 ≤ column }
        ensures { IfOk result (λ columns. columns ≡ column_input_of_text input column header) }
    {
        Ok(Columns {
            records: Records::new(alloc, input.into_bytes()),
            last: ByteRecord::new(alloc),
            place: column - 1,
            headed: header,
        })
    }

    /// Returns the next row, or `None` if and only if none is left. See [`Columns::next_rows`], which it calls.
    pub fn next_row<L: Ledger>(
        &mut self,
        alloc: Global,
        table: &mut LiveTable,
        options: &Options,
        from: &[u8],
        to: &[u8],
        steps: &mut Steps<L>,
    ) -> Result<Option<ColumnRow>, AllocError>
        requires { AreReplyOptionsPrintable options.now }
        ensures row { IfOk result (λ row. row
            ≡ spec.next_row (tables.table_of_deck table.old.deck) options.now from.now to.now self.old) }
        ensures left { OnOk result (self.new ≡ rest_of_column_input self.old) }
        ensures queries { AreLiveQueries
            (spec.next_queries (tables.table_of_deck table.old.deck) options.now from.now to.now self.old)
            result table.old table.new steps.old steps.new }
        ensures deck { table.new.deck ≡ table.old.deck }
    {
        let question = Question { options, from, to };
        let block = self.next_rows(alloc, table, &question, 1, steps)?;
        Ok(only_row(block))
    }

    /// Returns the next rows as a block: `most` rows, or fewer if fewer are left; none exactly if none is left or
    /// `most` is 0. The header and records without a field in the column stay as they are. In every other record, the
    /// field is converted from FROM to TO, or replaced by an error. Makes the queries of these conversions, in order,
    /// and does not change the deck. The only error is running out of memory, after which the rows can no longer be
    /// used.
    pub fn next_rows<L: Ledger>(
        &mut self,
        alloc: Global,
        table: &mut LiveTable,
        question: &Question<'_>,
        most: usize,
        steps: &mut Steps<L>,
    ) -> Result<Block, AllocError>
        requires { AreReplyOptionsPrintable question.now.options.now }
        ensures block { IfOk result (λ block. block ≡ block_of_rows
            (spec.rows (tables.table_of_deck table.old.deck) question.now.options.now question.now.from.now
            question.now.to.now (first_records most self.old))) }
        ensures left { OnOk result (self.new ≡ column_input_after most self.old) }
        ensures queries { AreLiveQueries
            (spec.queries (tables.table_of_deck table.old.deck) question.now.options.now question.now.from.now
            question.now.to.now (first_records most self.old)) result table.old table.new steps.old steps.new }
        ensures deck { table.new.deck ≡ table.old.deck }
    {
        // The cached outcomes are right, even if no query is made.
        table.outcomes_are_right();
        let mut draft = Draft {
            writer: new_writer(alloc),
            changed: ByteRecord::new(alloc),
            memory: Memory::new(),
        };
        let mut count = 0;
        let mut any = false;
        while count < most {
            let Some(refused) = self.write_next(alloc, table, question, &mut draft, steps)? else {
                return close_draft(draft, count, any);
            };
            any = either(any, refused);
            count += 1;
        }
        close_draft(draft, count, any)
    }

    // Writes the next row and returns whether its cell is an error, or `None` exactly if no row is left.
    fn write_next<L: Ledger>(
        &mut self,
        alloc: Global,
        table: &mut LiveTable,
        question: &Question<'_>,
        draft: &mut Draft,
        steps: &mut Steps<L>,
    ) -> Result<Option<bool>, AllocError>
        requires printable { AreReplyOptionsPrintable question.now.options.now }
        requires ready { IsRowDraftReady table.old question.now draft.old }
        ensures ready { OnOk result (IsRowDraftReady table.new question.now draft.new) }
        ensures row { IfOk result (λ refused. IsNextRowWritten draft.old.writer draft.new.writer refused
            (spec.next_row (tables.table_of_deck table.old.deck) question.now.options.now question.now.from.now
            question.now.to.now self.old)) }
        ensures left { OnOk result (self.new ≡ rest_of_column_input self.old) }
        ensures queries { AreLiveQueries
            (spec.next_queries (tables.table_of_deck table.old.deck) question.now.options.now question.now.from.now
            question.now.to.now self.old) result table.old table.new steps.old steps.new }
        ensures deck { table.new.deck ≡ table.old.deck }
    {
        // The cached outcomes are right, even if no query is made.
        table.outcomes_are_right();
        if !self.records.read(&mut self.last)? {
            return Ok(None);
        }
        let column_record = ColumnRecord {
            fields: &self.last,
            place: self.place,
            headed: self.headed,
        };
        let refused = draft.write_row(alloc, table, question, &column_record, steps)?;
        self.headed = false;
        Ok(Some(refused))
    }
}

// Returns whether either is true.
fn either(a: bool, b: bool) -> bool
    ensures { result ≡ (a || b) }
{
    a || b
}

// Returns the block of the rows in a draft, given the number of rows and whether a cell of them is an error.
fn close_draft(draft: Draft, count: usize, any: bool) -> Result<Block, AllocError>
    ensures { IfOk result (λ block.
        (record_writer_text draft.writer ≡ Some block.text) × (block.rows ≡ count) × (block.refused ≡ any)) }
{
    let Draft {
        writer,
        changed: _,
        memory: _,
    } = draft;
    let text = finish_writer(writer)?;
    Ok(Block {
        text,
        rows: count,
        refused: any,
    })
}
