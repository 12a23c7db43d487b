//! Writing rows.

ghost use Rattle.std.specs.Prelude.{◌≡◌, ◌<◌, [], IfOk, OnOk, get_or, length, slice_set};
ghost use Rattle.csv.specs.Records.{fields_of};
ghost use Rattle.deck.specs.Tables as tables;
ghost use Rattle.live_table.specs.Calls.{AreLiveQueries};
ghost use Rattle.reply.specs.Options.{AreReplyOptionsPrintable};
ghost use Rattle.column_convert.specs.Drafts.{IsRowDraftReady};
ghost use Rattle.column_convert.specs.Rows as spec;
ghost use Rattle.column_convert.specs.RecordWriter.{IsIdleRecordWriter, IsRowWritten};

use crate::cell::Cell;
use crate::draft::Draft;
use crate::record_writer::write_record;
use csv::{ByteRecord, Writer};
use live_table::LiveTable;
use reply::Question;
use std::alloc::{AllocError, Global};
use std::sync::ledger::Ledger;
use units_io::Steps;

/// A record, the place of the column in it, and whether it is the header.
#[derive(Clone, Copy)]
pub(crate) struct ColumnRecord<'a> {
    pub(crate) fields: &'a ByteRecord,
    pub(crate) place: usize,
    pub(crate) headed: bool,
}

impl Draft {
    /// Writes the row of a record and returns whether its cell is an error. A header, and a record without a field in
    /// the column, stays as it is. The only error is running out of memory, after which the writer can no longer be
    /// used.
    pub(crate) fn write_row<L: Ledger>(
        &mut self,
        alloc: Global,
        table: &mut LiveTable,
        question: &Question<'_>,
        column_record: &ColumnRecord<'_>,
        steps: &mut Steps<L>,
    ) -> Result<bool, AllocError>
        requires printable { AreReplyOptionsPrintable question.now.options.now }
        requires ready { IsRowDraftReady table.old question.now self.old }
        ensures ready { OnOk result (IsRowDraftReady table.new question.now self.new) }
        ensures row { IfOk result (λ refused. IsRowWritten self.old.writer self.new.writer refused
            (spec.row (tables.table_of_deck table.old.deck) question.now.options.now question.now.from.now
            question.now.to.now column_record.now.place column_record.now.headed
            (fields_of column_record.now.fields.now))) }
        ensures queries { AreLiveQueries
            (spec.row_queries (tables.table_of_deck table.old.deck) question.now.options.now question.now.from.now
            question.now.to.now column_record.now.place column_record.now.headed
            (fields_of column_record.now.fields.now))
            result table.old table.new steps.old steps.new }
        ensures deck { table.new.deck ≡ table.old.deck }
    {
        // The cached outcomes are right, even if no query is made.
        table.outcomes_are_right();
        let fields = column_record.fields;
        if column_record.headed {
            return write_kept(&mut self.writer, fields);
        }
        match fields.get(column_record.place) {
            Some(field) => {
                let cell = self
                    .memory
                    .convert_cell(alloc, table, question, field, steps)?;
                write_cell(
                    &mut self.writer,
                    &mut self.changed,
                    fields,
                    column_record.place,
                    &cell,
                )
            }
            None => write_kept(&mut self.writer, fields),
        }
    }
}

// Writes a record unchanged.
fn write_kept(writer: &mut Writer<Vec<u8>>, fields: &ByteRecord) -> Result<bool, AllocError>
    requires { IsIdleRecordWriter writer.old }
    ensures idle { OnOk result (IsIdleRecordWriter writer.new) }
    ensures row { IfOk result (λ refused.
        IsRowWritten writer.old writer.new refused (spec.row_of_unchanged_record (fields_of fields.now))) }
{
    write_record(writer, fields)?;
    Ok(false)
}

// Writes a record with this cell at `place`, which the record has.
fn write_cell(
    writer: &mut Writer<Vec<u8>>,
    changed: &mut ByteRecord,
    fields: &ByteRecord,
    place: usize,
    cell: &Cell,
) -> Result<bool, AllocError>
    requires idle { IsIdleRecordWriter writer.old }
    requires place { place < length (fields_of fields.now) }
    ensures idle { OnOk result (IsIdleRecordWriter writer.new) }
    ensures row { IfOk result (λ refused.
        IsRowWritten writer.old writer.new refused (spec.cell_row (fields_of fields.now) place cell.now)) }
{
    change(changed, fields, place, cell.text.as_bytes())?;
    write_record(writer, changed)?;
    Ok(cell.refused)
}

// Sets `changed` to these fields, with another field at `place`, which they have.
fn change(
    changed: &mut ByteRecord,
    fields: &ByteRecord,
    place: usize,
    field: &[u8],
) -> Result<(), AllocError>
    requires { place < length (fields_of fields.now) }
    ensures { OnOk result (fields_of changed.new ≡ slice_set (fields_of fields.now) place field.now) }
{
    changed.clear();
    for i in 0..fields.len() {
        changed.push_field(changed_field(fields, place, field, i))?;
    }
    Ok(())
}

// Returns the i-th field of the record with another field at `place`.
fn changed_field<'a>(fields: &'a ByteRecord, place: usize, field: &'a [u8], i: usize) -> &'a [u8]
    requires { i < length (fields_of fields.now) }
    ensures { result.now ≡ get_or (slice_set (fields_of fields.now) place field.now) i [] }
{
    if i == place {
        return field;
    }
    match fields.get(i) {
        Some(kept) => kept,
        None => field,
    }
}
