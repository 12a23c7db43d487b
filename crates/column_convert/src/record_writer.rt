//! Writing records.

ghost use Rattle.std.specs.Prelude.{◌≡◌, [], IfOk, OnOk, Some};
ghost use Rattle.csv.specs.Records.{fields_of};
ghost use Rattle.csv.specs.Writing.{default_writer, row_text};
ghost use Rattle.column_convert.specs.RecordWriter.{IsIdleRecordWriter, RecordWriterAppends, record_writer_text};

use csv::{ByteRecord, Writer, WriterBuilder};
use std::alloc::{AllocError, Global};
use units_io::Text;

/// Returns a writer for records of any length, which holds what it writes.
pub(crate) fn new_writer(alloc: Global) -> Writer<Vec<u8>>
    ensures idle { IsIdleRecordWriter result }
    ensures empty { record_writer_text result ≡ Some [] }
{
    WriterBuilder::new()
        .flexible(true)
        .from_writer(Vec::new(alloc))
}

/// Writes a record. The only error is running out of memory, after which the writer can no longer be used.
pub(crate) fn write_record(
    writer: &mut Writer<Vec<u8>>,
    fields: &ByteRecord,
) -> Result<(), AllocError>
    requires { IsIdleRecordWriter writer.old }
    ensures idle { OnOk result (IsIdleRecordWriter writer.new) }
    ensures text { OnOk result
        (RecordWriterAppends writer.old writer.new (row_text default_writer (fields_of fields.now))) }
{
    if writer.write_byte_record(fields).is_err() {
        return Err(AllocError);
    }
    Ok(())
}

/// Returns everything that was written. The only error is running out of memory.
pub(crate) fn finish_writer(writer: Writer<Vec<u8>>) -> Result<Text, AllocError>
    ensures { IfOk result (λ text. record_writer_text writer ≡ Some text) }
{
    match writer.into_inner() {
        Ok(text) => Ok(Text::from(text)),
        Err(_) => Err(AllocError),
    }
}
