//! The records of a text, one after another.

ghost use Rattle.std.specs.Prelude.{◌≡◌, ◌∷◌, [], IfOk, MatchBool};
ghost use Rattle.csv.specs.Reading as reading;
ghost use Rattle.csv.specs.Records.{fields_of};

use csv::{ByteRecord, Reader, ReaderBuilder};
use std::alloc::{AllocError, Global};
use std::io::Cursor;
use std::marker::Model;

/// The records of a text that are left to read, which contracts see as a list.
#[derive(Drop)]
pub(crate) struct Records {
    reader: Reader<Cursor<Vec<u8>>>,
    is_done: bool,
}

impl Model for Records {
    ghost use Rattle.std.specs.Prelude.{◌≡◌, List, Some, [], false, if◌then◌else◌};
    ghost use Rattle.std.specs.Io.Cursor.{cursor_remaining};
    ghost use Rattle.column_convert.specs.Records.{IsPlainRecordReader, RecordFields, records_left};

    ghost Value = { List RecordFields };

    ghost view = { λ r. if r.is_done then [] else records_left (cursor_remaining (λ v. Some v.items)) r.reader };

    ghost invariant = { λ r. r.is_done ≡ false → IsPlainRecordReader (cursor_remaining (λ v. Some v.items)) r.reader };
}

impl Records {
    /// Returns all records of a text. Allocates no memory.
    pub(crate) fn new(alloc: Global, text: Vec<u8>) -> Records
        ensures { result ≡ reading.records reading.default_config (reading.strip_bom text.items) }
    {
        Records {
            reader: ReaderBuilder::new()
                .has_headers(false)
                .flexible(true)
                .from_reader(alloc, Cursor::new(text)),
            is_done: false,
        }
    }

    /// Reads the next record and returns whether there was one. The only error is running out of memory, after which no
    /// record is left.
    pub(crate) fn read(&mut self, fields: &mut ByteRecord) -> Result<bool, AllocError>
        ensures { IfOk result (λ found. MatchBool found
            (self.old ≡ fields_of fields.new ∷ self.new)
            ((self.old ≡ []) × (self.new ≡ []))) }
    {
        if self.is_done {
            return Ok(false);
        }
        let Ok(found) = self.reader.read_byte_record(fields) else {
            self.is_done = true;
            return Err(AllocError);
        };
        if found {
            return Ok(true);
        }
        self.is_done = true;
        Ok(false)
    }
}
