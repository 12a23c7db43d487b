//! Rows in the making.

use crate::memory::Memory;
use csv::{ByteRecord, Writer};

/// The rows made so far, and the values remembered for the next rows.
#[derive(Drop)]
pub(crate) struct Draft {
    pub(crate) writer: Writer<Vec<u8>>,
    // the record that was changed last; its memory is reused
    pub(crate) changed: ByteRecord,
    pub(crate) memory: Memory,
}
