//! A column of an input to be converted.

use live_table::LiveTable;
use reply::Options;
use units_io::Text;

/// A column of an input to be converted from FROM to TO: the table, the options for replies, FROM and TO, the number of
/// the column, counted from 1, and whether the first record is a header.
pub struct ColumnTask {
    pub table: LiveTable,
    pub options: Options,
    pub from: Text,
    pub to: Text,
    pub column: u16,
    pub header: bool,
}

// Written by hand, so that code that drops a task need not prove anything about its contents.
impl Drop for ColumnTask {
    fn drop(self) {
        let ColumnTask {
            table: _,
            options: _,
            from: _,
            to: _,
            column: _,
            header: _,
        } = self;
    }
}
