//! One column of a text of records, converted row by row.
#![tactic(auto)]

mod block;
mod cached_values;
mod cell;
mod column_row;
mod columns;
mod draft;
mod laws;
mod memory;
mod plain;
mod record_writer;
mod records;
mod row;
mod signed_number;

pub use block::Block;
pub use column_row::ColumnRow;
pub use columns::Columns;
pub use laws::{
    again_law, blocks_law, cell_value_law, examples_law, product_law, rows_law, valued_law,
};
