//! The C library: unit tables in memory that are opened, queried, edited and closed.
//!
//! No call opens a file, ends the process or stores anything outside the caller's table.
#![tactic(auto)]

mod column;
mod conversions;
mod definitions;
mod delivery;
mod expression_values;
mod number;
mod options;
mod searches;
mod table_edits;
mod table_opening;
mod unit_table;

pub use column::{UnitsColumn, units_convert_column};
pub use conversions::units_convert;
pub use definitions::{UnitsDefinitions, UnitsEntry};
pub use expression_values::units_value;
pub use number::UnitsNumber;
pub use options::UnitsOptions;
pub use searches::units_search;
pub use table_edits::{units_define, units_drop, units_redo, units_undo};
pub use table_opening::{units_close, units_open};
pub use unit_table::UnitsTable;
