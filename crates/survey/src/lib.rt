//! Reports on all definitions.
#![tactic(auto)]

mod check_blocks;
mod check_result;
mod conformable_units;
mod finding_lines;
mod key_checks;
mod key_expressions;
mod keys;
mod laws;
mod name_search;
mod prefix_faults;
mod rows;
mod table_queries;
mod units_reply;

pub use check_blocks::put_check_block;
pub use conformable_units::conformable_report;
pub use key_checks::{KeyCheck, check_places, check_report};
pub use laws::{examples_law, prefix_law};
pub use name_search::search_report;
pub use units_reply::conformable_reply;
