//! A live table together with the history of its edits, a struct with such a table that a C caller can hold between
//! calls, and the answers to these calls.
#![tactic(auto)]

mod answer;
mod column_answer;
mod conversion_answer;
mod edit_answer;
mod edited_table;
mod fault_status;
mod handle;
mod laws;
mod parts;
mod search_answer;
mod status;
mod table_loads;
mod turn_answer;
mod value_answer;

pub use answer::Answer;
pub use column_answer::{Column, answer_column};
pub use conversion_answer::answer_conversion;
pub use edit_answer::{answer_define, answer_drop};
pub use edited_table::EditedTable;
pub use handle::Handle;
pub use laws::statuses_law;
pub use search_answer::answer_search;
pub use status::Status;
pub use table_loads::{load_status, load_table};
pub use turn_answer::{answer_redo, answer_undo};
pub use value_answer::answer_value;
