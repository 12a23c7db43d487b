//! A run of the program: the definitions that its words name, and the reply, the column, the check, the trial or the
//! session over them. Column input is read in full before its rows are written block by block.
#![tactic(auto)]

mod check_plan;
mod checks;
mod column_end;
mod column_input;
mod column_plan;
mod column_rows;
mod column_run;
mod column_task;
mod columns;
mod command_reply;
mod definitions;
mod halt;
mod laws;
mod no_deck;
mod options;
mod plan;
mod run;
mod status;
mod words_plan;
mod work;

pub use laws::{ending_law, file_examples, need_laws, run_examples, status_law};
pub use run::units_main;
pub use status::Status;
