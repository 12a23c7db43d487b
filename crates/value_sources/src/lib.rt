//! The sources of a value: each name that an expression reaches, in the order of evaluation, and the step that fails;
//! the readings of a word that a definition hides; the file of each line of a deck.
#![tactic(auto)]

mod call_list;
mod entry_mentions;
mod failing;
mod failure;
mod joining;
mod key_tree;
mod laws;
mod line_files;
mod lookup;
mod mention;
mod mentions;
mod querying;
mod readings;
mod resolution;
mod row;
mod site;
mod walk;
mod word_keys;

pub use call_list::calls;
pub use failing::failed_step;
pub use failure::FailedStep;
pub use key_tree::value_tree;
pub use laws::{examples_law, failed_step_law, rows_law, step_examples_law, uses_law, value_law};
pub use line_files::{LineFiles, LineFilesFault, file_lines_law, find_line_files};
pub use mention::StoredMention;
pub use readings::{Reading, first_reading_law, reading_examples_law, word_readings};
pub use resolution::Resolution;
pub use row::Row;
pub use site::Site;
pub use walk::{Walk, rows};
