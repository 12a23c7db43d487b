//! Computes replies to conversions and definitions, and the texts of faults, as bytes.
#![tactic(auto)]

mod comparison;
mod conversion;
mod failure;
mod fault;
mod fault_parts;
mod fault_writer;
mod form;
mod laws;
mod lines;
mod name_faults;
mod options;
mod parts;
mod question;
mod ratio;
mod reply;
mod split_lines;
mod target;
mod text_evaluation;
mod text_writer;
mod value_faults;

pub use fault::ReplyFault;
pub use fault_writer::fault_text;
pub use laws::{denominator_law, examples_law, grant_examples_law, grant_law, quotient_law};
pub use name_faults::put_name_fault;
pub use options::Options;
pub use question::Question;
pub use reply::{FromValue, Reply, comparison_reply, convert_reply, definition_reply, from_value};
pub use target::has_semicolon;
pub use text_evaluation::evaluate_texts;
pub use value_faults::put_value_fault;
