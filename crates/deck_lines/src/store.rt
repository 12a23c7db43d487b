//! The store of the lines of a deck.

mod definitions;
mod edited_lines;
mod exchange;
mod exchangeable;
mod key_numbers;
mod line_list;
mod line_replacement;
mod line_store;
mod lists;
mod name_set;
mod new_key_numbers;
mod origins;
mod reads;

pub use definitions::PutDefinitions;
pub use edited_lines::EditedLines;
pub use exchangeable::can_exchange;
pub use line_list::{MOST_BYTES, MOST_LINES};
pub use line_store::LineStore;
pub use new_key_numbers::Renumbering;
