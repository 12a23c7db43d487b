//! The lines of a definition file: its logical lines and the kind of each.
#![tactic(auto)]

mod blanks;
mod cursor;
mod directive;
mod examples;
mod kind;
mod line;
mod line_list;
mod part;
mod physical;
mod words;

pub use blanks::{trim, trim_front};
pub use cursor::{Cursor, split_lines};
pub use examples::examples_law;
pub use kind::{LineKind, classify};
pub use line::{LentLine, Line};
pub use line_list::Lines;
pub use physical::{clean, line_content};
pub use words::{cut_word, listed, split_word};
