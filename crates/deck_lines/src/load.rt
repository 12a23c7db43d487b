//! Loading the deck of a file and of the files that it includes.
mod blocks;
mod file;
mod names;

pub use file::load_text;
pub use names::name_beside;
