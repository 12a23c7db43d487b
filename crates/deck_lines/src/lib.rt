//! The lines of a deck: the lines of a definition file and of the files that it includes, each with its mark and its
//! definition, and the notices.
#![tactic(auto)]

mod draft;
mod key_number;
mod laws;
mod line;
mod line_meaning;
mod load;
mod store;

pub use draft::{Draft, LoadFault, Notices};
pub use key_number::KeyNumber;
pub use laws::{
    decks_are_closed, examples_law, failed_fetches_end_loads, known_files_determine_loads,
    loads_keep_lines, logged_fetches_law, transcript_examples_law,
};
pub use line::{Block, BorrowedLine, DeckLine, DeckLines, Ending, Role};
pub use line_meaning::{Reading, read_line};
pub use load::{load_text, name_beside};
pub use store::{
    EditedLines, LineStore, MOST_BYTES, MOST_LINES, PutDefinitions, Renumbering, can_exchange,
};
