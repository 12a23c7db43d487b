//! Decks, that is, whole definition files: their lines, which of these are active, and edits.
#![tactic(auto)]

mod built_in;
mod deck;
mod fault;
mod force;
mod laws;
mod no_files;
mod places;
mod settings;
mod splice;
mod substring_search;

pub use built_in::built_in_text;
pub use deck::{BorrowedKey, Deck};
pub use fault::DeckFault;
pub use laws::{
    appends_keep_lines, block_examples_law, built_in_is_pinned, changes_are_computed,
    enclosing_law, examples_law, key_lists_are_one, known_files_determine_appends,
    settings_are_undone, splices_are_undone, table_keys_law, tables_are_of_lines,
    transcripts_determine_loads,
};
pub use no_files::NoFiles;
pub use settings::Settings;
pub use splice::Splice;
