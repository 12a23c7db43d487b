//! Saving the definitions of a deck as the text of a file.
#![tactic(auto)]

mod deck_text;
mod fault;
mod laws;

pub use deck_text::save_text;
pub use fault::SaveFault;
pub use laws::{
    accepted_lines_stay, examples_law, saved_decks_are_given_back, saved_texts_are_kept,
};
