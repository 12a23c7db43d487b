//! A session: its commands, the answers to its lines, and the lines of its input.
#![tactic(auto)]

mod answer;
mod colon_word;
mod command;
mod deck_edits;
mod edit_reports;
mod fault;
mod laws;
mod lines;
mod listener;
mod over_source;
mod partial_line;
mod session;
mod session_output;
mod session_queries;
mod session_watches;
mod table_counts;
mod talk;
mod text_decks;
mod trial;
mod trial_lines;
mod workspace;

pub use answer::LineReply;
pub use command::{Command, DeckEdit, read_command};
pub use fault::SessionFault;
pub use laws::{
    answer_examples, command_examples, history_laws, leaves_law, line_laws, save_law,
    trial_examples,
};
pub use lines::notice_lines;
pub use listener::Listener;
pub use over_source::SessionEnd;
pub use session::Session;
pub use session_output::OutputBuffers;
pub use text_decks::text_deck;
pub use trial::run_trial;
