//! The words of the command line of `units` and of `units-why`, each read by clap with the command of its program.
#![tactic(auto)]

mod definition;
mod examples;
mod fault;
mod fields;
mod parse;
mod usage;
mod why_command;
mod why_request;
mod why_request_reader;
mod word_reader;

pub use examples::{refused_examples, single_option_examples, taken_examples};
pub use fault::WordsFault;
pub use fields::CommandLine;
pub use usage::usage_text;
pub use why_request::{Findings, Inquiry, Overlay, WhyCommandLine, WhyRequest};
pub use why_request_reader::{read_why_words, why_usage_text};
pub use word_reader::read_words;
