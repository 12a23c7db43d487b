//! Expressions: their tokens, their grammar, their trees, and a parser that is proved to follow the grammar.
#![tactic(auto)]

mod ahead;
mod descent;
mod fault;
mod laws;
mod lexeme;
mod name;
mod operator;
mod parse;
mod power_digit;
mod rules;
mod scan;
mod token;
mod token_state;
mod tree;
mod tree_building;
mod tree_copies;
mod word_collection;
mod word_list;

pub use fault::ParseFault;
pub use laws::{
    complete_law, examples_law, formed_law, free_law, one_tree_law, parse_memory_law, parsed_law,
    reading_law, text_examples_law, view_law,
};
pub use name::{is_name, is_refused};
pub use operator::{RootKind, Scale, Sign};
pub use parse::parse_expr;
pub use tree::{Factors, Quotient, Terms, Tree, Trees};
pub use word_collection::{put_words, words};
pub use word_list::{WordKind, WordUse, Words};
