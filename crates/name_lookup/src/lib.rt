//! Lookup of words: the keys that a word refers to, and the keys that are looked at to find them.
#![tactic(auto)]

mod key_order;
mod key_search;
mod laws;
mod lookup_record;
mod present;
mod resolution;
mod stems;
mod targets;

pub use key_order::find_targets;
pub use laws::{candidates_law, examples_law, same_answers, targets_are_present};
pub use lookup_record::Looking;
pub use present::Present;
pub use resolution::{Found, resolve};
pub use targets::Targets;
