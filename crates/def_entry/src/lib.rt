//! Definition lines: the key and the entry of each, and the texts of keys.
#![tactic(auto)]

mod concatenation;
mod cuts;
mod definition_copies;
mod entry;
mod entry_reader;
mod expression;
mod fault;
mod fault_text;
mod form;
mod function;
mod interval;
mod key;
mod key_texts;
mod keys;
mod laws;
mod line_head;
mod list;
mod number;
mod options;
mod point_list;
mod what;

pub use cuts::cut_at;
pub use entry::{Bound, Entry, FunctionDef, Span, TableDef, What};
pub use entry_reader::read_entry;
pub use fault::EntryFault;
pub use fault_text::{entry_fault_text, parse_fault_text};
pub use key::{Key, Kind};
pub use key_texts::{KeyFault, key_text, put_key, read_key};
pub use keys::Keys;
pub use laws::{
    any_order_law, entry_law, entry_memory_law, entry_text_law, examples_law, heading_law,
    key_order_law, key_text_law, one_entry_law, one_key_law, options_law, points_law,
    same_keys_law, same_text_law,
};
