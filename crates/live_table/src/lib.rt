//! A deck with the outcome of each name that was queried.
#![tactic(auto)]

mod callee;
mod counts;
mod dead_end;
mod deck_table;
mod edge_creation;
mod entry_words;
mod evaluation;
mod exploration;
mod explored_names;
mod fault;
mod fault_names;
mod fault_search;
mod invalidation;
mod key_index;
mod late_edges;
mod laws;
mod live_table;
mod name_queries;
mod nodes;
mod numbered_keys;
mod query_words;
mod scratch;
mod settlement;
mod stop;
mod stored_keys;
mod stored_outcomes;
mod surroundings;
mod tried_keys;
mod tried_numbers;
mod word_steps;
mod word_targets;
mod worklist;

pub use counts::Counts;
pub use deck_table::DeckTable;
pub use fault::QueryFault;
pub use laws::{
    cached_names_law, caching_calls_law, call_list_law, count_law, deck_kinds_law,
    edits_can_be_law, event_examples, kept_law, kept_list_law, new_law, order_law, right_law,
    run_law, steps_law,
};
pub use live_table::LiveTable;
pub use table_names::NameFault;
pub use tried_keys::TriedKeys;
