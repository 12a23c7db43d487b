//! The names of a table of definitions: the keys that they lead to, their faults and meanings, and the names that an
//! edit affects; and how the results of a walk over numbered names translate to names. This crate has definitions and
//! laws, but no functions to call.
#![tactic(auto)]

mod fault;
mod laws;
mod number_laws;

pub use fault::NameFault;
pub use laws::{
    affected_law, closed_law, closed_meaning_law, examples_law, fault_law, function_examples_law,
    kind_law, lookup_law, meets_law, path_law, reach_law, stands_for_law, unaffected_law,
};
pub use number_laws::{
    affected_numbers_law, few_targets_law, numbered_fault_law, rank_law, settling_law,
};
