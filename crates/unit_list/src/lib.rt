//! Splitting a quantity into counts of units.
#![tactic(auto)]

mod counts;
mod fault;
mod laws;
mod part;
mod sign;
mod unit_counts;
mod unit_rounding;
mod units;

pub use counts::{Fracs, Split};
pub use fault::SplitFault;
pub use laws::{split_law, unique_law};
pub use unit_counts::split;
