//! Lists from which an item is removed without moving the others.
#![tactic(auto)]

mod filling;
mod gaps;
mod laws;
mod list;
mod merges;
mod moves;
mod searches;
mod slots;

pub use gaps::Gaps;
pub use laws::{gap_examples_law, gap_law};
pub use list::GapList;
