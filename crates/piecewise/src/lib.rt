//! Tables of points, read in both directions by linear interpolation between neighbours.
#![tactic(auto)]

mod examples;
mod fault;
mod line;
mod points;

pub use examples::table_examples;
pub use fault::{PointsFault, TableFault};
pub use points::Points;
