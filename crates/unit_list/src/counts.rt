//! The result of a split.

use frac128::Frac;
use units_io::List;

/// An ordered list of fractions.
pub type Fracs = List<Frac>;

/// The counts of some units in a quantity.
#[derive(Drop)]
pub struct Split {
    /// One count for each unit, in order.
    pub counts: Fracs,
}
