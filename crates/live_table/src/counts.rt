//! Counts of a live table.

/// The counts of a live table.
#[derive(Clone, Copy, Debug, PartialEq, Eq, Drop)]
pub struct Counts {
    /// The number of settled names.
    pub settled: u64,
    /// The number of units, prefixes and functions that have an entry.
    pub names: u64,
    /// The number of names newly settled since the table was created, at most 2^64 - 1.
    pub reductions: u64,
}
