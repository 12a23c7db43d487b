//! The name fault of a query.

/// The first fault that a walk of a query finds.
#[derive(Drop)]
pub enum Fault {
    /// A word that leads nowhere, and the name whose words include it, or `None` if the word is in the query itself.
    DeadEnd(usize, Option<usize>),
    /// A name that leads back to itself: the names from its first place on the path down, followed by the name again.
    Cycle(Vec<usize>),
}
