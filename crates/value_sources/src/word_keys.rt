//! The keys that a word leads to.

use def_entry::Key;

/// The keys that a word leads to.
#[derive(Drop)]
pub(crate) enum Destination {
    /// The word leads to no key.
    Nowhere,
    /// The word leads to a single key.
    One(Key),
    /// The word leads to a prefix and a unit.
    Two(Key, Key),
}
