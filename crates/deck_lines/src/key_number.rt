//! Numbers of keys.

use def_entry::Kind;

/// The number of a key: the number of keys of its kind that were numbered before it.
#[derive(Clone, Copy, Debug, PartialEq, Eq, Drop)]
pub struct KeyNumber {
    pub kind: Kind,
    pub number: usize,
}
