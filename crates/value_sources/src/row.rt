//! The rows of the tree below an expression.

use crate::mention::StoredMention;

/// A word that evaluation encounters, with one of the keys that it leads to. A word that is a prefix and a unit has two
/// rows, one after the other.
#[derive(Drop)]
pub struct Row {
    /// The word and its key.
    pub mention: StoredMention,
    /// Whether this is the first mention of the key. If so, the rows of the words of its entry follow, one level
    /// deeper.
    pub is_visit: bool,
}
