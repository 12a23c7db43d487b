//! How words are resolved.

/// How a word leads to the key of its row. The kind of the key says whether the key is a unit, a prefix or a function,
/// and the kind of the word says whether a function is called forward or by its inverse.
#[derive(Clone, Copy, Debug, PartialEq, Eq, Drop)]
pub enum Resolution {
    /// The word is unknown and leads to no key.
    Unknown,
    /// The word is the name of the key.
    Name,
    /// The word is a plural of the name of the key.
    Plural,
    /// The word, or its singular, is a prefix and a unit, and the key is the prefix. The row of the unit is the next
    /// one at the same depth.
    Prefix,
    /// The word, or its singular, is a prefix and a unit, and the key is the unit.
    PrefixedUnit,
}
