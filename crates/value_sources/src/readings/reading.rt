//! A reading of a word.

use units_io::Text;

/// The meaning of a word that is not a name itself, or of the singular of such a word.
#[derive(Drop)]
pub enum Reading {
    /// The unit with this name, of which the word is a plural.
    Unit(Text),
    /// The prefix with this name, alone.
    Prefix(Text),
    /// The prefix and the unit with these names.
    PrefixedUnit(Text, Text),
}
