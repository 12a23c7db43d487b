//! The result of a lookup.

ghost use Rattle.std.specs.Prelude.{◌≡◌};
ghost use Rattle.name_lookup.specs.Targets as spec;

/// The keys that a word refers to, given as the last of the keys that were looked at.
#[derive(Clone, Copy, Debug, PartialEq, Eq, Drop)]
pub enum Targets {
    /// No key: the word is unknown.
    Nowhere,
    /// The last key.
    Last,
    /// The last two keys: a prefix and a unit.
    LastTwo,
}

impl Targets {
    /// Returns the number of keys: 0, 1 or 2.
    pub fn count(self) -> usize
        ensures { result ≡ spec.lookup_target_count self }
    {
        match self {
            Targets::Nowhere => 0,
            Targets::Last => 1,
            Targets::LastTwo => 2,
        }
    }

    // Reports whether there is at least one key.
    pub(crate) fn are_some(self) -> bool
        ensures { result ≡ spec.are_some self }
    {
        match self {
            Targets::Nowhere => false,
            Targets::Last | Targets::LastTwo => true,
        }
    }
}
