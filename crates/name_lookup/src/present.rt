//! Tables that know which keys are present.

ghost use Rattle.std.specs.Option.{is_some};
ghost use Rattle.std.specs.Prelude.{◌≡◌, ℕ, List, Option};
ghost use Rattle.def_entry.specs.Keys.{key};
ghost use Rattle.def_entry.specs.declared.key.Key.{Key};
ghost use Rattle.def_entry.specs.SameKeys.{is_entry_key_among};

use def_entry::Kind;

/// A table of keys.
pub trait Present {
    // the keys that are present
    ghost keys: { Self → List Key };

    // the place of each key in the table's own numbering, or `None` if it is not present
    ghost place: { Self → Key → Option ℕ };

    /// Returns the place of the key with this kind and name, in the table's own numbering, or `None` if the key is not
    /// present.
    fn find(&self, kind: Kind, name: &[u8]) -> Option<usize>
        ensures present { is_some result ≡ is_entry_key_among (keys self.now) (key kind name.now) }
        ensures place { result ≡ place self.now (key kind name.now) };

    /// Reports whether the key with this kind and name is present.
    fn has(&self, kind: Kind, name: &[u8]) -> bool
        ensures { result ≡ is_entry_key_among (keys self.now) (key kind name.now) }
    {
        self.find(kind, name).is_some()
    }
}
