//! Keys of definitions.

ghost use Rattle.std.specs.Prelude.{◌≡◌};

use units_io::Text;

/// The kind of thing that a key names.
#[derive(Clone, Copy, Debug, PartialEq, Eq, Drop)]
pub enum Kind {
    /// A unit.
    Unit,
    /// A prefix.
    Prefix,
    /// A function or a table of points.
    Func,
    /// A list of units.
    List,
}

/// The name and the kind of a definition.
pub struct Key {
    /// The kind of thing that the key names.
    pub kind: Kind,
    /// The name. That of a prefix has no `-`.
    pub name: Text,
}

// Written by hand, so that code that drops a key need not prove anything about its contents.
impl Drop for Key {
    fn drop(self) {
        let Key { kind: _, name: _ } = self;
    }
}

impl Key {
    /// Converts the key into its name without copying.
    pub fn into_name(self) -> Text
        ensures { result ≡ self.name }
    {
        let Key { kind: _, name } = self;
        name
    }
}
