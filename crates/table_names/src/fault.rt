//! Name faults.

use def_entry::{Key, Keys};
use units_io::Text;

/// The reason why the names of an expression lead to no value. The key is the one whose entry includes the word, or
/// `None` if the word is in the expression itself.
pub enum NameFault {
    /// A word has no target.
    Unknown(Text, Option<Key>),
    /// A word is a refused name.
    Refused(Text, Option<Key>),
    /// A name leads back to itself. The keys are those from its first place on the path to its second.
    Cycle(Keys),
}

// Written by hand, so that code that drops a fault need not prove anything about each kind of fault.
impl Drop for NameFault {
    fn drop(self) {
        match self {
            NameFault::Unknown(_, _) | NameFault::Refused(_, _) | NameFault::Cycle(_) => (),
        }
    }
}
