//! The faults of lines without an entry.

use expr_tree::ParseFault;
use std::alloc::{AllocError, AllocFailed};
use units_io::Text;

/// The reason why a line has no entry.
#[derive(Drop)]
pub enum EntryFault {
    /// This name, parameter or alias target is not a valid name.
    BadName(Text),
    /// The line does not have the form of a definition.
    BadForm,
    /// The points do not form a table.
    BadTable,
    /// An expression has this fault, which is not an out-of-memory fault.
    Parse(ParseFault),
    /// Out of memory.
    OutOfMemory,
}

impl From<AllocError> for EntryFault {
    ghost use Rattle.std.specs.Prelude.{◌≡◌};
    ghost use Rattle.def_entry.specs.declared.fault.EntryFault.TheVariants.{OutOfMemory};

    ghost from_gives = { λ _ fault. fault ≡ OutOfMemory };

    fn from(_: AllocError) -> Self {
        EntryFault::OutOfMemory
    }
}

impl<T: Drop> From<AllocFailed<T>> for EntryFault {
    ghost use Rattle.std.specs.Prelude.{◌≡◌};
    ghost use Rattle.def_entry.specs.declared.fault.EntryFault.TheVariants.{OutOfMemory};

    ghost from_gives = { λ _ fault. fault ≡ OutOfMemory };

    fn from(_: AllocFailed<T>) -> Self {
        EntryFault::OutOfMemory
    }
}
