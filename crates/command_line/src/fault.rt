//! The faults of reading words.

use std::alloc::{AllocError, AllocFailed};

/// The reason why words cannot be read as the command line of a program.
#[derive(Clone, Copy, Debug)]
pub enum WordsFault {
    /// The words are not a command line of the program.
    Usage,
    /// The memory ran out while the words were read.
    OutOfMemory,
}

impl From<AllocError> for WordsFault {
    ghost use Rattle.std.specs.Prelude.{◌≡◌};
    ghost use Rattle.command_line.specs.declared.fault.WordsFault.TheVariants.{OutOfMemory};

    ghost from_gives = { λ _ fault. fault ≡ OutOfMemory };

    fn from(_error: AllocError) -> WordsFault {
        WordsFault::OutOfMemory
    }
}

impl<T: Drop> From<AllocFailed<T>> for WordsFault {
    ghost use Rattle.std.specs.Prelude.{◌≡◌};
    ghost use Rattle.command_line.specs.declared.fault.WordsFault.TheVariants.{OutOfMemory};

    ghost from_gives = { λ _ fault. fault ≡ OutOfMemory };

    fn from(_failed: AllocFailed<T>) -> WordsFault {
        WordsFault::OutOfMemory
    }
}
