//! The errors of finding the files of lines.

use std::alloc::{AllocError, AllocFailed};

/// The reason why the files of lines cannot be found.
#[derive(Clone, Copy, Debug, PartialEq, Eq)]
pub enum LineFilesFault {
    /// The files no longer have the lines of the deck, or a file could not be read.
    Changed,
    /// An allocation failed.
    OutOfMemory,
}

impl From<AllocError> for LineFilesFault {
    ghost use Rattle.std.specs.Prelude.{◌≡◌};
    ghost use Rattle.value_sources.specs.declared.line_files.fault.LineFilesFault.TheVariants.{OutOfMemory};

    ghost from_gives = { λ _ fault. fault ≡ OutOfMemory };

    fn from(_: AllocError) -> Self {
        LineFilesFault::OutOfMemory
    }
}

impl<T: Drop> From<AllocFailed<T>> for LineFilesFault {
    ghost use Rattle.std.specs.Prelude.{◌≡◌};
    ghost use Rattle.value_sources.specs.declared.line_files.fault.LineFilesFault.TheVariants.{OutOfMemory};

    ghost from_gives = { λ _ fault. fault ≡ OutOfMemory };

    fn from(_: AllocFailed<T>) -> Self {
        LineFilesFault::OutOfMemory
    }
}
