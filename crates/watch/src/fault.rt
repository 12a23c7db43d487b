//! The reasons why a conversion is not watched.

use std::alloc::{AllocError, AllocFailed};
use thiserror::Error;

/// Why a conversion is not watched. After each error the watches are as before.
#[derive(Clone, Copy, Debug, PartialEq, Eq, Error)]
pub enum WatchFault {
    /// The largest possible number of conversions is already watched.
    #[error("too many watches")]
    TooMany,
    /// Memory ran out.
    #[error("out of memory")]
    OutOfMemory,
}

impl From<AllocError> for WatchFault {
    ghost use Rattle.std.specs.Prelude.{◌≡◌};
    ghost use Rattle.watch.specs.declared.fault.WatchFault.TheVariants.{OutOfMemory};

    ghost from_gives = { λ _ fault. fault ≡ OutOfMemory };

    fn from(_: AllocError) -> Self {
        WatchFault::OutOfMemory
    }
}

impl<T: Drop> From<AllocFailed<T>> for WatchFault {
    ghost use Rattle.std.specs.Prelude.{◌≡◌};
    ghost use Rattle.watch.specs.declared.fault.WatchFault.TheVariants.{OutOfMemory};

    ghost from_gives = { λ _ fault. fault ≡ OutOfMemory };

    fn from(_: AllocFailed<T>) -> Self {
        WatchFault::OutOfMemory
    }
}
