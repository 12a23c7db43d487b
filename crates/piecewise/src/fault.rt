//! The faults of making and reading tables.

use frac128::FracFault;
use std::alloc::AllocError;

/// The reason why points do not form a table.
#[derive(Clone, Copy)]
pub enum PointsFault {
    /// There are fewer than 2 points or more than 1,000, or their x are not strictly increasing.
    BadPoints,
    /// Out of memory.
    OutOfMemory,
}

impl From<AllocError> for PointsFault {
    ghost use Rattle.std.specs.Prelude.{◌≡◌};
    ghost use Rattle.piecewise.specs.declared.fault.PointsFault.TheVariants.{OutOfMemory};

    ghost from_gives = { λ _ fault. fault ≡ OutOfMemory };

    fn from(_: AllocError) -> PointsFault {
        PointsFault::OutOfMemory
    }
}

/// The reason why a table has no result.
#[derive(Clone, Copy)]
pub enum TableFault {
    /// No segment contains the number.
    OutsideTable,
    /// An operation on fractions failed with this fault.
    Number(FracFault),
}
