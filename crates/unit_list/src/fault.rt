//! The faults of a split.

use frac128::FracFault;
use std::alloc::AllocError;

/// The reason why a quantity cannot be split. Indices of units count from 0.
#[derive(Clone, Copy)]
pub enum SplitFault {
    /// The unit at this index has exponents that differ from those of the quantity, and no unit before it has.
    NotConformable(usize),
    /// The number of the unit at this index is not above 0, but that of each unit before it is.
    ListUnitNotPositive(usize),
    /// An operation on fractions failed with this fault.
    Number(FracFault),
    /// Out of memory.
    OutOfMemory,
}

impl From<FracFault> for SplitFault {
    ghost use Rattle.std.specs.Prelude.{◌≡◌};
    ghost use Rattle.unit_list.specs.declared.fault.SplitFault.TheVariants.{Number};

    ghost from_gives = { λ number fault. fault ≡ Number number };

    fn from(fault: FracFault) -> SplitFault {
        SplitFault::Number(fault)
    }
}

impl From<AllocError> for SplitFault {
    ghost use Rattle.std.specs.Prelude.{◌≡◌};
    ghost use Rattle.unit_list.specs.declared.fault.SplitFault.TheVariants.{OutOfMemory};

    ghost from_gives = { λ _ fault. fault ≡ OutOfMemory };

    fn from(_: AllocError) -> SplitFault {
        SplitFault::OutOfMemory
    }
}
