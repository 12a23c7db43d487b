//! The faults of operations on quantities.

use crate::quantity::Quantity;
use frac128::FracFault;
use std::alloc::{AllocError, AllocFailed};

/// The reason why an operation on quantities has no result.
#[derive(Drop)]
pub enum QuantityFault {
    /// The operation on the numbers has no result.
    Number(FracFault),
    /// The operands of a sum or difference have different exponents. Both operands are included.
    NotConformable(Quantity, Quantity),
    /// The exponent of a power has exponents of its own.
    ExponentNotNumber,
    /// An exponent is out of range.
    ExponentRange,
    /// Out of memory.
    OutOfMemory,
}

impl From<FracFault> for QuantityFault {
    ghost use Rattle.std.specs.Prelude.{◌≡◌};
    ghost use Rattle.quantity.specs.declared.fault.QuantityFault.TheVariants.{Number};

    ghost from_gives = { λ number fault. fault ≡ Number number };

    fn from(fault: FracFault) -> QuantityFault {
        QuantityFault::Number(fault)
    }
}

impl From<ExponentFault> for QuantityFault {
    ghost use Rattle.std.specs.Prelude.{◌≡◌};
    ghost use Rattle.quantity.specs.Answers.{exponent_fault};

    ghost from_gives = { λ exponent fault. fault ≡ exponent_fault exponent };

    fn from(fault: ExponentFault) -> QuantityFault {
        match fault {
            ExponentFault::Range => QuantityFault::ExponentRange,
            ExponentFault::OutOfMemory => QuantityFault::OutOfMemory,
        }
    }
}

impl From<AllocError> for QuantityFault {
    ghost use Rattle.std.specs.Prelude.{◌≡◌};
    ghost use Rattle.quantity.specs.declared.fault.QuantityFault.TheVariants.{OutOfMemory};

    ghost from_gives = { λ _ fault. fault ≡ OutOfMemory };

    fn from(_error: AllocError) -> QuantityFault {
        QuantityFault::OutOfMemory
    }
}

/// The reason why an operation on exponents has no result. It is small, while the public fault holds two quantities.
#[derive(Clone, Copy)]
pub(crate) enum ExponentFault {
    Range,
    OutOfMemory,
}

impl From<AllocError> for ExponentFault {
    ghost use Rattle.std.specs.Prelude.{◌≡◌};
    ghost use Rattle.quantity.specs.declared.fault.ExponentFault.TheVariants.{OutOfMemory};

    ghost from_gives = { λ _ fault. fault ≡ OutOfMemory };

    fn from(_error: AllocError) -> ExponentFault {
        ExponentFault::OutOfMemory
    }
}

impl<T: Drop> From<AllocFailed<T>> for ExponentFault {
    ghost use Rattle.std.specs.Prelude.{◌≡◌};
    ghost use Rattle.quantity.specs.declared.fault.ExponentFault.TheVariants.{OutOfMemory};

    ghost from_gives = { λ _ fault. fault ≡ OutOfMemory };

    fn from(_failed: AllocFailed<T>) -> ExponentFault {
        ExponentFault::OutOfMemory
    }
}
