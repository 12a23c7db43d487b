//! The reasons why a run ends early.
ghost use Rattle.std.specs.Prelude.{◌≡◌};
ghost use Rattle.units_run.specs.declared.halt.Halt.TheVariants.{NoMemory};

use std::alloc::AllocError;

/// Why a run ends before it writes anything.
#[derive(Clone, Copy, Debug, PartialEq, Eq)]
pub(crate) enum Halt {
    /// A file could not be read; the files have counted that.
    ReadFault,
    /// Memory ran out.
    NoMemory,
}

impl From<AllocError> for Halt {
    ghost from_gives = { λ _ e. e ≡ NoMemory };

    fn from(_: AllocError) -> Self {
        Halt::NoMemory
    }
}
