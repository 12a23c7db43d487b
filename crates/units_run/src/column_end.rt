//! How a run over column input ended.

use std::alloc::{AllocError, AllocFailed};

/// How a run over column input ended.
#[derive(Clone, Copy, Debug, PartialEq, Eq)]
pub enum ColumnEnd {
    /// All rows were written.
    Done,
    /// All rows were written, and a cell is an error.
    Refused,
    /// The source failed, and has counted that. Nothing was written.
    ReadFault,
    /// The sink failed, and has counted that.
    WriteFault,
    /// Memory ran out.
    NoMemory,
    /// More than 16,777,216 bytes of input were read. Nothing was written.
    InputTooLong,
}

impl From<AllocError> for ColumnEnd {
    ghost use Rattle.std.specs.Prelude.{◌≡◌};
    ghost use Rattle.units_run.specs.declared.column_end.ColumnEnd.TheVariants.{NoMemory};

    ghost from_gives = { λ _ end. end ≡ NoMemory };

    fn from(_: AllocError) -> Self {
        ColumnEnd::NoMemory
    }
}

impl<T: Drop> From<AllocFailed<T>> for ColumnEnd {
    ghost use Rattle.std.specs.Prelude.{◌≡◌};
    ghost use Rattle.units_run.specs.declared.column_end.ColumnEnd.TheVariants.{NoMemory};

    ghost from_gives = { λ _ end. end ≡ NoMemory };

    fn from(_: AllocFailed<T>) -> Self {
        ColumnEnd::NoMemory
    }
}
