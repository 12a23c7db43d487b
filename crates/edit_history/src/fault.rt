//! The reasons why nothing is undone or redone.

use std::alloc::{AllocError, AllocFailed};
use thiserror::Error;

/// Why nothing was undone or redone. After each error the table and the history are as before.
#[derive(Clone, Copy, Debug, PartialEq, Eq, Error)]
pub enum HistoryFault {
    /// There is no edit left to undo.
    #[error("nothing to undo")]
    NothingToUndo,
    /// No edit was undone since the last edit.
    #[error("nothing to redo")]
    NothingToRedo,
    /// Memory ran out.
    #[error("out of memory")]
    OutOfMemory,
}

impl From<AllocError> for HistoryFault {
    ghost use Rattle.std.specs.Prelude.{◌≡◌};
    ghost use Rattle.edit_history.specs.declared.fault.HistoryFault.TheVariants.{OutOfMemory};

    ghost from_gives = { λ _ fault. fault ≡ OutOfMemory };

    fn from(_: AllocError) -> Self {
        HistoryFault::OutOfMemory
    }
}
