//! The errors of loads and edits of decks.

use deck_lines::LoadFault;
use def_entry::EntryFault;
use std::alloc::{AllocError, AllocFailed};
use units_io::FetchFault;

/// The reason why a deck is not loaded or an edit is refused. After an error the deck is unchanged.
#[derive(Drop)]
pub enum DeckFault {
    /// The line defines no key, for this reason.
    BadLine(EntryFault),
    /// No active line defines the key.
    NoSuchKey,
    /// The lines pass a limit.
    DeckFull,
    /// There is no file of this name.
    Absent,
    /// The file is longer than the limit.
    TooLong,
    /// A file could not be read. The files have counted this failure.
    ReadFailed,
    /// An allocation failed.
    OutOfMemory,
}

impl From<AllocError> for DeckFault {
    ghost use Rattle.std.specs.Prelude.{◌≡◌};
    ghost use Rattle.deck.specs.declared.fault.DeckFault.TheVariants.{OutOfMemory};

    ghost from_gives = { λ _ fault. fault ≡ OutOfMemory };

    fn from(_: AllocError) -> Self {
        DeckFault::OutOfMemory
    }
}

impl<T: Drop> From<AllocFailed<T>> for DeckFault {
    ghost use Rattle.std.specs.Prelude.{◌≡◌};
    ghost use Rattle.deck.specs.declared.fault.DeckFault.TheVariants.{OutOfMemory};

    ghost from_gives = { λ _ fault. fault ≡ OutOfMemory };

    fn from(_: AllocFailed<T>) -> Self {
        DeckFault::OutOfMemory
    }
}

impl From<FetchFault> for DeckFault {
    ghost use Rattle.std.specs.Prelude.{◌≡◌};
    ghost use Rattle.deck.specs.FileLoads.{deck_load_error};

    ghost from_gives = { λ fault made. made ≡ deck_load_error fault };

    fn from(fault: FetchFault) -> Self {
        match fault {
            FetchFault::Absent => DeckFault::Absent,
            FetchFault::TooLong => DeckFault::TooLong,
            FetchFault::Failed => DeckFault::ReadFailed,
            FetchFault::OutOfMemory => DeckFault::OutOfMemory,
        }
    }
}

impl From<LoadFault> for DeckFault {
    ghost use Rattle.std.specs.Prelude.{◌≡◌};
    ghost use Rattle.deck.specs.FileLoads.{deck_fault_of_load};

    ghost from_gives = { λ fault made. made ≡ deck_fault_of_load fault };

    fn from(fault: LoadFault) -> Self {
        match fault {
            LoadFault::DeckFull => DeckFault::DeckFull,
            LoadFault::ReadFailed => DeckFault::ReadFailed,
            LoadFault::OutOfMemory => DeckFault::OutOfMemory,
        }
    }
}
