//! The errors of saving a deck.

use std::alloc::AllocError;

/// The reason why the text of a deck was not produced.
#[derive(Clone, Copy, Debug, PartialEq, Eq)]
pub enum SaveFault {
    /// The text would have more than 16,777,216 bytes, the maximum length of a file.
    TooLong,
    OutOfMemory,
}

impl From<AllocError> for SaveFault {
    ghost use Rattle.std.specs.Prelude.{◌≡◌};
    ghost use Rattle.deck_save.specs.declared.fault.SaveFault.TheVariants.{OutOfMemory};

    ghost from_gives = { λ _ fault. fault ≡ OutOfMemory };

    fn from(_: AllocError) -> Self {
        SaveFault::OutOfMemory
    }
}
