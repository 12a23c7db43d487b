//! Files addressed by name.
ghost use Rattle.std.specs.Prelude.{◌≡◌, ◌≤◌, ℕ, List, length, IfOk, IfSome, Result};
ghost use Rattle.std.specs.declared.option.Option.{Option};

use crate::text::Text;
use std::alloc::{AllocError, AllocFailed, Global};
use thiserror::Error;

/// The maximum length in bytes of a file that can be fetched or stored.
pub const LONGEST_FILE: usize = 16_777_216;

/// Why a file was not fetched.
#[derive(Clone, Copy, Debug, PartialEq, Eq, Error)]
pub enum FetchFault {
    /// No file has this name.
    #[error("no such file")]
    Absent,
    /// The file has more than `LONGEST_FILE` bytes.
    #[error("the file is longer than the limit")]
    TooLong,
    /// The file could not be read. The count of failed fetches increased.
    #[error("the file could not be read")]
    Failed,
    /// Out of memory.
    #[error("out of memory")]
    OutOfMemory,
}

impl From<AllocError> for FetchFault {
    ghost use Rattle.units_io.specs.declared.files.FetchFault.TheVariants.{OutOfMemory};

    ghost from_gives = { λ _ fault. fault ≡ OutOfMemory };

    fn from(_: AllocError) -> Self {
        FetchFault::OutOfMemory
    }
}

impl<T: Drop> From<AllocFailed<T>> for FetchFault {
    ghost use Rattle.units_io.specs.declared.files.FetchFault.TheVariants.{OutOfMemory};

    ghost from_gives = { λ _ fault. fault ≡ OutOfMemory };

    fn from(_: AllocFailed<T>) -> Self {
        FetchFault::OutOfMemory
    }
}

/// Why a file was not stored.
#[derive(Clone, Copy, Debug, PartialEq, Eq, Error)]
pub enum StoreFault {
    /// The file could not be written. The count of failed stores increased.
    #[error("the file could not be written")]
    Failed,
    /// Out of memory.
    #[error("out of memory")]
    OutOfMemory,
}

impl From<AllocError> for StoreFault {
    ghost use Rattle.units_io.specs.declared.files.StoreFault.TheVariants.{OutOfMemory};

    ghost from_gives = { λ _ fault. fault ≡ OutOfMemory };

    fn from(_: AllocError) -> Self {
        StoreFault::OutOfMemory
    }
}

impl<T: Drop> From<AllocFailed<T>> for StoreFault {
    ghost use Rattle.units_io.specs.declared.files.StoreFault.TheVariants.{OutOfMemory};

    ghost from_gives = { λ _ fault. fault ≡ OutOfMemory };

    fn from(_: AllocFailed<T>) -> Self {
        StoreFault::OutOfMemory
    }
}

/// Files that can be read and written.
pub trait Files {
    ghost use Rattle.units_io.specs.declared.files.FetchFault.{FetchFault};
    ghost use Rattle.units_io.specs.FetchResults.{FileMap, IsFileFetched, FetchFailsWithCause, faults_after_fetch};
    ghost use Rattle.units_io.specs.FetchResults.{longest_file};
    ghost use Rattle.units_io.specs.StoreResults.{IsFileStored, StoreHasCause, faults_after_store};

    /// The bytes of each file, if the files are known.
    ghost files: { Self → Option FileMap };

    /// The number of failed fetches, up to `u64::MAX`.
    ghost faults: { Self → ℕ };

    /// The number of failed stores, up to `u64::MAX`.
    ghost store_faults: { Self → ℕ };

    /// Whether a fetch of the file with this name, begun in the first state, gave this result and ended in the second
    /// state. Only a call of `fetch` shows it, so a contract that cites it says which files were fetched.
    ghost is_fetch: { Self → List ℕ → Result (List ℕ) FetchFault → Self → Type 0 };

    /// Returns the bytes of the file with this name. Returns `Absent` if there is no such file, `TooLong` if it has
    /// more than `LONGEST_FILE` bytes, and `Failed` if it could not be read. The count of failed fetches increases by
    /// one on `Failed`, and only then.
    fn fetch(&mut self, alloc: Global, name: &[u8]) -> Result<Text, FetchFault>
        ensures if_known { IfSome (files self.old) (λ m. IsFileFetched m name.now result) }
        ensures within { IfOk result (λ text. length text ≤ longest_file) }
        ensures fetched { is_fetch self.old name.now result self.new }
        ensures kept { files self.new ≡ files self.old }
        ensures cause { FetchFailsWithCause (faults self.old) (faults self.new) result }
        ensures counted { faults self.new ≡ faults_after_fetch (faults self.old) result }
        ensures stores { store_faults self.new ≡ store_faults self.old };

    /// Writes these bytes to the file with this name. On `Failed` this file may have any contents, but no other file
    /// changes. The count of failed stores increases by one on `Failed`, and only then. On `OutOfMemory` nothing
    /// changes.
    fn store(&mut self, alloc: Global, name: &[u8], bytes: &[u8]) -> Result<(), StoreFault>
        requires { length bytes.now ≤ longest_file }
        ensures if_known { IsFileStored (files self.old) (files self.new) name.now bytes.now result }
        ensures cause { StoreHasCause (store_faults self.old) (store_faults self.new) result }
        ensures counted { store_faults self.new ≡ faults_after_store (store_faults self.old) result }
        ensures fetches { faults self.new ≡ faults self.old };
}
