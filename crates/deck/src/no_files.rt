//! A file system without files.

ghost use Rattle.std.specs.Prelude.{◌≡◌, ⊤};

use std::alloc::Global;
use units_io::{FetchFault, Files, StoreFault, Text};

/// A file system without files. Storing a file always fails, and each failure is counted.
#[derive(Drop)]
pub struct NoFiles {
    store_faults: u64,
}

impl NoFiles {
    /// Returns a file system without files, whose count of failures is 0.
    pub fn new() -> NoFiles
        ensures { result.store_faults ≡ 0 }
    {
        NoFiles { store_faults: 0 }
    }
}

impl Files for NoFiles {
    ghost use Rattle.std.specs.Prelude.{Some};
    ghost use Rattle.units_io.specs.FileMap.{no_files_in_map};

    ghost files = { λ _. Some no_files_in_map };

    ghost faults = { λ _. 0 };

    ghost store_faults = { λ f. f.store_faults };

    ghost is_fetch = { λ _ _ _ _. ⊤ };

    fn fetch(&mut self, _alloc: Global, _name: &[u8]) -> Result<Text, FetchFault> {
        Err(FetchFault::Absent)
    }

    fn store(&mut self, _alloc: Global, _name: &[u8], _bytes: &[u8]) -> Result<(), StoreFault> {
        self.store_faults = self.store_faults.saturating_add(1);
        Err(StoreFault::Failed)
    }
}
