//! The files of the system.
ghost use Rattle.std.specs.Prelude.{◌≡◌, ◌≤◌, length, IfOk, None, ⊤};
ghost use Rattle.std.specs.Str.{IsUtf8};
ghost use Rattle.units_io.specs.FileMap.{longest_file};
ghost use Rattle.units_io.specs.FetchResults.{FetchFailsWithCause, faults_after_fetch};
ghost use Rattle.units_io.specs.StoreResults.{StoreHasCause, faults_after_store};

use super::file_read::read_file;
use super::file_write::save_file;
use crate::files::{FetchFault, Files, StoreFault};
use crate::text::Text;
use std::alloc::Global;
use std::marker::Model;
use std::str;

/// The files of the system, addressed by path, with counts of the failed fetches and stores.
#[derive(Drop)]
pub struct DirFiles<H> {
    rt: H,
    faults: u64,
    store_faults: u64,
}

impl<H> Model for DirFiles<H> {
    ghost use Rattle.units_io.specs.Counts.{FilesCounts};

    ghost Value = { FilesCounts };

    ghost view = { λ s. record { faults = s.faults; store_faults = s.store_faults } };
}

impl<H: std::rt::Files + Clone + Drop> DirFiles<H> {
    /// Creates access to the files of this runtime, with no failure counted.
    pub fn new(rt: H) -> DirFiles<H>
        ensures { result ≡ record { faults = 0; store_faults = 0 } }
    {
        DirFiles {
            rt,
            faults: 0,
            store_faults: 0,
        }
    }
}

impl<H: std::rt::Files + Clone + Drop> Files for DirFiles<H> {
    ghost files = { λ _. None };

    ghost faults = { λ s. s.faults };

    ghost store_faults = { λ s. s.store_faults };

    ghost is_fetch = { λ _ _ _ _. ⊤ };

    fn fetch(&mut self, alloc: Global, name: &[u8]) -> Result<Text, FetchFault>
        ensures within { IfOk result (λ text. length text ≤ longest_file) }
        ensures cause { FetchFailsWithCause self.old.faults self.new.faults result }
        ensures stores { self.new.store_faults ≡ self.old.store_faults }
        ensures counted { self.new.faults ≡ faults_after_fetch self.old.faults result }
        ensures bad_name { ¬ IsUtf8 name.now → result ≡ Err FetchFault.Absent }
    {
        let Ok(path) = str::from_utf8(name) else {
            return Err(FetchFault::Absent);
        };
        let answer = read_file(&self.rt, alloc, path);
        if let Err(FetchFault::Failed) = answer {
            self.faults = self.faults.saturating_add(1);
        }
        answer
    }

    fn store(&mut self, alloc: Global, name: &[u8], bytes: &[u8]) -> Result<(), StoreFault>
        requires { length bytes.now ≤ longest_file }
        ensures cause { StoreHasCause self.old.store_faults self.new.store_faults result }
        ensures fetches { self.new.faults ≡ self.old.faults }
        ensures counted { self.new.store_faults ≡ faults_after_store self.old.store_faults result }
        ensures bad_name { ¬ IsUtf8 name.now → result ≡ Err StoreFault.Failed }
    {
        let answer = match str::from_utf8(name) {
            Ok(path) => save_file(&self.rt, alloc, path, bytes),
            Err(_) => Err(StoreFault::Failed),
        };
        if let Err(StoreFault::Failed) = answer {
            self.store_faults = self.store_faults.saturating_add(1);
        }
        answer
    }
}
