//! Files in memory.
ghost use Rattle.std.specs.Prelude.{◌≡◌, ◌≤◌, ◌↔◌, [], length, IfOk, OnOk, OnErr, Some, Contains, IsErrOf, ⊤};
ghost use Rattle.units_io.specs.Faults.{next_io_count};
ghost use Rattle.units_io.specs.Memory.{FetchKeepsStores, StoreKeepsFetches};
ghost use Rattle.units_io.specs.FileMap.{with_file, no_files_in_map, longest_file};
ghost use Rattle.units_io.specs.FetchResults.{IsFileFetched, FetchFailsWithCause, faults_after_fetch};
ghost use Rattle.units_io.specs.StoreResults.{IsFileStored, StoreHasCause, faults_after_store};

use super::table::FileTable;
use crate::files::{FetchFault, Files, LONGEST_FILE, StoreFault};
use crate::text::Text;
use std::alloc::{AllocError, Global};
use std::marker::Model;

/// Files in memory, with fetches and stores that can be made to fail.
#[derive(Drop)]
pub struct MemFiles {
    table: FileTable,
    fails: Vec<u64>,
    calls: u64,
    faults: u64,
    store_fails: Vec<u64>,
    store_calls: u64,
    store_faults: u64,
}

impl Model for MemFiles {
    ghost use Rattle.units_io.specs.Memory.{FilesState, memory_files_code};

    ghost Value = { FilesState };

    ghost coded = { memory_files_code };

    ghost view = { λ s. record {
      files = s.table;
      fails = s.fails.items;
      calls = s.calls;
      faults = s.faults;
      store_fails = s.store_fails.items;
      store_calls = s.store_calls;
      store_faults = s.store_faults;
    } };
}

impl MemFiles {
    /// Creates a collection without files. `fails` lists the numbers of the fetches that fail, counted from 1. No
    /// store fails.
    pub fn new(alloc: Global, fails: &[u64]) -> Result<MemFiles, AllocError>
        ensures { IfOk result (λ s. s ≡ record {
          files = no_files_in_map;
          fails = fails.now;
          calls = 0;
          faults = 0;
          store_fails = [];
          store_calls = 0;
          store_faults = 0;
        }) }
    {
        let fails = Vec::from_slice(alloc, fails)?;
        Ok(MemFiles {
            table: FileTable::new(alloc),
            fails,
            calls: 0,
            faults: 0,
            store_fails: Vec::new(alloc),
            store_calls: 0,
            store_faults: 0,
        })
    }

    /// Adds a file, replacing any file with this name. On an error nothing changes.
    pub fn add(&mut self, alloc: Global, name: &[u8], bytes: &[u8]) -> Result<(), AllocError>
        ensures ok { OnOk result (self.new
            ≡ record self.old { files = with_file self.old.files name.now bytes.now }) }
        ensures err { OnErr result (self.new ≡ self.old) }
    {
        self.table.insert(alloc, name, bytes)
    }

    /// Sets the list of the stores that fail, counted from 1 and separately from the fetches. On an error nothing
    /// changes.
    pub fn fail_stores(&mut self, alloc: Global, fails: &[u64]) -> Result<(), AllocError>
        ensures ok { OnOk result (self.new ≡ record self.old { store_fails = fails.now }) }
        ensures err { OnErr result (self.new ≡ self.old) }
    {
        self.store_fails = Vec::from_slice(alloc, fails)?;
        Ok(())
    }
}

impl Files for MemFiles {
    ghost files = { λ s. Some s.files };

    ghost faults = { λ s. s.faults };

    ghost store_faults = { λ s. s.store_faults };

    ghost is_fetch = { λ _ _ _ _. ⊤ };

    fn fetch(&mut self, alloc: Global, name: &[u8]) -> Result<Text, FetchFault>
        ensures if_known { IsFileFetched self.old.files name.now result }
        ensures within { IfOk result (λ text. length text ≤ longest_file) }
        ensures kept { self.new.files ≡ self.old.files }
        ensures cause { FetchFailsWithCause self.old.faults self.new.faults result }
        ensures stores { self.new.store_faults ≡ self.old.store_faults }
        ensures listed { IsErrOf result FetchFault.Failed
            ↔ Contains self.old.fails (next_io_count self.old.calls) }
        ensures counted { self.new.faults ≡ faults_after_fetch self.old.faults result }
        ensures calls { self.new.calls ≡ next_io_count self.old.calls }
        ensures rest { FetchKeepsStores self.old self.new }
    {
        self.calls = self.calls.saturating_add(1);
        if self.fails.contains(&self.calls) {
            self.faults = self.faults.saturating_add(1);
            return Err(FetchFault::Failed);
        }
        match self.table.get(name) {
            None => Err(FetchFault::Absent),
            Some(text) if text.as_bytes().len() > LONGEST_FILE => Err(FetchFault::TooLong),
            Some(text) => Ok(Text::from_bytes(alloc, text.as_bytes())?),
        }
    }

    fn store(&mut self, alloc: Global, name: &[u8], bytes: &[u8]) -> Result<(), StoreFault>
        requires { length bytes.now ≤ longest_file }
        ensures if_known { IsFileStored (Some self.old.files) (Some self.new.files)
            name.now bytes.now result }
        ensures kept { OnErr result (self.new.files ≡ self.old.files) }
        ensures cause { StoreHasCause self.old.store_faults self.new.store_faults result }
        ensures fetches { self.new.faults ≡ self.old.faults }
        ensures listed { IsErrOf result StoreFault.Failed
            ↔ Contains self.old.store_fails (next_io_count self.old.store_calls) }
        ensures counted { self.new.store_faults ≡ faults_after_store self.old.store_faults result }
        ensures calls { self.new.store_calls ≡ next_io_count self.old.store_calls }
        ensures rest { StoreKeepsFetches self.old self.new }
    {
        self.store_calls = self.store_calls.saturating_add(1);
        if self.store_fails.contains(&self.store_calls) {
            self.store_faults = self.store_faults.saturating_add(1);
            return Err(StoreFault::Failed);
        }
        self.table.insert(alloc, name, bytes)?;
        Ok(())
    }
}
