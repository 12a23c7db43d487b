//! Files of which some are read in place of others.

ghost use Rattle.std.specs.Prelude.{◌≡◌, ◌≤◌, length, IfOk, None, ⊤};
ghost use Rattle.units_io.specs.FileMap.{longest_file};
ghost use Rattle.units_io.specs.FetchResults.{FetchFailsWithCause, faults_after_fetch};
ghost use Rattle.units_io.specs.StoreResults.{StoreHasCause, faults_after_store};

use crate::plain_name::plain_name;
use command_line::{Overlay, WordsFault};
use std::alloc::{AllocError, Global};
use std::marker::Model;
use units_io::{FetchFault, Files, StoreFault, Text};

/// Files, of which some are read in place of others, with counts of the failed fetches and stores.
#[derive(Drop)]
pub(crate) struct OverlaidFiles<F> {
    files: F,
    // Their names are plain.
    overlays: Vec<Overlay>,
    faults: u64,
    store_faults: u64,
}

impl<F> Model for OverlaidFiles<F> {
    ghost use Rattle.units_io.specs.Counts.{FilesCounts};

    ghost Value = { FilesCounts };

    ghost view = { λ s. record { faults = s.faults; store_faults = s.store_faults } };
}

impl<F: Files> OverlaidFiles<F> {
    /// Returns these files, none of which is read in place of another, with no failure counted.
    pub(crate) fn new(alloc: Global, files: F) -> OverlaidFiles<F> {
        OverlaidFiles {
            files,
            overlays: Vec::new(alloc),
            faults: 0,
            store_faults: 0,
        }
    }

    /// Reads files in place of others from now on. The error is `Usage` if two files are in place of the same one.
    pub(crate) fn put_overlays(
        &mut self,
        alloc: Global,
        overlays: &[Overlay],
    ) -> Result<(), WordsFault> {
        for overlay in overlays {
            let name = plain_name(alloc, overlay.name.as_bytes())?;
            if place_of(self.overlays.as_slice(), name.as_bytes()).is_some() {
                return Err(WordsFault::Usage);
            }
            let path = overlay.path.copy(alloc)?;
            self.overlays.push(Overlay { name, path })?;
        }
        Ok(())
    }
}

// Returns the place of the overlay with this plain name.
fn place_of(overlays: &[Overlay], name: &[u8]) -> Option<usize> {
    overlays
        .iter()
        .position(|overlay| overlay.name.as_bytes() == name)
}

// Returns the path of the file that is read in place of the file `name`, if there is one.
fn path_of(alloc: Global, overlays: &[Overlay], name: &[u8]) -> Result<Option<Text>, AllocError> {
    if overlays.is_empty() {
        return Ok(None);
    }
    let name = plain_name(alloc, name)?;
    let Some(place) = place_of(overlays, name.as_bytes()) else {
        return Ok(None);
    };
    match overlays.get(place) {
        Some(overlay) => Ok(Some(overlay.path.copy(alloc)?)),
        None => Ok(None),
    }
}

impl<F: Files> Files for OverlaidFiles<F> {
    ghost files = { λ _. None };

    ghost faults = { λ s. s.faults };

    ghost store_faults = { λ s. s.store_faults };

    ghost is_fetch = { λ _ _ _ _. ⊤ };

    fn fetch(&mut self, alloc: Global, name: &[u8]) -> Result<Text, FetchFault>
        ensures within { IfOk result (λ text. length text ≤ longest_file) }
        ensures cause { FetchFailsWithCause self.old.faults self.new.faults result }
        ensures stores { self.new.store_faults ≡ self.old.store_faults }
        ensures counted { self.new.faults ≡ faults_after_fetch self.old.faults result }
    {
        let answer = match path_of(alloc, self.overlays.as_slice(), name)? {
            Some(path) => self.files.fetch(alloc, path.as_bytes()),
            None => self.files.fetch(alloc, name),
        };
        if let Err(FetchFault::Failed) = answer {
            self.faults = self.faults.saturating_add(1);
        }
        answer
    }

    fn store(&mut self, alloc: Global, name: &[u8], bytes: &[u8]) -> Result<(), StoreFault>
        requires { length bytes.now ≤ longest_file }
        ensures cause { StoreHasCause self.old.store_faults self.new.store_faults result }
        ensures fetches { self.new.faults ≡ self.old.faults }
        ensures counted { self.new.store_faults ≡ faults_after_store self.old.store_faults result }
    {
        let answer = self.files.store(alloc, name, bytes);
        if let Err(StoreFault::Failed) = answer {
            self.store_faults = self.store_faults.saturating_add(1);
        }
        answer
    }
}
