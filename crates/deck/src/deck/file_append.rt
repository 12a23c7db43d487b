//! Appending the deck of a file to a deck.

ghost use Rattle.std.specs.Prelude.{◌≡◌, [], true, false, IfOk, IfErr, OnOk, OnErr};
ghost use Rattle.deck_lines.specs.Limits.{pass_store_limit};
ghost use Rattle.deck_lines.specs.Loads.{ExtendsStore};
ghost use Rattle.deck_lines.specs.KeyNumbering.{IsKeyNumbering};
ghost use Rattle.deck_lines.specs.LineLoads.{excerpt_in};
ghost use Rattle.deck_lines.specs.Transcripts.{IsLoad, files_model};
ghost use Rattle.deck.specs.Changes.{IsDeckTableChange, IsEditChange};
ghost use Rattle.deck.specs.LastPlaces.{IsDeckIndexed};
ghost use Rattle.deck.specs.FileLoads as loading;
ghost use Rattle.deck.specs.Tables.{active_definitions, table_of_deck_definitions};
ghost use Rattle.deck.specs.declared.fault.DeckFault.TheVariants.{OutOfMemory};

use super::Deck;
use super::file_load::load_file;
use crate::fault::DeckFault;
use crate::force::InForce;
use crate::places::{LastPlaces, PlaceChanges, find_place_changes};
use crate::settings::Settings;
use deck_lines::{Draft, LineStore, Notices, failed_fetches_end_loads};
use def_entry::Keys;
use std::alloc::Global;
use std::mem;
use units_io::Files;

impl Deck {
    /// Appends the deck of the file with this name, and of the files that it includes, and returns the keys whose
    /// entries change. The errors are those of `load`, with `DeckFull` if the deck as a whole would pass a limit. On an
    /// error the deck is unchanged.
    pub fn append<F: Files>(
        &mut self,
        alloc: Global,
        files: &mut F,
        name: &[u8],
    ) -> Result<Keys, DeckFault>
        ensures loads { IsLoad (files_model F.files F.faults F.is_fetch) files.old files.new OutOfMemory
            (loading.deck_load_of_name name.now (loading.deck_excerpt_of_lines self.old.lines))
            (λ _. loading.excerpt_of_deck self.new) result }
        ensures changed { IfOk result (λ keys. IsEditChange self.old self.new keys) }
        ensures settings { self.new.settings ≡ self.old.settings }
        ensures err { OnErr result (self.new ≡ self.old) }
        ensures answers { IfErr result (λ fault. loading.is_deck_load_fault fault ≡ true) }
        ensures kept { F.files files.new ≡ F.files files.old }
        ensures stores { F.store_faults files.new ≡ F.store_faults files.old }
    {
        self.covered_lines = None;
        let end = append_file(
            alloc,
            files,
            &mut self.store,
            &self.last,
            &self.settings,
            name,
        )?;
        Ok(end.store(&mut self.last, &mut self.notices))
    }
}

// The changes that appending the deck of a file makes, and the notices of that file.
#[derive(Drop)]
struct FileEnd {
    changes: PlaceChanges,
    notices: Notices,
}

impl FileEnd {
    // Stores the last places and the notices, and returns the changed keys.
    fn store(self, last: &mut LastPlaces, notices: &mut Notices) -> Keys
        ensures last { last.new ≡ self.changes.last }
        ensures notices { notices.new ≡ self.notices }
        ensures keys { result ≡ self.changes.keys }
    {
        let PlaceChanges { last: now, keys } = self.changes;
        *last = now;
        *notices = self.notices;
        keys
    }
}

// Appends the deck of a file to the lines of a deck. On an error the lines are unchanged.
fn append_file<F: Files>(
    alloc: Global,
    files: &mut F,
    store: &mut LineStore,
    last: &LastPlaces,
    settings: &Settings,
    name: &[u8],
) -> Result<FileEnd, DeckFault>
    requires { IsDeckIndexed store.old settings.now last.now }
    ensures loads { IsLoad (files_model F.files F.faults F.is_fetch) files.old files.new OutOfMemory
        (loading.deck_load_of_name name.now (loading.deck_excerpt_of_lines store.old.lines))
        (λ end. record { lines = store.new.lines; notices = end.notices }) result }
    ensures indexed { IfOk result (λ end. IsDeckIndexed store.new settings.now end.changes.last) }
    ensures changed { IfOk result (λ end. IsDeckTableChange
        (table_of_deck_definitions (active_definitions settings.now store.old.lines))
        (table_of_deck_definitions (active_definitions settings.now store.new.lines)) end.changes.keys) }
    ensures lines { OnErr result (store.new.lines ≡ store.old.lines) }
    ensures stays { OnErr result (IsDeckIndexed store.new settings.now last.now) }
    ensures answers { IfErr result (λ fault. loading.is_deck_load_fault fault ≡ true) }
    ensures kept { F.files files.new ≡ F.files files.old }
    ensures stores { F.store_faults files.new ≡ F.store_faults files.old }
{
    let len = store.len();
    let mut draft = draft_of(alloc, store);
    let changes = load_changes(alloc, files, &mut draft, last, settings, name);
    *store = draft.store;
    let notices = draft.notices;
    match changes {
        Ok(changes) => Ok(FileEnd { changes, notices }),
        Err(fault) => {
            store.truncate(len);
            Err(fault)
        }
    }
}

// Moves the lines of a store to a new draft.
fn draft_of(alloc: Global, store: &mut LineStore) -> Draft
    ensures store { result.store ≡ store.old }
    ensures notices { result.notices ≡ [] }
{
    let seed = store.table_seed();
    Draft {
        store: mem::replace(store, LineStore::new(alloc, seed)),
        notices: Notices::new(alloc),
    }
}

// Appends the deck of a file to the lines of a draft, and returns the changes.
fn load_changes<F: Files>(
    alloc: Global,
    files: &mut F,
    draft: &mut Draft,
    last: &LastPlaces,
    settings: &Settings,
    name: &[u8],
) -> Result<PlaceChanges, DeckFault>
    requires notices { draft.old.notices ≡ [] }
    requires indexed { IsDeckIndexed draft.old.store settings.now last.now }
    requires numbering { IsKeyNumbering draft.old.store }
    ensures loads { IsLoad (files_model F.files F.faults F.is_fetch) files.old files.new OutOfMemory
        (loading.deck_load_of_name name.now (loading.deck_excerpt_of_lines draft.old.store.lines))
        (λ _. excerpt_in draft.new) result }
    ensures within { OnOk result (pass_store_limit draft.new.store.lines ≡ false) }
    ensures extends { ExtendsStore draft.old.store draft.new.store }
    ensures indexed { IfOk result (λ now. IsDeckIndexed draft.new.store settings.now now.last) }
    ensures changed { IfOk result (λ now. IsDeckTableChange
        (table_of_deck_definitions (active_definitions settings.now draft.old.store.lines))
        (table_of_deck_definitions (active_definitions settings.now draft.new.store.lines)) now.keys) }
    ensures answers { IfErr result (λ fault. loading.is_deck_load_fault fault ≡ true) }
    ensures kept { F.files files.new ≡ F.files files.old }
    ensures stores { F.store_faults files.new ≡ F.store_faults files.old }
{
    failed_fetches_end_loads();
    load_file(alloc, files, draft, name)?;
    let settings = InForce::of(settings);
    Ok(find_place_changes(alloc, &draft.store, last, &settings)?)
}
