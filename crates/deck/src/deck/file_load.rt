//! Loading decks from files and texts.

ghost use Rattle.std.specs.Prelude.{◌≡◌, ◌≤◌, [], true, length, IfOk, IfErr, OnOk};
ghost use Rattle.units_io.specs.FileMap.{longest_file};
ghost use Rattle.deck_lines.specs.ClosedBlocks.{AreBlocksClosed};
ghost use Rattle.deck_lines.specs.Loads.{ExtendsStore};
ghost use Rattle.deck_lines.specs.LineLoads.{excerpt_in};
ghost use Rattle.deck_lines.specs.Transcripts.{IsLoad, files_model};
ghost use Rattle.deck.specs.FileLoads as loading;
ghost use Rattle.deck.specs.declared.fault.DeckFault.TheVariants.{OutOfMemory};

use super::Deck;
use crate::fault::DeckFault;
use crate::no_files::NoFiles;
use crate::settings::Settings;
use deck_lines::{Draft, failed_fetches_end_loads, known_files_determine_loads, load_text};
use std::alloc::Global;
use units_io::Files;

impl Deck {
    /// Returns the deck of a text of at most 16,777,216 bytes, in which each include is of an absent file. Its notices
    /// contain `name`. The error is `DeckFull` if its lines pass a limit; the only other error is running out of
    /// memory.
    pub fn from_text(
        alloc: Global,
        text: &[u8],
        name: &[u8],
        settings: Settings,
    ) -> Result<Deck, DeckFault>
        requires { length text.now ≤ longest_file }
        ensures { loading.IsDeckLoadResult (loading.deck_after_text_loading text.now name.now settings) result }
    {
        known_files_determine_loads();
        failed_fetches_end_loads();
        let mut draft = Draft::new(alloc, settings.vars.table_seed());
        load_text(alloc, &mut NoFiles::new(), &mut draft, name, text)?;
        Ok(Deck::from_parts(alloc, draft.store, settings, draft.notices)?)
    }

    /// Returns the deck of the file with this name and of the files that it includes.
    ///
    /// The error is `Absent` or `TooLong` if `files` reports this for the file itself. Otherwise it is the first in the
    /// order of reading: `ReadFailed` if the fetch of a file fails, which `files` counts, `DeckFull` if a line has no
    /// room, and `OutOfMemory` if an allocation fails.
    pub fn load<F: Files>(
        alloc: Global,
        files: &mut F,
        name: &[u8],
        settings: Settings,
    ) -> Result<Deck, DeckFault>
        ensures loads { IsLoad (files_model F.files F.faults F.is_fetch) files.old files.new OutOfMemory
            (loading.deck_load_of_name name.now (loading.deck_excerpt_of_lines [])) loading.excerpt_of_deck result }
        ensures settings { IfOk result (λ d. d.settings ≡ settings) }
        ensures answers { IfErr result (λ fault. loading.is_deck_load_fault fault ≡ true) }
        ensures kept { F.files files.new ≡ F.files files.old }
        ensures stores { F.store_faults files.new ≡ F.store_faults files.old }
    {
        failed_fetches_end_loads();
        let mut draft = Draft::new(alloc, settings.vars.table_seed());
        load_file(alloc, files, &mut draft, name)?;
        Ok(Deck::from_parts(alloc, draft.store, settings, draft.notices)?)
    }
}

// Appends the deck of the file with this name, and of the files that it includes, to a draft.
pub(crate) fn load_file<F: Files>(
    alloc: Global,
    files: &mut F,
    draft: &mut Draft,
    name: &[u8],
) -> Result<(), DeckFault>
    ensures loads { IsLoad (files_model F.files F.faults F.is_fetch) files.old files.new OutOfMemory
        (loading.deck_load_of_name name.now (excerpt_in draft.old)) (λ _. excerpt_in draft.new) result }
    ensures extends { ExtendsStore draft.old.store draft.new.store }
    ensures closed { OnOk result (AreBlocksClosed draft.old.store.lines → AreBlocksClosed draft.new.store.lines) }
    ensures answers { IfErr result (λ fault. loading.is_deck_load_fault fault ≡ true) }
    ensures kept { F.files files.new ≡ F.files files.old }
    ensures stores { F.store_faults files.new ≡ F.store_faults files.old }
{
    let text = files.fetch(alloc, name)?;
    load_text(alloc, files, draft, name, text.as_bytes())?;
    Ok(())
}
