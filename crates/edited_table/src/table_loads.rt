//! Tables over definition files.

ghost use Rattle.std.specs.Prelude.{◌≡◌, ◌⊎◌, Err, MatchResult};
ghost use Rattle.deck.specs.FileLoads.{IsDeckLoaded, MayDeckLoadFailWith, deck_after_loading};
ghost use Rattle.edited_table.specs.Faults as faults;
ghost use Rattle.edited_table.specs.TableValue as spec;

use crate::edited_table::EditedTable;
use crate::status::Status;
use deck::{Deck, DeckFault, Settings, transcripts_determine_loads};
use std::alloc::Global;
use units_io::MemFiles;

/// Allocates a table over the deck of the file `main` and of the files that it includes.
pub fn load_table(
    alloc: Global,
    files: &mut MemFiles,
    main: &[u8],
    settings: Settings,
) -> Result<Box<EditedTable, Global>, DeckFault>
    ensures { MatchResult result
        (λ content. spec.IsTableLoaded (deck_after_loading files.old.files main.now settings) content.value)
        (λ fault. MayDeckLoadFailWith fault ⊎ (deck_after_loading files.old.files main.now settings ≡ Err fault)) }
{
    let deck = load_deck(alloc, files, main, settings)?;
    let content = Box::new(alloc, EditedTable::new(alloc, deck))?;
    Ok(content)
}

// Loads the deck of the file `main` and of the files that it includes.
fn load_deck(
    alloc: Global,
    files: &mut MemFiles,
    main: &[u8],
    settings: Settings,
) -> Result<Deck, DeckFault>
    ensures { IsDeckLoaded (deck_after_loading files.old.files main.now settings) result }
{
    transcripts_determine_loads::<MemFiles>();
    Deck::load(alloc, files, main, settings)
}

/// Returns the status of a failed load.
pub fn load_status(fault: &DeckFault) -> Status
    ensures { result ≡ faults.load_status fault.now }
{
    match fault {
        DeckFault::Absent => Status::NoSuchFile,
        DeckFault::TooLong => Status::FileTooLong,
        DeckFault::ReadFailed => Status::ReadFailed,
        DeckFault::DeckFull => Status::DeckFull,
        _ => Status::NoMemory,
    }
}
