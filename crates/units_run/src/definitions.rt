//! The definitions and the settings of a run.
ghost use Rattle.std.specs.Prelude.{◌≡◌, Some, true, IfErr, IfOk};
ghost use Rattle.deck.specs.FileLoads as loading;
ghost use Rattle.units_io.specs.FileMap.{FileMap};
ghost use Rattle.units_run.specs.Definitions as definitions;
ghost use Rattle.units_run.specs.Settings as settings;

use command_line::CommandLine;
use deck::{Deck, DeckFault, Settings, built_in_text, transcripts_determine_loads};
use session::text_deck;
use std::alloc::{AllocError, Global};
use units_io::{Files, Text, Vars};

/// Returns the settings: the locale on the command line, or `en_US` if it names none, and the variables of the
/// environment.
pub(crate) fn settings_of(
    alloc: Global,
    line: &CommandLine,
    vars: &Vars,
) -> Result<Settings, AllocError>
    ensures { IfOk result (λ s. s ≡ settings.run_settings line.now vars.now) }
{
    let locale = match &line.locale {
        Some(locale) => locale.copy(alloc)?,
        None => Text::from_bytes(alloc, b"en_US")?,
    };
    let vars = vars.copy(alloc)?;
    Ok(Settings { locale, vars })
}

/// Returns the deck of the built-in text.
pub(crate) fn built_in_deck(alloc: Global, settings: Settings) -> Result<Deck, AllocError>
    ensures { IfOk result (λ deck. deck ≡ definitions.run_built_in_deck settings) }
{
    text_deck(alloc, built_in_text(), b"builtin", settings)
}

/// Returns the deck of a file, like `Deck::load`. If the files are known, they determine the deck or the error, unless a
/// fetch fails or memory runs out.
pub(crate) fn load_deck<F: Files>(
    alloc: Global,
    files: &mut F,
    name: &[u8],
    settings: Settings,
) -> Result<Deck, DeckFault>
    ensures known { (m : FileMap) → F.files files.old ≡ Some m
        → loading.IsDeckLoaded (loading.deck_after_loading m name.now settings) result }
    ensures settings { IfOk result (λ d. d.settings ≡ settings) }
    ensures answers { IfErr result (λ fault. loading.is_deck_load_fault fault ≡ true) }
    ensures kept { F.files files.new ≡ F.files files.old }
    ensures stores { F.store_faults files.new ≡ F.store_faults files.old }
    ensures counted { F.faults files.new ≡ loading.fetch_faults_after_deck_load (F.faults files.old) result }
{
    transcripts_determine_loads::<F>();
    Deck::load(alloc, files, name, settings)
}
