//! Definitions that C passes in: files in memory, variables and a locale.

ghost use Rattle.std.specs.Prelude.{◌≡◌, ◌⊎◌, Err, IfOk, MatchResult, OnOk, Some};
ghost use Rattle.deck.specs.FileLoads.{MayDeckLoadFailWith};
ghost use Rattle.units_c.specs.Definitions as spec;

use deck::{DeckFault, Settings};
use edited_table::{EditedTable, load_table};
use std::alloc::{AllocError, Global};
use units_io::{HashSeed, MemFiles, Text, Vars};

/// A file or a variable: its name, and the bytes of the file or the value of the variable.
#[repr(C)]
pub struct UnitsEntry<'a> {
    pub name: &'a [u8],
    pub content: &'a [u8],
}

/// The definitions that a table is opened over. If two entries have the same name, the last one counts.
#[repr(C)]
pub struct UnitsDefinitions<'a> {
    /// The name of the file to read.
    pub main: &'a [u8],
    /// The files: the main file and those that it includes.
    pub files: &'a [UnitsEntry<'a>],
    /// The variables that the files may query.
    pub variables: &'a [UnitsEntry<'a>],
    /// The locale, such as `en_US`.
    pub locale: &'a [u8],
    /// Random bytes, if the definitions come from someone who may choose names that collide in a hash table, or none.
    /// No reply depends on them.
    pub seed: &'a [u8],
}

/// Allocates a table over the definitions.
pub(crate) fn read_table(
    alloc: Global,
    definitions: &UnitsDefinitions<'_>,
) -> Result<Box<EditedTable, Global>, DeckFault>
    ensures { MatchResult result
        (λ content. spec.IsCTableOpened definitions.now (Some content.value))
        (λ fault. MayDeckLoadFailWith fault ⊎ (spec.c_deck_of_files definitions.now ≡ Err fault)) }
{
    let mut files = MemFiles::new(alloc, &[])?;
    put_files(alloc, &mut files, definitions.files)?;
    let settings = read_settings(alloc, definitions)?;
    load_table(alloc, &mut files, definitions.main, settings)
}

// Returns the settings in `definitions`.
fn read_settings(alloc: Global, definitions: &UnitsDefinitions<'_>) -> Result<Settings, AllocError>
    ensures { IfOk result (λ settings. settings ≡ spec.c_definition_settings definitions.now) }
{
    let locale = Text::from_bytes(alloc, definitions.locale)?;
    let mut vars = Vars::with_seed(alloc, HashSeed::from_bytes(definitions.seed));
    put_values(alloc, &mut vars, definitions.variables)?;
    Ok(Settings { locale, vars })
}

// Adds the files in `entries`.
fn put_files(
    alloc: Global,
    files: &mut MemFiles,
    entries: &[UnitsEntry<'_>],
) -> Result<(), AllocError>
    ensures { OnOk result (files.new.files ≡ spec.c_files_with_entries files.old.files entries.now) }
{
    for entry in entries {
        files.add(alloc, entry.name, entry.content)?;
    }
    Ok(())
}

// Adds the variables in `entries`.
fn put_values(alloc: Global, vars: &mut Vars, entries: &[UnitsEntry<'_>]) -> Result<(), AllocError>
    ensures { OnOk result (vars.new ≡ spec.c_variables_with_entries vars.old entries.now) }
{
    for entry in entries {
        let name = Text::from_bytes(alloc, entry.name)?;
        let value = Text::from_bytes(alloc, entry.content)?;
        vars.set(alloc, name, value)?;
    }
    Ok(())
}
