//! The edits of a deck, and the texts of their outcomes.

use deck::{DeckFault, Settings};
use std::alloc::{AllocError, Global};
use units_io::{Text, Vars};

// An edit other than a splice.
#[derive(Clone, Copy)]
pub(crate) enum Edit {
    // `define LINE` adds a line at the end.
    Define,
    // `drop KEY` removes the last line of a key.
    DropLast,
    // `switch LOCALE` puts another locale in force.
    Switch,
    // `append FILE` adds the lines of a file.
    Append,
}

// Returns the settings with this locale and no variables.
pub(crate) fn settings_of(alloc: Global, locale: &[u8]) -> Result<Settings, AllocError> {
    let locale = Text::from_bytes(alloc, locale)?;
    let vars = Vars::new(alloc);
    Ok(Settings { locale, vars })
}

// Returns whether an edit was made. Lack of memory is reported too, so that the next query can show that the edit
// changed nothing.
pub(crate) fn edit_text(made: &Result<(), DeckFault>) -> &'static [u8] {
    match made {
        Ok(()) => b"ok",
        Err(DeckFault::OutOfMemory) => b"out of memory",
        Err(_) => b"refused",
    }
}
