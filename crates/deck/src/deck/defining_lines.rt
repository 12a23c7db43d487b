//! The lines that define a key.

ghost use Rattle.std.specs.Prelude.{◌≡◌, ◌++◌, [], Some, IfOk, OnOk, length, slice_get, if◌then◌else◌};
ghost use Rattle.deck_lines.specs.declared.line.DeckLine.{DeckLine};
ghost use Rattle.deck.specs.Active.{active_lines};
ghost use Rattle.deck.specs.Messages as spec;

use super::Deck;
use crate::force::active_flags;
use deck_lines::LineStore;
use std::alloc::{AllocError, Global};
use units_io::Texts;

impl Deck {
    /// Returns for each line whether it is active. The only error is running out of memory.
    pub fn active_lines(&self, alloc: Global) -> Result<Vec<bool>, AllocError>
        ensures { IfOk result (λ flags. flags.items ≡ active_lines self.now.settings self.now.lines) }
    {
        active_flags(alloc, &self.store, &self.settings)
    }

    /// Returns the texts of the active lines that define a key, in order. No line is parsed again. The only error is
    /// running out of memory.
    pub fn defining(&self, alloc: Global) -> Result<Texts, AllocError>
        ensures { IfOk result (λ texts. texts ≡ spec.active_definition_texts self.now) }
    {
        let flags = active_flags(alloc, &self.store, &self.settings)?;
        defining_texts(alloc, &self.store, flags.as_slice())
    }
}

// Returns the texts of the lines that define a key and whose flag is true.
fn defining_texts(alloc: Global, store: &LineStore, flags: &[bool]) -> Result<Texts, AllocError>
    requires { length flags.now ≡ length store.now.lines }
    ensures { IfOk result (λ texts. texts
        ≡ spec.texts_of_deck_lines spec.deck_definition_text (spec.active_lines_by_flags flags.now store.now.lines)) }
{
    let mut texts = Texts::new(alloc);
    for place in 0..flags.len() {
        push_if_defining(alloc, &mut texts, store, flags[place], place)?;
    }
    Ok(texts)
}

// Appends the text of a line to some texts, if the line is active and defines a key.
fn push_if_defining(
    alloc: Global,
    texts: &mut Texts,
    store: &LineStore,
    active: bool,
    place: usize,
) -> Result<(), AllocError>
    ensures { OnOk result ((line : DeckLine) → slice_get store.now.lines place ≡ Some line
        → texts.new ≡ texts.old ++ (if active then spec.deck_definition_text line else [])) }
{
    if !active {
        return Ok(());
    }
    if store.entry(place).is_none() {
        return Ok(());
    }
    let Some(line) = store.lines().get(place) else {
        return Ok(());
    };
    texts.push(alloc, line.text.copy(alloc)?)
}
