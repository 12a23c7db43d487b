//! Copying decks.

ghost use Rattle.std.specs.Prelude.{◌≡◌, ◌<◌, ◌+◌, IfOk, OnOk, Some, length, option_map, slice_get, take};
ghost use Rattle.def_entry.specs.LineViews.{seen_entry};
ghost use Rattle.deck_lines.specs.Readings.{entry_in_store_line};
ghost use Rattle.deck_lines.specs.declared.line.DeckLine.{DeckLine};

use super::Deck;
use deck_lines::LineStore;
use def_entry::{Key, What};
use def_lines::Line;
use std::alloc::{AllocError, Global};
use units_io::{Text, Texts};

impl Deck {
    /// Returns a copy of the deck. No line is parsed again: the definitions are copied. The only error is running out
    /// of memory.
    pub fn snapshot(&self, alloc: Global) -> Result<Deck, AllocError>
        ensures { IfOk result (λ copy. copy ≡ self.now) }
    {
        let store = copied_store(alloc, &self.store)?;
        let settings = self.settings.copy(alloc)?;
        let notices = copied_texts(alloc, &self.notices)?;
        Deck::from_parts(alloc, store, settings, notices)
    }
}

// Returns a copy of a store: its lines with their marks and definitions.
fn copied_store(alloc: Global, store: &LineStore) -> Result<LineStore, AllocError>
    ensures { IfOk result (λ copy. copy.lines ≡ store.now.lines) }
{
    let mut copy = LineStore::new(alloc, store.table_seed());
    for place in 0..store.len() {
        push_copy(alloc, &mut copy, store, place)?;
    }
    Ok(copy)
}

// Appends a copy of the line at `place` to a copy of the lines before it.
fn push_copy(
    alloc: Global,
    copy: &mut LineStore,
    store: &LineStore,
    place: usize,
) -> Result<(), AllocError>
    requires within { place < length store.now.lines }
    requires front { copy.old.lines ≡ take place store.now.lines }
    ensures { OnOk result (copy.new.lines ≡ take (place + 1) store.now.lines) }
{
    let line = store.line(place);
    let number = line.number;
    let text = Text::from_bytes(alloc, line.text)?;
    let definition = copied_definition(alloc, store, place)?;
    copy.push(alloc, Line { number, text }, line.mark, definition)?;
    Ok(())
}

// Returns a copy of the definition of the line at `place`, or `None` if it defines nothing.
fn copied_definition(
    alloc: Global,
    store: &LineStore,
    place: usize,
) -> Result<Option<(Key, What)>, AllocError>
    ensures { IfOk result (λ copy. (line : DeckLine) → slice_get store.now.lines place ≡ Some line
        → option_map (seen_entry line.text) copy ≡ entry_in_store_line line) }
{
    let Some(number) = store.key_number(place) else {
        return Ok(None);
    };
    let Some(name) = store.name(number) else {
        unreachable!()
    };
    let Some(entry) = store.entry(place) else {
        unreachable!()
    };
    let kind = number.kind;
    let name = Text::from_bytes(alloc, name)?;
    let what = entry.what.copy(alloc)?;
    Ok(Some((Key { kind, name }, what)))
}

// Returns copies of texts.
fn copied_texts(alloc: Global, texts: &Texts) -> Result<Texts, AllocError>
    ensures { IfOk result (λ copy. copy ≡ texts.now) }
{
    let mut copy = Texts::new(alloc);
    for text in texts.as_slice() {
        copy.push(alloc, text.copy(alloc)?)?;
    }
    Ok(copy)
}
