//! The messages of the active lines.

ghost use Rattle.std.specs.Prelude.{◌≡◌, ◌++◌, ◌∷◌, [], IfOk, OnOk, if◌then◌else◌};
ghost use Rattle.def_lines.specs.Kinds.{kind_of_line};
ghost use Rattle.deck.specs.Messages as spec;

use super::Deck;
use crate::force::active_flags;
use def_lines::{LineKind, classify};
use std::alloc::{AllocError, Global};
use units_io::{Text, Texts};

impl Deck {
    /// Returns the texts of the active message lines, in order. The only error is running out of memory.
    pub fn messages(&self, alloc: Global) -> Result<Texts, AllocError>
        ensures { IfOk result (λ texts. texts ≡ spec.deck_messages self.now) }
    {
        let flags = active_flags(alloc, &self.store, &self.settings)?;
        let mut texts = Texts::new(alloc);
        for i in 0..flags.len() {
            push_message(alloc, &mut texts, flags[i], self.store.line(i).text)?;
        }
        Ok(texts)
    }
}

// Appends the message of a line to some texts, if the line is active and is a message line.
fn push_message(
    alloc: Global,
    texts: &mut Texts,
    active: bool,
    line: &[u8],
) -> Result<(), AllocError>
    ensures { OnOk result (texts.new ≡ texts.old
        ++ (if active then spec.deck_message_of_kind (kind_of_line line.now) else [])) }
{
    match classify(line) {
        LineKind::Message(text) => push_if(alloc, texts, active, text),
        _ => Ok(()),
    }
}

// Appends a text to others if `active` is true.
fn push_if(alloc: Global, texts: &mut Texts, active: bool, text: &[u8]) -> Result<(), AllocError>
    ensures { OnOk result (texts.new ≡ texts.old ++ (if active then text.now ∷ [] else [])) }
{
    if !active {
        return Ok(());
    }
    texts.push(alloc, Text::from_bytes(alloc, text)?)
}
