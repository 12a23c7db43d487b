//! The meaning of a target.

ghost use Rattle.std.specs.Prelude.{◌≡◌, IfOk};
ghost use Rattle.std.specs.List.{list_any};
ghost use Rattle.deck.specs.Tables as tables;
ghost use Rattle.def_entry.specs.EntryReading.{is_entry_semicolon};
ghost use Rattle.reply.specs.Targets as spec;

use deck::Deck;
use def_entry::Kind;
use std::alloc::{AllocError, Global};
use units_io::Text;

/// The meaning of a target.
#[derive(Drop)]
pub(crate) enum Target {
    /// The target is the name of a function, whose inverse is applied.
    Function,
    /// The target is a list with this text, whose parts are counted.
    Parts(Text),
    /// The target is a unit.
    Unit,
}

/// Returns the meaning of the text of a target. The only error is lack of memory.
pub(crate) fn target_of(alloc: Global, deck: &Deck, to: &[u8]) -> Result<Target, AllocError>
    ensures { IfOk result (λ target. target ≡ spec.conversion_target (tables.table_of_deck deck.now) to.now) }
{
    if deck.entry(Kind::Func, to).is_some() {
        return Ok(Target::Function);
    }
    if let Some(list) = deck.entry(Kind::List, to) {
        return Ok(Target::Parts(Text::from_bytes(alloc, list.text())?));
    }
    if has_semicolon(to) {
        return Ok(Target::Parts(Text::from_bytes(alloc, to)?));
    }
    Ok(Target::Unit)
}

/// Whether the text contains a `;`, and so is a list of units unless it is a name. It allocates no memory.
pub fn has_semicolon(text: &[u8]) -> bool
    ensures { result ≡ list_any is_entry_semicolon text.now }
{
    text.iter().any(|byte| *byte == b';')
}
