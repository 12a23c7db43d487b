//! Decks of texts that are within the limits of a deck.

ghost use Rattle.std.specs.Prelude.{◌≡◌, IfOk, Ok};
ghost use Rattle.deck.specs.FileLoads.{deck_after_text_loading};
ghost use Rattle.session.specs.TextDecks as spec;

use deck::{Deck, DeckFault, Settings};
use std::alloc::{AllocError, Global};

/// Returns the deck of a text of fewer than 30,000 line feeds, in which every include names an absent file. `name` is
/// the file name in its notices. Such a text is within the limits of a deck, so the only error is running out of
/// memory.
pub fn text_deck(
    alloc: Global,
    text: &[u8],
    name: &[u8],
    settings: Settings,
) -> Result<Deck, AllocError>
    requires { spec.FitsDeck text.now }
    ensures is { IfOk result (λ deck. deck ≡ spec.text_deck name.now text.now settings) }
    ensures within { deck_after_text_loading text.now name.now settings
        ≡ Ok (spec.text_deck name.now text.now settings) }
{
    match Deck::from_text(alloc, text, name, settings) {
        Ok(deck) => Ok(deck),
        Err(fault) => match fault {
            DeckFault::OutOfMemory => Err(AllocError),
            // The deck has room for its lines.
            _ => unreachable!(),
        },
    }
}
