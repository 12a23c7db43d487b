//! Words together with the keys that they lead to.

ghost use Rattle.std.specs.Prelude.{◌≡◌, option_map};
ghost use Rattle.deck.specs.Decks.{DeckContents};
ghost use Rattle.deck.specs.PlacedKeys.{borrowed_deck_key};
ghost use Rattle.expr_tree.specs.Names as names;
ghost use Rattle.value_sources.specs.StoredMentions.{mention_in};

use crate::resolution::Resolution;
use crate::site::Site;
use deck::{BorrowedKey, Deck};
use expr_tree::{WordKind, is_refused};
use units_io::Text;

/// The depth and the tree of a word.
#[derive(Clone, Copy, Drop)]
pub(crate) struct Location {
    pub(crate) depth: usize,
    pub(crate) site: Site,
}

/// A word of an expression or of an entry of a deck, with one of the keys that it leads to, if it leads to any. The key
/// is stored as the place of its line in force, and the word only if it is not the name of the key. So most mentions
/// own no memory, and the word and the key are read from the deck.
pub struct StoredMention {
    pub(crate) location: Location,
    pub(crate) word: Option<Text>,
    pub(crate) word_kind: WordKind,
    pub(crate) resolution: Resolution,
    pub(crate) place: Option<usize>,
}

// Written by hand, so that code that drops a mention need not prove anything about its contents.
impl Drop for StoredMention {
    fn drop(self) {
        let StoredMention {
            location: _,
            word: _,
            word_kind: _,
            resolution: _,
            place: _,
        } = self;
    }
}

impl StoredMention {
    /// The number of entries that contain the word: 0 in the expression itself, 1 in the entry of a key of the
    /// expression.
    pub fn depth(&self) -> usize
        ensures { (d : DeckContents) → result ≡ (mention_in d self.now).depth }
    {
        self.location.depth
    }

    /// The tree that contains the word. It belongs to the entry of the last preceding visited key whose depth is one
    /// less.
    pub fn site(&self) -> Site
        ensures { (d : DeckContents) → result ≡ (mention_in d self.now).site }
    {
        self.location.site
    }

    /// The word as it is written.
    pub fn word<'a>(&'a self, deck: &'a Deck) -> &'a [u8]
        ensures { result.now ≡ (mention_in deck.now self.now).word.text }
    {
        match (&self.word, self.key(deck)) {
            (Some(word), _) => word.as_bytes(),
            (None, Some(key)) => key.name,
            (None, None) => b"".as_slice(),
        }
    }

    /// Whether the word is alone, before an operand in parentheses, or after a `~`.
    pub fn word_kind(&self) -> WordKind
        ensures { (d : DeckContents) → result ≡ (mention_in d self.now).word.kind }
    {
        self.word_kind
    }

    /// Whether the word is the name of a refused function, which is a fault whatever the word leads to.
    pub fn is_refused(&self, deck: &Deck) -> bool
        ensures { result ≡ names.is_refused (mention_in deck.now self.now).word.text }
    {
        is_refused(self.word(deck))
    }

    /// How the word leads to the key.
    pub fn resolution(&self) -> Resolution
        ensures { (d : DeckContents) → result ≡ (mention_in d self.now).resolution }
    {
        self.resolution
    }

    /// The key that the word leads to, or `None` if the word is unknown.
    pub fn key<'a>(&self, deck: &'a Deck) -> Option<BorrowedKey<'a>>
        ensures { option_map borrowed_deck_key result ≡ (mention_in deck.now self.now).target }
    {
        match self.place {
            Some(place) => deck.key_at(place),
            None => None,
        }
    }

    /// The place in the deck of the line of the key, if the word leads to a key.
    pub fn place(&self) -> Option<usize>
        ensures { result ≡ self.now.place }
    {
        self.place
    }
}
