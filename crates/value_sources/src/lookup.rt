//! The lookup of words in a deck.

ghost use Rattle.std.specs.Prelude.{◌≡◌, ◌-◌, ◌≤◌, IfOk, length};
ghost use Rattle.deck.specs.Tables.{table_of_deck};
ghost use Rattle.table_names.specs.Leads.{table_word_targets};
ghost use Rattle.live_table.specs.TableContents.{node_key_at};
ghost use Rattle.value_sources.specs.Leads as spec;
ghost use Rattle.value_sources.specs.Leads.{source_destination_keys};

use crate::word_keys::Destination;
use deck::Deck;
use def_entry::{Key, Kind};
use expr_tree::{WordKind, WordUse};
use live_table::{DeckTable, TriedKeys};
use name_lookup::{Targets, find_targets};
use std::alloc::{AllocError, Global};
use table_names::lookup_law;
use units_io::Text;

/// A deck in which words are looked up.
#[derive(Clone, Copy, Drop)]
pub(crate) struct Lookup<'a> {
    pub(crate) alloc: Global,
    pub(crate) deck: &'a Deck,
}

impl<'a> Lookup<'a> {
    /// Returns the keys that a word leads to. The only error is lack of memory.
    pub(crate) fn keys_of_word(
        &self,
        tried: &mut TriedKeys,
        word: &WordUse,
    ) -> Result<Destination, AllocError>
        ensures { IfOk result (λ destination. table_word_targets (table_of_deck self.now.deck.now) word.now
            ≡ source_destination_keys destination) }
    {
        lookup_law();
        tried.clear();
        let table = DeckTable(self.deck);
        match find_targets(self.alloc, &table, tried, word.text(), word.kind())? {
            Targets::Nowhere => Ok(Destination::Nowhere),
            Targets::Last => Ok(Destination::One(self.last_key(tried, 1)?)),
            Targets::LastTwo => {
                let prefix = self.last_key(tried, 2)?;
                let unit = self.last_key(tried, 1)?;
                Ok(Destination::Two(prefix, unit))
            }
        }
    }

    // Returns a copy of the key that was tried `back` places before the end.
    fn last_key(&self, tried: &TriedKeys, back: usize) -> Result<Key, AllocError>
        requires some { 1 ≤ back }
        requires many { back ≤ length tried.now }
        ensures { IfOk result (λ key. key ≡ node_key_at tried.now (length tried.now - back)) }
    {
        let place = tried.len() - back;
        let kind = tried.kind(place);
        let name = Text::from_bytes(self.alloc, tried.name(place))?;
        Ok(Key { kind, name })
    }
}

/// Returns the kind of the key that the lookup of a word tries first.
pub(crate) fn first_kind(kind: WordKind) -> Kind
    ensures { result ≡ spec.first_kind_of_mentioned_word kind }
{
    match kind {
        WordKind::Plain => Kind::Unit,
        WordKind::Call | WordKind::Inverse => Kind::Func,
    }
}
