//! The mentions of words.

ghost use Rattle.std.specs.Prelude.{◌≡◌, ◌++◌, ◌∷◌, [], Contains, IfOk, None, OnOk, Some, reverse, true};
ghost use Rattle.def_entry.specs.declared.key.Key.{Key as AnyKey};
ghost use Rattle.deck.specs.Decks.{DeckContents};
ghost use Rattle.deck.specs.Tables.{is_entry_present, table_of_deck};
ghost use Rattle.table_names.specs.Leads.{table_word_targets};
ghost use Rattle.value_sources.specs.Leads.{source_destination_keys};
ghost use Rattle.value_sources.specs.Mentions as spec;
ghost use Rattle.value_sources.specs.PlacedMentions.{mention_with_place, placed_mentions, placed_mentions_to};
ghost use Rattle.value_sources.specs.StoredMentions.{placed_mention_in, placed_mention_list};
ghost use Rattle.value_sources.specs.declared.resolution.Resolution.TheVariants.{Name};
ghost use Rattle.value_sources.specs.Uses.{source_use_at, source_uses_at};

use crate::lookup::{Lookup, first_kind};
use crate::mention::{Location, StoredMention};
use crate::resolution::Resolution;
use crate::word_keys::Destination;
use def_entry::Key;
use expr_tree::{WordUse, Words};
use live_table::TriedKeys;
use name_lookup::targets_are_present;
use std::alloc::{AllocError, Global};
use table_names::lookup_law;
use units_io::Text;

impl<'a> Lookup<'a> {
    /// Appends the mentions of the words of one tree. The only error is lack of memory.
    pub(crate) fn put_mentions(
        &self,
        tried: &mut TriedKeys,
        mentions: &mut Vec<StoredMention>,
        location: Location,
        words: &Words,
    ) -> Result<(), AllocError>
        ensures { OnOk result (placed_mention_list self.now.deck.now mentions.new.items
            ≡ placed_mention_list self.now.deck.now mentions.old.items
            ++ placed_mentions self.now.deck.now location.depth (source_uses_at location.site words.now)) }
    {
        for word in words.as_slice() {
            self.put_word(tried, mentions, location, word)?;
        }
        Ok(())
    }

    /// Appends the mentions of a word. Most words are the names of their keys, and then one lookup is enough and no
    /// memory is allocated. The only error is lack of memory.
    pub(crate) fn put_word(
        &self,
        tried: &mut TriedKeys,
        mentions: &mut Vec<StoredMention>,
        location: Location,
        word: &WordUse,
    ) -> Result<(), AllocError>
        ensures { OnOk result (placed_mention_list self.now.deck.now mentions.new.items
            ≡ placed_mention_list self.now.deck.now mentions.old.items
            ++ placed_mentions_to self.now.deck.now location.depth (source_use_at location.site word.now)
            (table_word_targets (table_of_deck self.now.deck.now) word.now)) }
    {
        lookup_law();
        targets_are_present();
        if let Some(place) = self.deck.place_of(first_kind(word.kind()), word.text()) {
            return put_mention(mentions, named_mention(location, word, Some(place)));
        }
        let destination = self.keys_of_word(tried, word)?;
        self.put_destination(mentions, location, word, destination)
    }

    // Appends the mentions of a word with this destination.
    fn put_destination(
        &self,
        mentions: &mut Vec<StoredMention>,
        location: Location,
        word: &WordUse,
        destination: Destination,
    ) -> Result<(), AllocError>
        ensures { OnOk result (((n : AnyKey) → Contains (source_destination_keys destination) n
            → is_entry_present (table_of_deck self.now.deck.now) n ≡ true)
            → placed_mention_list self.now.deck.now mentions.new.items
            ≡ placed_mention_list self.now.deck.now mentions.old.items
            ++ placed_mentions_to self.now.deck.now location.depth (source_use_at location.site word.now)
            (source_destination_keys destination)) }
    {
        match destination {
            Destination::Nowhere => {
                let mention = mention(self.alloc, location, word, Resolution::Unknown, None)?;
                put_mention(mentions, mention)
            }
            Destination::One(key) => put_mention(
                mentions,
                self.sole_mention(location, word, &key)?,
            ),
            Destination::Two(prefix, unit) => {
                let place = self.deck.last_place(&prefix);
                let first = mention(self.alloc, location, word, Resolution::Prefix, place)?;
                put_mention(mentions, first)?;
                let place = self.deck.last_place(&unit);
                let resolution = Resolution::PrefixedUnit;
                put_mention(
                    mentions,
                    mention(self.alloc, location, word, resolution, place)?,
                )
            }
        }
    }

    // Returns the mention of the only key that a word leads to.
    fn sole_mention(
        &self,
        location: Location,
        word: &WordUse,
        key: &Key,
    ) -> Result<StoredMention, AllocError>
        ensures { IfOk result (λ mention. is_entry_present (table_of_deck self.now.deck.now) key.now ≡ true
            → placed_mention_in self.now.deck.now mention ≡ mention_with_place self.now.deck.now
            (spec.mention_by (spec.sole_mention_resolution word.now key.now) location.depth
            (source_use_at location.site word.now) key.now)) }
    {
        let place = self.deck.last_place(key);
        if word.text() == key.name.as_bytes() {
            return Ok(named_mention(location, word, place));
        }
        mention(self.alloc, location, word, Resolution::Plural, place)
    }
}

/// Moves mentions to the end of `pending`, the last one first.
pub(crate) fn push_reversed(
    pending: &mut Vec<StoredMention>,
    mentions: &mut Vec<StoredMention>,
) -> Result<(), AllocError>
    ensures { OnOk result (pending.new.items ≡ pending.old.items ++ reverse mentions.old.items) }
{
    while let Some(mention) = mentions.pop() {
        pending.push(mention)?;
    }
    Ok(())
}

// Creates the mention of a word that is the name of the key at a place.
fn named_mention(location: Location, word: &WordUse, place: Option<usize>) -> StoredMention
    ensures { result ≡ record {
      location = location;
      word = None;
      word_kind = word.now.kind;
      resolution = Name;
      place = place;
    } }
{
    StoredMention {
        location,
        word: None,
        word_kind: word.kind(),
        resolution: Resolution::Name,
        place,
    }
}

// Creates a mention with a copy of its word, of the key at a place or of none.
fn mention(
    alloc: Global,
    location: Location,
    word: &WordUse,
    resolution: Resolution,
    place: Option<usize>,
) -> Result<StoredMention, AllocError>
    ensures { IfOk result (λ mention. mention ≡ record {
      location = location;
      word = Some word.now.text;
      word_kind = word.now.kind;
      resolution = resolution;
      place = place;
    }) }
{
    Ok(StoredMention {
        location,
        word: Some(Text::from_bytes(alloc, word.text())?),
        word_kind: word.kind(),
        resolution,
        place,
    })
}

// Appends a mention.
fn put_mention(mentions: &mut Vec<StoredMention>, mention: StoredMention) -> Result<(), AllocError>
    ensures { OnOk result ((d : DeckContents) → placed_mention_list d mentions.new.items
        ≡ placed_mention_list d mentions.old.items ++ placed_mention_in d mention ∷ []) }
{
    mentions.push(mention)?;
    Ok(())
}
