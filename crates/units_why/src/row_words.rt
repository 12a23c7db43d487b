//! The words that describe rows.

use crate::row_view::RowView;
use crate::writer::Writer;
use deck::Deck;
use def_entry::{Key, Kind};
use def_lines::trim;
use expr_tree::WordKind;
use value_sources::{Resolution, Site, StoredMention};

/// Returns how a word leads to its key.
pub(crate) fn resolution_word(mention: &StoredMention, key: &Key) -> &'static [u8] {
    match (key.kind, mention.resolution(), mention.word_kind()) {
        (Kind::Prefix, _, _) => b"prefix",
        (Kind::Func, _, WordKind::Inverse) if !is_alias_target(mention) => b"inverse function",
        (Kind::Func, _, _) => b"function",
        (_, Resolution::Plural, _) => b"plural",
        _ => b"unit",
    }
}

// Returns whether the word is the function that an alias names. That function is called in the direction of the alias.
fn is_alias_target(mention: &StoredMention) -> bool {
    match mention.site() {
        Site::AliasTarget => true,
        _ => false,
    }
}

/// Returns which part of the definition above contains the word, or `None` if that definition has only one part.
pub(crate) fn site_word(site: Site) -> Option<&'static [u8]> {
    match site {
        Site::Expression | Site::Body => None,
        Site::AliasTarget => Some(b"alias".as_slice()),
        Site::InUnit => Some(b"argument unit".as_slice()),
        Site::OutUnit => Some(b"result unit".as_slice()),
        Site::Forward => Some(b"forward".as_slice()),
        Site::Inverse => Some(b"inverse".as_slice()),
        Site::TableUnit => Some(b"table unit".as_slice()),
    }
}

/// Returns a word if it differs from the name of its key.
pub(crate) fn rewritten_word<'a>(
    deck: &'a Deck,
    mention: &'a StoredMention,
    key: &Key,
) -> Option<&'a [u8]> {
    match mention.resolution() {
        Resolution::Name => None,
        _ => {
            let word = mention.word(deck);
            if word == key.name.as_bytes() {
                None
            } else {
                Some(word)
            }
        }
    }
}

/// Appends the name of a row: its key, or its word if the word is unknown.
pub(crate) fn put_name(out: &mut Writer, deck: &Deck, view: RowView<'_, '_, '_>) {
    match view.key {
        Some(key) => out.put_key(key),
        None => out.put(view.mention.word(deck)),
    }
}

/// Returns the text of the definition of a key whose line in force is at this place.
pub(crate) fn definition_text<'a>(deck: &'a Deck, key: &Key, place: usize) -> Option<&'a [u8]> {
    let line = deck.lines().get(place)?;
    match text_after_name(line.text.as_bytes(), key) {
        Some(text) => Some(trim(text)),
        None => Some(
            deck.entry_with_hint(place, key.kind, key.name.as_bytes())?
                .text(),
        ),
    }
}

// Returns the text after the name of a key on its line, if the line begins with the name.
fn text_after_name<'a>(line: &'a [u8], key: &Key) -> Option<&'a [u8]> {
    if let b'+' | b'!' = line.first()? {
        return None;
    }
    let after = line.get(key.name.as_bytes().len()..)?;
    match key.kind {
        Kind::Prefix => after.strip_prefix(b"-".as_slice()),
        Kind::Unit | Kind::Func => Some(after),
        Kind::List => None,
    }
}

/// Returns the words for a word that leads to no definition.
pub(crate) fn fault_word(deck: &Deck, mention: &StoredMention) -> &'static [u8] {
    if mention.is_refused(deck) {
        b"refused function"
    } else {
        b"unknown unit"
    }
}
