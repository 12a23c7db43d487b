//! The answers to queries of a deck.

use crate::deck_calls::{KeyQuery, Query};
use crate::deck_texts::{put_keys, put_lines, put_settings, put_texts};
use crate::lines::{AnswerWriter, key_in};
use deck::Deck;
use def_entry::{Key, Kind};
use std::alloc::{AllocError, Global};

// Appends the answer to a query about the deck.
pub(crate) fn put_query(
    alloc: Global,
    deck: &Deck,
    snapshot: &Option<Deck>,
    query: Query,
    out: &mut AnswerWriter,
) {
    match query {
        Query::Count => put_counts(deck, out),
        Query::Keys => put_all_keys(alloc, deck, out),
        Query::Lines => put_all_lines(alloc, deck, out),
        Query::Notices => put_texts(out, deck.notices()),
        Query::Messages => put_messages(alloc, deck, out),
        Query::Defining => put_defining_lines(alloc, deck, out),
        Query::Settings => put_settings(out, deck.settings()),
        Query::Compare => put_comparison(alloc, deck, snapshot, out),
    }
}

// Appends the answer to a query about the key that `text` names.
pub(crate) fn put_key_query(
    alloc: Global,
    deck: &Deck,
    query: KeyQuery,
    text: &[u8],
    out: &mut AnswerWriter,
) {
    match key_in(alloc, text) {
        Ok(Some(key)) => put_key_answer(deck, query, &key, out),
        Ok(None) => out.put(b"not a key"),
        Err(AllocError) => out.leave_out(),
    }
}

// Appends the answer to a query about a key.
fn put_key_answer(deck: &Deck, query: KeyQuery, key: &Key, out: &mut AnswerWriter) {
    match query {
        KeyQuery::Entry => put_entry(deck, key, out),
        KeyQuery::Place => put_place(deck, key, out),
    }
}

// Appends the text of the entry of a key, or `none`.
fn put_entry(deck: &Deck, key: &Key, out: &mut AnswerWriter) {
    match deck.entry(key.kind, key.name.as_bytes()) {
        Some(entry) => out.put(entry.text()),
        None => out.put(b"none"),
    }
}

// Appends the place of the last line in force of a key, or `none`.
fn put_place(deck: &Deck, key: &Key, out: &mut AnswerWriter) {
    match deck.last_place(key) {
        Some(place) => out.put_number(place),
        None => out.put(b"none"),
    }
}

// The kinds of keys with their names.
const KINDS: &[(Kind, &[u8])] = &[
    (Kind::Unit, b" units, "),
    (Kind::Prefix, b" prefixes, "),
    (Kind::Func, b" functions, "),
    (Kind::List, b" lists, "),
];

// Appends the number of keys of each kind, and the numbers of lines and notices.
fn put_counts(deck: &Deck, out: &mut AnswerWriter) {
    for (kind, name) in KINDS {
        out.put_count(deck.key_count(*kind), name);
    }
    out.put_count(deck.lines().len(), b" lines, ");
    out.put_count(deck.notices().len(), b" notices");
}

// Appends all keys.
fn put_all_keys(alloc: Global, deck: &Deck, out: &mut AnswerWriter) {
    match deck.keys(alloc) {
        Ok(keys) => put_keys(out, &keys),
        Err(AllocError) => out.leave_out(),
    }
}

// Appends the messages.
fn put_messages(alloc: Global, deck: &Deck, out: &mut AnswerWriter) {
    match deck.messages(alloc) {
        Ok(messages) => put_texts(out, &messages),
        Err(AllocError) => out.leave_out(),
    }
}

// Appends the texts of the lines that define keys.
fn put_defining_lines(alloc: Global, deck: &Deck, out: &mut AnswerWriter) {
    match deck.defining(alloc) {
        Ok(texts) => put_texts(out, &texts),
        Err(AllocError) => out.leave_out(),
    }
}

// Appends all lines with their marks.
fn put_all_lines(alloc: Global, deck: &Deck, out: &mut AnswerWriter) {
    match deck.lines_from(alloc, 0, deck.lines().len()) {
        Ok(lines) => put_lines(out, &lines),
        Err(AllocError) => out.leave_out(),
    }
}

// Appends whether the snapshot, if there is one, is equal to the deck.
fn put_comparison(alloc: Global, deck: &Deck, snapshot: &Option<Deck>, out: &mut AnswerWriter) {
    let Some(other) = snapshot else {
        return out.put(b"no snapshot");
    };
    match is_equal(alloc, deck, other) {
        Ok(true) => out.put(b"equal"),
        Ok(false) => out.put(b"different"),
        Err(AllocError) => out.leave_out(),
    }
}

// Returns whether decks are equal.
fn is_equal(alloc: Global, deck: &Deck, other: &Deck) -> Result<bool, AllocError> {
    Ok(state_text(alloc, deck)? == state_text(alloc, other)?)
}

// Returns the lines, notices and settings of a deck. None of them has a line feed, so decks with the same text are
// equal.
fn state_text(alloc: Global, deck: &Deck) -> Result<Vec<u8>, AllocError> {
    let mut text = AnswerWriter::new(alloc);
    put_state(alloc, deck, &mut text);
    text.into_text()
}

// Appends the lines, notices and settings of a deck, separated by line feeds.
fn put_state(alloc: Global, deck: &Deck, out: &mut AnswerWriter) {
    put_all_lines(alloc, deck, out);
    out.put(b"\n");
    put_texts(out, deck.notices());
    out.put(b"\n");
    put_settings(out, deck.settings());
}
