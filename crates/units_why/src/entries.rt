//! The entries of a deck, by the places of their lines.

use deck::Deck;
use def_entry::{FunctionDef, Key, What, key_text};
use expr_tree::{Tree, WordKind, WordUse, Words, put_words};
use std::alloc::{AllocError, Global};
use units_io::Text;

/// Returns the definition in the line in force at a place.
pub(crate) fn what_at(deck: &Deck, place: usize) -> Option<&What> {
    let key = deck.key_at(place)?;
    let entry = deck.entry_with_hint(place, key.kind, key.name)?;
    Some(entry.what)
}

/// Returns the key that the line at a place defines.
pub(crate) fn key_at(alloc: Global, deck: &Deck, place: usize) -> Result<Option<Key>, AllocError> {
    match deck.key_at(place) {
        Some(key) => Ok(Some(Key {
            kind: key.kind,
            name: Text::from_bytes(alloc, key.name)?,
        })),
        None => Ok(None),
    }
}

/// Returns the text of the key that the line at a place defines, or an empty text if it defines none.
pub(crate) fn key_text_at(alloc: Global, deck: &Deck, place: usize) -> Result<Text, AllocError> {
    match key_at(alloc, deck, place)? {
        Some(key) => key_text(alloc, &key),
        None => Ok(Text::from(Vec::new(alloc))),
    }
}

/// Returns the words of all expressions of an entry. For an alias, this is the name of its target as a call of an
/// inverse, because only a function can be called so.
pub(crate) fn entry_words<'a>(alloc: Global, what: &'a What) -> Result<Words<'a>, AllocError> {
    let mut words = Words::new(alloc);
    match what {
        What::Primitive | What::Dimensionless => {}
        What::Body(tree) => put_words(alloc, &mut words, tree)?,
        What::Function(function) => put_function_words(alloc, &mut words, function)?,
        What::Alias(target) => {
            let word = WordUse::new(target.as_bytes(), WordKind::Inverse);
            words.push(alloc, word)?;
        }
        What::Table(table) => put_words(alloc, &mut words, &table.unit)?,
        What::ListOf(parts) => {
            put_words_of_all(alloc, &mut words, parts.as_slice())?;
        }
    }
    Ok(words)
}

fn put_function_words<'a>(
    alloc: Global,
    words: &mut Words<'a>,
    function: &'a FunctionDef,
) -> Result<(), AllocError> {
    put_words_if(alloc, words, function.in_unit.as_ref())?;
    put_words_if(alloc, words, function.out_unit.as_ref())?;
    put_words(alloc, words, &function.forward)?;
    put_words_if(alloc, words, function.inverse.as_ref())
}

fn put_words_if<'a>(
    alloc: Global,
    words: &mut Words<'a>,
    tree: Option<&'a Tree>,
) -> Result<(), AllocError> {
    match tree {
        Some(tree) => put_words(alloc, words, tree),
        None => Ok(()),
    }
}

fn put_words_of_all<'a>(
    alloc: Global,
    words: &mut Words<'a>,
    trees: &'a [Tree],
) -> Result<(), AllocError> {
    for tree in trees {
        put_words(alloc, words, tree)?;
    }
    Ok(())
}
