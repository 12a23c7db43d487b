//! Readings of words, as values and as texts.

use crate::evaluator::Evaluator;
use crate::writer::Writer;
use deck::Deck;
use def_entry::{Key, Kind};
use expr_tree::{Tree, Trees};
use quantity::Quantity;
use std::alloc::{AllocError, Global};
use std::sync::ledger::Ledger;
use units_io::Text;
use value_sources::{Reading, value_tree};

// Returns the expression for a reading, or `None` if its prefix is absent.
fn reading_tree(alloc: Global, deck: &Deck, reading: &Reading) -> Result<Option<Tree>, AllocError> {
    match reading {
        Reading::Unit(unit) => Ok(Some(Tree::Word(unit.copy(alloc)?))),
        Reading::Prefix(prefix) => prefix_tree(alloc, deck, prefix),
        Reading::PrefixedUnit(prefix, unit) => match prefix_tree(alloc, deck, prefix)? {
            Some(body) => Ok(Some(prefixed_unit_tree(alloc, body, unit)?)),
            None => Ok(None),
        },
    }
}

// Returns the expression for a unit with a prefix, given the expression for the prefix.
fn prefixed_unit_tree(alloc: Global, prefix: Tree, unit: &Text) -> Result<Tree, AllocError> {
    let mut members = Trees::new(alloc);
    members.push(alloc, Tree::Group(Box::new(alloc, prefix)?))?;
    members.push(alloc, Tree::Word(unit.copy(alloc)?))?;
    Ok(Tree::Juxtaposed(members))
}

fn prefix_tree(alloc: Global, deck: &Deck, name: &Text) -> Result<Option<Tree>, AllocError> {
    let key = Key {
        kind: Kind::Prefix,
        name: name.copy(alloc)?,
    };
    value_tree(alloc, deck, &key)
}

/// Returns the value of a reading, or `None` if its prefix is absent or it has no value. Fails only if memory runs out.
pub(crate) fn reading_value<L: Ledger>(
    evaluator: &mut Evaluator<L>,
    reading: &Reading,
) -> Result<Option<Quantity>, AllocError> {
    match reading_tree(evaluator.alloc, evaluator.deck(), reading)? {
        Some(tree) => evaluator.value_if_any(&tree),
        None => Ok(None),
    }
}

/// Appends a reading of a word of `word_len` bytes: the names, preceded by a note if the word is their plural.
pub(crate) fn put_reading(out: &mut Writer, reading: &Reading, word_len: usize) {
    if names_len(reading) != word_len {
        out.put(b"the plural of ");
    }
    match reading {
        Reading::Unit(name) | Reading::Prefix(name) => out.put(name.as_bytes()),
        Reading::PrefixedUnit(prefix, unit) => {
            out.put(prefix.as_bytes());
            out.put_byte(b' ');
            out.put(unit.as_bytes());
        }
    }
}

// Returns the length of the names of a reading.
fn names_len(reading: &Reading) -> usize {
    match reading {
        Reading::Unit(name) | Reading::Prefix(name) => name.as_bytes().len(),
        Reading::PrefixedUnit(prefix, unit) => {
            let prefix = prefix.as_bytes().len();
            prefix.saturating_add(unit.as_bytes().len())
        }
    }
}
