//! Lookup of a word in a table of a few keys.

ghost use Rattle.std.specs.Prelude.{◌≡◌};
ghost use Rattle.std.specs.List.{position};
ghost use Rattle.def_entry.specs.Keys as key_spec;
ghost use Rattle.def_entry.specs.SameKeys.{is_same_entry_key, is_same_key_kind};

use crate::lines::{AnswerWriter, CallFault, key_in, meaning_of, split_at_space};
use def_entry::{Key, Keys, Kind};
use expr_tree::WordKind;
use name_lookup::{Present, resolve};
use std::alloc::{AllocError, Global};

// A list of keys as a table.
#[derive(Drop)]
struct Table {
    keys: Keys,
}

impl Table {
    // Reads a table of keys separated by semicolons. Skips texts that are not keys.
    fn read(alloc: Global, texts: &[u8]) -> Result<Table, AllocError> {
        let mut keys = Keys::new(alloc);
        for text in texts.split(|byte| *byte == b';') {
            if let Some(key) = key_in(alloc, text)? {
                keys.push(alloc, key)?;
            }
        }
        Ok(Table { keys })
    }
}

impl Present for Table {
    ghost keys = { λ table. table.keys };

    ghost place = { λ table k. position (is_same_entry_key k) table.keys };

    fn find(&self, kind: Kind, name: &[u8]) -> Option<usize> {
        place_of(self.keys.as_slice(), kind, name)
    }
}

// Returns the place of the first key with this kind and name.
fn place_of(keys: &[Key], kind: Kind, name: &[u8]) -> Option<usize>
    ensures { result ≡ position (is_same_entry_key (key_spec.key kind name.now)) keys.now }
{
    keys.iter().position(|key| is_key(key, kind, name))
}

// Returns whether the key has this kind and name.
fn is_key(key: &Key, kind: Kind, name: &[u8]) -> bool
    ensures { result ≡ is_same_entry_key (key_spec.key kind name.now) key.now }
{
    is_kind(kind, key.kind) && name == key.name.as_bytes()
}

// Returns whether the kinds are equal.
fn is_kind(kind: Kind, other: Kind) -> bool
    ensures { result ≡ is_same_key_kind kind other }
{
    kind == other
}

// The words for the positions of a word.
const POSITIONS: &[(&[u8], WordKind)] = &[
    (b"plain", WordKind::Plain),
    (b"call", WordKind::Call),
    (b"inverse", WordKind::Inverse),
];

// Appends the answer to a lookup, given the position of the word, the word and the keys.
pub(crate) fn put_lookup(
    alloc: Global,
    text: &[u8],
    out: &mut AnswerWriter,
) -> Result<(), CallFault> {
    let (position, text) = split_at_space(text);
    let (word, keys) = split_at_space(text);
    let Some(kind) = meaning_of(POSITIONS, position) else {
        return Err(CallFault::BadCall);
    };
    let table = Table::read(alloc, keys)?;
    put_found(alloc, &table, word, kind, out);
    Ok(())
}

// Appends the keys that a word of this kind refers to, and those that were looked at.
fn put_found(alloc: Global, table: &Table, word: &[u8], kind: WordKind, out: &mut AnswerWriter) {
    match resolve(alloc, table, word, kind) {
        Ok(found) => {
            out.put(b"found");
            put_keys(out, found.targets.as_slice());
            out.put(b"; looked at");
            put_keys(out, found.looked.as_slice());
        }
        Err(AllocError) => out.leave_out(),
    }
}

// Appends the texts of keys, each after a space.
fn put_keys(out: &mut AnswerWriter, keys: &[Key]) {
    for key in keys {
        out.put(b" ");
        out.put_key(key);
    }
}
