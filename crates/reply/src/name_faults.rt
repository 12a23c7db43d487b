//! The texts of name faults.

ghost use Rattle.std.specs.Prelude.{◌≡◌, ◌++◌, OnOk};
ghost use Rattle.std.specs.List.{flat_map};
ghost use Rattle.def_entry.specs.Keys.{key_text};
ghost use Rattle.reply.specs.FaultTexts as spec;

use crate::fault_parts::put_named;
use def_entry::{Key, put_key};
use std::alloc::AllocError;
use table_names::NameFault;

/// Appends a name fault to a text: one line, with no tab before it and no line feed after it. The only error is lack of
/// memory.
pub fn put_name_fault(text: &mut Vec<u8>, fault: &NameFault) -> Result<(), AllocError>
    ensures { OnOk result (text.new.items ≡ text.old.items ++ spec.name_fault_text fault.now) }
{
    match fault {
        NameFault::Unknown(word, key) => put_word(text, b"unknown unit: ", word.as_bytes(), key),
        NameFault::Refused(word, key) => {
            put_word(text, b"refused function: ", word.as_bytes(), key)
        }
        NameFault::Cycle(keys) => {
            text.extend_from_slice(b"cycle: ".as_slice())?;
            put_chain(text, keys.as_slice())
        }
    }
}

// Appends words, a word, and the definition that contains it.
fn put_word(
    text: &mut Vec<u8>,
    words: &[u8],
    word: &[u8],
    key: &Option<Key>,
) -> Result<(), AllocError>
    ensures { OnOk result (text.new.items ≡ text.old.items
        ++ ((words.now ++ word.now) ++ spec.fault_place_text key.now)) }
{
    put_named(text, words, word)?;
    put_place(text, key)
}

// Appends the definition that contains a word, if there is one.
fn put_place(text: &mut Vec<u8>, key: &Option<Key>) -> Result<(), AllocError>
    ensures { OnOk result (text.new.items ≡ text.old.items ++ spec.fault_place_text key.now) }
{
    match key {
        Some(key) => put_key_behind(text, b" in ", key),
        None => Ok(()),
    }
}

// Appends keys, separated by arrows.
fn put_chain(text: &mut Vec<u8>, keys: &[Key]) -> Result<(), AllocError>
    ensures { OnOk result (text.new.items ≡ text.old.items ++ spec.fault_chain_text keys.now) }
{
    match keys.split_first() {
        Some((first, others)) => {
            put_key(text, first)?;
            put_others(text, others)
        }
        None => Ok(()),
    }
}

// Appends keys, each after an arrow.
fn put_others(text: &mut Vec<u8>, keys: &[Key]) -> Result<(), AllocError>
    ensures { OnOk result (text.new.items ≡ text.old.items ++ flat_map spec.fault_arrow_text keys.now) }
{
    for key in keys {
        put_key_behind(text, b" -> ", key)?;
    }
    Ok(())
}

// Appends words and a key.
fn put_key_behind(text: &mut Vec<u8>, words: &[u8], key: &Key) -> Result<(), AllocError>
    ensures { OnOk result (text.new.items ≡ text.old.items ++ (words.now ++ key_text key.now)) }
{
    text.extend_from_slice(words)?;
    put_key(text, key)
}
