//! Writing and reading the texts of keys.

ghost use Rattle.std.specs.Prelude.{◌≡◌, ◌≢◌, ◌⊎◌, ◌++◌, ℕ, List, IfOk, MatchOption, MatchResult, OnOk, Some, None};
ghost use Rattle.def_entry.specs.Keys as spec;
ghost use Rattle.def_entry.specs.declared.key_texts.KeyFault.TheVariants as key_fault;

use crate::concatenation::put_joined;
use crate::key::{Key, Kind};
use expr_tree::is_name;
use std::alloc::{AllocError, Global};
use units_io::Text;

/// The reason why bytes cannot be read as a key.
#[derive(Clone, Copy, Debug, PartialEq, Eq)]
pub enum KeyFault {
    /// The bytes are not the text of a key with a valid name.
    NotKey,
    /// Out of memory.
    OutOfMemory,
}

impl From<AllocError> for KeyFault {
    ghost use Rattle.std.specs.Prelude.{◌≡◌};
    ghost use Rattle.def_entry.specs.declared.key_texts.KeyFault.TheVariants.{OutOfMemory};

    ghost from_gives = { λ _ fault. fault ≡ OutOfMemory };

    fn from(_: AllocError) -> Self {
        KeyFault::OutOfMemory
    }
}

/// Returns the text of a key: the name for a unit, the name and `-` for a prefix, the name and `()` for a function or
/// a table, and `!unitlist ` and the name for a list. Fails only if memory runs out.
pub fn key_text(alloc: Global, key: &Key) -> Result<Text, AllocError>
    ensures { IfOk result (λ text. text ≡ spec.key_text key.now) }
{
    let mut text = Vec::new(alloc);
    put_key(&mut text, key)?;
    Ok(Text::from(text))
}

/// Appends the text of a key, as `key_text` returns it, to another text. Fails only if memory runs out.
pub fn put_key(text: &mut Vec<u8>, key: &Key) -> Result<(), AllocError>
    ensures { OnOk result (text.new.items ≡ text.old.items ++ spec.key_text key.now) }
{
    let name = key.name.as_bytes();
    match key.kind {
        Kind::Unit => Ok(text.extend_from_slice(name)?),
        Kind::Prefix => put_joined(text, name, b"-"),
        Kind::Func => put_joined(text, name, b"()"),
        Kind::List => put_joined(text, b"!unitlist ", name),
    }
}

/// Returns the key with a valid name whose text these bytes are. The error is `NotKey` if there is no such key.
pub fn read_key(alloc: Global, bytes: &[u8]) -> Result<Key, KeyFault>
    ensures exact { MatchResult result
        (λ key. spec.IsNamedEntryKey key × (spec.key_text key ≡ bytes.now))
        (λ fault. (fault ≡ key_fault.OutOfMemory) ⊎ ((fault ≡ key_fault.NotKey) × spec.IsNoKeySpelling bytes.now)) }
    ensures computed { MatchResult result
        (λ key. spec.key_of_spelling bytes.now ≡ Some key)
        (λ fault. (fault ≡ key_fault.OutOfMemory)
        ⊎ ((fault ≡ key_fault.NotKey) × (spec.key_of_spelling bytes.now ≡ None))) }
{
    let kind = shown_kind(bytes);
    let Some(shown) = shown_name(kind, bytes) else {
        return Err(KeyFault::NotKey);
    };
    if !is_name(shown) {
        return Err(KeyFault::NotKey);
    }
    let name = Text::from_bytes(alloc, shown)?;
    Ok(Key { kind, name })
}

// Returns the kind of key that the start and the end of a text indicate.
fn shown_kind(bytes: &[u8]) -> Kind
    ensures { result ≡ spec.kind_in_spelling bytes.now }
{
    if bytes.is_empty() {
        return Kind::Unit;
    }
    match bytes[bytes.len() - 1] {
        b')' => Kind::Func,
        b'-' => Kind::Prefix,
        _ if bytes[0] == b'!' => Kind::List,
        _ => Kind::Unit,
    }
}

// Returns the name in the text of a key of this kind.
fn shown_name(kind: Kind, bytes: &[u8]) -> Option<&[u8]>
    ensures { MatchOption result
        ((w : List ℕ) → spec.key_spelling kind w ≢ bytes.now)
        (λ name. spec.key_spelling kind name.now ≡ bytes.now) }
{
    match kind {
        Kind::Unit => Some(bytes),
        Kind::Prefix => bytes.strip_suffix(b"-".as_slice()),
        Kind::Func => bytes.strip_suffix(b"()".as_slice()),
        Kind::List => bytes.strip_prefix(b"!unitlist ".as_slice()),
    }
}
