//! Name faults of the bodies of prefixes.

ghost use Rattle.std.specs.Prelude.{◌≡◌, ◌++◌, ◌<◌, IfOk, OnOk, Some, drop, length, position, take};
ghost use Rattle.std.specs.Option.{option_or};
ghost use Rattle.def_entry.specs.SameKeys as same_keys;
ghost use Rattle.survey.specs.PrefixFaults as spec;

use crate::keys::copy_key;
use def_entry::{Key, Keys};
use std::alloc::{AllocError, Global};
use table_names::NameFault;

/// Turns a name fault of the body of a prefix into one of the prefix: a word of the body is reported as a word in the
/// prefix, and a chain that contains the prefix begins and ends with it.
pub(crate) fn prefix_fault(
    alloc: Global,
    prefix: &Key,
    mut fault: NameFault,
) -> Result<NameFault, AllocError>
    ensures { IfOk result (λ checked_fault. checked_fault ≡ spec.checked_prefix_fault prefix.now fault) }
{
    match &mut fault {
        NameFault::Unknown(_, holder) => set_missing_holder(alloc, prefix, holder)?,
        NameFault::Refused(_, holder) => set_missing_holder(alloc, prefix, holder)?,
        NameFault::Cycle(chain) => turn_chain(alloc, prefix, chain)?,
    }
    Ok(fault)
}

// Sets the key whose entry includes a word to the prefix, if the word has no such key.
fn set_missing_holder(
    alloc: Global,
    prefix: &Key,
    holder: &mut Option<Key>,
) -> Result<(), AllocError>
    ensures { OnOk result (holder.new ≡ option_or holder.old (Some prefix.now)) }
{
    if holder.is_none() {
        *holder = Some(copy_key(alloc, prefix.kind, prefix.name.as_bytes())?);
    }
    Ok(())
}

// Turns a chain so that it begins and ends with a key, if it contains that key.
fn turn_chain(alloc: Global, key: &Key, chain: &mut Keys) -> Result<(), AllocError>
    ensures { OnOk result (chain.new ≡ spec.checked_chain_from_key key.now chain.old) }
{
    if let Some(place) = place_of(key, chain.as_slice()) {
        *chain = turned_to(alloc, place, chain.as_slice())?;
    }
    Ok(())
}

// Returns the chain from `place` on, continued around to `place` again.
fn turned_to(alloc: Global, place: usize, chain: &[Key]) -> Result<Keys, AllocError>
    requires { place < length chain.now }
    ensures { IfOk result (λ keys. keys ≡ drop place chain.now ++ take place (drop 1 chain.now)) }
{
    let mut keys = Keys::new(alloc);
    put_copies(alloc, &mut keys, &chain[place..])?;
    put_copies(alloc, &mut keys, &chain[1..=place])?;
    Ok(keys)
}

// Appends copies of keys to a list of keys.
fn put_copies(alloc: Global, keys: &mut Keys, further: &[Key]) -> Result<(), AllocError>
    ensures { OnOk result (keys.new ≡ keys.old ++ further.now) }
{
    for key in further {
        keys.push(alloc, copy_key(alloc, key.kind, key.name.as_bytes())?)?;
    }
    Ok(())
}

// Returns the first index of a key in a chain.
fn place_of(key: &Key, chain: &[Key]) -> Option<usize>
    ensures { result ≡ position (same_keys.is_same_entry_key key.now) chain.now }
{
    chain.iter().position(|other| is_same(key, other))
}

// Returns whether two keys have the same kind and the same name.
fn is_same(key: &Key, other: &Key) -> bool
    ensures { result ≡ same_keys.is_same_entry_key key.now other.now }
{
    key.kind == other.kind && key.name.as_bytes() == other.name.as_bytes()
}
