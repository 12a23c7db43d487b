//! The keys that a word refers to, as lists.

ghost use Rattle.std.specs.Prelude.{◌≡◌, ◌++◌, ◌∷◌, [], IfOk};
ghost use Rattle.def_entry.specs.Keys.{key};
ghost use Rattle.def_entry.specs.SameKeys.{is_entry_key_among};
ghost use Rattle.name_lookup.specs.Candidates as lookup;
ghost use Rattle.name_lookup.specs.Targets as spec;

use crate::key_order::find_targets;
use crate::lookup_record::Looking;
use crate::present::Present;
use def_entry::{Key, Keys, Kind};
use expr_tree::WordKind;
use std::alloc::{AllocError, Global};
use units_io::Text;

/// The keys that a word refers to, and those that were looked at to find them.
#[derive(Drop)]
pub struct Found {
    /// One key, a prefix and a unit, or no key if the word is unknown.
    pub targets: Keys,
    /// The keys that were looked at, in order, including absent ones.
    pub looked: Keys,
}

/// Finds the keys that a word refers to, in the order of [`find_targets`]. The only error is running out of memory.
pub fn resolve<P: Present>(
    alloc: Global,
    table: &P,
    word: &[u8],
    kind: WordKind,
) -> Result<Found, AllocError>
    ensures targets { IfOk result (λ found. found.targets
        ≡ (lookup.found_targets (is_entry_key_among (P.keys table.now)) (lookup.candidates kind word.now)).targets) }
    ensures looked { IfOk result (λ found. found.looked
        ≡ (lookup.found_targets (is_entry_key_among (P.keys table.now)) (lookup.candidates kind word.now)).keys_looked_at) }
{
    let mut looking = KeyRecord {
        keys: Keys::new(alloc),
    };
    let targets = find_targets(alloc, table, &mut looking, word, kind)?;
    let KeyRecord { keys: looked } = looking;
    let targets = copy_last_keys(alloc, &looked, targets.count())?;
    Ok(Found { targets, looked })
}

// A list of the keys that were looked at.
#[derive(Drop)]
struct KeyRecord {
    keys: Keys,
}

impl Looking for KeyRecord {
    ghost looked = { λ k. k.keys };

    ghost can_look = { λ _ _. Unit {0} };

    ghost is_kept = { λ _ _ _. Unit {0} };

    fn look<P: Present>(
        &mut self,
        alloc: Global,
        table: &P,
        kind: Kind,
        name: &[u8],
    ) -> Result<bool, AllocError> {
        let text = Text::from_bytes(alloc, name)?;
        self.keys.push(alloc, Key { kind, name: text })?;
        Ok(table.has(kind, name))
    }
}

// Returns copies of the last `count` keys, or of all if there are fewer.
fn copy_last_keys(alloc: Global, keys: &Keys, count: usize) -> Result<Keys, AllocError>
    ensures { IfOk result (λ copies. copies ≡ spec.last_lookup_keys count keys.now) }
{
    let first = keys.len().saturating_sub(count);
    copy_keys(alloc, &keys.as_slice()[first..])
}

// Returns copies of keys.
fn copy_keys(alloc: Global, keys: &[Key]) -> Result<Keys, AllocError>
    ensures { IfOk result (λ copies. copies ≡ keys.now) }
{
    let mut copies = Keys::new(alloc);
    for key in keys {
        copies.push(alloc, copy_key(alloc, key)?)?;
    }
    Ok(copies)
}

// Returns a copy of a key.
fn copy_key(alloc: Global, key: &Key) -> Result<Key, AllocError>
    ensures { IfOk result (λ copy. copy ≡ key.now) }
{
    Ok(Key {
        kind: key.kind,
        name: key.name.copy(alloc)?,
    })
}
