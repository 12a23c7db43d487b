//! A two-way index between keys and numbers.

ghost use Rattle.std.specs.Prelude.{◌≡◌, ◌<◌, [], Some, false, length, slice_get, IfOk, IfSome, MatchOption, OnErr};
ghost use Rattle.def_entry.specs.Keys.{key};
ghost use Rattle.def_entry.specs.SameKeys.{is_entry_key_among};
ghost use Rattle.live_table.specs.KeyIndex.{IsNodeKeyAdded, node_key_bytes};
ghost use Rattle.live_table.specs.TableContents.{node_key_at};

use crate::stored_keys::{StoredKey, is_short, kind_of_byte, overwrite, store};
use def_entry::{Key, Kind};
use indexmap::IndexSet;
use std::alloc::{AllocError, Global};
use std::marker::Model;
use units_io::{HashSeed, Text};

/// Keys in insertion order. The number of a key is the number of keys before it.
pub(crate) struct KeyIndex {
    keys: IndexSet<StoredKey, HashSeed>,
    // the key that was looked up last, with room for the longest of all keys, so that a lookup allocates no memory
    wanted: StoredKey,
}

// Written by hand, so that code that drops a key index need not prove anything about its contents.
impl Drop for KeyIndex {
    fn drop(self) {
        let KeyIndex { keys: _, wanted: _ } = self;
    }
}

/// The number of a key, and whether the key is new.
#[derive(Clone, Copy, Drop)]
pub(crate) struct Added {
    pub(crate) number: usize,
    pub(crate) is_new: bool,
}

impl Model for KeyIndex {
    ghost use Rattle.std.specs.Prelude.{List};
    ghost use Rattle.std.specs.List.{All};
    ghost use Rattle.def_entry.specs.declared.key.Key.{Key};
    ghost use Rattle.live_table.specs.KeyIndex.{IsStoredNodeKey, decoded_node_keys};

    ghost Value = { List Key };

    ghost view = { λ x. decoded_node_keys x.keys.keys };

    ghost invariant = { λ x. All (IsStoredNodeKey x.wanted.capacity) x.keys.keys };
}

impl KeyIndex {
    /// Returns an empty index that uses a hash seed.
    pub(crate) fn new(alloc: Global, seed: HashSeed) -> KeyIndex
        ensures { result ≡ [] }
    {
        KeyIndex {
            keys: IndexSet::with_hasher(alloc, seed),
            wanted: StoredKey::new(alloc),
        }
    }

    /// The number of keys.
    pub(crate) fn len(&self) -> usize
        ensures { result ≡ length self.now }
    {
        self.keys.len()
    }

    /// Returns the number of a key, or `None` if it has none. It allocates no memory.
    pub(crate) fn number_of(&mut self, kind: Kind, name: &[u8]) -> Option<usize>
        ensures kept { self.new ≡ self.old }
        ensures number { MatchOption result (is_entry_key_among self.old (key kind name.now) ≡ false)
            (λ n. slice_get self.old n ≡ Some (key kind name.now)) }
    {
        if self.wanted.capacity() <= name.len() {
            return None;
        }
        overwrite(&mut self.wanted, kind, name).unwrap();
        self.keys.get_index_of(&self.wanted)
    }

    /// Returns the number of a key, or `None` if it has none. The only error is lack of memory.
    pub(crate) fn find(
        &self,
        alloc: Global,
        kind: Kind,
        name: &[u8],
    ) -> Result<Option<usize>, AllocError>
        ensures { IfOk result (λ number. MatchOption number (is_entry_key_among self.now (key kind name.now) ≡ false)
            (λ n. slice_get self.now n ≡ Some (key kind name.now))) }
    {
        let wanted = store(alloc, kind, name)?;
        Ok(self.keys.get_index_of(&wanted))
    }

    /// Returns the kind of the key with number `n`.
    pub(crate) fn kind(&self, n: usize) -> Kind
        requires { n < length self.now }
        ensures { result ≡ (node_key_at self.now n).kind }
    {
        kind_of_byte(self.bytes(n)[0])
    }

    /// Returns the name of the key with number `n`.
    pub(crate) fn name(&self, n: usize) -> &[u8]
        requires { n < length self.now }
        ensures { result.now ≡ (node_key_at self.now n).name }
    {
        &self.bytes(n)[1..]
    }

    // Returns the bytes of the key with number `n`.
    fn bytes(&self, n: usize) -> &[u8]
        requires { n < length self.now }
        ensures { result.now ≡ node_key_bytes (node_key_at self.now n) }
    {
        self.keys.as_slice()[n].as_slice()
    }

    /// Returns a copy of the key with number `n`, or a key with an empty name beyond the last. The only error is lack
    /// of memory.
    pub(crate) fn copy(&self, alloc: Global, n: usize) -> Result<Key, AllocError>
        ensures { IfOk result (λ key. key ≡ node_key_at self.now n) }
    {
        if self.len() <= n {
            let name = Text::from_bytes(alloc, b"")?;
            return Ok(Key {
                kind: Kind::Unit,
                name,
            });
        }
        let name = Text::from_bytes(alloc, self.name(n))?;
        let kind = self.kind(n);
        Ok(Key { kind, name })
    }

    /// Makes room for `more` further keys.
    pub(crate) fn reserve(&mut self, more: usize) -> Result<(), AllocError>
        ensures { self.new ≡ self.old }
    {
        self.keys.reserve(more)
    }

    /// Returns the number of a key, and adds the key with the next number if it has none. On failure nothing changes.
    pub(crate) fn add(
        &mut self,
        alloc: Global,
        kind: Kind,
        name: &[u8],
    ) -> Result<Added, AllocError>
        ensures ok { IfOk result (λ added. IsNodeKeyAdded (key kind name.now) self.old self.new added.number
            added.is_new) }
        ensures err { OnErr result (self.new ≡ self.old) }
    {
        if let Some(number) = self.number_of_long(kind, name) {
            return Ok(Added {
                number,
                is_new: false,
            });
        }
        self.insert(alloc, kind, name)
    }

    // Returns the number of a key that is too long to be stored inline, if it has one. So no memory is allocated for a
    // key that is known.
    fn number_of_long(&mut self, kind: Kind, name: &[u8]) -> Option<usize>
        ensures kept { self.new ≡ self.old }
        ensures number { IfSome result (λ n. slice_get self.old n ≡ Some (key kind name.now)) }
    {
        if is_short(name) {
            return None;
        }
        self.number_of(kind, name)
    }

    // Returns the number of a key, and stores the key if it has none.
    fn insert(&mut self, alloc: Global, kind: Kind, name: &[u8]) -> Result<Added, AllocError>
        ensures ok { IfOk result (λ added. IsNodeKeyAdded (key kind name.now) self.old self.new added.number
            added.is_new) }
        ensures err { OnErr result (self.new ≡ self.old) }
    {
        let bytes = store(alloc, kind, name)?;
        // Makes room to look the key up before it is added.
        self.wanted.clear();
        self.wanted.reserve(bytes.len())?;
        let (number, is_new) = self.keys.insert_full(bytes)?;
        Ok(Added { number, is_new })
    }
}
