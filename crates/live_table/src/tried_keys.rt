//! The keys that the lookup of a word tries.

ghost use Rattle.std.specs.Prelude.{◌≡◌, ◌<◌, ◌++◌, ◌∷◌, [], length, OnOk};
ghost use Rattle.def_entry.specs.Keys.{key};
ghost use Rattle.live_table.specs.TableContents.{node_key_at};

use def_entry::Kind;
use name_lookup::{Looking, Present};
use std::alloc::{AllocError, Global};
use std::marker::Model;

/// The keys that the lookup of one word tries, in order. The memory is reused from one word to the next. No key gets a
/// number here.
pub struct TriedKeys {
    // the names, one after another
    names: Vec<u8>,
    keys: Vec<TriedKey>,
}

// Written by hand, so that code that drops tried keys need not prove anything about their contents.
impl Drop for TriedKeys {
    fn drop(self) {
        let TriedKeys { names: _, keys: _ } = self;
    }
}

// The kind of a key, and the range of its name.
#[derive(Clone, Copy, Drop)]
struct TriedKey {
    kind: Kind,
    start: usize,
    end: usize,
}

impl Model for TriedKeys {
    ghost use Rattle.std.specs.Prelude.{List};
    ghost use Rattle.def_entry.specs.declared.key.Key.{Key};
    ghost use Rattle.live_table.specs.TriedKeys.{AreNodeKeyRangesWithin, node_keys_of_ranges};

    ghost Value = { List Key };

    ghost view = { λ t. node_keys_of_ranges t.names.items t.keys.items };

    ghost invariant = { λ t. AreNodeKeyRangesWithin t.names.items t.keys.items };
}

impl Looking for TriedKeys {
    ghost use Rattle.std.specs.Prelude.{⊤};

    ghost looked = { λ tried. tried };

    ghost can_look = { λ _ _. ⊤ };

    ghost is_kept = { λ _ _ _. ⊤ };

    fn look<P: Present>(
        &mut self,
        alloc: Global,
        table: &P,
        kind: Kind,
        name: &[u8],
    ) -> Result<bool, AllocError> {
        self.push(kind, name)?;
        Ok(table.find(kind, name).is_some())
    }
}

impl TriedKeys {
    /// Returns an empty list of keys.
    pub fn new(alloc: Global) -> TriedKeys
        ensures { result ≡ [] }
    {
        TriedKeys {
            names: Vec::new(alloc),
            keys: Vec::new(alloc),
        }
    }

    /// The number of keys.
    pub fn len(&self) -> usize
        ensures { result ≡ length self.now }
    {
        self.keys.len()
    }

    /// Returns the kind of the key at a place.
    pub fn kind(&self, place: usize) -> Kind
        requires { place < length self.now }
        ensures { result ≡ (node_key_at self.now place).kind }
    {
        self.keys[place].kind
    }

    /// Returns the name of the key at a place.
    pub fn name(&self, place: usize) -> &[u8]
        requires { place < length self.now }
        ensures { result.now ≡ (node_key_at self.now place).name }
    {
        let tried = self.keys[place];
        &self.names[tried.start..tried.end]
    }

    /// Removes all keys.
    pub fn clear(&mut self)
        ensures { self.new ≡ [] }
    {
        self.keys.clear();
        self.names.clear();
    }

    // Appends a key. Each name is copied: a copy costs less than a comparison with the front of the word, and the names
    // of one word, which has at most 256 bytes, take some 64 KiB at most. If memory runs out, part of the name may have
    // been stored, but it belongs to no key.
    fn push(&mut self, kind: Kind, name: &[u8]) -> Result<(), AllocError>
        ensures { OnOk result (self.new ≡ self.old ++ key kind name.now ∷ []) }
    {
        let start = self.names.len();
        self.names.extend_from_slice(name)?;
        let end = self.names.len();
        self.keys.push(TriedKey { kind, start, end })?;
        Ok(())
    }
}
