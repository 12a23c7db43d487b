//! A key with its own memory, which is reused.

use deck::BorrowedKey;
use def_entry::{Key, Kind};
use std::alloc::{AllocError, Global};
use std::mem;
use units_io::Text;

/// A copy of one key after another. A copy costs no allocation unless its name is longer than those before.
pub(crate) struct KeyCopy {
    key: Key,
}

// Written by hand, so that code that drops a key copy need not prove anything about its contents.
impl Drop for KeyCopy {
    fn drop(self) {
        let KeyCopy { key: _ } = self;
    }
}

impl KeyCopy {
    /// Returns a copy of a key without a name.
    pub(crate) fn new(alloc: Global) -> KeyCopy {
        KeyCopy {
            key: Key {
                kind: Kind::Unit,
                name: Text::from(Vec::new(alloc)),
            },
        }
    }

    /// Replaces the copy by that of another key, and returns it, if there is another key.
    pub(crate) fn replace_if(
        &mut self,
        alloc: Global,
        key: Option<BorrowedKey<'_>>,
    ) -> Result<Option<&Key>, AllocError> {
        match key {
            Some(key) => Ok(Some(self.replace(alloc, key)?)),
            None => Ok(None),
        }
    }

    fn replace(&mut self, alloc: Global, key: BorrowedKey<'_>) -> Result<&Key, AllocError> {
        let old = mem::replace(&mut self.key.name, Text::from(Vec::new(alloc)));
        let mut name = old.into_bytes();
        name.clear();
        name.extend_from_slice(key.name)?;
        self.key.kind = key.kind;
        self.key.name = Text::from(name);
        Ok(&self.key)
    }
}
