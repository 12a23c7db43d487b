//! A name and a value in one text.

ghost use Rattle.std.specs.Prelude.{◌≡◌, IfOk};

use std::alloc::{AllocError, Global};
use std::marker::Model;
use units_io::Text;

/// A name with a value, in one allocation. Contracts see both.
pub struct NamedValue {
    text: Text,
    name_len: usize,
}

impl Drop for NamedValue {
    fn drop(self) {
        let NamedValue {
            text: _,
            name_len: _,
        } = self;
    }
}

impl Model for NamedValue {
    ghost use Rattle.std.specs.Prelude.{◌≤◌, ℕ, List, length, take, drop};

    ghost Value = { List ℕ × List ℕ };

    ghost view = { λ pair. (take pair.name_len pair.text, drop pair.name_len pair.text) };

    ghost invariant = { λ pair. pair.name_len ≤ length pair.text };
}

impl NamedValue {
    /// Copies a name and a value. The only error is running out of memory.
    pub fn new(alloc: Global, name: &[u8], value: &[u8]) -> Result<NamedValue, AllocError>
        ensures { IfOk result (λ pair. pair ≡ (name.now, value.now)) }
    {
        let mut bytes = Vec::with_capacity(alloc, name.len().saturating_add(value.len()))?;
        bytes.extend_from_slice(name)?;
        bytes.extend_from_slice(value)?;
        Ok(NamedValue {
            text: Text::from(bytes),
            name_len: name.len(),
        })
    }

    /// Borrows the name.
    pub fn name(&self) -> &[u8]
        ensures { result.now ≡ self.now.0 }
    {
        &self.text.as_bytes()[..self.name_len]
    }

    /// Borrows the value.
    pub fn value(&self) -> &[u8]
        ensures { result.now ≡ self.now.1 }
    {
        &self.text.as_bytes()[self.name_len..]
    }
}
