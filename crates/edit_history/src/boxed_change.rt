//! Boxed changes of settings.

ghost use Rattle.std.specs.Prelude.{◌≡◌, IfOk};

use crate::settings_change::SettingsChange;
use std::alloc::{AllocError, Global};
use std::marker::Model;
use std::mem;

/// A change of settings in a box, so that steps of other kinds do not take up its room. Contracts see the change.
pub struct BoxedChange {
    inner: Box<SettingsChange>,
}

impl Drop for BoxedChange {
    fn drop(self) {
        let BoxedChange { inner: _ } = self;
    }
}

impl Model for BoxedChange {
    ghost use Rattle.edit_history.specs.contracts.settings_change.SettingsChange as stored;
    ghost use Rattle.edit_history.specs.declared.settings_change.SettingsChange.{SettingsChange};

    ghost Value = { SettingsChange };

    ghost coded = { stored.the_row.coded };

    ghost view = { λ b. b.inner.value };
}

impl BoxedChange {
    /// Puts a change in a box. The only error is running out of memory.
    pub fn new(alloc: Global, change: SettingsChange) -> Result<BoxedChange, AllocError>
        ensures { IfOk result (λ boxed. boxed ≡ change) }
    {
        match Box::new(alloc, change) {
            Ok(inner) => Ok(BoxedChange { inner }),
            Err(_) => Err(AllocError),
        }
    }

    /// Replaces the change in the box and returns the old one. Allocates no memory.
    pub fn replace(&mut self, change: SettingsChange) -> SettingsChange
        ensures before { result ≡ self.old }
        ensures after { self.new ≡ change }
    {
        mem::replace(&mut *self.inner, change)
    }

    /// Borrows the change.
    pub fn get(&self) -> &SettingsChange
        ensures { result.now ≡ self.now }
    {
        &self.inner
    }
}
