//! Changes of settings.

use std::alloc::Global;
use units_io::{Text, Vars};

/// A change of settings: it puts another locale in force, if it has one, and replaces the variables from place `first`
/// up to `end`, exclusive, by `put`. It holds only what it puts, and nothing that stays.
pub struct SettingsChange {
    pub locale: Option<Text>,
    pub first: usize,
    pub end: usize,
    pub put: Vars,
}

impl Drop for SettingsChange {
    fn drop(self) {
        let SettingsChange {
            locale: _,
            first: _,
            end: _,
            put: _,
        } = self;
    }
}

impl SettingsChange {
    /// Returns the change that leaves all settings as they are. Allocates no memory.
    pub fn none(alloc: Global) -> SettingsChange {
        SettingsChange {
            locale: None,
            first: 0,
            end: 0,
            put: Vars::new(alloc),
        }
    }
}
