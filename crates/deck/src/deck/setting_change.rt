//! Changing one setting without copying the others.

ghost use Rattle.std.specs.Prelude.{◌≡◌, ◌-◌, ◌<◌, Ok, Some, IfOk, length, slice_get, take};
ghost use Rattle.std.specs.Bool.{OnTrue};
ghost use Rattle.units_io.specs.NamedValues.{named_text};
ghost use Rattle.deck.specs.Edits as edit;
ghost use Rattle.deck.specs.SettingChanges as changes;

use super::Deck;
use crate::fault::DeckFault;
use crate::force::InForce;
use crate::places::find_place_changes;
use crate::settings::Settings;
use def_entry::Keys;
use std::alloc::{AllocError, Global};
use units_io::{Text, Vars};

impl Deck {
    /// Sets a variable, in place if it already has a value and otherwise after the other variables, and returns the
    /// keys whose entries change. The only error is running out of memory; then nothing changes. Makes one pass over
    /// the deck, however many variables there are, and none if the variable already has this value.
    pub fn set(&mut self, alloc: Global, name: &[u8], value: &[u8]) -> Result<Keys, DeckFault>
        ensures { edit.IsDeckEdit (Ok (edit.deck_after_switching
            (changes.settings_with_variable self.old.settings name.now value.now) self.old)) self.old self.new result }
    {
        if has_value(&self.settings, name, value) {
            return Ok(Keys::new(alloc));
        }
        let value = Text::from_bytes(alloc, value)?;
        let settings = InForce::with_variable(&self.settings, name, &value);
        let changes = find_place_changes(alloc, &self.store, &self.last, &settings)?;
        let name = Text::from_bytes(alloc, name)?;
        self.covered_lines = None;
        self.settings.vars.set(alloc, name, value)?;
        self.last = changes.last;
        Ok(changes.keys)
    }

    /// Changes the locale, with the result, the error and the cost of `set`.
    pub fn set_locale(&mut self, alloc: Global, locale: &[u8]) -> Result<Keys, DeckFault>
        ensures { edit.IsDeckEdit (Ok (edit.deck_after_switching
            (changes.settings_with_locale self.old.settings locale.now) self.old)) self.old self.new result }
    {
        if self.settings.locale.as_bytes() == locale {
            return Ok(Keys::new(alloc));
        }
        let settings = InForce::with_locale(&self.settings, locale);
        let changes = find_place_changes(alloc, &self.store, &self.last, &settings)?;
        self.settings.locale = Text::from_bytes(alloc, locale)?;
        self.last = changes.last;
        self.covered_lines = None;
        Ok(changes.keys)
    }

    /// Removes the last variable, if there is one, and returns the keys whose entries change. The only error is running
    /// out of memory; then nothing changes.
    pub fn unset_last(&mut self, alloc: Global) -> Result<Keys, DeckFault>
        ensures { edit.IsDeckEdit (Ok (edit.deck_after_switching
            (changes.settings_without_last_variable self.old.settings) self.old)) self.old self.new result }
    {
        let settings = without_last(alloc, &self.settings)?;
        self.switch(alloc, settings)
    }
}

// Reports whether a variable has this value.
fn has_value(settings: &Settings, name: &[u8], value: &[u8]) -> bool
    ensures { OnTrue result (named_text settings.now.vars name.now ≡ Some value.now) }
{
    match settings.vars.value(name) {
        Some(current) => current.as_bytes() == value,
        None => false,
    }
}

// Returns a copy of the settings without the last variable.
fn without_last(alloc: Global, settings: &Settings) -> Result<Settings, AllocError>
    ensures { IfOk result (λ made. made ≡ changes.settings_without_last_variable settings.now) }
{
    let locale = settings.locale.copy(alloc)?;
    let vars = all_but_last(alloc, &settings.vars)?;
    Ok(Settings { locale, vars })
}

// Returns copies of all variables except the last.
fn all_but_last(alloc: Global, vars: &Vars) -> Result<Vars, AllocError>
    ensures { IfOk result (λ copies. copies ≡ take (length vars.now - 1) vars.now) }
{
    let mut copies = Vars::with_seed(alloc, vars.table_seed());
    let count = vars.len().saturating_sub(1);
    for i in 0..count {
        let variable = copied_variable(alloc, vars, i)?;
        copies.push(alloc, variable)?;
    }
    Ok(copies)
}

// Returns a copy of the variable at index `i`.
fn copied_variable(alloc: Global, vars: &Vars, i: usize) -> Result<(Text, Text), AllocError>
    requires { i < length vars.now }
    ensures { IfOk result (λ copy. slice_get vars.now i ≡ Some copy) }
{
    let Some((name, value)) = vars.get(i) else {
        unreachable!()
    };
    let name = Text::from_bytes(alloc, name)?;
    let value = value.copy(alloc)?;
    Ok((name, value))
}
