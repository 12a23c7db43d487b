//! Effective settings: those of a deck, possibly with one of them changed.

ghost use Rattle.std.specs.Prelude.{◌≡◌, IfNone};
ghost use Rattle.std.specs.Option.{option_copied};
ghost use Rattle.units_io.specs.NamedValues.{HasNoTextOfName, named_text, with_named_text};
ghost use Rattle.deck.specs.SettingChanges as changes;

use crate::settings::Settings;
use std::marker::Model;
use units_io::{HashSeed, Text, Vars};

/// Settings with at most one variable or the locale changed. It borrows them, so that a change copies no other setting.
#[derive(Drop)]
pub(crate) struct InForce<'a> {
    locale: &'a [u8],
    vars: &'a Vars,
    change: Option<NewValue<'a>>,
}

/// A variable with a value that it does not have yet.
#[derive(Drop)]
pub(crate) struct NewValue<'a> {
    pub name: &'a [u8],
    pub value: &'a Text,
}

impl<'a> Model for InForce<'a> {
    ghost use Rattle.deck.specs.InForce.{changed_setting_variables};
    ghost use Rattle.deck.specs.declared.settings.Settings.{Settings};

    ghost Value = { Settings };

    ghost view = { λ s. record { locale = s.locale.now; vars = changed_setting_variables s.change s.vars.now } };
}

impl<'a> InForce<'a> {
    /// Returns these settings without a change.
    pub(crate) fn of(settings: &'a Settings) -> InForce<'a>
        ensures { result ≡ settings.now }
    {
        InForce {
            locale: settings.locale.as_bytes(),
            vars: &settings.vars,
            change: None,
        }
    }

    /// Returns these settings with this value of a variable.
    pub(crate) fn with_variable(
        settings: &'a Settings,
        name: &'a [u8],
        value: &'a Text,
    ) -> InForce<'a>
        ensures { result ≡ changes.settings_with_variable settings.now name.now value.now }
    {
        InForce {
            locale: settings.locale.as_bytes(),
            vars: &settings.vars,
            change: Some(NewValue { name, value }),
        }
    }

    /// Returns these settings with this locale.
    pub(crate) fn with_locale(settings: &'a Settings, locale: &'a [u8]) -> InForce<'a>
        ensures { result ≡ changes.settings_with_locale settings.now locale.now }
    {
        InForce {
            locale,
            vars: &settings.vars,
            change: None,
        }
    }

    /// Returns the locale.
    pub(crate) fn locale(&self) -> &[u8]
        ensures { result.now ≡ self.now.locale }
    {
        self.locale
    }

    /// Returns the hash seed of the table of variables.
    pub(crate) fn table_seed(&self) -> HashSeed {
        self.vars.table_seed()
    }

    /// Returns the value of a variable, or `None` if it is not set.
    pub(crate) fn value(&self, name: &[u8]) -> Option<&Text>
        ensures value { option_copied result ≡ named_text self.now.vars name.now }
        ensures absent { IfNone result (HasNoTextOfName self.now.vars name.now) }
    {
        match &self.change {
            Some(change) => changed_value(self.vars, change, name),
            None => self.vars.value(name),
        }
    }
}

// Returns the value of a variable, given the variables and a change of one of them.
fn changed_value<'a>(vars: &'a Vars, change: &NewValue<'a>, name: &[u8]) -> Option<&'a Text>
    ensures value { option_copied result
        ≡ named_text (with_named_text vars.now change.now.name.now change.now.value.now) name.now }
    ensures absent { IfNone result
        (HasNoTextOfName (with_named_text vars.now change.now.name.now change.now.value.now) name.now) }
{
    if name == change.name {
        return Some(change.value);
    }
    vars.value(name)
}
